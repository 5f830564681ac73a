//! A client's core: it wants keys, hears where their blocks are, gathers them from the workers that hold them, and lets
//! keys go ("Scheduling State" of Dask.distributed's documentation, <https://distributed.dask.org/en/stable/scheduling-state.html>,
//! on `client_desires_keys` and `gather`).
//!
//! `cluster_rules` stands below, with the table of a client's events, `fact_rows` and `open_asks`, with what is stored by
//! key and the asks. A node that runs a client stands above, and the world of the whole cluster. It carries a part of *part
//! correctness*: each event that is taken makes of the facts what the table says, and appends exactly its instructions, in
//! their order.
#![tactic(auto)]

pub mod client;
mod events;
mod peers;
mod questions;
pub mod table;

pub use client::ClientCore;
