//! The asks for blocks that a worker or a client has open, and what goes into one.
//!
//! A worker and a client ask a peer for keys, one ask at a time to each peer, and each key with the copy that the peer is
//! said to hold ("Worker State Machine" of Dask.distributed, <https://distributed.dask.org/en/stable/worker-state.html>,
//! under "flight"). `fact_rows` stands below, for the keys that are on their way, and `cluster_rules`, with the words of
//! the contracts. The facts of a client stand above, and those of a worker may. It carries a part of *part correctness*:
//! an ask is open from its opening to its end, and takes the keys that the rules say.
#![tactic(auto)]

mod asks;
mod items;
mod marks;

pub use asks::{Asks, OpenAsk};
pub use items::{fitting_count, item_at, keys_of, push_item};
pub use marks::mark_items;
