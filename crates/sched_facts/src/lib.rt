//! The scheduler's facts as they are stored, and the rows that are derived from them.
//!
//! `cluster_rules` stands below, with the definitions of the scheduler's facts and of what is derived from them, and
//! `fact_rows`, with the rows. The scheduler's core stands above. [`FactTable`] holds the facts: each change of a fact
//! is one call, whose contract names the facts after it, and no facts are ever out of range. It keeps sums running, so
//! that a question about a worker or a key visits no other, and what it knows of a worker and a key in pages (`sheets`),
//! so that a worker that joins visits no key. [`DerivedRows`] are refilled from the facts in place: which keys are known,
//! to blame, needed and ready, and how many wait for each. It carries a part of *part correctness*: what is stored is
//! the facts, and what is derived is what the definitions derive.
//!
//! Terms and states are those of "Scheduling State" of Dask.distributed's documentation
//! (<https://distributed.dask.org/en/stable/scheduling-state.html>).
#![tactic(auto)]

pub mod derived;
mod sheets;
mod store;
mod sums;
pub mod table;

pub use derived::{DerivedRows, refill};
pub use table::FactTable;
