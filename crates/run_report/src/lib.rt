//! The report of a run: counted while its events go by, and printed.
//!
//! `cluster_rules` stands below, with the definition of the report of a list of events. The simulated cluster stands above,
//! and whoever reads a run's history. It carries a part of *part correctness*: what was counted is the report of the events, and what is
//! printed are its lines.
#![tactic(auto)]

mod kinds;
mod starts;
pub mod tally;
mod text;

pub use tally::Tally;
pub use text::{push_count, push_report};
