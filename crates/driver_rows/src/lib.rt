//! Drivers over rows of cells of any states: they are made, run in threads and taken back, and then all cells are closed.
//!
//! Below it stands `turn_cell`, with the cells and the passes; what nodes do in their turns is told by whoever runs them, above. It carries the
//! promise that whatever the threads do, each node goes on only by turns that its cell takes: one entry and one step, or neither, or past the
//! limit of its history one step at most.
#![tactic(auto)]

mod bell;
mod driver;
mod run;
mod turns;

pub use bell::{Bell, Manner};
pub use driver::{Cluster, Driver, run_drivers};
pub use run::{Closed, run_cells};
pub use turns::{Attends, ClientNews, Drives, SchedulerNews, Schedules, Waits, WorkerNews, Works};
