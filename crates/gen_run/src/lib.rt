//! Jobs that numbers make: their texts, and their simulation over no file.
//!
//! `sim_run` stands below, with runs of jobs by a simulated cluster, and `io_edge` with the site in memory that such a run saves
//! into. The program's top call stands above, which reads the text and prints the lines. It carries its share of *value
//! correctness*: the digest that is told is that of the file which the sequential evaluation makes, and the report is that of the
//! events that the number draws.
#![tactic(auto)]

pub mod ends;
mod lines;
mod simulated;
mod text;

pub use ends::GenEnded;
pub use simulated::simulate_alone;
pub use text::gen_job;
