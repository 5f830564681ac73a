//! A simulated cluster: which event comes next is drawn from a number, so that the same number makes the same run.
//!
//! `cluster_world` stands below, with the world whose events are made, `quiet_laws`, by which a turn is left wherever something
//! moves, `run_report`, with the report, and `cluster_rules`, with the definition of the events that are drawn. The program
//! stands above. It carries its share of *value correctness*: exactly the events that the rules draw are made, and where the
//! client was told of a failure, a needed key is named that is faulty or was killed. It carries *quiet termination*: while a worker
//! is there it comes to an end, or makes as many events as a world takes. It always returns.
#![tactic(auto)]

pub mod act;
pub mod choice;
mod choose;
pub mod ended;
mod opening;
pub mod plan;
pub mod position;
pub mod run;
pub mod script;
pub mod seen;
mod turn;
pub mod whole;
pub mod words;

pub use act::SimError;
pub use ended::Fault;
pub use plan::SimPlan;
pub use whole::{SimEnd, simulate};
