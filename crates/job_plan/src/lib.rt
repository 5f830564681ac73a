//! Jobs without their texts: an expression, the files of its inputs, and the nodes that are saved, each in a file of its own.
//!
//! It stands on the expressions (`array_expr`). The reader of texts (`job_text`) makes jobs, and their runs (`job_run` and what
//! stands on it) take them. `Plan` of `specs/Plan.antt` is what all contracts of runs say a job is, and `IsRunnable` which jobs can
//! be run; this crate itself promises nothing.
#![tactic(auto)]

mod job;

pub use job::{Job, Save};
