//! The states of the nodes of a running cluster, and what one turn makes of each: it chooses one event, records it with one step of the core,
//! and sends what the step has to send.
#![tactic(auto)]

mod blocks;
mod choice;
mod client;
mod cores;
mod evidence;
mod feeds;
mod hearing;
mod history;
mod holding;
mod laws;
mod links;
mod marks;
mod past;
mod preparing;
mod scheduler;
mod script;
mod store;
mod why;
mod worker;
mod worker_choice;
mod worker_turns;

pub use blocks::Blocks;
pub use choice::{Course, Due, Plan};
pub use client::{ClientNode, ClientTurn};
pub use cores::{GatheringCore, SchedulingCore, WorkingCore};
pub use evidence::{
    Blame, ClientCause, Fault, RunGraph, SchedCause, SchedOut, WorkerCause, WorkerOut,
};
pub use feeds::Feeds;
pub use history::WorkerHistory;
pub use holding::Sought;
pub use laws::{blames_are_faulty, clients_know_right_blames, workers_err_after_zero_divisors};
pub use links::{SchedulerLinks, WorkerLinks};
pub use past::SchedulerHistory;
pub use scheduler::{SchedulerNode, SchedulerTurn};
pub use store::{BlockStore, Got};
pub use why::Why;
pub use worker::{Finished, Task, WorkerNode};
pub use worker_turns::{Prepared, TaskEnd, WorkerStep, WorkerTurn};
