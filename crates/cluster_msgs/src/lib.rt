//! What the scheduler, its workers and its clients tell each other, and what a job is to them.
//!
//! Of this repository only `sequences`, for its lists, and the facts of `small_facts` stand below. The definitions of the machines, their cores, the links and the wire
//! stand above, and all cite the types here. It says what value correctness speaks of: the value of a key, its cone,
//! the keys at fault (`laws`), what a job's `run` answers, and what fits the label of a run. Besides, a copy equals its
//! source, and a graph's dependencies are below their keys.
#![tactic(auto)]

pub mod cores;
pub mod events;
pub mod jobs;
pub mod labels;
pub mod laws;
pub mod lists;
pub mod messages;
pub mod packets;
pub mod shape;

pub use cores::{
    ClientEvent, ClientInstruction, ClientOut, End, Instruction, Instructions, Outbox, Phase,
    SchedEvent, Steal, Stop, WState, WorkerEvent,
};
pub use events::{Asker, Entry, Event, History, Item, Report, Script};
pub use jobs::{JobSpec, Outcome, RunFail};
pub use labels::{Label, Named, Naming};
pub use lists::{Cells, Duplicate, Holders, KeyList, Sequence, WhoHas};
pub use messages::{Down, FromClient, Message, Peer, Role, ToClient, Up};
pub use packets::Packet;
pub use shape::{GraphRow, GraphShape, RowsError};
