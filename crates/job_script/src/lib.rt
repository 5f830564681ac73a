//! What a job's text asks for: operations on earlier nodes, in order, with the files that are read and saved.
//!
//! [`read_script`] gives the steps of a text their meaning, as far as it does not rest on the shapes of arrays: names stand for
//! nodes, numbers are read, and each operation names its operands by their numbers. Nodes are numbered from 0 in the order in which
//! their operators are complete. `after` of `specs/Drafts.antt` says what a step does, and `IsScript` what a text asks for and where
//! it is refused.
//!
//! Below it stand the steps (`job_steps`) and the operations (`array_expr`). Above it stands the reader of jobs, which adds the
//! nodes: an operation that does not fit its operands is refused there, before whatever is refused here behind it.
#![tactic(auto)]

mod arguments;
pub mod asked;
mod draft;
pub mod named;
mod operands;
pub mod reader;
mod scope;
mod words;

pub use asked::{Asked, Placed, Refusal, Why};
pub use named::Named;
pub use reader::{Script, read_script};
