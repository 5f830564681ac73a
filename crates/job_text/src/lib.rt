//! Jobs: array expressions with the files that they read and save, made of a job's text, or the first place at which it is refused.
//!
//! [`parse`] accepts exactly the texts that the grammar of jobs derives, that keep the rules on names, files, numbers and limits,
//! and whose operations fit the shapes of their operands. `IsJob` of `specs/Jobs.antt` says which job a text is, and `IsRefused` why
//! it is none: the first refusal in the order of the text, with its line, its column and its kind.
//!
//! Below it stand what a text asks for (`job_script`), the type of jobs (`job_plan`) and the expressions (`array_expr`). Above it
//! stand the laws of texts and the program.
#![tactic(auto)]

mod builder;
mod cursor;
pub mod error;
pub mod job;
mod operands;
pub mod reader;

pub use error::{JobError, JobKind, Quantity};
pub use job::Parsed;
pub use reader::{JOB_BYTES, parse};
