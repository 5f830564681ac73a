//! The grammar of jobs.
//!
//! The grammar stands in `specs/JobGrammar.antt` in the form in which `docs/FORMATS.md` shows it: named parts made of sequences,
//! choices and repetitions of tokens, with the actions that go with them. `IsJob` says what it derives: the kinds of a job's
//! tokens, with the actions between them. A [`JobReader`] is given the kinds of a text's tokens one after another. It runs on rows
//! in which the next token decides, which are proved to derive what the grammar derives.
//!
//! Below it stand the rows' reader in the crate `grammar` and the kinds of tokens in `job_tokens`. Above it stands the reader of
//! jobs, which gives the actions their meaning.
#![tactic(auto)]

pub mod action;
pub mod reader;
mod rows;

pub use action::{Action, action_of};
pub use reader::JobReader;
