//! Reads texts of a grammar in which the next token decides.
//!
//! A grammar is a table: for each part of a text, and each kind of token, the rule that stands for what follows such
//! a token. A [`Reader`] is given the kinds of a text's tokens one after another. It does the grammar's actions in the order
//! in which they are complete, and refuses the first token after which no text of the grammar goes on.
//!
//! Which texts the grammar has is said by `DerivesIn` of `specs/Grammars.antt`: a text is derived by taking rules, in any
//! way. That the reader's one way is the only one, for a table that passes the test `is_ll1`, are the laws of the module
//! [`laws`]. This crate stands alone. Above it stand the readers of file headers and of jobs.
#![tactic(auto)]

pub mod laws;
mod left;
pub mod reader;
pub mod reply;
pub mod symbol;
pub mod table;

pub use reader::Reader;
pub use reply::Reply;
pub use symbol::{KINDS, Row, Rule, Symbol};
pub use table::Table;
