//! The tokens of a job's text: words, names, numbers, file names and signs, with what stands between them.
//!
//! A job is bytes. Space, tab and carriage return are blanks, and `#` begins a comment up to the newline, which may hold any
//! byte. A newline ends a statement, and is a token, except between open parentheses or brackets, where it is a blank. Names
//! are as Python's identifiers in ASCII, and the reserved words are tokens of their own. Numbers are decimal digits, of any
//! length. A file name stands between double quotes: 1 to 255 bytes from 32 to 126 without `"` and `\`. Where no token begins,
//! the byte is refused.
//!
//! What the token at a place of a text is, is said by `next_at` of `specs/Texts.antt`. [`next_token`] finds it, [`number`] says
//! what digits say, and [`place_of`] in which line and column a byte stands. This crate stands alone. Above it stand the
//! grammar of jobs and the reader of jobs.
#![tactic(auto)]

pub mod bytes;
pub mod kind;
pub mod place;
pub mod token;

pub use bytes::number;
pub use kind::Kind;
pub use place::{Place, place_of};
pub use token::{Next, Token, next_token};
