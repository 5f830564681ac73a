//! Reads the header of a `.npy` file of version 1.0, 2.0 or 3.0: the Python dictionary between the fixed bytes and the data.
//!
//! The format is that of NEP 1, "A simple file format for NumPy arrays". Which bytes are a header, and what it says, is the
//! relation `IsHeader` of `specs/Headers.antt`, stated by cases on its own. The reader runs on the rows of `rows.rt` and the rules of
//! `rules.rt`, which `tools/header_rows.py` writes, and [`read_header_text`] promises the relation: a wrong row is refused by the proof.
//! Below stands the crate `grammar`, above it the reader of whole files.
#![tactic(auto)]

pub mod fields;
mod rows;
mod rules;
mod scanner;
pub mod text;

pub use fields::{HeaderError, HeaderFields};
pub use text::read_header_text;
