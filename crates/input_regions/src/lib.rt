//! Which region of each node of an expression a region of one node needs.
//!
//! It stands on the expressions of `array_expr`, and the evaluation over files, `plain_block`, stands on it. It carries that
//! `needed_regions` gives for each node the least box that has all that the needed regions of its users are made of, by the
//! index formulas of the operations; in one pass from the last node to the first, each node once.
#![tactic(auto)]

mod along;
mod boxes;
mod branches;
mod operands;
mod regions;
mod uses;

pub use regions::{needed_regions, needed_regions_are_one};
