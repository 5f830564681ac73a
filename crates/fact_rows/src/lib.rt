//! Rows and grids of facts: what a core stores by key, and by worker or client and key, seen in contracts as functions.
//!
//! A [`Row`] has one member per key. Of what isn't `Copy` it has places, in which something may stand. A [`Grid`] is rows of one width, one per worker or client. Each read is the value
//! of a function, each write puts one value into it, so that a contract above speaks of facts and not of lists.
//! `cluster_rules` stands below, for the words of the functions. The cores of the scheduler, a worker and a client
//! stand above. It carries a part of *part correctness*: what a core reads is what it last wrote.
#![tactic(auto)]

mod rows;

pub use rows::{Grid, Row};
