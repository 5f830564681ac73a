//! The evaluation of array expressions by the formulas, one node after another.
//!
//! It stands on the expressions of `array_expr` and the index formulas of `nd_grid`; what reads files and writes them
//! stands above it. It carries that each array is exactly what the definition `elem` says over the blocks of the inputs,
//! and that a region of it is its elements, or the first place at which nothing stands.
#![tactic(auto)]

mod contraction;
mod eval;
pub mod held;
mod joining;
mod making;
mod pairing;
mod picking;
pub mod plain;
mod weaving;

pub use held::Held;
pub use plain::{PlainOutcome, evaluate, evaluate_all};
