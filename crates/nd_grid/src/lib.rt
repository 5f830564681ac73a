//! The index formula of each array operation, and blocks made by it.
//!
//! It stands on `nd_shape`; the expressions and the kernels stand on it. A grid is a shape and what stands at each index,
//! or nothing where a divisor is 0; `specs/Grid.antt` has one function from grids to a grid for each operation, so that
//! whole arrays and blocks of them are compared by one definition. This crate carries int64 arithmetic, which wraps modulo
//! 2^64, and that `tabulate` makes exactly the block of a formula, or tells the first place at which it has nothing.
#![tactic(auto)]

pub mod element;
pub mod formula;
pub mod int64;
pub mod operand;
pub mod operation;
pub mod plain;

pub use element::{element_at, element_under, index_under};
pub use formula::{Fail, Formula, tabulate};
pub use operation::{Binary, Fold};
