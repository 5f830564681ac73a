//! Which nodes of an expression are needed, where some of them are wanted.
//!
//! It stands on the expressions of `array_expr`, and the runs of jobs stand on it. It carries that exactly the nodes that
//! the wanted ones reach over operands are marked: the least set that has the wanted nodes and with each node its operands.
#![tactic(auto)]

mod marks;

pub use marks::needed;
