//! Array expressions: nodes that name earlier ones, with the shape of each and why one is refused.
//!
//! It stands on `nd_shape` and `nd_grid`; the job's text, the lowering and the evaluation by formulas stand on it. An
//! expression is a list of nodes, each an operation on earlier nodes by NumPy's and Dask's rules. This crate carries that
//! `add_node` takes exactly the operations that fit their operands and names the first cause where one doesn't, and it has
//! the definition of what a node holds at an index, `elem`, which the whole program is measured against.
#![tactic(auto)]

pub mod axes;
pub mod error;
pub mod expr;
mod joining;
mod leaf;
pub mod op;
mod result;
pub mod slicing;

pub use error::{NodeError, Quantity};
pub use expr::{Expr, NODES, Node};
pub use nd_grid::{Binary, Fold};
pub use op::{NodeId, NodeIds, Op, Span, Spans};
