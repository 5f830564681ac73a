//! Operations on blocks: what a task makes of the blocks of its dependencies.
//!
//! It stands on `nd_shape` and `nd_grid`; the graph of tasks and what runs it stand on it. `specs/Kernels.antt` says what
//! each operation makes of its inputs by the formulas on grids by which the elements of whole arrays are defined; the
//! bodies here are fast forms of them, and each is proved to make exactly the block of its formula, or to tell the first
//! place in row-major order at which a divisor is 0.
#![tactic(auto)]

pub mod assemble;
pub mod binary;
pub mod broadcast;
pub mod choice;
pub mod choices;
pub mod contract;
pub mod gather;
pub mod inputs;
pub mod lines;
pub mod pairs;
pub mod reduce;
pub mod rows;
pub mod running;
pub mod shapes;
pub mod slope;
pub mod source;
pub mod spec;
pub mod taking;

pub use running::run;
pub use spec::{Operand, Spec};
