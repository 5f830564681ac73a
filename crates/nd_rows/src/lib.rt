//! Regions of arrays that are stored in row-major or in column-major order, element by element as they are stored.
//!
//! It stands on the shapes alone, and the files stand on it. It carries that a row of a region is stored in one piece, where
//! each element of a region is stored, and that a block is turned from column-major to row-major order element for
//! element ([NumPy's memory layout](https://numpy.org/doc/stable/dev/internals.html)).
#![tactic(auto)]

pub mod target;
pub mod turn;
pub mod walk;

pub use target::BlockTargets;
pub use turn::from_column_major;
pub use walk::RegionWalk;
