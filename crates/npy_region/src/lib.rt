//! Parts of NumPy's `.npy` files: regions of a file's array, read and written, and the byte runs that hold them.
//!
//! It stands on the heads of `npy_codec` and on the walks of `nd_rows`, and the sequential evaluation and all that loads
//! blocks stand on it. It carries the promise that what is read of a region is its elements, in row-major order whichever
//! order the file has and widened from whichever type, that a region is refused exactly where its last run ends past the
//! file, that runs hold each element once and are as few as there can be, and that a region is written with a block's
//! elements and nothing beside it. A fault of reading comes only where the store counted one, and one of writing only where
//! the file did.
#![tactic(auto)]

mod cells;
mod kernels;
mod region;
mod runs;
mod write;

pub use region::read_region;
pub use runs::{Run, RunList, region_runs};
pub use write::write_region;
