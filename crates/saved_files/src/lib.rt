//! The files that a job saves, written block by block.
//!
//! It stands on the outside (`io_edge`), on the heads of `npy_codec` and on the regions of `npy_region`; the runs of jobs stand
//! on it. It carries its share of *value correctness*: whatever fails, each byte of a saved file is the right one for its place
//! or 0, and where the blocks that were written hold every index of an array, the file is that of the array, byte for byte.
#![tactic(auto)]

mod files;
mod laws;
mod open;
mod rows;

pub use files::SavedFiles;
pub use laws::filled_is_whole;
