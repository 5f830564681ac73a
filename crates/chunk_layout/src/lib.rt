//! Layouts: how an array is cut into blocks, and what blocks of one layout are made of in another.
//!
//! It stands on `nd_shape` alone; the kernels' graph, the lowering of a job and its law stand on it. A layout has for each
//! axis the sizes of its chunks, as Dask's page on chunks has them, and its blocks are numbered in row-major order. It
//! keeps the running sums of the sizes, so that no question adds them up anew. This crate carries that a layout is cut as
//! it was asked for or refused for a stated cause, and that unions of boundaries, slices, plans of rechunking and trees of
//! partial results are exactly those of the definitions in `specs/`.
#![tactic(auto)]

pub mod cuts;
pub mod fold_tree;
pub mod layout;
pub mod merge;
pub mod normal;
pub mod plans;
pub mod slices;

pub use cuts::Cuts;
pub use fold_tree::{Levels, tree};
pub use layout::{Layout, numbers_at};
pub use merge::{unify, union_of};
pub use normal::{blocks_of, normalize};
pub use plans::plan;
pub use slices::{ChunkSteps, chunks_taken, slice_layout, slice_of};
