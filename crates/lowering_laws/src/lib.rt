//! What a job is lowered to, and what the keys of its graph hold.
//!
//! The definitions of `specs/` say which tasks each operation becomes, which of them are run, under which numbers, and which
//! keys are saved. Below stand the definitions of layouts (`chunk_layout`), of what a task computes (`block_kernels`) and of
//! graphs (`task_graph`); above, `block_lowering` makes exactly what is defined here. This crate carries the law of lowering:
//! a block of the graph that is run holds the elements of the sequential evaluation in its region.
#![tactic(auto)]

pub mod laws;
pub mod values;
