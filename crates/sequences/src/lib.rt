//! A list that contracts see as a list, whatever holds it.
//!
//! Nothing stands below. The lowest crates of both sides, `nd_shape` and `cluster_msgs`, stand above and re-export it. It
//! carries no promise of its own: a copy equals its source, and after want of memory a list is as it was.
#![tactic(auto)]

mod list;

pub use list::{Duplicate, Sequence};
