//! A set of keys: one bit a key, and one bit a word of them that is not empty.
//!
//! It stands on no other crate. The lists of work, of changes and of waiting keys of the cores stand on it. Its contract
//! is that a key is in the set exactly where it was put in last, and that the first key from a place on, and the last one
//! below a place, are found. A search passes over 4,096 keys that are not there at a step, and clearing costs what is in
//! the set.
#![tactic(auto)]

pub mod bits;
pub mod plain;
pub mod set;

pub use plain::PlainSet;
pub use set::KeySet;
