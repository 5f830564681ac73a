//! Flags that spread along links between keys, kept up to date as the facts of single keys change.
//!
//! `key_sets` stands below. A key is flagged where its gate is open and it is a seed or a flagged key leads to it. An
//! update looks at those keys alone whose facts or leading keys changed. The scheduler's derived facts stand on it: which
//! keys are known and which are needed, down the dependencies, and which are erred, up to the dependents.
#![tactic(auto)]

pub mod flags;
pub mod turn;

pub use flags::Flags;
