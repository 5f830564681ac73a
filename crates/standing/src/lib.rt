//! The scheduler's derived facts as flags that are kept up to date: which keys are known, erred, needed, held and ready.
#![tactic(auto)]

pub mod links;
pub mod lists;
pub mod settle;
