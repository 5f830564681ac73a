//! The rules of the cluster's machines, as definitions.
//!
//! `cluster_msgs` stands below, with the messages and events that the definitions cite. The policies, the cores of the
//! scheduler, a worker and a client, and the world of the whole cluster stand above: each of their contracts speaks in
//! the words that are defined here, so these are what a reader has to trust. The lemmas beside them unfold the words, and
//! stand here for the cores; `cluster_laws` has the laws about them.
#![tactic(auto)]

pub mod facts;

pub use facts::Facts;
