//! Facts that std lacks, about what std speaks of: truth values, numbers, options, results and lists.
//!
//! It has no code. Nothing stands below it; the proofs of every crate may cite it. A fact that two crates need, and that
//! speaks of no notion of theirs, stands here once, and one that std states is std's.
#![tactic(auto)]
