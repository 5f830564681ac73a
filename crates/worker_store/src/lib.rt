//! The store of blocks of a worker of a running cluster, which puts blocks on a disk.
//!
//! [`SpillingBlocks`] is a `BlockStore` of `node_states` over the `SpillStore` of `spill_store`. It carries one promise upwards: **a block that it
//! hands out fits its key under the label of the run, whether it stayed in memory or came back from the disk**. What the disk doesn't give back as it
//! was put is answered as lost. Workers of a run by threads are to have it where a limit is set on their memory.
#![tactic(auto)]

mod blocks;

pub use blocks::SpillingBlocks;
