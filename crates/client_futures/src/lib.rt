//! Futures that wait for a client's keys, polled by hand or by `block_on` of the kit.
//!
//! Below it stands `cluster_msgs`, with how a key ends; the drivers that serve a client's node stand above, each a `Rounds`. It carries the promise
//! that a poll is pending only where a key that it waits for has no end at this poll's turn and the run isn't over, that of failed keys the least is
//! told, and that blocks come in the order of the keys, each the one that its driver lends.
#![tactic(auto)]

mod gathering;
mod key;
mod look;
mod rounds;
mod sight;

pub use gathering::{GatherAll, gather, gather_in, waiting_room};
pub use key::KeyFuture;
pub use rounds::{GatherEnd, PollEnd, Rounds, RunOver};
pub use sight::Sight;
