//! What a world keeps between its nodes: messages on links, requests and answers under way, and what stands at a node for
//! a key.
//!
//! `cluster_msgs` stands below, with the messages, `cluster_rules`, with the world that the contracts speak of, and
//! `fact_rows`, with the words for rows. The world of the whole cluster stands above. It carries a part of *part
//! correctness*: messages come in the order in which they were sent, what is under way stands by asker, peer and ask, and
//! what was put at a node and a key stays there until it is taken.
#![tactic(auto)]

mod links;
mod order;
mod post;
pub mod transit;

use fact_rows::Grid;
pub use links::{Links, Queue};
pub use post::{post_client, post_down, post_to_clients, post_worker};
pub use transit::{InTransit, Transits};

/// What stands at a node for a key: a block, say, or the inputs of a task that runs. A row is a node.
pub type Shelf<T> = Grid<Option<T>>;
