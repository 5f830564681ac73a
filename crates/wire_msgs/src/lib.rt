//! One MessagePack value per message of the cluster.
//!
//! `to_value` writes a message as a map that begins with its operation, `from_value` reads one with its fields in any
//! order. The messages of `cluster_msgs` and the values of `msgpack_frames` stand below; links over sockets stand above.
//!
//! It carries the promise of part correctness for messages: what is written is read back as the same message, what is
//! read has the fields of its operation, each once, and no others, and each refusal is the first in its order.
#![tactic(auto)]

mod collection;
mod error;
mod field;
mod finding;
mod laws;
mod operation;
mod part;
mod reading;
mod writing;

pub use error::WireError;
pub use field::Field;
pub use laws::any_order;
pub use reading::from_value;
pub use writing::to_value;
