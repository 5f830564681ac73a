//! Links between the nodes of a process, and what each node sends and holds: a core with its history, ports, and blocks that fit the run.
#![tactic(auto)]

mod book;
mod ends;
mod keyed;
mod log;
mod packet;
mod port;
mod rule;
mod tally;

pub use book::{Book, Machine};
pub use ends::{OutOfMemory, Receiver, Sender, close, link};
pub use keyed::{Keyed, Parcel, pair_up};
pub use log::Log;
pub use packet::Sealed;
pub use port::{Port, bare_packet, close_ports, port_pair};
pub use rule::{InOrder, Known};
pub use tally::{Inbox, Tally};
