//! What a simulation does next.
use cluster_msgs::Event;

/// Why an event comes: by the script, so many of whose items are done with then, as an eviction or a steal at its turn, or
/// drawn.
#[derive(Clone, Copy)]
pub enum Kind {
    Scripted { passed: usize },
    Evicts,
    Balances,
    Drawn,
}

/// The end, with the key to blame where the client was told of a failure; that nothing moves; or an event.
#[derive(Drop)]
pub enum Choice {
    Over { failure: Option<u32> },
    Still,
    Make { event: Event, kind: Kind },
}
