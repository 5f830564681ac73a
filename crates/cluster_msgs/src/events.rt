//! The events of a cluster, and what its nodes keep of them.
ghost use Rattle.std.specs.Prelude.{◌≡◌, IfOk};

use crate::lists::{Duplicate, KeyList, Sequence};
use crate::messages::Message;
use std::alloc::AllocError;

/// Who asks a worker for blocks: a worker or a client, by its number. Workers come before clients.
#[derive(Clone, Copy)]
pub enum Asker {
    Worker(u32),
    Client(u32),
}

/// One action of one actor.
#[derive(Drop)]
pub enum Event {
    Want { client: u32, keys: KeyList },
    Release { client: u32, keys: KeyList },
    Join { threads: u32 },
    Lose { worker: u32 },
    SeeLoss { worker: u32 },
    Suspect { worker: u32 },
    DeliverDown { worker: u32 },
    DeliverUp { worker: u32 },
    DeliverToClient { client: u32 },
    DeliverFromClient { client: u32 },
    Start { worker: u32 },
    Finish { worker: u32, key: u32 },
    SendGather { asker: Asker, peer: u32 },
    ServeGather { peer: u32, asker: Asker, ask: u64 },
    ArriveGather { asker: Asker, peer: u32, ask: u64 },
    FailGather { asker: Asker, peer: u32 },
    Balance,
    Evict,
    Replicate { key: u32, worker: u32 },
    Spill { worker: u32, key: u32 },
    LoseSpilled { worker: u32, key: u32 },
}

/// An event as the node that took it keeps it: with its stamp, and the message that it took.
#[derive(Drop)]
pub struct Entry {
    pub stamp: u64,
    pub event: Event,
    pub message: Option<Message>,
}

/// The entries of one node. `cut` is the first that found no room.
#[derive(Drop)]
pub struct History {
    pub entries: Sequence<Entry>,
    pub cut: Option<Entry>,
}

/// Counts over a list of events. `workers` has each worker that joined, ascending, with the number of its starts.
#[derive(Drop)]
pub struct Report {
    pub keys: u64,
    pub edges: u64,
    pub started: u64,
    pub workers: Sequence<(u32, u64)>,
    pub gathers: u64,
    pub confirmed: u64,
    pub refused: u64,
    pub losses: u64,
}

/// What a script makes happen once `at` finishes were counted.
#[derive(Clone, Copy)]
pub enum Item {
    Lose { w: u32, at: u128 },
    Suspect { w: u32, at: u128 },
    Join { at: u128 },
}

/// Items in their order.
pub type Script = Sequence<Item>;

impl Event {
    /// An equal event of its own.
    ///
    /// # Errors
    /// Where no memory is left.
    pub fn copy(&self) -> Result<Event, AllocError>
        ensures { IfOk result (λ copy. copy ≡ self.now) }
    {
        Ok(match self {
            Event::Want { client, keys } => Event::Want {
                client: *client,
                keys: keys.copy()?,
            },
            Event::Release { client, keys } => Event::Release {
                client: *client,
                keys: keys.copy()?,
            },
            Event::Join { threads } => Event::Join { threads: *threads },
            Event::Lose { worker } => Event::Lose { worker: *worker },
            Event::SeeLoss { worker } => Event::SeeLoss { worker: *worker },
            Event::Suspect { worker } => Event::Suspect { worker: *worker },
            Event::DeliverDown { worker } => Event::DeliverDown { worker: *worker },
            Event::DeliverUp { worker } => Event::DeliverUp { worker: *worker },
            Event::DeliverToClient { client } => Event::DeliverToClient { client: *client },
            Event::DeliverFromClient { client } => Event::DeliverFromClient { client: *client },
            Event::Start { worker } => Event::Start { worker: *worker },
            Event::Finish { worker, key } => Event::Finish {
                worker: *worker,
                key: *key,
            },
            Event::SendGather { asker, peer } => Event::SendGather {
                asker: *asker,
                peer: *peer,
            },
            Event::ServeGather { peer, asker, ask } => Event::ServeGather {
                peer: *peer,
                asker: *asker,
                ask: *ask,
            },
            Event::ArriveGather { asker, peer, ask } => Event::ArriveGather {
                asker: *asker,
                peer: *peer,
                ask: *ask,
            },
            Event::FailGather { asker, peer } => Event::FailGather {
                asker: *asker,
                peer: *peer,
            },
            Event::Balance => Event::Balance,
            Event::Evict => Event::Evict,
            Event::Replicate { key, worker } => Event::Replicate {
                key: *key,
                worker: *worker,
            },
            Event::Spill { worker, key } => Event::Spill {
                worker: *worker,
                key: *key,
            },
            Event::LoseSpilled { worker, key } => Event::LoseSpilled {
                worker: *worker,
                key: *key,
            },
        })
    }
}

impl Entry {
    /// An equal entry of its own.
    ///
    /// # Errors
    /// Where no memory is left.
    pub fn copy(&self) -> Result<Entry, AllocError>
        ensures { IfOk result (λ copy. copy ≡ self.now) }
    {
        let event = self.event.copy()?;
        let message = match &self.message {
            None => None,
            Some(message) => Some(message.copy()?),
        };
        Ok(Entry {
            stamp: self.stamp,
            event,
            message,
        })
    }
}

impl Duplicate for Entry {
    fn duplicate(&self) -> Result<Entry, AllocError> {
        self.copy()
    }
}

impl Duplicate for Item {
    fn duplicate(&self) -> Result<Item, AllocError> {
        Ok(*self)
    }
}
