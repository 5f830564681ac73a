//! What the cores of the scheduler, a worker and a client take and answer.
ghost use Rattle.std.specs.Prelude.{◌≡◌, []};

use crate::lists::{KeyList, Sequence};
use crate::messages::{Down, FromClient, ToClient, Up};
use std::alloc::{AllocError, AllocFailed, Global};
use thiserror::Error;

/// Why a core didn't take an event. After `Refused` and `Spent` all is as before; after `Memory` the core stops.
#[derive(Clone, Copy, Debug, Error)]
pub enum Stop {
    #[error("the event isn't possible")]
    Refused,
    #[error("all events were taken")]
    Spent,
    #[error("out of memory")]
    Memory,
}

impl From<AllocError> for Stop {
    ghost use Rattle.std.specs.Prelude.{◌≡◌};
    ghost use Rattle.cluster_msgs.specs.declared.cores.Stop.TheVariants.{Memory};

    ghost from_gives = { λ _ e. e ≡ Memory };

    fn from(_error: AllocError) -> Stop {
        Stop::Memory
    }
}

impl<T: Drop> From<AllocFailed<T>> for Stop {
    ghost use Rattle.std.specs.Prelude.{◌≡◌};
    ghost use Rattle.cluster_msgs.specs.declared.cores.Stop.TheVariants.{Memory};

    ghost from_gives = { λ _ e. e ≡ Memory };

    fn from(_error: AllocFailed<T>) -> Stop {
        Stop::Memory
    }
}

/// An event of the scheduler.
#[derive(Drop)]
pub enum SchedEvent {
    Join { threads: u32 },
    Leave { w: u32 },
    FromWorker { w: u32, up: Up },
    FromClient { c: u32, msg: FromClient },
    Balance,
    Evict,
    /// Worker `w` is to get a copy of the key.
    Replicate { key: u32, w: u32 },
}

/// What the scheduler has to send: messages with their worker or client, and the numbers of the workers that joined.
#[derive(Drop)]
pub struct Outbox {
    pub down: Sequence<(u32, Down)>,
    pub clients: Sequence<(u32, ToClient)>,
    pub joined: KeyList,
}

impl Outbox {
    pub fn new(alloc: Global) -> Outbox
        ensures down { result.down ≡ [] }
        ensures clients { result.clients ≡ [] }
        ensures joined { result.joined ≡ [] }
    {
        Outbox {
            down: Sequence::new(alloc),
            clients: Sequence::new(alloc),
            joined: Sequence::new(alloc),
        }
    }
}

/// The state of a key at the scheduler, after Dask's "Scheduling State"
/// (<https://distributed.dask.org/en/stable/scheduling-state.html>).
#[derive(Clone, Copy)]
pub enum Phase {
    Erred,
    Released,
    Memory,
    Waiting,
    Processing,
    NoWorker,
    Queued,
    Forgotten,
}

/// A key that is to move from one worker to another, after Dask's "Work Stealing"
/// (<https://distributed.dask.org/en/stable/work-stealing.html>).
#[derive(Clone, Copy)]
pub struct Steal {
    pub key: u32,
    pub victim: u32,
    pub thief: u32,
}

/// An event of a worker. `zero` says that the task met a zero divisor.
#[derive(Drop)]
pub enum WorkerEvent {
    Down(Down),
    Start,
    Done { key: u32, zero: bool },
    Ask { peer: u32 },
    Gathered { peer: u32, ask: u64, found: KeyList },
    GatherFailed { peer: u32, ask: u64 },
    DataLost { key: u32 },
}

/// What a worker's node has to do for its core.
#[derive(Drop)]
pub enum Instruction {
    Execute { key: u32 },
    Gather { peer: u32, ask: u64, keys: KeyList },
    Keep { key: u32 },
    Drop { key: u32 },
    Send(Up),
}

/// Instructions, in the order in which they are to be carried out.
pub type Instructions = Sequence<Instruction>;

/// The state of a key at a worker, after Dask's "Worker State Machine"
/// (<https://distributed.dask.org/en/stable/worker-state.html>). A resumed or cancelled key is named with what it was
/// before, which Dask calls `previous`: a resumed key that was executing goes on to `Fetch`, one that was in flight to
/// `Waiting`.
#[derive(Clone, Copy)]
pub enum WState {
    Memory,
    Executing,
    ResumedExecuting,
    CancelledExecuting,
    ResumedFlight,
    Flight,
    CancelledFlight,
    Ready,
    Waiting,
    Fetch,
    Missing,
    Error,
    Released,
    Forgotten,
}

/// An event of a client.
#[derive(Drop)]
pub enum ClientEvent {
    Want(KeyList),
    Release(KeyList),
    FromScheduler(ToClient),
    Ask { peer: u32 },
    Gathered { peer: u32, ask: u64, found: KeyList },
    GatherFailed { peer: u32, ask: u64 },
}

/// What a client's node has to do for its core.
#[derive(Drop)]
pub enum ClientInstruction {
    Send(FromClient),
    Gather { peer: u32, ask: u64, keys: KeyList },
}

/// Instructions, in the order in which they are to be carried out.
pub type ClientOut = Sequence<ClientInstruction>;

/// How a key that a client waits for ended.
#[derive(Clone, Copy)]
pub enum End {
    Got,
    Erred { blame: u32 },
}
