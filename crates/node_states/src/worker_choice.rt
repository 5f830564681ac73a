//! What a worker's turn does next.
ghost use Rattle.std.specs.Prelude.{◌≡◌, Some, None, true, false, IfOk};
ghost use Rattle.cluster_msgs.specs.declared.cores.WorkerEvent.TheVariants as worker;
ghost use Rattle.cluster_msgs.specs.declared.events.Asker.TheVariants.{Worker};
ghost use Rattle.cluster_msgs.specs.declared.events.Event.TheVariants as event;
ghost use Rattle.cluster_rules.specs.Worker.{WorkerFacts};
ghost use Rattle.node_links.specs.Fits.{ParcelFits};
ghost use Rattle.node_states.specs.Spills.{Marked, MayMake, is_marked};
ghost use Rattle.node_states.specs.Workers.{is_end};

use crate::cores::WorkingCore;
use crate::evidence::{Fault, WorkerCause};
use crate::worker::Finished;
use cluster_msgs::{
    Asker, Down, Event, KeyList, Label, Message, Packet, Peer, Sequence, Stop, WorkerEvent,
};
use node_links::{Keyed, Sealed, pair_up};
use std::alloc::{AllocError, Global};
use std::sync::Arc;

/// What a turn may do next: start a task, do without a block that is lost, or else.
#[derive(Drop)]
pub enum Next<T> {
    Start(T),
    Miss(u32),
    Other,
}

/// A request that was taken and isn't answered yet.
#[derive(Drop)]
pub struct Request {
    pub asker: Asker,
    pub ask: u64,
    pub keys: KeyList,
}

/// Whether the worker runs a task that has come to an end.
pub fn runs<B: Drop, L: Label<Block = B>>(
    core: Option<&WorkingCore<L>>,
    finished: &Finished<B, L>,
) -> bool {
    let key = match finished {
        Finished::Value(keyed) => keyed.key(),
        Finished::Zero(fault) => fault.key(),
    };
    match core {
        None => false,
        Some(core) => core.core.runs(key),
    }
}

/// The scheduler's message that a packet brings.
///
/// # Errors
/// `Refused` where it brings another.
pub fn down_of<B: Drop>(packet: Packet<B>) -> Result<Down, Stop> {
    let Packet { message, blocks } = packet;
    drop(blocks);
    match message {
        Message::Down(down) => Ok(down),
        other => {
            drop(other);
            Err(Stop::Refused)
        }
    }
}

/// The request that a packet brings.
///
/// # Errors
/// `Refused` where it brings another message.
pub fn request_of<B: Drop>(asker: Asker, packet: Packet<B>) -> Result<Request, Stop> {
    let Packet { message, blocks } = packet;
    drop(blocks);
    match message {
        Message::Peer(Peer::GetData { ask, keys }) => Ok(Request { asker, ask, keys }),
        other => {
            drop(other);
            Err(Stop::Refused)
        }
    }
}

/// The keys of an answer, and its blocks, each with its key.
///
/// # Errors
/// Where there is no memory.
pub fn paired<B: Drop, L: Label<Block = B>>(
    alloc: Global,
    found: KeyList,
    blocks: Sequence<Arc<B>>,
) -> Result<(KeyList, Vec<Keyed<B, L>>), AllocError>
    requires { ParcelFits L.facts found blocks }
{
    let pairs = pair_up(alloc, found.as_slice(), &blocks);
    drop(blocks);
    match pairs {
        Ok(brought) => Ok((found, brought)),
        Err(error) => {
            drop(found);
            Err(error)
        }
    }
}

/// An event that isn't the worker's end, with its message, what the core is told, the blocks that come, and what is answered.
#[derive(Drop)]
pub struct Choice<B: Drop, L: Label<Block = B>> {
    pub event: Event,
    pub message: Option<Message>,
    pub said: Option<WorkerCause<L>>,
    pub brought: Vec<Keyed<B, L>>,
    pub answer: Option<(Asker, Sealed<B, L>)>,
    ghost going: { is_end event ≡ false },
}

impl<B: Drop, L: Label<Block = B>> Choice<B, L> {
    /// An event without a message, which brings no block and answers nothing.
    fn bare(alloc: Global, event: Event, said: Option<WorkerCause<L>>) -> Self
        requires { is_end event ≡ false }
        ensures event { result.event ≡ event }
        ensures message { result.message ≡ None }
        ensures said { result.said ≡ said }
    {
        Choice {
            event,
            message: None,
            said,
            brought: Vec::new(alloc),
            answer: None,
        }
    }

    /// The start of a task.
    pub fn start(alloc: Global, id: u32) -> Self
        ensures event { result.event ≡ event.Start id }
        ensures message { result.message ≡ None }
        ensures said { result.said ≡ Some worker.Start }
    {
        let said = WorkerCause::new(WorkerEvent::Start);
        Choice::bare(alloc, Event::Start { worker: id }, Some(said))
    }

    /// A task made a block.
    pub fn value(alloc: Global, id: u32, keyed: Keyed<B, L>) -> Result<Self, AllocError>
        ensures { IfOk result (λ c. (w : WorkerFacts) (m : Marked) → MayMake id w m c.event c.message c.said) }
    {
        let key = keyed.key();
        let mut brought = Vec::new(alloc);
        if brought.push(keyed).is_err() {
            drop(brought);
            return Err(AllocError);
        }
        Ok(Choice {
            event: Event::Finish { worker: id, key },
            message: None,
            said: Some(WorkerCause::new(WorkerEvent::Done { key, zero: false })),
            brought,
            answer: None,
        })
    }

    /// A task met a zero divisor.
    pub fn zero(alloc: Global, id: u32, fault: Fault<L>) -> Self
        ensures { (w : WorkerFacts) (m : Marked) → MayMake id w m result.event result.message result.said }
    {
        let key = fault.key();
        let said = WorkerCause::new(WorkerEvent::Done { key, zero: true });
        Choice::bare(alloc, Event::Finish { worker: id, key }, Some(said))
    }

    /// An ask of another worker.
    pub fn ask(alloc: Global, id: u32, peer: u32) -> Self
        ensures { (w : WorkerFacts) (m : Marked) → MayMake id w m result.event result.message result.said }
    {
        let asker = Asker::Worker(id);
        let said = WorkerCause::new(WorkerEvent::Ask { peer });
        Choice::bare(alloc, Event::SendGather { asker, peer }, Some(said))
    }

    /// The end of an ask to a worker that has ended.
    pub fn give_up(alloc: Global, id: u32, peer: u32, ask: u64) -> Self
        ensures event { result.event ≡ event.FailGather (Worker id) peer }
        ensures message { result.message ≡ None }
        ensures said { result.said ≡ Some (worker.GatherFailed peer ask) }
    {
        let asker = Asker::Worker(id);
        let said = WorkerCause::new(WorkerEvent::GatherFailed { peer, ask });
        Choice::bare(alloc, Event::FailGather { asker, peer }, Some(said))
    }

    /// A block in memory was put aside.
    pub fn spill(alloc: Global, id: u32, key: u32) -> Self
        ensures event { result.event ≡ event.Spill id key }
        ensures may { (w : WorkerFacts) (m : Marked) → w.mem key ≡ true → is_marked m key ≡ false → MayMake id w m result.event result.message result.said }
    {
        Choice::bare(alloc, Event::Spill { worker: id, key }, None)
    }

    /// A block that was put aside is lost.
    pub fn lose(alloc: Global, id: u32, key: u32) -> Self
        ensures { (w : WorkerFacts) (m : Marked) → w.mem key ≡ true → is_marked m key ≡ true → MayMake id w m result.event result.message result.said }
    {
        let said = WorkerCause::new(WorkerEvent::DataLost { key });
        Choice::bare(alloc, Event::LoseSpilled { worker: id, key }, Some(said))
    }

    /// A message of the scheduler.
    pub fn told(alloc: Global, id: u32, down: Down) -> Result<Self, AllocError>
        ensures { IfOk result (λ c. (w : WorkerFacts) (m : Marked) → MayMake id w m c.event c.message c.said) }
    {
        let Ok(copy) = down.copy() else {
            drop(down);
            return Err(AllocError);
        };
        Ok(Choice {
            event: Event::DeliverDown { worker: id },
            message: Some(Message::Down(copy)),
            said: Some(WorkerCause::new(WorkerEvent::Down(down))),
            brought: Vec::new(alloc),
            answer: None,
        })
    }

    /// An answer of another worker, with its blocks.
    pub fn gathered(
        alloc: Global,
        id: u32,
        peer: u32,
        ask: u64,
        found: KeyList,
        brought: Vec<Keyed<B, L>>,
    ) -> Result<Self, AllocError>
        ensures { IfOk result (λ c. (w : WorkerFacts) (m : Marked) → MayMake id w m c.event c.message c.said) }
    {
        let Ok(copy) = found.copy() else {
            drop(found);
            drop(brought);
            return Err(AllocError);
        };
        Ok(Choice {
            event: Event::ArriveGather {
                asker: Asker::Worker(id),
                peer,
                ask,
            },
            message: Some(Message::Peer(Peer::Data { ask, found: copy })),
            said: Some(WorkerCause::new(WorkerEvent::Gathered { peer, ask, found })),
            brought,
            answer: None,
        })
    }

    /// A request that is answered.
    pub fn serve(alloc: Global, id: u32, request: Request, answer: Sealed<B, L>) -> Self
        ensures { (w : WorkerFacts) (m : Marked) → MayMake id w m result.event result.message result.said }
    {
        let Request { asker, ask, keys } = request;
        Choice {
            event: Event::ServeGather {
                peer: id,
                asker,
                ask,
            },
            message: Some(Message::Peer(Peer::GetData { ask, keys })),
            said: None,
            brought: Vec::new(alloc),
            answer: Some((asker, answer)),
        }
    }
}
