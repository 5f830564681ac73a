//! Events, instructions and blames that fit the label of a run, by their types.
ghost use Rattle.std.specs.Prelude.{◌≡◌, ◌<◌, ◌≤◌, []};
ghost use Rattle.cluster_msgs.specs.Shape.{deps_of, key_count, nbytes_of};
ghost use Rattle.cluster_msgs.specs.Labels.{ErrorFits, BlameFits};
ghost use Rattle.node_states.specs.Fitting.{SchedEventFits, ClientEventFits, WorkerEventFits, InstructionsFit, LettersFit};

use cluster_msgs::{
    ClientEvent, GraphShape, Instruction, Instructions, Label, Outbox, SchedEvent, Sequence,
    WorkerEvent,
};
use std::alloc::Global;
use std::marker::{Model, PhantomData};

/// The graph of a run, of which its label tells the same dependencies. In a clause it is the graph.
#[derive(Drop)]
pub struct RunGraph<L: Label> {
    shape: GraphShape,
    label: PhantomData<L>,
}

impl<L: Label> Model for RunGraph<L> {
    ghost use Rattle.std.specs.Prelude.{◌≡◌};
    ghost use Rattle.cluster_msgs.specs.Shape.{Shape, deps_of};

    ghost Value = { Shape };

    ghost view = { λ g. g.shape };

    ghost invariant = { λ g. L.facts.deps ≡ deps_of g.shape };
}

impl<L: Label> RunGraph<L> {
    pub fn new(shape: GraphShape) -> Self
        requires { L.facts.deps ≡ deps_of shape }
        ensures { result ≡ shape }
    {
        RunGraph {
            shape,
            label: PhantomData,
        }
    }

    /// How many keys it has.
    pub fn keys(&self) -> u32
        ensures count { result ≡ key_count self.now }
        ensures few { result ≤ 32768 }
    {
        self.shape.sound();
        self.shape.keys()
    }

    /// The dependencies of a key.
    pub fn deps(&self, key: u32) -> &[u32]
        requires { key < key_count self.now }
        ensures { result.now ≡ L.facts.deps key }
    {
        self.shape.deps(key)
    }

    /// How many bytes the block of a key has; 0 where it is no key of the graph.
    pub fn size(&self, key: u32) -> u64
        ensures key { key < key_count self.now → result ≡ nbytes_of self.now key }
        ensures past { key_count self.now ≤ key → result ≡ 0 }
    {
        if key < self.keys() {
            self.shape.nbytes(key)
        } else {
            0
        }
    }
}

/// A key whose own operation met a zero divisor. Whoever ran it makes this.
#[derive(Drop)]
pub struct Fault<L: Label> {
    key: u32,
    label: PhantomData<L>,
    ghost fits: { ErrorFits L.facts key },
}

impl<L: Label> Fault<L> {
    /// The fault of a key, where it has one.
    pub fn new(key: u32) -> Self
        requires { ErrorFits L.facts key }
        ensures { result.key ≡ key }
    {
        Fault {
            key,
            label: PhantomData,
        }
    }

    /// Its key.
    pub fn key(&self) -> u32
        ensures key { result ≡ self.now.key }
        ensures fits { ErrorFits L.facts result }
    {
        self.key
    }
}

/// A key that failed, and the key that is to blame.
#[derive(Drop)]
pub struct Blame<L: Label> {
    key: u32,
    blame: u32,
    label: PhantomData<L>,
    ghost fits: { BlameFits L.facts key blame },
}

impl<L: Label> Blame<L> {
    /// The blame of a key, where it is right.
    pub fn new(key: u32, blame: u32) -> Self
        requires { BlameFits L.facts key blame }
        ensures { (result.key ≡ key) × (result.blame ≡ blame) }
    {
        Blame {
            key,
            blame,
            label: PhantomData,
        }
    }

    /// The key that failed.
    pub fn key(&self) -> u32
        ensures { result ≡ self.now.key }
    {
        self.key
    }

    /// The key that is to blame.
    pub fn blame(&self) -> u32
        ensures blame { result ≡ self.now.blame }
        ensures fits { BlameFits L.facts self.now.key result }
    {
        self.blame
    }
}

/// An event of the scheduler's core: an error that a worker reports is of a faulty key. In a clause it is the event.
#[derive(Drop)]
pub struct SchedCause<L: Label> {
    event: SchedEvent,
    label: PhantomData<L>,
}

impl<L: Label> Model for SchedCause<L> {
    ghost use Rattle.cluster_msgs.specs.declared.cores.SchedEvent.{SchedEvent};
    ghost use Rattle.node_states.specs.Fitting.{SchedEventFits};

    ghost Value = { SchedEvent };

    ghost view = { λ c. c.event };

    ghost invariant = { λ c. SchedEventFits L.facts c.event };
}

impl<L: Label> SchedCause<L> {
    pub fn new(event: SchedEvent) -> Self
        requires { SchedEventFits L.facts event }
        ensures { result ≡ event }
    {
        SchedCause {
            event,
            label: PhantomData,
        }
    }

    pub fn into_event(self) -> SchedEvent
        ensures same { result ≡ self }
        ensures fits { SchedEventFits L.facts result }
    {
        let SchedCause { event, label: _ } = self;
        event
    }
}

/// An event of a client's core: a failure that the scheduler tells has a blame that fits. In a clause it is the event.
#[derive(Drop)]
pub struct ClientCause<L: Label> {
    event: ClientEvent,
    label: PhantomData<L>,
}

impl<L: Label> Model for ClientCause<L> {
    ghost use Rattle.cluster_msgs.specs.declared.cores.ClientEvent.{ClientEvent};
    ghost use Rattle.node_states.specs.Fitting.{ClientEventFits};

    ghost Value = { ClientEvent };

    ghost view = { λ c. c.event };

    ghost invariant = { λ c. ClientEventFits L.facts c.event };
}

impl<L: Label> ClientCause<L> {
    pub fn new(event: ClientEvent) -> Self
        requires { ClientEventFits L.facts event }
        ensures { result ≡ event }
    {
        ClientCause {
            event,
            label: PhantomData,
        }
    }

    pub fn into_event(self) -> ClientEvent
        ensures same { result ≡ self }
        ensures fits { ClientEventFits L.facts result }
    {
        let ClientCause { event, label: _ } = self;
        event
    }
}

/// An event of a worker's core: a task that is said to have met a zero divisor did. In a clause it is the event.
#[derive(Drop)]
pub struct WorkerCause<L: Label> {
    event: WorkerEvent,
    label: PhantomData<L>,
}

impl<L: Label> Model for WorkerCause<L> {
    ghost use Rattle.cluster_msgs.specs.declared.cores.WorkerEvent.{WorkerEvent};
    ghost use Rattle.node_states.specs.Fitting.{WorkerEventFits};

    ghost Value = { WorkerEvent };

    ghost view = { λ c. c.event };

    ghost invariant = { λ c. WorkerEventFits L.facts c.event };
}

impl<L: Label> WorkerCause<L> {
    pub fn new(event: WorkerEvent) -> Self
        requires { WorkerEventFits L.facts event }
        ensures { result ≡ event }
    {
        WorkerCause {
            event,
            label: PhantomData,
        }
    }

    /// The event.
    pub fn event(&self) -> &WorkerEvent
        ensures { result.now ≡ self.now }
    {
        &self.event
    }

    pub fn into_event(self) -> WorkerEvent
        ensures same { result ≡ self }
        ensures fits { WorkerEventFits L.facts result }
    {
        let WorkerCause { event, label: _ } = self;
        event
    }
}

/// What a worker's core has to do, where each error that it reports is of a faulty key. In a clause it is the instructions.
#[derive(Drop)]
pub struct WorkerOut<L: Label> {
    made: Instructions,
    label: PhantomData<L>,
}

impl<L: Label> Model for WorkerOut<L> {
    ghost use Rattle.std.specs.Prelude.{List};
    ghost use Rattle.cluster_msgs.specs.declared.cores.Instruction.{Instruction};
    ghost use Rattle.node_states.specs.Fitting.{InstructionsFit};

    ghost Value = { List Instruction };

    ghost view = { λ o. o.made };

    ghost invariant = { λ o. InstructionsFit L.facts o.made };
}

impl<L: Label> WorkerOut<L> {
    /// Nothing to do.
    #[tactic(auto, using(crate::proofs::WorkerLaw::no_instructions))]
    pub fn nothing(alloc: Global) -> Self
        ensures { result ≡ [] }
    {
        WorkerOut {
            made: Sequence::new(alloc),
            label: PhantomData,
        }
    }

    pub fn new(made: Instructions) -> Self
        requires { InstructionsFit L.facts made }
        ensures { result ≡ made }
    {
        WorkerOut {
            made,
            label: PhantomData,
        }
    }

    /// The instructions.
    pub fn instructions(&self) -> &[Instruction]
        ensures { result.now ≡ self.now }
    {
        self.made.as_slice()
    }

    pub fn into_instructions(self) -> Instructions
        ensures same { result ≡ self }
        ensures fits { InstructionsFit L.facts result }
    {
        let WorkerOut { made, label: _ } = self;
        made
    }
}

/// What the scheduler's core has to send, where each failure has a blame that fits. In a clause it is the lists of messages.
#[derive(Drop)]
pub struct SchedOut<L: Label> {
    made: Outbox,
    label: PhantomData<L>,
}

impl<L: Label> Model for SchedOut<L> {
    ghost use Rattle.cluster_msgs.specs.declared.cores.Outbox.{Outbox};
    ghost use Rattle.node_states.specs.Fitting.{LettersFit};

    ghost Value = { Outbox };

    ghost view = { λ o. o.made };

    ghost invariant = { λ o. LettersFit L.facts o.made.clients };
}

impl<L: Label> SchedOut<L> {
    /// Nothing to send.
    #[tactic(auto, using(crate::proofs::SchedLaw::no_letters))]
    pub fn nothing(alloc: Global) -> Self
        ensures { (result.down ≡ []) × (result.clients ≡ []) }
    {
        SchedOut {
            made: Outbox::new(alloc),
            label: PhantomData,
        }
    }

    pub fn new(made: Outbox) -> Self
        requires { LettersFit L.facts made.clients }
        ensures { result ≡ made }
    {
        SchedOut {
            made,
            label: PhantomData,
        }
    }

    pub fn into_outbox(self) -> Outbox
        ensures same { result ≡ self }
        ensures fits { LettersFit L.facts result.clients }
    {
        let SchedOut { made, label: _ } = self;
        made
    }
}
