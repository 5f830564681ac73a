//! The client's core: events in, instructions out.
ghost use Rattle.std.specs.Prelude.{◌≡◌, ◌↔◌, ◌++◌, ◌-◌, ◌^◌, ◌<◌, ◌≤◌, ℕ, Err, IfOk, OnOk, OnErr, true, false, min};
ghost use Rattle.std.specs.Option.{option_map};
ghost use Rattle.cluster_msgs.specs.Shape.{key_count};
ghost use Rattle.cluster_rules.specs.Worker.{ask_to};
ghost use Rattle.cluster_rules.specs.Client.{new_client, done, client_step, client_takes, client_would_ask, client_pairs};
ghost use Rattle.gather_client.specs.CoreState.{client_facts, IsTaken, IsRefused, IsSpent};
ghost use Rattle.gather_client.specs.Kept.{KeysKept};
ghost use Rattle.gather_client.specs.Inner.{IsGrown};
ghost use Rattle.gather_client.specs.Stored.{facts_of};

use crate::events::perform;
use crate::table::ClientTable;
use cluster_msgs::{ClientEvent, ClientOut, End, GraphShape, Stop};
use std::alloc::{AllocError, Global};
use std::marker::Model;

/// A core takes at most this many events, 2^40.
const EVENT_LIMIT: u64 = 1_099_511_627_776;

/// A client: its facts, how many events it took, and whether memory ran out.
///
/// Contracts see the stored facts, of which `client_facts` makes functions of the key, and the count and the mark.
#[derive(Drop)]
pub struct ClientCore {
    table: ClientTable,
    events: u64,
    stopped: bool,
}

impl Model for ClientCore {
    ghost use Rattle.gather_client.specs.CoreState.{CoreState};

    ghost Value = { CoreState };

    ghost view = { λ s. record { stored = s.table; events = s.events; stopped = s.stopped } };

    ghost use Rattle.gather_client.specs.Kept.{IsCore};

    ghost invariant = { λ s. IsCore s.table s.events s.stopped };
}

impl ClientCore {
    /// A client that wants nothing, over a graph of this shape.
    ///
    /// # Errors
    /// Where no memory is left.
    pub fn new(alloc: Global, shape: GraphShape) -> Result<ClientCore, AllocError>
        ensures facts { IfOk result (λ core. client_facts core ≡ new_client shape) }
        ensures events { IfOk result (λ core. core.events ≡ 0) }
        ensures going { IfOk result (λ core. core.stopped ≡ false) }
    {
        let table = ClientTable::new(alloc, shape)?;
        Ok(ClientCore {
            table,
            events: 0,
            stopped: false,
        })
    }

    /// Takes an event: the facts become what the client's table says, and its instructions are appended to `out`.
    ///
    /// An event may come from a peer that lies. One that isn't possible, or names a key beyond the graph, is refused.
    ///
    /// # Errors
    /// `Memory` where no memory is left: the core has stopped then, and answers so to every later event; what `out` had
    /// still stands at its front. Else `Spent` exactly where the core has taken 2^40 events. Else `Refused` exactly where
    /// the event isn't possible or a key is out of range. After the latter two all is as before.
    pub fn on(&mut self, e: ClientEvent, out: &mut ClientOut) -> Result<(), Stop>
        ensures taken { OnOk result (IsTaken self.old e self.new out.old out.new) }
        ensures refused { (result ≡ Err Stop.Refused) ↔ IsRefused self.old e }
        ensures spent { (result ≡ Err Stop.Spent) ↔ IsSpent self.old }
        ensures stopped { self.old.stopped ≡ true → result ≡ Err Stop.Memory }
        ensures stops { result ≡ Err Stop.Memory → self.new.stopped ≡ true }

        // What stays as it was.
        ensures refused_stays { result ≡ Err Stop.Refused → self.new ≡ self.old }
        ensures spent_stays { result ≡ Err Stop.Spent → self.new ≡ self.old }
        ensures refused_silent { result ≡ Err Stop.Refused → out.new ≡ out.old }
        ensures spent_silent { result ≡ Err Stop.Spent → out.new ≡ out.old }
        ensures stopped_stays { self.old.stopped ≡ true → self.new ≡ self.old }
        ensures stopped_silent { self.old.stopped ≡ true → out.new ≡ out.old }
        ensures err { OnErr result (IsGrown out.old out.new) }
    {
        if self.stopped {
            return Err(Stop::Memory);
        }
        if self.events >= EVENT_LIMIT {
            return Err(Stop::Spent);
        }
        if !self.table.takes(&e) {
            return Err(Stop::Refused);
        }
        match perform(&mut self.table, e, out) {
            Ok(()) => {
                self.events += 1;
                Ok(())
            }
            Err(_) => {
                self.stopped = true;
                Err(Stop::Memory)
            }
        }
    }

    /// What a client keeps, whatever it was told, as long as it goes on: what is got, failed or located is wanted, what is
    /// got is no longer located, and a key is asked of one peer at most.
    pub fn kept(&self)
        ensures { self.now.stopped ≡ false → KeysKept (client_facts self.now) }
    {
        let _table = &self.table;
    }

    /// A client has got keys of its graph alone.
    pub fn inside(&self)
        ensures { (k : ℕ) → key_count (client_facts self.now).shape ≤ k → (client_facts self.now).got k ≡ false }
    {
        self.table.inside();
    }

    /// Whether the client has got the key's block.
    pub fn has_got(&self, key: u32) -> bool
        ensures { result ≡ (client_facts self.now).got key }
    {
        self.table.has_got(key)
    }

    /// How the key ended: `Got` where its block came, else `Erred` where the scheduler said so. `None` where neither.
    pub fn done(&self, key: u32) -> Option<End>
        ensures { result ≡ done (client_facts self.now) key }
    {
        self.table.done(key)
    }

    /// Whether an ask to this peer is possible: none is open, and it holds a key that is wanted, not got and in no ask.
    pub fn would_ask(&self, peer: u32) -> bool
        ensures { result ≡ client_would_ask (client_facts self.now) peer }
    {
        self.table.would_ask(peer)
    }

    /// The number of the open ask to a peer, if one is open.
    pub fn ask_number(&self, peer: u32) -> Option<u64>
        ensures { result ≡ option_map (λ a. a.number) (ask_to (client_facts self.now).asks peer) }
    {
        self.table.ask_number(peer)
    }

    /// How many pairs of a key and a holder the client knows, or 2^64 - 1 where it is more.
    pub fn pairs(&self) -> u64
        ensures { result ≡ min (client_pairs (client_facts self.now)) (2 ^ 64 - 1) }
    {
        self.table.pairs()
    }
}
