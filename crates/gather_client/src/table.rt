//! The stored facts of a client. Each call changes one fact, or answers one.
#![tactic(auto, unfolding(crate::specs::Stored::facts_of))]

ghost use Rattle.std.specs.Prelude.{◌≡◌, ◌==◌, ◌&&◌, ◌+◌, ◌<◌, ◌≤◌, ◌^◌, ℕ, true, false, None, [], not, is_some, length, All, IfOk, IfSome, OnOk, OnErr};
ghost use Rattle.std.specs.Option.{option_map};
ghost use Rattle.std.specs.List.{list_any};
ghost use Rattle.cluster_msgs.specs.Shape.{IsShape, key_count};
ghost use Rattle.cluster_rules.specs.Functions.{put};
ghost use Rattle.cluster_rules.specs.Worker.{ask_to, with_ask, without_ask, is_asked_for};
ghost use Rattle.cluster_rules.specs.Client.{new_client, is_open};
ghost use Rattle.fact_rows.specs.Rows.{read};
ghost use Rattle.open_asks.specs.Kept.{asked_items};
ghost use Rattle.gather_client.specs.Peers.{IsNext};
ghost use Rattle.gather_client.specs.Stored.{facts_of};

use crate::peers::PeerKeys;
use cluster_msgs::{GraphShape, Holders};
use fact_rows::Row;
use open_asks::Asks;
use std::alloc::{AllocError, Global};
use std::marker::Model;

/// The facts of a client: what it wants, who is known to hold it, what it asked for, what it has got, and what failed.
///
/// Contracts see the stored rows, of which `facts_of` makes functions of the key.
#[derive(Drop)]
pub struct ClientTable {
    alloc: Global,
    shape: GraphShape,
    wants: Row<bool>,
    located: Vec<Holders>,
    peers: PeerKeys,
    asks: Asks,
    got: Row<bool>,
    failed: Row<Option<u32>>,
    next_ask: u64,
}

impl Model for ClientTable {
    ghost use Rattle.gather_client.specs.Stored.{Stored};

    ghost Value = { Stored };

    ghost use Rattle.gather_client.specs.Table.{stored, IsTable};

    ghost view = { stored };

    ghost invariant = { IsTable };
}

impl ClientTable {
    /// A client as it starts.
    ///
    /// # Errors
    /// Where no memory is left.
    pub fn new(alloc: Global, shape: GraphShape) -> Result<ClientTable, AllocError>
        ensures { IfOk result (λ table. facts_of table ≡ new_client shape) }
    {
        shape.sound();
        let count = shape.keys() as usize;
        let wants = Row::filled(alloc, count, false)?;
        let located = no_holders(alloc, count)?;
        let peers = PeerKeys::new(alloc, shape.keys())?;
        let asks = Asks::new(alloc, count)?;
        let got = Row::filled(alloc, count, false)?;
        let failed = Row::filled(alloc, count, None)?;
        Ok(ClientTable {
            alloc,
            shape,
            wants,
            located,
            peers,
            asks,
            got,
            failed,
            next_ask: 1,
        })
    }

    /// The bounds of the graph.
    pub fn sound(&self)
        ensures { IsShape (facts_of self.now).shape }
    {
        let _shape = &self.shape;
    }

    /// A client has got keys of its graph alone.
    pub fn inside(&self)
        ensures { (k : ℕ) → key_count (facts_of self.now).shape ≤ k → (facts_of self.now).got k ≡ false }
    {
        let _got = &self.got;
    }

    /// The allocator of all that is stored.
    pub fn allocator(&self) -> Global {
        self.alloc
    }

    /// The number of keys.
    pub fn keys(&self) -> u32
        ensures { result ≡ key_count (facts_of self.now).shape }
    {
        self.shape.keys()
    }

    /// The graph's shape.
    pub fn shape(&self) -> &GraphShape
        ensures { result.now ≡ (facts_of self.now).shape }
    {
        &self.shape
    }

    /// The number of the next ask.
    pub fn next_ask(&self) -> u64
        ensures { result ≡ (facts_of self.now).next_ask }
    {
        self.next_ask
    }

    /// Whether the client wants the key.
    pub fn wants(&self, key: u32) -> bool
        ensures { result ≡ (facts_of self.now).wants key }
    {
        self.wants.test(key as usize)
    }

    /// Whether the client has got the key's block.
    pub fn has_got(&self, key: u32) -> bool
        ensures { result ≡ (facts_of self.now).got key }
    {
        self.got.test(key as usize)
    }

    /// The key to blame, where the key failed.
    pub fn failed(&self, key: u32) -> Option<u32>
        ensures { result ≡ (facts_of self.now).failed key }
    {
        self.failed.read(key)
    }

    /// Who holds the key, with the copy.
    pub fn located(&self, key: u32) -> &[(u32, u64)]
        requires { key < key_count (facts_of self.now).shape }
        ensures { result.now ≡ (facts_of self.now).located key }
    {
        self.located[key as usize].as_slice()
    }

    /// Whether some open ask names the key.
    pub fn is_flying(&self, key: u32) -> bool
        ensures { result ≡ is_asked_for (facts_of self.now).asks key }
    {
        self.asks.names(key)
    }

    /// Whether an ask to this peer is open.
    pub fn has_ask(&self, peer: u32) -> bool
        ensures { result ≡ is_some (ask_to (facts_of self.now).asks peer) }
    {
        self.asks.has(peer)
    }

    /// Whether the key's block is still to come: it is wanted and not got.
    pub fn is_due(&self, key: u32) -> bool
        ensures { result ≡ ((facts_of self.now).wants key && not ((facts_of self.now).got key)) }
    {
        self.wants.test(key as usize) & !self.got.test(key as usize)
    }

    /// Whether the key is to be fetched: wanted, not got, and in no open ask.
    pub fn is_open(&self, key: u32) -> bool
        ensures { result ≡ is_open (facts_of self.now) key }
    {
        self.is_due(key) & !self.is_flying(key)
    }

    /// The key is wanted, or no longer is.
    pub fn set_wanted(&mut self, key: u32, to: bool)
        requires { key < key_count (facts_of self.old).shape }
        ensures { facts_of self.new ≡ record (facts_of self.old) { wants = put (facts_of self.old).wants key to } }
    {
        self.wants.set(key, to);
    }

    /// The key's block has come, or is let go.
    pub fn set_got(&mut self, key: u32, to: bool)
        requires { key < key_count (facts_of self.old).shape }
        ensures { facts_of self.new ≡ record (facts_of self.old) { got = put (facts_of self.old).got key to } }
    {
        self.got.set(key, to);
    }

    /// The key to blame for the failure of this one, or none.
    pub fn set_failed(&mut self, key: u32, to: Option<u32>)
        requires { key < key_count (facts_of self.old).shape }
        ensures { facts_of self.new ≡ record (facts_of self.old) { failed = put (facts_of self.old).failed key to } }
    {
        self.failed.set(key, to);
    }

    /// Says who holds the key.
    ///
    /// # Errors
    /// Where no memory is left; all is then as before.
    pub fn set_located(&mut self, key: u32, to: Holders) -> Result<(), AllocError>
        requires { key < key_count (facts_of self.old).shape }
        ensures ok { OnOk result (facts_of self.new ≡ record (facts_of self.old) { located = put (facts_of self.old).located key to }) }
        ensures err { OnErr result (facts_of self.new ≡ facts_of self.old) }
    {
        let place = key as usize;
        self.peers.add_sets(self.alloc, to.as_slice())?;
        self.peers
            .put_all(self.located[place].as_slice(), key, false);
        self.peers.put_all(to.as_slice(), key, true);
        self.located[place] = to;
        Ok(())
    }

    /// Nobody is known to hold the key.
    pub fn forget(&mut self, key: u32)
        requires { key < key_count (facts_of self.old).shape }
        ensures { facts_of self.new ≡ record (facts_of self.old) { located = put (facts_of self.old).located key [] } }
    {
        let place = key as usize;
        self.peers
            .put_all(self.located[place].as_slice(), key, false);
        self.located[place] = Holders::new(self.alloc);
    }

    /// A key from this one on, before which the peer holds none. It is the least that it holds, where it has a number that a worker can have.
    pub fn next_held(&self, peer: u32, from: u32) -> Option<u32>
        ensures { IsNext (facts_of self.now).located (key_count (facts_of self.now).shape) peer from result }
    {
        if self.peers.has_place(peer) {
            self.peers.next(peer, from)
        } else if from < self.keys() {
            Some(from)
        } else {
            None
        }
    }

    /// The number of the open ask to a peer, if one is open.
    pub fn ask_number(&self, peer: u32) -> Option<u64>
        ensures { result ≡ option_map (λ a. a.number) (ask_to (facts_of self.now).asks peer) }
    {
        self.asks.number_of(peer)
    }

    /// The items of the open ask to a peer, where it has this number.
    ///
    /// # Errors
    /// Where no memory is left.
    pub fn open_items(&self, peer: u32, number: u64) -> Result<Option<Vec<(u32, u64)>>, AllocError>
        ensures items { IfOk result (λ items. option_map (λ v. v.items) items ≡ asked_items (ask_to (facts_of self.now).asks peer) number) }
        ensures keys { IfOk result (λ items. IfSome items (λ v. All (λ i. i.0 < key_count (facts_of self.now).shape) v.items)) }
    {
        self.asks.items(peer, number)
    }

    /// Opens an ask to a peer under the next number.
    ///
    /// # Errors
    /// Where no memory is left; all is then as before.
    pub fn open_ask(&mut self, peer: u32, items: Vec<(u32, u64)>) -> Result<(), AllocError>
        requires keys { (k : ℕ) → list_any (λ i. i.0 == k) items.items ≡ true → k < key_count (facts_of self.old).shape }
        requires room { (facts_of self.old).next_ask < 2 ^ 63 }
        ensures ok { OnOk result (facts_of self.new ≡ record (facts_of self.old) {
          asks = with_ask (record { peer = peer; number = (facts_of self.old).next_ask; items = items.items }) (facts_of self.old).asks;
          next_ask = (facts_of self.old).next_ask + 1;
        }) }
        ensures err { OnErr result (facts_of self.new ≡ facts_of self.old) }
    {
        self.asks.open(peer, self.next_ask, items)?;
        self.next_ask += 1;
        Ok(())
    }

    /// Closes the ask to a peer.
    pub fn close_ask(&mut self, peer: u32)
        ensures { facts_of self.new ≡ record (facts_of self.old) { asks = without_ask (facts_of self.old).asks peer } }
    {
        self.asks.close(peer);
    }
}

/// As many empty lists.
fn no_holders(alloc: Global, count: usize) -> Result<Vec<Holders>, AllocError>
    ensures length { IfOk result (λ rows. length rows.items ≡ count) }
    ensures empty { IfOk result (λ rows. (k : ℕ) → read rows.items [] k ≡ []) }
{
    let mut rows = Vec::with_capacity(alloc, count)?;
    for _key in 0..count {
        rows.push(Holders::new(alloc))?;
    }
    Ok(rows)
}
