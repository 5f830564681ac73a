//! The open asks, ascending by peer.
ghost use Rattle.std.specs.Prelude.{◌≡◌, ◌==◌, ◌<◌, ◌≤◌, ℕ, [], true, Some, nat_lt, is_some, length, slice_index_or, All, IfOk, IfSome, OnOk, OnErr};
ghost use Rattle.std.specs.List.{list_any, position, position_or_len};
ghost use Rattle.std.specs.Option.{option_copied, option_map};
ghost use Rattle.cluster_rules.specs.Worker.{Ask, ask_to, with_ask, without_ask, is_asked_for};
ghost use Rattle.open_asks.specs.Kept.{asked_items, without_first};

use crate::marks::{mark_asked, mark_items, unmark_asked, unmark_items};
use fact_rows::Row;
use std::alloc::{AllocError, Global};
use std::marker::Model;

/// What was asked of one peer: the number of the ask, and each key with the copy that it is to be.
#[derive(Drop)]
pub struct OpenAsk {
    peer: u32,
    number: u64,
    items: Vec<(u32, u64)>,
}

impl Model for OpenAsk {
    ghost use Rattle.cluster_rules.specs.Worker.{Ask};

    ghost Value = { Ask };

    ghost view = { λ s. record { peer = s.peer; number = s.number; items = s.items.items } };
}

impl OpenAsk {
    /// The ask of this number to a peer.
    pub fn new(peer: u32, number: u64, items: Vec<(u32, u64)>) -> OpenAsk
        ensures { result ≡ record { peer = peer; number = number; items = items.items } }
    {
        OpenAsk {
            peer,
            number,
            items,
        }
    }

    /// The peer that was asked.
    pub fn peer(&self) -> u32
        ensures { result ≡ self.now.peer }
    {
        self.peer
    }

    /// The number of the ask.
    pub fn number(&self) -> u64
        ensures { result ≡ self.now.number }
    {
        self.number
    }

    /// The keys that were asked for, each with its copy.
    pub fn items(&self) -> &[(u32, u64)]
        ensures { result.now ≡ self.now.items }
    {
        self.items.as_slice()
    }
}

/// The open asks, and which keys they name. Callers open one to each peer at most.
///
/// Contracts see how many keys there are, and the asks.
#[derive(Drop)]
pub struct Asks {
    asks: Vec<OpenAsk>,
    flying: Row<bool>,
}

impl Model for Asks {
    ghost use Rattle.std.specs.Prelude.{length};
    ghost use Rattle.open_asks.specs.Kept.{Kept};

    ghost Value = { Kept };

    ghost view = { λ s. record { wide = length s.flying; asks = s.asks.items } };

    ghost use Rattle.open_asks.specs.Flying.{IsMarked};

    ghost invariant = { λ s. IsMarked s.flying s.asks.items };
}

impl Asks {
    /// No asks, over this many keys.
    ///
    /// # Errors
    /// Where no memory is left.
    pub fn new(alloc: Global, keys: usize) -> Result<Asks, AllocError>
        ensures { IfOk result (λ asks. asks ≡ record { wide = keys; asks = [] }) }
    {
        Ok(Asks {
            asks: Vec::new(alloc),
            flying: Row::filled(alloc, keys, false)?,
        })
    }

    /// What the asks keep: they name keys below their number alone.
    pub fn sound(&self)
        ensures { (k : ℕ) → is_asked_for self.now.asks k ≡ true → k < self.now.wide }
    {
        let _flying = &self.flying;
    }

    /// Whether an ask to this peer is open.
    pub fn has(&self, peer: u32) -> bool
        ensures { result ≡ is_some (ask_to self.now.asks peer) }
    {
        find_ask(self.asks.as_slice(), peer).is_some()
    }

    /// Whether some open ask names the key.
    pub fn names(&self, key: u32) -> bool
        ensures { result ≡ is_asked_for self.now.asks key }
    {
        self.flying.test(key as usize)
    }

    /// The number of the open ask to a peer, if one is open.
    pub fn number_of(&self, peer: u32) -> Option<u64>
        ensures { result ≡ option_map (λ a. a.number) (ask_to self.now.asks peer) }
    {
        match find_ask(self.asks.as_slice(), peer) {
            Some(ask) => Some(ask.number()),
            None => None,
        }
    }

    /// The items of the open ask to a peer, where it has this number.
    ///
    /// # Errors
    /// Where no memory is left.
    pub fn items(&self, peer: u32, number: u64) -> Result<Option<Vec<(u32, u64)>>, AllocError>
        ensures items { IfOk result (λ items. option_map (λ v. v.items) items ≡ asked_items (ask_to self.now.asks peer) number) }
        ensures keys { IfOk result (λ items. IfSome items (λ v. All (λ i. i.0 < self.now.wide) v.items)) }
    {
        let alloc = *self.asks.allocator();
        match find_ask(self.asks.as_slice(), peer) {
            Some(ask) => items_of(alloc, ask, number),
            None => Ok(None),
        }
    }

    /// Opens an ask of this number to a peer.
    ///
    /// # Errors
    /// Where no memory is left; the asks are then as before.
    pub fn open(&mut self, peer: u32, number: u64, items: Vec<(u32, u64)>) -> Result<(), AllocError>
        requires { (k : ℕ) → list_any (λ i. i.0 == k) items.items ≡ true → k < self.old.wide }
        ensures ok { OnOk result (self.new ≡ record self.old { asks = with_ask (record { peer = peer; number = number; items = items.items }) self.old.asks }) }
        ensures err { OnErr result (self.new ≡ self.old) }
    {
        let place = place_for(self.asks.as_slice(), peer);
        self.asks.insert(place, OpenAsk::new(peer, number, items))?;
        mark_items(&mut self.flying, self.asks[place].items());
        Ok(())
    }

    /// Where an ask to this peer would have its place: before the first to a greater peer.
    pub fn place_for(&self, peer: u32) -> usize
        ensures { result ≡ position_or_len (λ (a : Ask). nat_lt peer a.peer) self.now.asks }
    {
        place_for(self.asks.as_slice(), peer)
    }

    /// The items of the ask at this place.
    pub fn items_at(&self, place: usize) -> &[(u32, u64)]
        requires { place < length self.now.asks }
        ensures { (d : Ask) → result.now ≡ (slice_index_or self.now.asks place d).items }
    {
        self.asks[place].items()
    }

    /// Closes the first ask to a peer, if one is open, and gives it back.
    pub fn take(&mut self, peer: u32) -> Option<OpenAsk>
        ensures ask { result ≡ ask_to self.old.asks peer }
        ensures rest { self.new ≡ record self.old { asks = without_first self.old.asks peer } }
    {
        match place_of(self.asks.as_slice(), peer) {
            Some(place) => {
                let ask = self.asks.remove(place);
                unmark_items(&mut self.flying, ask.items());
                mark_asked(&mut self.flying, self.asks.as_slice());
                Some(ask)
            }
            None => None,
        }
    }

    /// Closes the ask to a peer, if one is open.
    pub fn close(&mut self, peer: u32)
        ensures { self.new ≡ record self.old { asks = without_ask self.old.asks peer } }
    {
        unmark_asked(&mut self.flying, self.asks.as_slice(), peer);
        self.asks.retain(|ask| ask.peer() != peer);
        mark_asked(&mut self.flying, self.asks.as_slice());
    }
}

/// The open ask to a peer.
fn find_ask(asks: &[OpenAsk], peer: u32) -> Option<&OpenAsk>
    ensures { option_copied result ≡ ask_to asks.now peer }
{
    asks.iter().find(|ask| ask.peer() == peer)
}

/// The items of an ask, where it has this number.
fn items_of(
    alloc: Global,
    ask: &OpenAsk,
    number: u64,
) -> Result<Option<Vec<(u32, u64)>>, AllocError>
    ensures items { IfOk result (λ items. option_map (λ v. v.items) items ≡ asked_items (Some ask.now) number) }
    ensures same { IfOk result (λ items. IfSome items (λ v. v.items ≡ ask.now.items)) }
{
    if ask.number() == number {
        let items = Vec::from_slice(alloc, ask.items())?;
        Ok(Some(items))
    } else {
        Ok(None)
    }
}

/// The place of the first ask to a greater peer.
fn first_after(asks: &[OpenAsk], peer: u32) -> Option<usize>
    ensures { result ≡ position (λ (a : Ask). nat_lt peer a.peer) asks.now }
{
    asks.iter().position(|ask| peer < ask.peer())
}

/// Where an ask to this peer has its place: before the first to a greater peer.
fn place_for(asks: &[OpenAsk], peer: u32) -> usize
    ensures place { result ≡ position_or_len (λ (a : Ask). nat_lt peer a.peer) asks.now }
    ensures within { result ≤ length asks.now }
{
    match first_after(asks, peer) {
        Some(place) => place,
        None => asks.len(),
    }
}

/// The place of the first ask to this peer.
fn place_of(asks: &[OpenAsk], peer: u32) -> Option<usize>
    ensures { result ≡ position (λ (a : Ask). a.peer == peer) asks.now }
{
    asks.iter().position(|ask| ask.peer() == peer)
}
