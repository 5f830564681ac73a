//! Requests and answers under way between askers and peers.
ghost use Rattle.std.specs.Prelude.{◌≡◌, ◌&&◌, ◌||◌, ◌==◌, ◌≤◌, [], length, OnOk, OnErr};
ghost use Rattle.std.specs.List.{position, position_or_len};
ghost use Rattle.std.specs.Option.{option_copied};
ghost use Rattle.cluster_msgs.specs.declared.messages.Message.TheVariants as message;
ghost use Rattle.cluster_msgs.specs.declared.messages.Peer.TheVariants.{GetData, Data};
ghost use Rattle.cluster_rules.specs.World.{parcel_before, with_parcel};
ghost use Rattle.message_queues.specs.declared.transit.InTransit.{InTransit};
ghost use Rattle.message_queues.specs.Transit.{parcel_of_transit, parcels, is_transit, with_transit, transit_of, without_transit};

use crate::order::{asker_before, same_asker};
use cluster_msgs::{Asker, KeyList, Message, Peer, Sequence};
use std::alloc::{AllocError, Global};
use std::marker::Model;
use std::sync::Arc;

/// A request or an answer, with the blocks of the keys that were found: none with a request.
#[derive(Drop)]
pub struct InTransit<B> {
    pub asker: Asker,
    pub peer: u32,
    pub ask: u64,
    pub message: Message,
    pub blocks: Sequence<Arc<B>>,
}

impl<B: Drop> InTransit<B> {
    /// A request for these keys.
    pub fn request(alloc: Global, asker: Asker, peer: u32, ask: u64, keys: KeyList) -> InTransit<B>
        ensures parcel { parcel_of_transit result ≡ record { asker = asker; peer = peer; ask = ask; keys = keys } }
        ensures message { result.message ≡ message.Peer (GetData ask keys) }
        ensures blocks { result.blocks ≡ [] }
    {
        InTransit {
            asker,
            peer,
            ask,
            message: Message::Peer(Peer::GetData { ask, keys }),
            blocks: Sequence::new(alloc),
        }
    }

    /// An answer with the blocks of the keys that were found, one each, in their order.
    pub fn answer(
        asker: Asker,
        peer: u32,
        ask: u64,
        found: KeyList,
        blocks: Sequence<Arc<B>>,
    ) -> InTransit<B>
        ensures parcel { parcel_of_transit result ≡ record { asker = asker; peer = peer; ask = ask; keys = found } }
        ensures message { result.message ≡ message.Peer (Data ask found) }
        ensures blocks { result.blocks ≡ blocks }
    {
        InTransit {
            asker,
            peer,
            ask,
            message: Message::Peer(Peer::Data { ask, found }),
            blocks,
        }
    }

    /// Whether it belongs to this ask.
    fn is_of(&self, asker: Asker, peer: u32, ask: u64) -> bool
        ensures { result ≡ is_transit asker peer ask self.now }
    {
        same_asker(self.asker, asker) && self.peer == peer && self.ask == ask
    }

    /// Whether it has its place before the other one: by asker, then peer, then ask.
    fn is_before(&self, other: &InTransit<B>) -> bool
        ensures { result ≡ parcel_before (parcel_of_transit self.now) (parcel_of_transit other.now) }
    {
        let same = same_asker(self.asker, other.asker);
        let before = asker_before(self.asker, other.asker);
        before
            || same && (self.peer < other.peer || self.peer == other.peer && self.ask < other.ask)
    }
}

/// What is under way, by asker, then peer, then ask.
#[derive(Drop)]
pub struct Transits<B> {
    items: Vec<InTransit<B>>,
}

impl<B> Model for Transits<B> {
    ghost use Rattle.std.specs.Prelude.{List};
    ghost use Rattle.message_queues.specs.declared.transit.InTransit.{InTransit};

    ghost Value = { List (InTransit B) };

    ghost view = { λ s. s.items.items };
}

impl<B: Drop> Transits<B> {
    /// Nothing is under way.
    pub fn new(alloc: Global) -> Self
        ensures { result ≡ [] }
    {
        Transits {
            items: Vec::new(alloc),
        }
    }

    /// How many are under way.
    pub fn len(&self) -> usize
        ensures { result ≡ length self.now }
    {
        self.items.len()
    }

    /// All that is under way, in its order.
    pub fn as_slice(&self) -> &[InTransit<B>]
        ensures { result.now ≡ self.now }
    {
        self.items.as_slice()
    }

    /// What belongs to this ask, if it is under way.
    pub fn find(&self, asker: Asker, peer: u32, ask: u64) -> Option<&InTransit<B>>
        ensures { option_copied result ≡ transit_of asker peer ask self.now }
    {
        self.items.iter().find(|item| item.is_of(asker, peer, ask))
    }

    /// Puts one more under way, in its place.
    ///
    /// # Errors
    /// Where no memory is left; all is then as before.
    pub fn insert(&mut self, item: InTransit<B>) -> Result<(), AllocError>
        ensures ok { OnOk result (self.new ≡ with_transit item self.old) }
        ensures parcels { OnOk result (parcels self.new ≡ with_parcel (parcel_of_transit item) (parcels self.old)) }
        ensures err { OnErr result (self.new ≡ self.old) }
    {
        let place = place_for(self.items.as_slice(), &item);
        self.items.insert(place, item)?;
        Ok(())
    }

    /// Takes what belongs to this ask out.
    pub fn take(&mut self, asker: Asker, peer: u32, ask: u64) -> Option<InTransit<B>>
        ensures item { result ≡ transit_of asker peer ask self.old }
        ensures rest { self.new ≡ without_transit asker peer ask self.old }
    {
        match place_of(self.items.as_slice(), asker, peer, ask) {
            None => None,
            Some(place) => {
                let item = self.items.remove(place);
                self.items.retain(|other| !other.is_of(asker, peer, ask));
                Some(item)
            }
        }
    }
}

/// The place of what belongs to this ask.
fn place_of<B: Drop>(items: &[InTransit<B>], asker: Asker, peer: u32, ask: u64) -> Option<usize>
    ensures { result ≡ position (is_transit asker peer ask) items.now }
{
    items.iter().position(|item| item.is_of(asker, peer, ask))
}

/// The place of the first that has its place after this one.
fn first_after<B: Drop>(items: &[InTransit<B>], item: &InTransit<B>) -> Option<usize>
    ensures { result ≡ position (λ x. parcel_before (parcel_of_transit item.now) (parcel_of_transit x)) items.now }
{
    items.iter().position(|other| item.is_before(other))
}

/// Where one more has its place.
fn place_for<B: Drop>(items: &[InTransit<B>], item: &InTransit<B>) -> usize
    ensures place { result ≡ position_or_len (λ x. parcel_before (parcel_of_transit item.now) (parcel_of_transit x)) items.now }
    ensures within { result ≤ length items.now }
{
    match first_after(items, item) {
        Some(place) => place,
        None => items.len(),
    }
}
