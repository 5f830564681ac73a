//! The keys that each peer is known to hold.
ghost use Rattle.std.specs.Prelude.{◌≡◌, ◌==◌, ◌&&◌, ◌<◌, ◌≤◌, ◌^◌, ℕ, true, false, nat_lt, cond, length, IfOk, OnOk};
ghost use Rattle.key_sets.specs.Sets.{IsFirst};
ghost use Rattle.gather_client.specs.Peers.{holds, has_set, AreReady, IsOver, HoldsSame, HoldsPut};

use fact_rows::Row;
use key_sets::KeySet;
use std::alloc::{AllocError, Global};
use std::marker::Model;

/// A place for each number that a worker can have, up to 1,024, and one for the number 0, which none has.
const PLACES: usize = 1025;

/// At each peer the keys that it is known to hold. A peer has a set from when it is first named, if it has a place.
///
/// Contracts see how many keys there are, and the words of the sets.
#[derive(Drop)]
pub struct PeerKeys {
    keys: u32,
    sets: Row<Option<KeySet>>,
}

impl Model for PeerKeys {
    ghost use Rattle.gather_client.specs.Peers.{PeerSets, AreRoomy};

    ghost Value = { PeerSets };

    ghost view = { λ s. record { keys = s.keys; sets = s.sets } };

    ghost invariant = { λ s. AreRoomy s.keys s.sets };
}

impl PeerKeys {
    /// No set, over this many keys.
    ///
    /// # Errors
    /// Where no memory is left.
    pub fn new(alloc: Global, keys: u32) -> Result<PeerKeys, AllocError>
        requires { keys ≤ 2 ^ 20 }
        ensures keys { IfOk result (λ peers. peers.keys ≡ keys) }
        ensures none { IfOk result (λ peers. (p k : ℕ) → holds peers p k ≡ false) }
    {
        let sets = Row::vacant(alloc, PLACES)?;
        Ok(PeerKeys { keys, sets })
    }

    /// Whether there is a place for the peer's set.
    pub fn has_place(&self, peer: u32) -> bool
        ensures { result ≡ nat_lt peer (length self.now.sets) }
    {
        (peer as usize) < self.sets.len()
    }

    /// The least key from this one on in the peer's set.
    pub fn next(&self, peer: u32, from: u32) -> Option<u32>
        ensures { IsFirst (holds self.now peer) from result }
    {
        match self.sets.look(peer) {
            Some(set) => set.first_from(from),
            None => None,
        }
    }

    /// Makes a set for each of these holders that has a place and no set.
    ///
    /// # Errors
    /// Where no memory is left. No key has come into a set or left one then either.
    pub fn add_sets(&mut self, alloc: Global, holders: &[(u32, u64)]) -> Result<(), AllocError>
        ensures ready { OnOk result (AreReady self.new holders.now) }
        ensures same { HoldsSame self.old self.new }
    {
        for holder in holders {
            self.add_set(alloc, holder.0)?;
        }
        Ok(())
    }

    /// The same for one peer.
    fn add_set(&mut self, alloc: Global, peer: u32) -> Result<(), AllocError>
        ensures ready { OnOk result (peer < length self.new.sets → has_set self.new peer ≡ true) }
        ensures same { HoldsSame self.old self.new }
    {
        if !self.has_place(peer) {
            return Ok(());
        }
        if self.sets.look(peer).is_some() {
            return Ok(());
        }
        let set = KeySet::new(alloc, self.keys)?;
        self.sets.put(peer, set);
        Ok(())
    }

    /// The key is in the sets of these holders or not.
    pub fn put_all(&mut self, holders: &[(u32, u64)], key: u32, to: bool)
        requires key { key < self.old.keys }
        requires ready { to ≡ true → AreReady self.old holders.now }
        ensures { HoldsPut key to holders.now self.old self.new }
    {
        for holder in holders {
            self.put(holder.0, key, to);
        }
    }

    /// The same of one peer's set.
    fn put(&mut self, peer: u32, key: u32, to: bool)
        requires key { key < self.old.keys }
        requires ready { to ≡ true → peer < length self.old.sets → has_set self.old peer ≡ true }
        ensures over { IsOver self.old self.new }
        ensures at { (p k : ℕ) → p < length self.old.sets → holds self.new p k ≡ cond (k == key && peer == p) to (holds self.old p k) }
    {
        if !self.has_place(peer) {
            return;
        }
        match self.sets.take(peer) {
            Some(set) => {
                let mut set = set;
                set.put(key, to);
                self.sets.put(peer, set);
            }
            None => {}
        }
    }
}
