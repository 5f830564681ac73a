//! Flags that spread along links.
ghost use Rattle.std.specs.Prelude.{◌≡◌, ℕ, ◌+◌, ◌<◌, false, cond, nat_eq, IfOk};
ghost use Rattle.std.specs.List.{AllByRecursion};
ghost use Rattle.cluster_rules.specs.Derived.{is_in};
ghost use Rattle.key_sets.specs.Sets.{has, IsFirst};
ghost use Rattle.spread_flags.specs.Spread.{Spread, IsKept, IsLinked, IsSpread, size, targets, seed, gate, flag, was, leaders};

use crate::turn::{count_turn, mark_all};
use cluster_msgs::KeyList;
use fact_rows::Row;
use key_sets::KeySet;
use std::alloc::{AllocError, Global};
use std::marker::Model;

/// A flag for each key, with the links along which flags spread.
#[derive(Drop)]
pub struct Flags {
    links: Vec<KeyList>,
    seeds: Row<bool>,
    gates: Row<bool>,
    flags: Row<bool>,
    counts: Row<u32>,
    stale: KeySet,
    changed: KeySet,
}

impl Model for Flags {
    ghost use Rattle.spread_flags.specs.Spread.{Spread};

    ghost Value = { Spread };

    ghost use Rattle.spread_flags.specs.Spreads.{spread_of, IsInOrder};

    ghost view = { spread_of };

    ghost invariant = { IsInOrder };
}

impl Flags {
    /// No key is a seed, each gate is as said, and no flag is set. Later calls take no memory.
    ///
    /// # Errors
    /// Where no memory is left.
    pub fn new(alloc: Global, links: Vec<KeyList>, gates: bool) -> Result<Flags, AllocError>
        requires { IsLinked links.items }
        ensures links { IfOk result (λ flags. flags.links ≡ links.items) }
        ensures seeds { IfOk result (λ flags. (k : ℕ) → seed flags k ≡ false) }
        ensures gates { IfOk result (λ flags. (k : ℕ) → k < size flags → gate flags k ≡ gates) }
        ensures flags { IfOk result (λ flags. (k : ℕ) → flag flags k ≡ false) }
        ensures stale { IfOk result (λ flags. (k : ℕ) → has flags.stale k ≡ false) }
        ensures changed { IfOk result (λ flags. (k : ℕ) → has flags.changed k ≡ false) }
    {
        let count = links.len();
        let seeds = Row::filled(alloc, count, false)?;
        let gate_row = Row::filled(alloc, count, gates)?;
        let flags = Row::filled(alloc, count, false)?;
        let counts = Row::filled(alloc, count, 0)?;
        let stale = KeySet::new(alloc, count as u32)?;
        let changed = KeySet::new(alloc, count as u32)?;
        Ok(Flags {
            links,
            seeds,
            gates: gate_row,
            flags,
            counts,
            stale,
            changed,
        })
    }

    /// The counts are those of the flags, and keys, links and rows fit.
    pub fn sound(&self)
        ensures { IsKept self.now }
    {
        let _links = &self.links;
    }

    /// How many keys there are.
    pub fn len(&self) -> u32
        ensures { result ≡ size self.now }
    {
        self.links.len() as u32
    }

    /// The keys that a key leads to.
    pub fn targets(&self, key: u32) -> &[u32]
        requires { key < size self.now }
        ensures { result.now ≡ targets self.now key }
    {
        self.links[key as usize].as_slice()
    }

    /// Whether the key is flagged.
    pub fn is_set(&self, key: u32) -> bool
        ensures { result ≡ flag self.now key }
    {
        self.flags.test(key as usize)
    }

    /// How many flagged keys lead to this one.
    pub fn leaders(&self, key: u32) -> u32
        requires { key < size self.now }
        ensures { result ≡ leaders self.now key }
    {
        self.counts.get(key)
    }

    /// The key is a seed from now on, or none.
    pub fn set_seed(&mut self, key: u32, to: bool)
        requires { key < size self.old }
        ensures links { self.new.links ≡ self.old.links }
        ensures seeds { (k : ℕ) → seed self.new k ≡ cond (nat_eq k key) to (seed self.old k) }
        ensures gates { self.new.gates ≡ self.old.gates }
        ensures flags { self.new.flags ≡ self.old.flags }
        ensures changed { self.new.changed ≡ self.old.changed }
    {
        self.seeds.set(key, to);
        self.stale.insert(key);
    }

    /// The key's gate is open from now on, or shut.
    pub fn set_gate(&mut self, key: u32, to: bool)
        requires { key < size self.old }
        ensures links { self.new.links ≡ self.old.links }
        ensures seeds { self.new.seeds ≡ self.old.seeds }
        ensures gates { (k : ℕ) → gate self.new k ≡ cond (nat_eq k key) to (gate self.old k) }
        ensures flags { self.new.flags ≡ self.old.flags }
        ensures changed { self.new.changed ≡ self.old.changed }
    {
        self.gates.set(key, to);
        self.stale.insert(key);
    }

    /// The key gets the flag that it is due, and the keys that it leads to are to be looked at where that is another.
    fn look(&mut self, key: u32)
        requires { key < size self.old }
        ensures links { self.new.links ≡ self.old.links }
        ensures seeds { self.new.seeds ≡ self.old.seeds }
        ensures gates { self.new.gates ≡ self.old.gates }
        ensures was { (k : ℕ) → was self.new k ≡ was self.old k }
        ensures stale { (k : ℕ) → is_in k (targets self.old key) ≡ false → has self.new.stale k ≡ cond (nat_eq k key) false (has self.old.stale k) }
    {
        let to = self.gates.get(key) & (self.seeds.get(key) | (self.counts.get(key) > 0));
        self.stale.remove(key);
        if to != self.flags.get(key) {
            self.flags.set(key, to);
            self.changed.toggle(key);
            let keys = self.links[key as usize].as_slice();
            count_turn(&mut self.counts, keys, to);
            mark_all(&mut self.stale, keys);
        }
    }

    /// The flags spread anew, where links lead to greater keys.
    pub fn settle_up(&mut self)
        requires { (k : ℕ) → AllByRecursion (λ d. k < d) (targets self.old k) }
        ensures spread { IsSpread (targets self.new) (size self.new) (seed self.new) (gate self.new) (flag self.new) }
        ensures links { self.new.links ≡ self.old.links }
        ensures seeds { self.new.seeds ≡ self.old.seeds }
        ensures gates { self.new.gates ≡ self.old.gates }
        ensures was { (k : ℕ) → was self.new k ≡ was self.old k }
    {
        let mut from = 0;
        while let Some(key) = self.stale.first_from(from) {
            self.look(key);
            from = key + 1;
        }
    }

    /// The flags spread anew, where links lead to smaller keys.
    pub fn settle_down(&mut self)
        requires { (k : ℕ) → AllByRecursion (λ d. d < k) (targets self.old k) }
        ensures spread { IsSpread (targets self.new) (size self.new) (seed self.new) (gate self.new) (flag self.new) }
        ensures links { self.new.links ≡ self.old.links }
        ensures seeds { self.new.seeds ≡ self.old.seeds }
        ensures gates { self.new.gates ≡ self.old.gates }
        ensures was { (k : ℕ) → was self.new k ≡ was self.old k }
    {
        let mut below = self.links.len() as u32;
        while let Some(key) = self.stale.last_below(below) {
            self.look(key);
            below = key;
        }
    }

    /// The flags are from now on those that changes are told from.
    pub fn forget_changes(&mut self)
        ensures spread { self.new ≡ record self.old { changed = self.new.changed } }
        ensures changed { (k : ℕ) → has self.new.changed k ≡ false }
    {
        self.changed.clear();
    }

    /// The first key from this one on whose flag is another than when the changes were last forgotten.
    pub fn changed_from(&self, key: u32) -> Option<u32>
        ensures { IsFirst (has self.now.changed) key result }
    {
        self.changed.first_from(key)
    }
}
