//! Tables in the order of use.
ghost use Rattle.std.specs.Prelude.{◌≡◌, ◌∷◌, ◌++◌, [], nat_eq, length, option_copied, IfErr, IfOk, IfSome, OnErr, OnOk, MatchOption, Some, None};
ghost use Rattle.std.specs.List.{IsDistinct};
ghost use Rattle.std.specs.Map.{keys_of, lookup, remove_entry};
ghost use Rattle.spill_store.specs.Table.{put_first, ChangesAt, IsLast, SameValues};

use lru::{Iter, LruCache};
use std::alloc::{AllocError, Global};
use std::marker::Model;

/// Values by key, the most recently used first. Contracts see the list of its entries. It never throws one out.
#[derive(Drop)]
pub(crate) struct Table<V: Drop> {
    cache: LruCache<u32, V>,
}

impl<V: Drop> Model for Table<V> {
    ghost use Rattle.std.specs.Prelude.{◌≡◌, ◌-◌, ◌^◌, ℕ, List, nat_eq};
    ghost use Rattle.std.specs.List.{IsDistinct};
    ghost use Rattle.std.specs.Map.{keys_of};

    ghost Value = { List (ℕ × V) };

    ghost view = { λ t. t.cache.entries };

    ghost invariant = { λ t. (t.cache.cap ≡ 2 ^ 64 - 1) × IsDistinct nat_eq (keys_of t.cache.entries) };
}

impl<V: Drop> Table<V> {
    /// A table without entries.
    pub(crate) fn new(alloc: Global) -> Result<Self, AllocError>
        ensures { IfOk result (λ t. t ≡ []) }
    {
        let cache = LruCache::unbounded(alloc)?;
        Ok(Table { cache })
    }

    /// Puts a value under a key, as the most recently used one, in place of the one that was there. Where memory is
    /// wanting, the value is handed back, and the table is as before.
    pub(crate) fn put(&mut self, key: u32, value: V) -> Result<(), V>
        ensures ok { OnOk result (self.new ≡ put_first key value self.old) }
        ensures changes { OnOk result (ChangesAt key (Some value) self.old self.new) }
        ensures err { OnErr result (self.new ≡ self.old) }
        ensures value_returned { IfErr result (λ v. v ≡ value) }
    {
        self.cache.len();
        let stored = self.cache.put(key, value);
        self.cache.len();
        match stored {
            Ok(_) => Ok(()),
            Err(failed) => {
                let (_, value) = failed.value;
                Err(value)
            }
        }
    }

    /// Puts a value in the place of the one of a key, which it answers, if there is one. No memory.
    pub(crate) fn replace(&mut self, key: u32, value: V) -> Option<V>
        ensures value { result ≡ lookup (nat_eq key) self.old }
    {
        self.cache.len();
        self.cache.peek(&key)?;
        let stored = self.cache.put(key, value);
        self.cache.len();
        stored.ok().flatten()
    }

    /// The value of a key, whose place in the order stays. No memory.
    pub(crate) fn get(&self, key: u32) -> Option<&V>
        ensures { option_copied result ≡ lookup (nat_eq key) self.now }
    {
        self.cache.peek(&key)
    }

    /// Makes a key the most recently used one, if it is there. No memory.
    pub(crate) fn use_key(&mut self, key: u32)
        ensures same { SameValues self.old self.new }
        ensures first { IfSome (lookup (nat_eq key) self.old) (λ v. self.new ≡ put_first key v self.old) }
    {
        self.cache.promote(&key);
        self.cache.len();
    }

    /// Takes the value of a key out. No memory.
    pub(crate) fn remove(&mut self, key: u32) -> Option<V>
        ensures value { result ≡ lookup (nat_eq key) self.old }
        ensures entries { self.new ≡ remove_entry (nat_eq key) self.old }
        ensures changes { ChangesAt key None self.old self.new }
    {
        let value = self.cache.pop(&key);
        self.cache.len();
        value
    }

    /// The least recently used entry, if there is one. No memory.
    pub(crate) fn last(&self) -> Option<(u32, &V)>
        ensures { MatchOption result (self.now ≡ []) (λ e. IsLast self.now e.0 e.1.now) }
    {
        match self.cache.peek_lru() {
            Some((key, value)) => Some((*key, value)),
            None => None,
        }
    }

    /// The entries, to be taken from the least recently used one on. No memory.
    pub(crate) fn late(&self) -> Late<'_, V>
        ensures { result ≡ self.now }
    {
        Late {
            entries: self.cache.iter(),
        }
    }

    /// How many entries there are. No memory.
    pub(crate) fn len(&self) -> usize
        ensures len { result ≡ length self.now }
        ensures distinct { IsDistinct nat_eq (keys_of self.now) }
    {
        self.cache.len()
    }
}

/// The entries of a table that weren't taken yet. Contracts see their list, the most recently used first.
#[derive(Drop)]
pub(crate) struct Late<'a, V> {
    entries: Iter<'a, u32, V>,
}

impl<'a, V> Model for Late<'a, V> {
    ghost use Rattle.std.specs.Prelude.{ℕ, List};

    ghost Value = { List (ℕ × V) };

    ghost view = { λ l. l.entries };
}

impl<'a, V> Late<'a, V> {
    /// Takes the least recently used one of those that are left, if there is one. No memory.
    pub(crate) fn next(&mut self) -> Option<(u32, &'a V)>
        ensures { MatchOption result (self.new ≡ self.old) (λ e. self.old ≡ self.new ++ (e.0, e.1.now) ∷ []) }
    {
        match self.entries.next_back() {
            Some((key, value)) => Some((*key, value)),
            None => None,
        }
    }
}
