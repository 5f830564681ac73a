//! A set of keys of a graph.
ghost use Rattle.std.specs.Prelude.{◌≡◌, ℕ, ◌<◌, ◌≤◌, true, false, IfOk, IfSome};
ghost use Rattle.cluster_rules.specs.Functions.{put};
ghost use Rattle.key_sets.specs.Sets.{IsFirst};
ghost use Rattle.node_states.specs.Spills.{is_marked, with_key};

use key_sets::KeySet;
use std::alloc::{AllocError, Global};
use std::marker::Model;

/// Some of the keys below a number. In a clause it is the words of the set and the number.
#[derive(Drop)]
pub struct Marks {
    set: KeySet,
    keys: u32,
}

impl Model for Marks {
    ghost use Rattle.std.specs.Prelude.{◌≡◌, ℕ, ◌≤◌, false};
    ghost use Rattle.key_sets.specs.Sets.{has, room};
    ghost use Rattle.node_states.specs.Spills.{Marked};

    ghost Value = { Marked };

    ghost view = { λ m. record { words = m.set; keys = m.keys } };

    ghost invariant = { λ m. (m.keys ≤ room m.set) × ((k : ℕ) → m.keys ≤ k → has m.set k ≡ false) };
}

impl Marks {
    /// None of the keys below this number.
    ///
    /// # Errors
    /// Where there is no memory.
    pub fn new(alloc: Global, keys: u32) -> Result<Self, AllocError>
        requires { keys ≤ 32768 }
        ensures none { IfOk result (λ marks. (k : ℕ) → is_marked marks k ≡ false) }
        ensures keys { IfOk result (λ marks. marks.keys ≡ keys) }
    {
        let set = KeySet::new(alloc, keys)?;
        Ok(Marks { set, keys })
    }

    /// Whether the key is marked.
    pub fn has(&self, key: u32) -> bool
        ensures { result ≡ is_marked self.now key }
    {
        self.set.contains(key)
    }

    /// Whether there is room for the key, if it is one.
    pub fn has_room(&self, key: Option<u32>) -> bool
        ensures { result ≡ true → IfSome key (λ k. k < self.now.keys) }
    {
        match key {
            Some(key) => key < self.keys,
            None => true,
        }
    }

    /// The key is marked from now on, if it is one.
    pub fn mark(&mut self, key: Option<u32>)
        requires { IfSome key (λ k. k < self.old.keys) }
        ensures marks { (k : ℕ) → is_marked self.new k ≡ with_key (is_marked self.old) key k }
        ensures keys { self.new.keys ≡ self.old.keys }
    {
        if let Some(key) = key {
            self.set.insert(key);
        }
    }

    /// The key is marked from now on, if it is below the number.
    pub fn add(&mut self, key: u32)
        ensures marks { (k : ℕ) → k < self.old.keys → is_marked self.new k ≡ put (is_marked self.old) key true k }
        ensures keys { self.new.keys ≡ self.old.keys }
    {
        if key < self.keys {
            self.set.insert(key);
        }
    }

    /// The first key from this one on that is marked.
    pub fn first(&self, from: u32) -> Option<u32>
        ensures { IsFirst (is_marked self.now) from result }
    {
        self.set.first_from(from)
    }

    /// The key is no longer marked.
    pub fn unmark(&mut self, key: u32)
        ensures marks { (k : ℕ) → is_marked self.new k ≡ put (is_marked self.old) key false k }
        ensures keys { self.new.keys ≡ self.old.keys }
    {
        if key < self.keys {
            self.set.remove(key);
        }
    }
}
