//! A set of keys whose questions pass over what is empty.
ghost use Rattle.std.specs.Prelude.{◌≡◌, ℕ, ◌+◌, ◌*◌, ◌<◌, ◌≤◌, ◌^◌, cond, nat_eq, true, false, Some, None, IfOk, length, not, slice_set};
ghost use Rattle.key_sets.specs.Sets.{has, room, IsFirst, IsLast};
ghost use Rattle.key_sets.specs.Marked.{is_full};

use crate::bits::{highest_below, lowest, lowest_from, test, top, with_bit, without_bit};
use crate::plain::PlainSet;
use std::alloc::{AllocError, Global};
use std::marker::Model;

/// A set of keys, seen as its words, which `has` makes a test.
#[derive(Drop)]
pub struct KeySet {
    words: Vec<u64>,
    /// The words that are not empty.
    full: PlainSet,
}

impl Model for KeySet {
    ghost use Rattle.std.specs.Prelude.{List, ℕ};

    ghost Value = { List ℕ };

    ghost use Rattle.key_sets.specs.KeySets.{IsKept};

    ghost view = { λ s. s.words.items };

    ghost invariant = { IsKept };
}

impl KeySet {
    /// The empty set, with room for the keys below this number.
    ///
    /// # Errors
    /// Where no memory is left.
    pub fn new(alloc: Global, count: u32) -> Result<KeySet, AllocError>
        requires { count ≤ 2 ^ 20 }
        ensures room { IfOk result (λ set. count ≤ room set) }
        ensures keys { IfOk result (λ set. (k : ℕ) → has set k ≡ false) }
    {
        let len = count as usize / 64 + 1;
        let words = vec![in alloc; 0; len]?;
        let full = PlainSet::new(alloc, len as u32)?;
        Ok(KeySet { words, full })
    }

    /// Whether the key is in the set.
    pub fn contains(&self, key: u32) -> bool
        ensures { result ≡ has self.now key }
    {
        let word = (key / 64) as usize;
        if word < self.words.len() {
            test(self.words[word], key % 64)
        } else {
            false
        }
    }

    /// One word is another.
    fn set_word(&mut self, word: u32, bits: u64)
        requires { word < length self.old }
        ensures { self.new ≡ slice_set self.old word bits }
    {
        self.words[word as usize] = bits;
        self.full.put(word, bits != 0);
    }

    /// The key is in the set from now on.
    pub fn insert(&mut self, key: u32)
        requires { key < room self.old }
        ensures keys { (k : ℕ) → has self.new k ≡ cond (nat_eq k key) true (has self.old k) }
        ensures room { room self.new ≡ room self.old }
    {
        let word = key / 64;
        let bits = with_bit(self.words[word as usize], key % 64);
        self.set_word(word, bits);
    }

    /// The key is no longer in the set.
    pub fn remove(&mut self, key: u32)
        requires { key < room self.old }
        ensures keys { (k : ℕ) → has self.new k ≡ cond (nat_eq k key) false (has self.old k) }
        ensures room { room self.new ≡ room self.old }
    {
        let word = key / 64;
        let bits = without_bit(self.words[word as usize], key % 64);
        self.set_word(word, bits);
    }

    /// The key is in the set or not.
    pub fn put(&mut self, key: u32, to: bool)
        requires { key < room self.old }
        ensures keys { (k : ℕ) → has self.new k ≡ cond (nat_eq k key) to (has self.old k) }
        ensures room { room self.new ≡ room self.old }
    {
        if to {
            self.insert(key);
        } else {
            self.remove(key);
        }
    }

    /// The key changes sides: it is in the set where it was not, and not where it was.
    pub fn toggle(&mut self, key: u32)
        requires { key < room self.old }
        ensures keys { (k : ℕ) → has self.new k ≡ cond (nat_eq k key) (not (has self.old k)) (has self.old k) }
        ensures room { room self.new ≡ room self.old }
    {
        if self.contains(key) {
            self.remove(key);
        } else {
            self.insert(key);
        }
    }

    /// No key is in the set any more. It costs what was in the set.
    pub fn clear(&mut self)
        ensures keys { (k : ℕ) → has self.new k ≡ false }
        ensures room { room self.new ≡ room self.old }
    {
        let mut from = 0;
        while let Some(word) = self.first_word(from) {
            self.set_word(word, 0);
            from = word + 1;
        }
    }

    /// The first word from this one on that is not empty.
    fn first_word(&self, from: u32) -> Option<u32>
        ensures first { IsFirst (is_full self.now) from result }
        ensures few { (w : ℕ) → result ≡ Some w → w < 2 ^ 20 }
    {
        self.full.first_from(from)
    }

    /// The first key of the set from this one on.
    pub fn first_from(&self, key: u32) -> Option<u32>
        ensures { IsFirst (has self.now) key result }
    {
        let word = key / 64;
        if word as usize >= self.words.len() {
            return None;
        }
        match lowest_from(self.words[word as usize], key % 64) {
            Some(place) => Some(word * 64 + place),
            None => self.first_in(word + 1),
        }
    }

    /// The first key of the set in the words from this one on.
    fn first_in(&self, start: u32) -> Option<u32>
        ensures { IsFirst (has self.now) (start * 64) result }
    {
        match self.first_word(start) {
            Some(word) => Some(word * 64 + lowest(self.words[word as usize])),
            None => None,
        }
    }

    /// The last key of the set below this one.
    pub fn last_below(&self, key: u32) -> Option<u32>
        ensures { IsLast (has self.now) key result }
    {
        let word = key / 64;
        if word as usize >= self.words.len() {
            return self.last_in(word);
        }
        match highest_below(self.words[word as usize], key % 64) {
            Some(place) => Some(word * 64 + place),
            None => self.last_in(word),
        }
    }

    /// The last key of the set in the words below this one.
    fn last_in(&self, end: u32) -> Option<u32>
        ensures { IsLast (has self.now) (end * 64) result }
    {
        match self.last_word(end) {
            Some(word) => Some(word * 64 + top(self.words[word as usize])),
            None => None,
        }
    }

    /// The last word below this one that is not empty.
    fn last_word(&self, end: u32) -> Option<u32>
        ensures { IsLast (is_full self.now) end result }
    {
        self.full.last_below(end)
    }
}
