//! A set of numbers, one bit a number. A question visits all words, so it is for small sets.
ghost use Rattle.std.specs.Prelude.{◌≡◌, ℕ, ◌+◌, ◌*◌, ◌<◌, ◌≤◌, ◌^◌, cond, nat_eq, true, false, Some, None, IfOk, length};
ghost use Rattle.key_sets.specs.Sets.{has, room, IsFirst, IsLast};

use crate::bits::{highest, highest_below, lowest_from, test, with_bit, without_bit};
use std::alloc::{AllocError, Global};
use std::marker::Model;

/// A set of keys, seen as its words, which `has` makes a test. Its questions go over all words.
#[derive(Drop)]
pub struct PlainSet {
    words: Vec<u64>,
}

impl Model for PlainSet {
    ghost use Rattle.std.specs.Prelude.{List, ℕ, ◌≤◌, ◌^◌, length};

    ghost Value = { List ℕ };

    ghost view = { λ s. s.words.items };

    ghost invariant = { λ s. length s.words.items ≤ 2 ^ 20 };
}

impl PlainSet {
    /// The empty set, with room for the keys below this number.
    ///
    /// # Errors
    /// Where no memory is left.
    pub fn new(alloc: Global, count: u32) -> Result<PlainSet, AllocError>
        requires { count ≤ 2 ^ 20 }
        ensures room { IfOk result (λ set. count ≤ room set) }
        ensures keys { IfOk result (λ set. (k : ℕ) → has set k ≡ false) }
    {
        let len = count as usize / 64 + 1;
        let words = vec![in alloc; 0; len]?;
        Ok(PlainSet { words })
    }

    /// Whether the key is in the set.
    pub fn contains(&self, key: u32) -> bool
        ensures { result ≡ has self.now key }
    {
        let word = (key / 64) as usize;
        if word < self.words.len() {
            test(self.words[word], key % 64)
        } else {
            false
        }
    }

    /// The key is in the set from now on.
    pub fn insert(&mut self, key: u32)
        requires { key < room self.old }
        ensures keys { (k : ℕ) → has self.new k ≡ cond (nat_eq k key) true (has self.old k) }
        ensures room { room self.new ≡ room self.old }
    {
        let word = (key / 64) as usize;
        self.words[word] = with_bit(self.words[word], key % 64);
    }

    /// The key is no longer in the set.
    pub fn remove(&mut self, key: u32)
        requires { key < room self.old }
        ensures keys { (k : ℕ) → has self.new k ≡ cond (nat_eq k key) false (has self.old k) }
        ensures room { room self.new ≡ room self.old }
    {
        let word = (key / 64) as usize;
        self.words[word] = without_bit(self.words[word], key % 64);
    }

    /// The key is in the set or not.
    pub fn put(&mut self, key: u32, to: bool)
        requires { key < room self.old }
        ensures keys { (k : ℕ) → has self.new k ≡ cond (nat_eq k key) to (has self.old k) }
        ensures room { room self.new ≡ room self.old }
    {
        if to {
            self.insert(key);
        } else {
            self.remove(key);
        }
    }

    /// The first key of the set from this one on.
    pub fn first_from(&self, key: u32) -> Option<u32>
        ensures { IsFirst (has self.now) key result }
    {
        let word = (key / 64) as usize;
        if word >= self.words.len() {
            return None;
        }
        match lowest_from(self.words[word], key % 64) {
            Some(place) => Some(word as u32 * 64 + place),
            None => self.first_in(word + 1),
        }
    }

    /// The first key of the set in these words.
    fn first_in(&self, start: usize) -> Option<u32>
        ensures { IsFirst (has self.now) (start * 64) result }
    {
        for word in start..self.words.len() {
            match lowest_from(self.words[word], 0) {
                Some(place) => return Some(word as u32 * 64 + place),
                None => {}
            }
        }
        None
    }

    /// The last key of the set below this one.
    pub fn last_below(&self, key: u32) -> Option<u32>
        ensures { IsLast (has self.now) key result }
    {
        let word = (key / 64) as usize;
        if word >= self.words.len() {
            return self.last_in(self.words.len());
        }
        match highest_below(self.words[word], key % 64) {
            Some(place) => Some(word as u32 * 64 + place),
            None => self.last_in(word),
        }
    }

    /// The last key of the set in the words below this one.
    fn last_in(&self, end: usize) -> Option<u32>
        requires { end ≤ length self.now }
        ensures { IsLast (has self.now) (end * 64) result }
    {
        for done in 0..end {
            let word = end - 1 - done;
            match highest(self.words[word]) {
                Some(place) => return Some(word as u32 * 64 + place),
                None => {}
            }
        }
        None
    }
}
