//! The words of a line: numbers and lists are read from them.
//!
//! Members of a list stand between commas, and `-` is the list without members. A holder is `worker@copy`, and a key with its
//! holders is `key=holder+holder`. A worker that asks for blocks is `w1`, and a client `c1`. A number with a bound of losses behind
//! it is `11/2`.
use cluster_msgs::{Asker, Holders, KeyList, WhoHas};
use std::alloc::{AllocError, Global};

/// Why words are nothing that can be played.
#[derive(Clone, Copy)]
pub enum Fault {
    Ill,
    /// No graph has this row at its place.
    Unfit { key: u32 },
    OutOfMemory,
}

/// The words of a line, which are taken from the left, and whether one was another than it should be, or memory was wanting
/// for a list. Where it was, a number is 0 and a list is without the member.
#[derive(Drop)]
pub struct Words<'a> {
    alloc: Global,
    left: &'a str,
    is_ill: bool,
    is_short: bool,
}

impl<'a> Words<'a> {
    /// The words of a line, with one blank between two.
    pub fn of(alloc: Global, line: &'a str) -> Self {
        Words {
            alloc,
            left: line,
            is_ill: false,
            is_short: false,
        }
    }

    /// What the lists that are read take their memory from.
    pub fn alloc(&self) -> Global {
        self.alloc
    }

    /// Why the words that were taken are nothing, if so.
    pub fn fault(&self) -> Option<Fault> {
        if self.is_ill {
            Some(Fault::Ill)
        } else if self.is_short {
            Some(Fault::OutOfMemory)
        } else {
            None
        }
    }

    /// The words are nothing that can be played.
    pub fn mark_ill(&mut self) {
        self.is_ill = true;
    }

    /// Keeps whether memory was wanting.
    pub fn note(&mut self, done: Result<(), AllocError>) {
        self.is_short |= done.is_err();
    }

    /// The next word, or an empty one where the line has ended.
    pub fn word(&mut self) -> &'a str {
        let (word, left) = self.left.split_once(' ').unwrap_or((self.left, ""));
        self.left = left;
        word
    }

    /// The number that a word stands for.
    pub fn number_of(&mut self, word: &str) -> u64 {
        let number = word.parse::<u64>();
        self.is_ill |= number.is_err();
        number.unwrap_or(0)
    }

    /// The number of 32 bits that a word stands for.
    pub fn small_of(&mut self, word: &str) -> u32 {
        let number = word.parse::<u32>();
        self.is_ill |= number.is_err();
        number.unwrap_or(0)
    }

    /// The next number.
    pub fn number(&mut self) -> u64 {
        let word = self.word();
        self.number_of(word)
    }

    /// The next number, which has 32 bits.
    pub fn small(&mut self) -> u32 {
        let word = self.word();
        self.small_of(word)
    }

    /// The next number, and the one behind a slash in its word: how often a key's worker may leave, where that is bounded.
    pub fn bounded(&mut self) -> (u32, Option<u32>) {
        let word = self.word();
        match word.split_once('/') {
            Some((number, most)) => (self.small_of(number), Some(self.small_of(most))),
            None => (self.small_of(word), None),
        }
    }

    /// The next truth value.
    pub fn truth(&mut self) -> bool {
        let word = self.word();
        let is_true = word == "true";
        self.is_ill |= !is_true && word != "false";
        is_true
    }

    /// The next one who asks for blocks.
    pub fn asker(&mut self) -> Asker {
        let word = self.word();
        match word.strip_prefix('c') {
            Some(number) => Asker::Client(self.small_of(number)),
            None => Asker::Worker(self.small_of(word.strip_prefix('w').unwrap_or(""))),
        }
    }

    /// The keys that a word stands for.
    pub fn keys_of(&mut self, word: &str) -> KeyList {
        let mut list = KeyList::new(self.alloc);
        if word != "-" {
            for key in word.split(',') {
                let key = self.small_of(key);
                self.note(list.push(key));
            }
        }
        list
    }

    /// The next list of keys.
    pub fn keys(&mut self) -> KeyList {
        let word = self.word();
        self.keys_of(word)
    }

    fn holder_of(&mut self, word: &str) -> (u32, u64) {
        let (worker, copy) = word.split_once('@').unwrap_or((word, ""));
        (self.small_of(worker), self.number_of(copy))
    }

    fn holders_of(&mut self, word: &str) -> Holders {
        let mut list = Holders::new(self.alloc);
        if word != "-" {
            for pair in word.split('+') {
                let holder = self.holder_of(pair);
                self.note(list.push(holder));
            }
        }
        list
    }

    /// The next list of holders.
    pub fn holders(&mut self) -> Holders {
        let word = self.word();
        self.holders_of(word)
    }

    /// The next list of keys with their holders.
    pub fn who_has(&mut self) -> WhoHas {
        let mut list = WhoHas::new(self.alloc);
        let word = self.word();
        if word != "-" {
            for row in word.split(',') {
                let (key, pairs) = row.split_once('=').unwrap_or((row, ""));
                let held = (self.small_of(key), self.holders_of(pairs));
                self.note(list.push(held));
            }
        }
        list
    }
}
