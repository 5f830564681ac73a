//! A driver that sees what words tell.

use client_futures::{Rounds, RunOver, Sight};
use cluster_msgs::End;
use std::alloc::{AllocError, Global};
use std::str::SplitWhitespace;
use std::sync::Arc;

/// How many keys there are.
const KEYS: u32 = 16;

/// Each round it sees what the next word tells; after the last word its run is over. The block of a key is ten times its number.
#[derive(Drop)]
pub struct Scripted<'a> {
    alloc: Global,
    words: SplitWhitespace<'a>,
    sight: Sight<u32>,
    driven: u32,
}

impl<'a> Scripted<'a> {
    pub fn new(alloc: Global, words: SplitWhitespace<'a>) -> Result<Scripted<'a>, AllocError> {
        let sight = Sight::new(alloc, KEYS)?;
        Ok(Scripted {
            alloc,
            words,
            sight,
            driven: 0,
        })
    }

    /// How many rounds were driven.
    pub fn driven(&self) -> u32 {
        self.driven
    }

    /// Hears the next word. Whether it says that the run is over, or none is left.
    fn hear(&mut self) -> bool {
        let Some(word) = self.words.next() else {
            return true;
        };
        let mut over = false;
        for part in word.split(',') {
            let ends = self.see(part);
            over = over | ends;
        }
        over
    }

    /// Sees one thing. Whether it is that the run is over.
    fn see(&mut self, part: &str) -> bool {
        if let Some((key, blame)) = part.split_once('!') {
            self.sight.note_erred(number(key), number(blame));
        } else if let Ok(key) = part.parse::<u32>() {
            self.get(key);
        }
        part == "over"
    }

    /// Gets the block of a key.
    fn get(&mut self, key: u32) {
        if let Ok(block) = Arc::new(self.alloc, key.wrapping_mul(10)) {
            self.sight.note_got(key, block);
        }
    }
}

fn number(text: &str) -> u32 {
    text.parse::<u32>().unwrap_or(0)
}

impl Rounds for Scripted<'_> {
    type Block = u32;

    ghost use Rattle.std.specs.Prelude.{◌≡◌, true};
    ghost use Rattle.client_futures.specs.Sights.{sight_seen};

    ghost seen = { λ s. sight_seen s.sight };

    ghost leads = { λ s t. (sight_seen s.sight).over ≡ true → (sight_seen t.sight).over ≡ true };

    ghost here = { λ s h. h };

    ghost on = { λ s t u f g h. g (f h) };

    fn round(&mut self) -> Result<(), RunOver> {
        let before = self.sight.is_over();
        self.driven = self.driven.wrapping_add(1);
        let now = self.hear();
        if before | now {
            self.sight.note_over();
        }
        if self.sight.is_over() {
            Err(RunOver)
        } else {
            Ok(())
        }
    }

    fn end(&self, key: u32) -> Option<End> {
        self.sight.end(key)
    }

    fn may_err(&self) -> bool {
        self.sight.may_err()
    }

    fn take(&mut self, key: u32) -> Option<Arc<u32>> {
        self.sight.take(key)
    }
}
