//! The feeds of a worker.
ghost use Rattle.std.specs.Prelude.{◌≡◌, ◌<◌, ◌+◌, ◌-◌, ◌∷◌, ◌++◌, [], IfErr, IfSome, OnOk, Some, None};

use std::alloc::Global;
use std::marker::Model;

/// The feeds of a worker that no task has, and places for those that are out.
#[derive(Drop)]
pub struct Feeds<F: Drop> {
    here: Vec<F>,
    out: usize,
}

impl<F: Drop> Model for Feeds<F> {
    ghost use Rattle.std.specs.Prelude.{◌+◌, ◌≤◌, vec_len};
    ghost use Rattle.std.specs.Vec.{vec_capacity};
    ghost use Rattle.node_states.specs.Workers.{FeedsHeld};

    ghost Value = { FeedsHeld F };

    ghost view = { λ f. record { here = f.here.items; out = f.out } };

    ghost invariant = { λ f. vec_len f.here + f.out ≤ vec_capacity f.here };
}

impl<F: Drop> Feeds<F> {
    /// No feeds.
    pub fn new(alloc: Global) -> Self
        ensures { (result.here ≡ []) × (result.out ≡ 0) }
    {
        Feeds {
            here: Vec::new(alloc),
            out: 0,
        }
    }

    /// Adds a feed with a place for it.
    ///
    /// # Errors
    /// The feed comes back where there is no memory, and all is as before.
    pub fn add(&mut self, feed: F) -> Result<(), F>
        ensures ok { OnOk result ((self.new.here ≡ self.old.here ++ feed ∷ []) × (self.new.out ≡ self.old.out)) }
        ensures err { IfErr result (λ back. (back ≡ feed) × (self.new ≡ self.old)) }
    {
        let Some(places) = self.out.checked_add(1) else {
            return Err(feed);
        };
        if self.here.reserve(places).is_err() {
            return Err(feed);
        }
        self.here.push_reserved(feed);
        Ok(())
    }

    /// A feed, if one is here.
    pub fn take(&mut self) -> Option<F>
        ensures some { IfSome result (λ feed. (self.old.here ≡ self.new.here ++ feed ∷ []) × (self.new.out ≡ self.old.out + 1)) }
        ensures none { result ≡ None → (self.old.here ≡ []) × (self.new ≡ self.old) }
    {
        let feed = self.here.pop()?;
        self.out += 1;
        Some(feed)
    }

    /// Puts a feed back that was out. It comes back where none was.
    pub fn put(&mut self, feed: F) -> Option<F>
        ensures out { 0 < self.old.out → (self.new.here ≡ self.old.here ++ feed ∷ []) × (self.new.out + 1 ≡ self.old.out) × (result ≡ None) }
        ensures none_out { self.old.out ≡ 0 → (result ≡ Some feed) × (self.new ≡ self.old) }
    {
        if self.out == 0 {
            return Some(feed);
        }
        self.out -= 1;
        self.here.push_reserved(feed);
        None
    }

    /// The feeds that are here.
    pub fn into_vec(self) -> Vec<F>
        ensures { result.items ≡ self.here }
    {
        let Feeds { here, out: _ } = self;
        here
    }
}
