//! What is left of a text, with the way back to where the step began.
ghost use Rattle.std.specs.Prelude.{◌≡◌, ◌∷◌, ◌++◌, [], reverse, MatchOption, OnOk, OnErr, IfOk};

use crate::symbol::Symbol;
use std::alloc::{AllocError, Global};
use std::marker::Model;

/// The symbols that are left, and those that were left when the step began.
///
/// The symbols stand in reverse, so that the next one is the last. Of `base` the first `kept` are still left, and below the
/// symbols of `fresh`.
#[derive(Drop)]
pub(crate) struct Left {
    base: Vec<Symbol>,
    kept: usize,
    fresh: Vec<Symbol>,
}

impl Model for Left {
    ghost use Rattle.std.specs.Prelude.{◌≤◌, ◌++◌, length, reverse, take};
    ghost use Rattle.grammar.specs.Pending.{Pending};

    ghost Value = { Pending };

    ghost view = { λ l. record { left = reverse l.fresh.items ++ reverse (take l.kept l.base.items); base = reverse l.base.items } };

    ghost invariant = { λ l. l.kept ≤ length l.base.items };
}

impl Left {
    pub(crate) fn new(alloc: Global, symbol: Symbol) -> Result<Self, AllocError>
        ensures { IfOk result (λ l. l ≡ record { left = symbol ∷ []; base = symbol ∷ [] }) }
    {
        let mut base = Vec::new(alloc);
        base.push(symbol)?;
        Ok(Left {
            base,
            kept: 1,
            fresh: Vec::new(alloc),
        })
    }

    /// Takes the next symbol out.
    pub(crate) fn pop(&mut self) -> Option<Symbol>
        ensures first { MatchOption result ((self.old.left ≡ []) × (self.new.left ≡ [])) (λ x. self.old.left ≡ x ∷ self.new.left) }
        ensures base { self.new.base ≡ self.old.base }
    {
        if let Some(symbol) = self.fresh.pop() {
            return Some(symbol);
        }
        if self.kept == 0 {
            return None;
        }
        self.kept -= 1;
        Some(self.base[self.kept])
    }

    /// Puts a rule before what is left. Its last symbol comes first in the slice.
    pub(crate) fn put(&mut self, rule: &[Symbol]) -> Result<(), AllocError>
        ensures ok { OnOk result (self.new.left ≡ reverse rule.now ++ self.old.left) }
        ensures base { self.new.base ≡ self.old.base }
    {
        self.fresh.extend_from_slice(rule)
    }

    /// Goes back to where the step began.
    pub(crate) fn restore(&mut self)
        ensures left { self.new.left ≡ self.old.base }
        ensures base { self.new.base ≡ self.old.base }
    {
        self.fresh.clear();
        self.kept = self.base.len();
    }

    /// The next step begins here.
    pub(crate) fn commit(&mut self) -> Result<(), AllocError>
        ensures ok { OnOk result ((self.new.left ≡ self.old.left) × (self.new.base ≡ self.old.left)) }
        ensures err { OnErr result (self.new.base ≡ self.old.base) }
    {
        self.base.reserve(self.fresh.len())?;
        self.base.truncate(self.kept);
        self.base.extend_from_slice(self.fresh.as_slice())?;
        self.fresh.clear();
        self.kept = self.base.len();
        Ok(())
    }
}
