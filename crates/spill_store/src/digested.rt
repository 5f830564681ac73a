//! Digests that are made outside of a store.
ghost use Rattle.std.specs.Prelude.{◌≡◌, IfSome};

use crate::spilled::Spilled;
use nd_shape::Block;
use std::alloc::Global;
use std::marker::Model;
use std::sync::Arc;

/// A block, and what is kept of it once the disk alone has it. Contracts see the block.
#[derive(Drop)]
pub(crate) struct Known {
    pub spilled: Spilled,
    pub block: Arc<Block>,
}

impl Model for Known {
    ghost use Rattle.std.specs.Prelude.{◌≡◌};
    ghost use Rattle.nd_shape.specs.Block.{Array};

    ghost Value = { Array };

    ghost view = { λ k. k.block.value };

    ghost invariant = { λ k. k.spilled ≡ k.block.value };
}

/// What is known of a block in memory beside the store: nothing yet, since it was given out to be digested; nothing, since no memory was there for that;
/// or what is to be kept of it once the disk alone has it.
#[derive(Drop)]
pub(crate) enum Ahead {
    Given,
    Missing,
    Known(Known),
}

/// The digest of the bytes of a block, for the store that keeps the block under this key, or none where memory was wanting. Contracts see the key and
/// the block.
#[derive(Drop)]
pub struct Digested {
    key: u32,
    known: Option<Known>,
}

impl Model for Digested {
    ghost use Rattle.std.specs.Prelude.{ℕ, Option};
    ghost use Rattle.nd_shape.specs.Block.{Array};

    ghost Value = { ℕ × Option Array };

    ghost view = { λ d. (d.key, d.known) };
}

impl Digested {
    /// Computes the digest of a block's bytes, if there is memory for that.
    pub fn new(alloc: Global, key: u32, block: Arc<Block>) -> Digested
        ensures key { result.0 ≡ key }
        ensures block { IfSome result.1 (λ a. a ≡ block.value) }
    {
        match Spilled::of(alloc, &block) {
            Ok(spilled) => Digested {
                key,
                known: Some(Known { spilled, block }),
            },
            Err(_) => Digested { key, known: None },
        }
    }

    /// Its key. No memory.
    pub(crate) fn key(&self) -> u32
        ensures { result ≡ self.now.0 }
    {
        self.key
    }

    /// What is known of the block. No memory.
    pub(crate) fn into_ahead(self) -> Ahead {
        let Digested { key: _, known } = self;
        match known {
            Some(known) => Ahead::Known(known),
            None => Ahead::Missing,
        }
    }
}
