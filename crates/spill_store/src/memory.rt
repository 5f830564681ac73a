//! The blocks in memory, in the order of use.
ghost use Rattle.std.specs.Prelude.{◌≡◌, ◌≤◌, ◌<◌, ◌+◌, ◌*◌, ◌↔◌, ◌∷◌, ◌++◌, []};
ghost use Rattle.std.specs.Prelude.{nat_eq, option_map, unwrap_or, IfErr, IfOk, IfSome, OnErr, OnOk, MatchOption, IsTrue, None, Some};
ghost use Rattle.std.specs.Map.{lookup, remove_entry};
ghost use Rattle.spill_store.specs.Blocks.{size_of_block};
ghost use Rattle.spill_store.specs.Memory.{bytes_in, IsCrowded, IsOldest, UsesBlock};
ghost use Rattle.spill_store.specs.Table.{put_first, ChangesAt, SameValues};

use crate::table::{Late, Table};
use nd_shape::Block;
use std::alloc::{AllocError, Global};
use std::marker::Model;
use std::sync::Arc;

/// A block in memory, and whether the disk has taken it since it was put.
#[derive(Drop)]
pub(crate) struct Held {
    block: Arc<Block>,
    taken: bool,
}

impl Model for Held {
    ghost use Rattle.spill_store.specs.Memory.{InMemory};

    ghost Value = { InMemory };

    ghost view = { λ h. record { array = h.block.value; taken = h.taken } };
}

/// Blocks by key, the most recently used first, and the sum of their bytes.
#[derive(Drop)]
pub(crate) struct Memory {
    blocks: Table<Held>,
    bytes: u64,
}

impl Model for Memory {
    ghost use Rattle.std.specs.Prelude.{◌≡◌, ℕ, List};
    ghost use Rattle.spill_store.specs.Memory.{InMemory, bytes_in};

    ghost Value = { List (ℕ × InMemory) };

    ghost view = { λ m. m.blocks };

    ghost invariant = { λ m. m.bytes ≡ bytes_in m.blocks };
}

// How many bytes the elements of a block take.
fn size_of(block: &Block) -> u64
    ensures { result ≡ size_of_block block.now }
{
    let shape = block.shape();
    let _limits = shape.dims();
    8 * shape.elements()
}

impl Held {
    fn size(&self) -> u64
        ensures { result ≡ size_of_block self.now.array }
    {
        size_of(&self.block)
    }

    fn block(&self) -> &Block
        ensures { result.now ≡ self.now.array }
    {
        &self.block
    }

    fn is_taken(&self) -> bool
        ensures { result ≡ self.now.taken }
    {
        self.taken
    }

    pub(crate) fn share(&self) -> Result<Arc<Block>, AllocError>
        ensures { IfOk result (λ b. b.value ≡ self.now.array) }
    {
        Arc::try_clone(&self.block)
    }

    fn into_block(self) -> Arc<Block>
        ensures { result.value ≡ self.array }
    {
        let Held { block, taken: _ } = self;
        block
    }
}

// The bytes of the block of a key, or 0 where there is none.
fn size_at(blocks: &Table<Held>, key: u32) -> u64
    ensures size { result ≡ unwrap_or (option_map (λ h. size_of_block h.array) (lookup (nat_eq key) blocks.now)) 0 }
    ensures within { result ≤ bytes_in blocks.now }
{
    match blocks.get(key) {
        Some(held) => held.size(),
        None => 0,
    }
}

impl Memory {
    /// No blocks.
    pub(crate) fn new(alloc: Global) -> Result<Self, AllocError>
        ensures { IfOk result (λ m. m ≡ []) }
    {
        let blocks = Table::new(alloc)?;
        Ok(Memory { blocks, bytes: 0 })
    }

    /// Puts a block under a key, as the most recently used one, in place of the one that was there. Where memory is
    /// wanting, or the sum of the bytes doesn't fit its type, the block is handed back, and all is as before.
    pub(crate) fn put(&mut self, key: u32, block: Arc<Block>, taken: bool) -> Result<(), Arc<Block>>
        ensures ok { OnOk result (self.new ≡ put_first key (record { array = block.value; taken = taken }) self.old) }
        ensures changes { OnOk result (ChangesAt key (Some (record { array = block.value; taken = taken })) self.old self.new) }
        ensures err { OnErr result (self.new ≡ self.old) }
        ensures returned { IfErr result (λ b. b.value ≡ block.value) }
    {
        let left = self.bytes - size_at(&self.blocks, key);
        let Some(bytes) = left.checked_add(size_of(&block)) else {
            return Err(block);
        };
        match self.blocks.put(key, Held { block, taken }) {
            Ok(()) => {
                self.bytes = bytes;
                Ok(())
            }
            Err(held) => Err(held.into_block()),
        }
    }

    /// The block of a key, which is the most recently used one from now on. Where it can't be shared, all is as before.
    pub(crate) fn read(&mut self, key: u32) -> Result<Option<Arc<Block>>, AllocError>
        ensures read { IfOk result (λ found. MatchOption found ((lookup (nat_eq key) self.old ≡ None) × (self.new ≡ self.old)) (λ b. UsesBlock key b.value self.old self.new)) }
        ensures same { SameValues self.old self.new }
        ensures err { OnErr result (self.new ≡ self.old) }
    {
        let Some(held) = self.blocks.get(key) else {
            return Ok(None);
        };
        let block = held.share()?;
        self.blocks.use_key(key);
        Ok(Some(block))
    }

    /// Whether the disk has taken the block of a key since it was put. There is no answer where it isn't in memory. No
    /// memory.
    pub(crate) fn is_taken(&self, key: u32) -> Option<bool>
        ensures { result ≡ option_map (λ h. h.taken) (lookup (nat_eq key) self.now) }
    {
        match self.blocks.get(key) {
            Some(held) => Some(held.is_taken()),
            None => None,
        }
    }

    /// Drops the block of a key, if there is one. No memory.
    pub(crate) fn remove(&mut self, key: u32)
        ensures entries { self.new ≡ remove_entry (nat_eq key) self.old }
        ensures changes { ChangesAt key None self.old self.new }
    {
        self.bytes -= size_at(&self.blocks, key);
        self.blocks.remove(key);
    }

    /// The block that was used least recently, if there is one. No memory.
    pub(crate) fn oldest(&self) -> Option<(u32, &Block)>
        ensures { MatchOption result (self.now ≡ []) (λ e. IsOldest self.now e.0 e.1.now) }
    {
        match self.blocks.last() {
            Some((key, held)) => Some((key, held.block())),
            None => None,
        }
    }

    /// The blocks, to be taken from the one on that was used least recently. No memory.
    pub(crate) fn late(&self) -> LateBlocks<'_>
        ensures { result ≡ self.now }
    {
        LateBlocks {
            blocks: self.blocks.late(),
            bytes: self.bytes,
        }
    }

    /// How many blocks there are. No memory.
    pub(crate) fn len(&self) -> usize {
        self.blocks.len()
    }

    /// Whether the blocks have more than six tenths of so many bytes, and there is more than one. No memory.
    pub(crate) fn is_crowded(&self, limit: u64) -> bool
        ensures { IsTrue result ↔ IsCrowded limit self.now }
    {
        let much = 10 * self.bytes as u128 > 6 * limit as u128;
        let several = self.blocks.len() > 1;
        much & several
    }
}

/// Blocks that weren't taken yet of those in memory, and the sum of their bytes. Contracts see their list, the most recently used first.
#[derive(Drop)]
pub(crate) struct LateBlocks<'a> {
    blocks: Late<'a, Held>,
    bytes: u64,
}

impl<'a> Model for LateBlocks<'a> {
    ghost use Rattle.std.specs.Prelude.{◌≡◌, ℕ, List};
    ghost use Rattle.spill_store.specs.Memory.{InMemory, bytes_in};

    ghost Value = { List (ℕ × InMemory) };

    ghost view = { λ l. l.blocks };

    ghost invariant = { λ l. l.bytes ≡ bytes_in l.blocks };
}

impl<'a> LateBlocks<'a> {
    /// Takes the one of those that are left which was used least recently, if there is one, and tells whether they have more than six tenths of so many
    /// bytes with those that are to come. No memory.
    #[tactic(auto, using(crate::proofs::Memories::bytes_taken))]
    pub(crate) fn next(&mut self, limit: u64, coming: u64) -> Option<(u32, &'a Held, bool)>
        ensures took { IfSome result (λ e. self.old ≡ self.new ++ (e.0, e.1.now) ∷ []) }
        ensures goes { IfSome result (λ e. IsTrue e.2 → 6 * limit < 10 * (bytes_in self.new + size_of_block e.1.now.array + coming)) }
    {
        let (key, held) = self.blocks.next()?;
        let much = 10 * (self.bytes as u128 + coming as u128);
        self.bytes -= held.size();
        Some((key, held, much > 6 * limit as u128))
    }
}
