//! A disk, and the blocks that it has taken and that are nowhere else.
ghost use Rattle.std.specs.Prelude.{◌≡◌, ◌≤◌, ◌↔◌, nat_eq, [], is_some, IfErr, IfOk, IfSome, None, Some, IsTrue, false};
ghost use Rattle.std.specs.Map.{lookup};
ghost use Rattle.io_edge.specs.Disk.{HoldsAt, KeepsOthers};
ghost use Rattle.spill_store.specs.Blocks.{block_bytes};
ghost use Rattle.spill_store.specs.Shelves.{AreThere, ComesBack, Fetches, TakesBlock, Turns};
ghost use Rattle.spill_store.specs.Table.{ChangesAt};

use crate::block_bytes::words_of;
use crate::digested::{Ahead, Digested, Known};
use crate::disk::Disk;
use crate::lost::LostBy;
use crate::spilled::{Spilled, block_of};
use crate::table::Table;
use nd_shape::Block;
use std::alloc::{AllocError, Global};
use std::marker::Model;
use std::sync::Arc;

/// So many faults of a disk end its use, and so many blocks that it gave back otherwise than they were.
const FAULTS: u64 = 8;

/// What came of putting a block on the disk: it is there; the disk failed; or no memory was there, or the disk isn't trusted any more.
#[derive(Clone, Copy)]
pub(crate) enum Taken {
    Yes,
    Refused,
    OutOfMemory,
}

/// How far the digest of a block in memory is: nothing was done; it was given out; or all is done for it.
#[derive(Clone, Copy, PartialEq, Eq)]
pub(crate) enum Stage {
    Open,
    Given,
    Settled,
}

/// What the disk has under a key.
#[derive(Drop)]
pub(crate) enum Fetched {
    Found(Block),
    Absent,
    Lost(LostBy),
}

/// A disk, what is kept of the blocks that are there alone, and of those that are in memory again and there still, so that
/// they need not be written once more; what is known of blocks in memory that aren't there and were given out to be
/// digested; and how many blocks it gave back otherwise than they were.
#[derive(Drop)]
pub(crate) struct Shelf<D: Disk> {
    disk: D,
    blocks: Table<Spilled>,
    twice: Table<Known>,
    ready: Table<Ahead>,
    spoiled: u64,
}

impl<D: Disk> Model for Shelf<D> {
    ghost use Rattle.spill_store.specs.Shelves.{AreThere, Shelved};

    ghost Value = { Shelved D };

    ghost view = { λ s. record { disk = s.disk; away = s.blocks } };

    ghost invariant = { λ s. AreThere (D.view s.disk) s.blocks × AreThere (D.view s.disk) s.twice };
}

impl<D: Disk> Shelf<D> {
    /// A disk of which nothing is known. Where memory is wanting, it is handed back.
    #[tactic(auto, using(crate::proofs::Shelving::nothing_in))]
    pub(crate) fn new(alloc: Global, disk: D) -> Result<Self, (D, AllocError)>
        ensures ok { IfOk result (λ s. s ≡ record { disk = disk; away = [] }) }
        ensures err { IfErr result (λ e. e.0 ≡ disk) }
    {
        let Ok(blocks) = Table::new(alloc) else {
            return Err((disk, AllocError));
        };
        let Ok(twice) = Table::new(alloc) else {
            return Err((disk, AllocError));
        };
        let Ok(ready) = Table::new(alloc) else {
            return Err((disk, AllocError));
        };
        Ok(Shelf {
            disk,
            blocks,
            twice,
            ready,
            spoiled: 0,
        })
    }

    /// Gives the disk back. No memory.
    pub(crate) fn into_disk(self) -> D
        ensures disk { result ≡ self.disk }
        ensures there { AreThere (D.view result) self.away }
    {
        let Shelf {
            disk,
            blocks: _,
            twice: _,
            ready: _,
            spoiled: _,
        } = self;
        disk
    }

    /// Whether the block of this key is on the disk alone. No memory.
    pub(crate) fn has(&self, key: u32) -> bool
        ensures { result ≡ is_some (lookup (nat_eq key) self.now.away) }
    {
        self.blocks.get(key).is_some()
    }

    /// Whether the disk has failed so often that it is used no more. No memory.
    pub(crate) fn is_worn(&self) -> bool
        ensures { IsTrue result ↔ (8 ≤ (D.view self.now.disk).faults) }
    {
        self.disk.faults() >= FAULTS
    }

    // Whether it gave back so many blocks otherwise than they were that nothing more is put there: each is made again, and would be lost again.
    fn is_distrusted(&self) -> bool {
        self.spoiled >= FAULTS
    }

    /// How far the digest of the block of this key is, which is in memory. Nothing is left to do where the disk is used no more. No memory.
    pub(crate) fn stage(&self, key: u32) -> Stage {
        if self.is_worn() || self.is_distrusted() || self.twice.get(key).is_some() {
            return Stage::Settled;
        }
        match self.ready.get(key) {
            Some(Ahead::Given) => Stage::Given,
            Some(_) => Stage::Settled,
            None => Stage::Open,
        }
    }

    /// The block of this key is given out to be digested, if there is memory to note that.
    pub(crate) fn give(&mut self, key: u32) -> bool
        ensures { self.new ≡ self.old }
    {
        self.ready.put(key, Ahead::Given).is_ok()
    }

    /// What came of that is known from now on, where the block was given out and has neither gone since nor been let go. No memory.
    pub(crate) fn expect(&mut self, ready: Digested)
        ensures { self.new ≡ self.old }
    {
        let key = ready.key();
        self.ready.replace(key, ready.into_ahead());
    }

    /// Puts a block on the disk, unless it is there still. What is known of it stays as it is where it doesn't go, so that it isn't digested once more.
    pub(crate) fn take(&mut self, alloc: Global, key: u32, block: &Block) -> Taken
        ensures turns { Turns (D.view self.old.disk) (D.view self.new.disk) }
        ensures taken { TakesBlock D.view key block.now self.old self.new result }
    {
        if self.is_distrusted() {
            return Taken::OutOfMemory;
        }
        let Some(twice) = self.twice.get(key) else {
            return self.take_anew(alloc, key, block);
        };
        match known_as(alloc, twice, block) {
            Ok(Some(spilled)) => self.take_again(key, spilled),
            Ok(None) => self.take_anew(alloc, key, block),
            Err(_) => Taken::OutOfMemory,
        }
    }

    // The disk, which has a block still, alone has it from now on.
    fn take_again(&mut self, key: u32, spilled: Spilled) -> Taken
        requires there { HoldsAt (D.view self.old.disk) key (block_bytes spilled) }
        ensures turns { Turns (D.view self.old.disk) (D.view self.new.disk) }
        ensures taken { TakesBlock D.view key spilled self.old self.new result }
    {
        if self.blocks.put(key, spilled).is_err() {
            return Taken::OutOfMemory;
        }
        self.twice.remove(key);
        self.ready.remove(key);
        Taken::Yes
    }

    // Writes a block on the disk, in place of what that has under the key.
    fn take_anew(&mut self, alloc: Global, key: u32, block: &Block) -> Taken
        ensures turns { Turns (D.view self.old.disk) (D.view self.new.disk) }
        ensures taken { TakesBlock D.view key block.now self.old self.new result }
    {
        let Ok(known) = known_of(&self.ready, alloc, key, block) else {
            return Taken::OutOfMemory;
        };
        self.twice.remove(key);
        let taken = put_anew(&mut self.disk, &mut self.blocks, alloc, key, block, known);
        if let Taken::Yes = taken {
            self.ready.remove(key);
        }
        taken
    }

    /// Reads a block from the disk. It stays there.
    pub(crate) fn fetch(&mut self, alloc: Global, key: u32) -> Result<Fetched, AllocError>
        ensures same { self.new.away ≡ self.old.away }
        ensures turns { Turns (D.view self.old.disk) (D.view self.new.disk) }
        ensures fetched { IfOk result (Fetches D.view key self.old self.new) }
    {
        let Some(spilled) = self.blocks.get(key) else {
            return Ok(Fetched::Absent);
        };
        let shape = spilled.shape().copy(alloc)?;
        let mut bytes = vec![in alloc; 0u8; spilled.size()]?;
        let Ok(has) = self.disk.get(key, bytes.as_mut_slice()) else {
            return Ok(Fetched::Lost(LostBy::Fault));
        };
        if let Some(by) = spilled.differs(has, bytes.as_slice()) {
            self.spoiled = self.spoiled.saturating_add(1);
            return Ok(Fetched::Lost(by));
        }
        let block = block_of(alloc, shape, bytes.as_slice())?;
        Ok(Fetched::Found(block))
    }

    /// The block of a key is in memory again: this one. That the disk has it still is known from now on, where there is memory
    /// for it.
    pub(crate) fn bring_back(&mut self, key: u32, block: Arc<Block>)
        requires comes { IfSome (lookup (nat_eq key) self.old.away) (λ a. ComesBack (D.view self.old.disk) a block.value) }
        ensures disk { self.new.disk ≡ self.old.disk }
        ensures gone { ChangesAt key None self.old.away self.new.away }
    {
        if let Some(spilled) = self.blocks.remove(key) {
            let spilled = spilled.renewed(&block);
            let _ = self.twice.put(key, Known { spilled, block });
        }
    }

    /// Keeps nothing of the block of a key any more, and deletes it on the disk, where that is asked for and goes well. No
    /// memory.
    pub(crate) fn forget(&mut self, key: u32, on_disk: bool)
        ensures turns { Turns (D.view self.old.disk) (D.view self.new.disk) }
        ensures gone { ChangesAt key None self.old.away self.new.away }
    {
        self.blocks.remove(key);
        self.twice.remove(key);
        self.ready.remove(key);
        if on_disk {
            let _ = self.disk.delete(key);
        }
    }
}

// Whether two blocks have the same lengths.
fn has_shape(left: &Block, right: &Block) -> bool
    ensures { IsTrue result → right.now.shape ≡ left.now.shape }
{
    right.shape().dims() == left.shape().dims()
}

// Whether two blocks have the same elements.
fn has_cells(left: &Block, right: &Block) -> bool
    ensures { IsTrue result → right.now.cells ≡ left.now.cells }
{
    right.cells() == left.cells()
}

// Whether two blocks are the same.
#[tactic(auto, using(crate::proofs::Shelving::equal_arrays))]
fn is_same(left: &Block, right: &Block) -> bool
    ensures { IsTrue result → right.now ≡ left.now }
{
    if !has_shape(left, right) {
        return false;
    }
    has_cells(left, right)
}

// What is to be kept of a block on the disk, where it is the one that is known.
fn known_as(alloc: Global, known: &Known, block: &Block) -> Result<Option<Spilled>, AllocError>
    ensures { IfOk result (λ found. IfSome found (λ s. (s ≡ block.now) × (known.now ≡ block.now))) }
{
    if !is_same(&known.block, block) {
        return Ok(None);
    }
    let spilled = known.spilled.again(alloc, block)?;
    Ok(Some(spilled))
}

// The same, where such a one is known of the key.
fn known_of(
    ready: &Table<Ahead>,
    alloc: Global,
    key: u32,
    block: &Block,
) -> Result<Option<Spilled>, AllocError>
    ensures { IfOk result (λ found. IfSome found (λ s. s ≡ block.now)) }
{
    match ready.get(key) {
        Some(Ahead::Known(known)) => known_as(alloc, known, block),
        _ => Ok(None),
    }
}

// Puts a block on a disk, of which these blocks are there.
fn put_anew<D: Disk>(
    disk: &mut D,
    blocks: &mut Table<Spilled>,
    alloc: Global,
    key: u32,
    block: &Block,
    known: Option<Spilled>,
) -> Taken
    requires known { IfSome known (λ s. s ≡ block.now) }
    requires there { AreThere (D.view disk.old) blocks.old }
    ensures there { AreThere (D.view disk.new) blocks.new }
    ensures tells { (D.view disk.new).tells ≡ (D.view disk.old).tells }
    ensures others { KeepsOthers key (D.view disk.old) (D.view disk.new) }
    ensures turns { Turns (D.view disk.old) (D.view disk.new) }
    ensures taken { TakesBlock D.view key block.now (record { disk = disk.old; away = blocks.old }) (record { disk = disk.new; away = blocks.new }) result }
{
    let Ok(words) = words_of(alloc, block.cells()) else {
        return Taken::OutOfMemory;
    };
    let bytes = words.as_slice().as_flattened();
    let Ok(spilled) = Spilled::known_or_new(alloc, known, block, bytes) else {
        return Taken::OutOfMemory;
    };
    match blocks.put(key, spilled) {
        Ok(()) => match disk.put(key, bytes) {
            Ok(()) => Taken::Yes,
            Err(_) => {
                blocks.remove(key);
                Taken::Refused
            }
        },
        Err(_) => Taken::OutOfMemory,
    }
}
