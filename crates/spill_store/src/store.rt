//! The store.
ghost use Rattle.std.specs.Prelude.{◌≡◌, ℕ, nat_eq, is_some, IfErr, IfOk, IfSome, IsTrue, OnErr, OnOk, None, false};
ghost use Rattle.std.specs.Map.{lookup};
ghost use Rattle.std.specs.Option.{option_map};
ghost use Rattle.nd_shape.specs.Block.{Array};
ghost use Rattle.spill_store.specs.Memory.{IsNextOut};
ghost use Rattle.spill_store.specs.Shelves.{AreThere};
ghost use Rattle.spill_store.specs.Store.{AllStay, CanSpill, IsSame, Gives, Puts, Removes, SameDisk, Tells, away_in, back, empty_store, fresh, is_spilled};
ghost use Rattle.spill_store.specs.Steps.{FetchesIn, Finds, IsBackIn, IsFound, SpillsOne, SpillsUntil};
ghost use Rattle.spill_store.specs.Table.{ChangesAt, put_first};

use crate::digested::Digested;
use crate::disk::Disk;
use crate::lost::Got;
use crate::memory::{Held, Memory};
use crate::rest::Rest;
use crate::shelf::{Fetched, Shelf, Stage, Taken};
use nd_shape::Block;
use std::alloc::{AllocError, Global};
use std::marker::Model;
use std::sync::Arc;

/// Blocks by key, some of them on a disk. Contracts see the blocks in memory in the order of use, those that the disk alone
/// has, the disk, and the keys of blocks that went there and that the store didn't tell of.
///
/// After each `put` and `get`, while the blocks in memory have more than six tenths of the limit and there is more than one
/// of them, the one that was used least recently is put on the disk. This ends where there is no disk, where it has failed
/// eight times or has given back eight blocks otherwise than they were, where it refuses the block, and where there is no
/// memory for what a block on the disk needs: the block stays in memory then.
#[derive(Drop)]
pub struct SpillStore<D: Disk> {
    alloc: Global,
    memory: Memory,
    shelf: Option<Shelf<D>>,
    limit: u64,
    times: u64,
    news: Vec<u32>,
}

impl<D: Disk> Model for SpillStore<D> {
    ghost use Rattle.spill_store.specs.Shelves.{AreThere};
    ghost use Rattle.spill_store.specs.Store.{Kept};

    ghost Value = { Kept D };

    ghost view = { λ s. record { memory = s.memory; shelf = s.shelf; limit = s.limit; times = s.times; news = s.news.items } };
}

impl<D: Disk> SpillStore<D> {
    /// A store that keeps nothing. Its limit is in bytes, of the elements of the blocks in memory. Without a disk nothing
    /// goes there.
    ///
    /// # Errors
    /// Where memory is wanting, the disk is handed back.
    pub fn new(
        alloc: Global,
        disk: Option<D>,
        limit: u64,
    ) -> Result<SpillStore<D>, (Option<D>, AllocError)>
        ensures ok { IfOk result (λ s. s ≡ empty_store disk limit) }
        ensures err { IfErr result (λ e. e.0 ≡ disk) }
    {
        let memory = match Memory::new(alloc) {
            Ok(memory) => memory,
            Err(error) => return Err((disk, error)),
        };
        let shelf = match disk {
            Some(disk) => match Shelf::new(alloc, disk) {
                Ok(shelf) => Some(shelf),
                Err((disk, error)) => return Err((Some(disk), error)),
            },
            None => None,
        };
        Ok(SpillStore {
            alloc,
            memory,
            shelf,
            limit,
            times: 0,
            news: Vec::new(alloc),
        })
    }

    /// Puts a block under a key, in place of the one that was there. The disk hasn't taken it yet.
    ///
    /// # Errors
    /// Where memory is wanting, the block is handed back, and all is as before.
    pub fn put(&mut self, key: u32, block: Arc<Block>) -> Result<(), (Arc<Block>, AllocError)>
        ensures limit { self.new.limit ≡ self.old.limit }
        ensures disk { SameDisk D.view self.old.shelf self.new.shelf }
        ensures ok { OnOk result (Puts D.view key block.value self.old self.new) }
        ensures err { OnErr result (self.new ≡ self.old) }
        ensures returned { IfErr result (λ e. e.0.value ≡ block.value) }
    {
        self.place(key, block)?;
        self.spill();
        Ok(())
    }

    /// The block of a key, which is the most recently used one from now on.
    ///
    /// # Errors
    /// Where memory is wanting, what is kept is as before.
    pub fn get(&mut self, key: u32) -> Result<Got, AllocError>
        ensures limit { self.new.limit ≡ self.old.limit }
        ensures disk { SameDisk D.view self.old.shelf self.new.shelf }
        ensures ok { IfOk result (Gives D.view key self.old self.new) }
        ensures err { OnErr result (IsSame self.old self.new) }
    {
        let got = self.find(key)?;
        self.spill();
        Ok(got)
    }

    /// Keeps nothing under a key any more. No memory.
    pub fn remove(&mut self, key: u32)
        ensures limit { self.new.limit ≡ self.old.limit }
        ensures disk { SameDisk D.view self.old.shelf self.new.shelf }
        ensures removes { Removes key self.old self.new }
    {
        let on_disk = self.spilled(key);
        self.forget(key, on_disk);
        self.memory.remove(key);
    }

    /// Whether the key is kept, and the disk has taken its block since it was put last. No memory.
    pub fn spilled(&self, key: u32) -> bool
        ensures { result ≡ is_spilled self.now key }
    {
        match self.memory.is_taken(key) {
            Some(taken) => taken,
            None => match &self.shelf {
                Some(shelf) => shelf.has(key),
                None => false,
            },
        }
    }

    /// Whether the disk alone has the block of a key, so that `get` brings it into memory. No memory.
    pub fn is_away(&self, key: u32) -> bool
        ensures { result ≡ is_some (lookup (nat_eq key) (away_in self.now.shelf)) }
    {
        match &self.shelf {
            Some(shelf) => shelf.has(key),
            None => false,
        }
    }

    /// A block that goes to the disk once so many more bytes come into memory, which both share from then on, so that its digest can be made outside of the
    /// store. It is given once while it is kept, and not where the disk has it. Those that go first are given first. There is none where memory is wanting.
    pub fn next_out(&mut self, coming: u64) -> Option<(u32, Arc<Block>)>
        ensures same { self.new ≡ self.old }
        ensures disk { IfSome result (λ _. CanSpill D.view self.old.shelf) }
        ensures next { IfSome result (λ e. IsNextOut self.old.limit coming self.old.memory e.0 e.1.value) }
    {
        let (key, block) = self.due(coming)?;
        if self.give(key) {
            Some((key, block))
        } else {
            None
        }
    }

    /// Whether such a block was given out, and its digest wasn't handed over yet (`expect`). No memory.
    pub fn awaits(&self, coming: u64) -> bool
        ensures { IsTrue result → (e : ℕ × Array) × IsNextOut self.now.limit coming self.now.memory e.0 e.1 }
    {
        match self.next_at(coming, Stage::Given) {
            Some(_) => true,
            None => false,
        }
    }

    /// Whether no digest need be made where so many more bytes come into memory: none is to be given out, and none is awaited. No memory.
    pub fn has_room(&self, coming: u64) -> bool
        ensures { result ≡ false → (e : ℕ × Array) × IsNextOut self.now.limit coming self.now.memory e.0 e.1 }
    {
        match self.next_at(coming, Stage::Open) {
            Some(_) => false,
            None => !self.awaits(coming),
        }
    }

    /// Takes the digest of a block that was given out, so that it need not be made in the call in which the block goes to the disk. It serves the block that
    /// is in memory under its key at that time, and only where that is the same one (they are held against each other when it goes). Where there is none,
    /// or no memory for it, it is made in that call.
    pub fn expect(&mut self, ready: Digested)
        ensures { self.new ≡ self.old }
    {
        if let Some(shelf) = &mut self.shelf {
            shelf.expect(ready);
        }
    }

    /// How often a block went to the disk, written or there still. It never falls, and stands still at its type's end. No memory.
    pub fn spills(&self) -> u64
        ensures { result ≡ self.now.times }
    {
        self.times
    }

    /// The key of a block that went to the disk, the last one that it didn't tell of since. It tells of each once, and a caller who asks until there is
    /// none has heard of all. No memory.
    pub fn tell(&mut self) -> Option<u32>
        ensures { Tells self.old self.new result }
    {
        self.news.pop()
    }

    /// Gives the disk back, which holds the blocks that weren't in memory. The blocks are dropped. No memory.
    pub fn into_disk(self) -> Option<D>
        ensures disk { result ≡ option_map (λ h. h.disk) self.shelf }
        ensures there { IfSome result (λ d. AreThere (D.view d) (away_in self.shelf)) }
    {
        let SpillStore {
            alloc: _,
            memory: _,
            shelf,
            limit: _,
            times: _,
            news: _,
        } = self;
        match shelf {
            Some(shelf) => Some(shelf.into_disk()),
            None => None,
        }
    }

    // The first block at this stage that goes once so many more bytes come into memory. No memory.
    fn next_at(&self, coming: u64, stage: Stage) -> Option<(u32, &Held)>
        ensures { IfSome result (λ e. IsNextOut self.now.limit coming self.now.memory e.0 e.1.now.array) }
    {
        let mut late = self.memory.late();
        for _ in 0..self.memory.len() {
            let (key, held, goes) = late.next(self.limit, coming)?;
            if !goes {
                return None;
            }
            if stage_of(&self.shelf, key) == stage {
                return Some((key, held));
            }
        }
        None
    }

    // The first such block of which nothing was done, which both share from then on.
    fn due(&self, coming: u64) -> Option<(u32, Arc<Block>)>
        ensures { IfSome result (λ e. IsNextOut self.now.limit coming self.now.memory e.0 e.1.value) }
    {
        let (key, held) = self.next_at(coming, Stage::Open)?;
        match held.share() {
            Ok(block) => Some((key, block)),
            Err(_) => None,
        }
    }

    // The block of a key is given out, if there is a disk that is used, and memory to note it.
    fn give(&mut self, key: u32) -> bool
        ensures same { self.new ≡ self.old }
        ensures disk { IsTrue result → CanSpill D.view self.old.shelf }
    {
        match &mut self.shelf {
            Some(shelf) => !shelf.is_worn() && shelf.give(key),
            None => false,
        }
    }

    // Keeps nothing of a block that the disk alone has, and deletes what it has under the key, if it has some.
    fn forget(&mut self, key: u32, on_disk: bool)
        ensures memory { self.new.memory ≡ self.old.memory }
        ensures limit { self.new.limit ≡ self.old.limit }
        ensures times { self.new.times ≡ self.old.times }
        ensures news { self.new.news ≡ self.old.news }
        ensures disk { SameDisk D.view self.old.shelf self.new.shelf }
        ensures gone { ChangesAt key None (away_in self.old.shelf) (away_in self.new.shelf) }
    {
        if let Some(shelf) = &mut self.shelf {
            shelf.forget(key, on_disk);
        }
    }

    // Puts a block under a key, in memory.
    fn place(&mut self, key: u32, block: Arc<Block>) -> Result<(), (Arc<Block>, AllocError)>
        ensures limit { self.new.limit ≡ self.old.limit }
        ensures times { self.new.times ≡ self.old.times }
        ensures news { self.new.news ≡ self.old.news }
        ensures disk { SameDisk D.view self.old.shelf self.new.shelf }
        ensures memory { OnOk result (self.new.memory ≡ put_first key (fresh block.value) self.old.memory) }
        ensures changes { OnOk result (ChangesAt key (Some (fresh block.value)) self.old.memory self.new.memory) }
        ensures away { OnOk result (ChangesAt key None (away_in self.old.shelf) (away_in self.new.shelf)) }
        ensures err { OnErr result (self.new ≡ self.old) }
        ensures returned { IfErr result (λ e. e.0.value ≡ block.value) }
    {
        let on_disk = self.spilled(key);
        match self.memory.put(key, block, false) {
            Ok(()) => {
                self.forget(key, on_disk);
                Ok(())
            }
            Err(block) => Err((block, AllocError)),
        }
    }

    // Looks a block up. One that the disk alone had is in memory from now on, or lost.
    fn find(&mut self, key: u32) -> Result<Got, AllocError>
        ensures limit { self.new.limit ≡ self.old.limit }
        ensures times { self.new.times ≡ self.old.times }
        ensures news { self.new.news ≡ self.old.news }
        ensures disk { SameDisk D.view self.old.shelf self.new.shelf }
        ensures ok { IfOk result (Finds D.view key self.old self.new) }
        ensures err { OnErr result (IsSame self.old self.new) }
    {
        if let Some(block) = self.memory.read(key)? {
            return Ok(Got::Found(block));
        }
        match self.fetch(key)? {
            Fetched::Absent => Ok(Got::Absent),
            Fetched::Lost(by) => {
                self.forget(key, true);
                Ok(Got::Lost(by))
            }
            Fetched::Found(block) => self.bring_back(key, block),
        }
    }

    // What the disk has under a key.
    fn fetch(&mut self, key: u32) -> Result<Fetched, AllocError>
        ensures limit { self.new.limit ≡ self.old.limit }
        ensures times { self.new.times ≡ self.old.times }
        ensures news { self.new.news ≡ self.old.news }
        ensures same { IsSame self.old self.new }
        ensures disk { SameDisk D.view self.old.shelf self.new.shelf }
        ensures ok { IfOk result (FetchesIn D.view key self.old.shelf self.new.shelf) }
    {
        match &mut self.shelf {
            Some(shelf) => shelf.fetch(self.alloc, key),
            None => Ok(Fetched::Absent),
        }
    }

    // The block of a key, which is in memory again, counts no more as one that the disk alone has.
    fn settle(&mut self, key: u32, block: &Arc<Block>)
        requires comes { IsBackIn D.view key self.old.shelf block.now.value }
        ensures memory { self.new.memory ≡ self.old.memory }
        ensures limit { self.new.limit ≡ self.old.limit }
        ensures times { self.new.times ≡ self.old.times }
        ensures news { self.new.news ≡ self.old.news }
        ensures disk { SameDisk D.view self.old.shelf self.new.shelf }
        ensures gone { ChangesAt key None (away_in self.old.shelf) (away_in self.new.shelf) }
    {
        let Ok(block) = Arc::try_clone(block) else {
            return self.forget(key, false);
        };
        if let Some(shelf) = &mut self.shelf {
            shelf.bring_back(key, block);
        }
    }

    // Puts a block that came from the disk in memory.
    fn bring_back(&mut self, key: u32, block: Block) -> Result<Got, AllocError>
        requires comes { IsBackIn D.view key self.old.shelf block }
        ensures limit { self.new.limit ≡ self.old.limit }
        ensures times { self.new.times ≡ self.old.times }
        ensures news { self.new.news ≡ self.old.news }
        ensures disk { SameDisk D.view self.old.shelf self.new.shelf }
        ensures found { IfOk result (IsFound block) }
        ensures memory { OnOk result (self.new.memory ≡ put_first key (back block) self.old.memory) }
        ensures changes { OnOk result (ChangesAt key (Some (back block)) self.old.memory self.new.memory) }
        ensures away { OnOk result (ChangesAt key None (away_in self.old.shelf) (away_in self.new.shelf)) }
        ensures err { OnErr result (self.new ≡ self.old) }
    {
        let block = Arc::new(self.alloc, block)?;
        let kept = Arc::try_clone(&block)?;
        match self.memory.put(key, kept, true) {
            Ok(()) => {
                self.settle(key, &block);
                Ok(Got::Found(block))
            }
            Err(_) => Err(AllocError),
        }
    }

    // Puts blocks on the disk that were used least recently, while memory is crowded.
    fn spill(&mut self) -> Rest
        ensures limit { self.new.limit ≡ self.old.limit }
        ensures disk { SameDisk D.view self.old.shelf self.new.shelf }
        ensures all { AllStay self.old self.new }
        ensures spills { SpillsUntil D.view self.old self.new result }
    {
        while self.memory.is_crowded(self.limit) {
            if let Some(rest) = self.spill_oldest() {
                return rest;
            }
        }
        Rest::Room
    }

    // Puts the block on the disk that was used least recently, or tells why not.
    fn spill_oldest(&mut self) -> Option<Rest>
        ensures limit { self.new.limit ≡ self.old.limit }
        ensures disk { SameDisk D.view self.old.shelf self.new.shelf }
        ensures all { AllStay self.old self.new }
        ensures step { SpillsOne D.view self.old self.new result }
    {
        let Some(shelf) = &mut self.shelf else {
            return Some(Rest::NoDisk);
        };
        if shelf.is_worn() {
            return Some(Rest::Worn);
        }
        let Some((key, block)) = self.memory.oldest() else {
            return Some(Rest::Room);
        };
        let Ok(()) = self.news.reserve(1) else {
            return Some(Rest::OutOfMemory);
        };
        match shelf.take(self.alloc, key, block) {
            Taken::Yes => {
                self.memory.remove(key);
                self.times = self.times.saturating_add(1);
                self.news.push_reserved(key);
                None
            }
            Taken::Refused => Some(Rest::Refused),
            Taken::OutOfMemory => Some(Rest::OutOfMemory),
        }
    }
}

// How far the digest of the block of a key is, which is in memory. No memory.
fn stage_of<D: Disk>(shelf: &Option<Shelf<D>>, key: u32) -> Stage {
    match shelf {
        Some(shelf) => shelf.stage(key),
        None => Stage::Settled,
    }
}
