//! A store that puts blocks on a disk.
ghost use Rattle.std.specs.Prelude.{◌≡◌, IfErr, IfOk, IfSome};
ghost use Rattle.std.specs.Option.{option_map};
ghost use Rattle.node_states.specs.Stores.{KeepsNone};
ghost use Rattle.spill_store.specs.Shelves.{AreThere};
ghost use Rattle.spill_store.specs.Store.{away_in, empty_store};
ghost use Rattle.worker_store.specs.Keeping.{IsDiskFor, stock_of};

use cluster_msgs::Label;
use io_edge::SpillDisk;
use nd_shape::Block;
use node_states::{BlockStore, Got};
use spill_store::{Digested, Got as Found, SpillStore};
use std::alloc::{AllocError, Global};
use std::marker::{Model, PhantomData};
use std::sync::Arc;

/// The blocks of a worker, some of them on a disk. Each fits its key under the label, wherever it lies. Contracts see the store below it: the blocks in
/// memory, those that the disk alone has, and the disk.
///
/// A key's block counts as put aside from when the disk took it until the key is put anew, removed or lost, also where it came back in between.
#[derive(Drop)]
pub struct SpillingBlocks<D: SpillDisk, L: Label<Block = Block>> {
    store: SpillStore<D>,
    label: PhantomData<L>,
}

impl<D: SpillDisk, L: Label<Block = Block>> Model for SpillingBlocks<D, L> {
    ghost use Rattle.spill_store.specs.Store.{Kept};
    ghost use Rattle.worker_store.specs.Keeping.{IsStored};

    ghost Value = { Kept D };

    ghost view = { λ s. s.store };

    ghost invariant = { λ s. IsStored L.facts D.view s.store };
}

impl<D: SpillDisk, L: Label<Block = Block>> SpillingBlocks<D, L> {
    /// A store that keeps nothing. Its limit is in bytes, of the elements of the blocks in memory: while these have more than six tenths of it, the one
    /// that was used least recently goes to the disk. Without a disk none does.
    ///
    /// # Errors
    /// Where memory is wanting, the disk is handed back.
    #[tactic(auto, using(crate::proofs::Fitting::none_stored, crate::proofs::Stocks::none_kept))]
    pub fn new(alloc: Global, disk: Option<D>, limit: u64) -> Result<Self, (Option<D>, AllocError)>
        requires { IfSome disk (λ d. IsDiskFor L.facts (D.view d)) }
        ensures ok { IfOk result (λ s. s ≡ empty_store disk limit) }
        ensures none { IfOk result (λ s. KeepsNone (stock_of s)) }
        ensures err { IfErr result (λ e. e.0 ≡ disk) }
    {
        match SpillStore::new(alloc, disk, limit) {
            Ok(store) => Ok(SpillingBlocks {
                store,
                label: PhantomData,
            }),
            Err(error) => Err(error),
        }
    }

    /// Gives the disk back, which holds the blocks that weren't in memory. The blocks are dropped. No memory.
    pub fn into_disk(self) -> Option<D>
        ensures disk { result ≡ option_map (λ h. h.disk) self.shelf }
        ensures there { IfSome result (λ d. AreThere (D.view d) (away_in self.shelf)) }
    {
        let SpillingBlocks { store, label: _ } = self;
        store.into_disk()
    }
}

impl<D: SpillDisk, L: Label<Block = Block>> BlockStore<Block, L> for SpillingBlocks<D, L> {
    type Ready = Digested;

    ghost use Rattle.std.specs.Prelude.{OnErr, OnOk};
    ghost use Rattle.std.specs.Arc.{arc_value};
    ghost use Rattle.cluster_msgs.specs.Labels.{BlockFits};
    ghost use Rattle.node_states.specs.Stores.{IsSame, Puts};
    ghost use Rattle.worker_store.specs.Keeping.{MemoryFits, stock_of};

    ghost stock = { λ s. stock_of s };

    ghost fits = { λ f s. MemoryFits f s };

    #[tactic(auto, using(crate::proofs::Fitting::put_stored, crate::proofs::Stocks::stock_puts, crate::proofs::Stocks::stock_same))]
    fn put(&mut self, key: u32, block: Arc<Block>) -> Result<(), AllocError>
        requires { BlockFits L.facts key (arc_value block) }
        ensures ok { OnOk result (Puts key (stock_of self.old) (stock_of self.new)) }
        ensures err { OnErr result (IsSame (stock_of self.old) (stock_of self.new)) }
    {
        match self.store.put(key, block) {
            Ok(()) => Ok(()),
            Err(_) => Err(AllocError),
        }
    }

    fn get(&mut self, key: u32) -> Result<Got<Arc<Block>>, AllocError> {
        match self.store.get(key)? {
            Found::Found(block) => Ok(Got::Here(block)),
            Found::Absent => Ok(Got::Absent),
            Found::Lost(_) => Ok(Got::Lost),
        }
    }

    #[tactic(auto, using(crate::proofs::Fitting::removed_stored, crate::proofs::Stocks::stock_removes))]
    fn remove(&mut self, key: u32) {
        self.store.remove(key);
    }

    fn spilled(&self, key: u32) -> bool {
        self.store.spilled(key)
    }

    fn spills(&self) -> u64 {
        self.store.spills()
    }

    #[tactic(auto, using(crate::proofs::Stocks::stock_tells))]
    fn tell(&mut self) -> Option<u32> {
        self.store.tell()
    }

    fn comes_back(&self, key: u32) -> bool {
        self.store.is_away(key)
    }

    fn next_out(&mut self, coming: u64) -> Option<(u32, Arc<Block>)> {
        self.store.next_out(coming)
    }

    fn awaits(&self, coming: u64) -> bool {
        self.store.awaits(coming)
    }

    fn has_room(&self, coming: u64) -> bool {
        self.store.has_room(coming)
    }

    fn prepare(alloc: Global, key: u32, block: Arc<Block>) -> Digested {
        Digested::new(alloc, key, block)
    }

    fn expect(&mut self, ready: Digested) {
        self.store.expect(ready);
    }

    #[tactic(auto, using(crate::proofs::Fitting::memory_fits, crate::proofs::Stocks::stock_sound))]
    fn sound(&self) {
        let _store = &self.store;
    }
}
