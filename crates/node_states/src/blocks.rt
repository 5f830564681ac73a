//! A store that puts no block aside.
ghost use Rattle.std.specs.Prelude.{◌≡◌, IfOk, IfSome, is_some};
ghost use Rattle.node_states.specs.Stores.{KeepsNone, is_at, row_stock};

use crate::store::{BlockStore, Got};
use cluster_msgs::Label;
use node_links::Keyed;
use std::alloc::{AllocError, Global};
use std::sync::Arc;

/// The blocks of a worker in a row, each at the place of its key. It puts nothing aside, and loses nothing.
#[derive(Drop)]
pub struct Blocks<B: Drop, L: Label<Block = B>> {
    pub held: Vec<Option<Keyed<B, L>>>,
}

impl<B: Drop, L: Label<Block = B>> Blocks<B, L> {
    /// Room for a block of each of so many keys.
    ///
    /// # Errors
    /// Where there is no memory.
    #[tactic(auto, using(crate::proofs::RowLemmas::row_none, crate::proofs::RowLemmas::row_grows))]
    pub fn new(alloc: Global, keys: u32) -> Result<Self, AllocError>
        ensures { IfOk result (λ s. KeepsNone (row_stock (λ k. k.key) s.held.items)) }
    {
        let mut held = Vec::with_capacity(alloc, keys as usize)?;
        for _ in 0..keys {
            held.push(None)?;
        }
        Ok(Blocks { held })
    }

    #[tactic(auto, using(crate::proofs::RowLemmas::row_past))]
    fn find(&self, key: u32) -> Option<&Keyed<B, L>>
        ensures key { IfSome result (λ keyed. keyed.now.key ≡ key) }
        ensures kept { is_some result ≡ is_at (λ k. k.key) self.now.held.items key }
    {
        let at = key as usize;
        if at >= self.held.len() {
            return None;
        }
        match &self.held[at] {
            Some(keyed) => if keyed.key() == key {
                Some(keyed)
            } else {
                None
            },
            None => None,
        }
    }
}

impl<B: Drop, L: Label<Block = B>> BlockStore<B, L> for Blocks<B, L> {
    type Ready = ();

    ghost use Rattle.std.specs.Prelude.{All, IfSome, OnOk, OnErr};
    ghost use Rattle.std.specs.Arc.{arc_value};
    ghost use Rattle.cluster_msgs.specs.Labels.{BlockFits};
    ghost use Rattle.node_states.specs.Stores.{Puts, IsSame, row_stock};

    ghost stock = { λ s. row_stock (λ k. k.key) s.held.items };

    ghost fits = { λ f s. All (λ o. IfSome o (λ x. BlockFits f x.key (arc_value x.block))) s.held.items };

    #[tactic(auto, using(crate::proofs::RowLemmas::row_puts, crate::proofs::RowLemmas::row_same))]
    fn put(&mut self, key: u32, block: Arc<B>) -> Result<(), AllocError>
        requires { BlockFits L.facts key (arc_value block) }
        ensures ok { OnOk result (Puts key (row_stock (λ k. k.key) self.old.held.items) (row_stock (λ k. k.key) self.new.held.items)) }
        ensures err { OnErr result (IsSame (row_stock (λ k. k.key) self.old.held.items) (row_stock (λ k. k.key) self.new.held.items)) }
    {
        let at = key as usize;
        if at >= self.held.len() {
            return Err(AllocError);
        }
        self.held[at] = Some(Keyed::new(key, block));
        Ok(())
    }

    #[tactic(auto, using(crate::proofs::RowLemmas::row_finds, crate::proofs::RowLemmas::row_misses, crate::proofs::RowLemmas::row_same))]
    fn get(&mut self, key: u32) -> Result<Got<Arc<B>>, AllocError> {
        match self.find(key) {
            Some(keyed) => {
                let shared = keyed.share()?;
                Ok(Got::Here(shared.into_block()))
            }
            None => Ok(Got::Absent),
        }
    }

    #[tactic(auto, using(crate::proofs::RowLemmas::row_removes, crate::proofs::RowLemmas::row_keeps))]
    fn remove(&mut self, key: u32) {
        let at = key as usize;
        if at < self.held.len() {
            self.held[at] = None;
        }
    }

    fn spilled(&self, _key: u32) -> bool {
        false
    }

    fn spills(&self) -> u64 {
        0
    }

    #[tactic(auto, using(crate::proofs::RowLemmas::row_tells))]
    fn tell(&mut self) -> Option<u32> {
        None
    }

    fn comes_back(&self, _key: u32) -> bool {
        false
    }

    fn next_out(&mut self, _coming: u64) -> Option<(u32, Arc<B>)> {
        None
    }

    fn awaits(&self, _coming: u64) -> bool {
        false
    }

    fn has_room(&self, _coming: u64) -> bool {
        true
    }

    fn prepare(_alloc: Global, _key: u32, _block: Arc<B>) {}

    fn expect(&mut self, _ready: ()) {}

    #[tactic(auto, using(crate::proofs::RowLemmas::row_sound, crate::proofs::Kept::all_places))]
    fn sound(&self) {
        let _held = &self.held;
    }
}
