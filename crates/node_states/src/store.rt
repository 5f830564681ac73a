//! Where a worker keeps its blocks.
ghost use Rattle.std.specs.Prelude.{◌≡◌, IfOk, OnOk, OnErr};
ghost use Rattle.std.specs.Arc.{arc_value};
ghost use Rattle.cluster_msgs.specs.Labels.{BlockFits, LabelFacts};
ghost use Rattle.node_states.specs.Stores.{Stock, Puts, Gives, Removes, Tells, IsSame, IsStock, IfHere};

use cluster_msgs::Label;
use std::alloc::{AllocError, Global};
use std::sync::Arc;

/// What a look at a store gives.
#[derive(Drop)]
pub enum Got<T> {
    /// The block of the key.
    Here(T),
    /// The key isn't kept.
    Absent,
    /// The key was kept, and its block was put aside and is lost. The key isn't kept any more.
    Lost,
}

/// A store of the blocks of a worker, by key. It may put blocks aside, as on a disk, and lose such blocks. What it hands out fits its key under the
/// label, whatever came of it in between.
pub trait BlockStore<B: Drop, L: Label<Block = B>>: Drop {
    /// What is prepared of a block outside of the turns, so that the store doesn't do it in the turn in which it puts the block aside.
    type Ready: Drop;

    /// What it keeps.
    ghost stock: { Self → Stock };

    /// Whether what it holds in memory fits what a label says of the run.
    ghost fits: { LabelFacts B → Self → Type 0 };

    /// Keeps a block under its key from now on, in place of the one that was kept there. It may put blocks aside.
    ///
    /// # Errors
    /// Where there is no memory, or no room for the key. What it keeps is as before.
    fn put(&mut self, key: u32, block: Arc<B>) -> Result<(), AllocError>
        requires { BlockFits L.facts key (arc_value block) }
        ensures ok { OnOk result (Puts key (stock self.old) (stock self.new)) }
        ensures err { OnErr result (IsSame (stock self.old) (stock self.new)) };

    /// The block of a key, which both share from then on. It may put other blocks aside.
    ///
    /// # Errors
    /// Where there is no memory. What it keeps is as before.
    fn get(&mut self, key: u32) -> Result<Got<Arc<B>>, AllocError>
        ensures fits { IfOk result (λ got. IfHere got (λ block. BlockFits L.facts key (arc_value block))) }
        ensures ok { IfOk result (λ got. Gives key (stock self.old) (stock self.new) got) }
        ensures err { OnErr result (IsSame (stock self.old) (stock self.new)) };

    /// Keeps nothing under a key any more. It takes no memory.
    fn remove(&mut self, key: u32)
        ensures { Removes key (stock self.old) (stock self.new) };

    /// Whether the key is kept, and its block was put aside since it was put last. It takes no memory.
    fn spilled(&self, key: u32) -> bool
        ensures { result ≡ (stock self.now).aside key };

    /// How often blocks were put aside.
    fn spills(&self) -> u64;

    /// The key of a block that was put aside and that it didn't tell of since, if there is one. It tells of each once. It takes no memory.
    fn tell(&mut self) -> Option<u32>
        ensures { Tells (stock self.old) (stock self.new) result };

    /// Whether a look at the key's block is likely to bring it back into memory.
    fn comes_back(&self, key: u32) -> bool;

    /// A block, with its key, that is likely to be put aside once so many more bytes come into memory, so that what it takes can be prepared: both share it
    /// from then on. It is given once while it is kept. What the store keeps is as before.
    fn next_out(&mut self, coming: u64) -> Option<(u32, Arc<B>)>
        ensures { stock self.new ≡ stock self.old };

    /// Whether such a block was given, and what was prepared of it isn't there yet.
    fn awaits(&self, coming: u64) -> bool;

    /// Whether there is none such, given or not.
    fn has_room(&self, coming: u64) -> bool;

    /// What is prepared of a block that is kept under this key. It may be nothing.
    fn prepare(alloc: Global, key: u32, block: Arc<B>) -> Self::Ready;

    /// Takes what was prepared of a block. What it keeps is as before.
    fn expect(&mut self, ready: Self::Ready)
        ensures { stock self.new ≡ stock self.old };

    /// What it holds in memory fits the label, whatever calls were made. It does nothing.
    fn sound(&self)
        ensures fits { fits L.facts self.now }
        ensures stock { IsStock (stock self.now) };
}
