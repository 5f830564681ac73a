//! Where the blocks go that the client gets.
ghost use Rattle.std.specs.Prelude.{◌≡◌, ℕ, Bool, true};
ghost use Rattle.std.specs.Arc.{arc_value};
ghost use Rattle.cluster_msgs.specs.Labels.{BlockFits};

use cluster_msgs::Label;
use std::sync::Arc;

/// Where the blocks of the wanted keys go, as they come to the client. It is lent to the thread that runs the cluster, and crosses to no other.
pub trait Sink<B: Drop, L: Label<Block = B>> {
    /// Of which keys a block was taken.
    ghost had: { Self → ℕ → Bool };

    /// What calls may make of it.
    ghost leads: { Self → Self → Type 0 };

    /// Takes a block, which fits its key. What fails in it is told by whoever made it.
    fn take(&mut self, key: u32, block: Arc<B>)
        requires { BlockFits L.facts key (arc_value block) }
        ensures taken { had self.new key ≡ true }
        ensures leads { leads self.old self.new };

    /// Whether a block of the key was taken.
    fn has(&self, key: u32) -> bool
        ensures { result ≡ had self.now key };

    /// Whether the run may end, since it can do nothing more with blocks.
    fn is_full(&self) -> bool;

    /// No call leads elsewhere.
    ghost here: { (s : Self) → leads s s };

    /// What calls lead to, further calls go on from.
    ghost on: { (s t u : Self) → leads s t → leads t u → leads s u };
}
