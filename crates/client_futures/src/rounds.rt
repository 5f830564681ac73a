//! What futures over keys ask of a driver, and how they end.
ghost use Rattle.std.specs.Prelude.{◌≡◌, true, false, is_err, IfSome, IfNone, OnSome};
ghost use Rattle.std.specs.Arc.{arc_value};
ghost use Rattle.client_futures.specs.Seen.{Seen, Lends, LetsGo, NoneErred};

use cluster_msgs::End;
use std::alloc::AllocError;
use std::sync::Arc;

/// The run is over: by what the driver takes for that, it goes on no more.
#[derive(Clone, Copy)]
pub struct RunOver;

/// How a future over keys ends without its blocks.
#[derive(Clone, Copy)]
pub enum PollEnd {
    /// A key failed, the least of those that did, and which key is to blame.
    TaskErred { key: u32, blame: u32 },
    /// The run is over.
    Over,
}

/// Why there are no blocks of a client's keys.
#[derive(Clone, Copy)]
pub enum GatherEnd {
    /// The future ended without them.
    Ended(PollEnd),
    /// There was no memory for the future.
    Memory,
    /// The future couldn't be run. Its driver goes on by hand.
    Unrun,
}

impl From<AllocError> for GatherEnd {
    ghost use Rattle.std.specs.Prelude.{◌≡◌};
    ghost use Rattle.client_futures.specs.declared.rounds.GatherEnd.TheVariants.{Memory};

    ghost from_gives = { λ _ e. e ≡ Memory };

    fn from(_error: AllocError) -> GatherEnd {
        GatherEnd::Memory
    }
}

/// A driver at a client's node.
///
/// `seen` is what it saw at its last turn of that node: how each key ended, which block it lends for a key, and whether the run is over. `leads` tells
/// which states its calls may lead to.
pub trait Rounds {
    type Block: Drop;

    ghost seen: { Self → Seen Self.Block };

    ghost leads: { Self → Self → Type 0 };

    /// Serves each node once.
    ///
    /// # Errors
    /// Exactly where the run is over then. A run that is over stays so.
    fn round(&mut self) -> Result<(), RunOver>
        ensures over { (seen self.new).over ≡ is_err result }
        ensures stays { (seen self.old).over ≡ true → (seen self.new).over ≡ true }
        ensures leads { leads self.old self.new };

    /// How a key ended, as the client said at the driver's last turn of its node.
    fn end(&self, key: u32) -> Option<End>
        ensures { result ≡ (seen self.now).ends key };

    /// Whether a key may have failed: a quick look, after which not all keys need be looked at.
    fn may_err(&self) -> bool
        ensures { result ≡ false → NoneErred (seen self.now) }
    {
        true
    }

    /// Lends the block of a key that is got: `None` exactly where the key isn't got. A block that can be shared no more is let go, and its key isn't got
    /// from then on.
    fn take(&mut self, key: u32) -> Option<Arc<Self::Block>>
        ensures lent { IfSome result (λ block. Lends (seen self.old) key (arc_value block)) }
        ensures same { OnSome result (seen self.new ≡ seen self.old) }
        ensures none { IfNone result (LetsGo key (seen self.old) (seen self.new)) }
        ensures leads { leads self.old self.new };

    /// No call leads elsewhere.
    ghost here: { (s : Self) → leads s s };

    /// What calls lead to, further calls go on from.
    ghost on: { (s t u : Self) → leads s t → leads t u → leads s u };
}
