//! What a state must tell to be kept in a cell.
ghost use Rattle.std.specs.Prelude.{◌≡◌, List, Bool, length};

use cluster_msgs::Label;

/// A state with its stored entries.
pub trait Kept {
    type Block;

    type Core;

    ghost use Rattle.std.specs.Prelude.{List, Bool};
    ghost use Rattle.cluster_msgs.specs.declared.events.Entry.{Entry};
    ghost use Rattle.cluster_msgs.specs.Labels.{LabelFacts};

    /// The stored entries, in the order in which they were made.
    ghost entries: { Self → List Entry };

    /// The core, which the entries lead to.
    ghost core: { Self → Self.Core };

    /// Whether an entry was left out for want of room. From then on the core isn't the replay of what is stored.
    ghost cut: { Self → Bool };

    /// What one entry makes of a core.
    ghost steps: { Self.Core → Entry → Self.Core → Type 0 };

    /// Whether all blocks and faults that the state holds fit what a label says of the run.
    ghost fits: { LabelFacts Self.Block → Self → Type 0 };

    /// The number of stored entries.
    fn count(&self) -> u64
        ensures { result ≡ length (entries self.now) };
}

/// What a turn does with a state: one entry and one step of its core, or neither, or past the limit of the history one step at most.
pub trait Act<S: Kept, L: Label<Block = S::Block>> {
    type Out;

    ghost use Rattle.turn_cell.specs.Turns.{Went};

    fn act(self, state: &mut S) -> Self::Out
        requires fits { S.fits L.facts state.old }
        ensures fits { S.fits L.facts state.new }
        ensures went { Went S.entries S.core S.cut S.steps state.old state.new };
}
