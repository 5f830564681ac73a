//! Jobs of whose feeds it is known what they gave.
use cluster_msgs::{JobSpec, Outcome, RunFail};
use std::sync::Arc;

/// A job that says what a key's operation made of whatever files hold that gave what the feed read, whether or not the feed tells
/// what it holds.
pub trait TracedJob: JobSpec {
    ghost use Rattle.std.specs.Prelude.{◌≡◌, ◌↔◌, ◌<◌, ℕ, ℤ, List, Option, map, IfOk};
    ghost use Rattle.cluster_msgs.specs.Jobs.{value_of, IfValue, blocks_of, CountsFault};
    ghost use Rattle.cluster_msgs.specs.Shape.{key_count, deps_of};

    /// Whether what files hold, by their names, agrees with all that the feed gave.
    ghost agrees: { Self.Feed → (List ℕ → List ℕ) → Type 0 };

    /// Whether the inputs have these elements, each by its input's number and its index, where the feed's files hold this.
    ghost has: { Self → Self.Feed → (List ℕ → List ℕ) → (ℕ → List ℕ → ℤ) → Type 0 };

    /// What a key's operation makes of the blocks of its dependencies, where the inputs have these elements.
    ghost made_of: { Self → (ℕ → List ℕ → ℤ) → ℕ → List Self.Block → Option Self.Block };

    /// Runs a key's operation as `run` does.
    ///
    /// # Errors
    /// As `run`.
    fn run_traced(
        &self,
        feed: &mut Self::Feed,
        key: u32,
        inputs: &[Arc<Self::Block>],
    ) -> Result<Outcome<Self::Block>, RunFail>
        requires key { key < key_count (Self.graph self.now) }
        requires inputs { map Self.block_dims (blocks_of inputs.now) ≡ map (Self.key_dims self.now) (deps_of (Self.graph self.now) key) }
        requires feed { Self.feed_fits self.now feed.old }
        ensures value { IfOk result (λ o. Self.feed_tells self.now feed.old → value_of o ≡ Self.operation self.now key (blocks_of inputs.now)) }
        ensures given { IfOk result (λ o. (holds : List ℕ → List ℕ) (named : ℕ → List ℕ → ℤ) → agrees feed.new holds
            → has self.now feed.old holds named → value_of o ≡ made_of self.now named key (blocks_of inputs.now)) }
        ensures dims { IfOk result (λ o. IfValue o (λ b. Self.block_dims b ≡ Self.key_dims self.now key)) }
        ensures fits { Self.feed_fits self.now feed.new }
        ensures tells { Self.feed_tells self.now feed.new ↔ Self.feed_tells self.now feed.old }
        ensures agreed { (holds : List ℕ → List ℕ) → agrees feed.new holds → agrees feed.old holds }
        ensures same { (holds : List ℕ → List ℕ) (named : ℕ → List ℕ → ℤ) →
            has self.now feed.new holds named ↔ has self.now feed.old holds named }
        ensures faults { CountsFault result (Self.fault_count feed.old) (Self.fault_count feed.new) };
}
