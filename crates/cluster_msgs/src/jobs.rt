//! What a cluster runs.
ghost use Rattle.std.specs.Prelude.{◌≡◌, ◌↔◌, ◌<◌, ℕ, List, Option, map, IfOk};
ghost use Rattle.cluster_msgs.specs.Shape.{Shape, key_count, deps_of};

use crate::shape::GraphShape;
use std::alloc::{AllocError, AllocFailed};
use std::sync::Arc;
use thiserror::Error;

/// What a key's operation made: a block, or nothing, since it met a zero divisor.
#[derive(Drop)]
pub enum Outcome<B> {
    Value(B),
    Zero,
}

/// Why a key could not be run.
#[derive(Clone, Copy, Debug, Error)]
pub enum RunFail {
    #[error("the feed failed")]
    Feed,
    #[error("out of memory")]
    OutOfMemory,
}

impl From<AllocError> for RunFail {
    ghost use Rattle.std.specs.Prelude.{◌≡◌};
    ghost use Rattle.cluster_msgs.specs.declared.jobs.RunFail.TheVariants.{OutOfMemory};

    ghost from_gives = { λ _ e. e ≡ OutOfMemory };

    fn from(_error: AllocError) -> RunFail {
        RunFail::OutOfMemory
    }
}

impl<T: Drop> From<AllocFailed<T>> for RunFail {
    ghost use Rattle.std.specs.Prelude.{◌≡◌};
    ghost use Rattle.cluster_msgs.specs.declared.jobs.RunFail.TheVariants.{OutOfMemory};

    ghost from_gives = { λ _ e. e ≡ OutOfMemory };

    fn from(_error: AllocFailed<T>) -> RunFail {
        RunFail::OutOfMemory
    }
}

/// A graph of keys, each with an operation that makes its block of the blocks of its dependencies. A feed is what
/// operations read from outside. Jobs and blocks are shared by threads, and feeds move between them.
pub trait JobSpec: Send + Sync + Drop {
    type Block: Send + Sync + Drop;

    type Feed: Send + Sync + Drop;

    /// The graph.
    ghost graph: { Self → Shape };

    /// The length per axis of a key's block, and of any block.
    ghost key_dims: { Self → ℕ → List ℕ };

    ghost block_dims: { Self.Block → List ℕ };

    /// What a key's operation makes of the blocks of its dependencies: nothing where it meets a zero divisor. Where it
    /// reads from a feed, it goes by what the job names as its content.
    ghost operation: { Self → ℕ → List Self.Block → Option Self.Block };

    /// Which feeds fit the job, and which of them tell what they hold.
    ghost feed_fits: { Self → Self.Feed → Type 0 };

    ghost feed_tells: { Self → Self.Feed → Type 0 };

    /// How often a call of the feed has failed.
    ghost fault_count: { Self.Feed → ℕ };

    ghost use Rattle.cluster_msgs.specs.Jobs.{value_of, IfValue, blocks_of, CountsFault};

    /// The graph. It takes no memory.
    fn shape(&self) -> &GraphShape
        ensures { result.now ≡ graph self.now };

    /// The length per axis of a key's block. It takes no memory.
    fn dims(&self, key: u32) -> &[u64]
        requires { key < key_count (graph self.now) }
        ensures { result.now ≡ key_dims self.now key };

    /// How often a call of the feed has failed. It takes no memory.
    fn faults(&self, feed: &Self::Feed) -> u64
        ensures { result ≡ fault_count feed.now };

    /// Runs a key's operation on the blocks of its dependencies, in their order.
    ///
    /// # Errors
    /// `Feed` only where the feed's count of faults rose in this call, and `OutOfMemory` where no memory is left.
    fn run(
        &self,
        feed: &mut Self::Feed,
        key: u32,
        inputs: &[Arc<Self::Block>],
    ) -> Result<Outcome<Self::Block>, RunFail>
        requires key { key < key_count (graph self.now) }
        requires inputs { map block_dims (blocks_of inputs.now) ≡ map (key_dims self.now) (deps_of (graph self.now) key) }
        requires feed { feed_fits self.now feed.old }

        // Where the feed tells what it holds, the outcome is that of the operation.
        ensures value { IfOk result (λ o. feed_tells self.now feed.old → value_of o ≡ operation self.now key (blocks_of inputs.now)) }
        ensures dims { IfOk result (λ o. IfValue o (λ b. block_dims b ≡ key_dims self.now key)) }

        ensures fits { feed_fits self.now feed.new }
        ensures tells { feed_tells self.now feed.new ↔ feed_tells self.now feed.old }
        ensures faults { CountsFault result (fault_count feed.old) (fault_count feed.new) };
}
