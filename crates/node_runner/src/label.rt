//! What all links, nodes and tasks of a run have in common.
ghost use Rattle.std.specs.Prelude.{◌≡◌, ◌<◌, map, Some, IfOk, IsTrue};
ghost use Rattle.cluster_msgs.specs.Jobs.{blocks_of, value_of, CountsFault, IfValue};
ghost use Rattle.cluster_msgs.specs.Shape.{deps_of, key_count};
ghost use Rattle.node_runner.specs.Naming.{FitsRun};

use cluster_msgs::{JobSpec, Label, Outcome, RunFail};
use std::marker::{Brand, Model, PhantomData};
use std::sync::Arc;

/// What is said of one run: its job, whether its feeds tell what they hold, and how often a key's worker may leave while the key is assigned to it. It
/// has no bytes and no calls; the call that makes the run picks it, by `Brand`.
pub trait RunName<J: JobSpec> {
    ghost use Rattle.std.specs.Prelude.{ℕ, Bool, Option};

    ghost job: { Option J };

    ghost told: { Bool };

    ghost allowed: { Option ℕ };
}

impl<J: JobSpec> RunName<J> for Brand {
    ghost use Rattle.std.specs.Prelude.{None, false};

    ghost job = { None };

    ghost told = { false };

    ghost allowed = { None };
}

/// The label of a run.
pub struct RunLabel<J, K> {
    of: PhantomData<(J, K)>,
}

impl<J: JobSpec, K: RunName<J>> Label for RunLabel<J, K> {
    type Block = J::Block;

    ghost use Rattle.node_runner.specs.Naming.{run_facts};

    ghost facts = { run_facts J.graph J.operation J.key_dims J.block_dims K.told K.allowed K.job };
}

/// A feed that fits the job of the run and, where the run is told, tells what it holds. In a clause it is the feed.
#[derive(Drop)]
pub struct Fed<J: JobSpec, K: RunName<J>> {
    pub(crate) feed: J::Feed,
    of: PhantomData<K>,
}

impl<J: JobSpec, K: RunName<J>> Model for Fed<J, K> {
    ghost use Rattle.node_runner.specs.Naming.{FitsRun};

    ghost Value = { J.Feed };

    ghost view = { λ f. f.feed };

    ghost invariant = { λ f. FitsRun J.feed_fits J.feed_tells K.told K.job f.feed };
}

impl<J: JobSpec, K: RunName<J>> Fed<J, K> {
    /// A feed of the run's job.
    pub fn new(feed: J::Feed) -> Self
        requires { FitsRun J.feed_fits J.feed_tells K.told K.job feed }
        ensures { result ≡ feed }
    {
        Fed {
            feed,
            of: PhantomData,
        }
    }

    /// The feed.
    pub fn into_feed(self) -> J::Feed
        ensures same { result ≡ self }
        ensures fits { FitsRun J.feed_fits J.feed_tells K.told K.job result }
    {
        let Fed { feed, of: _ } = self;
        feed
    }

    /// How often a call of the feed has failed.
    pub fn faults(&self, job: &J) -> u64
        ensures { result ≡ J.fault_count self.now }
    {
        job.faults(&self.feed)
    }

    /// Runs a key's operation with this feed.
    ///
    /// # Errors
    /// `Feed` only where the feed's count of faults rose in this call, and `OutOfMemory` where no memory is left.
    #[tactic(auto, using(crate::proofs::Feeds::fits_named, crate::proofs::Feeds::still_fits))]
    pub fn run(
        &mut self,
        job: &J,
        key: u32,
        inputs: &[Arc<J::Block>],
    ) -> Result<Outcome<J::Block>, RunFail>
        requires named { K.job ≡ Some job.now }
        requires key { key < key_count (J.graph job.now) }
        requires inputs { map J.block_dims (blocks_of inputs.now) ≡ map (J.key_dims job.now) (deps_of (J.graph job.now) key) }
        ensures value { IfOk result (λ o. IsTrue K.told → value_of o ≡ J.operation job.now key (blocks_of inputs.now)) }
        ensures dims { IfOk result (λ o. IfValue o (λ b. J.block_dims b ≡ J.key_dims job.now key)) }
        ensures faults { CountsFault result (J.fault_count self.old) (J.fault_count self.new) }
    {
        job.run(&mut self.feed, key, inputs)
    }
}
