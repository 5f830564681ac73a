//! Tasks, which are run outside the turns.
ghost use Rattle.std.specs.Prelude.{◌≡◌, map, Some, IfOk, IfErr};
ghost use Rattle.cluster_msgs.specs.Jobs.{Rose, IfValue};
ghost use Rattle.cluster_msgs.specs.Labels.{BlockFits, ErrorFits};
ghost use Rattle.cluster_msgs.specs.declared.jobs.Outcome.TheVariants as kind;
ghost use Rattle.cluster_msgs.specs.declared.jobs.RunFail.TheVariants as fail;
ghost use Rattle.node_links.specs.Fits.{ParcelFits};

use crate::label::{Fed, RunLabel, RunName};
use cluster_msgs::{JobSpec, KeyList, Label, Outcome, RunFail};
use io_edge::{Gate, Point};
use node_links::Keyed;
use node_states::{BlockStore, Fault, Finished, Task};
use std::alloc::{AllocError, Global};
use std::marker::PhantomData;
use std::sync::Arc;

/// What the drivers of a run go by: the job, who is told of each task, and the keys that the client wants.
#[derive(Drop)]
pub struct Running<'a, J: JobSpec, G: Gate, K: RunName<J>> {
    pub alloc: Global,
    pub job: &'a J,
    gate: &'a G,
    pub wanted: &'a KeyList,
    of: PhantomData<K>,
    ghost named: { K.job ≡ Some job.now },
}

/// What a worker lends, to be done outside of its turns: a task, or a block with its key, of which its store needs something prepared.
#[derive(Drop)]
pub enum Lent<B: Drop, L: Label<Block = B>, F: Drop> {
    Runs { worker: u32, task: Task<B, L, F> },
    Prepares { key: u32, block: Arc<B> },
}

/// What came of that: what a task made, and its feed, or what was prepared.
#[derive(Drop)]
pub enum Returned<B: Drop, L: Label<Block = B>, F: Drop, Y: Drop> {
    Ran {
        made: Result<Finished<B, L>, RunFail>,
        feed: F,
    },
    Prepared(Y),
}

impl<'a, J: JobSpec, G: Gate, K: RunName<J>> Running<'a, J, G, K> {
    /// What the drivers of a run of this job go by.
    pub fn new(alloc: Global, job: &'a J, gate: &'a G, wanted: &'a KeyList) -> Self
        requires { K.job ≡ Some job.now }
    {
        Running {
            alloc,
            job,
            gate,
            wanted,
            of: PhantomData,
        }
    }
}

/// How tasks are run and told of, whatever the threads are that run them.
pub trait Operates<B: Drop, L: Label<Block = B>, F> {
    ghost use Rattle.std.specs.Prelude.{◌≡◌, ℕ, IfOk, IfErr};
    ghost use Rattle.cluster_msgs.specs.Jobs.{Rose, IfValue};
    ghost use Rattle.cluster_msgs.specs.Labels.{BlockFits, ErrorFits};
    ghost use Rattle.cluster_msgs.specs.declared.jobs.Outcome.TheVariants as kind;
    ghost use Rattle.cluster_msgs.specs.declared.jobs.RunFail.TheVariants as fail;
    ghost use Rattle.node_links.specs.Fits.{ParcelFits};

    /// How often a call of the feed has failed.
    ghost faults: { F → ℕ };

    /// Tells of a task.
    fn tell(&self, point: Point);

    /// Runs a key's operation on the blocks of its dependencies. What it makes fits the label: a block is the key's value where the run is told.
    ///
    /// # Errors
    /// `Feed` only where the feed's count of faults rose in this call, and `OutOfMemory` where no memory is left.
    fn operate(&self, feed: &mut F, key: u32, inputs: &[Arc<B>]) -> Result<Outcome<B>, RunFail>
        requires { ParcelFits L.facts (L.facts.deps key) inputs.now }
        ensures value { IfOk result (λ o. IfValue o (BlockFits L.facts key)) }
        ensures zero { IfOk result (λ o. o ≡ kind.Zero → ErrorFits L.facts key) }
        ensures failed { IfErr result (λ e. e ≡ fail.Feed → Rose (faults feed.old) (faults feed.new)) };
}

impl<'a, J: JobSpec, G: Gate, K: RunName<J>> Operates<J::Block, RunLabel<J, K>, Fed<J, K>>
    for Running<'a, J, G, K> {
    ghost faults = { J.fault_count };

    fn tell(&self, point: Point) {
        self.gate.at(point);
    }

    #[tactic(auto, using(crate::proofs::Feeds::fits_named, crate::proofs::Feeds::still_fits))]
    fn operate(
        &self,
        feed: &mut Fed<J, K>,
        key: u32,
        inputs: &[Arc<J::Block>],
    ) -> Result<Outcome<J::Block>, RunFail> {
        let graph = self.job.shape();
        graph.sound();
        if key >= graph.keys() {
            return Err(RunFail::OutOfMemory);
        }
        self.job.run(&mut feed.feed, key, inputs)
    }
}

/// Does what a worker lends.
pub fn run_lent<B, L, F, T, S>(
    alloc: Global,
    operates: &T,
    lent: Lent<B, L, F>,
) -> Returned<B, L, F, S::Ready>
where
    B: Drop,
    L: Label<Block = B>,
    F: Drop,
    T: Operates<B, L, F>,
    S: BlockStore<B, L>,
{
    match lent {
        Lent::Runs { worker, task } => {
            let (made, feed) = run_told(alloc, operates, worker, task);
            Returned::Ran { made, feed }
        }
        Lent::Prepares { key, block } => Returned::Prepared(S::prepare(alloc, key, block)),
    }
}

/// Runs a task, and tells of it before and after.
fn run_told<B: Drop, L: Label<Block = B>, F: Drop, T: Operates<B, L, F>>(
    alloc: Global,
    operates: &T,
    worker: u32,
    task: Task<B, L, F>,
) -> (Result<Finished<B, L>, RunFail>, F) {
    let Task { key, inputs, feed } = task;
    let mut feed = feed;
    operates.tell(Point::Started { worker, key });
    let made = run_task(alloc, operates, key, inputs, &mut feed);
    operates.tell(Point::Ended { worker, key });
    (made, feed)
}

/// Runs a key's operation on the blocks of its dependencies. What it makes fits the label of the run: a block is the key's value where the feeds tell
/// what they hold.
///
/// # Errors
/// `Feed` only where the feed's count of faults rose in this call, and `OutOfMemory` where no memory is left.
fn run_task<B: Drop, L: Label<Block = B>, F, T: Operates<B, L, F>>(
    alloc: Global,
    operates: &T,
    key: u32,
    inputs: Vec<Keyed<B, L>>,
    feed: &mut F,
) -> Result<Finished<B, L>, RunFail>
    requires inputs { map (λ k. k.key) inputs.items ≡ L.facts.deps key }
    ensures failed { IfErr result (λ e. e ≡ fail.Feed → Rose (T.faults feed.old) (T.faults feed.new)) }
{
    let blocks = shared(alloc, inputs)?;
    let outcome = operates.operate(feed, key, blocks.as_slice())?;
    finished(alloc, key, outcome)
}

/// What a task made, as it goes to its worker.
fn finished<B: Drop, L: Label<Block = B>>(
    alloc: Global,
    key: u32,
    outcome: Outcome<B>,
) -> Result<Finished<B, L>, RunFail>
    requires value { IfValue outcome (BlockFits L.facts key) }
    requires zero { outcome ≡ kind.Zero → ErrorFits L.facts key }
    ensures { IfErr result (λ e. e ≡ fail.OutOfMemory) }
{
    match outcome {
        Outcome::Value(block) => {
            let block = Arc::new(alloc, block)?;
            Ok(Finished::Value(Keyed::new(key, block)))
        }
        Outcome::Zero => Ok(Finished::Zero(Fault::new(key))),
    }
}

/// The blocks without their keys.
#[tactic(auto, using(crate::proofs::TaskLaw::fits_more, node_links::proofs::Parcels::no_parcel))]
fn shared<B: Drop, L: Label<Block = B>>(
    alloc: Global,
    inputs: Vec<Keyed<B, L>>,
) -> Result<Vec<Arc<B>>, AllocError>
    ensures { IfOk result (λ blocks. ParcelFits L.facts (map (λ k. k.key) inputs.items) blocks.items) }
{
    let mut blocks = Vec::with_capacity(alloc, inputs.len())?;
    for keyed in inputs {
        blocks.push(keyed.into_block())?;
    }
    Ok(blocks)
}
