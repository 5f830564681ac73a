//! The evaluation of a job's keys in order.
ghost use Rattle.std.specs.Prelude.{◌≡◌, ◌<◌, ◌↔◌, ℕ, ℤ, List, IfOk, IsTrue};
ghost use Rattle.cluster_msgs.specs.Shape.{key_count, deps_of};
ghost use Rattle.cluster_msgs.specs.Values.{val};
ghost use Rattle.graph_run.specs.Evaluations.{HaveValues, IfMade, CountsStep, value_of_step, next_after};
ghost use Rattle.graph_run.specs.Uses.{IsUsedFrom};

use crate::running::run_key;
use crate::slots::{empty, keep};
use crate::traced::TracedJob;
use crate::uses::last_uses;
use cluster_msgs::RunFail;
use std::alloc::{AllocError, Global};
use std::marker::Model;
use std::sync::Arc;

/// What the next key gave: its block, or nothing, since its operation met a zero divisor.
#[derive(Drop)]
pub enum Step<B> {
    Made(Arc<B>),
    Zero,
}

/// A job whose keys are run in ascending order, with what it reads, and the blocks that later keys use. Contracts see the job,
/// the feed and the key that comes next.
#[derive(Drop)]
pub struct Evaluation<J: TracedJob> {
    alloc: Global,
    next: u32,
    last: Vec<u32>,
    slots: Vec<Option<Arc<J::Block>>>,
    job: J,
    feed: J::Feed,
}

impl<J: TracedJob> Model for Evaluation<J> {
    ghost use Rattle.graph_run.specs.Evaluations.{Evaluation};

    ghost Value = { Evaluation J J.Feed };

    ghost view = { λ e. record { job = e.job; feed = e.feed; next = e.next } };

    ghost use Rattle.graph_run.specs.Kept.{IsEvaluation, IsTraced};

    ghost invariant = { λ e. IsEvaluation J.graph J.key_dims J.block_dims J.operation J.feed_fits J.feed_tells e.job e.feed e.next e.last.items e.slots.items
        × IsTraced J.graph J.agrees J.has J.made_of e.job e.feed e.next e.slots.items };
}

impl<J: TracedJob> Evaluation<J> {
    /// The evaluation of a job before its first key.
    ///
    /// # Errors
    /// Where no memory is left.
    pub fn new(alloc: Global, job: J, feed: J::Feed) -> Result<Evaluation<J>, AllocError>
        requires feed { J.feed_fits job feed }
        ensures { IfOk result (λ e. e ≡ record { job = job; feed = feed; next = 0 }) }
    {
        let graph = job.shape();
        let last = last_uses(alloc, graph)?;
        let slots = empty(alloc, graph.keys())?;
        Ok(Evaluation {
            alloc,
            next: 0,
            last,
            slots,
            job,
            feed,
        })
    }

    /// The job. No memory.
    pub fn job(&self) -> &J
        ensures { result.now ≡ self.now.job }
    {
        &self.job
    }

    /// The key that comes next, or the number of keys at the end. No memory.
    pub fn next(&self) -> u32
        ensures { result ≡ self.now.next }
    {
        self.next
    }

    /// Runs the next key. After a zero divisor or an error it is still the next one.
    ///
    /// # Errors
    /// `Feed` only where the feed's count of faults rose in this call, and `OutOfMemory` where no memory is left.
    pub fn step(&mut self) -> Result<Step<J::Block>, RunFail>
        requires { self.old.next < key_count (J.graph self.old.job) }
        ensures job { self.new.job ≡ self.old.job }
        ensures next { self.new.next ≡ next_after result self.old.next }
        ensures tells { J.feed_tells self.new.job self.new.feed ↔ J.feed_tells self.old.job self.old.feed }
        ensures before { J.feed_tells self.old.job self.old.feed →
            HaveValues (deps_of (J.graph self.old.job)) (J.operation self.old.job) self.old.next }
        ensures value { IfOk result (λ s. J.feed_tells self.old.job self.old.feed →
            value_of_step s ≡ val (deps_of (J.graph self.old.job)) (J.operation self.old.job) self.old.next) }
        ensures agreed { (holds : List ℕ → List ℕ) → J.agrees self.new.feed holds → J.agrees self.old.feed holds }
        ensures same { (holds : List ℕ → List ℕ) (named : ℕ → List ℕ → ℤ) →
            J.has self.new.job self.new.feed holds named ↔ J.has self.old.job self.old.feed holds named }
        ensures given_before { (holds : List ℕ → List ℕ) (named : ℕ → List ℕ → ℤ) → J.agrees self.old.feed holds
            → J.has self.old.job self.old.feed holds named
            → HaveValues (deps_of (J.graph self.old.job)) (J.made_of self.old.job named) self.old.next }
        ensures given { IfOk result (λ s. (holds : List ℕ → List ℕ) (named : ℕ → List ℕ → ℤ) → J.agrees self.new.feed holds
            → J.has self.old.job self.old.feed holds named
            → value_of_step s ≡ val (deps_of (J.graph self.old.job)) (J.made_of self.old.job named) self.old.next) }
        ensures dims { IfOk result (λ s. IfMade s (λ b. J.block_dims b ≡ J.key_dims self.old.job self.old.next)) }
        ensures faults { CountsStep result (J.fault_count self.old.feed) (J.fault_count self.new.feed) }
    {
        let graph = self.job.shape();
        graph.sound();
        let slots = self.slots.as_slice();
        let step = run_key(self.alloc, &self.job, &mut self.feed, slots, self.next)?;
        if let Step::Made(block) = &step {
            let slots = self.slots.as_mut_slice();
            keep(slots, self.last.as_slice(), graph, self.next, block)?;
            self.next += 1;
        }
        Ok(step)
    }

    /// Whether a key's block is held: that of a key that was run, which some key uses that wasn't. No memory.
    pub fn holds(&self, key: u32) -> bool
        requires { key < key_count (J.graph self.now.job) }
        ensures { IsTrue result ↔ ((key < self.now.next) × IsUsedFrom (deps_of (J.graph self.now.job)) self.now.next key) }
    {
        self.slots[key as usize].is_some()
    }

    /// All keys before the next one have values, where the feed tells what it holds, and over whatever files hold that gave what it
    /// read. It does nothing.
    pub fn sound(&self)
        ensures given { (holds : List ℕ → List ℕ) (named : ℕ → List ℕ → ℤ) → J.agrees self.now.feed holds
            → J.has self.now.job self.now.feed holds named
            → HaveValues (deps_of (J.graph self.now.job)) (J.made_of self.now.job named) self.now.next }
        ensures told { J.feed_tells self.now.job self.now.feed →
            HaveValues (deps_of (J.graph self.now.job)) (J.operation self.now.job) self.now.next }
    {
        let _next = self.next;
    }

    /// Gives the feed back. No memory.
    pub fn into_feed(self) -> J::Feed
        ensures { result ≡ self.feed }
    {
        self.feed
    }
}
