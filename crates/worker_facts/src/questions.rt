//! The questions about a worker's facts: the state of a key, and how much goes into one ask. None takes memory.
ghost use Rattle.std.specs.Prelude.{◌≡◌, ◌-◌, ◌<◌, ◌^◌, cond, min};
ghost use Rattle.cluster_msgs.specs.Shape.{key_count};
ghost use Rattle.cluster_rules.specs.Worker.{wstate, is_ready_state, is_fetch_state, is_missing_state, is_unstarted_state, is_wanted, used, pairs};
ghost use Rattle.worker_facts.specs.Stored.{facts_of, uses_key, is_lacking};

use crate::table::WorkerTable;
use cluster_msgs::WState;

impl WorkerTable {
    /// The state of a key. It is `Forgotten` where there is no such key.
    pub fn state(&self, key: u32) -> WState
        ensures { result ≡ wstate (facts_of self.now) key }
    {
        let given = self.mine(key).is_some();
        if self.in_memory(key) {
            return WState::Memory;
        }
        if self.is_running(key) {
            return state_of_run(given, self.is_wanted(key));
        }
        if self.is_flying(key) {
            return state_in_flight(given, self.is_wanted(key));
        }
        if given {
            return state_of_task(self.is_fed(key));
        }
        if self.is_wanted(key) {
            return state_of_wanted(self.has_holder(key));
        }
        if self.has_failed(key) {
            return WState::Error;
        }
        if self.is_used(key) {
            return WState::Released;
        }
        WState::Forgotten
    }

    /// Whether the worker has use for the block, and hasn't got it.
    pub fn is_wanted(&self, key: u32) -> bool
        ensures { result ≡ is_wanted (facts_of self.now) key }
    {
        !self.in_memory(key) & (self.is_sought(key) | self.is_awaited(key))
    }

    /// Whether a task of the worker depends on the key.
    pub fn is_used(&self, key: u32) -> bool
        ensures { result ≡ used (facts_of self.now) key }
    {
        for task in 0..self.keys() {
            if self.uses(task, key) {
                return true;
            }
        }
        false
    }

    /// Whether the first is a task of the worker that depends on the second.
    fn uses(&self, task: u32, key: u32) -> bool
        requires { task < key_count (facts_of self.now).shape }
        ensures { result ≡ uses_key (facts_of self.now) key task }
    {
        self.mine(task).is_some() & self.deps(task).contains(&key)
    }

    /// Whether the key is a task that could start.
    pub fn is_ready(&self, key: u32) -> bool
        ensures { result ≡ is_ready_state (wstate (facts_of self.now) key) }
    {
        self.is_unstarted(key) && self.is_fed(key)
    }

    /// Whether the key is a task that can still be given up.
    pub fn is_unstarted(&self, key: u32) -> bool
        ensures { result ≡ is_unstarted_state (wstate (facts_of self.now) key) }
    {
        let idle = !self.in_memory(key) & !self.is_running(key) & !self.is_flying(key);
        idle & self.mine(key).is_some()
    }

    /// Whether the key is wanted and not on its way, and no task of the worker.
    fn is_lacking(&self, key: u32) -> bool
        ensures { result ≡ is_lacking (facts_of self.now) key }
    {
        let idle = !self.in_memory(key) & !self.is_running(key) & !self.is_flying(key);
        idle & self.mine(key).is_none() & self.is_wanted(key)
    }

    /// Whether the key is to be fetched from one who holds it.
    pub fn is_fetch(&self, key: u32) -> bool
        ensures { result ≡ is_fetch_state (wstate (facts_of self.now) key) }
    {
        self.is_lacking(key) & self.has_holder(key)
    }

    /// Whether the key is wanted, and nobody is known to hold it.
    pub fn is_missing(&self, key: u32) -> bool
        ensures { result ≡ is_missing_state (wstate (facts_of self.now) key) }
    {
        self.is_lacking(key) & !self.has_holder(key)
    }

    /// How many pairs the lists of holders have together, or 2^64 - 1 where it is more.
    pub fn pairs(&self) -> u64
        ensures { result ≡ min (pairs (facts_of self.now)) (2 ^ 64 - 1) }
    {
        let mut total: u64 = 0;
        for key in 0..self.keys() {
            total = total.saturating_add(self.holders(key).len() as u64);
        }
        total
    }
}

/// The state of a key that runs.
fn state_of_run(given: bool, wanted: bool) -> WState
    ensures { result ≡ cond given WState.Executing (cond wanted WState.ResumedExecuting WState.CancelledExecuting) }
{
    if given {
        WState::Executing
    } else if wanted {
        WState::ResumedExecuting
    } else {
        WState::CancelledExecuting
    }
}

/// The state of a key that is asked for.
fn state_in_flight(given: bool, wanted: bool) -> WState
    ensures { result ≡ cond given WState.ResumedFlight (cond wanted WState.Flight WState.CancelledFlight) }
{
    if given {
        WState::ResumedFlight
    } else if wanted {
        WState::Flight
    } else {
        WState::CancelledFlight
    }
}

/// The state of a task that hasn't started.
fn state_of_task(fed: bool) -> WState
    ensures { result ≡ cond fed WState.Ready WState.Waiting }
{
    if fed { WState::Ready } else { WState::Waiting }
}

/// The state of a key that is wanted, and not on its way.
fn state_of_wanted(held: bool) -> WState
    ensures { result ≡ cond held WState.Fetch WState.Missing }
{
    if held { WState::Fetch } else { WState::Missing }
}
