//! The questions that the policies ask of the scheduler's facts.
ghost use Rattle.std.specs.Prelude.{◌≡◌, ◌<◌, true};
ghost use Rattle.std.specs.Option.{option_map};
ghost use Rattle.cluster_rules.specs.Sched.{Facts as SchedFacts, IsSound, keys, need, held, erred, holds, connected, threads_of, tasks, occupancy, bytes_held, holder_count, waiters, is_stealing, full};

/// Answers about the scheduler's facts, each as it is derived from them. No question takes memory.
///
/// For contracts it names the facts, `facts`. They are over one shape, `(facts x).setting.shape`.
pub trait Facts {
    ghost facts: { Self → SchedFacts };

    /// The bounds that hold of all facts: at most 64 connected workers, each with 1 to 16 threads and a number from 1
    /// to `last_worker`; every worker that holds a key or was given one is connected; keys are in range.
    fn sound(&self)
        ensures { IsSound (facts self.now) };

    /// The number of keys.
    fn keys(&self) -> u32
        ensures { result ≡ keys (facts self.now) };

    /// Whether the key is needed.
    fn needed(&self, key: u32) -> bool
        requires { key < keys (facts self.now) }
        ensures { result ≡ need (facts self.now) key };

    /// Whether some worker holds the key.
    fn held(&self, key: u32) -> bool
        requires { key < keys (facts self.now) }
        ensures { result ≡ held (facts self.now) key };

    /// Whether the key is erred.
    fn erred(&self, key: u32) -> bool
        requires { key < keys (facts self.now) }
        ensures { result ≡ erred (facts self.now) key };

    /// Whether the worker holds the key.
    fn holds(&self, worker: u32, key: u32) -> bool
        requires { key < keys (facts self.now) }
        ensures { result ≡ holds (facts self.now) worker key };

    /// The worker that the key was given to.
    fn on(&self, key: u32) -> Option<u32>
        requires { key < keys (facts self.now) }
        ensures { result ≡ option_map (λ p. p.0) ((facts self.now).on key) };

    /// The greatest number that a worker got.
    fn last_worker(&self) -> u32
        ensures { result ≡ (facts self.now).last_worker };

    /// Whether the worker is connected.
    fn connected(&self, worker: u32) -> bool
        ensures { result ≡ connected (facts self.now) worker };

    /// The worker's threads.
    fn threads(&self, worker: u32) -> u32
        requires { connected (facts self.now) worker ≡ true }
        ensures { result ≡ threads_of (facts self.now) worker };

    /// How many keys are on the worker.
    fn tasks(&self, worker: u32) -> u32
        ensures { result ≡ tasks (facts self.now) worker };

    /// The work of all keys on the worker, in bytes.
    fn occupancy(&self, worker: u32) -> u64
        ensures { result ≡ occupancy (facts self.now) worker };

    /// The bytes of all keys that the worker holds.
    fn bytes_held(&self, worker: u32) -> u64
        ensures { result ≡ bytes_held (facts self.now) worker };

    /// How many workers hold the key.
    fn holders(&self, key: u32) -> u32
        requires { key < keys (facts self.now) }
        ensures { result ≡ holder_count (facts self.now) key };

    /// How many of the key's dependents are needed, not held and not erred.
    fn waiters(&self, key: u32) -> u32
        requires { key < keys (facts self.now) }
        ensures { result ≡ waiters (facts self.now) key };

    /// Whether the key is to be stolen, or was and its worker refused.
    fn asked_steal(&self, key: u32) -> bool
        requires { key < keys (facts self.now) }
        ensures { result ≡ is_stealing (facts self.now) key };

    /// Whether the worker was given as many tasks as the saturation allows for its threads.
    fn full(&self, worker: u32) -> bool
        requires { connected (facts self.now) worker ≡ true }
        ensures { result ≡ full (facts self.now) worker };
}
