//! What a run is to be like.
ghost use Rattle.std.specs.Prelude.{◌≡◌, ◌<◌, ◌≤◌, ℕ, true, map, vec_len, Contains};
ghost use Rattle.cluster_msgs.specs.Scripts.{removes_of};
ghost use Rattle.node_runner.specs.Runs.{IsNamed, numbers, removals};

use cluster_msgs::{Item, Script};

/// The workers that join first, how many tasks each may run at once, how full a worker is at which no more root tasks go to it, in tenths of its
/// threads, how often a key's worker may leave while the key is assigned to it, where that is bounded, what the script makes happen, and how many
/// packets a link holds.
#[derive(Drop)]
pub struct RunPlan {
    pub workers: u32,
    pub threads: u32,
    pub saturation: u32,
    pub allowed: Option<u32>,
    pub script: Script,
    pub capacity: usize,
}

impl RunPlan {
    /// How many worker numbers the run may have: those of the plan, and one for each join of the script.
    #[tactic(auto, using(crate::proofs::Numbers::joins_next, crate::proofs::Numbers::joins_end))]
    pub fn numbers(&self) -> u32
        requires { numbers self.now ≤ 1024 }
        ensures { result ≡ numbers self.now }
    {
        let mut count = self.workers;
        for item in self.script.as_slice() {
            match item {
                Item::Join { at: _ } => count += 1,
                Item::Lose { w: _, at: _ } | Item::Suspect { w: _, at: _ } => {}
            }
        }
        count
    }

    /// Whether an item of the script names a worker.
    pub fn names(&self, worker: u32) -> bool
        ensures { result ≡ true → IsNamed self.now.script worker }
    {
        for item in self.script.as_slice() {
            if let Item::Lose { w, at: _ } | Item::Suspect { w, at: _ } = item {
                if *w == worker {
                    return true;
                }
            }
        }
        false
    }

    /// Whether the script takes workers away at least so often.
    #[tactic(auto, using(crate::proofs::Numbers::removals_next, crate::proofs::Numbers::removals_end))]
    pub fn removes(&self, often: u32) -> bool
        ensures { result ≡ true → often ≤ removals self.now }
    {
        let mut left = often;
        for item in self.script.as_slice() {
            left = left.saturating_sub(removes_of(item));
        }
        left == 0
    }

    /// Whether one of these numbers of feeds is less than a worker's threads.
    pub fn is_short<F>(&self, feeds: &[Vec<F>]) -> bool
        ensures { result ≡ true → (n : ℕ) × Contains (map (λ v. vec_len v) feeds.now) n × (n < self.now.threads) }
    {
        for own in feeds {
            if own.len() < self.threads as usize {
                return true;
            }
        }
        false
    }
}

/// How many workers an item takes away.
fn removes_of(item: &Item) -> u32
    ensures { result ≡ removes_of item.now }
{
    match item {
        Item::Lose { w: _, at: _ } | Item::Suspect { w: _, at: _ } => 1,
        Item::Join { at: _ } => 0,
    }
}
