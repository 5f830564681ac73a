//! The workers that may take a task of another.
ghost use Rattle.std.specs.Prelude.{◌≡◌, ◌&&◌, filter};
ghost use Rattle.cluster_rules.specs.Sched.{connected, workers};
ghost use Rattle.balance_policy.specs.Offers.{is_idle};

use arrayvec::ArrayVec;
use cluster_rules::Facts;

/// The connected workers with fewer tasks than threads, ascending. At most 64 are connected.
pub fn idle_workers<F: Facts>(facts: &F) -> ArrayVec<u32, 64>
    ensures { result.items ≡ filter (is_idle (F.facts facts.now)) (workers (F.facts facts.now)) }
{
    facts.sound();
    let mut idle = ArrayVec::new();
    for before in 0..facts.last_worker() {
        let worker = before + 1;
        if may_take(facts, worker) {
            idle.push(worker);
        }
    }
    idle
}

/// Whether the worker is connected and has fewer tasks than threads.
fn may_take<F: Facts>(facts: &F, worker: u32) -> bool
    ensures { result ≡ (connected (F.facts facts.now) worker && is_idle (F.facts facts.now) worker) }
{
    facts.connected(worker) && facts.tasks(worker) < facts.threads(worker)
}
