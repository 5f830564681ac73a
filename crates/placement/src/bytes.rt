//! The bytes that a worker would have to fetch before it could run a key.
ghost use Rattle.std.specs.Prelude.{◌≡◌, ◌<◌, ◌≤◌, ◌^◌};
ghost use Rattle.cluster_rules.specs.Sched.{keys};
ghost use Rattle.cluster_rules.specs.Policies.{missing_bytes};
ghost use Rattle.placement.specs.Costs.{fetched_bytes};

use cluster_msgs::GraphShape;
use cluster_rules::Facts;

/// The bytes of the key's dependencies that the worker does not hold. `shape` is the shape of the facts.
pub fn missing_bytes<F: Facts>(facts: &F, shape: &GraphShape, worker: u32, key: u32) -> u64
    requires shape { shape.now ≡ (F.facts facts.now).setting.shape }
    requires key { key < keys (F.facts facts.now) }
    ensures is { result ≡ missing_bytes (F.facts facts.now) worker key }
    ensures fits { result ≤ 2 ^ 45 }
{
    facts.sound();
    let mut total = 0u64;
    for dependency in shape.deps(key) {
        total += fetched(facts, shape, worker, *dependency);
    }
    total
}

/// The bytes of one dependency, or none where the worker holds it.
fn fetched<F: Facts>(facts: &F, shape: &GraphShape, worker: u32, key: u32) -> u64
    requires shape { shape.now ≡ (F.facts facts.now).setting.shape }
    requires key { key < keys (F.facts facts.now) }
    ensures { result ≡ fetched_bytes (F.facts facts.now) worker key }
{
    if facts.holds(worker, key) {
        0
    } else {
        shape.nbytes(key)
    }
}
