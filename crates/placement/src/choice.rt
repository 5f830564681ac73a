//! The worker that a key goes to.
ghost use Rattle.std.specs.Prelude.{◌≡◌, ◌<◌, true};
ghost use Rattle.std.specs.List.{list_any};
ghost use Rattle.std.specs.Option.{option_map};
ghost use Rattle.cluster_rules.specs.Sched.{keys, deps, holds, connected};
ghost use Rattle.cluster_rules.specs.Choice.{IsLeastOf};
ghost use Rattle.cluster_rules.specs.Policies.{place, place_rank, candidates};
ghost use Rattle.placement.specs.Candidates.{admits, offer, offered, candidate_of};

use crate::bytes::missing_bytes;
use crate::candidate::{Candidate, Pool, lesser};
use cluster_msgs::GraphShape;
use cluster_rules::Facts;

/// The worker that the key goes to, or `None` where there is no candidate.
///
/// A key without dependencies may go to each connected worker that is not full. Another key may go to each connected
/// worker that holds one of its dependencies, or to all where none does. Of these it goes to the one with the least
/// triple of (occupancy divided by threads, plus the bytes of the dependencies that the worker does not hold; bytes that
/// the worker holds; number), after "Choosing Workers" of Dask's page "Scheduling Policies"
/// (<https://distributed.dask.org/en/stable/scheduling-policies.html>). Occupancy and bytes are in bytes.
///
/// `shape` is the shape of the facts. Takes no memory, and asks a few questions for each dependency and each number that a
/// worker got, twice where nobody holds a dependency.
pub fn place<F: Facts>(facts: &F, shape: &GraphShape, key: u32) -> Option<u32>
    requires shape { shape.now ≡ (F.facts facts.now).setting.shape }
    requires key { key < keys (F.facts facts.now) }
    ensures is { result ≡ place (F.facts facts.now) key }
    ensures least { IsLeastOf (place_rank (F.facts facts.now) key) (candidates (F.facts facts.now) key) result }
{
    if shape.deps(key).is_empty() {
        return least_of(facts, shape, key, Pool::NotFull);
    }
    match least_of(facts, shape, key, Pool::Holders) {
        Some(worker) => Some(worker),
        None => least_of(facts, shape, key, Pool::Everyone),
    }
}

/// The worker with the least rank of those in the pool.
fn least_of<F: Facts>(facts: &F, shape: &GraphShape, key: u32, pool: Pool) -> Option<u32>
    requires shape { shape.now ≡ (F.facts facts.now).setting.shape }
    requires key { key < keys (F.facts facts.now) }
    ensures { result ≡ offered (F.facts facts.now) key pool }
{
    let mut best = None;
    for before in 0..facts.last_worker() {
        best = lesser(best, offer(facts, shape, key, pool, before + 1));
    }
    worker_of(best)
}

/// The candidate's number.
fn worker_of(best: Option<Candidate>) -> Option<u32>
    ensures { result ≡ option_map (λ c. c.worker) best }
{
    best.map(|candidate| candidate.worker)
}

/// The worker as a candidate, where it is connected and in the pool.
fn offer<F: Facts>(
    facts: &F,
    shape: &GraphShape,
    key: u32,
    pool: Pool,
    worker: u32,
) -> Option<Candidate>
    requires shape { shape.now ≡ (F.facts facts.now).setting.shape }
    requires key { key < keys (F.facts facts.now) }
    ensures { result ≡ offer (F.facts facts.now) key pool worker }
{
    if facts.connected(worker) && admits(facts, shape, key, pool, worker) {
        Some(candidate_of(facts, shape, key, worker))
    } else {
        None
    }
}

/// Whether the connected worker is in the pool.
fn admits<F: Facts>(facts: &F, shape: &GraphShape, key: u32, pool: Pool, worker: u32) -> bool
    requires shape { shape.now ≡ (F.facts facts.now).setting.shape }
    requires key { key < keys (F.facts facts.now) }
    requires connected { connected (F.facts facts.now) worker ≡ true }
    ensures { result ≡ admits (F.facts facts.now) key pool worker }
{
    match pool {
        Pool::NotFull => !facts.full(worker),
        Pool::Holders => holds_some(facts, shape, key, worker),
        Pool::Everyone => true,
    }
}

/// Whether the worker holds a dependency of the key.
fn holds_some<F: Facts>(facts: &F, shape: &GraphShape, key: u32, worker: u32) -> bool
    requires shape { shape.now ≡ (F.facts facts.now).setting.shape }
    requires key { key < keys (F.facts facts.now) }
    ensures { result ≡ list_any (holds (F.facts facts.now) worker) (deps (F.facts facts.now) key) }
{
    facts.sound();
    let mut found = false;
    for dependency in shape.deps(key) {
        found |= facts.holds(worker, *dependency);
    }
    found
}

/// The connected worker with what it is ranked by.
fn candidate_of<F: Facts>(facts: &F, shape: &GraphShape, key: u32, worker: u32) -> Candidate
    requires shape { shape.now ≡ (F.facts facts.now).setting.shape }
    requires key { key < keys (F.facts facts.now) }
    requires connected { connected (F.facts facts.now) worker ≡ true }
    ensures { result ≡ candidate_of (F.facts facts.now) key worker }
{
    facts.sound();
    let wait = facts.occupancy(worker) / u64::from(facts.threads(worker));
    Candidate {
        cost: wait + missing_bytes(facts, shape, worker, key),
        held: facts.bytes_held(worker),
        worker,
    }
}
