//! The steal that is made next.
ghost use Rattle.std.specs.Prelude.{◌≡◌, ℕ, ◌<◌, true, filter, is_some};
ghost use Rattle.std.specs.Option.{option_map};
ghost use Rattle.key_sets.specs.Sets.{has};
ghost use Rattle.cluster_rules.specs.Choice.{IsLeastOf};
ghost use Rattle.cluster_rules.specs.Sched.{keys, workers};
ghost use Rattle.cluster_rules.specs.Policies.{steal_choices, steal_rank, next_steal};
ghost use Rattle.balance_policy.specs.Offers.{IsLeastOffer, IsStealOfKey, IsStealFrom, IsVictim, IsVictimOf, is_idle, offer_of};

use crate::idle::idle_workers;
use crate::level::level;
use crate::offer::{Offer, lesser};
use cluster_msgs::{GraphShape, Steal};
use cluster_rules::Facts;
use key_sets::KeySet;
use placement::missing_bytes;

/// The steal that is made next, or `None` where no key may be stolen.
///
/// A key may be stolen where it is on its worker, the victim, no steal of it was asked for, the victim has more tasks
/// than threads and the thief fewer, and the victim's occupancy is at least the thief's and the bytes that the thief would
/// have to fetch and one and a half times the key's work. The level of a steal is the least n with
/// `bytes < 2^n * (work + 1)`, for the bytes to fetch and the key's work. Of all steals that may be made, the answer is the
/// one with the least (level, victim, key, thief).
///
/// `shape` is the shape of the facts. Takes no memory. It asks a few questions for each number that a worker got and for
/// each key; only for a key that may leave its worker does it look at the workers with fewer tasks than threads, and
/// asks each of them for the key's dependencies.
pub fn next_steal<F: Facts>(facts: &F, shape: &GraphShape) -> Option<Steal>
    requires { shape.now ≡ (F.facts facts.now).setting.shape }
    ensures is { result ≡ next_steal (F.facts facts.now) }
    ensures least { IsLeastOf (steal_rank (F.facts facts.now)) (steal_choices (F.facts facts.now)) result }
{
    facts.sound();
    let idle = idle_workers(facts);
    if idle.is_empty() {
        return None;
    }
    let mut best = None;
    for key in 0..facts.keys() {
        best = lesser(best, best_of_key(facts, shape, idle.as_slice(), key));
    }
    steal_of(best)
}

/// The same, asked by whoever knows which keys are on workers: only those in `placed` are looked at.
pub fn next_steal_among<F: Facts>(facts: &F, shape: &GraphShape, placed: &KeySet) -> Option<Steal>
    requires shape { shape.now ≡ (F.facts facts.now).setting.shape }
    requires within { (k : ℕ) → has placed.now k ≡ true → k < keys (F.facts facts.now) }
    requires placed { (k : ℕ) → is_some ((F.facts facts.now).on k) ≡ true → has placed.now k ≡ true }
    ensures is { result ≡ next_steal (F.facts facts.now) }
    ensures least { IsLeastOf (steal_rank (F.facts facts.now)) (steal_choices (F.facts facts.now)) result }
{
    facts.sound();
    let idle = idle_workers(facts);
    if idle.is_empty() {
        return None;
    }
    let mut best = None;
    let mut from = 0;
    while let Some(key) = placed.first_from(from) {
        best = lesser(best, best_of_key(facts, shape, idle.as_slice(), key));
        from = key + 1;
    }
    steal_of(best)
}

/// The offer's steal.
fn steal_of(best: Option<Offer>) -> Option<Steal>
    ensures { result ≡ option_map (λ o. o.steal) best }
{
    best.map(|offer| offer.steal)
}

/// The least steal of this key. `idle` are the workers that may take a task.
fn best_of_key<F: Facts>(facts: &F, shape: &GraphShape, idle: &[u32], key: u32) -> Option<Offer>
    requires shape { shape.now ≡ (F.facts facts.now).setting.shape }
    requires key { key < keys (F.facts facts.now) }
    requires idle { idle.now ≡ filter (is_idle (F.facts facts.now)) (workers (F.facts facts.now)) }
    ensures { IsLeastOffer (F.facts facts.now) (IsStealOfKey (F.facts facts.now) key) result }
{
    match victim_of(facts, key) {
        None => None,
        Some(victim) => best_thief(facts, shape, idle, key, victim),
    }
}

/// The worker that the key may be taken from, if there is one.
fn victim_of<F: Facts>(facts: &F, key: u32) -> Option<u32>
    requires { key < keys (F.facts facts.now) }
    ensures { IsVictimOf (F.facts facts.now) key result }
{
    facts.sound();
    match facts.on(key) {
        None => None,
        Some(victim) => {
            if facts.asked_steal(key) || facts.tasks(victim) <= facts.threads(victim) {
                None
            } else {
                Some(victim)
            }
        }
    }
}

/// The least steal of this key from this worker.
fn best_thief<F: Facts>(
    facts: &F,
    shape: &GraphShape,
    idle: &[u32],
    key: u32,
    victim: u32,
) -> Option<Offer>
    requires shape { shape.now ≡ (F.facts facts.now).setting.shape }
    requires key { key < keys (F.facts facts.now) }
    requires victim { IsVictim (F.facts facts.now) key victim }
    requires idle { idle.now ≡ filter (is_idle (F.facts facts.now)) (workers (F.facts facts.now)) }
    ensures { IsLeastOffer (F.facts facts.now) (IsStealFrom (F.facts facts.now) key victim) result }
{
    facts.sound();
    let mut best = None;
    for thief in idle {
        best = lesser(
            best,
            offer(
                facts,
                shape,
                Steal {
                    key,
                    victim,
                    thief: *thief,
                },
            ),
        );
    }
    best
}

/// The steal with its level, where the move gains at least half of the key's work.
fn offer<F: Facts>(facts: &F, shape: &GraphShape, steal: Steal) -> Option<Offer>
    requires shape { shape.now ≡ (F.facts facts.now).setting.shape }
    requires key { steal.key < keys (F.facts facts.now) }
    ensures { result ≡ offer_of (F.facts facts.now) steal }
{
    facts.sound();
    let bytes = missing_bytes(facts, shape, steal.thief, steal.key);
    let work = shape.work(steal.key);
    let ahead = facts.occupancy(steal.thief) + bytes + work;
    if 2 * ahead + work <= 2 * facts.occupancy(steal.victim) {
        Some(Offer {
            level: level(bytes, work),
            steal,
        })
    } else {
        None
    }
}
