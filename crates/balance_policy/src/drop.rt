//! The replica that is dropped next.
ghost use Rattle.std.specs.Prelude.{◌≡◌, ℕ, ◌<◌, true, Some, None, cond};
ghost use Rattle.std.specs.Option.{option_map};
ghost use Rattle.key_sets.specs.Sets.{has};
ghost use Rattle.cluster_rules.specs.Choice.{better};
ghost use Rattle.cluster_rules.specs.Sched.{keys, holds, holder_count};
ghost use Rattle.cluster_rules.specs.Policies.{may_drop, most_loaded, next_drop, IsDropOf};
ghost use Rattle.balance_policy.specs.Loads.{holds_more};

use cluster_rules::Facts;
use key_sets::KeySet;

/// The worker and the key whose replica is dropped next, or `None` where no replica is to spare.
///
/// A key may lose a replica where it has more holders than dependents that still wait for it, and one more. The least such
/// key loses it at the holder with most bytes held, the least number among several.
///
/// Takes no memory. It asks two questions for each key up to the one that it finds, and then a few for each number that a
/// worker got.
pub fn next_drop<F: Facts>(facts: &F) -> Option<(u32, u32)>
    ensures is { result ≡ next_drop (F.facts facts.now) }
    ensures least { IsDropOf (F.facts facts.now) result }
{
    for key in 0..facts.keys() {
        if may_drop(facts, key) {
            return drop_at(most_loaded(facts, key), key);
        }
    }
    None
}

/// The same, asked by whoever knows which keys have several holders: only those in `shared` are looked at.
pub fn next_drop_among<F: Facts>(facts: &F, shared: &KeySet) -> Option<(u32, u32)>
    requires within { (k : ℕ) → has shared.now k ≡ true → k < keys (F.facts facts.now) }
    requires shared { (k : ℕ) → 1 < holder_count (F.facts facts.now) k → has shared.now k ≡ true }
    ensures is { result ≡ next_drop (F.facts facts.now) }
    ensures least { IsDropOf (F.facts facts.now) result }
{
    facts.sound();
    let mut from = 0;
    while let Some(key) = shared.first_from(from) {
        if may_drop(facts, key) {
            return drop_at(most_loaded(facts, key), key);
        }
        from = key + 1;
    }
    None
}

/// The holder with the key.
fn drop_at(holder: Option<u32>, key: u32) -> Option<(u32, u32)>
    ensures { result ≡ option_map (λ w. (w, key)) holder }
{
    holder.map(|worker| (worker, key))
}

/// Whether the key has a replica to spare.
fn may_drop<F: Facts>(facts: &F, key: u32) -> bool
    requires { key < keys (F.facts facts.now) }
    ensures { result ≡ may_drop (F.facts facts.now) key }
{
    facts.waiters(key) < facts.holders(key).saturating_sub(1)
}

/// Of the key's holders the one that holds most bytes, the least number among several.
fn most_loaded<F: Facts>(facts: &F, key: u32) -> Option<u32>
    requires { key < keys (F.facts facts.now) }
    ensures { result ≡ most_loaded (F.facts facts.now) key }
{
    let mut best = None;
    for before in 0..facts.last_worker() {
        best = heavier(facts, best, holder(facts, before + 1, key));
    }
    best
}

/// The worker, where it holds the key.
fn holder<F: Facts>(facts: &F, worker: u32, key: u32) -> Option<u32>
    requires { key < keys (F.facts facts.now) }
    ensures { result ≡ cond (holds (F.facts facts.now) worker key) (Some worker) None }
{
    if facts.holds(worker, key) {
        Some(worker)
    } else {
        None
    }
}

/// Of two workers, if any, the one that holds more bytes; the first of two that hold as many.
fn heavier<F: Facts>(facts: &F, best: Option<u32>, next: Option<u32>) -> Option<u32>
    ensures { result ≡ better (holds_more (F.facts facts.now)) best next }
{
    match (best, next) {
        (Some(old), Some(new)) => {
            if facts.bytes_held(old) < facts.bytes_held(new) {
                Some(new)
            } else {
                Some(old)
            }
        }
        (Some(old), None) => Some(old),
        (None, new) => new,
    }
}
