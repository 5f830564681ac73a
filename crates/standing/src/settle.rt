//! The flags after the facts of some keys changed.
ghost use Rattle.std.specs.Prelude.{◌≡◌, ℕ, ◌<◌, ◌&&◌, true, not, nat_lt};
ghost use Rattle.cluster_rules.specs.Sched.{keys, deps, held, wanted, known, need, ready, erred, open_key, waiters, fed};
ghost use Rattle.sched_facts.specs.Stored.{facts_of};
ghost use Rattle.spread_flags.specs.Spread.{seed, gate, flag, was, leaders, size};
ghost use Rattle.standing.specs.Links.{IsReverse};

use sched_facts::FactTable;
use spread_flags::Flags;

/// The known keys.
pub fn settle_known(table: &FactTable, flags: &mut Flags)
    requires links { flags.old.links ≡ (facts_of table.now).setting.shape.deps }
    requires seeds { (k : ℕ) → k < keys (facts_of table.now) → seed flags.old k ≡ wanted (facts_of table.now) k }
    requires gates { (k : ℕ) → k < keys (facts_of table.now) → gate flags.old k ≡ true }
    ensures known { (k : ℕ) → k < keys (facts_of table.now) → flag flags.new k ≡ known (facts_of table.now) k }
    ensures links { flags.new.links ≡ flags.old.links }
    ensures seeds { flags.new.seeds ≡ flags.old.seeds }
    ensures gates { flags.new.gates ≡ flags.old.gates }
    ensures was { (k : ℕ) → was flags.new k ≡ was flags.old k }
{
    table.sound();
    flags.settle_down();
}

/// The erred keys.
pub fn settle_erred(table: &FactTable, flags: &mut Flags)
    requires links { IsReverse (facts_of table.now).setting.shape flags.old.links }
    requires seeds { (k : ℕ) → k < keys (facts_of table.now) → seed flags.old k ≡ (facts_of table.now).bad k }
    requires gates { (k : ℕ) → k < keys (facts_of table.now) → gate flags.old k ≡ not (held (facts_of table.now) k) }
    ensures erred { (k : ℕ) → k < keys (facts_of table.now) → flag flags.new k ≡ erred (facts_of table.now) k }
    ensures links { flags.new.links ≡ flags.old.links }
    ensures seeds { flags.new.seeds ≡ flags.old.seeds }
    ensures gates { flags.new.gates ≡ flags.old.gates }
    ensures was { (k : ℕ) → was flags.new k ≡ was flags.old k }
{
    table.sound();
    flags.settle_up();
}

/// The keys that wait: needed, not held and not erred. Of each key it is known then how many dependents wait for it.
pub fn settle_waiting(table: &FactTable, flags: &mut Flags)
    requires links { flags.old.links ≡ (facts_of table.now).setting.shape.deps }
    requires seeds { (k : ℕ) → k < keys (facts_of table.now) → seed flags.old k ≡ wanted (facts_of table.now) k }
    requires gates { (k : ℕ) → k < keys (facts_of table.now) → gate flags.old k ≡ open_key (facts_of table.now) k }
    ensures waiting { (k : ℕ) → k < keys (facts_of table.now) → flag flags.new k ≡ (open_key (facts_of table.now) k && need (facts_of table.now) k) }
    ensures waiters { (k : ℕ) → leaders flags.new k ≡ waiters (facts_of table.now) k }
    ensures links { flags.new.links ≡ flags.old.links }
    ensures seeds { flags.new.seeds ≡ flags.old.seeds }
    ensures gates { flags.new.gates ≡ flags.old.gates }
    ensures was { (k : ℕ) → was flags.new k ≡ was flags.old k }
{
    table.sound();
    flags.settle_down();
    flags.sound();
}

/// The keys that are not held. Of each key it is known then how many of its dependencies are missing.
pub fn settle_missing(table: &FactTable, flags: &mut Flags)
    requires links { IsReverse (facts_of table.now).setting.shape flags.old.links }
    requires seeds { (k : ℕ) → k < keys (facts_of table.now) → seed flags.old k ≡ true }
    requires gates { (k : ℕ) → k < keys (facts_of table.now) → gate flags.old k ≡ not (held (facts_of table.now) k) }
    ensures missing { (k : ℕ) → k < keys (facts_of table.now) → flag flags.new k ≡ not (held (facts_of table.now) k) }
    ensures fed { (k : ℕ) → k < keys (facts_of table.now) → nat_lt 0 (leaders flags.new k) ≡ not (fed (facts_of table.now) k) }
    ensures links { flags.new.links ≡ flags.old.links }
    ensures seeds { flags.new.seeds ≡ flags.old.seeds }
    ensures gates { flags.new.gates ≡ flags.old.gates }
    ensures was { (k : ℕ) → was flags.new k ≡ was flags.old k }
{
    table.sound();
    flags.settle_up();
    flags.sound();
}

/// Whether the key is ready, where the flags are those of the keys that wait and of those that are not held.
pub fn is_ready(table: &FactTable, waiting: &Flags, missing: &Flags, key: u32) -> bool
    requires key { key < size missing.now }
    requires waiting { flag waiting.now key ≡ (open_key (facts_of table.now) key && need (facts_of table.now) key) }
    requires missing { nat_lt 0 (leaders missing.now key) ≡ not (fed (facts_of table.now) key) }
    ensures { result ≡ ready (facts_of table.now) key }
{
    let is_waiting = waiting.is_set(key);
    let lacks = missing.leaders(key) > 0;
    is_waiting & !lacks
}

/// Whether the key is needed, where the flags are those of the keys that wait.
pub fn is_needed(table: &FactTable, flags: &Flags, key: u32) -> bool
    requires key { key < keys (facts_of table.now) }
    requires waiters { leaders flags.now key ≡ waiters (facts_of table.now) key }
    requires links { flags.now.links ≡ (facts_of table.now).setting.shape.deps }
    ensures { result ≡ need (facts_of table.now) key }
{
    table.sound();
    table.is_wanted(key) | (flags.leaders(key) > 0)
}
