//! The keys whose flags or counts changed.
ghost use Rattle.std.specs.Prelude.{◌≡◌, ℕ, ◌<◌, ◌≤◌, ◌||◌, true, false, cond};
ghost use Rattle.cluster_rules.specs.Derived.{is_in};
ghost use Rattle.cluster_rules.specs.Sched.{keys, held};
ghost use Rattle.sched_facts.specs.Stored.{facts_of};
ghost use Rattle.key_sets.specs.Sets.{has, room};
ghost use Rattle.spread_flags.specs.Spread.{size, flag, targets};
ghost use Rattle.task_table.specs.Standing.{IsUntold, IsWide};

use crate::levels::Levels;
use key_sets::KeySet;
use sched_facts::FactTable;
use spread_flags::Flags;
use spread_flags::turn::mark_all;

/// Marks the keys whose flag changed.
pub fn mark_changed(flags: &Flags, marks: &mut KeySet)
    requires { size flags.now ≤ room marks.old }
    ensures marked { (k : ℕ) → has marks.new k ≡ (has marks.old k || has flags.now.changed k) }
    ensures room { room marks.new ≡ room marks.old }
{
    flags.sound();
    let mut from = 0;
    while let Some(key) = flags.changed_from(from) {
        marks.insert(key);
        from = key + 1;
    }
}

/// Marks the keys to which a key leads whose flag changed.
pub fn mark_led(flags: &Flags, marks: &mut KeySet)
    requires { size flags.now ≤ room marks.old }
    ensures led { (j k : ℕ) → has flags.now.changed j ≡ true → is_in k (targets flags.now j) ≡ true → has marks.new k ≡ true }
    ensures grows { (k : ℕ) → has marks.old k ≡ true → has marks.new k ≡ true }
    ensures within { (k : ℕ) → size flags.now ≤ k → has marks.new k ≡ has marks.old k }
    ensures room { room marks.new ≡ room marks.old }
{
    flags.sound();
    let mut from = 0;
    while let Some(key) = flags.changed_from(from) {
        mark_all(marks, flags.targets(key));
        from = key + 1;
    }
}

/// Marks each key whose flags or counts changed, of so many keys.
pub fn mark_levels(levels: &Levels, marks: &mut KeySet, count: u32)
    requires wide { IsWide count levels.now }
    requires room { count ≤ room marks.old }
    ensures untold { (k : ℕ) → has marks.new k ≡ false → IsUntold levels.now k }
    ensures grows { (k : ℕ) → has marks.old k ≡ true → has marks.new k ≡ true }
    ensures within { (k : ℕ) → count ≤ k → has marks.new k ≡ has marks.old k }
    ensures room { room marks.new ≡ room marks.old }
{
    levels.known.sound();
    levels.erred.sound();
    levels.waiting.sound();
    levels.missing.sound();
    mark_changed(&levels.known, marks);
    mark_changed(&levels.erred, marks);
    mark_changed(&levels.waiting, marks);
    mark_changed(&levels.missing, marks);
    mark_led(&levels.waiting, marks);
    mark_led(&levels.missing, marks);
}

/// The marked keys are added to a set.
pub fn add_marks(table: &FactTable, marks: &KeySet, whole: &mut KeySet)
    requires marks { (k : ℕ) → has marks.now k ≡ true → k < keys (facts_of table.now) }
    requires room { keys (facts_of table.now) ≤ room whole.old }
    ensures added { (k : ℕ) → has whole.new k ≡ (has whole.old k || has marks.now k) }
    ensures room { room whole.new ≡ room whole.old }
{
    table.sound();
    let mut from = 0;
    while let Some(key) = marks.first_from(from) {
        whole.insert(key);
        from = key + 1;
    }
}

/// Each touched key is in the set exactly where it is held.
pub fn recall_held(table: &FactTable, touched: &KeySet, before: &mut KeySet)
    requires touched { (k : ℕ) → has touched.now k ≡ true → k < keys (facts_of table.now) }
    requires room { keys (facts_of table.now) ≤ room before.old }
    ensures held { (k : ℕ) → has before.new k ≡ cond (has touched.now k) (held (facts_of table.now) k) (has before.old k) }
    ensures room { room before.new ≡ room before.old }
{
    table.sound();
    let mut from = 0;
    while let Some(key) = touched.first_from(from) {
        before.put(key, table.is_held(key));
        from = key + 1;
    }
}

/// Each touched key is in the set exactly where it is flagged.
pub fn recall_erred(flags: &Flags, touched: &KeySet, before: &mut KeySet)
    requires touched { (k : ℕ) → has touched.now k ≡ true → k < size flags.now }
    requires room { size flags.now ≤ room before.old }
    ensures flagged { (k : ℕ) → has before.new k ≡ cond (has touched.now k) (flag flags.now k) (has before.old k) }
    ensures room { room before.new ≡ room before.old }
{
    flags.sound();
    let mut from = 0;
    while let Some(key) = touched.first_from(from) {
        before.put(key, flags.is_set(key));
        from = key + 1;
    }
}
