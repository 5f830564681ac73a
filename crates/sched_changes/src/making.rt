//! Changes of a table, one by one.
ghost use Rattle.std.specs.Prelude.{◌≡◌, ℕ, true, Some};
ghost use Rattle.key_sets.specs.Sets.{has};
ghost use Rattle.task_table.specs.Changes.{with_change, Fits, changed_key};
ghost use Rattle.task_table.specs.Tasks.{facts};
ghost use Rattle.sched_changes.specs.Follows.{Follows};

use task_table::{Change, TaskTable};

/// One change of one fact.
pub fn make(table: &mut TaskTable, change: Change)
    requires { Fits (facts table.old) table.old.stored.room change }
    ensures facts { facts table.new ≡ with_change (facts table.old) change }
    ensures follows { Follows table.old table.new }
    ensures named { (k : ℕ) → changed_key change ≡ Some k → has table.new.touched k ≡ true }
{
    table.apply(change);
}
