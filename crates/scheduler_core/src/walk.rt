//! Walks over the touched keys.
ghost use Rattle.std.specs.Prelude.{◌<◌};
ghost use Rattle.std.specs.Prelude.{IfSome};
ghost use Rattle.cluster_rules.specs.Sched.{keys};
ghost use Rattle.key_sets.specs.Sets.{has, IsFirst};
ghost use Rattle.task_table.specs.Tasks.{facts};

use task_table::TaskTable;

/// The first touched key from this one on. It is a key.
pub fn next_touched(table: &TaskTable, from: u32) -> Option<u32>
    ensures first { IsFirst (has table.now.touched) from result }
    ensures within { IfSome result (λ k. k < keys (facts table.now)) }
{
    table.remembered();
    table.first_touched(from)
}
