//! What the policies choose for an event.
ghost use Rattle.std.specs.Prelude.{◌≡◌};
ghost use Rattle.task_table.specs.Tasks.{facts};
ghost use Rattle.sched_changes.specs.Choices.{steal_for, drop_for};

use balance_policy::{next_drop_among, next_steal_among};
use cluster_msgs::{SchedEvent, Steal};
use task_table::TaskTable;

/// The steal that the event makes: of Balance the one that the policy chooses. Others make none.
pub fn steal_for(table: &TaskTable, event: &SchedEvent) -> Option<Steal>
    ensures { result ≡ steal_for (facts table.now) event.now }
{
    match event {
        SchedEvent::Balance => next_steal_among(table, table.table().shape(), table.placed()),
        SchedEvent::Join { .. } => None,
        SchedEvent::Leave { .. } => None,
        SchedEvent::FromWorker { .. } => None,
        SchedEvent::FromClient { .. } => None,
        SchedEvent::Evict => None,
        SchedEvent::Replicate { .. } => None,
    }
}

/// The worker and the key of the copy that the event drops: of Evict the one that the policy chooses. Others drop none by
/// choice.
pub fn drop_for(table: &TaskTable, event: &SchedEvent) -> Option<(u32, u32)>
    ensures { result ≡ drop_for (facts table.now) event.now }
{
    match event {
        SchedEvent::Evict => next_drop_among(table, table.shared()),
        SchedEvent::Join { .. } => None,
        SchedEvent::Leave { .. } => None,
        SchedEvent::FromWorker { .. } => None,
        SchedEvent::FromClient { .. } => None,
        SchedEvent::Balance => None,
        SchedEvent::Replicate { .. } => None,
    }
}
