//! What is asked of a table before an event changes it.
ghost use Rattle.std.specs.Prelude.{◌≡◌, ◌≤◌, ◌<◌};
ghost use Rattle.cluster_rules.specs.Sched.{keys};
ghost use Rattle.task_table.specs.Tasks.{facts};

use task_table::TaskTable;

/// The worker that the key was given to, and under which attempt.
pub fn place_of(table: &TaskTable, key: u32) -> Option<(u32, u64)>
    ensures { result ≡ (facts table.now).on key }
{
    table.table().on(key)
}

/// The thief that is to get the key, and whether its worker refused.
pub fn steal_of(table: &TaskTable, key: u32) -> Option<(u32, bool)>
    ensures { result ≡ (facts table.now).steal key }
{
    table.table().steal(key)
}

/// The copy of the key that the worker holds.
pub fn copy_of(table: &TaskTable, worker: u32, key: u32) -> Option<u64>
    ensures { result ≡ (facts table.now).has worker key }
{
    table.table().copy_at(worker, key)
}

/// The place of the last message that took the key away from the worker.
pub fn fence_of(table: &TaskTable, worker: u32, key: u32) -> u64
    requires worker { worker ≤ (facts table.now).last_worker }
    requires key { key < keys (facts table.now) }
    ensures { result ≡ (facts table.now).fence worker key }
{
    table.table().fence(worker, key)
}

/// Where the counter of copies and attempts stands.
pub fn counter_of(table: &TaskTable) -> u64
    ensures { result ≡ (facts table.now).counter }
{
    table.table().counter()
}

/// How often the key's worker left while the key was assigned to it.
pub fn losses_of(table: &TaskTable, key: u32) -> u32
    requires { key < keys (facts table.now) }
    ensures { result ≡ (facts table.now).losses key }
{
    table.table().losses(key)
}

/// How often a key's worker may leave while the key is assigned to it, where that is bounded.
pub fn allowed_of(table: &TaskTable) -> Option<u32>
    ensures { result ≡ (facts table.now).setting.allowed }
{
    table.table().allowed()
}
