//! One change of one fact.
ghost use Rattle.std.specs.Prelude.{◌≡◌};
ghost use Rattle.sched_facts.specs.Stored.{facts_of};
ghost use Rattle.task_table.specs.Changes.{with_change, Fits, changed_key, changed_worker};

use sched_facts::FactTable;

/// A change of one fact, each with the one that takes it back, but for what only grows.
#[derive(Clone, Copy)]
pub enum Change {
    /// The client wants the key.
    Want { client: u32, key: u32 },
    /// The client no longer wants the key.
    Unwant { client: u32, key: u32 },
    /// The worker holds a new copy of the key.
    Hold { worker: u32, key: u32 },
    /// The worker no longer holds the key.
    Lose { worker: u32, key: u32 },
    /// The key is given to the worker under a new attempt, and is not to be stolen.
    Assign { key: u32, worker: u32 },
    /// The key is on no worker, and is not to be stolen.
    Unassign { key: u32 },
    /// The key is to be stolen by the thief, or was and its worker refused.
    Steal { key: u32, thief: u32, refused: bool },
    /// The key is not to be stolen.
    Unsteal { key: u32 },
    /// The key has an error of its own.
    Fail { key: u32 },
    /// The key has lost its worker once more.
    Count { key: u32 },
    /// The key has no error of its own and no losses.
    Forgive { key: u32 },
    /// The next number is connected, with this many threads.
    Connect { threads: u32 },
    /// The worker is no longer connected.
    Disconnect { worker: u32 },
    /// One more message goes to the worker.
    Send { worker: u32 },
    /// The last message that went to the worker took the key away.
    Fence { worker: u32, key: u32 },
    /// One more finish counts.
    Finish,
}

/// The change is made in the facts.
pub fn put(table: &mut FactTable, change: Change)
    requires { Fits (facts_of table.old) table.old.room change }
    ensures { facts_of table.new ≡ with_change (facts_of table.old) change }
{
    match change {
        Change::Want { client, key } => table.set_want(client, key, true),
        Change::Unwant { client, key } => table.set_want(client, key, false),
        Change::Hold { worker, key } => table.new_copy(worker, key),
        Change::Lose { worker, key } => table.drop_copy(worker, key),
        Change::Assign { key, worker } => table.assign(key, worker),
        Change::Unassign { key } => table.unassign(key),
        Change::Steal {
            key,
            thief,
            refused,
        } => table.mark_steal(key, Some((thief, refused))),
        Change::Unsteal { key } => table.mark_steal(key, None),
        Change::Fail { key } => table.set_bad(key, true),
        Change::Count { key } => table.count_loss(key),
        Change::Forgive { key } => table.forgive(key),
        Change::Connect { threads } => table.join(threads),
        Change::Disconnect { worker } => table.disconnect(worker),
        Change::Send { worker } => table.count_sent(worker),
        Change::Fence { worker, key } => table.raise_fence(worker, key),
        Change::Finish => table.count_finish(),
    }
}

/// The key whose derived facts the change can turn.
pub fn key_of(change: Change) -> Option<u32>
    ensures { result ≡ changed_key change }
{
    match change {
        Change::Want { key, .. } => Some(key),
        Change::Unwant { key, .. } => Some(key),
        Change::Hold { key, .. } => Some(key),
        Change::Lose { key, .. } => Some(key),
        Change::Assign { key, .. } => Some(key),
        Change::Unassign { key } => Some(key),
        Change::Steal { .. } => None,
        Change::Unsteal { .. } => None,
        Change::Fail { key } => Some(key),
        Change::Count { key } => Some(key),
        Change::Forgive { key } => Some(key),
        Change::Connect { .. } => None,
        Change::Disconnect { .. } => None,
        Change::Send { .. } => None,
        Change::Fence { .. } => None,
        Change::Finish => None,
    }
}

/// The worker that comes to hold or to have the key, or holds it no longer.
pub fn worker_of(change: Change) -> Option<u32>
    ensures { result ≡ changed_worker change }
{
    match change {
        Change::Want { .. } => None,
        Change::Unwant { .. } => None,
        Change::Hold { worker, .. } => Some(worker),
        Change::Lose { worker, .. } => Some(worker),
        Change::Assign { worker, .. } => Some(worker),
        Change::Unassign { .. } => None,
        Change::Steal { .. } => None,
        Change::Unsteal { .. } => None,
        Change::Fail { .. } => None,
        Change::Count { .. } => None,
        Change::Forgive { .. } => None,
        Change::Connect { .. } => None,
        Change::Disconnect { .. } => None,
        Change::Send { .. } => None,
        Change::Fence { .. } => None,
        Change::Finish => None,
    }
}
