//! That messages were sent, as the facts remember it.
ghost use Rattle.std.specs.Prelude.{◌≡◌, ◌+◌, ◌<◌, ◌≤◌, ◌^◌, ℕ, All, length};
ghost use Rattle.cluster_rules.specs.Sched.{keys};
ghost use Rattle.task_table.specs.Tasks.{facts};
ghost use Rattle.sched_changes.specs.Follows.{Follows};
ghost use Rattle.scheduler_core.specs.Posted.{taken_keys, posted_mail, posted_one, fenced};

use cluster_msgs::Down;
use sched_changes::make;
use task_table::{Change, TaskTable};

/// Remembers that these messages were sent, one after another: each takes the next place on the link to its worker, and
/// each key that a message takes away from the worker remembers the place of that message. Takes no memory.
pub fn post_all(table: &mut TaskTable, mail: &[(u32, Down)])
    requires workers { All (λ m. m.0 ≤ (facts table.old).last_worker) mail.now }
    requires keys { All (λ m. All (λ k. k < keys (facts table.old)) (taken_keys m.1)) mail.now }
    requires room { (w : ℕ) → (facts table.old).sent w + length mail.now < 2 ^ 62 }
    ensures facts { facts table.new ≡ posted_mail (facts table.old) mail.now }
    ensures follows { Follows table.old table.new }
{
    for message in mail {
        post(table, message);
    }
}

/// Remembers that one message was sent.
fn post(table: &mut TaskTable, message: &(u32, Down))
    requires worker { message.now.0 ≤ (facts table.old).last_worker }
    requires keys { All (λ k. k < keys (facts table.old)) (taken_keys message.now.1) }
    requires room { (facts table.old).sent message.now.0 < 2 ^ 62 }
    ensures facts { facts table.new ≡ posted_one (facts table.old) message.now }
    ensures follows { Follows table.old table.new }
{
    make(table, Change::Send { worker: message.0 });
    raise_fences(table, message.0, taken_keys(&message.1));
}

/// The last message to the worker took these keys away.
fn raise_fences(table: &mut TaskTable, worker: u32, taken: &[u32])
    requires worker { worker ≤ (facts table.old).last_worker }
    requires keys { All (λ k. k < keys (facts table.old)) taken.now }
    ensures facts { facts table.new ≡ fenced (facts table.old) worker taken.now }
    ensures follows { Follows table.old table.new }
{
    for key in taken {
        make(table, Change::Fence { worker, key: *key });
    }
}

/// The keys that the message takes away from the worker.
fn taken_keys(message: &Down) -> &[u32]
    ensures { result.now ≡ taken_keys message.now }
{
    match message {
        Down::FreeKeys { keys } => keys.as_slice(),
        Down::RemoveReplicas { keys } => keys.as_slice(),
        Down::ComputeTask { .. } => &[],
        Down::StealRequest { .. } => &[],
        Down::AcquireReplicas { .. } => &[],
        Down::RefreshWhoHas { .. } => &[],
    }
}
