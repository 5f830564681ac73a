//! The keys of an event's own want. They count as neither held nor erred before it, so that the client hears of them.
ghost use Rattle.std.specs.Prelude.{◌≡◌, ℕ, ◌<◌, ◌≤◌, ◌||◌, true, All, IfOk};
ghost use Rattle.cluster_rules.specs.Derived.{is_in};
ghost use Rattle.cluster_rules.specs.Sched.{keys};
ghost use Rattle.cluster_rules.specs.SchedTable.{sched_takes};
ghost use Rattle.key_sets.specs.Sets.{has, room};
ghost use Rattle.task_table.specs.Tasks.{facts};
ghost use Rattle.sched_changes.specs.Effects.{asked_in, asked_list, wanted_list};

use cluster_msgs::{FromClient, SchedEvent};
use cluster_rules::Facts;
use key_sets::KeySet;
use std::alloc::{AllocError, Global};
use task_table::TaskTable;

/// The keys of the event's own want, as a set. It has room for all keys where the event is a want, else for none.
///
/// # Errors
/// Where no memory is left.
pub fn asked_set(alloc: Global, table: &TaskTable, event: &SchedEvent) -> Result<KeySet, AllocError>
    requires { sched_takes (facts table.now) event.now ≡ true }
    ensures { IfOk result (λ asked. (k : ℕ) → has asked k ≡ asked_in event.now k) }
{
    table.sound();
    let asked = asked_keys(event);
    let mut set = KeySet::new(alloc, room_for(asked, table.keys()))?;
    mark_all(asked, &mut set);
    Ok(set)
}

/// Room for all of so many keys, or for none where there are none in the list.
fn room_for(asked: &[u32], count: u32) -> u32
    requires { All (λ k. k < count) asked.now }
    ensures room { All (λ k. k < result) asked.now }
    ensures few { result ≤ count }
{
    if asked.is_empty() { 0 } else { count }
}

/// Marks these keys.
pub fn mark_all(named: &[u32], marks: &mut KeySet)
    requires { All (λ k. k < room marks.old) named.now }
    ensures marked { (k : ℕ) → has marks.new k ≡ (has marks.old k || is_in k named.now) }
    ensures room { room marks.new ≡ room marks.old }
{
    for key in named {
        marks.insert(*key);
    }
}

/// The keys of the event's own want.
fn asked_keys(event: &SchedEvent) -> &[u32]
    ensures { result.now ≡ asked_list event.now }
{
    match event {
        SchedEvent::FromClient { msg, .. } => wanted_keys(msg),
        SchedEvent::Join { .. } => &[],
        SchedEvent::Leave { .. } => &[],
        SchedEvent::FromWorker { .. } => &[],
        SchedEvent::Balance => &[],
        SchedEvent::Evict => &[],
        SchedEvent::Replicate { .. } => &[],
    }
}

/// The keys of a client's own want.
fn wanted_keys(message: &FromClient) -> &[u32]
    ensures { result.now ≡ wanted_list message.now }
{
    match message {
        FromClient::Want { keys } => keys.as_slice(),
        FromClient::Release { .. } => &[],
        FromClient::Missing { .. } => &[],
    }
}
