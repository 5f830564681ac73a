//! Which events are possible, and name no key that isn't there.
#![tactic(auto)]

ghost use Rattle.std.specs.Prelude.{◌≡◌};
ghost use Rattle.cluster_rules.specs.WorkerStep.{is_key, are_keys, are_named, takes_down, worker_takes};
ghost use Rattle.worker_facts.specs.Stored.{facts_of};

use cluster_msgs::{Down, Holders, WorkerEvent};
use worker_table::WorkerTable;

/// Whether the event is possible.
#[tactic(auto, unfolding(cluster_rules::specs::WorkerStep::worker_takes))]
pub fn takes(table: &WorkerTable, event: &WorkerEvent) -> bool
    ensures { result ≡ worker_takes (facts_of table.now) event.now }
{
    match event {
        WorkerEvent::Down(down) => takes_down(table, down),
        WorkerEvent::Start => table.would_start().is_some(),
        WorkerEvent::Done { key, zero: _ } => is_key(table, *key) & table.is_running(*key),
        WorkerEvent::Ask { peer } => table.would_ask(*peer),
        WorkerEvent::Gathered {
            peer: _,
            ask: _,
            found,
        } => are_keys(table, found.as_slice()),
        WorkerEvent::GatherFailed { peer: _, ask: _ } => true,
        WorkerEvent::DataLost { key } => is_key(table, *key) & table.in_memory(*key),
    }
}

/// Whether a message of the scheduler names no key that isn't there.
fn takes_down(table: &WorkerTable, down: &Down) -> bool
    ensures { result ≡ takes_down (facts_of table.now) down.now }
{
    match down {
        Down::ComputeTask {
            key,
            attempt: _,
            who_has,
        } => is_key(table, *key) & are_named(table, who_has.as_slice()),
        Down::FreeKeys { keys } => are_keys(table, keys.as_slice()),
        Down::StealRequest { key, attempt: _ } => is_key(table, *key),
        Down::RemoveReplicas { keys } => are_keys(table, keys.as_slice()),
        Down::AcquireReplicas { who_has } => are_named(table, who_has.as_slice()),
        Down::RefreshWhoHas { who_has } => are_named(table, who_has.as_slice()),
    }
}

fn is_key(table: &WorkerTable, key: u32) -> bool
    ensures { result ≡ is_key (facts_of table.now) key }
{
    key < table.keys()
}

fn are_keys(table: &WorkerTable, keys: &[u32]) -> bool
    ensures { result ≡ are_keys (facts_of table.now) keys.now }
{
    for key in keys {
        if !is_key(table, *key) {
            return false;
        }
    }
    true
}

fn are_named(table: &WorkerTable, who_has: &[(u32, Holders)]) -> bool
    ensures { result ≡ are_named (facts_of table.now) who_has.now }
{
    for pair in who_has {
        if !is_key(table, pair.0) {
            return false;
        }
    }
    true
}
