//! The state of a key.
ghost use Rattle.std.specs.Prelude.{◌≡◌, ◌<◌, not, cond, is_some};
ghost use Rattle.std.specs.List.{list_any};
ghost use Rattle.cluster_rules.specs.Functions.{from_one};
ghost use Rattle.cluster_msgs.specs.declared.cores.Phase.TheVariants.{Erred, Released, Memory, Waiting, Processing, NoWorker, Queued, Forgotten};
ghost use Rattle.cluster_rules.specs.Sched.{keys, connected, phase};
ghost use Rattle.task_table.specs.Tasks.{facts};

use cluster_msgs::Phase;
use cluster_rules::Facts;
use sched_changes::asking::place_of;
use task_table::TaskTable;

/// The state of a key: the first that fits. It is `Forgotten` where there is no such key.
pub fn phase(table: &TaskTable, key: u32) -> Phase
    ensures { result ≡ phase (facts table.now) key }
{
    table.sound();
    if key < table.keys() {
        phase_of(table, key)
    } else {
        Phase::Forgotten
    }
}

/// The state of a key that is there.
fn phase_of(table: &TaskTable, key: u32) -> Phase
    requires { key < keys (facts table.now) }
    ensures { result ≡ phase (facts table.now) key }
{
    let rest = waiting_phase(table.is_fed(key), is_placed(table, key), has_workers(table));
    first_phase(
        table.is_known(key),
        table.erred(key),
        table.needed(key),
        table.held(key),
        rest,
    )
}

/// Whether the key is on a worker.
fn is_placed(table: &TaskTable, key: u32) -> bool
    ensures { result ≡ is_some ((facts table.now).on key) }
{
    place_of(table, key).is_some()
}

/// Whether a worker is connected.
fn has_workers(table: &TaskTable) -> bool
    ensures { result ≡ list_any (connected (facts table.now)) (from_one (facts table.now).last_worker) }
{
    0 < table.table().connected_count()
}

/// The state of a needed key that is not held: whether its dependencies are held, it is on a worker, and a worker is
/// connected.
fn waiting_phase(is_fed: bool, is_placed: bool, has_workers: bool) -> Phase
    ensures { result ≡ cond (not is_fed) Waiting (cond is_placed Processing (cond (not has_workers) NoWorker Queued)) }
{
    if !is_fed {
        Phase::Waiting
    } else if is_placed {
        Phase::Processing
    } else if !has_workers {
        Phase::NoWorker
    } else {
        Phase::Queued
    }
}

/// The first state that fits, where `rest` is that of a needed key that is not held.
fn first_phase(is_known: bool, is_erred: bool, is_needed: bool, is_held: bool, rest: Phase) -> Phase
    ensures { result ≡ cond (not is_known) Forgotten (cond is_erred Erred (cond (not is_needed) Released (cond is_held Memory rest))) }
{
    if !is_known {
        Phase::Forgotten
    } else if is_erred {
        Phase::Erred
    } else if !is_needed {
        Phase::Released
    } else if is_held {
        Phase::Memory
    } else {
        rest
    }
}
