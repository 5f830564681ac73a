//! What the workers are told.
ghost use Rattle.std.specs.Prelude.{◌≡◌, ℕ, ◌<◌, ◌++◌, ◌∷◌, ◌==◌, [], false, cond, length, OnOk};
ghost use Rattle.std.specs.List.{flat_map};
ghost use Rattle.cluster_msgs.specs.declared.messages.Down.TheVariants.{AcquireReplicas, RefreshWhoHas, RemoveReplicas};
ghost use Rattle.cluster_rules.specs.Sched.{keys, connected, workers, who_has};
ghost use Rattle.cluster_rules.specs.SchedTable.{ask_message};
ghost use Rattle.cluster_rules.specs.SchedStep.{all_to};
ghost use Rattle.sched_facts.specs.Stored.{facts_of};
ghost use Rattle.key_sets.specs.Sets.{has};
ghost use Rattle.task_table.specs.Tasks.{facts};
ghost use Rattle.sched_changes.specs.Answers.{answer_of};
ghost use Rattle.scheduler_core.specs.Mail.{is_since, worker_mail, mail_by, lost_by, given_keys};

use crate::copies::who_has;
use crate::lost::{by_worker, lost_keys, own_keys, tell_lost};
use crate::tasks::{given_keys, tell_tasks};
use cluster_msgs::{Down, KeyList, Sequence};
use cluster_rules::Facts;
use sched_changes::Answer;
use sched_facts::FactTable;
use std::alloc::{AllocError, Global};
use task_table::TaskTable;

/// What one event has for the workers.
#[derive(Drop)]
struct Errand {
    /// The keys that went, worker by worker.
    lost: Vec<KeyList>,
    /// Where the counter stood before the event.
    since: u64,
    /// The keys that were given since, ascending.
    given: KeyList,
    answer: Answer,
}

/// Appends one event's messages to the connected workers, in ascending order: to each first one message with all keys
/// that it lost, then a message for each key that it was given since the counter stood there, then its answer.
///
/// `lost` has pairs of worker and key, in any order and any number of times. The names of the messages are those of
/// Dask.distributed (<https://distributed.dask.org/en/stable/scheduling-state.html>).
///
/// # Errors
/// Where no memory is left; nothing is said of the list then.
pub fn tell_workers(
    alloc: Global,
    table: &TaskTable,
    lost: &Sequence<(u32, u32)>,
    since: u64,
    answer: Answer,
    out: &mut Sequence<(u32, Down)>,
) -> Result<(), AllocError>
    requires { (k : ℕ) → k < keys (facts table.now) → has table.now.touched k ≡ false → is_since since ((facts table.now).on k) ≡ false }
    ensures { OnOk result (out.new ≡ out.old ++ flat_map (worker_mail (facts table.now) lost.now since answer) (workers (facts table.now))) }
{
    let errand = Errand {
        lost: by_worker(alloc, lost.as_slice(), table.last_worker())?,
        since,
        given: given_keys(alloc, table, since)?,
        answer,
    };
    tell_each(alloc, table.table(), &errand, out)
}

/// Appends the messages to the connected workers.
fn tell_each(
    alloc: Global,
    table: &FactTable,
    errand: &Errand,
    out: &mut Sequence<(u32, Down)>,
) -> Result<(), AllocError>
    requires given { errand.now.given ≡ given_keys (facts_of table.now) errand.now.since }
    requires lost { (facts_of table.now).last_worker < length errand.now.lost.items }
    ensures { OnOk result (out.new ≡ out.old ++ flat_map (mail_by (facts_of table.now) (lost_by errand.now.lost.items) errand.now.since errand.now.answer) (workers (facts_of table.now))) }
{
    for before in 0..table.last_worker() {
        tell_connected(alloc, table, errand, 1 + before, out)?;
    }
    Ok(())
}

/// Appends the messages to one worker, where it is connected.
fn tell_connected(
    alloc: Global,
    table: &FactTable,
    errand: &Errand,
    worker: u32,
    out: &mut Sequence<(u32, Down)>,
) -> Result<(), AllocError>
    requires given { errand.now.given ≡ given_keys (facts_of table.now) errand.now.since }
    requires lost { worker < length errand.now.lost.items }
    ensures { OnOk result (out.new ≡ out.old ++ cond (connected (facts_of table.now) worker) (mail_by (facts_of table.now) (lost_by errand.now.lost.items) errand.now.since errand.now.answer worker) []) }
{
    if table.is_connected(worker) {
        return tell_worker(alloc, table, errand, worker, out);
    }
    Ok(())
}

/// Appends the messages to one worker.
fn tell_worker(
    alloc: Global,
    table: &FactTable,
    errand: &Errand,
    worker: u32,
    out: &mut Sequence<(u32, Down)>,
) -> Result<(), AllocError>
    requires given { errand.now.given ≡ given_keys (facts_of table.now) errand.now.since }
    requires lost { worker < length errand.now.lost.items }
    ensures { OnOk result (out.new ≡ out.old ++ mail_by (facts_of table.now) (lost_by errand.now.lost.items) errand.now.since errand.now.answer worker) }
{
    table.sound();
    let own = own_keys(&errand.lost, worker);
    let keys = lost_keys(alloc, own, table.keys())?;
    tell_lost(worker, keys, out)?;
    tell_tasks(
        alloc,
        table,
        errand.since,
        errand.given.as_slice(),
        worker,
        out,
    )?;
    tell_answer(alloc, table, errand.answer, worker, out)
}

/// Appends the answer, where it is to this worker.
fn tell_answer(
    alloc: Global,
    table: &FactTable,
    answer: Answer,
    worker: u32,
    out: &mut Sequence<(u32, Down)>,
) -> Result<(), AllocError>
    ensures { OnOk result (out.new ≡ out.old ++ all_to worker (answer_of answer (facts_of table.now) worker)) }
{
    match answer {
        Answer::Nothing => Ok(()),
        Answer::Refresh { worker: asker, key } => {
            tell_holders(alloc, table, worker == asker, worker, key, out)
        }
        Answer::AskBack { key } => ask_back(table.on(key), worker, key, out),
        Answer::Remove {
            worker: holder,
            key,
        } => tell_remove(alloc, worker == holder, worker, key, out),
        Answer::Acquire { worker: taker, key } => tell_acquire(
            alloc,
            table,
            worker == taker,
            worker,
            key,
            out,
        ),
    }
}

/// Appends who holds the key, where the worker is to know.
fn tell_holders(
    alloc: Global,
    table: &FactTable,
    is: bool,
    worker: u32,
    key: u32,
    out: &mut Sequence<(u32, Down)>,
) -> Result<(), AllocError>
    ensures { OnOk result (out.new ≡ out.old ++ cond is ((worker, RefreshWhoHas (who_has (facts_of table.now) (key ∷ []))) ∷ []) []) }
{
    if is {
        let who_has = who_has(alloc, table, &[key])?;
        out.push((worker, Down::RefreshWhoHas { who_has }))?;
    }
    Ok(())
}

/// Appends the request to give the key back, where it is at this worker.
fn ask_back(
    place: Option<(u32, u64)>,
    worker: u32,
    key: u32,
    out: &mut Sequence<(u32, Down)>,
) -> Result<(), AllocError>
    ensures { OnOk result (out.new ≡ out.old ++ all_to worker (ask_message key place worker)) }
{
    if let Some((victim, attempt)) = place {
        if victim == worker {
            out.push((worker, Down::StealRequest { key, attempt }))?;
        }
    }
    Ok(())
}

/// Appends the order to remove the copy, where the worker is to.
fn tell_remove(
    alloc: Global,
    is: bool,
    worker: u32,
    key: u32,
    out: &mut Sequence<(u32, Down)>,
) -> Result<(), AllocError>
    ensures { OnOk result (out.new ≡ out.old ++ cond is ((worker, RemoveReplicas (key ∷ [])) ∷ []) []) }
{
    if is {
        let mut keys = KeyList::new(alloc);
        keys.push(key)?;
        out.push((worker, Down::RemoveReplicas { keys }))?;
    }
    Ok(())
}

/// Appends the order to get a copy, and from whom, where the worker is to.
fn tell_acquire(
    alloc: Global,
    table: &FactTable,
    is: bool,
    worker: u32,
    key: u32,
    out: &mut Sequence<(u32, Down)>,
) -> Result<(), AllocError>
    ensures { OnOk result (out.new ≡ out.old ++ cond is ((worker, AcquireReplicas (who_has (facts_of table.now) (key ∷ []))) ∷ []) []) }
{
    if is {
        let who_has = who_has(alloc, table, &[key])?;
        out.push((worker, Down::AcquireReplicas { who_has }))?;
    }
    Ok(())
}
