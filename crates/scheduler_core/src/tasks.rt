//! The keys that workers were given.
ghost use Rattle.std.specs.Prelude.{◌≡◌, ℕ, ◌++◌, ◌<◌, [], false, IfOk, OnOk};
ghost use Rattle.std.specs.List.{cons_option};
ghost use Rattle.cluster_rules.specs.Sched.{keys};
ghost use Rattle.cluster_rules.specs.SchedStep.{task_message, task_messages};
ghost use Rattle.sched_facts.specs.Stored.{facts_of};
ghost use Rattle.key_sets.specs.Sets.{has};
ghost use Rattle.task_table.specs.Tasks.{facts};
ghost use Rattle.scheduler_core.specs.Mail.{is_since, given_keys};

use crate::copies::who_has_deps;
use crate::lost::push_where;
use crate::walk::next_touched;
use cluster_msgs::{Down, KeyList, Sequence};
use cluster_rules::Facts;
use sched_changes::asking::place_of;
use sched_facts::FactTable;
use std::alloc::{AllocError, Global};
use task_table::TaskTable;

/// The keys that some worker was given since the counter stood there, ascending. All of them were touched.
///
/// # Errors
/// Where no memory is left.
pub fn given_keys(alloc: Global, table: &TaskTable, since: u64) -> Result<KeyList, AllocError>
    requires { (k : ℕ) → k < keys (facts table.now) → has table.now.touched k ≡ false → is_since since ((facts table.now).on k) ≡ false }
    ensures { IfOk result (λ all. all ≡ given_keys (facts table.now) since) }
{
    table.sound();
    let mut all = KeyList::new(alloc);
    let mut from = 0;
    while let Some(key) = next_touched(table, from) {
        push_where(is_since(since, place_of(table, key)), &mut all, key)?;
        from = key + 1;
    }
    Ok(all)
}

/// Whether the place was given since the counter stood there.
fn is_since(since: u64, place: Option<(u32, u64)>) -> bool
    ensures { result ≡ is_since since place }
{
    match place {
        Some((_, attempt)) => since <= attempt,
        None => false,
    }
}

/// Appends the messages for the keys that the worker was given since the counter stood there. `given` has the keys that
/// any worker was given since.
///
/// # Errors
/// Where no memory is left.
pub fn tell_tasks(
    alloc: Global,
    table: &FactTable,
    since: u64,
    given: &[u32],
    worker: u32,
    out: &mut Sequence<(u32, Down)>,
) -> Result<(), AllocError>
    requires { given.now ≡ given_keys (facts_of table.now) since }
    ensures { OnOk result (out.new ≡ out.old ++ task_messages (facts_of table.now) since worker) }
{
    for key in given {
        tell_task(alloc, table, since, worker, *key, out)?;
    }
    Ok(())
}

/// Appends the message for the key, where the worker was given it since then.
fn tell_task(
    alloc: Global,
    table: &FactTable,
    since: u64,
    worker: u32,
    key: u32,
    out: &mut Sequence<(u32, Down)>,
) -> Result<(), AllocError>
    ensures { OnOk result (out.new ≡ out.old ++ cons_option (task_message (facts_of table.now) since worker key ((facts_of table.now).on key)) []) }
{
    table.sound();
    if let Some((given_to, attempt)) = table.on(key) {
        if given_to == worker && since <= attempt {
            let who_has = who_has_deps(alloc, table, key)?;
            out.push((
                worker,
                Down::ComputeTask {
                    key,
                    attempt,
                    who_has,
                },
            ))?;
        }
    }
    Ok(())
}
