//! One event that is taken: its change, what settles, and what is to be sent.
ghost use Rattle.std.specs.Prelude.{◌≡◌, ℕ, ◌+◌, ◌*◌, ◌<◌, ◌≤◌, ◌^◌, ◌++◌, true, false, [], IfOk, OnOk, OnErr, length};
ghost use Rattle.std.specs.List.{cons_option};
ghost use Rattle.cluster_rules.specs.Sched.{keys};
ghost use Rattle.cluster_rules.specs.SchedTable.{sched_takes};
ghost use Rattle.cluster_rules.specs.SchedStep.{sched_step};
ghost use Rattle.cluster_laws.specs.Settled.{IsSettled};
ghost use Rattle.key_sets.specs.Sets.{has};
ghost use Rattle.task_table.specs.Tasks.{facts};
ghost use Rattle.sched_changes.specs.Choices.{steal_for, drop_for};
ghost use Rattle.scheduler_core.specs.Sent.{nothing, sent_by, appended, HasGrown};
ghost use Rattle.scheduler_core.specs.Courses.{IsCourse, IsCalm, told_by};

use crate::append::append_all;
use crate::asked::asked_set;
use crate::clients::tell_clients;
use crate::placing::place_ready;
use crate::posts::post_all;
use crate::settling::let_go;
use crate::workers::tell_workers;
use cluster_msgs::{KeyList, Outbox, SchedEvent, Steal};
use cluster_rules::Facts;
use key_sets::KeySet;
use sched_changes::asking::counter_of;
use sched_changes::{Effect, Pairs, apply};
use std::alloc::{AllocError, Global};
use task_table::TaskTable;

/// What an event left to be told, once the facts have settled.
#[derive(Drop)]
pub struct Course {
    /// The keys of the event's own want.
    pub asked: KeySet,
    /// Where the counter stood before it.
    pub since: u64,
    /// The pairs of worker and key that went.
    pub lost: Pairs,
    pub effect: Effect,
}

/// Carries an event out, and appends what is to be sent. After want of memory a front of each of its lists was appended,
/// maybe none of it. It takes a table whose facts have settled and of which no key is touched, and leaves one.
///
/// # Errors
/// Where no memory is left. The setting stays as it is.
pub fn carry_out(
    alloc: Global,
    table: &mut TaskTable,
    event: &SchedEvent,
    steal: Option<Steal>,
    drop: Option<(u32, u32)>,
    out: &mut Outbox,
) -> Result<(), AllocError>
    requires takes { sched_takes (facts table.old) event.now ≡ true }
    requires settled { IsSettled (facts table.old) }
    requires untouched { (k : ℕ) → has table.old.touched k ≡ false }
    requires steal { steal ≡ steal_for (facts table.old) event.now }
    requires drop { drop ≡ drop_for (facts table.old) event.now }
    requires room { (facts table.old).counter + 2 * keys (facts table.old) < 2 ^ 62 }
    requires finishes { (facts table.old).finishes < 2 ^ 62 }
    requires losses { (k : ℕ) → (facts table.old).losses k < 2 ^ 31 }
    requires sent { (w : ℕ) → (facts table.old).sent w + 3 * 2 ^ 20 < 2 ^ 62 }
    ensures facts { OnOk result (facts table.new ≡ (sched_step (facts table.old) event.now).facts) }
    ensures untouched { OnOk result ((k : ℕ) → has table.new.touched k ≡ false) }
    ensures few { OnOk result (length (sched_step (facts table.old) event.now).down ≤ 3 * 2 ^ 20) }
    ensures out { OnOk result (out.new ≡ appended out.old (sent_by (sched_step (facts table.old) event.now))) }
    ensures setting { (facts table.new).setting ≡ (facts table.old).setting }
    ensures err { OnErr result (HasGrown out.old (sent_by (sched_step (facts table.old) event.now)) out.new) }
{
    let mut made = Outbox::new(alloc);
    take(alloc, table, event, steal, drop, &mut made)?;
    append_all(out, made)
}

/// The table after the event, and what is to be sent.
fn take(
    alloc: Global,
    table: &mut TaskTable,
    event: &SchedEvent,
    steal: Option<Steal>,
    drop: Option<(u32, u32)>,
    made: &mut Outbox,
) -> Result<(), AllocError>
    requires takes { sched_takes (facts table.old) event.now ≡ true }
    requires settled { IsSettled (facts table.old) }
    requires untouched { (k : ℕ) → has table.old.touched k ≡ false }
    requires steal { steal ≡ steal_for (facts table.old) event.now }
    requires drop { drop ≡ drop_for (facts table.old) event.now }
    requires room { (facts table.old).counter + 2 * keys (facts table.old) < 2 ^ 62 }
    requires finishes { (facts table.old).finishes < 2 ^ 62 }
    requires losses { (k : ℕ) → (facts table.old).losses k < 2 ^ 31 }
    requires sent { (w : ℕ) → (facts table.old).sent w + 3 * 2 ^ 20 < 2 ^ 62 }
    requires made { made.old ≡ nothing }
    ensures facts { OnOk result (facts table.new ≡ (sched_step (facts table.old) event.now).facts) }
    ensures untouched { OnOk result ((k : ℕ) → has table.new.touched k ≡ false) }
    ensures few { OnOk result (length (sched_step (facts table.old) event.now).down ≤ 3 * 2 ^ 20) }
    ensures made { OnOk result (made.new ≡ sent_by (sched_step (facts table.old) event.now)) }
    ensures setting { (facts table.new).setting ≡ (facts table.old).setting }
{
    let course = settle(alloc, table, event, steal, drop)?;
    table.sound();
    tell(alloc, table, &course, made)?;
    post_all(table, made.down.as_slice());
    table.forget();
    Ok(())
}

/// The table once the event's facts have settled, and what is left to be told.
fn settle(
    alloc: Global,
    table: &mut TaskTable,
    event: &SchedEvent,
    steal: Option<Steal>,
    drop: Option<(u32, u32)>,
) -> Result<Course, AllocError>
    requires takes { sched_takes (facts table.old) event.now ≡ true }
    requires settled { IsSettled (facts table.old) }
    requires untouched { (k : ℕ) → has table.old.touched k ≡ false }
    requires steal { steal ≡ steal_for (facts table.old) event.now }
    requires drop { drop ≡ drop_for (facts table.old) event.now }
    requires room { (facts table.old).counter + 2 * keys (facts table.old) < 2 ^ 62 }
    requires finishes { (facts table.old).finishes < 2 ^ 62 }
    requires losses { (k : ℕ) → (facts table.old).losses k < 2 ^ 31 }
    ensures course { IfOk result (λ course. IsCourse table.old event.now table.new course) }
    ensures setting { (facts table.new).setting ≡ (facts table.old).setting }
{
    table.sound();
    table.remembered();
    table.table().fresh();
    let asked = asked_set(alloc, table, event)?;
    let since = counter_of(table);
    let mut lost = Pairs::new(alloc);
    let effect = apply(table, &mut lost, event, steal, drop)?;
    let_go(table, &mut lost)?;
    place_ready(table);
    Ok(Course {
        asked,
        since,
        lost,
        effect,
    })
}

/// What is to be sent, by the facts once they have settled.
fn tell(
    alloc: Global,
    table: &TaskTable,
    course: &Course,
    made: &mut Outbox,
) -> Result<(), AllocError>
    requires calm { IsCalm table.now course.now }
    requires made { made.old ≡ nothing }
    ensures { OnOk result (made.new ≡ told_by table.now course.now) }
{
    tell_workers(
        alloc,
        table,
        &course.lost,
        course.since,
        course.effect.answer,
        &mut made.down,
    )?;
    tell_clients(
        alloc,
        table,
        &course.asked,
        course.effect.reply,
        &mut made.clients,
    )?;
    note_joined(&mut made.joined, course.effect.joined)
}

/// Appends the number of a worker that joined, if one did.
fn note_joined(joined: &mut KeyList, number: Option<u32>) -> Result<(), AllocError>
    ensures { OnOk result (joined.new ≡ joined.old ++ cons_option number []) }
{
    match number {
        Some(number) => joined.push(number),
        None => Ok(()),
    }
}
