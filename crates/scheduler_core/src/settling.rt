//! What settling takes away: errors of keys that are not known, copies of keys that are not needed, and places of keys
//! that are not ready. Each walk visits the touched keys alone: of all others there is nothing to take.
ghost use Rattle.std.specs.Prelude.{◌≡◌, ℕ, ◌<◌, ◌==◌, ◌&&◌, ◌||◌, not, true, false, None, OnOk, ◌++◌, ◌∷◌, []};
ghost use Rattle.cluster_rules.specs.Functions.{put, put_pair};
ghost use Rattle.cluster_rules.specs.Sched.{keys, known, need, ready, holds, is_on};
ghost use Rattle.cluster_rules.specs.SchedStep.{drop_bad, drop_has, drop_on};
ghost use Rattle.task_table.specs.Tasks.{facts};
ghost use Rattle.sched_changes.specs.Pairs.{has_pair};
ghost use Rattle.sched_changes.specs.Follows.{Follows};
ghost use Rattle.scheduler_core.specs.Dropped.{forgiven, held_nowhere, placed_nowhere};
ghost use Rattle.scheduler_core.specs.Settling.{let_go, goes, copy_goes, place_goes};
ghost use Rattle.scheduler_core.specs.Tidy.{IsTidy};

use crate::walk::next_touched;
use cluster_rules::Facts;
use sched_changes::asking::losses_of;
use sched_changes::{Pairs, make};
use std::alloc::AllocError;
use task_table::{Change, TaskTable};

/// Keys that are not known are no longer bad, then keys that are not needed are held nowhere, then keys that are not
/// ready are on no worker. The pairs that go are added to `lost`.
///
/// # Errors
/// Where no memory is left. The table follows from what it was.
pub fn let_go(table: &mut TaskTable, lost: &mut Pairs) -> Result<(), AllocError>
    requires { IsTidy table.old }
    ensures facts { OnOk result (facts table.new ≡ let_go (facts table.old)) }
    ensures lost { OnOk result ((w k : ℕ) → has_pair lost.new w k ≡ (has_pair lost.old w k || goes (facts table.old) w k)) }
    ensures follows { Follows table.old table.new }
{
    forget_errors(table);
    drop_copies(table, lost)?;
    drop_places(table, lost)
}

/// Keys that are not known are not bad and have no losses.
fn forget_errors(table: &mut TaskTable)
    requires { IsTidy table.old }
    ensures facts { facts table.new ≡ drop_bad (facts table.old) }
    ensures follows { Follows table.old table.new }
{
    table.sound();
    let mut from = 0;
    while let Some(key) = next_touched(table, from) {
        forget_error(table, key);
        from = key + 1;
    }
}

/// The key is not bad and has no losses, unless it is known.
fn forget_error(table: &mut TaskTable, key: u32)
    requires { key < keys (facts table.old) }
    ensures facts { facts table.new ≡ forgiven (known (facts table.old) key) (facts table.old) key }
    ensures follows { Follows table.old table.new }
{
    let is_known = table.is_known(key);
    let has_any = is_bad(table, key) | (losses_of(table, key) > 0);
    let is_stale = has_any & !is_known;
    if is_stale {
        make(table, Change::Forgive { key });
    }
}

/// Whether the key has an error of its own.
fn is_bad(table: &TaskTable, key: u32) -> bool
    ensures { result ≡ (facts table.now).bad key }
{
    table.table().is_bad(key)
}

/// Keys that are not needed are held nowhere. The pairs that go are added to `lost`.
///
/// # Errors
/// Where no memory is left. The table follows from what it was.
fn drop_copies(table: &mut TaskTable, lost: &mut Pairs) -> Result<(), AllocError>
    requires { IsTidy table.old }
    ensures facts { OnOk result (facts table.new ≡ drop_has (facts table.old)) }
    ensures lost { OnOk result ((w k : ℕ) → has_pair lost.new w k ≡ (has_pair lost.old w k || copy_goes (facts table.old) w k)) }
    ensures follows { Follows table.old table.new }
{
    table.sound();
    let mut from = 0;
    while let Some(key) = next_touched(table, from) {
        drop_key(table, key, lost)?;
        from = key + 1;
    }
    Ok(())
}

/// The key is held nowhere, unless it is needed.
fn drop_key(table: &mut TaskTable, key: u32, lost: &mut Pairs) -> Result<(), AllocError>
    requires { key < keys (facts table.old) }
    ensures facts { OnOk result (facts table.new ≡ held_nowhere (need (facts table.old) key) (facts table.old) key) }
    ensures lost { OnOk result ((w k : ℕ) → has_pair lost.new w k ≡ (has_pair lost.old w k || (holds (facts table.old) w k && (k == key && not (need (facts table.old) key))))) }
    ensures follows { Follows table.old table.new }
{
    let is_needed = table.is_needed(key);
    if is_needed {
        Ok(())
    } else {
        drop_held(table, key, lost)
    }
}

/// The key is held nowhere; where it was not held nothing changes.
fn drop_held(table: &mut TaskTable, key: u32, lost: &mut Pairs) -> Result<(), AllocError>
    requires { key < keys (facts table.old) }
    ensures facts { OnOk result (facts table.new ≡ held_nowhere false (facts table.old) key) }
    ensures lost { OnOk result ((w k : ℕ) → has_pair lost.new w k ≡ (has_pair lost.old w k || (holds (facts table.old) w k && (k == key && not false)))) }
    ensures follows { Follows table.old table.new }
{
    table.sound();
    let is_held = table.held(key);
    if is_held {
        drop_everywhere(table, key, lost)
    } else {
        Ok(())
    }
}

/// The key is held nowhere.
fn drop_everywhere(table: &mut TaskTable, key: u32, lost: &mut Pairs) -> Result<(), AllocError>
    requires { key < keys (facts table.old) }
    ensures facts { OnOk result (facts table.new ≡ held_nowhere false (facts table.old) key) }
    ensures lost { OnOk result ((w k : ℕ) → has_pair lost.new w k ≡ (has_pair lost.old w k || (holds (facts table.old) w k && (k == key && not false)))) }
    ensures follows { Follows table.old table.new }
{
    table.sound();
    for before in 0..table.last_worker() {
        drop_at(table, before + 1, key, lost)?;
    }
    Ok(())
}

/// The worker does not hold the key.
fn drop_at(table: &mut TaskTable, worker: u32, key: u32, lost: &mut Pairs) -> Result<(), AllocError>
    requires { key < keys (facts table.old) }
    ensures facts { OnOk result (facts table.new ≡ record (facts table.old) { has = put_pair (facts table.old).has worker key None }) }
    ensures lost { OnOk result ((w k : ℕ) → has_pair lost.new w k ≡ (has_pair lost.old w k || (holds (facts table.old) w k && (w == worker && k == key)))) }
    ensures follows { Follows table.old table.new }
{
    let does_hold = table.holds(worker, key);
    if does_hold {
        take_copy(table, worker, key, lost)
    } else {
        Ok(())
    }
}

/// The worker, which holds the key, holds it no longer.
fn take_copy(
    table: &mut TaskTable,
    worker: u32,
    key: u32,
    lost: &mut Pairs,
) -> Result<(), AllocError>
    requires key { key < keys (facts table.old) }
    requires holds { holds (facts table.old) worker key ≡ true }
    ensures facts { OnOk result (facts table.new ≡ record (facts table.old) { has = put_pair (facts table.old).has worker key None }) }
    ensures lost { OnOk result (lost.new ≡ lost.old ++ (worker, key) ∷ []) }
    ensures follows { Follows table.old table.new }
{
    table.sound();
    make(table, Change::Lose { worker, key });
    lost.push((worker, key))
}

/// Keys that are not ready are on no worker. The pairs that go are added to `lost`.
///
/// # Errors
/// Where no memory is left. The table follows from what it was.
fn drop_places(table: &mut TaskTable, lost: &mut Pairs) -> Result<(), AllocError>
    requires { IsTidy table.old }
    ensures facts { OnOk result (facts table.new ≡ drop_on (facts table.old)) }
    ensures lost { OnOk result ((w k : ℕ) → has_pair lost.new w k ≡ (has_pair lost.old w k || place_goes (facts table.old) w k)) }
    ensures follows { Follows table.old table.new }
{
    table.sound();
    let mut from = 0;
    while let Some(key) = next_touched(table, from) {
        drop_place(table, key, lost)?;
        from = key + 1;
    }
    Ok(())
}

/// The key is on no worker, unless it is ready.
fn drop_place(table: &mut TaskTable, key: u32, lost: &mut Pairs) -> Result<(), AllocError>
    requires { key < keys (facts table.old) }
    ensures facts { OnOk result (facts table.new ≡ placed_nowhere (ready (facts table.old) key) (facts table.old) key) }
    ensures lost { OnOk result ((w k : ℕ) → has_pair lost.new w k ≡ (has_pair lost.old w k || (is_on (facts table.old) w k && (k == key && not (ready (facts table.old) key))))) }
    ensures follows { Follows table.old table.new }
{
    let is_ready = table.is_ready(key);
    if is_ready {
        Ok(())
    } else {
        drop_any_place(table, key, lost)
    }
}

/// The key is on no worker; where it was on none nothing changes.
fn drop_any_place(table: &mut TaskTable, key: u32, lost: &mut Pairs) -> Result<(), AllocError>
    requires { key < keys (facts table.old) }
    ensures facts { OnOk result (facts table.new ≡ placed_nowhere false (facts table.old) key) }
    ensures lost { OnOk result ((w k : ℕ) → has_pair lost.new w k ≡ (has_pair lost.old w k || (is_on (facts table.old) w k && (k == key && not false)))) }
    ensures follows { Follows table.old table.new }
{
    table.sound();
    let place = table.on(key);
    match place {
        Some(worker) => take_place(table, worker, key, lost),
        None => Ok(()),
    }
}

/// The key, which is on this worker, is on none.
fn take_place(
    table: &mut TaskTable,
    worker: u32,
    key: u32,
    lost: &mut Pairs,
) -> Result<(), AllocError>
    requires { key < keys (facts table.old) }
    ensures facts { OnOk result (facts table.new ≡ record (facts table.old) { on = put (facts table.old).on key None; steal = put (facts table.old).steal key None }) }
    ensures lost { OnOk result (lost.new ≡ lost.old ++ (worker, key) ∷ []) }
    ensures follows { Follows table.old table.new }
{
    make(table, Change::Unassign { key });
    lost.push((worker, key))
}
