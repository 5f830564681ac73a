//! A worker leaves.
ghost use Rattle.std.specs.Prelude.{◌≡◌, ℕ, ◌<◌, ◌^◌, ◌||◌, true, None, IfSome};
ghost use Rattle.cluster_rules.specs.Functions.{put, put_pair};
ghost use Rattle.cluster_rules.specs.Sched.{keys, connected, is_above};
ghost use Rattle.cluster_rules.specs.SchedTable.{left};
ghost use Rattle.key_sets.specs.Sets.{IsFirst};
ghost use Rattle.task_table.specs.Lists.{is_at};
ghost use Rattle.task_table.specs.Tasks.{facts};
ghost use Rattle.sched_changes.specs.Follows.{Follows};
ghost use Rattle.sched_facts.specs.Kept.{lost_place, taken_back, left_key, left_below};

use crate::asking::{allowed_of, losses_of, place_of};
use crate::making::make;
use cluster_rules::Facts;
use sched_facts::table::is_on_worker;
use task_table::{Change, TaskTable};

/// Leave: the worker, what it holds, what it was given and the steals of that go; each key that it was given has one loss
/// more, and an error of its own where that is one more than is allowed. It goes over these keys alone.
pub fn leave(table: &mut TaskTable, worker: u32)
    requires worker { connected (facts table.old) worker ≡ true }
    requires room { (k : ℕ) → (facts table.old).losses k < 2 ^ 31 }
    ensures facts { facts table.new ≡ left (facts table.old) worker }
    ensures follows { Follows table.old table.new }
{
    table.sound();
    bare(table, worker);
    make(table, Change::Disconnect { worker });
}

/// The worker holds no key and has none.
fn bare(table: &mut TaskTable, worker: u32)
    requires worker { connected (facts table.old) worker ≡ true }
    requires room { (k : ℕ) → (facts table.old).losses k < 2 ^ 31 }
    ensures facts { facts table.new ≡ left_below worker (facts table.old) (keys (facts table.old)) }
    ensures follows { Follows table.old table.new }
{
    table.sound();
    let mut from = 0;
    while let Some(key) = first_at(table, worker, from) {
        bare_key(table, worker, key);
        from = key + 1;
    }
}

/// The first key from this one on that the worker holds or has. It is a key.
fn first_at(table: &TaskTable, worker: u32, from: u32) -> Option<u32>
    ensures first { IsFirst (is_at (facts table.now) worker) from result }
    ensures within { IfSome result (λ k. k < keys (facts table.now)) }
{
    table.sound();
    table.first_at(worker, from)
}

/// The worker does not hold the key and does not have it.
fn bare_key(table: &mut TaskTable, worker: u32, key: u32)
    requires worker { connected (facts table.old) worker ≡ true }
    requires key { key < keys (facts table.old) }
    requires room { (facts table.old).losses key < 2 ^ 31 }
    ensures facts { facts table.new ≡ left_key worker (facts table.old) key }
    ensures follows { Follows table.old table.new }
{
    lose(table, worker, key);
    take_back(table, worker, key);
}

/// The worker does not hold the key.
fn lose(table: &mut TaskTable, worker: u32, key: u32)
    requires worker { connected (facts table.old) worker ≡ true }
    requires key { key < keys (facts table.old) }
    ensures facts { facts table.new ≡ record (facts table.old) { has = put_pair (facts table.old).has worker key None } }
    ensures follows { Follows table.old table.new }
{
    let does_hold = table.holds(worker, key);
    if does_hold {
        make(table, Change::Lose { worker, key });
    }
}

/// The worker does not have the key.
fn take_back(table: &mut TaskTable, worker: u32, key: u32)
    requires key { key < keys (facts table.old) }
    requires room { (facts table.old).losses key < 2 ^ 31 }
    ensures facts { facts table.new ≡ taken_back (facts table.old) worker key }
    ensures follows { Follows table.old table.new }
{
    let is_there = is_on_worker(worker, place_of(table, key));
    if is_there {
        end_by_loss(table, key);
    }
}

/// The attempt of the key is over, since its worker left: it has one loss more, and an error of its own where that is one
/// more than is allowed.
fn end_by_loss(table: &mut TaskTable, key: u32)
    requires key { key < keys (facts table.old) }
    requires room { (facts table.old).losses key < 2 ^ 31 }
    ensures facts { facts table.new ≡ lost_place (facts table.old) key }
    ensures follows { Follows table.old table.new }
{
    let losses = losses_of(table, key) + 1;
    let is_too_often = is_above(allowed_of(table), losses);
    make(table, Change::Unassign { key });
    make(table, Change::Count { key });
    fail_where(table, key, is_too_often);
}

/// The key has an error of its own, where this is so.
fn fail_where(table: &mut TaskTable, key: u32, is: bool)
    requires { key < keys (facts table.old) }
    ensures facts { facts table.new ≡ record (facts table.old) { bad = put (facts table.old).bad key ((facts table.old).bad key || is) } }
    ensures follows { Follows table.old table.new }
{
    if is {
        make(table, Change::Fail { key });
    }
}

/// Whether so many losses are more than are allowed.
pub fn is_above(allowed: Option<u32>, losses: u32) -> bool
    ensures { result ≡ is_above allowed losses }
{
    match allowed {
        None => false,
        Some(most) => most < losses,
    }
}
