//! Ready keys are placed.
ghost use Rattle.std.specs.Prelude.{◌≡◌, ◌+◌, ◌<◌, ◌^◌, ◌&&◌, true, None, Some, IfSome, is_none, length};
ghost use Rattle.cluster_rules.specs.Sched.{keys, ready, connected, workers};
ghost use Rattle.cluster_rules.specs.Policies.{place};
ghost use Rattle.cluster_rules.specs.SchedStep.{give, place_one, place_all};
ghost use Rattle.key_sets.specs.Sets.{IsFirst};
ghost use Rattle.task_table.specs.Tasks.{facts, is_root};
ghost use Rattle.sched_changes.specs.Follows.{Follows};
ghost use Rattle.scheduler_core.specs.Roots.{RootsWait, is_due};
ghost use Rattle.scheduler_core.specs.Firsts.{earlier};

use cluster_rules::Facts;
use placement::place;
use sched_changes::asking::place_of;
use sched_changes::make;
use task_table::{Change, TaskTable};

/// Each ready key that is on no worker is placed, where it has a candidate, in ascending order. It visits the keys that
/// wait for a worker: those with dependencies where a worker is connected, since each of them has a place then, and those
/// without until one of them finds none.
pub fn place_ready(table: &mut TaskTable)
    requires { (facts table.old).counter + keys (facts table.old) < 2 ^ 62 }
    ensures facts { facts table.new ≡ place_all (facts table.old) }
    ensures follows { Follows table.old table.new }
{
    let has_workers = 0 < worker_count(table);
    if has_workers {
        place_queued(table);
    }
}

/// How many workers are connected.
fn worker_count(table: &TaskTable) -> u32
    ensures { result ≡ length (workers (facts table.now)) }
{
    table.table().connected_count()
}

/// The same, whether a worker is connected or not.
fn place_queued(table: &mut TaskTable)
    requires { (facts table.old).counter + keys (facts table.old) < 2 ^ 62 }
    ensures facts { facts table.new ≡ place_all (facts table.old) }
    ensures follows { Follows table.old table.new }
{
    table.sound();
    let mut roots_wait = false;
    let mut from = 0;
    while let Some(key) = next_due(table, from, roots_wait) {
        roots_wait = take_turn(table, key, roots_wait);
        from = key + 1;
    }
}

/// The first key from this one on that waits for a worker. Keys without dependencies don't count where they wait in vain.
fn next_due(table: &TaskTable, from: u32, roots_wait: bool) -> Option<u32>
    ensures first { IsFirst (is_due (facts table.now) roots_wait) from result }
    ensures within { IfSome result (λ k. k < keys (facts table.now)) }
{
    table.sound();
    if roots_wait {
        table.first_other(from)
    } else {
        earlier(table.first_root(from), table.first_other(from))
    }
}

/// The earlier of two keys.
fn earlier(one: Option<u32>, other: Option<u32>) -> Option<u32>
    ensures { result ≡ earlier one other }
{
    match one {
        Some(first) => Some(first_of(first, other)),
        None => other,
    }
}

/// The earlier of a key and another, where there is another.
fn first_of(first: u32, other: Option<u32>) -> u32
    ensures { Some result ≡ earlier (Some first) other }
{
    match other {
        Some(second) if second < first => second,
        _ => first,
    }
}

/// The turn of a key that waits for a worker. Answers whether the keys without dependencies wait in vain from here on:
/// once one of them found no worker none finds one, since placing only fills workers.
fn take_turn(table: &mut TaskTable, key: u32, roots_wait: bool) -> bool
    requires due { is_due (facts table.old) roots_wait key ≡ true }
    requires room { (facts table.old).counter < 2 ^ 62 }
    requires roots { roots_wait ≡ true → RootsWait (facts table.old) }
    ensures placed { facts table.new ≡ place_one (facts table.old) key }
    ensures follows { Follows table.old table.new }
    ensures roots { result ≡ true → RootsWait (facts table.new) }
{
    table.sound();
    let is_root = has_no_deps(table, key);
    place_free(table, key);
    roots_wait | (is_root & is_left(table, key))
}

/// Whether the key has no dependencies.
fn has_no_deps(table: &TaskTable, key: u32) -> bool
    requires { key < keys (facts table.now) }
    ensures { result ≡ is_root (facts table.now) key }
{
    table.table().shape().deps(key).is_empty()
}

/// Whether the key is ready and on no worker.
fn is_left(table: &TaskTable, key: u32) -> bool
    ensures { result ≡ (ready (facts table.now) key && is_none ((facts table.now).on key)) }
{
    table.is_ready(key) & place_of(table, key).is_none()
}

/// A key that is on no worker is placed, where it has a candidate.
fn place_free(table: &mut TaskTable, key: u32)
    requires key { key < keys (facts table.old) }
    requires free { (facts table.old).on key ≡ None }
    requires room { (facts table.old).counter < 2 ^ 62 }
    ensures facts { facts table.new ≡ give (facts table.old) key (place (facts table.old) key) }
    ensures follows { Follows table.old table.new }
{
    let to = choose(table, key);
    give_to(table, key, to);
}

/// Where the key goes.
fn choose(table: &TaskTable, key: u32) -> Option<u32>
    requires { key < keys (facts table.now) }
    ensures { result ≡ place (facts table.now) key }
{
    place(table, table.table().shape(), key)
}

/// The key, which is on no worker, is given to the worker, if there is one.
fn give_to(table: &mut TaskTable, key: u32, to: Option<u32>)
    requires key { key < keys (facts table.old) }
    requires place { to ≡ place (facts table.old) key }
    requires free { (facts table.old).on key ≡ None }
    requires room { (facts table.old).counter < 2 ^ 62 }
    ensures facts { facts table.new ≡ give (facts table.old) key to }
    ensures follows { Follows table.old table.new }
{
    match to {
        Some(worker) => give(table, key, worker),
        None => {}
    }
}

/// The key, which is on no worker, is given to the worker under a new attempt.
fn give(table: &mut TaskTable, key: u32, worker: u32)
    requires key { key < keys (facts table.old) }
    requires worker { connected (facts table.old) worker ≡ true }
    requires free { (facts table.old).on key ≡ None }
    requires room { (facts table.old).counter < 2 ^ 62 }
    ensures facts { facts table.new ≡ give (facts table.old) key (Some worker) }
    ensures follows { Follows table.old table.new }
{
    table.sound();
    make(table, Change::Assign { key, worker });
}
