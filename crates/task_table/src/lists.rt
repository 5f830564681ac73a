//! The keys on a worker, those that two workers or more hold, and those at each worker.
ghost use Rattle.std.specs.Prelude.{◌≡◌, ℕ, ◌<◌, ◌≤◌, ◌==◌, ◌&&◌, false, cond, Some, None, IfOk};
ghost use Rattle.std.specs.Option.{option_map};
ghost use Rattle.cluster_rules.specs.Sched.{keys};
ghost use Rattle.sched_facts.specs.Stored.{facts_of};
ghost use Rattle.key_sets.specs.Sets.{has, room};
ghost use Rattle.task_table.specs.Lists.{IsListed, IsListedBut, AreRows, in_row, is_at, is_placed, is_shared, names};

use crate::change::Change;
use crate::rows::{new_rows, put_in_row};
use key_sets::KeySet;
use sched_facts::FactTable;
use sched_facts::table::is_on_worker;
use std::alloc::{AllocError, Global};

/// Keys that are listed, so that whoever asks for them goes over no others.
#[derive(Drop)]
pub struct Lists {
    /// The keys on a worker.
    pub placed: KeySet,
    /// The keys that two workers or more hold.
    pub shared: KeySet,
    /// By worker: the keys that it holds or has.
    pub rows: Vec<KeySet>,
}

impl Lists {
    /// Empty lists, with room for so many keys.
    ///
    /// # Errors
    /// Where no memory is left.
    pub fn new(alloc: Global, count: u32) -> Result<Lists, AllocError>
        requires { count ≤ 32768 }
        ensures placed { IfOk result (λ lists. (k : ℕ) → has lists.placed k ≡ false) }
        ensures shared { IfOk result (λ lists. (k : ℕ) → has lists.shared k ≡ false) }
        ensures at { IfOk result (λ lists. (w k : ℕ) → in_row lists.rows.items w k ≡ false) }
        ensures placed_room { IfOk result (λ lists. count ≤ room lists.placed) }
        ensures shared_room { IfOk result (λ lists. count ≤ room lists.shared) }
        ensures rows { IfOk result (λ lists. AreRows count lists.rows.items) }
    {
        let placed = KeySet::new(alloc, count)?;
        let shared = KeySet::new(alloc, count)?;
        let rows = new_rows(alloc, count)?;
        Ok(Lists {
            placed,
            shared,
            rows,
        })
    }
}

/// The worker that a key is on.
pub fn worker_on(table: &FactTable, key: Option<u32>) -> Option<u32>
    ensures { (k : ℕ) → key ≡ Some k → result ≡ option_map (λ p. p.0) ((facts_of table.now).on k) }
{
    match key {
        Some(key) => worker_of_place(table.on(key)),
        None => None,
    }
}

/// The worker of a place.
fn worker_of_place(place: Option<(u32, u64)>) -> Option<u32>
    ensures { result ≡ option_map (λ p. p.0) place }
{
    match place {
        Some((worker, _)) => Some(worker),
        None => None,
    }
}

/// Whether the key is on a worker.
fn is_placed(table: &FactTable, key: u32) -> bool
    ensures { result ≡ is_placed (facts_of table.now) key }
{
    table.on(key).is_some()
}

/// Whether two workers or more hold the key.
fn is_shared(table: &FactTable, key: u32) -> bool
    ensures { result ≡ is_shared (facts_of table.now) key }
{
    1 < table.holder_count(key)
}

/// Whether the worker holds the key or has it.
fn is_at(table: &FactTable, worker: u32, key: u32) -> bool
    ensures { result ≡ is_at (facts_of table.now) worker key }
{
    table.holds(worker, key) | is_on_worker(worker, table.on(key))
}

/// The key is in the worker's set where the worker holds it or has it.
fn relist_at(table: &FactTable, rows: &mut Vec<KeySet>, worker: u32, key: u32)
    requires key { key < keys (facts_of table.now) }
    requires rows { AreRows (keys (facts_of table.now)) rows.old.items }
    ensures keys { (w k : ℕ) → in_row rows.new.items w k ≡ cond (worker == w && key == k) (is_at (facts_of table.now) worker key) (in_row rows.old.items w k) }
    ensures rows { AreRows (keys (facts_of table.now)) rows.new.items }
{
    table.sound();
    let to = is_at(table, worker, key);
    put_in_row(rows, table.keys(), worker, key, to);
}

/// The same, where there is such a worker.
fn relist_any(table: &FactTable, rows: &mut Vec<KeySet>, worker: Option<u32>, key: u32)
    requires key { key < keys (facts_of table.now) }
    requires rows { AreRows (keys (facts_of table.now)) rows.old.items }
    ensures keys { (w k : ℕ) → in_row rows.new.items w k ≡ cond (names worker w && key == k) (is_at (facts_of table.now) w key) (in_row rows.old.items w k) }
    ensures rows { AreRows (keys (facts_of table.now)) rows.new.items }
{
    match worker {
        Some(worker) => relist_at(table, rows, worker, key),
        None => {}
    }
}

/// The key is listed as the facts say, at these two workers too.
fn relist(table: &FactTable, lists: &mut Lists, key: u32, one: Option<u32>, other: Option<u32>)
    requires key { key < keys (facts_of table.now) }
    requires near { IsListedBut (facts_of table.now) lists.old key one other }
    ensures { IsListed (facts_of table.now) lists.new }
{
    table.sound();
    let placed = is_placed(table, key);
    let shared = is_shared(table, key);
    lists.placed.put(key, placed);
    lists.shared.put(key, shared);
    relist_any(table, &mut lists.rows, one, key);
    relist_any(table, &mut lists.rows, other, key);
}

/// The lists follow a change, where it is about a key at all. `other` is the worker that the key was on.
pub fn follow_lists(
    table: &FactTable,
    lists: &mut Lists,
    key: Option<u32>,
    one: Option<u32>,
    other: Option<u32>,
)
    requires low { (k : ℕ) → key ≡ Some k → k < keys (facts_of table.now) }
    requires near { (k : ℕ) → key ≡ Some k → IsListedBut (facts_of table.now) lists.old k one other }
    requires rest { key ≡ None → IsListed (facts_of table.now) lists.old }
    ensures { IsListed (facts_of table.now) lists.new }
{
    match key {
        Some(key) => relist(table, lists, key, one, other),
        None => {}
    }
}
