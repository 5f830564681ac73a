//! What is derived anew from the facts after an event: which keys are known, to blame, needed and ready, and how many wait.
ghost use Rattle.std.specs.Prelude.{◌≡◌, ℕ, ◌+◌, ◌<◌, ◌^◌, length, IfOk, false, true, None, Some, not, cond, ◌&&◌, ◌||◌, All, is_some};
ghost use Rattle.std.specs.List.{list_all};
ghost use Rattle.std.specs.List.Sorted.{IsStrictlyIncreasing};
ghost use Rattle.cluster_rules.specs.Sched.{keys, deps, held, wanted, known, need, ready, open_key, fed, blame, waiters};
ghost use Rattle.cluster_rules.specs.Derived.{reach, is_in};
ghost use Rattle.fact_rows.specs.Rows.{read};
ghost use Rattle.sched_facts.specs.Stored.{facts_of};
ghost use Rattle.sched_facts.specs.Derived.{IsSized, IsDerived, first_some};

use crate::table::FactTable;
use fact_rows::Row;
use std::alloc::{AllocError, Global};

/// A row for each derived fact. They are made once and refilled in place.
#[derive(Drop)]
pub struct DerivedRows {
    /// Set for each key.
    pub every: Row<bool>,
    pub known: Row<bool>,
    /// What an erred key is blamed on. Keys that are not erred have none.
    pub blame: Row<Option<u32>>,
    /// The keys that are neither held nor erred.
    pub open_keys: Row<bool>,
    pub need: Row<bool>,
    pub ready: Row<bool>,
    /// How many dependents are needed, not held and not erred.
    pub waiters: Row<u64>,
}

impl DerivedRows {
    /// Rows for this many keys, of which nothing is said yet.
    ///
    /// # Errors
    /// Where no memory is left.
    pub fn new(alloc: Global, keys: u32) -> Result<DerivedRows, AllocError>
        ensures sized { IfOk result (λ rows. IsSized keys rows) }
        ensures every { IfOk result (λ rows. (k : ℕ) → k < keys → read rows.every false k ≡ true) }
    {
        let count = keys as usize;
        Ok(DerivedRows {
            every: Row::filled(alloc, count, true)?,
            known: Row::filled(alloc, count, false)?,
            blame: Row::filled(alloc, count, None)?,
            open_keys: Row::filled(alloc, count, false)?,
            need: Row::filled(alloc, count, false)?,
            ready: Row::filled(alloc, count, false)?,
            waiters: Row::filled(alloc, count, 0)?,
        })
    }
}

/// All rows, of these facts.
pub fn refill(table: &FactTable, rows: &mut DerivedRows)
    requires sized { IsSized (keys (facts_of table.now)) rows.old }
    requires every { (k : ℕ) → k < keys (facts_of table.now) → read rows.old.every false k ≡ true }
    ensures derived { IsDerived (facts_of table.now) rows.new }
    ensures sized { IsSized (keys (facts_of table.now)) rows.new }
    ensures every { rows.new.every ≡ rows.old.every }
{
    fill_known(table, &rows.every, &mut rows.known);
    fill_blame(table, &mut rows.blame);
    fill_open(table, &rows.blame, &mut rows.open_keys);
    fill_need(table, &rows.open_keys, &mut rows.need);
    fill_ready(table, &rows.open_keys, &rows.need, &mut rows.ready);
    fill_waiters(table, &rows.open_keys, &rows.need, &mut rows.waiters);
}

/// The keys that some client wants.
fn fill_wanted(table: &FactTable, row: &mut Row<bool>)
    requires { length row.old ≡ keys (facts_of table.now) }
    ensures meaning { read row.new false ≡ wanted (facts_of table.now) }
    ensures length { length row.new ≡ length row.old }
{
    table.sound();
    for key in 0..table.keys() {
        row.set(key, table.is_wanted(key));
    }
}

/// The keys that are known, that is, in the cone of a wanted key. `every` is set for each key.
pub fn fill_known(table: &FactTable, every: &Row<bool>, row: &mut Row<bool>)
    requires length { length row.old ≡ keys (facts_of table.now) }
    requires every { (k : ℕ) → k < keys (facts_of table.now) → read every.now false k ≡ true }
    ensures meaning { read row.new false ≡ known (facts_of table.now) }
    ensures length { length row.new ≡ length row.old }
{
    fill_wanted(table, row);
    spread(table, row, every);
}

/// What each erred key is blamed on.
pub fn fill_blame(table: &FactTable, row: &mut Row<Option<u32>>)
    requires { length row.old ≡ keys (facts_of table.now) }
    ensures meaning { read row.new None ≡ blame (facts_of table.now) }
    ensures length { length row.new ≡ length row.old }
{
    table.sound();
    for key in 0..table.keys() {
        let to_blame = blame_of(table, row, key);
        row.set(key, to_blame);
    }
}

/// What the key is blamed on, where the row is right below it.
fn blame_of(table: &FactTable, row: &Row<Option<u32>>, key: u32) -> Option<u32>
    requires key { key < keys (facts_of table.now) }
    requires below { (j : ℕ) → j < key → read row.now None j ≡ blame (facts_of table.now) j }
    ensures { result ≡ blame (facts_of table.now) key }
{
    table.sound();
    let found = first_blame(row, table.shape().deps(key));
    choose_blame(table.is_held(key), table.is_bad(key), key, found)
}

/// The blame of a key by what is known of it: held keys have none, bad ones are blamed on themselves.
fn choose_blame(is_held: bool, is_bad: bool, key: u32, found: Option<u32>) -> Option<u32>
    ensures { result ≡ cond is_held None (cond is_bad (Some key) found) }
{
    if is_held {
        None
    } else if is_bad {
        Some(key)
    } else {
        found
    }
}

/// The blame of the first of these keys that has one.
fn first_blame(row: &Row<Option<u32>>, keys: &[u32]) -> Option<u32>
    ensures { result ≡ first_some (read row.now None) keys.now }
{
    let mut found = None;
    for key in keys {
        found = found.or(row.read(*key));
    }
    found
}

/// The keys that are neither held nor erred.
pub fn fill_open(table: &FactTable, blames: &Row<Option<u32>>, row: &mut Row<bool>)
    requires length { length row.old ≡ keys (facts_of table.now) }
    requires blame { read blames.now None ≡ blame (facts_of table.now) }
    ensures meaning { (k : ℕ) → k < keys (facts_of table.now) → read row.new false k ≡ open_key (facts_of table.now) k }
    ensures length { length row.new ≡ length row.old }
{
    table.sound();
    for key in 0..table.keys() {
        let is_open = !table.is_held(key) & !has_blame(blames, key);
        row.set(key, is_open);
    }
}

/// Whether the key is blamed on some key.
fn has_blame(blames: &Row<Option<u32>>, key: u32) -> bool
    ensures { result ≡ is_some (read blames.now None key) }
{
    blames.read(key).is_some()
}

/// The needed keys.
pub fn fill_need(table: &FactTable, open_keys: &Row<bool>, row: &mut Row<bool>)
    requires length { length row.old ≡ keys (facts_of table.now) }
    requires open_keys { (k : ℕ) → k < keys (facts_of table.now) → read open_keys.now false k ≡ open_key (facts_of table.now) k }
    ensures meaning { read row.new false ≡ need (facts_of table.now) }
    ensures length { length row.new ≡ length row.old }
{
    fill_wanted(table, row);
    spread(table, row, open_keys);
}

/// The keys that are ready: needed, neither held nor erred, and each dependency is held.
pub fn fill_ready(table: &FactTable, open_keys: &Row<bool>, needed: &Row<bool>, row: &mut Row<bool>)
    requires length { length row.old ≡ keys (facts_of table.now) }
    requires open_keys { (k : ℕ) → k < keys (facts_of table.now) → read open_keys.now false k ≡ open_key (facts_of table.now) k }
    requires need { read needed.now false ≡ need (facts_of table.now) }
    ensures meaning { read row.new false ≡ ready (facts_of table.now) }
    ensures length { length row.new ≡ length row.old }
{
    table.sound();
    for key in 0..table.keys() {
        let is_ready = (needed.test(key as usize) & open_keys.test(key as usize))
            & is_fed(table, key);
        row.set(key, is_ready);
    }
}

/// Whether each dependency is held.
pub fn is_fed(table: &FactTable, key: u32) -> bool
    requires { key < keys (facts_of table.now) }
    ensures { result ≡ fed (facts_of table.now) key }
{
    all_held(table, table.shape().deps(key))
}

/// Whether each of these keys is held.
fn all_held(table: &FactTable, keys: &[u32]) -> bool
    ensures { result ≡ list_all (held (facts_of table.now)) keys.now }
{
    for key in keys {
        if !table.is_held(*key) {
            return false;
        }
    }
    true
}

/// Marks what is reached from the marked keys down the dependencies, through keys that pass.
fn spread(table: &FactTable, row: &mut Row<bool>, pass: &Row<bool>)
    requires { length row.old ≡ keys (facts_of table.now) }
    ensures meaning { read row.new false ≡ reach (deps (facts_of table.now)) (keys (facts_of table.now)) (read row.old false) (read pass.now false) }
    ensures length { length row.new ≡ length row.old }
{
    table.sound();
    let count = table.keys();
    for done in 0..count {
        let key = count - 1 - done;
        let leads = pass.test(key as usize) & row.test(key as usize);
        mark_where(leads, row, table.shape().deps(key));
    }
}

/// Marks these keys, where they are to be marked.
fn mark_where(leads: bool, row: &mut Row<bool>, keys: &[u32])
    requires { All (λ k. k < length row.old) keys.now }
    ensures marked { (k : ℕ) → read row.new false k ≡ (read row.old false k || (is_in k keys.now && leads)) }
    ensures length { length row.new ≡ length row.old }
{
    if leads {
        mark(row, keys);
    }
}

/// Marks these keys.
fn mark(row: &mut Row<bool>, keys: &[u32])
    requires { All (λ k. k < length row.old) keys.now }
    ensures marked { read row.new false ≡ (λ k. read row.old false k || is_in k keys.now) }
    ensures length { length row.new ≡ length row.old }
{
    for key in keys {
        row.set(*key, true);
    }
}

/// How many dependents of each key are needed, not held and not erred.
pub fn fill_waiters(
    table: &FactTable,
    open_keys: &Row<bool>,
    needed: &Row<bool>,
    row: &mut Row<u64>,
)
    requires length { length row.old ≡ keys (facts_of table.now) }
    requires open_keys { (k : ℕ) → k < keys (facts_of table.now) → read open_keys.now false k ≡ open_key (facts_of table.now) k }
    requires need { read needed.now false ≡ need (facts_of table.now) }
    ensures meaning { read row.new 0 ≡ waiters (facts_of table.now) }
    ensures length { length row.new ≡ length row.old }
{
    table.sound();
    row.fill(0);
    for key in 0..table.keys() {
        let waits = needed.test(key as usize) & open_keys.test(key as usize);
        count_where(waits, row, table.shape().deps(key));
    }
}

/// One more waits for each of these keys, where it does.
fn count_where(waits: bool, row: &mut Row<u64>, keys: &[u32])
    requires keys { All (λ k. k < length row.old) keys.now }
    requires rising { IsStrictlyIncreasing keys.now }
    requires few { (k : ℕ) → read row.old 0 k < 2 ^ 32 }
    ensures counted { (k : ℕ) → read row.new 0 k ≡ read row.old 0 k + cond (is_in k keys.now && waits) 1 0 }
    ensures length { length row.new ≡ length row.old }
{
    if waits {
        count_all(row, keys);
    }
}

/// One more waits for each of these keys.
fn count_all(row: &mut Row<u64>, keys: &[u32])
    requires keys { All (λ k. k < length row.old) keys.now }
    requires rising { IsStrictlyIncreasing keys.now }
    requires few { (k : ℕ) → read row.old 0 k < 2 ^ 32 }
    ensures counted { (k : ℕ) → read row.new 0 k ≡ read row.old 0 k + cond (is_in k keys.now) 1 0 }
    ensures length { length row.new ≡ length row.old }
{
    for key in keys {
        let waiting = row.get(*key);
        row.set(*key, waiting + 1);
    }
}
