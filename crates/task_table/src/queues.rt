//! The ready keys that are on no worker.
ghost use Rattle.std.specs.Prelude.{◌≡◌, ℕ, ◌<◌, ◌≤◌, ◌==◌, true, false, cond, IfOk};
ghost use Rattle.cluster_rules.specs.Sched.{keys};
ghost use Rattle.sched_facts.specs.Stored.{facts_of};
ghost use Rattle.key_sets.specs.Sets.{has, room};
ghost use Rattle.spread_flags.specs.Spread.{size};
ghost use Rattle.task_table.specs.Standing.{is_queued_by, root_by, other_by};
ghost use Rattle.task_table.specs.Parts.{HasRooms, SameRooms};

use crate::levels::{Levels, is_ready_by};
use key_sets::KeySet;
use sched_facts::FactTable;
use std::alloc::{AllocError, Global};

/// The ready keys that are on no worker: those without dependencies, and the others.
#[derive(Drop)]
pub struct Queues {
    pub roots: KeySet,
    pub others: KeySet,
}

impl Queues {
    /// Empty queues, with room for so many keys.
    ///
    /// # Errors
    /// Where no memory is left.
    pub fn new(alloc: Global, count: u32) -> Result<Queues, AllocError>
        requires { count ≤ 32768 }
        ensures roots { IfOk result (λ queues. (k : ℕ) → has queues.roots k ≡ false) }
        ensures others { IfOk result (λ queues. (k : ℕ) → has queues.others k ≡ false) }
        ensures root_room { IfOk result (λ queues. count ≤ room queues.roots) }
        ensures other_room { IfOk result (λ queues. count ≤ room queues.others) }
    {
        let roots = KeySet::new(alloc, count)?;
        let others = KeySet::new(alloc, count)?;
        Ok(Queues { roots, others })
    }
}

/// The key is in the set or not.
fn place_in(set: &mut KeySet, key: u32, to: bool)
    requires { key < room set.old }
    ensures keys { (k : ℕ) → has set.new k ≡ cond (k == key) to (has set.old k) }
    ensures room { room set.new ≡ room set.old }
{
    if to {
        set.insert(key);
    } else {
        set.remove(key);
    }
}

/// Whether the key is ready by the flags, and on no worker.
fn is_queued_by(table: &FactTable, levels: &Levels, key: u32) -> bool
    requires { key < size levels.now.missing }
    ensures { result ≡ is_queued_by (facts_of table.now) levels.now key }
{
    let is_ready = is_ready_by(levels, key);
    is_ready & table.on(key).is_none()
}

/// The key is in the queue that it belongs in by the flags, or in none.
fn requeue(table: &FactTable, levels: &Levels, queues: &mut Queues, key: u32)
    requires key { key < keys (facts_of table.now) }
    requires size { size levels.now.missing ≡ keys (facts_of table.now) }
    requires rooms { HasRooms (keys (facts_of table.now)) queues.old }
    ensures roots { (k : ℕ) → has queues.new.roots k ≡ cond (k == key) (root_by (facts_of table.now) levels.now k) (has queues.old.roots k) }
    ensures others { (k : ℕ) → has queues.new.others k ≡ cond (k == key) (other_by (facts_of table.now) levels.now k) (has queues.old.others k) }
    ensures rooms { SameRooms queues.old queues.new }
{
    let is_queued = is_queued_by(table, levels, key);
    let is_root = table.shape().deps(key).is_empty();
    place_in(&mut queues.roots, key, is_queued & is_root);
    place_in(&mut queues.others, key, is_queued & !is_root);
}

/// Each marked key is in the queue that it belongs in by the flags, or in none.
pub fn requeue_all(table: &FactTable, levels: &Levels, queues: &mut Queues, marks: &KeySet)
    requires marks { (k : ℕ) → has marks.now k ≡ true → k < keys (facts_of table.now) }
    requires size { size levels.now.missing ≡ keys (facts_of table.now) }
    requires rooms { HasRooms (keys (facts_of table.now)) queues.old }
    ensures roots { (k : ℕ) → has queues.new.roots k ≡ cond (has marks.now k) (root_by (facts_of table.now) levels.now k) (has queues.old.roots k) }
    ensures others { (k : ℕ) → has queues.new.others k ≡ cond (has marks.now k) (other_by (facts_of table.now) levels.now k) (has queues.old.others k) }
    ensures rooms { SameRooms queues.old queues.new }
{
    table.sound();
    let mut from = 0;
    while let Some(key) = marks.first_from(from) {
        requeue(table, levels, queues, key);
        from = key + 1;
    }
}
