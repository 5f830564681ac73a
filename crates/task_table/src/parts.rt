//! What follows the facts: flags, queues and touched keys.
ghost use Rattle.std.specs.Prelude.{◌≡◌, ℕ, ◌<◌, Some, None, IfOk};
ghost use Rattle.cluster_msgs.specs.Shape.{key_count};
ghost use Rattle.cluster_rules.specs.Sched.{keys, sched_opening};
ghost use Rattle.sched_facts.specs.Stored.{facts_of};
ghost use Rattle.task_table.specs.Standing.{IsOver, IsBlank};
ghost use Rattle.task_table.specs.Parts.{IsParts, IsNearly, IsFollowed, IsRoomy, IsEmpty};

use crate::levels::{Levels, forget_changes, note, seed_all, settle};
use crate::marks::{add_marks, mark_levels};
use crate::queues::{Queues, requeue_all};
use cluster_msgs::GraphShape;
use key_sets::KeySet;
use sched_facts::FactTable;
use std::alloc::{AllocError, Global};

/// What follows the facts.
#[derive(Drop)]
pub struct Parts {
    pub levels: Levels,
    pub queues: Queues,
    /// The keys that one change touched. Empty between changes.
    pub marks: KeySet,
    /// The keys that were touched since touched keys were last forgotten.
    pub touched: KeySet,
}

impl Parts {
    /// Parts over this graph, of which nothing is said yet.
    ///
    /// # Errors
    /// Where no memory is left.
    pub fn new(alloc: Global, shape: &GraphShape) -> Result<Parts, AllocError>
        ensures over { IfOk result (λ parts. IsOver shape.now parts.levels) }
        ensures blank { IfOk result (λ parts. IsBlank parts.levels) }
        ensures roomy { IfOk result (λ parts. IsRoomy (key_count shape.now) parts) }
        ensures empty { IfOk result IsEmpty }
    {
        shape.sound();
        let levels = Levels::new(alloc, shape)?;
        let queues = Queues::new(alloc, shape.keys())?;
        let marks = KeySet::new(alloc, shape.keys())?;
        let touched = KeySet::new(alloc, shape.keys())?;
        Ok(Parts {
            levels,
            queues,
            marks,
            touched,
        })
    }
}

/// The parts follow a change that one key's facts made.
pub fn follow(table: &FactTable, parts: &mut Parts, key: u32)
    requires key { key < keys (facts_of table.now) }
    requires near { IsNearly (facts_of table.now) parts.old key }
    ensures parts { IsParts (facts_of table.now) parts.new }
    ensures followed { IsFollowed (keys (facts_of table.now)) parts.old parts.new key }
{
    table.sound();
    parts.levels.waiting.sound();
    parts.levels.missing.sound();
    note(table, &mut parts.levels, key);
    settle(table, &mut parts.levels);
    parts.levels.waiting.sound();
    parts.levels.missing.sound();
    parts.marks.insert(key);
    mark_levels(&parts.levels, &mut parts.marks, table.keys());
    requeue_all(table, &parts.levels, &mut parts.queues, &parts.marks);
    add_marks(table, &parts.marks, &mut parts.touched);
    parts.marks.clear();
    forget_changes(table, &mut parts.levels);
}

/// The same, where the change is about a key at all.
pub fn follow_any(table: &FactTable, parts: &mut Parts, key: Option<u32>)
    requires low { (k : ℕ) → key ≡ Some k → k < keys (facts_of table.now) }
    requires near { (k : ℕ) → key ≡ Some k → IsNearly (facts_of table.now) parts.old k }
    requires rest { key ≡ None → IsParts (facts_of table.now) parts.old }
    ensures parts { IsParts (facts_of table.now) parts.new }
    ensures followed { (k : ℕ) → key ≡ Some k → IsFollowed (keys (facts_of table.now)) parts.old parts.new k }
    ensures same { key ≡ None → parts.new ≡ parts.old }
{
    match key {
        Some(key) => follow(table, parts, key),
        None => {}
    }
}

/// The parts say what is derived of the opening facts.
pub fn begin(table: &FactTable, parts: &mut Parts)
    requires opening { facts_of table.now ≡ sched_opening (facts_of table.now).setting }
    requires over { IsOver (facts_of table.now).setting.shape parts.old.levels }
    requires blank { IsBlank parts.old.levels }
    requires roomy { IsRoomy (keys (facts_of table.now)) parts.old }
    requires empty { IsEmpty parts.old }
    ensures parts { IsParts (facts_of table.now) parts.new }
    ensures touched { parts.new.touched ≡ parts.old.touched }
{
    table.sound();
    seed_all(&mut parts.levels.missing);
    settle(table, &mut parts.levels);
    forget_changes(table, &mut parts.levels);
}
