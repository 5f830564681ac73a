//! The sets of keys that are kept beside the facts.
ghost use Rattle.std.specs.Prelude.{◌≡◌, ◌==◌, ℕ, ◌<◌, ◌≤◌, ◌^◌, nat_eq, cond, true, false, All, IfOk};
ghost use Rattle.std.specs.List.{list_any};
ghost use Rattle.cluster_msgs.specs.Shape.{key_count};
ghost use Rattle.cluster_rules.specs.Derived.{is_in};
ghost use Rattle.key_sets.specs.Sets.{has, room};
ghost use Rattle.worker_facts.specs.Stored.{facts_of};
ghost use Rattle.worker_table.specs.Parts.{Parts, parts};
ghost use Rattle.worker_table.specs.Plan.{IsAt, IsNowhere, HasRoom};

use key_sets::KeySet;
use std::alloc::{AllocError, Global};
use worker_facts::WorkerTable as FactTable;

/// The keys that run, the tasks that could start, the keys to fetch, and the missing keys whose holders the scheduler
/// wasn't asked for.
#[derive(Drop)]
pub struct Plan {
    pub runs: KeySet,
    pub ready: KeySet,
    pub fetch: KeySet,
    pub unasked: KeySet,
}

/// Puts the key into the set, or takes it out.
fn put(set: &mut KeySet, key: u32, to: bool)
    requires { key < room set.old }
    ensures keys { (k : ℕ) → has set.new k ≡ cond (nat_eq k key) to (has set.old k) }
    ensures room { room set.new ≡ room set.old }
{
    if to {
        set.insert(key);
    } else {
        set.remove(key);
    }
}

impl Plan {
    /// Empty sets with room for this many keys.
    ///
    /// # Errors
    /// Where no memory is left.
    pub fn new(alloc: Global, count: u32) -> Result<Plan, AllocError>
        requires { count ≤ 2 ^ 20 }
        ensures room { IfOk result (λ plan. HasRoom count plan) }
        ensures empty { IfOk result (λ plan. (k : ℕ) → IsNowhere plan k) }
    {
        let runs = KeySet::new(alloc, count)?;
        let ready = KeySet::new(alloc, count)?;
        let fetch = KeySet::new(alloc, count)?;
        let unasked = KeySet::new(alloc, count)?;
        Ok(Plan {
            runs,
            ready,
            fetch,
            unasked,
        })
    }

    /// Puts the key into the sets that it belongs to now. All other keys stay where they are.
    pub fn look(&mut self, facts: &FactTable, key: u32)
        requires key { key < key_count (facts_of facts.now).shape }
        requires room { HasRoom (key_count (facts_of facts.now).shape) self.old }
        ensures here { IsAt (parts (facts_of facts.now) key) self.new key }
        ensures others { (q : Parts) (k : ℕ) → nat_eq k key ≡ false → IsAt q self.old k → IsAt q self.new k }
        ensures room { (n : ℕ) → HasRoom n self.old → HasRoom n self.new }
    {
        put(&mut self.runs, key, facts.is_running(key));
        put(&mut self.ready, key, facts.is_ready(key));
        put(&mut self.fetch, key, facts.is_fetch(key));
        put(
            &mut self.unasked,
            key,
            facts.is_missing(key) & !facts.is_asked(key),
        );
    }

    /// The same of each of these keys.
    pub fn look_all(&mut self, facts: &FactTable, keys: &[u32])
        requires keys { All (λ k. k < key_count (facts_of facts.now).shape) keys.now }
        requires room { HasRoom (key_count (facts_of facts.now).shape) self.old }
        ensures here { (k : ℕ) → is_in k keys.now ≡ true → IsAt (parts (facts_of facts.now) k) self.new k }
        ensures others { (q : Parts) (k : ℕ) → is_in k keys.now ≡ false → IsAt q self.old k → IsAt q self.new k }
        ensures room { (n : ℕ) → HasRoom n self.old → HasRoom n self.new }
    {
        for key in keys {
            self.look(facts, *key);
        }
    }

    /// The same of the keys of these items.
    pub fn look_items(&mut self, facts: &FactTable, items: &[(u32, u64)])
        requires keys { All (λ i. i.0 < key_count (facts_of facts.now).shape) items.now }
        requires room { HasRoom (key_count (facts_of facts.now).shape) self.old }
        ensures here { (k : ℕ) → list_any (λ i. i.0 == k) items.now ≡ true → IsAt (parts (facts_of facts.now) k) self.new k }
        ensures others { (q : Parts) (k : ℕ) → list_any (λ i. i.0 == k) items.now ≡ false → IsAt q self.old k → IsAt q self.new k }
        ensures room { (n : ℕ) → HasRoom n self.old → HasRoom n self.new }
    {
        for item in items {
            self.look(facts, item.0);
        }
    }
}
