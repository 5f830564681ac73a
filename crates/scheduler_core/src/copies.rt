//! Who holds which copy.
ghost use Rattle.std.specs.Prelude.{◌≡◌, ◌<◌, ◌++◌, [], IfOk, OnOk};
ghost use Rattle.std.specs.List.{cons_option};
ghost use Rattle.std.specs.Option.{option_map};
ghost use Rattle.cluster_msgs.specs.Shape.{deps_of};
ghost use Rattle.cluster_rules.specs.Sched.{keys, holders, who_has};
ghost use Rattle.sched_facts.specs.Stored.{facts_of};

use cluster_msgs::{Holders, Sequence, WhoHas};
use sched_facts::FactTable;
use std::alloc::{AllocError, Global};

/// Who holds the key under which copy, in ascending order of the workers.
///
/// # Errors
/// Where no memory is left.
pub fn holders(alloc: Global, table: &FactTable, key: u32) -> Result<Holders, AllocError>
    ensures { IfOk result (λ all. all ≡ holders (facts_of table.now) key) }
{
    let mut all = Sequence::new(alloc);
    for before in 0..table.last_worker() {
        let worker = 1 + before;
        push_holder(&mut all, worker, table.copy_at(worker, key))?;
    }
    Ok(all)
}

/// Appends the worker with its copy, if it has one.
fn push_holder(all: &mut Holders, worker: u32, copy: Option<u64>) -> Result<(), AllocError>
    ensures { OnOk result (all.new ≡ all.old ++ cons_option (option_map (λ c. (worker, c)) copy) []) }
{
    if let Some(number) = copy {
        all.push((worker, number))?;
    }
    Ok(())
}

/// Who holds each of these keys.
///
/// # Errors
/// Where no memory is left.
pub fn who_has(alloc: Global, table: &FactTable, asked: &[u32]) -> Result<WhoHas, AllocError>
    ensures { IfOk result (λ all. all ≡ who_has (facts_of table.now) asked.now) }
{
    let mut all = Sequence::new(alloc);
    for key in asked {
        let of_key = holders(alloc, table, *key)?;
        all.push((*key, of_key))?;
    }
    Ok(all)
}

/// Who holds each dependency of the key.
///
/// # Errors
/// Where no memory is left.
pub fn who_has_deps(alloc: Global, table: &FactTable, key: u32) -> Result<WhoHas, AllocError>
    requires { key < keys (facts_of table.now) }
    ensures { IfOk result (λ all. all ≡ who_has (facts_of table.now) (deps_of (facts_of table.now).setting.shape key)) }
{
    who_has(alloc, table, table.shape().deps(key))
}
