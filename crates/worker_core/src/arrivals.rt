//! Blocks that come, and tasks that end.
#![tactic(auto)]

ghost use Rattle.std.specs.Prelude.{◌≡◌, ◌++◌, ◌∷◌, ◌<◌, All, [], None, IfOk, OnOk};
ghost use Rattle.cluster_msgs.specs.Shape.{key_count};
ghost use Rattle.cluster_rules.specs.WorkerStep.{into_mem, give_up, arrive, arrive_as, arrived, erred_as, done};
ghost use Rattle.worker_facts.specs.Stored.{facts_of};
ghost use Rattle.worker_core.specs.Core.{step_of, arrivals_of};

use crate::push::push_added;
use cluster_msgs::{Holders, Instruction, Instructions, KeyList, Up};
use std::alloc::{AllocError, Global};
use worker_table::WorkerTable;

/// A block comes: it is no longer asked for, sought or held elsewhere to be fetched.
fn take_in(alloc: Global, table: &mut WorkerTable, key: u32)
    requires { key < key_count (facts_of table.old).shape }
    ensures { facts_of table.new ≡ into_mem (facts_of table.old) key }
{
    table.set_in_memory(key, true);
    table.set_holders(key, Holders::new(alloc));
    table.set_asked(key, false);
    table.set_sought(key, false);
}

/// A block came: a task of the worker is finished so; another block is kept where it is wanted, and is to be counted.
fn arrive(
    alloc: Global,
    table: &mut WorkerTable,
    key: u32,
    made: &mut Instructions,
    added: &mut KeyList,
) -> Result<(), AllocError>
    requires { key < key_count (facts_of table.old).shape }
    ensures { OnOk result (arrivals_of table.new made.new added.new ≡ arrive (arrivals_of table.old made.old added.old) key) }
{
    match table.mine(key) {
        Some(attempt) => finish(alloc, table, key, attempt, made),
        None => keep_wanted(alloc, table, key, made, added),
    }
}

/// A task of the worker is finished by its block.
fn finish(
    alloc: Global,
    table: &mut WorkerTable,
    key: u32,
    attempt: u64,
    made: &mut Instructions,
) -> Result<(), AllocError>
    requires { key < key_count (facts_of table.old).shape }
    ensures facts { OnOk result (facts_of table.new ≡ into_mem (give_up (facts_of table.old) key) key) }
    ensures out { OnOk result (made.new ≡ made.old ++ Instruction.Keep key ∷ Instruction.Send (Up.TaskFinished (facts_of table.old).seen key attempt) ∷ []) }
{
    let seen = table.seen();
    made.push(Instruction::Keep { key })?;
    made.push(Instruction::Send(Up::TaskFinished { seen, key, attempt }))?;
    table.set_mine(key, None);
    take_in(alloc, table, key);
    Ok(())
}

/// A block that is no task's is kept where it is wanted.
fn keep_wanted(
    alloc: Global,
    table: &mut WorkerTable,
    key: u32,
    made: &mut Instructions,
    added: &mut KeyList,
) -> Result<(), AllocError>
    requires { key < key_count (facts_of table.old).shape }
    ensures { OnOk result (arrivals_of table.new made.new added.new ≡ arrive_as (arrivals_of table.old made.old added.old) key None) }
{
    if table.is_wanted(key) {
        made.push(Instruction::Keep { key })?;
        added.push(key)?;
        take_in(alloc, table, key);
    }
    Ok(())
}

/// Blocks come one after another; then one message names those that are to be counted.
#[tactic(auto, unfolding(cluster_rules::specs::WorkerStep::arrived))]
pub fn arrive_all(
    alloc: Global,
    table: &mut WorkerTable,
    keys: &[u32],
) -> Result<Instructions, AllocError>
    requires { All (λ k. k < key_count (facts_of table.old).shape) keys.now }
    ensures { IfOk result (λ out. step_of table.new out ≡ arrived (facts_of table.old) keys.now) }
{
    let mut made = Instructions::new(alloc);
    let mut added = KeyList::new(alloc);
    for key in keys {
        arrive(alloc, table, *key, &mut made, &mut added)?;
    }
    push_added(&mut made, table.seen(), added)?;
    Ok(made)
}

/// A task ended.
pub fn finish_run(
    alloc: Global,
    table: &mut WorkerTable,
    key: u32,
    zero: bool,
) -> Result<Instructions, AllocError>
    requires { key < key_count (facts_of table.old).shape }
    ensures { IfOk result (λ out. step_of table.new out ≡ done (facts_of table.old) key zero) }
{
    table.set_running(key, false);
    if zero {
        fail(alloc, table, key)
    } else {
        arrive_all(alloc, table, &[key])
    }
}

/// A task met a zero divisor.
fn fail(alloc: Global, table: &mut WorkerTable, key: u32) -> Result<Instructions, AllocError>
    requires { key < key_count (facts_of table.old).shape }
    ensures { IfOk result (λ out. step_of table.new out ≡ erred_as (facts_of table.old) key ((facts_of table.old).mine key)) }
{
    let mut made = Instructions::new(alloc);
    let Some(attempt) = table.mine(key) else {
        return Ok(made);
    };
    let seen = table.seen();
    made.push(Instruction::Send(Up::TaskErred { seen, key, attempt }))?;
    table.set_mine(key, None);
    table.set_failed(key, true);
    Ok(made)
}
