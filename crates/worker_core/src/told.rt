//! What the scheduler's messages do.
#![tactic(auto)]

ghost use Rattle.std.specs.Prelude.{◌≡◌, ◌++◌, ◌||◌, ◌<◌, ◌^◌, ℕ, All, filter, false, true, IfOk, OnOk, Some};
ghost use Rattle.std.specs.List.{fold};
ghost use Rattle.cluster_msgs.specs.Shape.{key_count};
ghost use Rattle.cluster_rules.specs.Derived.{is_in};
ghost use Rattle.cluster_rules.specs.WorkerStep.{others, set_holders, given, free_key, each_key, quiet, yields, asked_back, remove_replica, remove_replicas, acquire, refresh, take_down, taken, takes_down};
ghost use Rattle.key_sets.specs.Sets.{has, room};
ghost use Rattle.worker_facts.specs.Stored.{facts_of};
ghost use Rattle.worker_core.specs.Core.{step_of, refused_keys};

use crate::push::{push_added, push_key_where, push_where};
use cluster_msgs::{Down, Holders, Instruction, Instructions, KeyList, Up};
use key_sets::KeySet;
use std::alloc::{AllocError, Global};
use worker_table::WorkerTable;

/// What a message of the scheduler does.
#[tactic(auto, unfolding(cluster_rules::specs::WorkerStep::take_down))]
pub fn take_down(
    alloc: Global,
    table: &mut WorkerTable,
    down: &Down,
) -> Result<Instructions, AllocError>
    requires takes { takes_down (facts_of table.old) down.now ≡ true }
    requires room { (facts_of table.old).seen < 2 ^ 63 }
    ensures { IfOk result (λ out. step_of table.new out ≡ take_down (taken (facts_of table.old)) down.now) }
{
    table.take_message();
    match down {
        Down::ComputeTask {
            key,
            attempt,
            who_has,
        } => give(alloc, table, *key, *attempt, who_has.as_slice()),
        Down::FreeKeys { keys } => free_keys(alloc, table, keys.as_slice()),
        Down::StealRequest { key, attempt } => ask_back(alloc, table, *key, *attempt),
        Down::RemoveReplicas { keys } => remove_replicas(alloc, table, keys.as_slice()),
        Down::AcquireReplicas { who_has } => acquire_all(alloc, table, who_has.as_slice()),
        Down::RefreshWhoHas { who_has } => refresh_all(alloc, table, who_has.as_slice()),
    }
}

/// Who else holds a key.
fn others(alloc: Global, id: u32, holders: &[(u32, u64)]) -> Result<Holders, AllocError>
    ensures { IfOk result (λ list. list ≡ others id holders.now) }
{
    let list = holders.iter().copied().filter(|holder| holder.0 != id);
    Ok(Holders::from_vec(list.collect(alloc)?))
}

/// The holders of a key are these, without the worker itself.
fn tell_holders(
    alloc: Global,
    table: &mut WorkerTable,
    key: u32,
    holders: &[(u32, u64)],
) -> Result<(), AllocError>
    requires { key < key_count (facts_of table.old).shape }
    ensures { OnOk result (facts_of table.new ≡ set_holders (facts_of table.old) (key, holders.now)) }
{
    let list = others(alloc, table.id(), holders)?;
    table.set_holders(key, list);
    Ok(())
}

/// The same for each of these keys.
fn tell_all_holders(
    alloc: Global,
    table: &mut WorkerTable,
    who_has: &[(u32, Holders)],
) -> Result<(), AllocError>
    requires { All (λ p. p.0 < key_count (facts_of table.old).shape) who_has.now }
    ensures { OnOk result (facts_of table.new ≡ fold set_holders (facts_of table.old) who_has.now) }
{
    for pair in who_has {
        tell_holders(alloc, table, pair.0, pair.1.as_slice())?;
    }
    Ok(())
}

/// compute-task: what is held already is finished; else the task is the worker's.
#[tactic(auto, unfolding(cluster_rules::specs::WorkerStep::given))]
fn give(
    alloc: Global,
    table: &mut WorkerTable,
    key: u32,
    attempt: u64,
    who_has: &[(u32, Holders)],
) -> Result<Instructions, AllocError>
    requires key { key < key_count (facts_of table.old).shape }
    requires named { All (λ p. p.0 < key_count (facts_of table.old).shape) who_has.now }
    ensures { IfOk result (λ out. step_of table.new out ≡ given (facts_of table.old) key attempt who_has.now) }
{
    let mut made = Instructions::new(alloc);
    table.set_failed(key, false);
    if table.in_memory(key) {
        let seen = table.seen();
        made.push(Instruction::Send(Up::TaskFinished { seen, key, attempt }))?;
        return Ok(made);
    }
    table.set_mine(key, Some(attempt));
    tell_all_holders(alloc, table, who_has)?;
    Ok(made)
}

/// free-keys, at one key: nothing of it stays but that it runs or flies.
fn free_key(
    alloc: Global,
    table: &mut WorkerTable,
    key: u32,
    made: &mut Instructions,
) -> Result<(), AllocError>
    requires { key < key_count (facts_of table.old).shape }
    ensures facts { OnOk result (facts_of table.new ≡ (free_key (facts_of table.old) key).facts) }
    ensures out { OnOk result (made.new ≡ made.old ++ (free_key (facts_of table.old) key).out) }
{
    push_where(made, table.in_memory(key), Instruction::Drop { key })?;
    table.set_in_memory(key, false);
    table.set_mine(key, None);
    table.set_holders(key, Holders::new(alloc));
    table.set_asked(key, false);
    table.set_sought(key, false);
    table.set_failed(key, false);
    Ok(())
}

/// free-keys.
fn free_keys(
    alloc: Global,
    table: &mut WorkerTable,
    keys: &[u32],
) -> Result<Instructions, AllocError>
    requires { All (λ k. k < key_count (facts_of table.old).shape) keys.now }
    ensures { IfOk result (λ out. step_of table.new out ≡ each_key free_key (quiet (facts_of table.old)) keys.now) }
{
    let mut made = Instructions::new(alloc);
    for key in keys {
        free_key(alloc, table, *key, &mut made)?;
    }
    Ok(made)
}

/// Whether a task of this attempt can still be given up.
fn yields(table: &WorkerTable, key: u32, attempt: u64) -> bool
    ensures { result ≡ yields (facts_of table.now) key attempt }
{
    match table.mine(key) {
        Some(given) => (given == attempt) & table.is_unstarted(key),
        None => false,
    }
}

/// steal-request: a task of this attempt that hasn't started is given up.
#[tactic(auto, unfolding(cluster_rules::specs::WorkerStep::asked_back))]
fn ask_back(
    alloc: Global,
    table: &mut WorkerTable,
    key: u32,
    attempt: u64,
) -> Result<Instructions, AllocError>
    requires { key < key_count (facts_of table.old).shape }
    ensures { IfOk result (λ out. step_of table.new out ≡ asked_back (facts_of table.old) key attempt) }
{
    let mut made = Instructions::new(alloc);
    let seen = table.seen();
    let yes = yields(table, key, attempt);
    made.push(Instruction::Send(Up::StealResponse {
        seen,
        key,
        attempt,
        yes,
    }))?;
    if yes {
        table.set_mine(key, None);
    }
    Ok(made)
}

/// remove-replicas, at one key: a block that no pending task needs goes.
fn remove_replica(
    table: &mut WorkerTable,
    key: u32,
    made: &mut Instructions,
) -> Result<(), AllocError>
    requires { key < key_count (facts_of table.old).shape }
    ensures facts { OnOk result (facts_of table.new ≡ (remove_replica (facts_of table.old) key).facts) }
    ensures out { OnOk result (made.new ≡ made.old ++ (remove_replica (facts_of table.old) key).out) }
{
    let goes = table.in_memory(key) & !table.is_awaited(key);
    if goes {
        made.push(Instruction::Drop { key })?;
        table.set_in_memory(key, false);
    }
    Ok(())
}

/// Puts these keys into a set.
fn name_all(set: &mut KeySet, keys: &[u32])
    requires { All (λ k. k < room set.old) keys.now }
    ensures { (k : ℕ) → has set.new k ≡ (has set.old k || is_in k keys.now) }
{
    for key in keys {
        set.insert(*key);
    }
}

/// The keys that stay though they are to go: a pending task needs each. They ascend.
fn refused_keys(alloc: Global, table: &WorkerTable, keys: &[u32]) -> Result<KeyList, AllocError>
    requires { All (λ k. k < key_count (facts_of table.now).shape) keys.now }
    ensures { IfOk result (λ list. list ≡ refused_keys (facts_of table.now) keys.now) }
{
    table.sound();
    let mut named = KeySet::new(alloc, table.keys())?;
    name_all(&mut named, keys);
    let mut list = KeyList::new(alloc);
    let mut from = 0;
    'keys: while let Some(key) = named.first_from(from) {
        let stays = table.in_memory(key) & table.is_awaited(key);
        push_key_where(&mut list, stays, key)?;
        from = key + 1;
    }
    Ok(list)
}

/// remove-replicas: a block that a pending task needs stays, and the scheduler is told of all of these.
#[tactic(auto, unfolding(cluster_rules::specs::WorkerStep::remove_replicas))]
fn remove_replicas(
    alloc: Global,
    table: &mut WorkerTable,
    keys: &[u32],
) -> Result<Instructions, AllocError>
    requires { All (λ k. k < key_count (facts_of table.old).shape) keys.now }
    ensures { IfOk result (λ out. step_of table.new out ≡ remove_replicas (facts_of table.old) keys.now) }
{
    let seen = table.seen();
    let refused = refused_keys(alloc, table, keys)?;
    let mut made = remove_each(alloc, table, keys)?;
    push_added(&mut made, seen, refused)?;
    Ok(made)
}

/// remove-replicas, at each of these keys.
fn remove_each(
    alloc: Global,
    table: &mut WorkerTable,
    keys: &[u32],
) -> Result<Instructions, AllocError>
    requires { All (λ k. k < key_count (facts_of table.old).shape) keys.now }
    ensures { IfOk result (λ out. step_of table.new out ≡ each_key remove_replica (quiet (facts_of table.old)) keys.now) }
{
    let mut made = Instructions::new(alloc);
    for key in keys {
        remove_replica(table, *key, &mut made)?;
    }
    Ok(made)
}

/// acquire-replicas, at one key: a block that isn't here is sought.
fn acquire(
    alloc: Global,
    table: &mut WorkerTable,
    key: u32,
    holders: &[(u32, u64)],
) -> Result<(), AllocError>
    requires { key < key_count (facts_of table.old).shape }
    ensures { OnOk result (facts_of table.new ≡ acquire (facts_of table.old) (key, holders.now)) }
{
    if table.in_memory(key) {
        return Ok(());
    }
    table.set_sought(key, true);
    tell_holders(alloc, table, key, holders)
}

/// acquire-replicas.
fn acquire_all(
    alloc: Global,
    table: &mut WorkerTable,
    who_has: &[(u32, Holders)],
) -> Result<Instructions, AllocError>
    requires { All (λ p. p.0 < key_count (facts_of table.old).shape) who_has.now }
    ensures { IfOk result (λ out. step_of table.new out ≡ quiet (fold acquire (facts_of table.old) who_has.now)) }
{
    for pair in who_has {
        acquire(alloc, table, pair.0, pair.1.as_slice())?;
    }
    Ok(Instructions::new(alloc))
}

/// refresh-who-has, at one key: the scheduler's answer. Where nobody holds the key, it is no longer sought.
fn refresh(
    alloc: Global,
    table: &mut WorkerTable,
    key: u32,
    holders: &[(u32, u64)],
) -> Result<(), AllocError>
    requires { key < key_count (facts_of table.old).shape }
    ensures { OnOk result (facts_of table.new ≡ refresh (facts_of table.old) (key, holders.now)) }
{
    let sought = !holders.is_empty() & table.is_sought(key);
    table.set_asked(key, false);
    table.set_sought(key, sought);
    tell_holders(alloc, table, key, holders)
}

/// refresh-who-has.
fn refresh_all(
    alloc: Global,
    table: &mut WorkerTable,
    who_has: &[(u32, Holders)],
) -> Result<Instructions, AllocError>
    requires { All (λ p. p.0 < key_count (facts_of table.old).shape) who_has.now }
    ensures { IfOk result (λ out. step_of table.new out ≡ quiet (fold refresh (facts_of table.old) who_has.now)) }
{
    for pair in who_has {
        refresh(alloc, table, pair.0, pair.1.as_slice())?;
    }
    Ok(Instructions::new(alloc))
}
