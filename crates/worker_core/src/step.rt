//! One event: its own row, and then the questions for the holders of missing keys.
#![tactic(auto)]

ghost use Rattle.std.specs.Prelude.{◌≡◌, ◌<◌, ◌^◌, All, [], true, IfOk, OnOk};
ghost use Rattle.cluster_msgs.specs.Shape.{key_count};
ghost use Rattle.cluster_rules.specs.Worker.{would_start};
ghost use Rattle.cluster_rules.specs.WorkerStep.{start, lose_data, ask_holders, worker_row, worker_step, worker_takes};
ghost use Rattle.worker_facts.specs.Stored.{facts_of};
ghost use Rattle.worker_core.specs.Core.{step_of};

use crate::arrivals::finish_run;
use crate::asking::{ask_peer, gather};
use crate::told::take_down;
use cluster_msgs::{Instruction, Instructions, Up, WorkerEvent};
use std::alloc::{AllocError, Global};
use worker_table::WorkerTable;

/// What an event does.
#[tactic(auto, unfolding(cluster_rules::specs::WorkerStep::worker_step))]
pub fn step(
    alloc: Global,
    table: &mut WorkerTable,
    event: &WorkerEvent,
) -> Result<Instructions, AllocError>
    requires takes { worker_takes (facts_of table.old) event.now ≡ true }
    requires seen { (facts_of table.old).seen < 2 ^ 63 }
    requires asks { (facts_of table.old).next_ask < 2 ^ 63 }
    ensures { IfOk result (λ out. step_of table.new out ≡ worker_step (facts_of table.old) event.now) }
{
    let mut made = own_row(alloc, table, event)?;
    let unasked = table.unasked_keys(alloc)?;
    ask_holders(table, unasked.as_slice(), &mut made)?;
    Ok(made)
}

/// What an event does by its own row.
#[tactic(auto, unfolding(cluster_rules::specs::WorkerStep::worker_row, cluster_rules::specs::WorkerStep::worker_takes))]
fn own_row(
    alloc: Global,
    table: &mut WorkerTable,
    event: &WorkerEvent,
) -> Result<Instructions, AllocError>
    requires takes { worker_takes (facts_of table.old) event.now ≡ true }
    requires seen { (facts_of table.old).seen < 2 ^ 63 }
    requires asks { (facts_of table.old).next_ask < 2 ^ 63 }
    ensures { IfOk result (λ out. step_of table.new out ≡ worker_row (facts_of table.old) event.now) }
{
    match event {
        WorkerEvent::Down(down) => take_down(alloc, table, down),
        WorkerEvent::Start => start(alloc, table),
        WorkerEvent::Done { key, zero } => finish_run(alloc, table, *key, *zero),
        WorkerEvent::Ask { peer } => ask_peer(alloc, table, *peer),
        WorkerEvent::Gathered { peer, ask, found } => {
            gather(alloc, table, *peer, *ask, found.as_slice())
        }
        WorkerEvent::GatherFailed { peer, ask } => gather(alloc, table, *peer, *ask, &[]),
        WorkerEvent::DataLost { key } => lose_data(alloc, table, *key),
    }
}

/// Start: the least ready task runs.
fn start(alloc: Global, table: &mut WorkerTable) -> Result<Instructions, AllocError>
    ensures { IfOk result (λ out. step_of table.new out ≡ start (facts_of table.old) (would_start (facts_of table.old))) }
{
    let mut made = Instructions::new(alloc);
    if let Some(key) = table.would_start() {
        made.push(Instruction::Execute { key })?;
        table.set_running(key, true);
    }
    Ok(made)
}

/// DataLost: a block is gone, and the scheduler is told.
fn lose_data(alloc: Global, table: &mut WorkerTable, key: u32) -> Result<Instructions, AllocError>
    requires { key < key_count (facts_of table.old).shape }
    ensures { IfOk result (λ out. step_of table.new out ≡ lose_data (facts_of table.old) key) }
{
    let mut made = Instructions::new(alloc);
    let seen = table.seen();
    made.push(Instruction::Send(Up::ReleaseWorkerData { seen, key }))?;
    table.set_in_memory(key, false);
    Ok(made)
}

/// The scheduler is asked who holds these keys.
fn ask_holders(
    table: &mut WorkerTable,
    keys: &[u32],
    made: &mut Instructions,
) -> Result<(), AllocError>
    requires { All (λ k. k < key_count (facts_of table.old).shape) keys.now }
    ensures { OnOk result (step_of table.new made.new ≡ ask_holders (step_of table.old made.old) keys.now) }
{
    let seen = table.seen();
    for key in keys {
        made.push(Instruction::Send(Up::RequestRefreshWhoHas { seen, key: *key }))?;
        table.set_asked(*key, true);
    }
    Ok(())
}
