//! The report of a journal.
ghost use Rattle.std.specs.Prelude.{◌≡◌, ◌+◌, ◌-◌, ◌^◌, ◌<◌, Option, cond, map, IfOk};
ghost use Rattle.cluster_msgs.specs.declared.messages.Message.{Message as AnyMessage};
ghost use Rattle.cluster_rules.specs.Report.{is_join, report};
ghost use Rattle.run_report.specs.Counts.{IsCountOf};
ghost use Rattle.journal_audit.specs.Reports.{taken_of};

use crate::merges::Journal;
use cluster_msgs::{Entry, Event, GraphShape, Report};
use run_report::Tally;
use std::alloc::{AllocError, Global};

/// The report of a run of a job with this graph, from what its nodes kept.
///
/// # Errors
/// Where no memory is left. Besides, where 2^32 - 1 or more of the entries are joins, since the numbers of workers
/// don't reach further.
pub fn report(alloc: Global, shape: &GraphShape, journal: &Journal) -> Result<Report, AllocError>
    ensures { IfOk result (λ r. r ≡ report shape.now (map taken_of journal.now)) }
{
    let tally = counted(alloc, journal.as_slice())?;
    tally.report(alloc, shape)
}

// The counts of the entries.
fn counted(alloc: Global, entries: &[Entry]) -> Result<Tally, AllocError>
    ensures { IfOk result (λ t. IsCountOf t (map taken_of entries.now)) }
{
    let mut tally = Tally::new(alloc);
    let mut joins = 0;
    for entry in entries {
        joins = more_joins(joins, &entry.event)?;
        tally.count(&entry.event, entry.message.as_ref())?;
    }
    Ok(tally)
}

// One more where the event is a join, and nothing where a tally has no room for it.
fn more_joins(joins: u32, event: &Event) -> Result<u32, AllocError>
    requires { joins < 2 ^ 32 - 1 }
    ensures sum { IfOk result (λ n. (m : Option AnyMessage) → n ≡ joins + cond (is_join (event.now, m)) 1 0) }
    ensures room { IfOk result (λ n. n < 2 ^ 32 - 1) }
{
    match event {
        Event::Join { .. } => one_more(joins),
        _ => Ok(joins),
    }
}

fn one_more(joins: u32) -> Result<u32, AllocError>
    requires { joins < 2 ^ 32 - 1 }
    ensures sum { IfOk result (λ n. n ≡ joins + 1) }
    ensures room { IfOk result (λ n. n < 2 ^ 32 - 1) }
{
    let more = joins + 1;
    if more == u32::MAX {
        return Err(AllocError);
    }
    Ok(more)
}
