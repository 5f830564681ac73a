//! What is told of a run: the report of its nodes' histories, and whether they are a legal list of events.
ghost use Rattle.std.specs.Prelude.{◌≡◌, ◌≤◌, ◌↔◌, ◌∷◌, ◌++◌, [], All, IsTrue, None, is_some, map, IfOk, IfSome};
ghost use Rattle.cluster_msgs.specs.declared.events.History.{History as AnyHistory};
ghost use Rattle.cluster_rules.specs.Report.{report as report_of};
ghost use Rattle.journal_audit.specs.Reports.{taken_of};
ghost use Rattle.node_runner.specs.declared.ends.Histories.{Histories as AnyHistories};
ghost use Rattle.node_runner.specs.Runs.{AreWhole};
ghost use Rattle.thread_run.specs.Reports.{IsToldOf, IsVerdictOf, audited};

use crate::verdict::{Told, Verdict};
use cluster_msgs::{GraphShape, History, Report};
use journal_audit::{Audit, Journal, ShapeJob, audit, merge, report};
use node_runner::Histories;
use std::alloc::{AllocError, Global};

// The scheduler's history, those of the workers, and the client's.
fn listed(alloc: Global, histories: Histories) -> Result<Vec<History>, AllocError>
    ensures { IfOk result (λ all. all.items ≡ histories.scheduler ∷ (histories.workers.items ++ histories.client ∷ [])) }
{
    let Histories {
        scheduler,
        mut workers,
        client,
    } = histories;
    let mut all = Vec::new(alloc);
    all.push(scheduler)?;
    all.append(&mut workers)?;
    all.push(client)?;
    Ok(all)
}

// Whether each of the histories has all its entries.
fn all_whole(histories: &[History]) -> bool
    ensures { IsTrue result ↔ All (λ (x : AnyHistory). x.cut ≡ None) histories.now }
{
    for history in histories {
        if history.cut.is_some() {
            return false;
        }
    }
    true
}

// Whether no node left an entry out.
fn are_whole(histories: &Histories) -> bool
    ensures { IsTrue result ↔ AreWhole histories.now }
{
    histories.scheduler.cut.is_none()
        && histories.client.cut.is_none()
        && all_whole(histories.workers.as_slice())
}

// What the audit says of a journal of whole histories, or that they aren't whole.
fn verdict_of(
    alloc: Global,
    graph: &GraphShape,
    saturation: u32,
    allowed: Option<u32>,
    whole: bool,
    journal: &Journal,
) -> Result<Verdict, AllocError>
    requires saturation { (1 ≤ saturation) × (saturation ≤ 1000) }
    ensures { IfOk result (λ v. (h : AnyHistories) → (IsTrue whole ↔ AreWhole h) → IsVerdictOf (audited graph.now saturation allowed) h journal.now v) }
{
    if !whole {
        return Ok(Verdict::NotComplete);
    }
    let job = ShapeJob::new(graph.copy()?);
    match audit(alloc, job, (), 1, saturation, allowed, journal) {
        Ok(Audit::Agrees(_)) => Ok(Verdict::Agrees),
        Ok(Audit::Differs { stamp }) => Ok(Verdict::Differs { stamp }),
        Err(_) => Err(AllocError),
    }
}

// The report of a journal, where it is asked for.
fn report_asked(
    alloc: Global,
    graph: &GraphShape,
    journal: &Journal,
    asked: bool,
) -> Result<Option<Report>, AllocError>
    ensures asked { IfOk result (λ told. is_some told ≡ asked) }
    ensures report { IfOk result (λ told. IfSome told (λ r. r ≡ report_of graph.now (map taken_of journal.now))) }
{
    if !asked {
        return Ok(None);
    }
    Ok(Some(report(alloc, graph, journal)?))
}

/// What is told of a run's histories over its graph, with this saturation and these losses: the report where it is asked for, and
/// whether they are a legal list of events together.
///
/// # Errors
/// Where no memory is left.
pub fn told(
    alloc: Global,
    graph: &GraphShape,
    saturation: u32,
    allowed: Option<u32>,
    histories: Histories,
    asked: bool,
) -> Result<Told, AllocError>
    requires saturation { (1 ≤ saturation) × (saturation ≤ 1000) }
    ensures asked { IfOk result (λ t. is_some t.report ≡ asked) }
    ensures told { IfOk result (IsToldOf graph.now saturation allowed histories) }
{
    let whole = are_whole(&histories);
    let journal = merge(alloc, listed(alloc, histories)?)?;
    let verdict = verdict_of(alloc, graph, saturation, allowed, whole, &journal)?;
    let report = report_asked(alloc, graph, &journal, asked)?;
    Ok(Told { report, verdict })
}
