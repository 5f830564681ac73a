//! The entries of all nodes of a run by their stamps, printed, the report that they tell, and what the audit says of them.
ghost use Rattle.std.specs.Prelude.{◌≤◌};

use crate::events::print_entry;
use crate::page::Page;
use crate::spoils::{Spoil, spoil_one_entry};
use crate::sums::{Reader, Sums};
use cluster_msgs::{Entry, GraphShape, History, Sequence};
use journal_audit::{Audit, Journal, audit, merge, report};
use node_runner::Histories;
use std::alloc::{AllocError, Global};

/// Prints the entries of all nodes, one of them spoiled where that is asked for, their report, and what the audit of them says over the job, with one
/// client, this saturation and these losses allowed.
pub fn print(
    page: &mut Page,
    alloc: Global,
    job: &Sums,
    saturation: u32,
    allowed: Option<u32>,
    asked: Option<Spoil>,
    histories: Option<Histories>,
)
    requires { (1 ≤ saturation) × (saturation ≤ 1000) }
{
    match histories {
        Some(histories) => {
            let rows = rows(page, alloc, histories);
            print_cuts(page, &rows);
            print_merged(
                page,
                alloc,
                job,
                saturation,
                allowed,
                merged(alloc, rows, asked),
            );
        }
        None => page.line("no histories"),
    }
}

/// The histories as one journal, one entry of it spoiled where that is asked for.
fn merged(
    alloc: Global,
    histories: Vec<History>,
    asked: Option<Spoil>,
) -> Result<Journal, AllocError> {
    match asked {
        Some(how) => merge(alloc, spoil_one_entry(alloc, histories, how)?),
        None => merge(alloc, histories),
    }
}

/// The histories of the scheduler, of the workers by number and of the client.
fn rows(page: &mut Page, alloc: Global, histories: Histories) -> Vec<History> {
    let Histories {
        scheduler,
        workers,
        client,
    } = histories;
    let mut all = Sequence::new(alloc);
    page.keep(all.push(scheduler));
    for worker in workers {
        page.keep(all.push(worker));
    }
    page.keep(all.push(client));
    all.into_vec()
}

/// Tells of each history that had no room for all its entries.
fn print_cuts(page: &mut Page, histories: &[History]) {
    for history in histories {
        if let Some(entry) = &history.cut {
            page.item("cut at ", entry.stamp);
            page.put("\n");
        }
    }
}

fn print_merged(
    page: &mut Page,
    alloc: Global,
    job: &Sums,
    saturation: u32,
    allowed: Option<u32>,
    journal: Result<Journal, AllocError>,
)
    requires { (1 ≤ saturation) × (saturation ≤ 1000) }
{
    match journal {
        Ok(journal) => {
            print_entries(page, journal.as_slice());
            print_report(page, alloc, &job.shape, &journal);
            print_audit(page, alloc, job, saturation, allowed, &journal);
            drop(journal);
        }
        Err(_) => page.fail(),
    }
}

fn print_entries(page: &mut Page, entries: &[Entry]) {
    for entry in entries {
        print_entry(page, entry);
    }
}

/// The report of a journal.
fn print_report(page: &mut Page, alloc: Global, shape: &GraphShape, journal: &Journal) {
    match report(alloc, shape, journal) {
        Ok(report) => page.report(alloc, &report),
        Err(_) => page.fail(),
    }
}

/// What the audit of a journal says, over the job again with a feed that doesn't fail.
fn print_audit(
    page: &mut Page,
    alloc: Global,
    job: &Sums,
    saturation: u32,
    allowed: Option<u32>,
    journal: &Journal,
)
    requires { (1 ≤ saturation) × (saturation ≤ 1000) }
{
    let Ok(shape) = job.shape.copy() else {
        return page.fail();
    };
    let again = Sums {
        shape,
        zero: job.zero,
    };
    let feed = Reader {
        fails: None,
        faults: 0,
    };
    match audit(alloc, again, feed, 1, saturation, allowed, journal) {
        Ok(Audit::Agrees(_)) => page.line("audit: agrees"),
        Ok(Audit::Differs { stamp }) => {
            page.item("audit: differs at ", stamp);
            page.put("\n");
        }
        Err(_) => page.fail(),
    }
}
