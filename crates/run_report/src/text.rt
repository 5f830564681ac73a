//! A report as it is printed: a line for each count.
ghost use Rattle.std.specs.Prelude.{◌≡◌, ◌++◌, OnOk, string_bytes};
ghost use Rattle.run_report.specs.Text.{count_line, report_text, worker_line, worker_lines};

use cluster_msgs::Report;
use std::alloc::{AllocError, Global};

/// Appends a number behind what it counts.
///
/// # Errors
/// Where no memory is left.
pub fn push_count(
    alloc: Global,
    text: &mut String,
    what: &str,
    count: u64,
) -> Result<(), AllocError>
    ensures { OnOk result (string_bytes text.new ≡ string_bytes text.old ++ count_line what.now count) }
{
    let line = format!(in alloc; "{what} {count}\n")?;
    text.push_str(line.as_str())
}

/// Appends how many tasks a worker started.
fn push_worker(alloc: Global, text: &mut String, worker: (u32, u64)) -> Result<(), AllocError>
    ensures { OnOk result (string_bytes text.new ≡ string_bytes text.old ++ worker_line worker) }
{
    let (number, started) = worker;
    let line = format!(in alloc; "worker {number} started {started}\n")?;
    text.push_str(line.as_str())
}

/// Appends the same of all workers.
fn push_workers(alloc: Global, text: &mut String, workers: &[(u32, u64)]) -> Result<(), AllocError>
    ensures { OnOk result (string_bytes text.new ≡ string_bytes text.old ++ worker_lines workers.now) }
{
    for worker in workers {
        push_worker(alloc, text, *worker)?;
    }
    Ok(())
}

/// Appends a report: its counts in the order of their fields, each behind its name, and a line for each worker that joined.
///
/// # Errors
/// Where no memory is left.
pub fn push_report(alloc: Global, text: &mut String, report: &Report) -> Result<(), AllocError>
    ensures { OnOk result (string_bytes text.new ≡ string_bytes text.old ++ report_text report.now) }
{
    push_count(alloc, text, "keys", report.keys)?;
    push_count(alloc, text, "edges", report.edges)?;
    push_count(alloc, text, "started", report.started)?;
    push_workers(alloc, text, report.workers.as_slice())?;
    push_count(alloc, text, "gathers", report.gathers)?;
    push_count(alloc, text, "steals confirmed", report.confirmed)?;
    push_count(alloc, text, "steals refused", report.refused)?;
    push_count(alloc, text, "losses", report.losses)
}
