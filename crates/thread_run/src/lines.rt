//! The lines that are printed after a run.
ghost use Rattle.std.specs.Prelude.{◌≡◌, ◌++◌, IfOk, OnOk, string_bytes};
ghost use Rattle.job_run.specs.Jobs.{plan_of};
ghost use Rattle.job_run.specs.Plan.{IsRunnable};
ghost use Rattle.thread_run.specs.Ends.{audit_line, lines_of, told_text};

use crate::verdict::{Told, Verdict};
use cluster_msgs::Report;
use job_run::{Job, saved_lines};
use run_report::push_report;
use std::alloc::{AllocError, Global};

// Appends a report, where there is one.
fn push_told(alloc: Global, text: &mut String, told: &Option<Report>) -> Result<(), AllocError>
    ensures { OnOk result (string_bytes text.new ≡ string_bytes text.old ++ told_text told.now) }
{
    match told {
        Some(report) => push_report(alloc, text, report),
        None => Ok(()),
    }
}

// Appends the line of an audit.
fn push_audit(text: &mut String, verdict: Verdict) -> Result<(), AllocError>
    ensures { OnOk result (string_bytes text.new ≡ string_bytes text.old ++ audit_line verdict) }
{
    match verdict {
        Verdict::Agrees => text.push_str("audit: agrees\n"),
        Verdict::Differs { stamp } => writeln!(text, "audit: differs at {stamp}"),
        Verdict::NotComplete => text.push_str("audit: not complete\n"),
    }
}

/// The lines of a job that was run and saved, with what is told of the run.
pub fn lines(alloc: Global, job: &Job, told: &Told) -> Result<String, AllocError>
    requires { IsRunnable (plan_of job.now) }
    ensures { IfOk result (λ t. string_bytes t ≡ lines_of (plan_of job.now) told.now) }
{
    let mut text = saved_lines(alloc, job)?;
    push_told(alloc, &mut text, &told.report)?;
    text.push_str("finished by: cluster\n")?;
    push_audit(&mut text, told.verdict)?;
    Ok(text)
}
