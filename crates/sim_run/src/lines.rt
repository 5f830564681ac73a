//! The lines that are printed after a simulation.
ghost use Rattle.std.specs.Prelude.{◌≡◌, IfOk, string_bytes};
ghost use Rattle.job_run.specs.Jobs.{plan_of};
ghost use Rattle.job_run.specs.Plan.{IsRunnable};
ghost use Rattle.sim_run.specs.Texts.{lines_of};

use cluster_msgs::Report;
use job_run::{Job, saved_lines};
use run_report::{push_count, push_report};
use std::alloc::{AllocError, Global};

/// The lines of a job that was simulated in so many turns, and saved.
pub fn lines(alloc: Global, job: &Job, report: &Report, turns: u64) -> Result<String, AllocError>
    requires { IsRunnable (plan_of job.now) }
    ensures { IfOk result (λ t. string_bytes t ≡ lines_of (plan_of job.now) report.now turns) }
{
    let mut text = saved_lines(alloc, job)?;
    push_report(alloc, &mut text, report)?;
    push_count(alloc, &mut text, "turns", turns)?;
    text.push_str("finished by: simulation\n")?;
    Ok(text)
}
