//! Lines that tell of a job, and the index of a block in them.
ghost use Rattle.std.specs.Prelude.{◌≡◌, ◌<◌, ◌++◌, length, IfOk, OnOk, string_bytes};
ghost use Rattle.job_run.specs.Jobs.{plan_of, saved_of};
ghost use Rattle.job_run.specs.Plan.{IsRunnable};
ghost use Rattle.job_run.specs.Runs.{lines_of};
ghost use Rattle.job_run.specs.Values.{saved_line, saved_lines};

use array_expr::Expr;
use job_plan::{Job, Save};
use std::alloc::{AllocError, Global};

// Appends the line of a save.
fn push_line(alloc: Global, text: &mut String, expr: &Expr, save: &Save) -> Result<(), AllocError>
    requires { save.now.node < length expr.now }
    ensures { OnOk result (string_bytes text.new ≡ string_bytes text.old ++ saved_line expr.now (saved_of save.now)) }
{
    text.push_str("saved ")?;
    text.push_str(save.file.as_str())?;
    text.push_str(" ")?;
    text.push_str(expr.shape_of(save.node).text(alloc)?.as_str())?;
    text.push_str("\n")
}

/// The lines of the files that a job saves.
pub fn saved_lines(alloc: Global, job: &Job) -> Result<String, AllocError>
    requires { IsRunnable (plan_of job.now) }
    ensures { IfOk result (λ t. string_bytes t ≡ saved_lines (plan_of job.now).nodes (plan_of job.now).saves) }
{
    let mut text = String::new(alloc);
    for save in &job.saves {
        push_line(alloc, &mut text, &job.expr, save)?;
    }
    Ok(text)
}

/// The lines of a job that was saved.
pub fn lines(alloc: Global, job: &Job) -> Result<String, AllocError>
    requires { IsRunnable (plan_of job.now) }
    ensures { IfOk result (λ t. string_bytes t ≡ lines_of (plan_of job.now)) }
{
    let mut text = saved_lines(alloc, job)?;
    text.push_str("finished by: plain\n")?;
    Ok(text)
}
