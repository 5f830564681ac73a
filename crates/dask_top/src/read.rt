//! The job that a text is.
ghost use Rattle.std.specs.Prelude.{IfOk, IfErr};
ghost use Rattle.job_run.specs.Jobs.{plan_of};
ghost use Rattle.job_run.specs.Plan.{IsRunnable};
ghost use Rattle.dask_top.specs.Reading.{SaysPlan};
ghost use Rattle.dask_top.specs.TextEnds.{EndsAs, TextEnds};

use crate::answer::End;
use job_run::Job;
use job_text::{JobError, JobKind, parse};
use std::alloc::Global;

fn text_end(error: JobError) -> End
    ensures { EndsAs error result }
{
    match error.kind {
        JobKind::Limit { quantity } => End::Limit(quantity),
        JobKind::OutOfMemory => End::OutOfMemory,
        _ => End::Job(error),
    }
}

/// The job of a text, or the end at which there is none.
pub fn read_job(alloc: Global, text: &[u8]) -> Result<Job, End>
    ensures job { IfOk result (λ j. SaysPlan text.now (plan_of j)) }
    ensures runs { IfOk result (λ j. IsRunnable (plan_of j)) }
    ensures ends { IfErr result (TextEnds text.now) }
{
    match parse(alloc, text) {
        Ok(said) => Ok(said.job),
        Err(error) => Err(text_end(error)),
    }
}
