//! The job that a number makes, simulated over no file.
ghost use Rattle.std.specs.Prelude.{◌≡◌, IfErr, IfOk, string_bytes};
ghost use Rattle.command_words.specs.Words.{AreGenSettings};
ghost use Rattle.gen_run.specs.Texts.{gen_text};
ghost use Rattle.gen_run.specs.declared.ends.GenEnded.TheVariants.{OutOfMemory};
ghost use Rattle.job_run.specs.Jobs.{plan_of};
ghost use Rattle.job_run.specs.Plan.{IsRunnable};
ghost use Rattle.dask_top.specs.Generating.{Generates, IsGenCause, TellsNumber};
ghost use Rattle.dask_top.specs.Reading.{SaysPlan};
ghost use Rattle.dask_top.specs.Telling.{gen_end_of};

use crate::answer::End;
use crate::read::read_job;
use crate::tell::tell_text;
use command_words::GenWords;
use gen_run::{GenEnded, gen_job, simulate_alone};
use io_edge::{Failed, Site, print_full};
use job_run::Job;
use std::alloc::Global;

// The job that a number makes. Its text is one of the language for each number, so what else its reading comes to is want of memory.
fn job_of_number(alloc: Global, number: u64) -> Result<Job, GenEnded>
    ensures job { IfOk result (λ j. SaysPlan (gen_text number) (plan_of j)) }
    ensures runs { IfOk result (λ j. IsRunnable (plan_of j)) }
    ensures memory { IfErr result (λ e. e ≡ OutOfMemory) }
{
    let text = gen_job(alloc, number)?;
    match read_job(alloc, text.as_bytes()) {
        Ok(job) => Ok(job),
        Err(_) => Err(GenEnded::OutOfMemory),
    }
}

// The lines that tell of the job that a number makes.
fn number_lines(alloc: Global, words: GenWords) -> Result<String, GenEnded>
    requires { AreGenSettings words }
    ensures lines { IfOk result (λ t. TellsNumber words (string_bytes t)) }
    ensures cause { IfErr result (IsGenCause words) }
{
    match job_of_number(alloc, words.number) {
        Ok(job) => simulate_alone(alloc, &job, words),
        Err(end) => Err(end),
    }
}

// The end of the program that this one is.
fn gen_end(end: GenEnded) -> End
    ensures { result ≡ gen_end_of end }
{
    match end {
        GenEnded::Events => End::Events,
        GenEnded::OutOfMemory => End::OutOfMemory,
    }
}

/// Simulates the job that a number makes over no file, and prints the lines that tell of it.
pub fn generate<S: Site>(alloc: Global, site: &mut S, words: GenWords) -> End
    requires { AreGenSettings words }
    ensures { Generates words (S.view site.old) (S.view site.new) result }
{
    let lines = match number_lines(alloc, words) {
        Ok(lines) => lines,
        Err(end) => return tell_text(alloc, site, gen_end(end)),
    };
    match print_full(site, lines.as_bytes()) {
        Ok(()) => End::Done,
        Err(Failed) => tell_text(alloc, site, End::WriteFault),
    }
}
