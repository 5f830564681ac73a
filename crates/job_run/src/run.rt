//! A run of a job.
ghost use Rattle.job_run.specs.Jobs.{plan_of};
ghost use Rattle.job_run.specs.Plan.{IsRunnable};
ghost use Rattle.job_run.specs.Runs.{RunsPlan};

use crate::ends::Ended;
use crate::evaluate::evaluate;
use crate::inputs::open_inputs;
use crate::lines::lines;
use crate::lowering::lower_job;
use io_edge::{Failed, Site, print_full};
use job_plan::Job;
use std::alloc::Global;
use std::marker::Brand;

/// Runs a job in the calling thread: lowers it to a graph of block tasks, opens its inputs by one call and reads their heads,
/// creates the files that it saves, makes the blocks in the order of their keys, each let go after its last use, writes the
/// saved ones as they come, and prints a line for each file and a last one. The job has a name for each of its input nodes, and
/// its saved names differ.
///
/// `RunsPlan` says for each end why it comes and what it leaves: the files, byte for byte, how often each name was opened
/// and created, and the lines. Whatever the end, no name is opened where the graph would pass a limit, a file is touched only
/// where all inputs were opened and accepted, and a line is printed only where all files are whole.
pub fn run_job<S: Site>(alloc: Global, site: &mut S, job: &Job) -> Ended
    requires { IsRunnable (plan_of job.now) }
    ensures { RunsPlan (plan_of job.now) (S.view site.old) (S.view site.new) result }
{
    let lowered = match lower_job(alloc, job) {
        Ok(lowered) => lowered,
        Err(end) => return end,
    };
    let Ok(text) = lines(alloc, job) else {
        return Ended::OutOfMemory;
    };
    let inputs = match open_inputs(alloc, site, job) {
        Ok(inputs) => inputs,
        Err(end) => return end,
    };
    match evaluate::<S, Brand>(alloc, site, job, lowered, inputs) {
        Ended::Done => {}
        end => return end,
    }
    match print_full(site, text.as_bytes()) {
        Ok(()) => Ended::Done,
        Err(Failed) => Ended::WriteFault,
    }
}
