//! The simulation of a job over no file.
ghost use Rattle.std.specs.Prelude.{◌≡◌, ◌<◌, IfErr, IfOk, Some, length, slice_index_or, string_bytes};
ghost use Rattle.command_words.specs.Words.{AreGenSettings};
ghost use Rattle.io_edge.specs.Memory.{memory_view};
ghost use Rattle.job_run.specs.Jobs.{plan_of};
ghost use Rattle.job_run.specs.Plan.{IsRunnable, name_at, names_saved, nodes_saved};
ghost use Rattle.gen_run.specs.Alone.{IsUnscripted};
ghost use Rattle.gen_run.specs.Ends.{AreLines, Cause};
ghost use Rattle.gen_run.specs.Lines.{first_file, lines_of};

use crate::ends::{GenEnded, ended};
use crate::lines::lines;
use cluster_msgs::Script;
use command_words::{GenWords, Settings, SimWords};
use io_edge::MemorySite;
use job_run::{Job, Save};
use sim_run::{Served, save_simulated};
use std::alloc::{AllocError, Global};

// The words of a simulation with these settings.
fn unscripted(alloc: Global, words: GenWords) -> SimWords
    ensures { IsUnscripted words result }
{
    let settings = Settings {
        number: words.number,
        workers: words.workers,
        threads: words.threads,
        saturation: 11,
        allowed: None,
    };
    SimWords {
        job: String::new(alloc),
        settings,
        script: Script::new(alloc),
    }
}

// What a job saves first.
fn first_save(job: &Job) -> &Save
    requires { IsRunnable (plan_of job.now) }
    ensures node { result.now.node ≡ slice_index_or (nodes_saved (plan_of job.now)) 0 0 }
    ensures within { result.now.node < length job.now.expr }
    ensures file { string_bytes result.now.file ≡ name_at (names_saved (plan_of job.now)) 0 }
{
    &job.saves[0]
}

// The lines of a job whose first array was saved into this site.
fn digest(
    alloc: Global,
    job: &Job,
    site: &MemorySite,
    served: &Served,
) -> Result<String, AllocError>
    requires runs { IsRunnable (plan_of job.now) }
    requires held { (memory_view site.now).files.held (name_at (names_saved (plan_of job.now)) 0) ≡ Some (first_file (plan_of job.now)) }
    ensures { IfOk result (λ t. string_bytes t ≡ lines_of (plan_of job.now) served.now.report served.now.turns) }
{
    let save = first_save(job);
    match site.file(save.file.as_str()) {
        Some(file) => lines(alloc, job.expr.shape_of(save.node), file, served),
        None => unreachable!(),
    }
}

/// Simulates a job over a site of its own in memory, which holds no file, and gives the lines that tell of it: the first array that
/// it saves with its shape and the digest of its file, the report and the turns.
///
/// # Errors
/// `Events` where the simulation comes to no end, and else want of memory: also for a job that would end otherwise, as
/// one that reads a file.
pub fn simulate_alone(alloc: Global, job: &Job, words: GenWords) -> Result<String, GenEnded>
    requires runs { IsRunnable (plan_of job.now) }
    requires words { AreGenSettings words }
    ensures lines { IfOk result (λ t. AreLines (plan_of job.now) words (string_bytes t)) }
    ensures cause { IfErr result (Cause (plan_of job.now) words) }
{
    let mut site = MemorySite::new(alloc, 0, Vec::new(alloc))?;
    match save_simulated(alloc, &mut site, job, unscripted(alloc, words)) {
        Ok(served) => Ok(digest(alloc, job, &site, &served)?),
        Err(end) => Err(ended(&end)),
    }
}
