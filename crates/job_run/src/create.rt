//! The files of a job's saves.
ghost use Rattle.std.specs.Prelude.{◌≡◌, ℕ, List, [], length, IfOk, OnOk, OnErr};
ghost use Rattle.io_edge.specs.Cause.{HasOpenCause};
ghost use Rattle.io_edge.specs.View.{OnlyWrites, raised_by};
ghost use Rattle.saved_files.specs.Saving.{WereCreated};
ghost use Rattle.job_run.specs.Creating.{CreatesFirst, FailsNext};
ghost use Rattle.job_run.specs.Evaluating.{AreFresh, AreOpenFor, LeavesAll};
ghost use Rattle.job_run.specs.Jobs.{plan_of};
ghost use Rattle.job_run.specs.Part.{IsNoneOf, RaisedAtMost};
ghost use Rattle.job_run.specs.Plan.{IsRunnable, names_saved};

use io_edge::{OpenFault, Site};
use job_plan::Job;
use saved_files::SavedFiles;
use std::alloc::Global;

// Creates the files of all saves, or fails at one of them.
fn create_each<S: Site>(
    alloc: Global,
    site: &mut S,
    job: &Job,
    files: &mut SavedFiles<S::Out>,
) -> Result<(), OpenFault>
    requires runs { IsRunnable (plan_of job.now) }
    requires none { files.old ≡ [] }
    ensures all { OnOk result (CreatesFirst (plan_of job.now) (length (plan_of job.now).saves) (S.view site.old).files (S.view site.new).files files.new) }
    ensures some { OnErr result (FailsNext (plan_of job.now) (S.view site.old).files (S.view site.new).files files.new) }
    ensures only { OnlyWrites (S.view site.old) (S.view site.new) }
    ensures cause { HasOpenCause (S.view site.old).write_faults (S.view site.new).write_faults result }
{
    for save in &job.saves {
        let shape = job.expr.shape_of(save.node);
        files.create(alloc, site, save.file.as_str(), shape)?;
    }
    Ok(())
}

/// Creates the files of all saves, in their order, each with its header. Where one fails, those before it are given back.
pub fn create_files<S: Site>(
    alloc: Global,
    site: &mut S,
    job: &Job,
) -> Result<SavedFiles<S::Out>, OpenFault>
    requires runs { IsRunnable (plan_of job.now) }
    ensures open { IfOk result (λ files. AreOpenFor (plan_of job.now) files) }
    ensures fresh { IfOk result (λ files. AreFresh (plan_of job.now) (S.view site.old).files.tells files) }
    ensures there { IfOk result (λ files. WereCreated files (S.view site.new).files) }
    ensures created { OnOk result ((S.view site.new).files.created ≡ raised_by (names_saved (plan_of job.now)) (S.view site.old).files.created) }
    ensures some { RaisedAtMost (names_saved (plan_of job.now)) (S.view site.old).files.created (S.view site.new).files.created }
    ensures others { (n : List ℕ) → IsNoneOf n (names_saved (plan_of job.now)) → (S.view site.new).files.held n ≡ (S.view site.old).files.held n }
    ensures tells { (S.view site.new).files.tells ≡ (S.view site.old).files.tells }
    ensures opened { (S.view site.new).files.opened ≡ (S.view site.old).files.opened }
    ensures left { OnErr result (LeavesAll (plan_of job.now) (S.view site.old).files (S.view site.new).files) }
    ensures only { OnlyWrites (S.view site.old) (S.view site.new) }
    ensures cause { HasOpenCause (S.view site.old).write_faults (S.view site.new).write_faults result }
{
    let mut files = SavedFiles::new(alloc);
    match create_each(alloc, site, job, &mut files) {
        Ok(()) => Ok(files),
        Err(fault) => {
            files.give(site);
            Err(fault)
        }
    }
}
