//! The evaluation of a job over its open inputs.
ghost use Rattle.std.specs.Prelude.{◌≡◌, length, map, IfOk};
ghost use Rattle.io_edge.specs.Given.{OnGiven};
ghost use Rattle.job_run.specs.Inputs.{FitInputs};
ghost use Rattle.block_lowering.specs.Jobs.{FitsFeed, IsJob, TellsFeed};
ghost use Rattle.job_run.specs.Evaluating.{EvaluatesInputs};
ghost use Rattle.job_run.specs.Jobs.{plan_of};
ghost use Rattle.job_run.specs.Loading.{AreHeads, HaveHeadsNamed};
ghost use Rattle.job_run.specs.Lowering.{IsGraphOf};
ghost use Rattle.job_run.specs.Plan.{IsRunnable, input_shapes};
ghost use Rattle.job_run.specs.Starting.{AreOfShapes, IsJobOver, end_of};

use crate::blocks::{Halt, make_blocks};
use crate::create::create_files;
use crate::ends::Ended;
use crate::inputs::Inputs;
use block_lowering::{Elements, JobGraph, Lowered};
use graph_run::Evaluation;
use io_edge::{OpenFault, Site};
use job_plan::Job;
use lowering_laws::laws::{law_of_form, law_of_order};
use npy_codec::Head;
use std::alloc::{AllocError, Global};
use task_graph::Graph;

// What the laws say of a job's graph and of its arrays. It does nothing.
fn laws_of_start(job: &Job)
    requires { IsRunnable (plan_of job.now) }
    ensures graph { IsJobOver (plan_of job.now) }
    ensures arrays { AreOfShapes (plan_of job.now) }
{
    let _nodes = job.expr.nodes();
    law_of_order();
    law_of_form();
}

// The evaluation of a graph over these files, before its first key.
fn begin<S: Site, E: Elements + Send + Sync + Drop>(
    alloc: Global,
    graph: Graph,
    heads: Vec<Head>,
    store: S::In,
) -> Result<Evaluation<JobGraph<S::In, E>>, AllocError>
    requires job { IsJob graph heads.items }
    requires fits { FitsFeed E.named heads.items (S.In.files store) }
    ensures job { IfOk result (λ e. e.job.job ≡ record { tasks = graph; heads = heads.items }) }
    ensures feed { IfOk result (λ e. e.feed ≡ store) }
    ensures next { IfOk result (λ e. e.next ≡ 0) }
{
    let job = JobGraph::new(alloc, graph, heads)?;
    Evaluation::new(alloc, job, store)
}

// The end of a run whose blocks were not all made and written.
fn end_of(halt: Halt) -> Ended
    ensures { result ≡ end_of halt }
{
    match halt {
        Halt::Zero { node, block } => Ended::Zero { node, block },
        Halt::ReadFault => Ended::ReadFault,
        Halt::WriteFault => Ended::WriteFault,
        Halt::OutOfMemory => Ended::OutOfMemory,
    }
}

/// Evaluates a job over its open inputs: creates the files of its saves, makes its blocks in the order of their keys, each let go
/// after its last use, and writes those that are saved. All is given back at the end.
pub fn evaluate<S: Site, E: Elements + Send + Sync + Drop>(
    alloc: Global,
    site: &mut S,
    job: &Job,
    lowered: Lowered,
    inputs: Inputs<S::In>,
) -> Ended
    requires runs { IsRunnable (plan_of job.now) }
    requires graph { IsGraphOf (plan_of job.now) lowered }
    requires heads { AreHeads (input_shapes job.now.expr) (S.In.files inputs.store) inputs.heads.items }
    requires count { length inputs.heads.items ≡ length (input_shapes job.now.expr) }
    requires fits { FitsFeed E.named inputs.heads.items (S.In.files inputs.store) }
    requires fresh { S.In.count inputs.store ≡ 0 }
    requires named { S.In.names inputs.store ≡ (plan_of job.now).inputs }
    requires given { OnGiven (S.In.gave inputs.store) (λ holds. FitInputs (plan_of job.now) (map holds (plan_of job.now).inputs)) }
    requires given_heads { OnGiven (S.In.gave inputs.store) (HaveHeadsNamed (plan_of job.now).inputs inputs.heads.items) }
    ensures { EvaluatesInputs (plan_of job.now) E.named (TellsFeed inputs.heads.items (S.In.files inputs.store)) (S.view site.old) (S.view site.new) result }
{
    laws_of_start(job);
    let Inputs { store, heads } = inputs;
    let Lowered {
        graph,
        names,
        layouts,
        blocks,
        ..
    } = lowered;
    let mut files = match create_files(alloc, site, job) {
        Ok(files) => files,
        Err(fault) => {
            site.give_store(store);
            return match fault {
                OpenFault::Failed => Ended::WriteFault,
                OpenFault::OutOfMemory => Ended::OutOfMemory,
            };
        }
    };
    let mut evaluation = match begin::<S, E>(alloc, graph, heads, store) {
        Ok(evaluation) => evaluation,
        Err(_) => {
            files.give(site);
            return Ended::OutOfMemory;
        }
    };
    let made = make_blocks::<S, E>(
        alloc,
        &mut evaluation,
        &mut files,
        job,
        names.as_slice(),
        layouts.as_slice(),
        blocks.as_slice(),
    );
    site.give_store(evaluation.into_feed());
    files.give(site);
    match made {
        Ok(()) => Ended::Done,
        Err(halt) => end_of(halt),
    }
}
