//! The simulation of a job's graph over its open inputs.
ghost use Rattle.std.specs.Prelude.{◌≡◌, ◌≢◌, ◌++◌, length, slice_index_or, None, IfOk, IfErr, OnOk};
ghost use Rattle.std.specs.List.{flat_map};
ghost use Rattle.io_edge.specs.Cause.{Rose};
ghost use Rattle.block_lowering.specs.Jobs.{FitsFeed, TellsFeed};
ghost use Rattle.cluster_laws.specs.Blocks.{setting_of};
ghost use Rattle.cluster_sim.specs.Openings.{IsOpening};
ghost use Rattle.cluster_world.specs.Worlds.{setting};
ghost use Rattle.task_graph.specs.Graphs.{shape_of};
ghost use Rattle.job_run.specs.Jobs.{plan_of};
ghost use Rattle.job_run.specs.Loading.{AreHeads};
ghost use Rattle.job_run.specs.Lowering.{IsGraphOf};
ghost use Rattle.job_run.specs.Plan.{IsRunnable, input_shapes};
ghost use Rattle.job_run.specs.Values.{tasks_of};
ghost use Rattle.sim_run.specs.Serving.{EndsAtKey, IsWantedOf, SavesFiles, ServesAll, ServesFiles, ServesPart, IsEndOf};
ghost use Rattle.sim_run.specs.Simulated.{AreSettings};

use crate::ends::SimEnded;
use crate::saving::{CLIENT, save_all};
use block_lowering::sources::Name;
use block_lowering::{Elements, JobGraph, Lowered};
use chunk_layout::Layout;
use cluster_msgs::{JobSpec, KeyList, Report, Sequence};
use cluster_sim::{Fault, SimError, SimPlan, simulate};
use cluster_world::World;
use command_words::SimWords;
use io_edge::{OpenFault, Site};
use job_run::{Ended, Halt, Inputs, Job, halt_at, laws_hold};
use lowering_laws::laws::law_of_form;
use nd_shape::Dims;
use std::alloc::{AllocError, Global};

/// What a simulation gave whose client got all: the report, and how many turns it took.
#[derive(Drop)]
pub struct Served {
    pub report: Report,
    pub turns: u64,
}

/// What the client wants: the keys of all saved blocks. And what is known of them: those of each save, in row-major order, with
/// the layout of its array; the node and block of each key of the graph; for each node how many chunks its array has on each axis.
#[derive(Drop)]
pub struct Wanted {
    pub all: KeyList,
    pub saved: Sequence<KeyList>,
    pub layouts: Sequence<Layout>,
    pub names: Sequence<Name>,
    pub blocks: Sequence<Dims>,
}

// How the run ends where the simulation gave no result. None is stuck by a script that leaves a worker at every point
// (`somebody_is_there`).
fn ended(error: SimError) -> SimEnded
    requires { error ≢ SimError.Stuck }
    ensures { IsEndOf error result }
{
    match error {
        SimError::Feed => SimEnded::Ran(Ended::ReadFault),
        SimError::Spent => SimEnded::Events,
        SimError::OutOfMemory => SimEnded::Ran(Ended::OutOfMemory),
        SimError::Stuck => unreachable!(),
    }
}

// Puts keys at the end.
fn push_keys(all: &mut Vec<u32>, keys: &[u32]) -> Result<(), AllocError>
    ensures { OnOk result (all.new.items ≡ all.old.items ++ keys.now) }
{
    for key in keys {
        all.push(*key)?;
    }
    Ok(())
}

// All of them, one list after another.
fn joined_keys(alloc: Global, lists: &[KeyList]) -> Result<KeyList, AllocError>
    ensures { IfOk result (λ keys. keys ≡ flat_map (λ ks. ks) lists.now) }
{
    let mut all = Vec::new(alloc);
    for keys in lists {
        push_keys(&mut all, keys.as_slice())?;
    }
    Ok(KeyList::from_vec(all))
}

// The node and the block that a key is, where it is one's own.
fn name_at(names: &[Name], key: u32) -> Name
    ensures { result ≡ slice_index_or names.now key None }
{
    match names.get(key as usize) {
        Some(name) => *name,
        None => None,
    }
}

// How the run ends where the client was told of a zero divisor at a key.
fn ended_at(alloc: Global, job: &Job, wanted: &Wanted, key: u32) -> Ended
    requires runs { IsRunnable (plan_of job.now) }
    requires wanted { IsWantedOf (plan_of job.now) wanted.now }
    ensures { EndsAtKey (plan_of job.now) key result }
{
    laws_hold(job);
    let name = name_at(wanted.names.as_slice(), key);
    match halt_at(alloc, job, wanted.blocks.as_slice(), name) {
        Halt::Zero { node, block } => Ended::Zero { node, block },
        _ => Ended::OutOfMemory,
    }
}

// Simulates the job of a world that was just made, and saves what its client got.
fn simulate_world<S: Site, E: Elements + Send + Sync + Drop>(
    alloc: Global,
    site: &mut S,
    job: &Job,
    world: &mut World<JobGraph<S::In, E>>,
    wanted: &Wanted,
    words: SimWords,
) -> Result<Served, SimEnded>
    requires runs { IsRunnable (plan_of job.now) }
    requires wanted { IsWantedOf (plan_of job.now) wanted.now }
    requires words { AreSettings words }
    requires opening { IsOpening ⟦<JobGraph<S::In, E> as JobSpec>⟧.operation world.old }
    requires setting { setting world.old ≡ setting_of (shape_of (tasks_of (plan_of job.now))) 1 words.settings.saturation words.settings.allowed }
    requires tasks { world.old.job.job.tasks ≡ tasks_of (plan_of job.now) }
    ensures files { SavesFiles (plan_of job.now) (S.view site.old) (S.view site.new) }
    ensures served { IfOk result (λ s. ServesAll (plan_of job.now) words E.named
        (TellsFeed world.old.job.job.heads (S.In.files world.old.feed)) (S.view site.old).files (S.view site.new).files s.report s.turns) }
    ensures stopped { IfErr result (ServesPart (plan_of job.now) words E.named (TellsFeed world.old.job.job.heads (S.In.files world.old.feed))
        (Rose (S.In.count world.old.feed) (S.In.count world.new.feed)) (Rose (S.view site.old).write_faults (S.view site.new).write_faults)
        (S.view site.old).files (S.view site.new).files) }
{
    laws_hold(job);
    let SimWords {
        job: _,
        settings,
        script,
    } = words;
    let plan = SimPlan {
        workers: settings.workers,
        threads: settings.threads,
        script,
    };
    let end = match simulate(alloc, world, settings.number, &plan, &wanted.all) {
        Ok(end) => end,
        Err(error) => return Err(ended(error)),
    };
    match end.fault {
        Some(Fault::Zero { key }) => return Err(SimEnded::Ran(ended_at(alloc, job, wanted, key))),
        Some(Fault::Killed { key, losses }) => {
            return Err(SimEnded::Ran(Ended::Killed { key, losses }));
        }
        None => {}
    }
    match save_all(
        alloc,
        site,
        job,
        world,
        wanted.saved.as_slice(),
        wanted.layouts.as_slice(),
    ) {
        Ok(()) => Ok(Served {
            report: end.report,
            turns: end.turns,
        }),
        Err(OpenFault::Failed) => Err(SimEnded::Ran(Ended::WriteFault)),
        Err(OpenFault::OutOfMemory) => Err(SimEnded::Ran(Ended::OutOfMemory)),
    }
}

/// Simulates a job's graph over its open inputs, and saves what the client got. Where the client didn't get all, no file is
/// created.
///
/// # Errors
/// How the run ends: `Events` where the simulation came to no end, a zero divisor or a killed key that the client was told of, a
/// fault, or want of memory.
pub fn serve<S: Site, E: Elements + Send + Sync + Drop>(
    alloc: Global,
    site: &mut S,
    job: &Job,
    lowered: Lowered,
    inputs: Inputs<S::In>,
    words: SimWords,
) -> Result<Served, SimEnded>
    requires runs { IsRunnable (plan_of job.now) }
    requires graph { IsGraphOf (plan_of job.now) lowered }
    requires heads { AreHeads (input_shapes job.now.expr) (S.In.files inputs.store) inputs.heads.items }
    requires count { length inputs.heads.items ≡ length (input_shapes job.now.expr) }
    requires fits { FitsFeed E.named inputs.heads.items (S.In.files inputs.store) }
    requires fresh { S.In.count inputs.store ≡ 0 }
    requires words { AreSettings words }
    ensures files { ServesFiles (plan_of job.now) (S.view site.old) (S.view site.new) }
    ensures served { IfOk result (λ s. ServesAll (plan_of job.now) words E.named
        (TellsFeed inputs.heads.items (S.In.files inputs.store)) (S.view site.old).files (S.view site.new).files s.report s.turns) }
    ensures stopped { IfErr result (ServesPart (plan_of job.now) words E.named (TellsFeed inputs.heads.items (S.In.files inputs.store))
        (Rose (S.view site.old).read_faults (S.view site.new).read_faults) (Rose (S.view site.old).write_faults (S.view site.new).write_faults)
        (S.view site.old).files (S.view site.new).files) }
{
    laws_hold(job);
    law_of_form();
    let Inputs { store, heads } = inputs;
    let Lowered {
        graph,
        names,
        saved,
        layouts,
        blocks,
    } = lowered;
    let all = joined_keys(alloc, saved.as_slice())?;
    let wanted = Wanted {
        all,
        saved,
        layouts,
        names,
        blocks,
    };
    let graph = JobGraph::<S::In, E>::new(alloc, graph, heads)?;
    let saturation = words.settings.saturation;
    let allowed = words.settings.allowed;
    let mut world = World::new(alloc, graph, store, CLIENT, saturation, allowed)?;
    let served = simulate_world(alloc, site, job, &mut world, &wanted, words);
    site.give_store(world.into_feed());
    served
}
