//! The run of a job's graph by the cluster, over its open inputs.
ghost use Rattle.std.specs.Prelude.{◌≡◌, ◌*◌, ◌⊎◌, length, map, is_some, vec_len, IfOk, IfErr, IfSome, IsOk, IsTrue, OnOk, Err, Some};
ghost use Rattle.io_edge.specs.Cause.{Rose};
ghost use Rattle.command_words.specs.Words.{AreRunSettings};
ghost use Rattle.job_run.specs.Jobs.{plan_of};
ghost use Rattle.job_run.specs.Loading.{AreHeads};
ghost use Rattle.job_run.specs.Lowering.{IsGraphOf};
ghost use Rattle.job_run.specs.Plan.{IsRunnable, input_shapes};
ghost use Rattle.job_run.specs.Values.{tasks_of};
ghost use Rattle.job_run.specs.Wanted.{IsWantedOf, wanted_of};
ghost use Rattle.block_lowering.specs.Jobs.{graph_of};
ghost use Rattle.io_edge.specs.Given.{OnGiven};
ghost use Rattle.job_run.specs.Inputs.{FitInputs};
ghost use Rattle.job_run.specs.Runs.{IsFitGiven};
ghost use Rattle.node_runner.specs.Runs.{numbers as numbers_of};
ghost use Rattle.node_runner.specs.declared.ends.RunStatus.TheVariants as status;
ghost use Rattle.task_graph.specs.Graphs.{shape_of};
ghost use Rattle.thread_run.specs.Counts.{feeds as feeds_of};
ghost use Rattle.thread_run.specs.Feeding.{IsFixed};
ghost use Rattle.thread_run.specs.Losses.{losses_by, losses_in};
ghost use Rattle.thread_run.specs.Planning.{IsRunPlan};
ghost use Rattle.thread_run.specs.Ends.{left_as};
ghost use Rattle.thread_run.specs.Reports.{IsOutgrown, IsOutgrownBy, IsPlanOf, IsServedRun, IsToldBy, IsToldOfRun, label};
ghost use Rattle.thread_run.specs.declared.ends.ThreadEnded.TheVariants.{Events};
ghost use Rattle.thread_run.specs.Serving.{HasShort, IsUnsaved, ServesAll, ServesFiles, ServesPart, StopsAt};

use crate::ends::ThreadEnded;
use crate::feeds::{Feed, Graphed, give_all, give_feeds, open_feeds};
use crate::keeper::Keeper;
use crate::name::{Named, Picks};
use crate::saver::Saver;
use crate::stores::{give_stores, open_stores};
use crate::told::told;
use crate::veil::Veil;
use crate::verdict::Told;
use block_lowering::{Elements, JobGraph, Lowered};
use cluster_msgs::{JobSpec, Label};
use command_words::RunWords;
use io_edge::{Gate, OpenFault, Site};
use job_run::{Ended, Inputs, Job, Wanted, ended_at, joined_keys, laws_hold};
use lowering_laws::laws::law_of_form;
use node_runner::{Ends, Histories, RunLabel, RunPlan, RunStatus, run_cluster};
use std::alloc::{AllocGlobal, Global};
use std::marker::Brand;
use std::random::RandomSource;
use std::sync::Wait;
use std::thread::Threads;
use worker_store::SpillingBlocks;

/// The label of a run over stores of this kind, and the store of a worker's blocks.
type Marked<I, E, V, P> = RunLabel<Graphed<I, E, V>, Named<V, P>>;

type Store<D, I, E, V, P> = SpillingBlocks<D, Marked<I, E, V, P>>;

/// How many packets a link holds.
const CAPACITY: usize = 64;

// How a run ends of which a file couldn't be created or written.
fn unsaved(fault: OpenFault) -> Ended
    ensures { IsUnsaved fault result }
{
    match fault {
        OpenFault::Failed => Ended::WriteFault,
        OpenFault::OutOfMemory => Ended::OutOfMemory,
    }
}

// Whether all was given and written, or how the run is stopped: a zero divisor, a killed key or a failed feed comes before what couldn't
// be written.
#[tactic(auto, using(crate::proofs::Serves::stops_unsaved, crate::proofs::Serves::stops_zero))]
fn all_done(
    alloc: Global,
    job: &Job,
    wanted: &Wanted,
    given: Result<(), RunStatus>,
    written: Result<(), OpenFault>,
) -> Result<(), ThreadEnded>
    requires runs { IsRunnable (plan_of job.now) }
    requires wanted { IsWantedOf (plan_of job.now) wanted.now }
    ensures given { OnOk result (IsOk given) }
    ensures written { OnOk result (IsOk written) }
    ensures stopped { IfErr result (λ end. StopsAt (plan_of job.now) given written (left_as end)) }
    ensures events { result ≡ Err Events → given ≡ Err status.Events }
{
    match given {
        Ok(()) => match written {
            Ok(()) => Ok(()),
            Err(fault) => Err(ThreadEnded::Ran(unsaved(fault))),
        },
        Err(RunStatus::Zero { key }) => Err(ThreadEnded::Ran(ended_at(alloc, job, wanted, key))),
        Err(RunStatus::Killed { key, losses }) => {
            Err(ThreadEnded::Ran(Ended::Killed { key, losses }))
        }
        Err(RunStatus::Read) => Err(ThreadEnded::Ran(Ended::ReadFault)),
        Err(RunStatus::Events) => match written {
            Ok(()) => Err(ThreadEnded::Events),
            Err(fault) => Err(ThreadEnded::Ran(unsaved(fault))),
        },
        Err(RunStatus::Memory) => match written {
            Ok(()) => Err(ThreadEnded::Ran(Ended::OutOfMemory)),
            Err(fault) => Err(ThreadEnded::Ran(unsaved(fault))),
        },
    }
}

// How a run ended: with its histories, which want memory too, or why not.
fn ended(
    alloc: Global,
    job: &Job,
    wanted: &Wanted,
    given: Result<(), RunStatus>,
    histories: Option<Histories>,
    written: Result<(), OpenFault>,
) -> Result<Histories, ThreadEnded>
    requires runs { IsRunnable (plan_of job.now) }
    requires wanted { IsWantedOf (plan_of job.now) wanted.now }
    ensures given { OnOk result (IsOk given) }
    ensures histories { IfOk result (λ h. histories ≡ Some h) }
    ensures written { OnOk result (IsOk written) }
    ensures stopped { IfErr result (λ end. StopsAt (plan_of job.now) given written (left_as end)) }
    ensures events { result ≡ Err Events → given ≡ Err status.Events }
{
    all_done(alloc, job, wanted, given, written)?;
    histories.ok_or(ThreadEnded::Ran(Ended::OutOfMemory))
}

// Runs a graph by the cluster over open feeds: creates the files of its saves, which are written as blocks come, and gives feeds and files
// back. The stores of its workers' blocks come back too.
fn run_saved<R, S, G, E, V, P>(
    rt: &R,
    alloc: Global,
    site: &mut S,
    gate: &G,
    job: &Job,
    graph: &Graphed<S::In, E, V>,
    wanted: &Wanted,
    plan: &RunPlan,
    feeds: Vec<Vec<Feed<S::In, E, V, P>>>,
    stores: Vec<Store<S::Spill, S::In, E, V, P>>,
) -> (
    Result<Histories, ThreadEnded>,
    Vec<Store<S::Spill, S::In, E, V, P>>,
)
where
    R: Threads + Wait + RandomSource + AllocGlobal + Sync,
    S: Site,
    G: Gate,
    E: Elements + Send + Sync + Drop,
    V: Veil + Send + Sync + Drop,
    P: Picks<Graphed<S::In, E, V>> + Send + Sync + Drop,
    requires runs { IsRunnable (plan_of job.now) }
    requires wanted { IsWantedOf (plan_of job.now) wanted.now }
    requires picked { P.picked ≡ Some graph.now }
    requires allowed { P.allowed ≡ plan.now.allowed }
    requires tasks { graph.now.job.tasks ≡ tasks_of (plan_of job.now) }
    requires plan { IsRunPlan plan.now }
    ensures files { ServesFiles (plan_of job.now) 0 (S.view site.old) (S.view site.new) }
    ensures served { OnOk result.0 (ServesAll (plan_of job.now) E.named (IsTrue V.told) (S.view site.old).files (S.view site.new).files) }
    ensures histories { IfOk result.0 (IsServedRun ⟦<RunLabel<Graphed<S::In, E, V>, Named<V, P>> as Label>⟧.facts
        (graph_of graph.now.job) plan.now wanted.now.all) }
    ensures outgrown { result.0 ≡ Err Events → IsOutgrown ⟦<RunLabel<Graphed<S::In, E, V>, Named<V, P>> as Label>⟧.facts (graph_of graph.now.job) plan.now }
    ensures stopped { IfErr result.0 (λ end. ServesPart (plan_of job.now) (losses_in plan.now) E.named (IsTrue V.told)
        (HasShort (map (λ v. vec_len v) feeds.items) plan.now.threads ⊎ Rose (S.view site.old).read_faults (S.view site.new).read_faults)
        (Rose (S.view site.old).write_faults (S.view site.new).write_faults)
        (S.view site.old).files (S.view site.new).files (left_as end)) }
{
    laws_hold(job);
    let keys = graph.shape().keys();
    let saver = match Saver::<S::Out, Marked<S::In, E, V, P>>::open(
        alloc, site, job, wanted, keys,
    ) {
        Ok(saver) => saver,
        Err(fault) => {
            give_all::<S, E, V, P>(site, feeds);
            return (Err(ThreadEnded::Ran(unsaved(fault))), stores);
        }
    };
    let keeper = Keeper { saver };
    let (ends, keeper) = run_cluster::<
        R,
        Graphed<S::In, E, V>,
        G,
        Named<V, P>,
        Store<S::Spill, S::In, E, V, P>,
        Keeper<'_, S::Out, Marked<S::In, E, V, P>>,
    >(
        rt,
        alloc,
        graph,
        gate,
        plan,
        &wanted.all,
        feeds,
        stores,
        keeper,
    );
    let Ends {
        result,
        histories,
        feeds,
        stores,
        ..
    } = ends;
    give_feeds::<S, E, V, P>(site, feeds);
    let Keeper { saver } = keeper;
    let written = saver.give(site);
    (
        ended(alloc, job, wanted, result, histories, written),
        stores,
    )
}

// The same of a graph whose feeds it opens. They are opened before a file is created, so that each has what the first opening found also
// where a file is saved under an input's name.
fn run_feeds<R, S, G, E, V, P>(
    rt: &R,
    alloc: Global,
    site: &mut S,
    gate: &G,
    job: &Job,
    graph: &Graphed<S::In, E, V>,
    wanted: &Wanted,
    plan: &RunPlan,
    stores: Vec<Store<S::Spill, S::In, E, V, P>>,
) -> (
    Result<Histories, ThreadEnded>,
    Vec<Store<S::Spill, S::In, E, V, P>>,
)
where
    R: Threads + Wait + RandomSource + AllocGlobal + Sync,
    S: Site,
    G: Gate,
    E: Elements + Send + Sync + Drop,
    V: Veil + Send + Sync + Drop,
    P: Picks<Graphed<S::In, E, V>> + Send + Sync + Drop,
    requires runs { IsRunnable (plan_of job.now) }
    requires wanted { IsWantedOf (plan_of job.now) wanted.now }
    requires picked { P.picked ≡ Some graph.now }
    requires allowed { P.allowed ≡ plan.now.allowed }
    requires tasks { graph.now.job.tasks ≡ tasks_of (plan_of job.now) }
    requires fixed { IsFixed E.named V.told (plan_of job.now).inputs graph.now.job.heads (S.view site.old).files }
    requires plan { IsRunPlan plan.now }
    ensures files { ServesFiles (plan_of job.now) (numbers_of plan.now * plan.now.threads) (S.view site.old) (S.view site.new) }
    ensures served { OnOk result.0 (ServesAll (plan_of job.now) E.named (IsTrue V.told) (S.view site.old).files (S.view site.new).files) }
    ensures histories { IfOk result.0 (IsServedRun ⟦<RunLabel<Graphed<S::In, E, V>, Named<V, P>> as Label>⟧.facts
        (graph_of graph.now.job) plan.now wanted.now.all) }
    ensures outgrown { result.0 ≡ Err Events → IsOutgrown ⟦<RunLabel<Graphed<S::In, E, V>, Named<V, P>> as Label>⟧.facts (graph_of graph.now.job) plan.now }
    ensures stopped { IfErr result.0 (λ end. ServesPart (plan_of job.now) (losses_in plan.now) E.named (IsTrue V.told)
        (Rose (S.view site.old).read_faults (S.view site.new).read_faults) (Rose (S.view site.old).write_faults (S.view site.new).write_faults)
        (S.view site.old).files (S.view site.new).files (left_as end)) }
{
    let names = job.inputs.as_slice();
    let Ok(feeds) = open_feeds::<S, E, V, P>(alloc, site, names, plan.numbers(), plan.threads)
    else {
        return (Err(ThreadEnded::Ran(Ended::OutOfMemory)), stores);
    };
    run_saved::<R, S, G, E, V, P>(
        rt, alloc, site, gate, job, graph, wanted, plan, feeds, stores,
    )
}

// The same, with stores of its workers' blocks, which may have so many bytes in memory each. Their disks are given back.
fn run_stored<R, S, G, E, V, P>(
    rt: &R,
    alloc: Global,
    site: &mut S,
    gate: &G,
    job: &Job,
    graph: &Graphed<S::In, E, V>,
    wanted: &Wanted,
    plan: &RunPlan,
    memory: u64,
) -> Result<Histories, ThreadEnded>
where
    R: Threads + Wait + RandomSource + AllocGlobal + Sync,
    S: Site,
    G: Gate,
    E: Elements + Send + Sync + Drop,
    V: Veil + Send + Sync + Drop,
    P: Picks<Graphed<S::In, E, V>> + Send + Sync + Drop,
    requires runs { IsRunnable (plan_of job.now) }
    requires wanted { IsWantedOf (plan_of job.now) wanted.now }
    requires picked { P.picked ≡ Some graph.now }
    requires allowed { P.allowed ≡ plan.now.allowed }
    requires tasks { graph.now.job.tasks ≡ tasks_of (plan_of job.now) }
    requires fixed { IsFixed E.named V.told (plan_of job.now).inputs graph.now.job.heads (S.view site.old).files }
    requires plan { IsRunPlan plan.now }
    ensures files { ServesFiles (plan_of job.now) (numbers_of plan.now * plan.now.threads) (S.view site.old) (S.view site.new) }
    ensures served { OnOk result (ServesAll (plan_of job.now) E.named (IsTrue V.told) (S.view site.old).files (S.view site.new).files) }
    ensures histories { IfOk result (IsServedRun ⟦<RunLabel<Graphed<S::In, E, V>, Named<V, P>> as Label>⟧.facts
        (graph_of graph.now.job) plan.now wanted.now.all) }
    ensures outgrown { result ≡ Err Events → IsOutgrown ⟦<RunLabel<Graphed<S::In, E, V>, Named<V, P>> as Label>⟧.facts (graph_of graph.now.job) plan.now }
    ensures stopped { IfErr result (λ end. ServesPart (plan_of job.now) (losses_in plan.now) E.named (IsTrue V.told)
        (Rose (S.view site.old).read_faults (S.view site.new).read_faults) (Rose (S.view site.old).write_faults (S.view site.new).write_faults)
        (S.view site.old).files (S.view site.new).files (left_as end)) }
{
    let Ok(stores) = open_stores::<S, Marked<S::In, E, V, P>>(alloc, site, plan.numbers(), memory)
    else {
        return Err(ThreadEnded::Ran(Ended::OutOfMemory));
    };
    let (served, stores) = run_feeds::<R, S, G, E, V, P>(
        rt, alloc, site, gate, job, graph, wanted, plan, stores,
    );
    give_stores::<S, Marked<S::In, E, V, P>>(site, stores);
    served
}

// The same, with what is told of the run: its report where it is asked for, and its audit.
#[tactic(auto, using(crate::proofs::Serves::part_all))]
fn run_graph<R, S, G, E, V, P>(
    rt: &R,
    alloc: Global,
    site: &mut S,
    gate: &G,
    job: &Job,
    graph: &Graphed<S::In, E, V>,
    wanted: &Wanted,
    plan: &RunPlan,
    memory: u64,
    asked: bool,
) -> Result<Told, ThreadEnded>
where
    R: Threads + Wait + RandomSource + AllocGlobal + Sync,
    S: Site,
    G: Gate,
    E: Elements + Send + Sync + Drop,
    V: Veil + Send + Sync + Drop,
    P: Picks<Graphed<S::In, E, V>> + Send + Sync + Drop,
    requires runs { IsRunnable (plan_of job.now) }
    requires wanted { IsWantedOf (plan_of job.now) wanted.now }
    requires picked { P.picked ≡ Some graph.now }
    requires allowed { P.allowed ≡ plan.now.allowed }
    requires tasks { graph.now.job.tasks ≡ tasks_of (plan_of job.now) }
    requires fixed { IsFixed E.named V.told (plan_of job.now).inputs graph.now.job.heads (S.view site.old).files }
    requires plan { IsRunPlan plan.now }
    ensures files { ServesFiles (plan_of job.now) (numbers_of plan.now * plan.now.threads) (S.view site.old) (S.view site.new) }
    ensures served { OnOk result (ServesAll (plan_of job.now) E.named (IsTrue V.told) (S.view site.old).files (S.view site.new).files) }
    ensures asked { IfOk result (λ told. is_some told.report ≡ asked) }
    ensures told { IfOk result (IsToldOfRun (label V.told plan.now.allowed E.named (tasks_of (plan_of job.now)))
        (shape_of (tasks_of (plan_of job.now))) plan.now (wanted_of (plan_of job.now))) }
    ensures outgrown { result ≡ Err Events → IsOutgrown (label V.told plan.now.allowed E.named (tasks_of (plan_of job.now)))
        (shape_of (tasks_of (plan_of job.now))) plan.now }
    ensures stopped { IfErr result (λ end. ServesPart (plan_of job.now) (losses_in plan.now) E.named (IsTrue V.told)
        (Rose (S.view site.old).read_faults (S.view site.new).read_faults) (Rose (S.view site.old).write_faults (S.view site.new).write_faults)
        (S.view site.old).files (S.view site.new).files (left_as end)) }
{
    let histories = run_stored::<R, S, G, E, V, P>(
        rt, alloc, site, gate, job, graph, wanted, plan, memory,
    )?;
    let told = told(
        alloc,
        graph.shape(),
        plan.saturation,
        plan.allowed,
        histories,
        asked,
    )?;
    Ok(told)
}

/// Runs a job's graph by the cluster over its open inputs, saves each wanted block as it comes, and makes the report of the run where the
/// words ask for it.
///
/// # Errors
/// How the run ends: a zero divisor or a killed key that the client was told of, a fault, a core that has taken all events that it takes, or want of
/// memory.
#[tactic(auto, using(crate::proofs::Serves::part_none))]
pub fn serve<R, S, G, E, V>(
    rt: &R,
    alloc: Global,
    site: &mut S,
    gate: &G,
    job: &Job,
    lowered: Lowered,
    inputs: Inputs<S::In>,
    words: RunWords,
) -> Result<Told, ThreadEnded>
where
    R: Threads + Wait + RandomSource + AllocGlobal + Sync,
    S: Site,
    G: Gate,
    E: Elements + Send + Sync + Drop,
    V: Veil + Send + Sync + Drop,
    requires runs { IsRunnable (plan_of job.now) }
    requires graph { IsGraphOf (plan_of job.now) lowered }
    requires heads { AreHeads (input_shapes job.now.expr) (S.In.files inputs.store) inputs.heads.items }
    requires count { length inputs.heads.items ≡ length (input_shapes job.now.expr) }
    requires fixed { IsFixed E.named V.told (plan_of job.now).inputs inputs.heads.items (S.view site.old).files }
    requires fresh { S.In.count inputs.store ≡ 0 }
    requires words { AreRunSettings words }
    requires given { OnGiven (S.In.gave inputs.store) (λ holds. FitInputs (plan_of job.now) (map holds (plan_of job.now).inputs)) }
    ensures files { ServesFiles (plan_of job.now) (feeds_of words) (S.view site.old) (S.view site.new) }
    ensures given { IsFitGiven (plan_of job.now) (S.view site.old) (S.view site.new) }
    ensures served { OnOk result (ServesAll (plan_of job.now) E.named (IsTrue V.told) (S.view site.old).files (S.view site.new).files) }
    ensures asked { IfOk result (λ told. is_some told.report ≡ words.report) }
    ensures told { IfOk result (IsToldBy (label V.told words.settings.allowed E.named (tasks_of (plan_of job.now)))
        (shape_of (tasks_of (plan_of job.now))) words (wanted_of (plan_of job.now))) }
    ensures outgrown { result ≡ Err Events → IsOutgrownBy (label V.told words.settings.allowed E.named (tasks_of (plan_of job.now)))
        (shape_of (tasks_of (plan_of job.now))) words }
    ensures stopped { IfErr result (λ end. ServesPart (plan_of job.now) (losses_by words) E.named (IsTrue V.told)
        (Rose (S.view site.old).read_faults (S.view site.new).read_faults) (Rose (S.view site.old).write_faults (S.view site.new).write_faults)
        (S.view site.old).files (S.view site.new).files (left_as end)) }
{
    laws_hold(job);
    law_of_form();
    let Inputs { store, heads } = inputs;
    site.give_store(store);
    let Lowered {
        graph,
        names,
        saved,
        layouts,
        blocks,
    } = lowered;
    let all = joined_keys(alloc, saved.as_slice())?;
    let wanted = Wanted {
        all,
        saved,
        layouts,
        names,
        blocks,
    };
    let graph = JobGraph::new(alloc, graph, heads)?;
    let asked = words.report;
    let memory = words.memory;
    let plan = plan_in(words);
    run_graph::<R, S, G, E, V, Brand>(
        rt, alloc, site, gate, job, &graph, &wanted, &plan, memory, asked,
    )
}

// What a run by these words is to be like.
fn plan_in(words: RunWords) -> RunPlan
    requires { AreRunSettings words }
    ensures plan { IsRunPlan result }
    ensures same { IsPlanOf words result }
    ensures feeds { numbers_of result * result.threads ≡ feeds_of words }
{
    let RunWords {
        job: _,
        settings,
        memory: _,
        script,
        report: _,
    } = words;
    RunPlan {
        workers: settings.workers,
        threads: settings.threads,
        saturation: settings.saturation,
        allowed: settings.allowed,
        script,
        capacity: CAPACITY,
    }
}
