//! The blocks of a job, made key by key, and written where they are saved.
ghost use Rattle.std.specs.Prelude.{◌≡◌, ◌<◌, ◌+◌, ◌↔◌, ℕ, List, [], map, length, Some, IfOk, IfErr, OnOk, OnErr, IsErrOf};
ghost use Rattle.std.specs.Arc.{arc_value};
ghost use Rattle.array_expr.specs.Node.{shape_at};
ghost use Rattle.nd_shape.specs.Index.{index_at};
ghost use Rattle.nd_shape.specs.Region.{Box};
ghost use Rattle.nd_shape.specs.Shape.{elements};
ghost use Rattle.chunk_layout.specs.Layouts.{region, lengths, blocks as block_count};
ghost use Rattle.block_lowering.specs.Jobs.{HaveNamed, TellsFeed};
ghost use Rattle.io_edge.specs.Given.{Agree};
ghost use Rattle.lowering_laws.specs.Lowered.{lowered};
ghost use Rattle.lowering_laws.specs.Named.{layout_of, box_of, name_of};
ghost use Rattle.saved_files.specs.Filling.{HoldsBox};
ghost use Rattle.saved_files.specs.Saving.{saving_at};
ghost use Rattle.job_run.specs.Evaluating.{array_at, node_at, AreOpenFor, AreSameFiles, HasFailed};
ghost use Rattle.job_run.specs.Evaluating.{HasNotFailed, HasLaws, HaltCause, GivenOver, HaltGiven, HaltKeeps};
ghost use Rattle.job_run.specs.Evaluating.{FilesHold, FilesRight, FilesWhole, HoldsNamed, IsBlockNamed, IsZeroOf, boxes_made};
ghost use Rattle.job_run.specs.Grouping.{AddsBox, AddsNamed, FilesHeld, IsGroup, waiting_of};
ghost use Rattle.job_run.specs.Jobs.{plan_of};
ghost use Rattle.job_run.specs.Lowering.{HasBlock, counts_made};
ghost use Rattle.job_run.specs.Plan.{IsRunnable, nodes_saved};
ghost use Rattle.job_run.specs.Values.{Named, MeetsNone, tasks_of};

use crate::group::{Group, hold_block, write_group};
use array_expr::NodeId;
use block_lowering::counts::numbers_of;
use block_lowering::sources::Name;
use block_lowering::{Elements, JobGraph};
use chunk_layout::Layout;
use cluster_msgs::RunFail;
use graph_run::{Evaluation, Step};
use io_edge::{OpenFault, OutFile, Site};
use job_plan::Job;
use lowering_laws::laws::{law_of_names, law_of_order};
use lowering_laws::values::law_of_expression;
use nd_shape::{Block, Dims, Region};
use saved_files::{SavedFiles, filled_is_whole};
use std::alloc::{AllocError, Global};
use std::sync::Arc;

/// Why not all blocks were made and written.
#[derive(Drop)]
pub enum Halt {
    /// A divisor in this block of this node is zero.
    Zero { node: NodeId, block: Dims },
    ReadFault,
    WriteFault,
    OutOfMemory,
}

/// The laws of lowering hold of a job. It does nothing.
pub fn laws_hold(job: &Job)
    requires { IsRunnable (plan_of job.now) }
    ensures { (named : Named) → HasLaws (plan_of job.now) named }
{
    let _nodes = job.expr.nodes();
    law_of_order();
    law_of_names();
    law_of_expression(&job.expr);
}

// ---- a block at its places

// Has a block wait at the file of the array of a save with this layout.
fn save_at<F: OutFile>(
    alloc: Global,
    files: &mut SavedFiles<F>,
    group: &mut Group,
    job: &Job,
    place: usize,
    layout: &Layout,
    number: u32,
    block: &Arc<Block>,
) -> Result<(), OpenFault>
    requires runs { IsRunnable (plan_of job.now) }
    requires open { AreOpenFor (plan_of job.now) files.old }
    requires group { IsGroup (plan_of job.now) (waiting_of group.old) }
    requires there { place < length (plan_of job.now).saves }
    requires dims { lengths layout.now ≡ shape_at job.now.expr (node_at (plan_of job.now) place) }
    requires number { number < block_count layout.now }
    requires shape { (arc_value block.now).shape ≡ (region layout.now number).lengths }
    ensures same { AreSameFiles files.old files.new }
    ensures group { OnOk result (IsGroup (plan_of job.now) (waiting_of group.new)) }
    ensures held { OnOk result ((named : Named) (before after : ℕ → List Box) → AddsBox (plan_of job.now) place (region layout.now number) before after
        → HoldsBox (array_at (plan_of job.now) named place) (region layout.now number) (arc_value block.now)
        → FilesHeld (plan_of job.now) named before (waiting_of group.old) files.old → FilesHeld (plan_of job.now) named after (waiting_of group.new) files.new) }
    ensures right { OnErr result ((named : Named) (boxes : ℕ → List Box)
        → HoldsBox (array_at (plan_of job.now) named place) (region layout.now number) (arc_value block.now)
        → FilesHeld (plan_of job.now) named boxes (waiting_of group.old) files.old → FilesRight (plan_of job.now) named files.new) }
    ensures kept { OnOk result ((k : ℕ) → k < length files.old → (saving_at files.new k).faults ≡ (saving_at files.old k).faults) }
    ensures failed { IsErrOf result OpenFault.Failed → HasFailed files.new }
{
    let mut region = Region::new();
    layout.block_region(u64::from(number), &mut region);
    hold_block(alloc, files, group, job, place, region, block)
}

// Has a block of a node wait at the files of its saves.
fn save_named<F: OutFile>(
    alloc: Global,
    files: &mut SavedFiles<F>,
    group: &mut Group,
    job: &Job,
    layouts: &[Layout],
    node: u32,
    number: u32,
    block: &Arc<Block>,
) -> Result<(), OpenFault>
    requires runs { IsRunnable (plan_of job.now) }
    requires open { AreOpenFor (plan_of job.now) files.old }
    requires group { IsGroup (plan_of job.now) (waiting_of group.old) }
    requires layouts { layouts.now ≡ map (layout_of job.now.expr) (nodes_saved (plan_of job.now)) }
    requires number { number < block_count (layout_of job.now.expr node) }
    requires shape { (arc_value block.now).shape ≡ (box_of job.now.expr node number).lengths }
    ensures same { AreSameFiles files.old files.new }
    ensures group { OnOk result (IsGroup (plan_of job.now) (waiting_of group.new)) }
    ensures held { OnOk result ((named : Named) (before after : ℕ → List Box) → AddsNamed (plan_of job.now) (Some (node, number)) before after
        → HoldsNamed (plan_of job.now) named (Some (node, number)) (arc_value block.now)
        → FilesHeld (plan_of job.now) named before (waiting_of group.old) files.old → FilesHeld (plan_of job.now) named after (waiting_of group.new) files.new) }
    ensures right { OnErr result ((named : Named) (boxes : ℕ → List Box)
        → HoldsNamed (plan_of job.now) named (Some (node, number)) (arc_value block.now)
        → FilesHeld (plan_of job.now) named boxes (waiting_of group.old) files.old → FilesRight (plan_of job.now) named files.new) }
    ensures kept { OnOk result ((k : ℕ) → k < length files.old → (saving_at files.new k).faults ≡ (saving_at files.old k).faults) }
    ensures failed { IsErrOf result OpenFault.Failed → HasFailed files.new }
{
    let _nodes = job.expr.nodes();
    for (place, save) in job.saves.iter().enumerate() {
        if save.node.number() == node {
            save_at(
                alloc,
                files,
                group,
                job,
                place,
                &layouts[place],
                number,
                block,
            )?;
        }
    }
    Ok(())
}

// Has a block wait at the files of the saves of its node, where it is a node's own.
fn save_block<F: OutFile>(
    alloc: Global,
    files: &mut SavedFiles<F>,
    group: &mut Group,
    job: &Job,
    layouts: &[Layout],
    name: Name,
    block: &Arc<Block>,
) -> Result<(), OpenFault>
    requires runs { IsRunnable (plan_of job.now) }
    requires open { AreOpenFor (plan_of job.now) files.old }
    requires group { IsGroup (plan_of job.now) (waiting_of group.old) }
    requires layouts { layouts.now ≡ map (layout_of job.now.expr) (nodes_saved (plan_of job.now)) }
    requires named { IsBlockNamed (plan_of job.now) name (arc_value block.now) }
    ensures same { AreSameFiles files.old files.new }
    ensures group { OnOk result (IsGroup (plan_of job.now) (waiting_of group.new)) }
    ensures held { OnOk result ((named : Named) (before after : ℕ → List Box) → AddsNamed (plan_of job.now) name before after
        → HoldsNamed (plan_of job.now) named name (arc_value block.now)
        → FilesHeld (plan_of job.now) named before (waiting_of group.old) files.old → FilesHeld (plan_of job.now) named after (waiting_of group.new) files.new) }
    ensures right { OnErr result ((named : Named) (boxes : ℕ → List Box) → HoldsNamed (plan_of job.now) named name (arc_value block.now)
        → FilesHeld (plan_of job.now) named boxes (waiting_of group.old) files.old → FilesRight (plan_of job.now) named files.new) }
    ensures kept { OnOk result ((k : ℕ) → k < length files.old → (saving_at files.new k).faults ≡ (saving_at files.old k).faults) }
    ensures failed { IsErrOf result OpenFault.Failed → HasFailed files.new }
{
    match name {
        Some((node, number)) => save_named(alloc, files, group, job, layouts, node, number, block),
        None => Ok(()),
    }
}

// ---- the next key

// The index at a place below these counts.
fn index_of(alloc: Global, counts: &Dims, place: u32) -> Result<Dims, AllocError>
    requires { place < elements counts.now }
    ensures { IfOk result (λ index. index ≡ index_at counts.now place) }
{
    let counts = counts.as_slice();
    let mut numbers = Vec::from_slice(alloc, counts)?;
    numbers_of(counts, u64::from(place), numbers.as_mut_slice());
    Ok(Dims::from_vec(numbers))
}

/// A zero divisor in the block with this name. What has no name divides nothing.
pub fn halt_at(alloc: Global, job: &Job, blocks: &[Dims], name: Name) -> Halt
    requires counts { blocks.now ≡ counts_made job.now.expr }
    requires there { HasBlock job.now.expr name }
    ensures { IsZeroOf (plan_of job.now) name result }
{
    let _nodes = job.expr.nodes();
    let Some((node, number)) = name else {
        return Halt::OutOfMemory;
    };
    match index_of(alloc, &blocks[node as usize], number) {
        Ok(block) => Halt::Zero {
            node: NodeId::new(node),
            block,
        },
        Err(_) => Halt::OutOfMemory,
    }
}

// Makes the block of the next key, or tells why there is none.
fn next_block<S: Site, E: Elements + Send + Sync + Drop>(
    alloc: Global,
    evaluation: &mut Evaluation<JobGraph<S::In, E>>,
    job: &Job,
    blocks: &[Dims],
    name: Name,
) -> Result<Arc<Block>, Halt>
    requires runs { IsRunnable (plan_of job.now) }
    requires tasks { evaluation.old.job.job.tasks ≡ tasks_of (plan_of job.now) }
    requires there { evaluation.old.next < length (tasks_of (plan_of job.now)) }
    requires name { name_of job.now.expr (nodes_saved (plan_of job.now)) evaluation.old.next ≡ name }
    requires blocks { blocks.now ≡ counts_made job.now.expr }
    ensures job { evaluation.new.job ≡ evaluation.old.job }
    ensures next { OnOk result (evaluation.new.next ≡ evaluation.old.next + 1) }
    ensures tells { TellsFeed evaluation.old.job.job.heads (S.In.files evaluation.new.feed)
        ↔ TellsFeed evaluation.old.job.job.heads (S.In.files evaluation.old.feed) }
    ensures reads { OnOk result (S.In.count evaluation.new.feed ≡ S.In.count evaluation.old.feed) }
    ensures named { IfOk result (λ b. IsBlockNamed (plan_of job.now) name (arc_value b)) }
    ensures holds { IfOk result (λ b. TellsFeed evaluation.old.job.job.heads (S.In.files evaluation.old.feed)
        → HoldsNamed (plan_of job.now) E.named name (arc_value b)) }
    ensures agreed { (holds : List ℕ → List ℕ) → Agree holds (S.In.gave evaluation.new.feed) → Agree holds (S.In.gave evaluation.old.feed) }
    ensures have { (holds : List ℕ → List ℕ) (named : Named) → HaveNamed evaluation.old.job.job.heads (S.In.names evaluation.new.feed) holds named
        ↔ HaveNamed evaluation.old.job.job.heads (S.In.names evaluation.old.feed) holds named }
    ensures given { IfErr result (HaltGiven (plan_of job.now) evaluation.old.job.job.heads (S.In.names evaluation.old.feed) (S.In.gave evaluation.new.feed)) }
    ensures cause { IfErr result (HaltCause (plan_of job.now) E.named (TellsFeed evaluation.old.job.job.heads (S.In.files evaluation.old.feed))
        [] (S.In.count evaluation.old.feed) (S.In.count evaluation.new.feed)) }
{
    laws_hold(job);
    match evaluation.step() {
        Ok(Step::Made(block)) => Ok(block),
        Ok(Step::Zero) => Err(halt_at(alloc, job, blocks, name)),
        Err(RunFail::Feed) => Err(Halt::ReadFault),
        Err(RunFail::OutOfMemory) => Err(Halt::OutOfMemory),
    }
}

// Makes the block of the next key and has it wait where it is saved.
fn make_block<S: Site, E: Elements + Send + Sync + Drop>(
    alloc: Global,
    evaluation: &mut Evaluation<JobGraph<S::In, E>>,
    files: &mut SavedFiles<S::Out>,
    group: &mut Group,
    job: &Job,
    name: Name,
    layouts: &[Layout],
    blocks: &[Dims],
) -> Result<(), Halt>
    requires runs { IsRunnable (plan_of job.now) }
    requires tasks { evaluation.old.job.job.tasks ≡ tasks_of (plan_of job.now) }
    requires there { evaluation.old.next < length (tasks_of (plan_of job.now)) }
    requires name { name_of job.now.expr (nodes_saved (plan_of job.now)) evaluation.old.next ≡ name }
    requires layouts { layouts.now ≡ map (layout_of job.now.expr) (nodes_saved (plan_of job.now)) }
    requires blocks { blocks.now ≡ counts_made job.now.expr }
    requires open { AreOpenFor (plan_of job.now) files.old }
    requires group { IsGroup (plan_of job.now) (waiting_of group.old) }
    ensures job { evaluation.new.job ≡ evaluation.old.job }
    ensures next { OnOk result (evaluation.new.next ≡ evaluation.old.next + 1) }
    ensures tells { TellsFeed evaluation.old.job.job.heads (S.In.files evaluation.new.feed)
        ↔ TellsFeed evaluation.old.job.job.heads (S.In.files evaluation.old.feed) }
    ensures reads { OnOk result (S.In.count evaluation.new.feed ≡ S.In.count evaluation.old.feed) }
    ensures group { OnOk result (IsGroup (plan_of job.now) (waiting_of group.new)) }
    ensures same { AreSameFiles files.old files.new }
    ensures holds { OnOk result (TellsFeed evaluation.old.job.job.heads (S.In.files evaluation.old.feed)
        → FilesHeld (plan_of job.now) E.named (boxes_made (plan_of job.now) evaluation.old.next) (waiting_of group.old) files.old
        → FilesHeld (plan_of job.now) E.named (boxes_made (plan_of job.now) (evaluation.old.next + 1)) (waiting_of group.new) files.new) }
    ensures right { OnErr result (TellsFeed evaluation.old.job.job.heads (S.In.files evaluation.old.feed)
        → FilesHeld (plan_of job.now) E.named (boxes_made (plan_of job.now) evaluation.old.next) (waiting_of group.old) files.old
        → FilesRight (plan_of job.now) E.named files.new) }
    ensures sound { OnOk result (HasNotFailed files.old → HasNotFailed files.new) }
    ensures keeps { IfErr result (λ halt. HasNotFailed files.old → HaltKeeps files.new halt) }
    ensures agreed { (holds : List ℕ → List ℕ) → Agree holds (S.In.gave evaluation.new.feed) → Agree holds (S.In.gave evaluation.old.feed) }
    ensures have { (holds : List ℕ → List ℕ) (named : Named) → HaveNamed evaluation.old.job.job.heads (S.In.names evaluation.new.feed) holds named
        ↔ HaveNamed evaluation.old.job.job.heads (S.In.names evaluation.old.feed) holds named }
    ensures given { IfErr result (HaltGiven (plan_of job.now) evaluation.old.job.job.heads (S.In.names evaluation.old.feed) (S.In.gave evaluation.new.feed)) }
    ensures cause { IfErr result (HaltCause (plan_of job.now) E.named (TellsFeed evaluation.old.job.job.heads (S.In.files evaluation.old.feed))
        files.new (S.In.count evaluation.old.feed) (S.In.count evaluation.new.feed)) }
{
    laws_hold(job);
    let made = next_block::<S, E>(alloc, evaluation, job, blocks, name)?;
    match save_block(alloc, files, group, job, layouts, name, &made) {
        Ok(()) => Ok(()),
        Err(OpenFault::Failed) => Err(Halt::WriteFault),
        Err(OpenFault::OutOfMemory) => Err(Halt::OutOfMemory),
    }
}

/// Makes all blocks, in the order of their keys, and writes the saved ones as they come, or with those beside them.
pub fn make_blocks<S: Site, E: Elements + Send + Sync + Drop>(
    alloc: Global,
    evaluation: &mut Evaluation<JobGraph<S::In, E>>,
    files: &mut SavedFiles<S::Out>,
    job: &Job,
    names: &[Name],
    layouts: &[Layout],
    blocks: &[Dims],
) -> Result<(), Halt>
    requires runs { IsRunnable (plan_of job.now) }
    requires tasks { evaluation.old.job.job.tasks ≡ tasks_of (plan_of job.now) }
    requires first { evaluation.old.next ≡ 0 }
    requires names { names.now ≡ (lowered job.now.expr (nodes_saved (plan_of job.now))).names }
    requires layouts { layouts.now ≡ map (layout_of job.now.expr) (nodes_saved (plan_of job.now)) }
    requires blocks { blocks.now ≡ counts_made job.now.expr }
    requires open { AreOpenFor (plan_of job.now) files.old }
    requires fresh { FilesHold (plan_of job.now) E.named (λ k. []) files.old }
    requires sound { HasNotFailed files.old }
    ensures same { AreSameFiles files.old files.new }
    ensures values { OnOk result (TellsFeed evaluation.old.job.job.heads (S.In.files evaluation.old.feed) → MeetsNone (plan_of job.now) E.named) }
    ensures agreed { (holds : List ℕ → List ℕ) → Agree holds (S.In.gave evaluation.new.feed) → Agree holds (S.In.gave evaluation.old.feed) }
    ensures have { (holds : List ℕ → List ℕ) (named : Named) → HaveNamed evaluation.old.job.job.heads (S.In.names evaluation.new.feed) holds named
        ↔ HaveNamed evaluation.old.job.job.heads (S.In.names evaluation.old.feed) holds named }
    ensures given_values { OnOk result (GivenOver evaluation.old.job.job.heads (S.In.names evaluation.old.feed)
        (S.In.gave evaluation.new.feed) (MeetsNone (plan_of job.now))) }
    ensures given { IfErr result (HaltGiven (plan_of job.now) evaluation.old.job.job.heads (S.In.names evaluation.old.feed) (S.In.gave evaluation.new.feed)) }
    ensures whole { OnOk result (TellsFeed evaluation.old.job.job.heads (S.In.files evaluation.old.feed)
        → FilesWhole (plan_of job.now) E.named files.new) }
    ensures right { OnErr result (TellsFeed evaluation.old.job.job.heads (S.In.files evaluation.old.feed)
        → FilesRight (plan_of job.now) E.named files.new) }
    ensures sound { OnOk result (HasNotFailed files.new) }
    ensures keeps { IfErr result (HaltKeeps files.new) }
    ensures reads { OnOk result (S.In.count evaluation.new.feed ≡ S.In.count evaluation.old.feed) }
    ensures cause { IfErr result (HaltCause (plan_of job.now) E.named (TellsFeed evaluation.old.job.job.heads (S.In.files evaluation.old.feed))
        files.new (S.In.count evaluation.old.feed) (S.In.count evaluation.new.feed)) }
{
    laws_hold(job);
    filled_is_whole();
    let mut group = Group::new(alloc);
    for name in names {
        make_block::<S, E>(
            alloc, evaluation, files, &mut group, job, *name, layouts, blocks,
        )?;
    }
    evaluation.sound();
    match write_group(alloc, files, &mut group, job) {
        Ok(()) => Ok(()),
        Err(OpenFault::Failed) => Err(Halt::WriteFault),
        Err(OpenFault::OutOfMemory) => Err(Halt::OutOfMemory),
    }
}
