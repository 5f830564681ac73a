//! Saved blocks that wait for those beside them, so that a row of all of them is written at once.
ghost use Rattle.std.specs.Prelude.{◌≡◌, ◌<◌, ◌∷◌, ◌++◌, ℕ, [], List, length, OnOk, OnErr, IsErrOf, IsTrue};
ghost use Rattle.std.specs.Arc.{arc_value};
ghost use Rattle.array_expr.specs.Node.{shape_at};
ghost use Rattle.nd_shape.specs.Region.{Box, IsPart};
ghost use Rattle.saved_files.specs.Filling.{HoldsBox};
ghost use Rattle.saved_files.specs.Saving.{saving_at};
ghost use Rattle.job_run.specs.Evaluating.{array_at, node_at, AreOpenFor, AreSameFiles, FilesHold, FilesRight, HasFailed};
ghost use Rattle.job_run.specs.Grouping.{AddsBox, FilesHeld, IsGroup, waiting_of};
ghost use Rattle.job_run.specs.Jobs.{plan_of};
ghost use Rattle.job_run.specs.Plan.{IsRunnable};
ghost use Rattle.job_run.specs.Values.{Named};

use io_edge::{OpenFault, OutFile};
use job_plan::Job;
use nd_shape::{Block, Region};
use saved_files::SavedFiles;
use std::alloc::{AllocError, Global};
use std::sync::Arc;

// A block of fewer elements is written by itself.
const LEAST: u64 = 4096;

// No block waits where a row of those that do has so many elements.
const ROW: u64 = 8192;

// Nor where they have so many elements in all.
const MOST: u64 = 4194304;

/// Blocks of the node of one save, which are still to be written, and the region of each.
#[derive(Drop)]
pub struct Group {
    pub place: usize,
    pub regions: Vec<Region>,
    pub blocks: Vec<Arc<Block>>,
}

// Whether a region goes on along the last axis where the other ends. No memory.
fn is_beside(region: &Region, next: &Region) -> bool {
    let (starts, lengths) = (region.starts(), region.lengths());
    let (ahead, wide) = (next.starts(), next.lengths());
    let axes = starts.len();
    if axes == 0 || ahead.len() != axes {
        return false;
    }
    let last = axes - 1;
    if starts[..last] != ahead[..last] || lengths[..last] != wide[..last] {
        return false;
    }
    ahead[last].checked_sub(starts[last]) == Some(lengths[last])
}

// How many elements a region has along the last axis, and how many it has at most. No memory.
fn extent(region: &Region) -> (u64, u64) {
    let mut row = 1;
    let mut all: u64 = 1;
    for length in region.lengths() {
        row = *length;
        all = all.saturating_mul(*length);
    }
    (row, all)
}

impl Group {
    /// No blocks. No memory.
    pub fn new(alloc: Global) -> Group
        ensures regions { result.regions.items ≡ [] }
        ensures blocks { result.blocks.items ≡ [] }
    {
        Group {
            place: 0,
            regions: Vec::new(alloc),
            blocks: Vec::new(alloc),
        }
    }

    // Whether this region of the node of a save stands beside the last one. No memory.
    fn takes(&self, place: usize, region: &Region) -> bool
        ensures { IsTrue result → self.now.place ≡ place }
    {
        if self.place != place {
            return false;
        }
        match self.regions.last() {
            Some(last) => is_beside(last, region),
            None => false,
        }
    }

    // Whether nothing more is to wait with these blocks. No memory.
    fn is_full(&self) -> bool {
        let mut row: u64 = 0;
        let mut all: u64 = 0;
        for region in &self.regions {
            let (wide, many) = extent(region);
            row = row.saturating_add(wide);
            all = all.saturating_add(many);
            if many < LEAST {
                return true;
            }
        }
        row >= ROW || all >= MOST
    }

    // One more block.
    fn push(&mut self, region: Region, block: Arc<Block>) -> Result<(), AllocError>
        ensures place { self.new.place ≡ self.old.place }
        ensures regions { OnOk result (self.new.regions.items ≡ self.old.regions.items ++ region ∷ []) }
        ensures blocks { OnOk result (self.new.blocks.items ≡ self.old.blocks.items ++ block ∷ []) }
    {
        self.regions.push(region)?;
        self.blocks.push(block)?;
        Ok(())
    }
}

/// Writes the blocks that wait.
pub fn write_group<F: OutFile>(
    alloc: Global,
    files: &mut SavedFiles<F>,
    group: &mut Group,
    job: &Job,
) -> Result<(), OpenFault>
    requires runs { IsRunnable (plan_of job.now) }
    requires open { AreOpenFor (plan_of job.now) files.old }
    requires group { IsGroup (plan_of job.now) (waiting_of group.old) }
    ensures same { AreSameFiles files.old files.new }
    ensures regions { OnOk result (group.new.regions.items ≡ []) }
    ensures blocks { OnOk result (group.new.blocks.items ≡ []) }
    ensures held { OnOk result ((named : Named) (boxes : ℕ → List Box)
        → FilesHeld (plan_of job.now) named boxes (waiting_of group.old) files.old → FilesHold (plan_of job.now) named boxes files.new) }
    ensures right { OnErr result ((named : Named) (boxes : ℕ → List Box)
        → FilesHeld (plan_of job.now) named boxes (waiting_of group.old) files.old → FilesRight (plan_of job.now) named files.new) }
    ensures kept { OnOk result ((k : ℕ) → k < length files.old → (saving_at files.new k).faults ≡ (saving_at files.old k).faults) }
    ensures failed { IsErrOf result OpenFault.Failed → HasFailed files.new }
{
    let _nodes = job.expr.nodes();
    if group.regions.is_empty() {
        group.blocks.clear();
        return Ok(());
    }
    files.write_all(
        alloc,
        group.place,
        group.regions.as_slice(),
        group.blocks.as_slice(),
    )?;
    group.regions.clear();
    group.blocks.clear();
    Ok(())
}

// Makes way for a block of the node of a save: those that wait are written, unless it stands beside them.
fn make_way<F: OutFile>(
    alloc: Global,
    files: &mut SavedFiles<F>,
    group: &mut Group,
    job: &Job,
    place: usize,
    region: &Region,
) -> Result<(), OpenFault>
    requires runs { IsRunnable (plan_of job.now) }
    requires open { AreOpenFor (plan_of job.now) files.old }
    requires group { IsGroup (plan_of job.now) (waiting_of group.old) }
    ensures same { AreSameFiles files.old files.new }
    ensures place { OnOk result (group.new.place ≡ place) }
    ensures group { OnOk result (IsGroup (plan_of job.now) (waiting_of group.new)) }
    ensures held { OnOk result ((named : Named) (boxes : ℕ → List Box)
        → FilesHeld (plan_of job.now) named boxes (waiting_of group.old) files.old → FilesHeld (plan_of job.now) named boxes (waiting_of group.new) files.new) }
    ensures right { OnErr result ((named : Named) (boxes : ℕ → List Box)
        → FilesHeld (plan_of job.now) named boxes (waiting_of group.old) files.old → FilesRight (plan_of job.now) named files.new) }
    ensures kept { OnOk result ((k : ℕ) → k < length files.old → (saving_at files.new k).faults ≡ (saving_at files.old k).faults) }
    ensures failed { IsErrOf result OpenFault.Failed → HasFailed files.new }
{
    if group.takes(place, region) {
        return Ok(());
    }
    write_group(alloc, files, group, job)?;
    group.place = place;
    Ok(())
}

// Writes the blocks that wait, where no more are to wait with them.
fn write_full_group<F: OutFile>(
    alloc: Global,
    files: &mut SavedFiles<F>,
    group: &mut Group,
    job: &Job,
) -> Result<(), OpenFault>
    requires runs { IsRunnable (plan_of job.now) }
    requires open { AreOpenFor (plan_of job.now) files.old }
    requires group { IsGroup (plan_of job.now) (waiting_of group.old) }
    ensures same { AreSameFiles files.old files.new }
    ensures group { OnOk result (IsGroup (plan_of job.now) (waiting_of group.new)) }
    ensures held { OnOk result ((named : Named) (boxes : ℕ → List Box)
        → FilesHeld (plan_of job.now) named boxes (waiting_of group.old) files.old → FilesHeld (plan_of job.now) named boxes (waiting_of group.new) files.new) }
    ensures right { OnErr result ((named : Named) (boxes : ℕ → List Box)
        → FilesHeld (plan_of job.now) named boxes (waiting_of group.old) files.old → FilesRight (plan_of job.now) named files.new) }
    ensures kept { OnOk result ((k : ℕ) → k < length files.old → (saving_at files.new k).faults ≡ (saving_at files.old k).faults) }
    ensures failed { IsErrOf result OpenFault.Failed → HasFailed files.new }
{
    if !group.is_full() {
        return Ok(());
    }
    write_group(alloc, files, group, job)?;
    Ok(())
}

/// Has a block of the node of a save wait, or writes it, with those that it stands beside.
pub fn hold_block<F: OutFile>(
    alloc: Global,
    files: &mut SavedFiles<F>,
    group: &mut Group,
    job: &Job,
    place: usize,
    region: Region,
    block: &Arc<Block>,
) -> Result<(), OpenFault>
    requires runs { IsRunnable (plan_of job.now) }
    requires open { AreOpenFor (plan_of job.now) files.old }
    requires group { IsGroup (plan_of job.now) (waiting_of group.old) }
    requires there { place < length (plan_of job.now).saves }
    requires inside { IsPart region (shape_at job.now.expr (node_at (plan_of job.now) place)) }
    requires shape { (arc_value block.now).shape ≡ region.lengths }
    ensures same { AreSameFiles files.old files.new }
    ensures group { OnOk result (IsGroup (plan_of job.now) (waiting_of group.new)) }
    ensures held { OnOk result ((named : Named) (before after : ℕ → List Box) → AddsBox (plan_of job.now) place region before after
        → HoldsBox (array_at (plan_of job.now) named place) region (arc_value block.now)
        → FilesHeld (plan_of job.now) named before (waiting_of group.old) files.old → FilesHeld (plan_of job.now) named after (waiting_of group.new) files.new) }
    ensures right { OnErr result ((named : Named) (boxes : ℕ → List Box) → HoldsBox (array_at (plan_of job.now) named place) region (arc_value block.now)
        → FilesHeld (plan_of job.now) named boxes (waiting_of group.old) files.old → FilesRight (plan_of job.now) named files.new) }
    ensures kept { OnOk result ((k : ℕ) → k < length files.old → (saving_at files.new k).faults ≡ (saving_at files.old k).faults) }
    ensures failed { IsErrOf result OpenFault.Failed → HasFailed files.new }
{
    let shared = Arc::try_clone(block)?;
    make_way(alloc, files, group, job, place, &region)?;
    group.push(region, shared)?;
    write_full_group(alloc, files, group, job)
}
