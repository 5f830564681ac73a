//! The byte runs of a file that hold a region.
ghost use Rattle.std.specs.Prelude.{◌≡◌, ◌≤◌, ◌<◌, ◌+◌, ◌*◌, ◌^◌, [], None, IfOk, IfSome, OnOk};
ghost use Rattle.nd_shape.specs.Region.{IsPart};
ghost use Rattle.npy_codec.specs.Regions.{IsWidth, number_at};
ghost use Rattle.nd_rows.specs.Storage.{count_of, spot, stored, target, walk_of};
ghost use Rattle.npy_region.specs.Building.{IsJoined, PutsRun, Splits};
ghost use Rattle.npy_region.specs.Runs.{AreRuns, GoesOn};

use nd_rows::{BlockTargets, RegionWalk};
use nd_shape::{Region, Sequence};
use npy_codec::Head;
use std::alloc::{AllocError, Global};

/// Bytes that are contiguous in a file, and whose elements are contiguous in a block.
#[derive(Clone, Copy)]
pub struct Run {
    /// Where it begins in the file, in bytes.
    pub offset: u64,
    /// How many bytes it has.
    pub length: u64,
    /// Where its first element stands in the block, in row-major order.
    pub place: u64,
}

/// Runs, ascending by offset.
pub type RunList = Sequence<Run>;

// The first run with the second, where that goes on at its end.
fn joined(width: u64, first: Run, second: Run) -> Option<Run>
    requires some { 0 < width }
    requires offset { first.offset ≤ 2 ^ 35 }
    requires place { first.place ≤ 2 ^ 35 }
    requires first { first.length ≤ 2 ^ 35 }
    requires second { second.length ≤ 2 ^ 35 }
    ensures value { IfSome result (λ run. IsJoined width first second run) }
    ensures apart { result ≡ None → GoesOn width first second → ⊥ }
{
    if second.offset != first.offset + first.length {
        return None;
    }
    if second.place != first.place + first.length / width {
        return None;
    }
    Some(Run {
        offset: first.offset,
        length: first.length + second.length,
        place: first.place,
    })
}

// Puts one more run behind others: the last one is put together with it, or is finished.
fn put_run(width: u64, runs: &mut Vec<Run>, last: Run, next: Run) -> Result<Run, AllocError>
    requires some { 0 < width }
    requires offset { last.offset ≤ 2 ^ 35 }
    requires place { last.place ≤ 2 ^ 35 }
    requires last { last.length ≤ 2 ^ 35 }
    requires next { next.length ≤ 2 ^ 35 }
    ensures { IfOk result (λ run. PutsRun width runs.old.items last next runs.new.items run) }
{
    match joined(width, last, next) {
        Some(run) => Ok(run),
        None => {
            runs.push(last)?;
            Ok(next)
        }
    }
}

// How many elements of a region at once are stored and stand in the block one behind the other.
fn unit_len(column_major: bool, walk: &RegionWalk) -> u64
    requires { 0 < count_of walk.now }
    ensures { Splits column_major walk.now result }
{
    if column_major { 1 } else { walk.row_len() }
}

// The run of some elements from this number on.
fn unit_run(
    head: &Head,
    walk: &mut RegionWalk,
    targets: &mut BlockTargets,
    element: u64,
    unit: u64,
) -> Run
    requires width { IsWidth head.now.width }
    requires near { head.now.data_at ≤ 2 ^ 21 }
    requires inside { element < count_of walk.old }
    requires block { targets.old.lengths ≡ walk.old.region.lengths }
    requires small { unit ≤ 2 ^ 31 }
    ensures walk { walk.new ≡ walk.old }
    ensures targets { targets.new ≡ targets.old }
    ensures run { result ≡ record { offset = number_at head.now (spot walk.old element); length = head.now.width * unit; place = target targets.old.by_column targets.old.lengths element } }
    ensures offset { result.offset ≤ 2 ^ 35 }
    ensures place { result.place ≤ 2 ^ 35 }
{
    let width = head.width as u64;
    Run {
        offset: head.data_at + width * walk.place(element),
        length: width * unit,
        place: targets.place(element),
    }
}

// Where the elements of a region go in its block.
fn targets_of(alloc: Global, head: &Head, region: &Region) -> Result<BlockTargets, AllocError>
    requires { IsPart region.now head.now.shape }
    ensures { IfOk result (λ targets. targets ≡ record { by_column = head.now.fortran; lengths = stored head.now.fortran region.now.lengths }) }
{
    let block = region.shape(alloc, &head.shape)?;
    BlockTargets::new(alloc, head.fortran, &block)
}

// Puts the runs of a region, unit by unit.
fn push_runs(
    head: &Head,
    region: &Region,
    walk: &mut RegionWalk,
    targets: &mut BlockTargets,
    runs: &mut Vec<Run>,
) -> Result<(), AllocError>
    requires part { IsPart region.now head.now.shape }
    requires width { IsWidth head.now.width }
    requires near { head.now.data_at ≤ 2 ^ 21 }
    requires walk { walk.old ≡ walk_of head.now.fortran head.now.shape region.now }
    requires targets { targets.old ≡ record { by_column = head.now.fortran; lengths = stored head.now.fortran region.now.lengths } }
    requires none { runs.old.items ≡ [] }
    ensures { OnOk result (AreRuns head.now region.now runs.new.items) }
{
    let count = walk.len();
    if count == 0 {
        return Ok(());
    }
    let width = head.width as u64;
    let unit = unit_len(head.fortran, walk);
    let mut last = unit_run(head, walk, targets, 0, unit);
    for k in 1..count / unit {
        let next = unit_run(head, walk, targets, k * unit, unit);
        let joined = put_run(width, runs, last, next)?;
        last = joined;
    }
    runs.push(last)?;
    Ok(())
}

// The runs of a region along its walk.
fn walk_runs(
    alloc: Global,
    head: &Head,
    region: &Region,
    walk: &mut RegionWalk,
) -> Result<RunList, AllocError>
    requires part { IsPart region.now head.now.shape }
    requires width { IsWidth head.now.width }
    requires near { head.now.data_at ≤ 2 ^ 21 }
    requires walk { walk.old ≡ walk_of head.now.fortran head.now.shape region.now }
    ensures { IfOk result (λ runs. AreRuns head.now region.now runs) }
{
    let mut targets = targets_of(alloc, head, region)?;
    let mut runs = Vec::new(alloc);
    push_runs(head, region, walk, &mut targets, &mut runs)?;
    Ok(Sequence::from_vec(runs))
}

/// The runs that hold a region of a file's array, and where each goes in the region's block: as few as there can be,
/// ascending by offset.
pub fn region_runs(alloc: Global, head: &Head, region: &Region) -> Result<RunList, AllocError>
    requires part { IsPart region.now head.now.shape }
    requires width { IsWidth head.now.width }
    requires near { head.now.data_at ≤ 2 ^ 21 }
    ensures { IfOk result (λ runs. AreRuns head.now region.now runs) }
{
    let mut walk = RegionWalk::new(alloc, head.fortran, &head.shape, region)?;
    walk_runs(alloc, head, region, &mut walk)
}
