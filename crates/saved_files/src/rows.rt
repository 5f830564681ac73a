//! Writes blocks that stand side by side in a file's array, row by row.
ghost use Rattle.std.specs.Prelude.{◌≡◌, ◌≤◌, ◌<◌, ◌+◌, ◌*◌, ◌/◌, ◌^◌, ◌++◌, ℕ, false, length, map, take, drop, IfOk, OnOk, OnErr, IsTrue};
ghost use Rattle.std.specs.List.{flat_map};
ghost use Rattle.io_edge.specs.Cause.{HasOpenCause};
ghost use Rattle.io_edge.specs.Content.{size_of};
ghost use Rattle.nd_shape.specs.Region.{IsPart};
ghost use Rattle.nd_shape.specs.Shape.{elements};
ghost use Rattle.npy_codec.specs.Npy.{cell_bytes};
ghost use Rattle.npy_region.specs.Runs.{AreRuns};
ghost use Rattle.npy_region.specs.Writing.{Turns};
ghost use Rattle.saved_files.specs.Filling.{box_of};
ghost use Rattle.saved_files.specs.Rows.{AreFull, ArePlaced, AreSideBySide, Follows, HasRow, WritesAll, WritesSomeOf, row_bytes, runs_at};

use io_edge::{OpenFault, OutFile, write_full};
use nd_shape::{Block, Region};
use npy_codec::Head;
use npy_region::{Run, RunList, region_runs, write_region};
use std::alloc::{AllocError, Global};
use std::sync::Arc;

fn bytes_of(cell: i64) -> [u8; 8]
    ensures { result ≡ cell_bytes cell }
{
    cell.cast_unsigned().to_le_bytes()
}

// The elements of a run.
fn cells_of<'a>(cells: &'a [i64], run: &Run) -> &'a [i64]
    requires { run.now.place + run.now.length / 8 ≤ length cells.now }
    ensures { result.now ≡ take (run.now.length / 8) (drop run.now.place cells.now) }
{
    let place = run.place as usize;
    let count = (run.length / 8) as usize;
    &cells[place..place + count]
}

// The runs of each region.
fn all_runs(alloc: Global, head: &Head, regions: &[Region]) -> Result<Vec<RunList>, AllocError>
    requires parts { (k : ℕ) → k < length regions.now → IsPart (box_of regions.now k) head.now.shape }
    requires width { head.now.width ≡ 8 }
    requires near { head.now.data_at ≤ 2 ^ 21 }
    ensures count { IfOk result (λ v. length v.items ≡ length regions.now) }
    ensures runs { IfOk result (λ v. (k : ℕ) → k < length regions.now → AreRuns head.now (box_of regions.now k) (runs_at v.items k)) }
{
    let mut all = Vec::new(alloc);
    for region in regions {
        let runs = region_runs(alloc, head, region)?;
        all.push(runs)?;
    }
    Ok(all)
}

// Whether each run of the second list goes on in the file where that of the first ends.
fn follows(left: &[Run], right: &[Run]) -> bool
    ensures { IsTrue result → Follows left.now right.now }
{
    if right.len() != left.len() {
        return false;
    }
    for row in 0..left.len() {
        let before = left[row];
        if right[row].offset.checked_sub(before.offset) != Some(before.length) {
            return false;
        }
    }
    true
}

// Whether this holds of the runs of each region and of the next.
fn are_side_by_side(all: &[RunList]) -> bool
    ensures { IsTrue result → AreSideBySide all.now }
{
    for next in 1..all.len() {
        if !follows(all[next - 1].as_slice(), all[next].as_slice()) {
            return false;
        }
    }
    true
}

// Appends the bytes of elements.
fn append_bytes(cells: &[i64], buffer: &mut Vec<[u8; 8]>) -> Result<(), AllocError>
    ensures { OnOk result (buffer.new.items ≡ buffer.old.items ++ map cell_bytes cells.now) }
{
    buffer.extend(
        cells.iter().map(
            |cell| -> [u8; 8]
                ensures { result ≡ cell_bytes cell.now }
            { bytes_of(*cell) },
        ),
    )
}

// Puts the bytes of all blocks' runs of this number in place of those in the buffer.
fn gather_row(
    all: &[RunList],
    blocks: &[Arc<Block>],
    row: usize,
    buffer: &mut Vec<[u8; 8]>,
) -> Result<(), AllocError>
    requires count { length blocks.now ≡ length all.now }
    requires rows { (k : ℕ) → k < length all.now → HasRow all.now blocks.now row k }
    ensures bytes { OnOk result (flat_map (λ x. x) buffer.new.items ≡ row_bytes all.now blocks.now row (length all.now)) }
    ensures full { OnOk result (AreFull blocks.now (length all.now)) }
{
    buffer.clear();
    for (k, runs) in all.iter().enumerate() {
        let block: &Block = &blocks[k];
        let part = cells_of(block.cells(), &runs.as_slice()[row]);
        append_bytes(part, buffer)?;
    }
    Ok(())
}

// Writes the blocks row by row.
fn write_rows<F: OutFile>(
    file: &mut F,
    all: &[RunList],
    head: &Head,
    regions: &[Region],
    blocks: &[Arc<Block>],
    buffer: &mut Vec<[u8; 8]>,
) -> Result<(), OpenFault>
    requires some { 0 < length regions.now }
    requires count { length all.now ≡ length regions.now }
    requires runs { (k : ℕ) → k < length regions.now → AreRuns head.now (box_of regions.now k) (runs_at all.now k) }
    requires beside { AreSideBySide all.now }
    requires placed { ArePlaced head.now.shape regions.now blocks.now }
    requires width { head.now.width ≡ 8 }
    requires near { head.now.data_at ≤ 2 ^ 21 }
    requires room { head.now.data_at + 8 * elements head.now.shape ≤ size_of (F.content file.old) }
    ensures named { F.named file.new ≡ F.named file.old }
    ensures written { OnOk result (Turns (WritesAll head.now regions.now blocks.now) (F.content file.old) (F.content file.new)) }
    ensures part { OnErr result (Turns (WritesSomeOf head.now regions.now blocks.now) (F.content file.old) (F.content file.new)) }
    ensures kept { OnOk result (F.count file.new ≡ F.count file.old) }
    ensures cause { HasOpenCause (F.count file.old) (F.count file.new) result }
{
    let _ = head.shape.dims();
    for (row, run) in all[0].as_slice().iter().enumerate() {
        gather_row(all, blocks, row, buffer)?;
        write_full(file, run.offset, buffer.as_slice().as_flattened())?;
    }
    Ok(())
}

// Writes the blocks one after another.
fn write_each<F: OutFile>(
    alloc: Global,
    file: &mut F,
    head: &Head,
    regions: &[Region],
    blocks: &[Arc<Block>],
) -> Result<(), OpenFault>
    requires placed { ArePlaced head.now.shape regions.now blocks.now }
    requires width { head.now.width ≡ 8 }
    requires near { head.now.data_at ≤ 2 ^ 21 }
    requires order { head.now.fortran ≡ false }
    requires little { head.now.big ≡ false }
    requires room { head.now.data_at + 8 * elements head.now.shape ≤ size_of (F.content file.old) }
    ensures named { F.named file.new ≡ F.named file.old }
    ensures written { OnOk result (Turns (WritesAll head.now regions.now blocks.now) (F.content file.old) (F.content file.new)) }
    ensures part { OnErr result (Turns (WritesSomeOf head.now regions.now blocks.now) (F.content file.old) (F.content file.new)) }
    ensures kept { OnOk result (F.count file.new ≡ F.count file.old) }
    ensures cause { HasOpenCause (F.count file.old) (F.count file.new) result }
{
    for (k, region) in regions.iter().enumerate() {
        write_region(alloc, file, head, region, &blocks[k])?;
    }
    Ok(())
}

/// Writes blocks' elements at the places of regions of a file's array. Where the runs of the regions go on one behind the
/// other in the file, a row of all blocks is written at once. The head is that of the file, whose data is `<i8` in
/// row-major order, and each block has the lengths of its region.
///
/// # Errors
/// `Failed` only where the file's count of faults rose, and `OutOfMemory` where no memory is left: some of the regions' bytes
/// are written then.
pub fn write_regions<F: OutFile>(
    alloc: Global,
    file: &mut F,
    head: &Head,
    regions: &[Region],
    blocks: &[Arc<Block>],
) -> Result<(), OpenFault>
    requires placed { ArePlaced head.now.shape regions.now blocks.now }
    requires width { head.now.width ≡ 8 }
    requires near { head.now.data_at ≤ 2 ^ 21 }
    requires order { head.now.fortran ≡ false }
    requires little { head.now.big ≡ false }
    requires room { head.now.data_at + 8 * elements head.now.shape ≤ size_of (F.content file.old) }
    ensures named { F.named file.new ≡ F.named file.old }
    ensures written { OnOk result (Turns (WritesAll head.now regions.now blocks.now) (F.content file.old) (F.content file.new)) }
    ensures part { OnErr result (Turns (WritesSomeOf head.now regions.now blocks.now) (F.content file.old) (F.content file.new)) }
    ensures kept { OnOk result (F.count file.new ≡ F.count file.old) }
    ensures cause { HasOpenCause (F.count file.old) (F.count file.new) result }
{
    if regions.len() < 2 {
        return write_each(alloc, file, head, regions, blocks);
    }
    let all = all_runs(alloc, head, regions)?;
    if !are_side_by_side(all.as_slice()) {
        return write_each(alloc, file, head, regions, blocks);
    }
    let mut buffer = Vec::new(alloc);
    write_rows(file, all.as_slice(), head, regions, blocks, &mut buffer)
}
