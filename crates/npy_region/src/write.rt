//! Writes blocks into regions of a file's array.
ghost use Rattle.std.specs.Prelude.{◌≡◌, ◌≤◌, ◌<◌, ◌+◌, ◌*◌, ◌/◌, ◌^◌, false, length, take, drop, map, OnOk, OnErr};
ghost use Rattle.io_edge.specs.Cause.{HasOpenCause};
ghost use Rattle.io_edge.specs.Content.{overwritten, size_of, WritesPart};
ghost use Rattle.nd_shape.specs.Region.{IsPart};
ghost use Rattle.nd_shape.specs.Shape.{elements};
ghost use Rattle.npy_codec.specs.Npy.{cell_bytes, cells_bytes};
ghost use Rattle.npy_region.specs.Runs.{AreRuns};
ghost use Rattle.npy_region.specs.Writing.{Turns, WritesRegion, WritesSome};

use crate::runs::{Run, region_runs};
use io_edge::{OpenFault, OutFile, write_full};
use nd_shape::{Block, Region};
use npy_codec::Head;
use std::alloc::{AllocError, Global};

// The elements that are turned into bytes at once, at most.
const PIECE: usize = 8192;

fn bytes_of(cell: i64) -> [u8; 8]
    ensures { result ≡ cell_bytes cell }
{
    cell.cast_unsigned().to_le_bytes()
}

// Puts the bytes of elements in place of those in the buffer.
fn fill_bytes(cells: &[i64], buffer: &mut Vec<[u8; 8]>) -> Result<(), AllocError>
    ensures { OnOk result (buffer.new.items ≡ map cell_bytes cells.now) }
{
    buffer.clear();
    buffer.extend(
        cells.iter().map(
            |cell| -> [u8; 8]
                ensures { result ≡ cell_bytes cell.now }
            { bytes_of(*cell) },
        ),
    )
}

// Writes elements from an offset on, counted in bytes, piece by piece through the buffer.
fn write_cells<F: OutFile>(
    file: &mut F,
    at: u64,
    cells: &[i64],
    buffer: &mut Vec<[u8; 8]>,
) -> Result<(), OpenFault>
    requires room { at + 8 * length cells.now ≤ size_of (F.content file.old) }
    requires fits { at + 8 * length cells.now < 2 ^ 64 }
    ensures named { F.named file.new ≡ F.named file.old }
    ensures written { OnOk result (F.content file.new ≡ overwritten (F.content file.old) at (cells_bytes cells.now)) }
    ensures part { OnErr result (WritesPart (F.content file.old) (F.content file.new) at (cells_bytes cells.now)) }
    ensures size { size_of (F.content file.new) ≡ size_of (F.content file.old) }
    ensures kept { OnOk result (F.count file.new ≡ F.count file.old) }
    ensures cause { HasOpenCause (F.count file.old) (F.count file.new) result }
{
    let mut done = 0;
    while done < cells.len() {
        let step = PIECE.min(cells.len() - done);
        fill_bytes(&cells[done..done + step], buffer)?;
        write_full(file, at + 8 * done as u64, buffer.as_slice().as_flattened())?;
        done += step;
    }
    Ok(())
}

// The elements of a block that go into a run.
fn cells_of<'a>(cells: &'a [i64], run: &Run) -> &'a [i64]
    requires { run.now.place + run.now.length / 8 ≤ length cells.now }
    ensures { result.now ≡ take (run.now.length / 8) (drop run.now.place cells.now) }
{
    let place = run.place as usize;
    let count = (run.length / 8) as usize;
    &cells[place..place + count]
}

// Writes the elements of a region's block at the places that its runs have in the file.
fn write_runs<F: OutFile>(
    file: &mut F,
    runs: &[Run],
    head: &Head,
    region: &Region,
    block: &Block,
    buffer: &mut Vec<[u8; 8]>,
) -> Result<(), OpenFault>
    requires runs { AreRuns head.now region.now runs.now }
    requires part { IsPart region.now head.now.shape }
    requires width { head.now.width ≡ 8 }
    requires near { head.now.data_at ≤ 2 ^ 21 }
    requires shape { block.now.shape ≡ region.now.lengths }
    requires room { head.now.data_at + 8 * elements head.now.shape ≤ size_of (F.content file.old) }
    ensures named { F.named file.new ≡ F.named file.old }
    ensures written { OnOk result (Turns (WritesRegion head.now region.now block.now) (F.content file.old) (F.content file.new)) }
    ensures part { OnErr result (Turns (WritesSome head.now region.now block.now) (F.content file.old) (F.content file.new)) }
    ensures kept { OnOk result (F.count file.new ≡ F.count file.old) }
    ensures cause { HasOpenCause (F.count file.old) (F.count file.new) result }
{
    let _ = head.shape.dims();
    let cells = block.cells();
    for run in runs {
        let part = cells_of(cells, run);
        write_cells(file, run.offset, part, buffer)?;
    }
    Ok(())
}

/// Writes a block's elements at the places of a region of a file's array, run by run. The head is that of the file, whose data
/// is `<i8` in row-major order, and the block has the region's lengths.
///
/// # Errors
/// `Failed` only where the file's count of faults rose, and `OutOfMemory` where no memory is left: some of the region's bytes
/// are written then.
pub fn write_region<F: OutFile>(
    alloc: Global,
    file: &mut F,
    head: &Head,
    region: &Region,
    block: &Block,
) -> Result<(), OpenFault>
    requires part { IsPart region.now head.now.shape }
    requires width { head.now.width ≡ 8 }
    requires near { head.now.data_at ≤ 2 ^ 21 }
    requires rows { head.now.fortran ≡ false }
    requires little { head.now.big ≡ false }
    requires shape { block.now.shape ≡ region.now.lengths }
    requires room { head.now.data_at + 8 * elements head.now.shape ≤ size_of (F.content file.old) }
    ensures named { F.named file.new ≡ F.named file.old }
    ensures written { OnOk result (Turns (WritesRegion head.now region.now block.now) (F.content file.old) (F.content file.new)) }
    ensures part { OnErr result (Turns (WritesSome head.now region.now block.now) (F.content file.old) (F.content file.new)) }
    ensures kept { OnOk result (F.count file.new ≡ F.count file.old) }
    ensures cause { HasOpenCause (F.count file.old) (F.count file.new) result }
{
    let runs = region_runs(alloc, head, region)?;
    let mut buffer = Vec::with_capacity(alloc, PIECE.min(block.cells().len()))?;
    write_runs(file, runs.as_slice(), head, region, block, &mut buffer)
}
