//! Assembly: parts of blocks put together to a block, by runs of elements that lie side by side.
ghost use Rattle.std.specs.Prelude.{◌≡◌, ◌+◌, ◌*◌, ◌<◌, ◌≤◌, ◌^◌, length, cond, true, All, Ok, IfOk, OnOk};
ghost use Rattle.nd_shape.specs.Shape.{elements};
ghost use Rattle.nd_shape.specs.Index.{place, index_at};
ghost use Rattle.nd_shape.specs.Region.{IsPart, moved};
ghost use Rattle.nd_grid.specs.Grid.{block_of};
ghost use Rattle.block_kernels.specs.Kernels.{assembled};
ghost use Rattle.block_kernels.specs.Inputs.{blocks_of, grids_of, shapes_of};
ghost use Rattle.block_kernels.specs.WellFormed.{FitsPiece, FitsAssemble};
ghost use Rattle.block_kernels.specs.Assembling.{Runs, StaysWhole, Copied, Paints, Painted};

use crate::inputs::input_at;
use nd_grid::operand::index_moved;
use nd_shape::shape::AXES;
use nd_shape::{Block, Piece, Region, Shape, ravel, unravel};
use std::alloc::{AllocError, Global};
use std::sync::Arc;

// Copies cells from a place on to a place. No memory.
fn copy_run(target: &mut [i64], place: usize, cells: &[i64], from: usize, count: usize)
    requires room { place + count ≤ length target.old }
    requires cells { from + count ≤ length cells.now }
    ensures { Copied place cells.now from count target.old target.new }
{
    target[place..place + count].copy_from_slice(&cells[from..from + count]);
}

// Whether a part of two arrays is whole along one axis more.
fn stays_whole(was: bool, start: u64, origin: u64, len: u64, here: u64, there: u64) -> bool
    ensures { result ≡ true → StaysWhole was start origin len here there }
{
    if !was || start != 0 || origin != 0 || len != here || len != there {
        return false;
    }
    true
}

// The length of the runs with one axis more.
fn longer(run: u64, whole: bool, len: u64) -> u64
    requires { whole ≡ true → len * run ≤ 2 ^ 31 }
    ensures { result ≡ cond whole (len * run) run }
{
    if whole { len * run } else { run }
}

// How many elements of a part lie side by side, both in the source and in the result. No memory.
fn run_length(to: &Region, shape: &[u64], from: &Region, source: &[u64]) -> u64
    requires to { IsPart to.now shape.now }
    requires from { IsPart from.now source.now }
    requires same { from.now.lengths ≡ to.now.lengths }
    requires small { elements to.now.lengths ≤ 2 ^ 31 }
    requires some { 0 < elements to.now.lengths }
    ensures to { Runs shape.now to.now.start to.now.lengths result }
    ensures from { Runs source.now from.now.start to.now.lengths result }
{
    let lengths = to.lengths();
    let starts = to.starts();
    let origins = from.starts();
    let mut run = 1;
    let mut whole = true;
    let mut axis = lengths.len();
    while axis > 0 {
        axis -= 1;
        let len = lengths[axis];
        run = longer(run, whole, len);
        whole = stays_whole(
            whole,
            starts[axis],
            origins[axis],
            len,
            shape[axis],
            source[axis],
        );
    }
    run
}

// The place in the whole of an element of a region. No memory.
fn place_in(region: &Region, lengths: &Shape, whole: &Shape, position: u64) -> u64
    requires part { IsPart region.now whole.now }
    requires same { lengths.now ≡ region.now.lengths }
    requires inside { position < elements lengths.now }
    ensures { result ≡ place whole.now (moved region.now.start (index_at lengths.now position)) }
{
    let mut room = [0; AXES];
    let index = &mut room[..lengths.dims().len()];
    unravel(lengths, position, index);
    let mut space = [0; AXES];
    let own = &mut space[..whole.dims().len()];
    index_moved(region.starts(), index, own);
    ravel(whole, own)
}

// Copies the runs of a part. No memory.
fn copy_runs(
    to: &Region,
    from: &Region,
    lengths: &Shape,
    run: u64,
    source: &Block,
    shape: &Shape,
    cells: &mut [i64],
)
    requires to { IsPart to.now shape.now }
    requires from { IsPart from.now source.now.shape }
    requires same { from.now.lengths ≡ to.now.lengths }
    requires lengths { lengths.now ≡ to.now.lengths }
    requires to_runs { Runs shape.now to.now.start to.now.lengths run }
    requires from_runs { Runs source.now.shape from.now.start to.now.lengths run }
    requires some { 0 < elements to.now.lengths }
    requires room { length cells.old ≡ elements shape.now }
    ensures { Paints from.now.start to.now shape.now source.now (elements to.now.lengths) cells.old cells.new }
{
    let runs = lengths.elements() / run;
    for r in 0..runs {
        let place = place_in(to, lengths, shape, r * run) as usize;
        let origin = place_in(from, lengths, source.shape(), r * run) as usize;
        copy_run(cells, place, source.cells(), origin, run as usize);
    }
}

// Copies a piece from its source.
fn copy_piece(
    alloc: Global,
    piece: &Piece,
    source: &Block,
    shape: &Shape,
    cells: &mut [i64],
) -> Result<(), AllocError>
    requires from { IsPart piece.now.from source.now.shape }
    requires to { IsPart piece.now.to shape.now }
    requires same { piece.now.from.lengths ≡ piece.now.to.lengths }
    requires room { length cells.old ≡ elements shape.now }
    ensures { OnOk result (Paints piece.now.from.start piece.now.to shape.now source.now (elements piece.now.to.lengths) cells.old cells.new) }
{
    let lengths = piece.to.shape(alloc, shape)?;
    if lengths.elements() == 0 {
        return Ok(());
    }
    let run = run_length(&piece.to, shape.dims(), &piece.from, source.shape().dims());
    copy_runs(&piece.to, &piece.from, &lengths, run, source, shape, cells);
    Ok(())
}

// Copies the pieces, the last first, so that the first piece that covers an element has it.
fn copy_pieces(
    alloc: Global,
    pieces: &[Piece],
    inputs: &[Arc<Block>],
    shape: &Shape,
    cells: &mut [i64],
) -> Result<(), AllocError>
    requires pieces { All (λ p. FitsPiece p (shapes_of (blocks_of inputs.now)) shape.now) pieces.now }
    requires room { length cells.old ≡ elements shape.now }
    ensures { OnOk result (Painted pieces.now (grids_of (blocks_of inputs.now)) shape.now cells.new) }
{
    let mut left = pieces.len();
    while left > 0 {
        left -= 1;
        let piece = &pieces[left];
        copy_piece(alloc, piece, input_at(inputs, piece.source), shape, cells)?;
    }
    Ok(())
}

// The cells that the pieces fill.
fn assembled_cells(
    alloc: Global,
    pieces: &[Piece],
    inputs: &[Arc<Block>],
    shape: &Shape,
) -> Result<Vec<i64>, AllocError>
    requires { All (λ p. FitsPiece p (shapes_of (blocks_of inputs.now)) shape.now) pieces.now }
    ensures size { IfOk result (λ v. length v.items ≡ elements shape.now) }
    ensures painted { IfOk result (λ v. Painted pieces.now (grids_of (blocks_of inputs.now)) shape.now v.items) }
{
    let mut cells = vec![in alloc; 0; shape.elements() as usize]?;
    copy_pieces(alloc, pieces, inputs, shape, cells.as_mut_slice())?;
    Ok(cells)
}

/// Parts of the inputs put together: each element is that of the first piece that covers it, as Dask's rechunking and
/// concatenation put blocks together.
pub fn assemble(
    alloc: Global,
    pieces: &[Piece],
    inputs: &[Arc<Block>],
    shape: &Shape,
) -> Result<Block, AllocError>
    requires { FitsAssemble pieces.now (shapes_of (blocks_of inputs.now)) shape.now }
    ensures { IfOk result (λ block. block_of (assembled pieces.now shape.now (grids_of (blocks_of inputs.now))) ≡ Ok block) }
{
    let cells = assembled_cells(alloc, pieces, inputs, shape)?;
    Ok(Block::new(shape.copy(alloc)?, cells))
}
