//! Slices and transposes of blocks.
ghost use Rattle.std.specs.Prelude.{◌≡◌, ◌+◌, ◌-◌, ◌<◌, ◌^◌, min, length, map, get_or, IfOk, IfErr, Ok};
ghost use Rattle.nd_shape.specs.Shape.{IsShape, elements};
ghost use Rattle.nd_shape.specs.Index.{place, index_at};
ghost use Rattle.nd_grid.specs.Grid.{grid_of, block_of, sliced, sliced_shape, sliced_from, SlicesFit, transposed, turned, IsTranspose};
ghost use Rattle.nd_grid.specs.Computed.{FailsAs};

use crate::lines::{Lines, tabulate_lines};
use crate::shapes::{lengths_of, sliced_dims};
use nd_grid::Fail;
use nd_grid::element::dims_of;
use nd_grid::operand::{index_sliced, index_transposed};
use nd_shape::shape::AXES;
use nd_shape::{Block, Shape, Steps, ravel, unravel};
use std::alloc::Global;

// The place in the operand behind a place of a slice.
fn sliced_place(steps: &[Steps], dropped: &[u64], of: &Block, shape: &Shape, position: u64) -> u64
    requires fits { SlicesFit 0 steps.now of.now.shape dropped.now }
    requires shape { sliced_shape 0 steps.now dropped.now ≡ shape.now }
    requires inside { position < elements shape.now }
    ensures place { result ≡ place of.now.shape (sliced_from 0 steps.now dropped.now (index_at shape.now position)) }
    ensures inside { result < elements of.now.shape }
{
    let mut room = [0; AXES];
    let index = &mut room[..shape.dims().len()];
    unravel(shape, position, index);
    let dims = of.shape().dims();
    let mut space = [0; AXES];
    let own = &mut space[..dims.len()];
    index_sliced(steps, dropped, dims, index, own);
    ravel(of.shape(), own)
}

// The place in the operand behind a place of a transpose.
fn turned_place(axes: &[u64], of: &Block, shape: &Shape, position: u64) -> u64
    requires fits { IsTranspose axes.now (length of.now.shape) }
    requires shape { map (λ a. get_or of.now.shape a 0) axes.now ≡ shape.now }
    requires inside { position < elements shape.now }
    ensures place { result ≡ place of.now.shape (turned axes.now (index_at shape.now position)) }
    ensures inside { result < elements of.now.shape }
{
    let mut room = [0; AXES];
    let index = &mut room[..shape.dims().len()];
    unravel(shape, position, index);
    let dims = of.shape().dims();
    let mut space = [0; AXES];
    let own = &mut space[..dims.len()];
    index_transposed(axes, index, own);
    ravel(of.shape(), own)
}

// The second place of a row, or the first of a row of one.
fn second_of(start: u64, len: u64) -> u64
    requires some { 0 < len }
    requires small { start < 2 ^ 31 }
    ensures { result ≡ start + min (len - 1) 1 }
{
    if len == 1 { start } else { start + 1 }
}

#[derive(Clone, Copy)]
struct Taken<'a> {
    steps: &'a [Steps],
    dropped: &'a [u64],
    of: &'a Block,
    shape: &'a Shape,
    outer: usize,
}

impl<'a> Lines for Taken<'a> {
    ghost use Rattle.nd_grid.specs.Grid.{grid_of, sliced};
    ghost use Rattle.block_kernels.specs.Gathers.{CanTake};

    ghost grid = { λ s. sliced s.steps.now s.dropped.now (grid_of s.of.now) };

    ghost outer = { λ s. s.outer };

    ghost source = { λ s. s.of.now.cells };

    ghost valid = { λ s. CanTake s.steps.now s.dropped.now s.of.now.shape s.shape.now s.outer };

    fn line(&self, row: u64, run: u64) -> (usize, usize) {
        let _ = dims_of(self.of);
        let _ = self.shape.dims();
        let _ = self.of.cells();
        let start = row * run;
        let first = sliced_place(self.steps, self.dropped, self.of, self.shape, start);
        let second = sliced_place(
            self.steps,
            self.dropped,
            self.of,
            self.shape,
            second_of(start, run),
        );
        (first as usize, second as usize)
    }
}

#[derive(Clone, Copy)]
struct Turned<'a> {
    axes: &'a [u64],
    of: &'a Block,
    shape: &'a Shape,
    outer: usize,
}

impl<'a> Lines for Turned<'a> {
    ghost use Rattle.nd_grid.specs.Grid.{grid_of, transposed};
    ghost use Rattle.block_kernels.specs.Gathers.{CanTurn};

    ghost grid = { λ s. transposed s.axes.now (grid_of s.of.now) };

    ghost outer = { λ s. s.outer };

    ghost source = { λ s. s.of.now.cells };

    ghost valid = { λ s. CanTurn s.axes.now s.of.now.shape s.shape.now s.outer };

    fn line(&self, row: u64, run: u64) -> (usize, usize) {
        let _ = dims_of(self.of);
        let _ = self.shape.dims();
        let _ = self.of.cells();
        let start = row * run;
        let first = turned_place(self.axes, self.of, self.shape, start);
        let second = turned_place(self.axes, self.of, self.shape, second_of(start, run));
        (first as usize, second as usize)
    }
}

/// What a slice takes of a block, by one Steps per axis, as NumPy's basic slicing; the axes in `dropped` are left out of
/// the result.
pub fn slice(alloc: Global, steps: &[Steps], dropped: &[u64], of: &Block) -> Result<Block, Fail>
    requires fits { SlicesFit 0 steps.now of.now.shape dropped.now }
    requires shape { IsShape (sliced_shape 0 steps.now dropped.now) }
    ensures ok { IfOk result (λ block. block_of (sliced steps.now dropped.now (grid_of of.now)) ≡ Ok block) }
    ensures dims { IfOk result (λ block. block.shape ≡ sliced_shape 0 steps.now dropped.now) }
    ensures err { IfErr result (λ e. FailsAs e (block_of (sliced steps.now dropped.now (grid_of of.now)))) }
{
    let shape = Shape::of(sliced_dims(alloc, steps, dropped)?);
    let copy = shape.copy(alloc)?;
    let outer = shape.dims().len().saturating_sub(1);
    let taken = Taken {
        steps,
        dropped,
        of,
        shape: &shape,
        outer,
    };
    Ok(tabulate_lines(alloc, &taken, of, outer, copy)?)
}

/// The block whose axis k is the axis `axes[k]` of the operand, as NumPy's `transpose`.
pub fn transpose(alloc: Global, axes: &[u64], of: &Block) -> Result<Block, Fail>
    requires axes { IsTranspose axes.now (length of.now.shape) }
    requires shape { IsShape (map (λ a. get_or of.now.shape a 0) axes.now) }
    ensures ok { IfOk result (λ block. block_of (transposed axes.now (grid_of of.now)) ≡ Ok block) }
    ensures dims { IfOk result (λ block. block.shape ≡ map (λ a. get_or of.now.shape a 0) axes.now) }
    ensures err { IfErr result (λ e. FailsAs e (block_of (transposed axes.now (grid_of of.now)))) }
{
    let shape = Shape::of(lengths_of(alloc, of.shape().dims(), axes)?);
    let copy = shape.copy(alloc)?;
    let outer = shape.dims().len().saturating_sub(1);
    let turned = Turned {
        axes,
        of,
        shape: &shape,
        outer,
    };
    Ok(tabulate_lines(alloc, &turned, of, outer, copy)?)
}
