//! Parts of arrays whose elements rise by a step.
ghost use Rattle.std.specs.Prelude.{◌≡◌, ℕ, ◌<◌, ◌≤◌, ◌^◌, pos, ◌+ℤ◌, ◌*ℤ◌, length, get_or, IfOk, IfErr, Ok};
ghost use Rattle.nd_shape.specs.Region.{IsPart};
ghost use Rattle.nd_grid.specs.Int64.{wrap};
ghost use Rattle.nd_grid.specs.Grid.{block_of, ramp, part};
ghost use Rattle.nd_grid.specs.Computed.{FailsAs};

use crate::rows::{Rows, tabulate_rows};
use nd_grid::Fail;
use nd_grid::operand::index_moved;
use nd_grid::operation::on_slope;
use nd_shape::shape::AXES;
use nd_shape::{Block, Region, Shape, ravel, unravel};
use std::alloc::Global;

// The value at each place of a row, from its first on.
fn fill_slope(first: i64, step: i64, out: &mut [i64])
    requires { length out.old ≤ 2 ^ 31 }
    ensures len { length out.new ≡ length out.old }
    ensures each { (i : ℕ) → i < length out.old → get_or out.new i (pos 0) ≡ wrap (first +ℤ (step *ℤ pos i)) }
{
    for i in 0..out.len() {
        out[i] = on_slope(first, step, i as u64);
    }
}

#[derive(Clone, Copy)]
struct Slope<'a> {
    whole: &'a Shape,
    region: &'a Region,
    shape: &'a Shape,
    start: i64,
    step: i64,
    outer: usize,
}

impl<'a> Rows for Slope<'a> {
    ghost use Rattle.nd_grid.specs.Grid.{ramp, part};
    ghost use Rattle.block_kernels.specs.Pairing.{CanRamp};

    ghost grid = { λ s. part s.region.now (ramp s.whole.now s.start s.step) };

    ghost outer = { λ s. s.outer };

    ghost valid = { λ s. CanRamp s.region.now s.whole.now s.shape.now s.outer };

    fn fill(&self, row: u64, out: &mut [i64]) -> Option<u64> {
        let _ = self.whole.dims();
        let dims = self.shape.dims();
        let mut room = [0; AXES];
        let index = &mut room[..dims.len()];
        let start = row * out.len() as u64;
        unravel(self.shape, start, index);
        let mut space = [0; AXES];
        let own = &mut space[..dims.len()];
        index_moved(self.region.starts(), index, own);
        let place = ravel(self.whole, own);
        fill_slope(on_slope(self.start, self.step, place), self.step, out);
        None
    }
}

/// The part in a region of the array whose element at the row-major place p is `start + step * p`, as NumPy's `arange`
/// with a shape, or `full` where the step is 0.
pub fn fill(
    alloc: Global,
    whole: &Shape,
    region: &Region,
    start: i64,
    step: i64,
) -> Result<Block, Fail>
    requires { IsPart region.now whole.now }
    ensures ok { IfOk result (λ block. block_of (part region.now (ramp whole.now start step)) ≡ Ok block) }
    ensures dims { IfOk result (λ block. block.shape ≡ region.now.lengths) }
    ensures err { IfErr result (λ e. FailsAs e (block_of (part region.now (ramp whole.now start step)))) }
{
    let shape = region.shape(alloc, whole)?;
    let copy = shape.copy(alloc)?;
    let outer = shape.dims().len().saturating_sub(1);
    let slope = Slope {
        whole,
        region,
        shape: &shape,
        start,
        step,
        outer,
    };
    tabulate_rows(alloc, &slope, outer, copy)
}
