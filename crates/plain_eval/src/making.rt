//! Formulas without operands, and parts of arrays.
ghost use Rattle.std.specs.Prelude.{◌≡◌, ◌<◌, ◌^◌, pos, ◌+ℤ◌, ◌*ℤ◌};
ghost use Rattle.nd_grid.specs.Int64.{wrap};

use crate::held::{Held, dims_of, element_of};
use array_expr::NodeId;
use nd_grid::operand::index_moved;
use nd_grid::{Formula, element_at};
use nd_shape::shape::AXES;
use nd_shape::{Block, Region, Shape, ravel};

/// One value everywhere.
#[derive(Clone, Copy)]
pub struct Flat<'a> {
    pub shape: &'a Shape,
    pub value: i64,
}

impl<'a> Formula for Flat<'a> {
    ghost use Rattle.nd_grid.specs.Grid.{filled};

    ghost grid = { λ s. filled s.shape.now s.value };

    ghost valid = { λ s. Unit {0} };

    fn at(&self, _index: &[u64]) -> Option<i64> {
        Some(self.value)
    }
}

/// `start + step * p` at the row-major place p.
#[derive(Clone, Copy)]
pub struct Slope<'a> {
    pub shape: &'a Shape,
    pub start: i64,
    pub step: i64,
}

impl<'a> Formula for Slope<'a> {
    ghost use Rattle.nd_grid.specs.Grid.{ramp};

    ghost grid = { λ s. ramp s.shape.now s.start s.step };

    ghost valid = { λ s. Unit {0} };

    fn at(&self, index: &[u64]) -> Option<i64> {
        let dims = self.shape.dims();
        let place = ravel(self.shape, index);
        let _ = dims;
        Some(on_slope(self.start, self.step, place))
    }
}

/// The elements of a block.
#[derive(Clone, Copy)]
pub struct Whole<'a> {
    pub block: &'a Block,
}

impl<'a> Formula for Whole<'a> {
    ghost use Rattle.nd_grid.specs.Grid.{grid_of};

    ghost grid = { λ s. grid_of s.block.now };

    ghost valid = { λ s. Unit {0} };

    fn at(&self, index: &[u64]) -> Option<i64> {
        Some(element_at(self.block, index))
    }
}

/// What lies in a region of an array.
#[derive(Clone, Copy)]
pub struct Part<'a> {
    pub known: &'a [Held],
    pub of: NodeId,
    pub region: &'a Region,
}

impl<'a> Formula for Part<'a> {
    ghost use Rattle.nd_grid.specs.Grid.{part};
    ghost use Rattle.array_expr.specs.Elem.{array_at};
    ghost use Rattle.plain_eval.specs.Fits.{CanCut};

    ghost grid = { λ s. part s.region.now (array_at s.known.now s.of) };

    ghost valid = { λ s. CanCut s.known.now s.of s.region.now };

    fn at(&self, index: &[u64]) -> Option<i64> {
        let dims = dims_of(self.known, self.of);
        let mut room = [0; AXES];
        let own = &mut room[..dims.len()];
        index_moved(self.region.starts(), index, own);
        element_of(self.known, self.of, own)
    }
}

fn scaled(step: i64, place: u64) -> i64
    requires { place < 2 ^ 31 }
    ensures { result ≡ wrap (step *ℤ pos place) }
{
    step.wrapping_mul(place as i64)
}

fn on_slope(start: i64, step: i64, place: u64) -> i64
    requires { place < 2 ^ 31 }
    ensures { result ≡ wrap (start +ℤ (step *ℤ pos place)) }
{
    start.wrapping_add(scaled(step, place))
}
