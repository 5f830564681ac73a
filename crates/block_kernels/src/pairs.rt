//! Operations on two blocks, element by element.
ghost use Rattle.std.specs.Prelude.{◌≡◌, [], ◌∷◌, IfOk, IfErr, Ok};
ghost use Rattle.nd_shape.specs.Broadcast.{broadcast, Agree};
ghost use Rattle.nd_grid.specs.Grid.{grid_of, block_of, elementwise};
ghost use Rattle.nd_grid.specs.Computed.{FailsAs};

use crate::binary::fill_binary;
use crate::broadcast::{outer_axes, run_under};
use crate::rows::{Rows, tabulate_rows};
use nd_grid::{Binary, Fail};
use nd_shape::shape::AXES;
use nd_shape::{Block, Shape, unravel};
use std::alloc::Global;

#[derive(Clone, Copy)]
struct Pairs<'a> {
    op: Binary,
    left: &'a Block,
    right: &'a Block,
    shape: &'a Shape,
    outer: usize,
}

impl<'a> Rows for Pairs<'a> {
    ghost use Rattle.nd_grid.specs.Grid.{grid_of, elementwise};
    ghost use Rattle.block_kernels.specs.Pairing.{CanPair};

    ghost grid = { λ s. elementwise s.op (grid_of s.left.now) (grid_of s.right.now) };

    ghost outer = { λ s. s.outer };

    ghost valid = { λ s. CanPair s.left.now.shape s.right.now.shape s.shape.now s.outer };

    fn fill(&self, row: u64, out: &mut [i64]) -> Option<u64> {
        let dims = self.shape.dims();
        let len = out.len();
        let mut room = [0; AXES];
        let index = &mut room[..dims.len()];
        let start = row * len as u64;
        unravel(self.shape, start, index);
        let left = run_under(self.left, dims, self.outer, row, index, len);
        let right = run_under(self.right, dims, self.outer, row, index, len);
        fill_binary(self.op, left, right, out)
    }
}

/// An operation on two blocks, element by element, whose shapes are broadcast, as NumPy's functions of these names.
/// ZeroDivide names the first place with a divisor of 0.
pub fn elementwise(
    alloc: Global,
    op: Binary,
    left: &Block,
    right: &Block,
    shape: &Shape,
) -> Result<Block, Fail>
    requires agree { Agree (left.now.shape ∷ right.now.shape ∷ []) }
    requires shape { broadcast (left.now.shape ∷ right.now.shape ∷ []) ≡ shape.now }
    ensures ok { IfOk result (λ block. block_of (elementwise op (grid_of left.now) (grid_of right.now)) ≡ Ok block) }
    ensures dims { IfOk result (λ block. block.shape ≡ shape.now) }
    ensures err { IfErr result (λ e. FailsAs e (block_of (elementwise op (grid_of left.now) (grid_of right.now)))) }
{
    let left_dims = left.shape().dims();
    let right_dims = right.shape().dims();
    let outer = outer_axes(left_dims, right_dims, right_dims, shape.dims());
    let pairs = Pairs {
        op,
        left,
        right,
        shape,
        outer,
    };
    tabulate_rows(alloc, &pairs, outer, shape.copy(alloc)?)
}
