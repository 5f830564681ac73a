//! The choice between two blocks, element by element.
ghost use Rattle.std.specs.Prelude.{◌≡◌, [], ◌∷◌, IfOk, IfErr, Ok};
ghost use Rattle.nd_shape.specs.Broadcast.{broadcast, Agree};
ghost use Rattle.nd_grid.specs.Grid.{grid_of, block_of, chosen};
ghost use Rattle.nd_grid.specs.Computed.{FailsAs};

use crate::broadcast::{outer_axes, run_under};
use crate::choice::fill_choice;
use crate::rows::{Rows, tabulate_rows};
use nd_grid::Fail;
use nd_shape::shape::AXES;
use nd_shape::{Block, Shape, unravel};
use std::alloc::Global;

#[derive(Clone, Copy)]
struct Choices<'a> {
    condition: &'a Block,
    first: &'a Block,
    second: &'a Block,
    shape: &'a Shape,
    outer: usize,
}

impl<'a> Rows for Choices<'a> {
    ghost use Rattle.nd_grid.specs.Grid.{grid_of, chosen};
    ghost use Rattle.block_kernels.specs.Pairing.{CanChoose};

    ghost grid = { λ s. chosen (grid_of s.condition.now) (grid_of s.first.now) (grid_of s.second.now) };

    ghost outer = { λ s. s.outer };

    ghost valid = { λ s. CanChoose s.condition.now.shape s.first.now.shape s.second.now.shape s.shape.now s.outer };

    fn fill(&self, row: u64, out: &mut [i64]) -> Option<u64> {
        let dims = self.shape.dims();
        let len = out.len();
        let mut room = [0; AXES];
        let index = &mut room[..dims.len()];
        let start = row * len as u64;
        unravel(self.shape, start, index);
        let condition = run_under(self.condition, dims, self.outer, row, index, len);
        let first = run_under(self.first, dims, self.outer, row, index, len);
        let second = run_under(self.second, dims, self.outer, row, index, len);
        fill_choice(condition, first, second, out);
        None
    }
}

/// The second where the condition isn't 0, else the third, as NumPy's `where`. The three are broadcast at once.
pub fn choose(
    alloc: Global,
    condition: &Block,
    first: &Block,
    second: &Block,
    shape: &Shape,
) -> Result<Block, Fail>
    requires agree { Agree (condition.now.shape ∷ first.now.shape ∷ second.now.shape ∷ []) }
    requires shape { broadcast (condition.now.shape ∷ first.now.shape ∷ second.now.shape ∷ []) ≡ shape.now }
    ensures ok { IfOk result (λ block. block_of (chosen (grid_of condition.now) (grid_of first.now) (grid_of second.now)) ≡ Ok block) }
    ensures dims { IfOk result (λ block. block.shape ≡ shape.now) }
    ensures err { IfErr result (λ e. FailsAs e (block_of (chosen (grid_of condition.now) (grid_of first.now) (grid_of second.now)))) }
{
    let condition_dims = condition.shape().dims();
    let first_dims = first.shape().dims();
    let second_dims = second.shape().dims();
    let outer = outer_axes(condition_dims, first_dims, second_dims, shape.dims());
    let choices = Choices {
        condition,
        first,
        second,
        shape,
        outer,
    };
    tabulate_rows(alloc, &choices, outer, shape.copy(alloc)?)
}
