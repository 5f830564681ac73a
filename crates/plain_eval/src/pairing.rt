//! Formulas over operands element by element.
use crate::held::{Held, element_under};
use array_expr::NodeId;
use nd_grid::operation::{combine, pick};
use nd_grid::{Binary, Formula};

/// An operation on two arrays, which are broadcast.
#[derive(Clone, Copy)]
pub struct Pair<'a> {
    pub op: Binary,
    pub known: &'a [Held],
    pub left: NodeId,
    pub right: NodeId,
}

impl<'a> Formula for Pair<'a> {
    ghost use Rattle.nd_grid.specs.Grid.{elementwise};
    ghost use Rattle.array_expr.specs.Elem.{array_at};
    ghost use Rattle.plain_eval.specs.Fits.{CanPair};

    ghost grid = { λ s. elementwise s.op (array_at s.known.now s.left) (array_at s.known.now s.right) };

    ghost valid = { λ s. CanPair s.known.now s.left s.right };

    fn at(&self, index: &[u64]) -> Option<i64> {
        let left = element_under(self.known, self.left, index);
        let right = element_under(self.known, self.right, index);
        combine(self.op, left, right)
    }
}

/// The second where the first isn't 0, else the third; all three are broadcast at once.
#[derive(Clone, Copy)]
pub struct Choice<'a> {
    pub known: &'a [Held],
    pub condition: NodeId,
    pub first: NodeId,
    pub second: NodeId,
}

impl<'a> Formula for Choice<'a> {
    ghost use Rattle.nd_grid.specs.Grid.{chosen};
    ghost use Rattle.array_expr.specs.Elem.{array_at};
    ghost use Rattle.plain_eval.specs.Fits.{CanChoose};

    ghost grid = { λ s. chosen (array_at s.known.now s.condition) (array_at s.known.now s.first) (array_at s.known.now s.second) };

    ghost valid = { λ s. CanChoose s.known.now s.condition s.first s.second };

    fn at(&self, index: &[u64]) -> Option<i64> {
        let condition = element_under(self.known, self.condition, index);
        let first = element_under(self.known, self.first, index);
        let second = element_under(self.known, self.second, index);
        pick(condition, first, second)
    }
}
