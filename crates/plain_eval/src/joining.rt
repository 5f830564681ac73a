//! The formula of a concatenation.
ghost use Rattle.std.specs.Prelude.{◌≡◌, ◌<◌, map};
ghost use Rattle.nd_shape.specs.Index.{IsIn};
ghost use Rattle.nd_grid.specs.Grid.{concatenated};
ghost use Rattle.array_expr.specs.Elem.{array_at};
ghost use Rattle.plain_eval.specs.Fits.{CanJoin};

use crate::held::{Held, dims_of, element_of};
use array_expr::NodeId;
use nd_grid::Formula;
use nd_shape::shape::AXES;

/// Arrays one after another along an axis.
#[derive(Clone, Copy)]
pub struct Joined<'a> {
    pub known: &'a [Held],
    pub of: &'a [NodeId],
    pub axis: usize,
}

impl<'a> Formula for Joined<'a> {
    ghost use Rattle.std.specs.Prelude.{map};
    ghost use Rattle.nd_grid.specs.Grid.{concatenated};
    ghost use Rattle.array_expr.specs.Elem.{array_at};
    ghost use Rattle.plain_eval.specs.Fits.{CanJoin};

    ghost grid = { λ s. concatenated s.axis (map (array_at s.known.now) s.of.now) };

    ghost valid = { λ s. CanJoin s.known.now s.of.now s.axis };

    fn at(&self, index: &[u64]) -> Option<i64> {
        joined_element(self.known, self.of, self.axis, index)
    }
}

// What stands at an index of the arrays one after another.
fn joined_element(known: &[Held], of: &[NodeId], axis: usize, index: &[u64]) -> Option<i64>
    requires valid { CanJoin known.now of.now axis }
    requires inside { IsIn (concatenated axis (map (array_at known.now) of.now)).shape index.now }
    ensures { result ≡ (concatenated axis (map (array_at known.now) of.now)).at index.now }
{
    let mut room = [0; AXES];
    let own = &mut room[..index.len()];
    own.copy_from_slice(index);
    for node in of {
        let len = dims_of(known, *node)[axis];
        if own[axis] < len {
            return element_of(known, *node, own);
        }
        own[axis] -= len;
    }
    None
}
