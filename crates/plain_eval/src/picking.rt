//! Formulas over one operand.
ghost use Rattle.std.specs.Prelude.{◌≡◌, ◌<◌, length};
ghost use Rattle.nd_shape.specs.Shape.{elements};
ghost use Rattle.nd_shape.specs.Index.{IsIn, index_at};
ghost use Rattle.nd_grid.specs.Operation.{negated_element, combine_two};
ghost use Rattle.nd_grid.specs.Grid.{reduced, folded_shape, kept_shape, merged};
ghost use Rattle.array_expr.specs.Elem.{array_at};
ghost use Rattle.plain_eval.specs.Fits.{CanFold};

use crate::held::{Held, dims_of, element_of};
use array_expr::NodeId;
use nd_grid::operand::{index_merged, index_sliced, index_transposed};
use nd_grid::operation::{fold_two, negate_element, neutral};
use nd_grid::{Fold, Formula};
use nd_shape::shape::AXES;
use nd_shape::{Shape, Steps, unravel};

fn negated(a: Option<i64>) -> Option<i64>
    ensures { result ≡ negated_element a }
{
    match a {
        Some(a) => Some(negate_element(a)),
        None => None,
    }
}

/// Each element negated.
#[derive(Clone, Copy)]
pub struct Negation<'a> {
    pub known: &'a [Held],
    pub of: NodeId,
}

impl<'a> Formula for Negation<'a> {
    ghost use Rattle.std.specs.Prelude.{◌<◌, length};
    ghost use Rattle.nd_grid.specs.Grid.{negated};
    ghost use Rattle.array_expr.specs.Elem.{array_at};

    ghost grid = { λ s. negated (array_at s.known.now s.of) };

    ghost valid = { λ s. s.of < length s.known.now };

    fn at(&self, index: &[u64]) -> Option<i64> {
        negated(element_of(self.known, self.of, index))
    }
}

/// The same elements.
#[derive(Clone, Copy)]
pub struct Same<'a> {
    pub known: &'a [Held],
    pub of: NodeId,
}

impl<'a> Formula for Same<'a> {
    ghost use Rattle.std.specs.Prelude.{◌<◌, length};
    ghost use Rattle.array_expr.specs.Elem.{array_at};

    ghost grid = { λ s. array_at s.known.now s.of };

    ghost valid = { λ s. s.of < length s.known.now };

    fn at(&self, index: &[u64]) -> Option<i64> {
        element_of(self.known, self.of, index)
    }
}

/// What a slice takes.
#[derive(Clone, Copy)]
pub struct Taking<'a> {
    pub steps: &'a [Steps],
    pub dropped: &'a [u64],
    pub known: &'a [Held],
    pub of: NodeId,
}

impl<'a> Formula for Taking<'a> {
    ghost use Rattle.nd_grid.specs.Grid.{sliced};
    ghost use Rattle.array_expr.specs.Elem.{array_at};
    ghost use Rattle.plain_eval.specs.Fits.{CanTake};

    ghost grid = { λ s. sliced s.steps.now s.dropped.now (array_at s.known.now s.of) };

    ghost valid = { λ s. CanTake s.known.now s.of s.steps.now s.dropped.now };

    fn at(&self, index: &[u64]) -> Option<i64> {
        let dims = dims_of(self.known, self.of);
        let mut room = [0; AXES];
        let own = &mut room[..dims.len()];
        index_sliced(self.steps, self.dropped, dims, index, own);
        element_of(self.known, self.of, own)
    }
}

/// The axes in another order.
#[derive(Clone, Copy)]
pub struct Turn<'a> {
    pub axes: &'a [u64],
    pub known: &'a [Held],
    pub of: NodeId,
}

impl<'a> Formula for Turn<'a> {
    ghost use Rattle.nd_grid.specs.Grid.{transposed};
    ghost use Rattle.array_expr.specs.Elem.{array_at};
    ghost use Rattle.plain_eval.specs.Fits.{CanTurn};

    ghost grid = { λ s. transposed s.axes.now (array_at s.known.now s.of) };

    ghost valid = { λ s. CanTurn s.known.now s.of s.axes.now };

    fn at(&self, index: &[u64]) -> Option<i64> {
        let dims = dims_of(self.known, self.of);
        let mut room = [0; AXES];
        let own = &mut room[..dims.len()];
        index_transposed(self.axes, index, own);
        element_of(self.known, self.of, own)
    }
}

/// The elements along the listed axes folded into one. `folded` has the lengths of those axes, in ascending order.
#[derive(Clone, Copy)]
pub struct Reduction<'a> {
    pub fold: Fold,
    pub axes: &'a [u64],
    pub known: &'a [Held],
    pub of: NodeId,
    pub folded: &'a Shape,
}

impl<'a> Formula for Reduction<'a> {
    ghost use Rattle.nd_grid.specs.Grid.{reduced};
    ghost use Rattle.array_expr.specs.Elem.{array_at};
    ghost use Rattle.plain_eval.specs.Fits.{CanFold};

    ghost grid = { λ s. reduced s.fold s.axes.now (array_at s.known.now s.of) };

    ghost valid = { λ s. CanFold s.known.now s.of s.axes.now s.folded.now };

    fn at(&self, index: &[u64]) -> Option<i64> {
        reduced_element(
            self.fold,
            self.axes,
            self.known,
            self.of,
            self.folded,
            index,
        )
    }
}

// All along the folded axes.
fn reduced_element(
    fold: Fold,
    axes: &[u64],
    known: &[Held],
    of: NodeId,
    folded: &Shape,
    index: &[u64],
) -> Option<i64>
    requires valid { CanFold known.now of axes.now folded.now }
    requires kept { IsIn (kept_shape 0 (array_at known.now of).shape axes.now) index.now }
    ensures { result ≡ (reduced fold axes.now (array_at known.now of)).at index.now }
{
    let mut total = Some(neutral(fold));
    for place in 0..folded.elements() {
        let next = merged_element(axes, known, of, folded, index, place);
        total = combine_two(fold, total, next);
    }
    total
}

// What stands at a place of the folded axes.
fn merged_element(
    axes: &[u64],
    known: &[Held],
    of: NodeId,
    folded: &Shape,
    index: &[u64],
    place: u64,
) -> Option<i64>
    requires there { of < length known.now }
    requires folded { folded.now ≡ folded_shape 0 (array_at known.now of).shape axes.now }
    requires kept { IsIn (kept_shape 0 (array_at known.now of).shape axes.now) index.now }
    requires place { place < elements folded.now }
    ensures { result ≡ (array_at known.now of).at (merged 0 (array_at known.now of).shape axes.now index.now (index_at folded.now place)) }
{
    let dims = dims_of(known, of);
    let mut room = [0; AXES];
    let rest = &mut room[..folded.dims().len()];
    unravel(folded, place, rest);
    let mut space = [0; AXES];
    let own = &mut space[..dims.len()];
    index_merged(axes, dims, index, rest, own);
    element_of(known, of, own)
}

/// Two elements folded into one, where both are there. No memory.
pub fn combine_two(fold: Fold, a: Option<i64>, b: Option<i64>) -> Option<i64>
    ensures { result ≡ combine_two fold a b }
{
    match (a, b) {
        (Some(a), Some(b)) => Some(fold_two(fold, a, b)),
        _ => None,
    }
}
