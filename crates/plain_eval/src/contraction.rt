//! The formula of a product over paired axes.
ghost use Rattle.std.specs.Prelude.{◌≡◌, ◌<◌, ◌≤◌, drop, length};
ghost use Rattle.nd_shape.specs.Shape.{elements};
ghost use Rattle.nd_shape.specs.Index.{IsIn, index_at};
ghost use Rattle.nd_grid.specs.Grid.{kept_shape, woven, contracted};
ghost use Rattle.array_expr.specs.Elem.{array_at};
ghost use Rattle.plain_eval.specs.Fits.{CanMultiply, product_at};

use crate::held::{Held, dims_of, element_of};
use crate::picking::combine_two;
use crate::weaving::{index_woven, kept_count};
use array_expr::NodeId;
use nd_grid::operation::{combine, neutral};
use nd_grid::{Binary, Fold, Formula};
use nd_shape::shape::AXES;
use nd_shape::{Shape, unravel};

/// The products over paired axes, summed. `paired` has the lengths of those axes, in the order of the lists.
#[derive(Clone, Copy)]
pub struct Contraction<'a> {
    pub left_axes: &'a [u64],
    pub right_axes: &'a [u64],
    pub known: &'a [Held],
    pub left: NodeId,
    pub right: NodeId,
    pub paired: &'a Shape,
}

impl<'a> Formula for Contraction<'a> {
    ghost use Rattle.nd_grid.specs.Grid.{contracted};
    ghost use Rattle.array_expr.specs.Elem.{array_at};
    ghost use Rattle.plain_eval.specs.Fits.{CanMultiply};

    ghost grid = { λ s. contracted s.left_axes.now s.right_axes.now (array_at s.known.now s.left) (array_at s.known.now s.right) };

    ghost valid = { λ s. CanMultiply s.known.now s.left s.right s.left_axes.now s.right_axes.now s.paired.now };

    fn at(&self, index: &[u64]) -> Option<i64> {
        contracted_element(
            self.known,
            self.left,
            self.right,
            self.left_axes,
            self.right_axes,
            self.paired,
            index,
        )
    }
}

// The sum of all products.
fn contracted_element(
    known: &[Held],
    left: NodeId,
    right: NodeId,
    left_axes: &[u64],
    right_axes: &[u64],
    paired: &Shape,
    index: &[u64],
) -> Option<i64>
    requires valid { CanMultiply known.now left right left_axes.now right_axes.now paired.now }
    requires inside { IsIn (contracted left_axes.now right_axes.now (array_at known.now left) (array_at known.now right)).shape index.now }
    ensures { result ≡ (contracted left_axes.now right_axes.now (array_at known.now left) (array_at known.now right)).at index.now }
{
    let mut total = Some(neutral(Fold::Sum));
    for place in 0..paired.elements() {
        let next = product_at(
            known, left, right, left_axes, right_axes, paired, index, place,
        );
        total = combine_two(Fold::Sum, total, next);
    }
    total
}

// An index from a place on.
fn rest_of(index: &[u64], kept: usize) -> &[u64]
    requires { kept ≤ length index.now }
    ensures { result.now ≡ drop kept index.now }
{
    &index[kept..]
}

// The product at a place of the paired axes.
fn product_at(
    known: &[Held],
    left: NodeId,
    right: NodeId,
    left_axes: &[u64],
    right_axes: &[u64],
    paired: &Shape,
    index: &[u64],
    place: u64,
) -> Option<i64>
    requires valid { CanMultiply known.now left right left_axes.now right_axes.now paired.now }
    requires inside { IsIn (contracted left_axes.now right_axes.now (array_at known.now left) (array_at known.now right)).shape index.now }
    requires place { place < elements paired.now }
    ensures { result ≡ product_at left_axes.now right_axes.now (array_at known.now left) (array_at known.now right) index.now (index_at paired.now place) }
{
    let mut room = [0; AXES];
    let rest = &mut room[..paired.dims().len()];
    unravel(paired, place, rest);
    let kept = kept_count(left_axes, dims_of(known, left));
    let a = woven_element(known, left, left_axes, index, rest);
    let b = woven_element(known, right, right_axes, rest_of(index, kept), rest);
    combine(Binary::Mul, a, b)
}

// What stands at the index made of kept and paired coordinates.
fn woven_element(
    known: &[Held],
    of: NodeId,
    axes: &[u64],
    kept: &[u64],
    rest: &[u64],
) -> Option<i64>
    requires there { of < length known.now }
    requires kept { length (kept_shape 0 (array_at known.now of).shape axes.now) ≤ length kept.now }
    requires rest { length rest.now ≡ length axes.now }
    requires inside { IsIn (array_at known.now of).shape (woven 0 (array_at known.now of).shape axes.now kept.now rest.now) }
    ensures { result ≡ (array_at known.now of).at (woven 0 (array_at known.now of).shape axes.now kept.now rest.now) }
{
    let dims = dims_of(known, of);
    let mut room = [0; AXES];
    let own = &mut room[..dims.len()];
    index_woven(axes, dims, kept, rest, own);
    element_of(known, of, own)
}
