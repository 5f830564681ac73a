//! What elements use of one operand.
ghost use Rattle.std.specs.Prelude.{◌≡◌, ◌<◌, ℕ, List, length, map, slice_index, OnOk};
ghost use Rattle.nd_shape.specs.Index.{IsIn};
ghost use Rattle.nd_shape.specs.Shape.{IsShape};
ghost use Rattle.nd_grid.specs.Grid.{IsTranspose, SlicesFit, sliced_from, sliced_shape, turned, under};
ghost use Rattle.array_expr.specs.Node.{dropped, shape_at};
ghost use Rattle.input_regions.specs.Uses.{IsAt};
ghost use Rattle.input_regions.specs.Widening.{AreFit, CanAsk, IsFromTo, IsUsed, Widens};

use crate::boxes::widen_both;
use array_expr::slicing::dropped_axes;
use array_expr::{Node, NodeId};
use nd_grid::index_under;
use nd_grid::operand::{index_sliced, index_transposed};
use nd_shape::shape::AXES;
use nd_shape::{Parts, Region, Steps};
use std::alloc::{AllocError, Global};

/// The lengths of a node. No memory.
pub fn dims_of(nodes: &[Node], of: NodeId) -> &[u64]
    requires { of < length nodes.now }
    ensures value { result.now ≡ shape_at nodes.now of }
    ensures limits { IsShape (shape_at nodes.now of) }
{
    nodes[of.number() as usize].shape.dims()
}

/// An operand of which an element uses the one at its own index. No memory.
pub fn use_same(
    needs: &mut [Option<Region>],
    nodes: &[Node],
    of: NodeId,
    first: &[u64],
    last: &[u64],
)
    requires can { CanAsk nodes.now needs.old of }
    requires order { IsFromTo first.now last.now last.now }
    requires inside { (i : List ℕ) → IsFromTo first.now last.now i → IsIn (shape_at nodes.now of) i }
    ensures uses { Widens (IsUsed first.now last.now (λ i k j. IsAt of i k j)) needs.old needs.new }
    ensures fit { AreFit nodes.now needs.new }
{
    let _ = dims_of(nodes, of);
    widen_both(needs, of, first, last);
}

/// An operand that is broadcast. No memory.
pub fn use_under(
    needs: &mut [Option<Region>],
    nodes: &[Node],
    of: NodeId,
    first: &[u64],
    last: &[u64],
)
    requires can { CanAsk nodes.now needs.old of }
    requires order { IsFromTo first.now last.now last.now }
    requires inside { (i : List ℕ) → IsFromTo first.now last.now i → IsIn (shape_at nodes.now of) (under (shape_at nodes.now of) i) }
    ensures uses { Widens (IsUsed first.now last.now (λ i k j. IsAt of (under (shape_at nodes.now of) i) k j)) needs.old needs.new }
    ensures fit { AreFit nodes.now needs.new }
{
    let dims = dims_of(nodes, of);
    let mut first_room = [0; AXES];
    let low = &mut first_room[..dims.len()];
    index_under(dims, first, low);
    let mut last_room = [0; AXES];
    let high = &mut last_room[..dims.len()];
    index_under(dims, last, high);
    widen_both(needs, of, low, high);
}

/// The operand of a slice.
pub fn use_sliced(
    alloc: Global,
    needs: &mut [Option<Region>],
    nodes: &[Node],
    of: NodeId,
    parts: &Parts,
    taken: &[Steps],
    first: &[u64],
    last: &[u64],
) -> Result<(), AllocError>
    requires can { CanAsk nodes.now needs.old of }
    requires order { IsFromTo first.now last.now last.now }
    requires fits { SlicesFit 0 taken.now (shape_at nodes.now of) (dropped parts.now) }
    requires inside { (i : List ℕ) → IsFromTo first.now last.now i → IsIn (sliced_shape 0 taken.now (dropped parts.now)) i }
    ensures uses { OnOk result (Widens (IsUsed first.now last.now (λ i k j. IsAt of (sliced_from 0 taken.now (dropped parts.now) i) k j)) needs.old needs.new) }
    ensures fit { OnOk result (AreFit nodes.now needs.new) }
{
    let dims = dims_of(nodes, of);
    let gone = dropped_axes(alloc, parts.as_slice())?;
    let mut first_room = [0; AXES];
    let low = &mut first_room[..dims.len()];
    index_sliced(taken, gone.as_slice(), dims, first, low);
    let mut last_room = [0; AXES];
    let high = &mut last_room[..dims.len()];
    index_sliced(taken, gone.as_slice(), dims, last, high);
    widen_both(needs, of, low, high);
    Ok(())
}

/// The operand of a transpose. No memory.
pub fn use_turned(
    needs: &mut [Option<Region>],
    nodes: &[Node],
    of: NodeId,
    axes: &[u64],
    first: &[u64],
    last: &[u64],
)
    requires can { CanAsk nodes.now needs.old of }
    requires order { IsFromTo first.now last.now last.now }
    requires turn { IsTranspose axes.now (length (shape_at nodes.now of)) }
    requires inside { (i : List ℕ) → IsFromTo first.now last.now i → IsIn (map (λ a. slice_index (shape_at nodes.now of) a) axes.now) i }
    ensures uses { Widens (IsUsed first.now last.now (λ i k j. IsAt of (turned axes.now i) k j)) needs.old needs.new }
    ensures fit { AreFit nodes.now needs.new }
{
    let _ = dims_of(nodes, of);
    let mut first_room = [0; AXES];
    let low = &mut first_room[..axes.len()];
    index_transposed(axes, first, low);
    let mut last_room = [0; AXES];
    let high = &mut last_room[..axes.len()];
    index_transposed(axes, last, high);
    widen_both(needs, of, low, high);
}
