//! What the elements of a node from a first to a last index use of its operands.
ghost use Rattle.std.specs.Prelude.{◌<◌, ◌≤◌, ◌++◌, ◌⊎◌, ℕ, List, length, take, drop, OnOk};
ghost use Rattle.nd_shape.specs.Index.{IsIn};
ghost use Rattle.nd_grid.specs.Grid.{kept_shape, under};
ghost use Rattle.array_expr.specs.Node.{IsExpression, folded_axes, shape_at};
ghost use Rattle.input_regions.specs.Uses.{IsAlong, IsAt, kept_number};
ghost use Rattle.input_regions.specs.Widening.{AreFit, AsksOperands, CanAsk, IsFromTo, IsUsed, Widens};

use crate::along::use_along;
use crate::branches::use_branches;
use crate::uses::{dims_of, use_same, use_sliced, use_turned, use_under};
use array_expr::axes::{axes_folded, push_kept};
use array_expr::{Node, NodeId, Op};
use nd_shape::{Axes, Region};
use std::alloc::{AllocError, Global};

// Two operands that are broadcast. No memory.
fn use_pair(
    needs: &mut [Option<Region>],
    nodes: &[Node],
    left: NodeId,
    right: NodeId,
    first: &[u64],
    last: &[u64],
)
    requires left { CanAsk nodes.now needs.old left }
    requires right { CanAsk nodes.now needs.old right }
    requires order { IsFromTo first.now last.now last.now }
    requires left_inside { (i : List ℕ) → IsFromTo first.now last.now i → IsIn (shape_at nodes.now left) (under (shape_at nodes.now left) i) }
    requires right_inside { (i : List ℕ) → IsFromTo first.now last.now i → IsIn (shape_at nodes.now right) (under (shape_at nodes.now right) i) }
    ensures uses { Widens (IsUsed first.now last.now (λ i k j. IsAt left (under (shape_at nodes.now left) i) k j ⊎ IsAt right (under (shape_at nodes.now right) i) k j)) needs.old needs.new }
    ensures fit { AreFit nodes.now needs.new }
{
    use_under(needs, nodes, left, first, last);
    use_under(needs, nodes, right, first, last);
}

// Three operands that are broadcast. No memory.
fn use_three(
    needs: &mut [Option<Region>],
    nodes: &[Node],
    one: NodeId,
    two: NodeId,
    three: NodeId,
    first: &[u64],
    last: &[u64],
)
    requires one { CanAsk nodes.now needs.old one }
    requires two { CanAsk nodes.now needs.old two }
    requires three { CanAsk nodes.now needs.old three }
    requires order { IsFromTo first.now last.now last.now }
    requires one_inside { (i : List ℕ) → IsFromTo first.now last.now i → IsIn (shape_at nodes.now one) (under (shape_at nodes.now one) i) }
    requires two_inside { (i : List ℕ) → IsFromTo first.now last.now i → IsIn (shape_at nodes.now two) (under (shape_at nodes.now two) i) }
    requires three_inside { (i : List ℕ) → IsFromTo first.now last.now i → IsIn (shape_at nodes.now three) (under (shape_at nodes.now three) i) }
    ensures uses { Widens (IsUsed first.now last.now (λ i k j. IsAt one (under (shape_at nodes.now one) i) k j ⊎ (IsAt two (under (shape_at nodes.now two) i) k j ⊎ IsAt three (under (shape_at nodes.now three) i) k j))) needs.old needs.new }
    ensures fit { AreFit nodes.now needs.new }
{
    use_under(needs, nodes, one, first, last);
    use_pair(needs, nodes, two, three, first, last);
}

// The operand of a reduction.
fn use_folded(
    alloc: Global,
    needs: &mut [Option<Region>],
    nodes: &[Node],
    of: NodeId,
    axes: &Option<Axes>,
    first: &[u64],
    last: &[u64],
) -> Result<(), AllocError>
    requires can { CanAsk nodes.now needs.old of }
    requires order { IsFromTo first.now last.now last.now }
    requires inside { (i : List ℕ) → IsFromTo first.now last.now i → IsIn (kept_shape 0 (shape_at nodes.now of) (folded_axes axes.now (length (shape_at nodes.now of)))) i }
    ensures uses { OnOk result (Widens (IsUsed first.now last.now (IsAlong of (shape_at nodes.now of) (folded_axes axes.now (length (shape_at nodes.now of))))) needs.old needs.new) }
    ensures fit { OnOk result (AreFit nodes.now needs.new) }
{
    let folded = axes_folded(alloc, axes, dims_of(nodes, of).len() as u64)?;
    use_along(alloc, needs, nodes, of, folded.as_slice(), first, last)
}

// The operands of a product over paired axes: an index has the axes that are left of the first, then those of the second.
fn use_paired(
    alloc: Global,
    needs: &mut [Option<Region>],
    nodes: &[Node],
    left: NodeId,
    right: NodeId,
    left_axes: &[u64],
    right_axes: &[u64],
    first: &[u64],
    last: &[u64],
) -> Result<(), AllocError>
    requires left { CanAsk nodes.now needs.old left }
    requires right { CanAsk nodes.now needs.old right }
    requires order { IsFromTo first.now last.now last.now }
    requires inside { (i : List ℕ) → IsFromTo first.now last.now i → IsIn (kept_shape 0 (shape_at nodes.now left) left_axes.now ++ kept_shape 0 (shape_at nodes.now right) right_axes.now) i }
    ensures uses { OnOk result (Widens (IsUsed first.now last.now (λ i k j. IsAlong left (shape_at nodes.now left) left_axes.now (take (kept_number (shape_at nodes.now left) left_axes.now) i) k j ⊎ IsAlong right (shape_at nodes.now right) right_axes.now (drop (kept_number (shape_at nodes.now left) left_axes.now) i) k j)) needs.old needs.new) }
    ensures fit { OnOk result (AreFit nodes.now needs.new) }
{
    let mut kept = Vec::new(alloc);
    push_kept(&mut kept, dims_of(nodes, left), left_axes)?;
    let number = kept.len();
    let firsts = first.split_at(number);
    let lasts = last.split_at(number);
    use_along(alloc, needs, nodes, left, left_axes, firsts.0, lasts.0)?;
    use_along(alloc, needs, nodes, right, right_axes, firsts.1, lasts.1)
}

/// What the elements of a node from a first to a last index use of its operands: their regions are widened by it.
pub fn use_operands(
    alloc: Global,
    needs: &mut [Option<Region>],
    nodes: &[Node],
    k: usize,
    first: &[u64],
    last: &[u64],
) -> Result<(), AllocError>
    requires sound { IsExpression nodes.now }
    requires there { k < length nodes.now }
    requires room { k ≤ length needs.old }
    requires fit { AreFit nodes.now needs.old }
    requires order { IsFromTo first.now last.now last.now }
    requires inside { (i : List ℕ) → IsFromTo first.now last.now i → IsIn (shape_at nodes.now k) i }
    ensures uses { OnOk result (AsksOperands nodes.now k first.now last.now needs.old needs.new) }
    ensures fit { OnOk result (AreFit nodes.now needs.new) }
{
    let node = &nodes[k];
    match &node.op {
        Op::Input { .. } => Ok(()),
        Op::Full { .. } => Ok(()),
        Op::Ramp { .. } => Ok(()),
        Op::Negate { of } => Ok(use_same(needs, nodes, *of, first, last)),
        Op::Elementwise { left, right, .. } => Ok(use_pair(
            needs, nodes, *left, *right, first, last,
        )),
        Op::Where { cond, yes, no } => Ok(use_three(needs, nodes, *cond, *yes, *no, first, last)),
        Op::Slice { of, parts } => use_sliced(
            alloc,
            needs,
            nodes,
            *of,
            parts,
            node.taken.as_slice(),
            first,
            last,
        ),
        Op::Transpose { of, axes } => {
            Ok(use_turned(needs, nodes, *of, axes.as_slice(), first, last))
        }
        Op::Rechunk { of, .. } => Ok(use_same(needs, nodes, *of, first, last)),
        Op::Concatenate { of, axis } => Ok(use_branches(
            needs,
            nodes,
            of.as_slice(),
            *axis as usize,
            first,
            last,
        )),
        Op::Reduce { of, axes, .. } => use_folded(alloc, needs, nodes, *of, axes, first, last),
        Op::Tensordot {
            left,
            right,
            left_axes,
            right_axes,
        } => use_paired(
            alloc,
            needs,
            nodes,
            *left,
            *right,
            left_axes.as_slice(),
            right_axes.as_slice(),
            first,
            last,
        ),
    }
}
