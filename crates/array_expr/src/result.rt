//! The shape that an operation makes of those of its operands.
ghost use Rattle.std.specs.Prelude.{◌≡◌, ◌<◌, ◌++◌, [], ◌∷◌, ◌≢◌, ◌↔◌, All, IsTrue, IfNone, IfSome, length, map, slice_index, IfOk, IfErr, OnOk};
ghost use Rattle.nd_shape.specs.Shape.{IsShape};
ghost use Rattle.nd_shape.specs.Broadcast.{broadcast, Agree};
ghost use Rattle.nd_grid.specs.Grid.{kept_shape};
ghost use Rattle.array_expr.specs.Axes.{AreAxes, IsLeastIn};
ghost use Rattle.array_expr.specs.Node.{shape_at, NamesNodes, Makes, TakesOf, folded_axes, NeedsElements, CanReduce, CanContract};
ghost use Rattle.array_expr.specs.Refusal.{RefusesOp, RefusesTranspose, RefusesReduce, RefusesTensordot, RefusesPairing};

use crate::axes::{axes_folded, dims_on, first_bad_axis, least_empty, push_kept};
use crate::error::NodeError;
use crate::expr::Node;
use crate::joining::joined_shape;
use crate::leaf::{leaf_shape, limited, rechunked_shape};
use crate::op::{NodeId, Op};
use crate::slicing::{sliced_shape, steps_taken};
use nd_grid::Fold;
use nd_shape::{Axes, Shape, ShapeError, StepList, Steps, broadcast, broadcast_three};
use std::alloc::Global;

// The shape of two nodes, broadcast.
fn paired_shape(alloc: Global, left: &Shape, right: &Shape) -> Result<Shape, NodeError>
    ensures ok { IfOk result (λ shape. shape ≡ broadcast (left.now ∷ right.now ∷ [])) }
    ensures agree { OnOk result (Agree (left.now ∷ right.now ∷ [])) }
    ensures err { IfErr result (λ e. RefusesPairing (left.now ∷ right.now ∷ []) e) }
{
    let shape = broadcast(alloc, left, right)?;
    Ok(shape)
}

// The shape of three nodes, broadcast at once.
fn chosen_shape(
    alloc: Global,
    first: &Shape,
    second: &Shape,
    third: &Shape,
) -> Result<Shape, NodeError>
    ensures ok { IfOk result (λ shape. shape ≡ broadcast (first.now ∷ second.now ∷ third.now ∷ [])) }
    ensures agree { OnOk result (Agree (first.now ∷ second.now ∷ third.now ∷ [])) }
    ensures err { IfErr result (λ e. RefusesPairing (first.now ∷ second.now ∷ third.now ∷ []) e) }
{
    let shape = broadcast_three(alloc, first, second, third)?;
    Ok(shape)
}

// The shape of a node.
fn shape_of_node(nodes: &[Node], node: NodeId) -> &Shape
    requires { node < length nodes.now }
    ensures { result.now ≡ shape_at nodes.now node }
{
    &nodes[node.number() as usize].shape
}

/// What a slice takes of each axis of its operand; nothing for other operations.
pub fn steps_of_op(alloc: Global, nodes: &[Node], op: &Op) -> Result<StepList, NodeError>
    requires { NamesNodes op.now (length nodes.now) }
    ensures ok { IfOk result (λ taken. TakesOf nodes.now op.now taken) }
    ensures err { IfErr result (λ e. RefusesOp nodes.now op.now e) }
{
    match op {
        Op::Slice { of, parts } => steps_taken(alloc, shape_of_node(nodes, *of), parts),
        _ => Ok(StepList::new(alloc)),
    }
}

// Whether a list has each of so many axes once.
fn check_order(dims: &[u64], axes: &[u64]) -> Result<(), NodeError>
    ensures fit { OnOk result (AreAxes (length dims.now) axes.now) }
    ensures all { OnOk result (length axes.now ≡ length dims.now) }
    ensures err { IfErr result (λ e. RefusesTranspose dims.now axes.now e) }
{
    if let Some(axis) = first_bad_axis(dims.len() as u64, axes) {
        return Err(NodeError::Shape(ShapeError::BadAxis { axis }));
    }
    if axes.len() != dims.len() {
        return Err(NodeError::Shape(ShapeError::BadAxis {
            axis: axes.len() as u64,
        }));
    }
    Ok(())
}

// The shape of a transpose.
fn transposed_shape(alloc: Global, of: &Shape, axes: &Axes) -> Result<Shape, NodeError>
    ensures ok { IfOk result (λ shape. shape ≡ map (λ a. slice_index of.now a) axes.now) }
    ensures axes { OnOk result (AreAxes (length of.now) axes.now) }
    ensures all { OnOk result (length axes.now ≡ length of.now) }
    ensures err { IfErr result (λ e. RefusesTranspose of.now axes.now e) }
{
    let dims = of.dims();
    let order = axes.as_slice();
    check_order(dims, order)?;
    let turned = dims_on(alloc, dims, order)?;
    let shape = limited(turned)?;
    Ok(shape)
}

// Whether a fold needs an element.
fn needs_elements(fold: Fold) -> bool
    ensures { IsTrue result ↔ NeedsElements fold }
{
    match fold {
        Fold::Sum | Fold::Prod => false,
        Fold::Min | Fold::Max => true,
    }
}

// The least empty axis, where the fold needs an element.
fn unfilled(fold: Fold, dims: &[u64], axes: &[u64]) -> Option<u64>
    requires { AreAxes (length dims.now) axes.now }
    ensures none { IfNone result (NeedsElements fold → All (λ axis. slice_index dims.now axis ≢ 0) axes.now) }
    ensures some { IfSome result (λ axis. NeedsElements fold × IsLeastIn dims.now axes.now axis) }
{
    if needs_elements(fold) {
        least_empty(dims, axes)
    } else {
        None
    }
}

// Whether a reduction fits.
fn check_fold(fold: Fold, dims: &[u64], axes: &[u64], split: u64) -> Result<(), NodeError>
    ensures ok { OnOk result (CanReduce fold dims.now axes.now split) }
    ensures err { IfErr result (λ e. RefusesReduce fold dims.now axes.now split e) }
{
    if let Some(axis) = first_bad_axis(dims.len() as u64, axes) {
        return Err(NodeError::Shape(ShapeError::BadAxis { axis }));
    }
    if let Some(axis) = unfilled(fold, dims, axes) {
        return Err(NodeError::Shape(ShapeError::EmptyReduce { axis }));
    }
    if split < 2 {
        return Err(NodeError::Shape(ShapeError::BadSplit { split }));
    }
    Ok(())
}

// The shape of a reduction.
fn reduced_shape(
    alloc: Global,
    fold: Fold,
    of: &Shape,
    axes: &[u64],
    split: u64,
) -> Result<Shape, NodeError>
    ensures ok { IfOk result (λ shape. shape ≡ kept_shape 0 of.now axes.now) }
    ensures fits { OnOk result (CanReduce fold of.now axes.now split) }
    ensures err { IfErr result (λ e. RefusesReduce fold of.now axes.now split e) }
{
    let dims = of.dims();
    check_fold(fold, dims, axes, split)?;
    let mut kept = Vec::new(alloc);
    push_kept(&mut kept, dims, axes)?;
    let shape = limited(kept)?;
    Ok(shape)
}

// The shape of a reduction over the axes that are given, or over all.
fn folded_shape(
    alloc: Global,
    fold: Fold,
    of: &Shape,
    axes: &Option<Axes>,
    split: u64,
) -> Result<Shape, NodeError>
    ensures ok { IfOk result (λ shape. shape ≡ kept_shape 0 of.now (folded_axes axes.now (length of.now))) }
    ensures fits { OnOk result (CanReduce fold of.now (folded_axes axes.now (length of.now)) split) }
    ensures err { IfErr result (λ e. RefusesReduce fold of.now (folded_axes axes.now (length of.now)) split e) }
{
    let folded = axes_folded(alloc, axes, of.dims().len() as u64)?;
    reduced_shape(alloc, fold, of, folded.as_slice(), split)
}

// The first pair of axes of different lengths.
fn unequal_pair(
    left: &[u64],
    right: &[u64],
    left_axes: &[u64],
    right_axes: &[u64],
) -> Result<(), NodeError>
    requires left { AreAxes (length left.now) left_axes.now }
    requires right { AreAxes (length right.now) right_axes.now }
    requires number { length left_axes.now ≡ length right_axes.now }
    ensures ok { OnOk result (CanContract left.now right.now left_axes.now right_axes.now) }
    ensures err { IfErr result (λ e. RefusesTensordot left.now right.now left_axes.now right_axes.now e) }
{
    for (place, axis) in left_axes.iter().enumerate() {
        let here = left[*axis as usize];
        let there = right[right_axes[place] as usize];
        if here != there {
            return Err(NodeError::Shape(ShapeError::Misfit {
                axis: place as u64,
                left: here,
                right: there,
            }));
        }
    }
    Ok(())
}

// Whether paired axes fit.
fn check_pairs(
    left: &[u64],
    right: &[u64],
    left_axes: &[u64],
    right_axes: &[u64],
) -> Result<(), NodeError>
    ensures ok { OnOk result (CanContract left.now right.now left_axes.now right_axes.now) }
    ensures err { IfErr result (λ e. RefusesTensordot left.now right.now left_axes.now right_axes.now e) }
{
    if let Some(axis) = first_bad_axis(left.len() as u64, left_axes) {
        return Err(NodeError::Shape(ShapeError::BadAxis { axis }));
    }
    if let Some(axis) = first_bad_axis(right.len() as u64, right_axes) {
        return Err(NodeError::Shape(ShapeError::BadAxis { axis }));
    }
    if left_axes.len() != right_axes.len() {
        let axis = left_axes.len().min(right_axes.len()) as u64;
        return Err(NodeError::Shape(ShapeError::BadAxis { axis }));
    }
    unequal_pair(left, right, left_axes, right_axes)
}

// The shape of a product over paired axes.
fn contracted_shape(
    alloc: Global,
    left: &Shape,
    right: &Shape,
    left_axes: &[u64],
    right_axes: &[u64],
) -> Result<Shape, NodeError>
    ensures ok { IfOk result (λ shape. shape ≡ kept_shape 0 left.now left_axes.now ++ kept_shape 0 right.now right_axes.now) }
    ensures fits { OnOk result (CanContract left.now right.now left_axes.now right_axes.now) }
    ensures err { IfErr result (λ e. RefusesTensordot left.now right.now left_axes.now right_axes.now e) }
{
    check_pairs(left.dims(), right.dims(), left_axes, right_axes)?;
    let mut kept = Vec::new(alloc);
    push_kept(&mut kept, left.dims(), left_axes)?;
    push_kept(&mut kept, right.dims(), right_axes)?;
    let shape = limited(kept)?;
    Ok(shape)
}

/// The shape of the node with this operation.
pub fn shape_of_op(
    alloc: Global,
    nodes: &[Node],
    op: &Op,
    taken: &[Steps],
) -> Result<Shape, NodeError>
    requires names { NamesNodes op.now (length nodes.now) }
    requires taken { TakesOf nodes.now op.now taken.now }
    ensures ok { IfOk result (λ shape. Makes nodes.now op.now taken.now shape) }
    ensures limits { IfOk result (λ shape. IsShape shape) }
    ensures err { IfErr result (λ e. RefusesOp nodes.now op.now e) }
{
    match op {
        Op::Input { dims, chunks } => leaf_shape(alloc, dims, chunks),
        Op::Full {
            dims,
            value: _,
            chunks,
        } => leaf_shape(alloc, dims, chunks),
        Op::Ramp {
            dims,
            start: _,
            step: _,
            chunks,
        } => leaf_shape(alloc, dims, chunks),
        Op::Negate { of } => Ok(shape_of_node(nodes, *of).copy(alloc)?),
        Op::Elementwise { op: _, left, right } => paired_shape(
            alloc,
            shape_of_node(nodes, *left),
            shape_of_node(nodes, *right),
        ),
        Op::Where { cond, yes, no } => chosen_shape(
            alloc,
            shape_of_node(nodes, *cond),
            shape_of_node(nodes, *yes),
            shape_of_node(nodes, *no),
        ),
        Op::Slice { of, parts } => sliced_shape(alloc, shape_of_node(nodes, *of), parts, taken),
        Op::Transpose { of, axes } => transposed_shape(alloc, shape_of_node(nodes, *of), axes),
        Op::Rechunk { of, chunks } => rechunked_shape(alloc, shape_of_node(nodes, *of), chunks),
        Op::Concatenate { of, axis } => joined_shape(alloc, nodes, of.as_slice(), *axis),
        Op::Reduce {
            fold,
            of,
            axes,
            split,
        } => folded_shape(alloc, *fold, shape_of_node(nodes, *of), axes, *split),
        Op::Tensordot {
            left,
            right,
            left_axes,
            right_axes,
        } => contracted_shape(
            alloc,
            shape_of_node(nodes, *left),
            shape_of_node(nodes, *right),
            left_axes.as_slice(),
            right_axes.as_slice(),
        ),
    }
}
