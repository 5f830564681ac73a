//! Concatenations: how the shapes of operands are joined along an axis.
ghost use Rattle.std.specs.Prelude.{◌≡◌, ◌<◌, ◌+◌, ◌^◌, length, map, min, slice_index, slice_set, All, IfOk, IfErr, OnOk, MatchOption};
ghost use Rattle.nd_shape.specs.Shape.{IsShape};
ghost use Rattle.array_expr.specs.Node.{shape_at, first_shape, AreJoinable, length_on_axis, joined};
ghost use Rattle.array_expr.specs.Refusal.{RefusesConcatenate, IsFirstOther};

use crate::error::NodeError;
use crate::expr::Node;
use crate::leaf::limited;
use crate::op::NodeId;
use nd_shape::shape::ELEMENTS;
use nd_shape::{Shape, ShapeError};
use std::alloc::{AllocError, Global};

/// The lengths of a node. No memory.
pub fn dims_of(nodes: &[Node], node: NodeId) -> &[u64]
    requires { node < length nodes.now }
    ensures dims { result.now ≡ shape_at nodes.now node }
    ensures limits { IsShape result.now }
{
    nodes[node.number() as usize].shape.dims()
}

// The number of axes of the first operand that has another number than this.
fn other_number(nodes: &[Node], of: &[NodeId], axes: u64) -> Option<u64>
    requires { All (λ k. k < length nodes.now) of.now }
    ensures { MatchOption result (All (λ dims. length dims ≡ axes) (map (shape_at nodes.now) of.now)) (λ right. IsFirstOther (λ dims. length dims) (map (shape_at nodes.now) of.now) axes right) }
{
    for node in of {
        let other = dims_of(nodes, *node).len() as u64;
        if other != axes {
            return Some(other);
        }
    }
    None
}

// The length on an axis of the first operand that has another one there than this.
fn other_length(nodes: &[Node], of: &[NodeId], axis: usize, len: u64) -> Option<u64>
    requires names { All (λ k. k < length nodes.now) of.now }
    requires axes { All (λ dims. axis < length dims) (map (shape_at nodes.now) of.now) }
    ensures { MatchOption result (All (λ dims. slice_index dims axis ≡ len) (map (shape_at nodes.now) of.now)) (λ right. IsFirstOther (λ dims. slice_index dims axis) (map (shape_at nodes.now) of.now) len right) }
{
    for node in of {
        let other = dims_of(nodes, *node)[axis];
        if other != len {
            return Some(other);
        }
    }
    None
}

// The lengths of the operands agree on every axis but one, or the first other axis on which they don't.
fn check_others(nodes: &[Node], of: &[NodeId], dims: &[u64], axis: usize) -> Result<(), NodeError>
    requires names { All (λ k. k < length nodes.now) of.now }
    requires first { dims.now ≡ first_shape (map (shape_at nodes.now) of.now) }
    requires axes { All (λ other. length other ≡ length dims.now) (map (shape_at nodes.now) of.now) }
    requires there { axis < length dims.now }
    ensures ok { OnOk result (AreJoinable (map (shape_at nodes.now) of.now) axis) }
    ensures err { IfErr result (λ e. RefusesConcatenate (map (shape_at nodes.now) of.now) axis e) }
{
    for (bad, len) in dims.iter().enumerate() {
        if bad == axis {
            continue;
        }
        if let Some(right) = other_length(nodes, of, bad, *len) {
            return Err(NodeError::Shape(ShapeError::Misfit {
                axis: bad as u64,
                left: *len,
                right,
            }));
        }
    }
    Ok(())
}

// Whether the operands can be joined along an axis.
fn check_joinable(nodes: &[Node], of: &[NodeId], dims: &[u64], axis: u64) -> Result<(), NodeError>
    requires names { All (λ k. k < length nodes.now) of.now }
    requires first { dims.now ≡ first_shape (map (shape_at nodes.now) of.now) }
    ensures ok { OnOk result (AreJoinable (map (shape_at nodes.now) of.now) axis) }
    ensures err { IfErr result (λ e. RefusesConcatenate (map (shape_at nodes.now) of.now) axis e) }
{
    let axes = dims.len() as u64;
    if let Some(right) = other_number(nodes, of, axes) {
        return Err(NodeError::Shape(ShapeError::Misfit {
            axis: 0,
            left: axes,
            right,
        }));
    }
    if axis >= axes {
        return Err(NodeError::Shape(ShapeError::BadAxis { axis }));
    }
    check_others(nodes, of, dims, axis as usize)
}

// The sum of the operands' lengths on an axis, or 2^31 + 1 where it is larger.
fn length_along(nodes: &[Node], of: &[NodeId], axis: usize) -> u64
    requires names { All (λ k. k < length nodes.now) of.now }
    requires axes { All (λ dims. axis < length dims) (map (shape_at nodes.now) of.now) }
    ensures { result ≡ min (length_on_axis axis (map (shape_at nodes.now) of.now)) (2 ^ 31 + 1) }
{
    let mut sum = 0;
    for node in of {
        let len = dims_of(nodes, *node)[axis];
        sum = (sum + len).min(ELEMENTS + 1);
    }
    sum
}

// The lengths with another one on an axis.
fn with_length(alloc: Global, dims: &[u64], axis: usize, len: u64) -> Result<Vec<u64>, AllocError>
    requires { axis < length dims.now }
    ensures { IfOk result (λ v. v.items ≡ slice_set dims.now axis len) }
{
    let mut lengths = Vec::from_slice(alloc, dims)?;
    lengths[axis] = len;
    Ok(lengths)
}

/// The shape of a concatenation.
pub fn joined_shape(
    alloc: Global,
    nodes: &[Node],
    of: &[NodeId],
    axis: u64,
) -> Result<Shape, NodeError>
    requires names { All (λ k. k < length nodes.now) of.now }
    requires some { 0 < length of.now }
    ensures ok { IfOk result (λ shape. shape ≡ joined (map (shape_at nodes.now) of.now) axis) }
    ensures fits { OnOk result (AreJoinable (map (shape_at nodes.now) of.now) axis) }
    ensures limits { IfOk result (λ shape. IsShape shape) }
    ensures err { IfErr result (λ e. RefusesConcatenate (map (shape_at nodes.now) of.now) axis e) }
{
    let dims = dims_of(nodes, of[0]);
    check_joinable(nodes, of, dims, axis)?;
    let len = length_along(nodes, of, axis as usize);
    let lengths = with_length(alloc, dims, axis as usize, len)?;
    let shape = limited(lengths)?;
    Ok(shape)
}
