//! Broadcasting, by NumPy's rules.
ghost use Rattle.std.specs.Prelude.{◌≡◌, ◌-◌, ◌<◌, ◌≤◌, ◌^◌, [], ◌∷◌, length, max, All, IfOk, IfErr, OnOk};
ghost use Rattle.nd_shape.specs.Shape.{elements};
ghost use Rattle.nd_shape.specs.Broadcast.{broadcast, Agree, RefusesBroadcast, RefusesDims, axes_of, length_on, agrees, common, first_misfit};

use crate::error::ShapeError;
use crate::shape::Shape;
use std::alloc::{AllocError, Global};

/// The shape of an operation on two arrays, element by element, by NumPy's rules for broadcasting
/// (<https://numpy.org/doc/stable/user/basics.broadcasting.html>): shapes are aligned from the last axis, and two lengths
/// agree where they are equal or one of them is 1. Misfit names the first axis of the result on which they don't, and
/// the lengths there; Elements is a shape of more than 2^31 elements.
pub fn broadcast(alloc: Global, left: &Shape, right: &Shape) -> Result<Shape, ShapeError>
    ensures ok { IfOk result (λ shape. shape ≡ broadcast (left.now ∷ right.now ∷ [])) }
    ensures agree { OnOk result (Agree (left.now ∷ right.now ∷ [])) }
    ensures err { IfErr result (λ e. RefusesBroadcast (left.now ∷ right.now ∷ []) e) }
{
    let dims = broadcast_dims(alloc, left.dims(), right.dims(), &[])?;
    made(dims)
}

/// The shape of an operation on three arrays at once. Misfit names the first axis on which two of them don't agree, and
/// the lengths there of the first such two: first and second, then first and third, then second and third.
pub fn broadcast_three(
    alloc: Global,
    first: &Shape,
    second: &Shape,
    third: &Shape,
) -> Result<Shape, ShapeError>
    ensures ok { IfOk result (λ shape. shape ≡ broadcast (first.now ∷ second.now ∷ third.now ∷ [])) }
    ensures agree { OnOk result (Agree (first.now ∷ second.now ∷ third.now ∷ [])) }
    ensures err { IfErr result (λ e. RefusesBroadcast (first.now ∷ second.now ∷ third.now ∷ []) e) }
{
    let dims = broadcast_dims(alloc, first.dims(), second.dims(), third.dims())?;
    made(dims)
}

fn made(dims: Vec<u64>) -> Result<Shape, ShapeError>
    requires axes { length dims.items ≤ 8 }
    requires lengths { All (λ n. n ≤ 2 ^ 31) dims.items }
    ensures ok { IfOk result (λ shape. shape ≡ dims.items) }
    ensures err { IfErr result (λ e. (e ≡ ShapeError.Elements) × (2 ^ 31 < elements dims.items)) }
{
    match Shape::new(dims) {
        Ok(shape) => Ok(shape),
        Err(_) => Err(ShapeError::Elements),
    }
}

fn most_axes(x: &[u64], y: &[u64], z: &[u64]) -> usize
    ensures { result ≡ axes_of (x.now ∷ y.now ∷ z.now ∷ []) }
{
    x.len().max(y.len()).max(z.len())
}

fn agree(m: u64, n: u64) -> bool
    ensures { result ≡ agrees m n }
{
    m == n || m == 1 || n == 1
}

fn length_on(dims: &[u64], axes: usize, axis: usize) -> u64
    requires axes { length dims.now ≤ axes }
    requires axis { axis < axes }
    ensures { result ≡ length_on axes axis dims.now }
{
    let front = axes - dims.len();
    if axis < front { 1 } else { dims[axis - front] }
}

fn common_length(x: u64, y: u64, z: u64) -> u64
    ensures { result ≡ common (x ∷ y ∷ z ∷ []) }
{
    if x != 1 {
        x
    } else if y != 1 {
        y
    } else {
        z
    }
}

fn misfit(x: u64, y: u64, z: u64) -> Option<(u64, u64)>
    ensures { result ≡ first_misfit (x ∷ y ∷ z ∷ []) }
{
    if !agree(x, y) {
        Some((x, y))
    } else if !agree(x, z) {
        Some((x, z))
    } else if !agree(y, z) {
        Some((y, z))
    } else {
        None
    }
}

fn broadcast_dims(alloc: Global, x: &[u64], y: &[u64], z: &[u64]) -> Result<Vec<u64>, ShapeError>
    ensures ok { IfOk result (λ dims. dims.items ≡ broadcast (x.now ∷ y.now ∷ z.now ∷ [])) }
    ensures agree { OnOk result (Agree (x.now ∷ y.now ∷ z.now ∷ [])) }
    ensures err { IfErr result (λ e. RefusesDims (x.now ∷ y.now ∷ z.now ∷ []) e) }
{
    let axes = most_axes(x, y, z);
    let mut dims = Vec::new(alloc);
    for axis in 0..axes {
        let a = length_on(x, axes, axis);
        let b = length_on(y, axes, axis);
        let c = length_on(z, axes, axis);
        match misfit(a, b, c) {
            None => dims.push(common_length(a, b, c))?,
            Some((left, right)) => {
                return Err(ShapeError::Misfit {
                    axis: axis as u64,
                    left,
                    right,
                });
            }
        }
    }
    Ok(dims)
}
