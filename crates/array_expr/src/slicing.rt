//! What a slice takes of its operand, and its shape.
ghost use Rattle.std.specs.Prelude.{◌≡◌, ◌<◌, ◌≤◌, ◌++◌, [], ◌∷◌, length, cond, IfOk, IfErr, OnOk};
ghost use Rattle.nd_grid.specs.Grid.{sliced_shape};
ghost use Rattle.array_expr.specs.Node.{part_on, is_index, Takes, dropped};
ghost use Rattle.array_expr.specs.Refusal.{RefusesSlice};

use crate::axes::{is_in_list, push_unless};
use crate::error::NodeError;
use crate::leaf::limited;
use nd_shape::{Axes, Part, Parts, Shape, ShapeError, StepList, Steps, resolve_slice};
use std::alloc::{AllocError, Global};

// The part for an axis: one that is left out takes the whole.
fn part_on(parts: &[Part], axis: usize) -> Part
    ensures { result ≡ part_on parts.now axis }
{
    if axis < parts.len() {
        parts[axis]
    } else {
        Part::Range(None, None, None)
    }
}

// What the parts take of each axis, or the first that is refused.
fn resolved(alloc: Global, dims: &[u64], parts: &[Part]) -> Result<StepList, NodeError>
    requires { length parts.now ≤ length dims.now }
    ensures ok { IfOk result (λ taken. Takes dims.now parts.now taken) }
    ensures err { IfErr result (λ e. RefusesSlice dims.now parts.now e) }
{
    let mut taken = Vec::new(alloc);
    for axis in 0..dims.len() {
        let part = part_on(parts, axis);
        match resolve_slice(dims[axis], &part) {
            Ok(steps) => taken.push(steps)?,
            Err(e) => return Err(NodeError::Shape(e)),
        }
    }
    Ok(StepList::from_vec(taken))
}

/// What a slice takes of each axis of its operand.
pub fn steps_taken(alloc: Global, of: &Shape, parts: &Parts) -> Result<StepList, NodeError>
    ensures ok { IfOk result (λ taken. Takes of.now parts.now taken) }
    ensures err { IfErr result (λ e. RefusesSlice of.now parts.now e) }
{
    let dims = of.dims();
    let given = parts.as_slice();
    if given.len() > dims.len() {
        return Err(NodeError::Shape(ShapeError::TooManyParts {
            parts: given.len() as u64,
            axes: dims.len() as u64,
        }));
    }
    resolved(alloc, dims, given)
}

fn is_index(part: &Part) -> bool
    ensures { result ≡ is_index part.now }
{
    matches!(part, Part::At(_))
}

fn push_index(axes: &mut Vec<u64>, is_index: bool, axis: u64) -> Result<(), AllocError>
    ensures { OnOk result (axes.new.items ≡ axes.old.items ++ cond is_index (axis ∷ []) []) }
{
    if is_index {
        axes.push(axis)?;
    }
    Ok(())
}

/// The axes for which an index is given, which a slice drops.
pub fn dropped_axes(alloc: Global, parts: &[Part]) -> Result<Axes, AllocError>
    ensures { IfOk result (λ axes. axes ≡ dropped parts.now) }
{
    let mut axes = Vec::new(alloc);
    for (axis, part) in parts.iter().enumerate() {
        let index = is_index(part);
        push_index(&mut axes, index, axis as u64)?;
    }
    Ok(Axes::from_vec(axes))
}

// The lengths of a slice.
fn sliced_dims(alloc: Global, taken: &[Steps], gone: &[u64]) -> Result<Vec<u64>, AllocError>
    ensures { IfOk result (λ dims. dims.items ≡ sliced_shape 0 taken.now gone.now) }
{
    let mut dims = Vec::new(alloc);
    for (axis, steps) in taken.iter().enumerate() {
        let is_gone = is_in_list(gone, axis as u64);
        push_unless(&mut dims, is_gone, steps.count)?;
    }
    Ok(dims)
}

/// The shape of a slice.
pub fn sliced_shape(
    alloc: Global,
    of: &Shape,
    parts: &Parts,
    taken: &[Steps],
) -> Result<Shape, NodeError>
    requires { Takes of.now parts.now taken.now }
    ensures ok { IfOk result (λ shape. shape ≡ sliced_shape 0 taken.now (dropped parts.now)) }
    ensures err { IfErr result (λ e. RefusesSlice of.now parts.now e) }
{
    let _ = of.dims();
    let gone = dropped_axes(alloc, parts.as_slice())?;
    let dims = sliced_dims(alloc, taken, gone.as_slice())?;
    let shape = limited(dims)?;
    Ok(shape)
}
