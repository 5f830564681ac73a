//! Shapes of results.
ghost use Rattle.std.specs.Prelude.{◌≡◌, ◌∷◌, [], ◌++◌, cond, map, slice_index, OnOk, IfOk};
ghost use Rattle.nd_grid.specs.Grid.{sliced_shape};

use nd_grid::operand::is_in_list;
use nd_shape::Steps;
use std::alloc::{AllocError, Global};

// One more length, unless its axis is gone.
fn push_unless(kept: &mut Vec<u64>, gone: bool, len: u64) -> Result<(), AllocError>
    ensures { OnOk result (kept.new.items ≡ kept.old.items ++ cond gone [] (len ∷ [])) }
{
    if !gone {
        kept.push(len)?;
    }
    Ok(())
}

/// The lengths of a slice, without its dropped axes.
pub fn sliced_dims(alloc: Global, taken: &[Steps], gone: &[u64]) -> Result<Vec<u64>, AllocError>
    ensures { IfOk result (λ dims. dims.items ≡ sliced_shape 0 taken.now gone.now) }
{
    let mut dims = Vec::new(alloc);
    for (axis, steps) in taken.iter().enumerate() {
        let is_gone = is_in_list(gone, axis as u64);
        push_unless(&mut dims, is_gone, steps.count)?;
    }
    Ok(dims)
}

// The length of an axis, 0 where there is no such axis.
fn length_of(dims: &[u64], axis: u64) -> u64
    ensures { result ≡ slice_index dims.now axis }
{
    if axis < dims.len() as u64 {
        dims[axis as usize]
    } else {
        0
    }
}

/// The lengths of the listed axes, in the order of the list.
pub fn lengths_of(alloc: Global, dims: &[u64], axes: &[u64]) -> Result<Vec<u64>, AllocError>
    ensures { IfOk result (λ v. v.items ≡ map (λ a. slice_index dims.now a) axes.now) }
{
    let mut lengths = Vec::new(alloc);
    for axis in axes {
        lengths.push(length_of(dims, *axis))?;
    }
    Ok(lengths)
}
