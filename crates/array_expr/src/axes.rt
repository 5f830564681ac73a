//! Lists of axes, and the lengths on them.
ghost use Rattle.std.specs.Prelude.{◌≡◌, ◌≢◌, ◌<◌, ◌≤◌, ◌⊎◌, ◌↔◌, ◌++◌, [], ◌∷◌, length, cond, map, slice_index, All, Contains, IfOk, OnOk, IsTrue, MatchOption};
ghost use Rattle.nd_grid.specs.Grid.{is_among, kept_shape};
ghost use Rattle.array_expr.specs.Axes.{AreAxes, IsFirstBadAxis};
ghost use Rattle.std.specs.List.{range_with_len};
ghost use Rattle.array_expr.specs.Axes.{IsLeastIn};
ghost use Rattle.array_expr.specs.Node.{folded_axes};

use nd_shape::Axes;
use std::alloc::{AllocError, Global};

/// Whether an axis is in a list. No memory.
pub fn is_in_list(axes: &[u64], axis: u64) -> bool
    ensures { result ≡ is_among axis axes.now }
{
    axes.iter().any(|k| axis == *k)
}

// Whether an axis isn't one of so many, or is among those before it.
fn is_at_fault(count: u64, before: &[u64], axis: u64) -> bool
    ensures { IsTrue result ↔ ((count ≤ axis) ⊎ Contains before.now axis) }
{
    axis >= count || before.contains(&axis)
}

/// The first of a list of axes that isn't one of so many, or is listed before. No memory.
pub fn first_bad_axis(count: u64, axes: &[u64]) -> Option<u64>
    ensures { MatchOption result (AreAxes count axes.now) (λ axis. IsFirstBadAxis count axes.now axis) }
{
    for (place, axis) in axes.iter().enumerate() {
        if is_at_fault(count, &axes[..place], *axis) {
            return Some(*axis);
        }
    }
    None
}

/// One more length, unless its axis is gone.
pub fn push_unless(kept: &mut Vec<u64>, gone: bool, len: u64) -> Result<(), AllocError>
    ensures { OnOk result (kept.new.items ≡ kept.old.items ++ cond gone [] (len ∷ [])) }
{
    if !gone {
        kept.push(len)?;
    }
    Ok(())
}

/// Puts the lengths of the axes that aren't listed at the end.
pub fn push_kept(kept: &mut Vec<u64>, dims: &[u64], axes: &[u64]) -> Result<(), AllocError>
    ensures { OnOk result (kept.new.items ≡ kept.old.items ++ kept_shape 0 dims.now axes.now) }
{
    for (axis, len) in dims.iter().enumerate() {
        let gone = is_in_list(axes, axis as u64);
        push_unless(kept, gone, *len)?;
    }
    Ok(())
}

/// The lengths on the listed axes, in the order of the list.
pub fn dims_on(alloc: Global, dims: &[u64], axes: &[u64]) -> Result<Vec<u64>, AllocError>
    requires { AreAxes (length dims.now) axes.now }
    ensures { IfOk result (λ v. v.items ≡ map (λ a. slice_index dims.now a) axes.now) }
{
    let mut on = Vec::new(alloc);
    for axis in axes {
        on.push(dims[*axis as usize])?;
    }
    Ok(on)
}

// The axes below a count.
fn all_axes(alloc: Global, count: u64) -> Result<Axes, AllocError>
    ensures { IfOk result (λ axes. axes ≡ range_with_len 0 count) }
{
    let mut axes = Vec::new(alloc);
    for axis in 0..count {
        axes.push(axis)?;
    }
    Ok(Axes::from_vec(axes))
}

/// The axes that a reduction folds: those that are given, or all.
pub fn axes_folded(alloc: Global, axes: &Option<Axes>, count: u64) -> Result<Axes, AllocError>
    ensures { IfOk result (λ folded. folded ≡ folded_axes axes.now count) }
{
    match axes {
        Some(axes) => axes.copy(),
        None => all_axes(alloc, count),
    }
}

/// The least of the listed axes that has no element. No memory.
pub fn least_empty(dims: &[u64], axes: &[u64]) -> Option<u64>
    requires { AreAxes (length dims.now) axes.now }
    ensures { MatchOption result (All (λ axis. slice_index dims.now axis ≢ 0) axes.now) (λ axis. IsLeastIn dims.now axes.now axis) }
{
    for (axis, len) in dims.iter().enumerate() {
        let empty = *len == 0;
        let listed = axes.contains(&(axis as u64));
        if empty & listed {
            return Some(axis as u64);
        }
    }
    None
}
