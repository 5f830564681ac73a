//! What elements use of an operand all along some of its axes.
ghost use Rattle.std.specs.Prelude.{◌≡◌, ◌<◌, ◌≤◌, ◌-◌, ◌+◌, ◌^◌, ℕ, List, true, false, cond, length, slice_index, Contains, IfOk, IsTrue, OnOk, ◌↔◌};
ghost use Rattle.nd_shape.specs.Index.{IsIn};
ghost use Rattle.nd_grid.specs.Grid.{kept_shape};
ghost use Rattle.array_expr.specs.Node.{shape_at};
ghost use Rattle.input_regions.specs.Uses.{IsAlong};
ghost use Rattle.input_regions.specs.Widening.{AreFit, CanAsk, IsFromTo, IsUsed, Widens, end_along};

use crate::boxes::widen_both;
use crate::uses::dims_of;
use array_expr::axes::is_in_list;
use array_expr::{Node, NodeId};
use nd_shape::Region;
use std::alloc::{AllocError, Global};

/// Whether a length is 0. No memory.
pub fn has_zero(dims: &[u64]) -> bool
    ensures { IsTrue result ↔ Contains dims.now 0 }
{
    dims.contains(&0)
}

// The first or the last coordinate on an axis of a length.
fn end_of(len: u64, last: bool) -> u64
    ensures { result ≡ cond last (len - 1) 0 }
{
    if last { len.saturating_sub(1) } else { 0 }
}

// A coordinate on an axis that is listed or not.
fn coordinate(listed: bool, end: u64, kept: &[u64], used: usize) -> u64
    requires { listed ≡ false → used < length kept.now }
    ensures { result ≡ cond listed end (slice_index kept.now used) }
{
    if listed { end } else { kept[used] }
}

fn next_used(listed: bool, used: usize) -> usize
    requires { used < 2 ^ 63 }
    ensures { result ≡ cond listed used (used + 1) }
{
    if listed { used } else { used + 1 }
}

// The first or the last index whose coordinates on the axes that aren't listed are these.
fn index_along(
    alloc: Global,
    dims: &[u64],
    axes: &[u64],
    kept: &[u64],
    last: bool,
) -> Result<Vec<u64>, AllocError>
    requires few { length dims.now ≤ 8 }
    requires inside { IsIn (kept_shape 0 dims.now axes.now) kept.now }
    ensures { IfOk result (λ v. v.items ≡ end_along 0 dims.now axes.now kept.now last) }
{
    let mut index = Vec::new(alloc);
    let mut used = 0;
    for (axis, len) in dims.iter().enumerate() {
        let listed = is_in_list(axes, axis as u64);
        index.push(coordinate(listed, end_of(*len, last), kept, used))?;
        used = next_used(listed, used);
    }
    Ok(index)
}

/// An operand all along the listed axes. An array without elements has none that could be used.
pub fn use_along(
    alloc: Global,
    needs: &mut [Option<Region>],
    nodes: &[Node],
    of: NodeId,
    axes: &[u64],
    first: &[u64],
    last: &[u64],
) -> Result<(), AllocError>
    requires can { CanAsk nodes.now needs.old of }
    requires order { IsFromTo first.now last.now last.now }
    requires inside { (i : List ℕ) → IsFromTo first.now last.now i → IsIn (kept_shape 0 (shape_at nodes.now of) axes.now) i }
    ensures uses { OnOk result (Widens (IsUsed first.now last.now (IsAlong of (shape_at nodes.now of) axes.now)) needs.old needs.new) }
    ensures fit { OnOk result (AreFit nodes.now needs.new) }
{
    let dims = dims_of(nodes, of);
    if has_zero(dims) {
        return Ok(());
    }
    let low = index_along(alloc, dims, axes, first, false)?;
    let high = index_along(alloc, dims, axes, last, true)?;
    widen_both(needs, of, low.as_slice(), high.as_slice());
    Ok(())
}
