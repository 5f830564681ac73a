//! What elements use of the operands of a concatenation.
ghost use Rattle.std.specs.Prelude.{◌≡◌, ◌<◌, ◌+◌, ◌-◌, length, slice_set};
ghost use Rattle.array_expr.specs.Node.{shape_at};
ghost use Rattle.input_regions.specs.Uses.{IsInBranch, IsInBranches, before_operand};
ghost use Rattle.input_regions.specs.Widening.{AreFit, CanAskAll, IsFromTo, IsJoinedRange, IsUsed, Widens};

use crate::boxes::widen_both;
use crate::uses::dims_of;
use array_expr::{Node, NodeId};
use nd_shape::Region;
use nd_shape::shape::AXES;

// An index with another coordinate on one axis.
fn write_index(index: &[u64], axis: usize, coordinate: u64, own: &mut [u64])
    requires axis { axis < length index.now }
    requires room { length own.old ≡ length index.now }
    ensures { own.new ≡ slice_set index.now axis coordinate }
{
    own.copy_from_slice(index);
    own[axis] = coordinate;
}

// One operand, with so many elements along the axis before it.
fn use_branch(
    needs: &mut [Option<Region>],
    nodes: &[Node],
    of: &[NodeId],
    branch: usize,
    axis: usize,
    before: u64,
    first: &[u64],
    last: &[u64],
)
    requires can { CanAskAll nodes.now needs.old of.now }
    requires there { branch < length of.now }
    requires order { IsFromTo first.now last.now last.now }
    requires inside { IsJoinedRange nodes.now of.now axis first.now last.now }
    requires before { before ≡ before_operand (shape_at nodes.now) axis of.now branch }
    ensures uses { Widens (IsUsed first.now last.now (IsInBranch (shape_at nodes.now) axis of.now branch)) needs.old needs.new }
    ensures fit { AreFit nodes.now needs.new }
{
    let node = of[branch];
    let len = dims_of(nodes, node)[axis];
    let start = first[axis].max(before);
    let end = (last[axis] + 1).min(before + len);
    if start >= end {
        return;
    }
    let mut first_room = [0; AXES];
    let low = &mut first_room[..first.len()];
    write_index(first, axis, start - before, low);
    let mut last_room = [0; AXES];
    let high = &mut last_room[..last.len()];
    write_index(last, axis, end - 1 - before, high);
    widen_both(needs, node, low, high);
}

/// The operands of a concatenation. No memory.
pub fn use_branches(
    needs: &mut [Option<Region>],
    nodes: &[Node],
    of: &[NodeId],
    axis: usize,
    first: &[u64],
    last: &[u64],
)
    requires can { CanAskAll nodes.now needs.old of.now }
    requires order { IsFromTo first.now last.now last.now }
    requires inside { IsJoinedRange nodes.now of.now axis first.now last.now }
    ensures uses { Widens (IsUsed first.now last.now (IsInBranches (shape_at nodes.now) axis of.now (length of.now))) needs.old needs.new }
    ensures fit { AreFit nodes.now needs.new }
{
    let mut before = 0;
    for branch in 0..of.len() {
        use_branch(needs, nodes, of, branch, axis, before, first, last);
        before += dims_of(nodes, of[branch])[axis];
    }
}
