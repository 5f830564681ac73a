//! The needed region of each node, from the last node to the first.
ghost use Rattle.std.specs.Prelude.{◌≡◌, ◌≤◌, ◌<◌, ◌+◌, ◌-◌, List, Option, length, IfOk, OnOk};
ghost use Rattle.nd_shape.specs.Region.{Box, IsPart};
ghost use Rattle.array_expr.specs.Node.{IsExpression, shape_at};
ghost use Rattle.input_regions.specs.Needed.{AreNeeded};
ghost use Rattle.input_regions.specs.Widening.{AreFit, AsksNode, IsAskedOf, IsFull, IsLastOf, IsWhatIsAsked};

use crate::along::has_zero;
use crate::operands::use_operands;
use array_expr::{Expr, Node, NodeId};
use nd_shape::Region;
use std::alloc::{AllocError, Global};

// The last index of a region.
fn last_index(alloc: Global, region: &Region) -> Result<Vec<u64>, AllocError>
    requires { IsFull region.now }
    ensures { IfOk result (λ v. IsLastOf region.now v.items) }
{
    let starts = region.starts();
    let mut last = Vec::new(alloc);
    for (axis, len) in region.lengths().iter().enumerate() {
        last.push(starts[axis] + len - 1)?;
    }
    Ok(last)
}

// Widens the regions of the operands of a node by what its region uses of them.
fn use_node(
    alloc: Global,
    needs: &mut [Option<Region>],
    nodes: &[Node],
    k: usize,
) -> Result<(), AllocError>
    requires sound { IsExpression nodes.now }
    requires there { k < length needs.old }
    requires room { length needs.old ≤ length nodes.now }
    requires fit { AreFit nodes.now needs.old }
    ensures uses { OnOk result (AsksNode nodes.now k needs.old needs.new) }
    ensures fit { OnOk result (AreFit nodes.now needs.new) }
{
    let region = match &needs[k] {
        None => return Ok(()),
        Some(region) => region.copy(),
    };
    let last = last_index(alloc, &region)?;
    use_operands(alloc, needs, nodes, k, region.starts(), last.as_slice())
}

// A region, unless it has no elements.
fn filled(region: &Region) -> Option<Region>
    ensures { IsAskedOf region.now result }
{
    if has_zero(region.lengths()) {
        return None;
    }
    Some(region.copy())
}

// No region for each of the first nodes, and for the last of them what is asked of it.
fn asked(alloc: Global, count: usize, region: &Region) -> Result<Vec<Option<Region>>, AllocError>
    requires { 0 < count }
    ensures { IfOk result (λ v. IsWhatIsAsked count region.now v.items) }
{
    let mut needs = Vec::new(alloc);
    for _k in 1..count {
        needs.push(None)?;
    }
    needs.push(filled(region))?;
    Ok(needs)
}

/// For each node up to this one the region that this region of the node needs of it, or none. Each node is looked at once.
pub fn needed_regions(
    alloc: Global,
    expr: &Expr,
    node: NodeId,
    region: &Region,
) -> Result<Vec<Option<Region>>, AllocError>
    requires node { node < length expr.now }
    requires region { IsPart region.now (shape_at expr.now node) }
    ensures needed { IfOk result (λ v. AreNeeded expr.now node region.now v.items) }
    ensures parts { IfOk result (λ v. AreFit expr.now v.items) }
{
    let nodes = expr.nodes();
    let count = node.number() as usize + 1;
    let mut room = asked(alloc, count, region)?;
    let needs = room.as_mut_slice();
    for done in 0..count {
        use_node(alloc, needs, nodes, count - 1 - done)?;
    }
    Ok(room)
}

/// A law: there is one list of needed regions. No memory.
pub fn needed_regions_are_one(expr: &Expr, node: NodeId, region: &Region)
    ensures { (some other : List (Option Box)) → AreNeeded expr.now node region.now some → AreNeeded expr.now node region.now other → some ≡ other }
{
    let _ = expr.nodes();
}
