//! The elements of a region of a node.
ghost use Rattle.std.specs.Prelude.{◌≡◌, ◌<◌, ◌≤◌, ◌+◌, ◌^◌, length, take, IfOk};
ghost use Rattle.nd_shape.specs.Region.{IsPart};
ghost use Rattle.array_expr.specs.Node.{IsExpression, shape_at};
ghost use Rattle.array_expr.specs.Elem.{array_at, arrays, next_input};
ghost use Rattle.plain_eval.specs.Fits.{CanCut};
ghost use Rattle.plain_eval.specs.Eval.{HaveBlocks, HaveShapes, IsPlain, IsPartOf, held_in};

use crate::eval::node_array;
use crate::held::Held;
use crate::making::Part;
use array_expr::{Expr, Node, NodeId, Op};
use nd_grid::{Fail, tabulate};
use nd_shape::{Block, Region, Shape};
use std::alloc::{AllocError, Global};

/// What a region of a node holds.
#[derive(Drop)]
pub enum PlainOutcome {
    /// Its elements.
    Values(Block),
    /// The node that was asked for, and the first place in the region, in row-major order, that met a zero divisor.
    Zero { node: NodeId, position: u64 },
}

// The number of the next input.
fn next_input(op: &Op, input: usize) -> usize
    requires { input < 2 ^ 63 }
    ensures { result ≡ next_input op.now input }
{
    match op {
        Op::Input { .. } => input + 1,
        _ => input,
    }
}

// The arrays of the first nodes.
fn arrays_of(
    alloc: Global,
    nodes: &[Node],
    count: usize,
    inputs: &[Block],
) -> Result<Vec<Held>, AllocError>
    requires sound { IsExpression nodes.now }
    requires inside { count ≤ length nodes.now }
    requires blocks { HaveBlocks nodes.now count inputs.now }
    ensures arrays { IfOk result (λ v. v.items ≡ arrays (held_in inputs.now) (take count nodes.now)) }
    ensures shapes { IfOk result (λ v. HaveShapes v.items (take count nodes.now)) }
{
    let mut known = Vec::new(alloc);
    let mut input = 0;
    for k in 0..count {
        let held = node_array(alloc, nodes, k, known.as_slice(), inputs, input)?;
        known.push(held)?;
        input = next_input(&nodes[k].op, input);
    }
    Ok(known)
}

// What lies in a region of a node's array.
fn cut(
    alloc: Global,
    known: &[Held],
    node: NodeId,
    region: &Region,
    shape: Shape,
) -> Result<PlainOutcome, AllocError>
    requires fits { CanCut known.now node region.now }
    requires shape { region.now.lengths ≡ shape }
    ensures { IfOk result (λ outcome. IsPartOf (array_at known.now node) node region.now outcome) }
{
    match tabulate(
        alloc,
        &Part {
            known,
            of: node,
            region,
        },
        shape,
    ) {
        Ok(block) => Ok(PlainOutcome::Values(block)),
        Err(Fail::ZeroDivide { position }) => Ok(PlainOutcome::Zero { node, position }),
        Err(Fail::OutOfMemory) => Err(AllocError),
    }
}

/// The array of each node, by the definition `elem`, over the blocks of the inputs in the order of their nodes. Each node
/// is evaluated once, whole.
pub fn evaluate_all(alloc: Global, expr: &Expr, inputs: &[Block]) -> Result<Vec<Held>, AllocError>
    requires blocks { HaveBlocks expr.now (length expr.now) inputs.now }
    ensures arrays { IfOk result (λ v. v.items ≡ arrays (held_in inputs.now) expr.now) }
    ensures shapes { IfOk result (λ v. HaveShapes v.items expr.now) }
{
    let nodes = expr.nodes();
    arrays_of(alloc, nodes, nodes.len(), inputs)
}

/// The elements of a region of a node, by the definition `elem`, over the blocks of the inputs in the order of their
/// nodes; or the first place in the region that met a zero divisor. Each node is evaluated once, whole.
pub fn evaluate(
    alloc: Global,
    expr: &Expr,
    node: NodeId,
    region: &Region,
    inputs: &[Block],
) -> Result<PlainOutcome, AllocError>
    requires node { node < length expr.now }
    requires region { IsPart region.now (shape_at expr.now node) }
    requires blocks { HaveBlocks expr.now (node + 1) inputs.now }
    ensures { IfOk result (λ outcome. IsPlain (held_in inputs.now) expr.now node region.now outcome) }
{
    let known = arrays_of(alloc, expr.nodes(), node.number() as usize + 1, inputs)?;
    let shape = region.shape(alloc, expr.shape_of(node))?;
    cut(alloc, known.as_slice(), node, region, shape)
}
