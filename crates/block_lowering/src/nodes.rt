//! The tasks of a node, by its operation.
ghost use Rattle.std.specs.Prelude.{◌≡◌, ◌<◌, ◌^◌, length, map, take, All, IfOk, IfErr};
ghost use Rattle.array_expr.specs.Node.{IsNode};
ghost use Rattle.expr_laws.specs.Formulas.{inputs_before};
ghost use Rattle.lowering_laws.specs.Lowered.{source_at, arg_of};
ghost use Rattle.block_lowering.specs.Args.{arg_of as meant};
ghost use Rattle.block_lowering.specs.Growing.{Refuses, IsGrown};
ghost use Rattle.block_lowering.specs.Ready.{IsReady, IsOther, op_made, made_next};

use crate::error::LowerError;
use crate::joins::push_joined;
use crate::moving::{push_sliced, push_transposed};
use crate::plain::{push_filled, push_loaded};
use crate::points::{Given, Operation, push_pointwise};
use crate::products::push_contracted;
use crate::rechunk::push_rechunked;
use crate::sources::Keyed;
use crate::sums::push_reduced;
use array_expr::axes::axes_folded;
use array_expr::slicing::dropped_axes;
use array_expr::{Binary, Node, NodeId, Op};
use std::alloc::{AllocError, Global};
use task_graph::Graph;

// The greatest number of operands of a concatenation.
const OPERANDS: usize = 0xffff_ffff;

// ---- operands

/// The array of a node that is lowered.
pub fn source_of(sources: &[Keyed], node: NodeId) -> &Keyed
    requires { node < length sources.now }
    ensures { result.now ≡ source_at sources.now node }
{
    &sources[node.number() as usize]
}

// The arrays of several nodes. A list of more than there are numbers of operands has no room in memory.
fn sources_of(alloc: Global, sources: &[Keyed], nodes: &[NodeId]) -> Result<Vec<Keyed>, AllocError>
    requires { All (λ n. n < length sources.now) nodes.now }
    ensures value { IfOk result (λ v. v.items ≡ map (source_at sources.now) nodes.now) }
    ensures few { IfOk result (λ v. length v.items < 2 ^ 32) }
{
    if nodes.len() > OPERANDS {
        return Err(AllocError);
    }
    let mut list = Vec::with_capacity(alloc, nodes.len())?;
    for node in nodes {
        list.push(source_of(sources, *node).copy(alloc)?)?;
    }
    Ok(list)
}

// A node as an operand of an operation element by element: `full` of no axes is a number.
fn given(
    alloc: Global,
    nodes: &[Node],
    sources: &[Keyed],
    node: NodeId,
) -> Result<Given, AllocError>
    requires node { node < length nodes.now }
    requires source { node < length sources.now }
    ensures { IfOk result (λ g. meant g ≡ arg_of nodes.now sources.now node) }
{
    match &nodes[node.number() as usize].op {
        Op::Full { dims, value, .. } if dims.as_slice().is_empty() => Ok(Given::Value(*value)),
        _ => Ok(Given::Array(source_of(sources, node).copy(alloc)?)),
    }
}

// ---- elementwise

// A negation is 0 minus its operand.
fn lower_negate(
    alloc: Global,
    graph: &mut Graph,
    nodes: &[Node],
    sources: &[Keyed],
    node: &Node,
    of: NodeId,
) -> Result<Keyed, LowerError>
    requires nodes { of < length nodes.now }
    requires sources { of < length sources.now }
    ensures ok { IfOk result (IsGrown graph.old (op_made nodes.now sources.now node.now (Op.Negate of) graph.old) graph.new) }
    ensures err { IfErr result (Refuses graph.old (op_made nodes.now sources.now node.now (Op.Negate of) graph.old).tasks) }
{
    let mut args = Vec::with_capacity(alloc, 2)?;
    args.push(Given::Value(0))?;
    args.push(given(alloc, nodes, sources, of)?)?;
    let operation = Operation::Two(Binary::Sub);
    push_pointwise(alloc, graph, operation, node.shape.dims(), args.as_slice())
}

fn lower_pair(
    alloc: Global,
    graph: &mut Graph,
    nodes: &[Node],
    sources: &[Keyed],
    node: &Node,
    op: Binary,
    pair: (NodeId, NodeId),
) -> Result<Keyed, LowerError>
    requires left { (pair.0 < length nodes.now) × (pair.0 < length sources.now) }
    requires right { (pair.1 < length nodes.now) × (pair.1 < length sources.now) }
    ensures ok { IfOk result (IsGrown graph.old (op_made nodes.now sources.now node.now (Op.Elementwise op pair.0 pair.1) graph.old) graph.new) }
    ensures err { IfErr result (Refuses graph.old (op_made nodes.now sources.now node.now (Op.Elementwise op pair.0 pair.1) graph.old).tasks) }
{
    let mut args = Vec::with_capacity(alloc, 2)?;
    args.push(given(alloc, nodes, sources, pair.0)?)?;
    args.push(given(alloc, nodes, sources, pair.1)?)?;
    let operation = Operation::Two(op);
    push_pointwise(alloc, graph, operation, node.shape.dims(), args.as_slice())
}

fn lower_where(
    alloc: Global,
    graph: &mut Graph,
    nodes: &[Node],
    sources: &[Keyed],
    node: &Node,
    operands: (NodeId, NodeId, NodeId),
) -> Result<Keyed, LowerError>
    requires first { (operands.0 < length nodes.now) × (operands.0 < length sources.now) }
    requires second { (operands.1 < length nodes.now) × (operands.1 < length sources.now) }
    requires third { (operands.2 < length nodes.now) × (operands.2 < length sources.now) }
    ensures ok { IfOk result (IsGrown graph.old (op_made nodes.now sources.now node.now (Op.Where operands.0 operands.1 operands.2) graph.old) graph.new) }
    ensures err { IfErr result (Refuses graph.old (op_made nodes.now sources.now node.now (Op.Where operands.0 operands.1 operands.2) graph.old).tasks) }
{
    let mut args = Vec::with_capacity(alloc, 3)?;
    args.push(given(alloc, nodes, sources, operands.0)?)?;
    args.push(given(alloc, nodes, sources, operands.1)?)?;
    args.push(given(alloc, nodes, sources, operands.2)?)?;
    let operation = Operation::Three;
    push_pointwise(alloc, graph, operation, node.shape.dims(), args.as_slice())
}

// ---- nodes

// Puts the tasks of a node behind those of a graph, where its operation isn't one element by element.
fn lower_other(
    alloc: Global,
    graph: &mut Graph,
    sources: &[Keyed],
    node: &Node,
    inputs: u32,
    nodes: &[Node],
) -> Result<Keyed, LowerError>
    requires ready { IsReady nodes.now (length sources.now) sources.now }
    requires node { IsNode (take (length sources.now) nodes.now) node.now }
    requires inputs { inputs ≡ inputs_before nodes.now (length sources.now) }
    requires other { IsOther node.now.op }
    ensures ok { IfOk result (IsGrown graph.old (made_next nodes.now sources.now node.now graph.old) graph.new) }
    ensures err { IfErr result (Refuses graph.old (made_next nodes.now sources.now node.now graph.old).tasks) }
{
    match &node.op {
        Op::Input { chunks, .. } => {
            push_loaded(alloc, graph, inputs, &node.shape, chunks.as_slice())
        }
        Op::Full { value, chunks, .. } => {
            push_filled(alloc, graph, &node.shape, chunks.as_slice(), *value, 0)
        }
        Op::Ramp {
            start,
            step,
            chunks,
            ..
        } => push_filled(alloc, graph, &node.shape, chunks.as_slice(), *start, *step),
        Op::Slice { of, parts } => {
            let gone = dropped_axes(alloc, parts.as_slice())?;
            push_sliced(
                alloc,
                graph,
                source_of(sources, *of),
                node.taken.as_slice(),
                &gone,
            )
        }
        Op::Transpose { of, axes } => {
            push_transposed(alloc, graph, source_of(sources, *of), axes)
        }
        Op::Rechunk { of, chunks } => {
            let source = source_of(sources, *of);
            push_rechunked(alloc, graph, source, &node.shape, chunks.as_slice())
        }
        Op::Concatenate { of, axis } => {
            let operands = sources_of(alloc, sources, of.as_slice())?;
            push_joined(alloc, graph, operands.as_slice(), *axis as usize)
        }
        Op::Reduce {
            fold,
            of,
            axes,
            split,
        } => {
            let source = source_of(sources, *of);
            let count = source.layout().axes().len() as u64;
            let listed = axes_folded(alloc, axes, count)?;
            push_reduced(alloc, graph, *fold, &listed, *split, source)
        }
        Op::Tensordot {
            left,
            right,
            left_axes,
            right_axes,
        } => {
            let first = source_of(sources, *left);
            let second = source_of(sources, *right);
            push_contracted(alloc, graph, left_axes, right_axes, first, second)
        }
        Op::Negate { .. } | Op::Elementwise { .. } | Op::Where { .. } => unreachable!(),
    }
}

/// Puts the tasks of a node behind those of the nodes before it.
pub fn lower_node(
    alloc: Global,
    graph: &mut Graph,
    sources: &[Keyed],
    node: &Node,
    inputs: u32,
    nodes: &[Node],
) -> Result<Keyed, LowerError>
    requires ready { IsReady nodes.now (length sources.now) sources.now }
    requires node { IsNode (take (length sources.now) nodes.now) node.now }
    requires inputs { inputs ≡ inputs_before nodes.now (length sources.now) }
    ensures ok { IfOk result (IsGrown graph.old (made_next nodes.now sources.now node.now graph.old) graph.new) }
    ensures err { IfErr result (Refuses graph.old (made_next nodes.now sources.now node.now graph.old).tasks) }
{
    match &node.op {
        Op::Negate { of } => lower_negate(alloc, graph, nodes, sources, node, *of),
        Op::Elementwise { op, left, right } => {
            lower_pair(alloc, graph, nodes, sources, node, *op, (*left, *right))
        }
        Op::Where { cond, yes, no } => {
            lower_where(alloc, graph, nodes, sources, node, (*cond, *yes, *no))
        }
        _ => lower_other(alloc, graph, sources, node, inputs, nodes),
    }
}
