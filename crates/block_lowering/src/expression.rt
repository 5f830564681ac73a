//! Expressions, lowered.
ghost use Rattle.std.specs.Prelude.{◌≡◌, ◌<◌, ◌+◌, length, map, All, None, IfOk, IfErr, OnOk, cond};
ghost use Rattle.array_expr.specs.Node.{IsExpression};
ghost use Rattle.array_expr.specs.Elem.{is_input};
ghost use Rattle.chunk_layout.specs.Layouts.{counts};
ghost use Rattle.lowering_laws.specs.Sources.{Source};
ghost use Rattle.lowering_laws.specs.Lowered.{lowering, lowered, limit_of};
ghost use Rattle.lowering_laws.specs.Named.{layout_of};
ghost use Rattle.block_lowering.specs.Growing.{IsCause};

use crate::error::LowerError;
use crate::finish::{Lowered, finish};
use crate::making::Making;
use array_expr::{Expr, Node, NodeId, Op};
use std::alloc::Global;

// One more, if a node is an input.
fn next_input(op: &Op, inputs: u32) -> u32
    requires { inputs < 65536 }
    ensures { result ≡ cond (is_input op.now) (inputs + 1) inputs }
{
    match op {
        Op::Input { .. } => inputs + 1,
        _ => inputs,
    }
}

// Lowers all nodes.
fn lower_nodes(alloc: Global, nodes: &[Node]) -> Result<Making, LowerError>
    requires { IsExpression nodes.now }
    ensures ok { IfOk result (λ made. made ≡ lowering nodes.now) }
    ensures limits { OnOk result (limit_of nodes.now ≡ None) }
    ensures err { IfErr result (IsCause nodes.now) }
{
    let mut made = Making::new(alloc);
    let mut inputs = 0;
    for node in nodes {
        made.add(alloc, nodes, inputs)?;
        inputs = next_input(&node.op, inputs);
    }
    made.sound();
    Ok(made)
}

/// What the nodes of an expression are lowered to, of which some are saved: the graph of block tasks that makes the saved
/// blocks and no more, numbered depth first, the name of each key, and the keys and the layout of each save. Layouts, tasks
/// and their order are those of Dask's arrays (<https://docs.dask.org/en/stable/array.html>), as `lowering_laws` defines them.
///
/// # Errors
/// `Limit` only where a limit is passed, with the first that is, in the order in which the keys are made: keys,
/// dependencies or bytes of a block. `OutOfMemory` where no memory is left.
pub fn lower(alloc: Global, expr: &Expr, saves: &[NodeId]) -> Result<Lowered, LowerError>
    requires { All (λ n. n < length expr.now) saves.now }
    ensures limits { OnOk result (limit_of expr.now ≡ None) }
    ensures tasks { IfOk result (λ l. l.graph ≡ (lowered expr.now saves.now).tasks) }
    ensures names { IfOk result (λ l. l.names ≡ (lowered expr.now saves.now).names) }
    ensures saved { IfOk result (λ l. l.saved ≡ (lowered expr.now saves.now).saved) }
    ensures layouts { IfOk result (λ l. l.layouts ≡ map (layout_of expr.now) saves.now) }
    ensures blocks { IfOk result (λ l. l.blocks ≡ map (λ (s : Source). counts s.layout) (lowering expr.now).sources) }
    ensures err { IfErr result (IsCause expr.now) }
{
    let nodes = expr.nodes();
    let made = lower_nodes(alloc, nodes)?;
    Ok(finish(alloc, made, saves)?)
}
