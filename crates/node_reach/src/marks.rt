//! Marks on the nodes that are needed.
ghost use Rattle.std.specs.Prelude.{◌≡◌, ◌<◌, ℕ, length, true, nat_eq, ◌||◌, ◌&&◌, All, IfOk, slice_index_or, false};
ghost use Rattle.std.specs.List.{list_any};
ghost use Rattle.array_expr.specs.Node.{IsExpression, NamesEarlier};
ghost use Rattle.node_reach.specs.Marks.{Grows, HasOperands, Marks, marked};
ghost use Rattle.node_reach.specs.Reach.{Reaches, is_operand};

use array_expr::{Expr, Node, NodeId, Op};
use std::alloc::{AllocError, Global};

fn mark(marks: &mut [bool], node: NodeId)
    requires { node < length marks.old }
    ensures { Marks (λ k. nat_eq node k) marks.old marks.new }
{
    marks[node.number() as usize] = true;
}

fn mark_two(marks: &mut [bool], first: NodeId, second: NodeId)
    requires first { first < length marks.old }
    requires second { second < length marks.old }
    ensures { Marks (λ k. nat_eq first k || nat_eq second k) marks.old marks.new }
{
    mark(marks, first);
    mark(marks, second);
}

fn mark_three(marks: &mut [bool], first: NodeId, second: NodeId, third: NodeId)
    requires first { first < length marks.old }
    requires second { second < length marks.old }
    requires third { third < length marks.old }
    ensures { Marks (λ k. nat_eq first k || (nat_eq second k || nat_eq third k)) marks.old marks.new }
{
    mark(marks, first);
    mark_two(marks, second, third);
}

fn mark_all(marks: &mut [bool], nodes: &[NodeId])
    requires { All (λ k. k < length marks.old) nodes.now }
    ensures { Marks (λ k. list_any (λ j. nat_eq j k) nodes.now) marks.old marks.new }
{
    for node in nodes {
        mark(marks, *node);
    }
}

fn mark_operands(marks: &mut [bool], op: &Op)
    requires { NamesEarlier op.now (length marks.old) }
    ensures { Marks (is_operand op.now) marks.old marks.new }
{
    match op {
        Op::Input { .. } => {}
        Op::Full { .. } => {}
        Op::Ramp { .. } => {}
        Op::Negate { of } => mark(marks, *of),
        Op::Elementwise { left, right, .. } => mark_two(marks, *left, *right),
        Op::Where { cond, yes, no } => mark_three(marks, *cond, *yes, *no),
        Op::Slice { of, .. } => mark(marks, *of),
        Op::Transpose { of, .. } => mark(marks, *of),
        Op::Rechunk { of, .. } => mark(marks, *of),
        Op::Concatenate { of, .. } => mark_all(marks, of.as_slice()),
        Op::Reduce { of, .. } => mark(marks, *of),
        Op::Tensordot { left, right, .. } => mark_two(marks, *left, *right),
    }
}

// The same of a node that is marked, and nothing of another one.
fn mark_if(marks: &mut [bool], listed: bool, op: &Op)
    requires { NamesEarlier op.now (length marks.old) }
    ensures { Marks (λ k. listed && is_operand op.now k) marks.old marks.new }
{
    if listed {
        mark_operands(marks, op);
    }
}

// Marks the operands of marked nodes, the last node first, since operands come before the node that names them.
fn mark_needed(marks: &mut [bool], nodes: &[Node])
    requires sound { IsExpression nodes.now }
    requires count { length marks.old ≡ length nodes.now }
    ensures grows { Grows nodes.now marks.old marks.new }
    ensures operands { HasOperands nodes.now 0 (marked marks.new) }
{
    for done in 0..nodes.len() {
        let node = nodes.len() - 1 - done;
        let listed = marks[node];
        mark_if(marks, listed, &nodes[node].op);
    }
}

/// For each node of an expression whether it is one of these roots or is reached from them over operands.
pub fn needed(alloc: Global, expr: &Expr, roots: &[NodeId]) -> Result<Vec<bool>, AllocError>
    requires { All (λ k. k < length expr.now) roots.now }
    ensures count { IfOk result (λ v. length v.items ≡ length expr.now) }
    ensures reached { IfOk result (λ v. (n : ℕ) → slice_index_or v.items n false ≡ true → Reaches expr.now roots.now n) }
    ensures all { IfOk result (λ v. (n : ℕ) → Reaches expr.now roots.now n → slice_index_or v.items n false ≡ true) }
{
    let nodes = expr.nodes();
    let mut room = vec![in alloc; false; nodes.len()]?;
    let marks = room.as_mut_slice();
    mark_all(marks, roots);
    mark_needed(marks, nodes);
    Ok(room)
}
