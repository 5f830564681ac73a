//! Expressions: nodes that name earlier ones.
ghost use Rattle.std.specs.Prelude.{◌≡◌, ◌<◌, [], length, IfOk, IfErr, OnErr};
ghost use Rattle.array_expr.specs.Node.{shape_at, NamesNodes, IsExpression, IsNode, Adds};
ghost use Rattle.array_expr.specs.Refusal.{Refuses, RefusesOp};

use crate::error::{NodeError, Quantity};
use crate::op::{NodeId, Op};
use crate::result::{shape_of_op, steps_of_op};
use nd_shape::{Shape, StepList};
use std::alloc::Global;
use std::marker::Model;

/// The greatest number of nodes.
pub const NODES: usize = 65536;

/// A node: its operation, its shape, and what a slice takes of each axis of its operand (nothing for other operations).
#[derive(Drop)]
pub struct Node {
    pub op: Op,
    pub shape: Shape,
    pub taken: StepList,
}

/// An expression over arrays: nodes in a vector, each an operation on earlier ones. There are at most 65,536.
#[derive(Drop)]
pub struct Expr {
    nodes: Vec<Node>,
    alloc: Global,
}

impl Model for Expr {
    ghost use Rattle.std.specs.Prelude.{List};
    ghost use Rattle.array_expr.specs.declared.expr.Node.{Node};
    ghost use Rattle.array_expr.specs.Node.{IsExpression};

    ghost Value = { List Node };

    ghost view = { λ e. e.nodes.items };

    ghost invariant = { λ e. IsExpression e.nodes.items };
}

impl Expr {
    /// The expression without nodes. No memory.
    pub fn new(alloc: Global) -> Self
        ensures { result ≡ [] }
    {
        Expr {
            nodes: Vec::new(alloc),
            alloc,
        }
    }

    /// The nodes in order. No memory.
    pub fn nodes(&self) -> &[Node]
        ensures value { result.now ≡ self.now }
        ensures sound { IsExpression self.now }
    {
        self.nodes.as_slice()
    }

    /// The shape of a node. No memory.
    pub fn shape_of(&self, node: NodeId) -> &Shape
        requires { node < length self.now }
        ensures { result.now ≡ shape_at self.now node }
    {
        &self.nodes[node.number() as usize].shape
    }

    /// Adds a node with this operation on earlier nodes, and answers its number, or tells the first cause why the
    /// operation doesn't fit. The causes are looked at in this order: the number of nodes; for an array without operands
    /// its axes, its elements, then its chunks, first their number and then axis by axis; for shapes that are broadcast the
    /// first axis that doesn't fit, then the elements; for a slice the number of its parts, then its parts from the left;
    /// for lists of axes the first axis at fault in the list's own order; for a reduction then the least axis without
    /// elements and the split; for a concatenation the numbers of axes, the axis and the other lengths. The limits of the
    /// result come last. Where the operation is refused, or memory is wanting, the expression is as before.
    pub fn add_node(&mut self, op: Op) -> Result<NodeId, NodeError>
        requires { NamesNodes op (length self.old) }
        ensures id { IfOk result (λ id. id ≡ length self.old) }
        ensures ok { IfOk result (λ id. Adds self.old op self.new) }
        ensures err { IfErr result (λ e. Refuses self.old op e) }
        ensures unchanged { OnErr result (self.new ≡ self.old) }
    {
        let count = self.nodes.len();
        if count >= NODES {
            return Err(NodeError::Limit {
                quantity: Quantity::Nodes,
            });
        }
        let node = node_of(self.alloc, self.nodes.as_slice(), op)?;
        self.nodes.push(node)?;
        Ok(NodeId::new(count as u32))
    }
}

// The node that an operation makes.
fn node_of(alloc: Global, nodes: &[Node], op: Op) -> Result<Node, NodeError>
    requires names { NamesNodes op (length nodes.now) }
    requires room { length nodes.now < 65536 }
    ensures ok { IfOk result (λ node. (node.op ≡ op) × IsNode nodes.now node) }
    ensures err { IfErr result (λ e. RefusesOp nodes.now op e) }
{
    let taken = steps_of_op(alloc, nodes, &op)?;
    let shape = shape_of_op(alloc, nodes, &op, taken.as_slice())?;
    Ok(Node { op, shape, taken })
}
