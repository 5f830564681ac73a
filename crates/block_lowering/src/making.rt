//! Nodes that are lowered one after another: their graph before culling, the names of its keys, and their arrays.
ghost use Rattle.std.specs.Prelude.{◌≡◌, ◌≤◌, ◌-◌, ◌++◌, [], length, map, IfErr, OnOk};
ghost use Rattle.std.specs.List.{range_with_len};
ghost use Rattle.array_expr.specs.Node.{IsExpression};
ghost use Rattle.expr_laws.specs.Formulas.{inputs_before};
ghost use Rattle.cluster_msgs.specs.Shape.{IsShape};
ghost use Rattle.task_graph.specs.Graphs.{shape_of};
ghost use Rattle.lowering_laws.specs.Lowered.{name_at, with_node};
ghost use Rattle.block_lowering.specs.Growing.{Refuses};
ghost use Rattle.block_lowering.specs.Ready.{IsReady, OfNext, made_next};

use crate::error::LowerError;
use crate::nodes::lower_node;
use crate::sources::{Keyed, Name};
use array_expr::Node;
use std::alloc::{AllocError, Global};
use std::marker::Model;
use task_graph::Graph;

/// Nodes that were lowered: the tasks of their graph before culling, the name of each key, and the array of each node.
#[derive(Drop)]
pub struct Making {
    graph: Graph,
    names: Vec<Name>,
    sources: Vec<Keyed>,
}

impl Model for Making {
    ghost use Rattle.lowering_laws.specs.Lowered.{Lowering};

    ghost Value = { Lowering };

    ghost view = { λ s. record { tasks = s.graph; names = s.names.items; sources = s.sources.items } };
}

// Names the keys behind those that have names.
fn name_keys(
    names: &mut Vec<Name>,
    source: &Keyed,
    node: u32,
    first: u32,
    end: u32,
) -> Result<(), AllocError>
    requires { first ≤ end }
    ensures { OnOk result (names.new.items ≡ names.old.items ++ map (name_at source.now node) (range_with_len first (end - first))) }
{
    for key in first..end {
        names.push(source.name(node, key))?;
    }
    Ok(())
}

impl Making {
    /// No nodes. No memory.
    pub fn new(alloc: Global) -> Making
        ensures { result ≡ record { tasks = []; names = []; sources = [] } }
    {
        Making {
            graph: Graph::new(alloc),
            names: Vec::new(alloc),
            sources: Vec::new(alloc),
        }
    }

    /// The graph, the names of its keys and the arrays of the nodes. No memory.
    pub fn into_parts(self) -> (Graph, Vec<Name>, Vec<Keyed>)
        ensures graph { result.0 ≡ self.tasks }
        ensures names { result.1.items ≡ self.names }
        ensures sources { result.2.items ≡ self.sources }
    {
        let Making {
            graph,
            names,
            sources,
        } = self;
        (graph, names, sources)
    }

    /// The graph is within its limits.
    pub fn sound(&self)
        ensures { IsShape (shape_of self.now.tasks) }
    {
        self.graph.sound();
    }

    /// Lowers the next node.
    pub fn add(&mut self, alloc: Global, nodes: &[Node], inputs: u32) -> Result<(), LowerError>
        requires sound { IsExpression nodes.now }
        requires ready { IsReady nodes.now (length self.old.sources) self.old.sources }
        requires inputs { inputs ≡ inputs_before nodes.now (length self.old.sources) }
        requires names { length self.old.names ≡ length self.old.tasks }
        ensures ok { OfNext nodes.now self.old (λ x. OnOk result (self.new ≡ with_node nodes.now self.old (length self.old.sources) x)) }
        ensures err { OfNext nodes.now self.old (λ x. IfErr result (Refuses self.old.tasks (made_next nodes.now self.old.sources x self.old.tasks).tasks)) }
    {
        let number = self.sources.len();
        let node = &nodes[number];
        let first = self.graph.keys();
        let sources = self.sources.as_slice();
        let source = lower_node(alloc, &mut self.graph, sources, node, inputs, nodes)?;
        let end = self.graph.keys();
        name_keys(&mut self.names, &source, number as u32, first, end)?;
        self.sources.push(source)?;
        Ok(())
    }
}
