//! Operands that wait for their operation, and operations that wait for their operands.
ghost use Rattle.std.specs.Prelude.{◌≡◌, ◌+◌, ◌-◌, ◌<◌, ◌^◌, ◌∷◌, ◌++◌, [], take, drop, length, IfOk, OnOk};
ghost use Rattle.job_script.specs.Operands.{nothing_waits, without_last, top_node, top_mark, top_list, with_node, without_node, without_mark};

use array_expr::NodeId;
use job_tokens::{Kind, Token};
use std::alloc::{AllocError, Global};
use std::marker::Model;

/// Nodes and marks, the last ones at the end; open lists, and how many parentheses, calls and lists are open.
#[derive(Drop)]
pub(crate) struct Operands {
    nodes: Vec<NodeId>,
    marks: Vec<Token>,
    lists: Vec<usize>,
    depth: u32,
}

impl Model for Operands {
    ghost use Rattle.job_script.specs.Operands.{Waiting};

    ghost Value = { Waiting };

    ghost view = { λ w. record { nodes = w.nodes.items; marks = w.marks.items; lists = w.lists.items; depth = w.depth } };
}

impl Operands {
    pub(crate) fn new(alloc: Global) -> Self
        ensures { result ≡ nothing_waits }
    {
        Operands {
            nodes: Vec::new(alloc),
            marks: Vec::new(alloc),
            lists: Vec::new(alloc),
            depth: 0,
        }
    }

    pub(crate) fn push(&mut self, node: NodeId) -> Result<(), AllocError>
        ensures { OnOk result (self.new ≡ with_node node self.old) }
    {
        self.nodes.push(node)?;
        Ok(())
    }

    // The grammar gives each operation its operands, so that node 0 never stands for one that isn't there.
    pub(crate) fn pop(&mut self) -> NodeId
        ensures value { result ≡ top_node self.old }
        ensures after { self.new ≡ without_node self.old }
    {
        match self.nodes.pop() {
            Some(node) => node,
            None => NodeId::new(0),
        }
    }

    pub(crate) fn mark(&mut self, token: Token) -> Result<(), AllocError>
        ensures { OnOk result (self.new ≡ record self.old { marks = self.old.marks ++ token ∷ [] }) }
    {
        self.marks.push(token)?;
        Ok(())
    }

    pub(crate) fn pop_mark(&mut self) -> Token
        ensures value { result ≡ top_mark self.old }
        ensures after { self.new ≡ without_mark self.old }
    {
        match self.marks.pop() {
            Some(token) => token,
            None => Token {
                kind: Kind::Newline,
                start: 0,
                end: 0,
            },
        }
    }

    pub(crate) fn open_list(&mut self) -> Result<(), AllocError>
        ensures { OnOk result (self.new ≡ record self.old { lists = self.old.lists ++ length self.old.nodes ∷ [] }) }
    {
        self.lists.push(self.nodes.len())?;
        Ok(())
    }

    /// Takes out the nodes of the list that was opened last.
    pub(crate) fn pop_list(&mut self, alloc: Global) -> Result<Vec<NodeId>, AllocError>
        ensures value { IfOk result (λ v. v.items ≡ drop (top_list self.old) self.old.nodes) }
        ensures after { OnOk result (self.new ≡ record self.old { nodes = take (top_list self.old) self.old.nodes; lists = without_last self.old.lists }) }
    {
        let below = self.lists.pop().unwrap_or(0).min(self.nodes.len());
        let listed = Vec::from_slice(alloc, &self.nodes.as_slice()[below..])?;
        self.nodes.truncate(below);
        Ok(listed)
    }

    pub(crate) fn depth(&self) -> u32
        ensures { result ≡ self.now.depth }
    {
        self.depth
    }

    pub(crate) fn enter(&mut self)
        requires { self.old.depth + 1 < 2 ^ 32 }
        ensures { self.new ≡ record self.old { depth = self.old.depth + 1 } }
    {
        self.depth += 1;
    }

    pub(crate) fn leave(&mut self)
        ensures { self.new ≡ record self.old { depth = self.old.depth - 1 } }
    {
        self.depth = self.depth.saturating_sub(1);
    }
}
