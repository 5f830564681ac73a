//! The operations of expressions, and the numbers of nodes.
ghost use Rattle.std.specs.Prelude.{◌≡◌, ◌<◌, ◌^◌};

use nd_grid::{Binary, Fold};
use nd_shape::{Axes, Dims, Duplicate, Parts, Sequence, Specs};
use std::alloc::AllocError;
use std::marker::Model;

/// The number of a node in its expression, from 0 in the order in which the nodes were added.
#[derive(Clone, Copy)]
pub struct NodeId {
    number: u32,
}

impl Model for NodeId {
    ghost use Rattle.std.specs.Prelude.{ℕ, ◌<◌, ◌^◌};

    ghost Value = { ℕ };

    ghost view = { λ n. n.number };

    ghost invariant = { λ n. n.number < 2 ^ 32 };

    ghost inverse = { λ k. record { number = k } };
}

impl NodeId {
    /// The node with this number. No memory.
    pub fn new(number: u32) -> Self
        ensures { result ≡ number }
    {
        NodeId { number }
    }

    /// The number. No memory.
    pub fn number(self) -> u32
        ensures { result ≡ self }
    {
        self.number
    }
}

impl Duplicate for NodeId {
    fn duplicate(&self) -> Result<NodeId, AllocError> {
        Ok(*self)
    }
}

/// Nodes, one per operand.
pub type NodeIds = Sequence<NodeId>;

/// Where a node stands in a text: the line and the column of what made it, from 1, in bytes.
#[derive(Clone, Copy)]
pub struct Span {
    pub line: u32,
    pub column: u32,
}

/// A place in the text for each node.
pub type Spans = Sequence<Span>;

/// An operation on arrays of int64. Its operands are earlier nodes, and its axes are counted from 0. How an array is cut
/// into chunks is part of what makes it, as in Dask (<https://docs.dask.org/en/stable/array.html>).
#[derive(Drop)]
pub enum Op {
    /// An array that a file holds.
    Input {
        dims: Dims,
        chunks: Specs,
    },
    /// One value everywhere, as NumPy's `full`.
    Full {
        dims: Dims,
        value: i64,
        chunks: Specs,
    },
    /// `start + step * p` at the row-major place p, as NumPy's `arange` in a shape.
    Ramp {
        dims: Dims,
        start: i64,
        step: i64,
        chunks: Specs,
    },
    /// Each element negated.
    Negate {
        of: NodeId,
    },
    /// An operation on two arrays, element by element, whose shapes are broadcast.
    Elementwise {
        op: Binary,
        left: NodeId,
        right: NodeId,
    },
    /// `yes` where `cond` isn't 0, else `no`, as NumPy's `where`.
    Where {
        cond: NodeId,
        yes: NodeId,
        no: NodeId,
    },
    /// A basic slice: one part per axis from the first on, and the whole of each axis that has none.
    Slice {
        of: NodeId,
        parts: Parts,
    },
    /// The axis k of the result is the axis `axes[k]` of the operand, as NumPy's `transpose`.
    Transpose {
        of: NodeId,
        axes: Axes,
    },
    /// The same elements in other chunks.
    Rechunk {
        of: NodeId,
        chunks: Specs,
    },
    /// The operands one after another along an axis, as NumPy's `concatenate`.
    Concatenate {
        of: NodeIds,
        axis: u64,
    },
    /// The elements along the axes folded into one, all axes where none are given, `split` partial results at a time.
    Reduce {
        fold: Fold,
        of: NodeId,
        axes: Option<Axes>,
        split: u64,
    },
    /// The products over paired axes summed, as NumPy's `tensordot`.
    Tensordot {
        left: NodeId,
        right: NodeId,
        left_axes: Axes,
        right_axes: Axes,
    },
}
