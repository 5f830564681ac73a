//! Why an operation is refused as a node.
ghost use Rattle.std.specs.Prelude.{◌≡◌};

use nd_shape::{ChunkError, ShapeError};
use std::alloc::{AllocError, AllocFailed};
use std::error::Error;
use std::fmt;

/// What is limited in an expression.
#[derive(Clone, Copy, Debug)]
pub enum Quantity {
    /// At most 65,536 nodes.
    Nodes,
    /// At most 8 axes of an array.
    Axes,
    /// At most 2^31 elements of an array, and of each of its lengths.
    Elements,
}

impl fmt::Display for Quantity {
    ghost use Rattle.std.specs.Prelude.{Some};
    ghost use Rattle.array_expr.specs.Texts.{quantity_text};

    ghost output = { λ quantity. Some (quantity_text quantity) };

    fn fmt<W: fmt::Write>(&self, f: &mut fmt::Formatter<W>) -> fmt::Result {
        match self {
            Quantity::Nodes => write!(f, "nodes"),
            Quantity::Axes => write!(f, "axes"),
            Quantity::Elements => write!(f, "elements"),
        }
    }
}

/// Why an operation isn't taken as a node.
#[derive(Clone, Copy, Debug)]
pub enum NodeError {
    /// The operands' shapes, the axes or the parts of a slice don't fit.
    Shape(ShapeError),
    /// The array can't be cut into these chunks.
    Chunks(ChunkError),
    /// The expression or the array would be too large.
    Limit { quantity: Quantity },
    OutOfMemory,
}

impl fmt::Display for NodeError {
    ghost use Rattle.std.specs.Prelude.{Some};
    ghost use Rattle.array_expr.specs.Texts.{node_error_text};

    ghost output = { λ e. Some (node_error_text e) };

    fn fmt<W: fmt::Write>(&self, f: &mut fmt::Formatter<W>) -> fmt::Result {
        match self {
            NodeError::Shape(e) => write!(f, "{e}"),
            NodeError::Chunks(e) => write!(f, "{e}"),
            NodeError::Limit { quantity } => write!(f, "limit {quantity}"),
            NodeError::OutOfMemory => write!(f, "out of memory"),
        }
    }
}

impl Error for NodeError {}

impl From<AllocError> for NodeError {
    ghost use Rattle.std.specs.Prelude.{◌≡◌};
    ghost use Rattle.array_expr.specs.declared.error.NodeError.TheVariants.{OutOfMemory};

    ghost from_gives = { λ _ e. e ≡ OutOfMemory };

    fn from(_: AllocError) -> Self {
        NodeError::OutOfMemory
    }
}

impl<T: Drop> From<AllocFailed<T>> for NodeError {
    ghost use Rattle.std.specs.Prelude.{◌≡◌};
    ghost use Rattle.array_expr.specs.declared.error.NodeError.TheVariants.{OutOfMemory};

    ghost from_gives = { λ _ e. e ≡ OutOfMemory };

    fn from(_: AllocFailed<T>) -> Self {
        NodeError::OutOfMemory
    }
}

impl From<Quantity> for NodeError {
    ghost use Rattle.std.specs.Prelude.{◌≡◌};
    ghost use Rattle.array_expr.specs.declared.error.NodeError.TheVariants.{Limit};

    ghost from_gives = { λ quantity e. e ≡ Limit quantity };

    fn from(quantity: Quantity) -> Self {
        NodeError::Limit { quantity }
    }
}

impl From<ShapeError> for NodeError {
    ghost use Rattle.std.specs.Prelude.{◌≡◌};
    ghost use Rattle.array_expr.specs.Texts.{shape_error};

    ghost from_gives = { λ why e. e ≡ shape_error why };

    fn from(why: ShapeError) -> Self {
        match why {
            ShapeError::OutOfMemory => NodeError::OutOfMemory,
            ShapeError::Elements => NodeError::Limit {
                quantity: Quantity::Elements,
            },
            other => NodeError::Shape(other),
        }
    }
}
