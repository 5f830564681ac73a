//! Small lists that contracts see as lists, and copies of their members.
use crate::chunk::ChunkSpec;
use crate::region::Piece;
use crate::shape::Shape;
use crate::slice::{Part, Steps};
pub use sequences::{Duplicate, Sequence};
use std::alloc::AllocError;

/// Lengths, one per axis.
pub type Dims = Sequence<u64>;

/// Axes, counted from 0.
pub type Axes = Sequence<u64>;

/// The sizes of the chunks along one axis.
pub type Sizes = Sequence<u32>;

/// How each axis is cut into chunks.
pub type Specs = Sequence<ChunkSpec>;

/// The parts of a slice, one per axis from the first axis on.
pub type Parts = Sequence<Part>;

/// The indexes that a slice takes, one per axis.
pub type StepList = Sequence<Steps>;

/// Shapes, one per operand.
pub type Shapes = Sequence<Shape>;

/// What a block is put together of.
pub type Pieces = Sequence<Piece>;

impl Duplicate for Part {
    fn duplicate(&self) -> Result<Part, AllocError> {
        Ok(*self)
    }
}

impl Duplicate for Steps {
    fn duplicate(&self) -> Result<Steps, AllocError> {
        Ok(*self)
    }
}

impl Duplicate for ChunkSpec {
    fn duplicate(&self) -> Result<ChunkSpec, AllocError> {
        match self {
            ChunkSpec::Even(size) => Ok(ChunkSpec::Even(*size)),
            ChunkSpec::List(sizes) => Ok(ChunkSpec::List(sizes.copy()?)),
        }
    }
}

impl Duplicate for Piece {
    fn duplicate(&self) -> Result<Piece, AllocError> {
        Ok(Piece {
            source: self.source,
            from: self.from.copy(),
            to: self.to.copy(),
        })
    }
}
