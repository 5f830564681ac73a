//! Blocks: arrays in memory.
ghost use Rattle.std.specs.Prelude.{◌≡◌, length, IfOk};
ghost use Rattle.nd_shape.specs.Shape.{elements};

use crate::shape::Shape;
use std::alloc::{AllocError, Global};
use std::marker::Model;

/// An array's shape and its elements in row-major order.
#[derive(Drop)]
pub struct Block {
    shape: Shape,
    cells: Vec<i64>,
}

impl Model for Block {
    ghost use Rattle.std.specs.Prelude.{◌≡◌, length};
    ghost use Rattle.nd_shape.specs.Block.{Array};
    ghost use Rattle.nd_shape.specs.Shape.{elements};

    ghost Value = { Array };

    ghost view = { λ b. record { shape = b.shape; cells = b.cells.items } };

    ghost invariant = { λ b. length b.cells.items ≡ elements b.shape };
}

impl Block {
    /// Takes a shape and its elements over. No memory.
    pub fn new(shape: Shape, cells: Vec<i64>) -> Self
        requires { length cells.items ≡ elements shape }
        ensures { result ≡ record { shape = shape; cells = cells.items } }
    {
        Block { shape, cells }
    }

    /// The shape. No memory.
    pub fn shape(&self) -> &Shape
        ensures value { result.now ≡ self.now.shape }
        ensures cells { length self.now.cells ≡ elements self.now.shape }
    {
        &self.shape
    }

    /// The elements in row-major order. No memory.
    pub fn cells(&self) -> &[i64]
        ensures value { result.now ≡ self.now.cells }
        ensures cells { length self.now.cells ≡ elements self.now.shape }
    {
        self.cells.as_slice()
    }

    /// Gives the shape and the elements back. No memory.
    pub fn into_parts(self) -> (Shape, Vec<i64>)
        ensures shape { result.0 ≡ self.shape }
        ensures cells { result.1.items ≡ self.cells }
    {
        let Block { shape, cells } = self;
        (shape, cells)
    }

    /// An equal block.
    pub fn copy(&self, alloc: Global) -> Result<Self, AllocError>
        ensures { IfOk result (λ block. block ≡ self.now) }
    {
        let shape = self.shape.copy(alloc)?;
        let cells = Vec::from_slice(alloc, self.cells())?;
        Ok(Block { shape, cells })
    }
}
