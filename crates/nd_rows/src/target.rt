//! Where the elements of a region go in its block.
ghost use Rattle.std.specs.Prelude.{◌≡◌, ◌<◌, ◌^◌, length, IfOk};
ghost use Rattle.nd_shape.specs.Shape.{elements};
ghost use Rattle.nd_rows.specs.Storage.{stored, target};

use crate::turn::column_start;
use crate::walk::stored_dims;
use nd_shape::Shape;
use std::alloc::{AllocError, Global};
use std::marker::Model;

/// The places in a block, which is in row-major order, of elements that come in the order of storage.
#[derive(Drop)]
pub struct BlockTargets {
    column_major: bool,
    lengths: Shape,
    block: Shape,
    index: Vec<u64>,
}

impl Model for BlockTargets {
    ghost use Rattle.std.specs.Prelude.{◌≡◌, length};
    ghost use Rattle.nd_rows.specs.Storage.{Targets, stored};

    ghost Value = { Targets };

    ghost view = { λ t. record { by_column = t.column_major; lengths = t.lengths } };

    ghost invariant = { λ t. (t.lengths ≡ stored t.column_major t.block) × (length t.index.items ≡ length t.lengths) };
}

impl BlockTargets {
    /// For a block of this shape, whose elements come in column-major order where `column_major` says so, and in row-major
    /// order otherwise.
    pub fn new(alloc: Global, column_major: bool, shape: &Shape) -> Result<Self, AllocError>
        ensures { IfOk result (λ targets. targets ≡ record { by_column = column_major; lengths = stored column_major shape.now }) }
    {
        let lengths = stored_dims(alloc, column_major, shape)?;
        let block = shape.copy(alloc)?;
        let index = vec![in alloc; 0; lengths.dims().len()]?;
        Ok(BlockTargets {
            column_major,
            lengths,
            block,
            index,
        })
    }

    /// How many elements the block has. No memory.
    pub fn len(&self) -> u64
        ensures { result ≡ elements self.now.lengths }
    {
        self.lengths.elements()
    }

    /// Where the element of this number goes. No memory.
    pub fn place(&mut self, element: u64) -> u64
        requires { element < elements self.old.lengths }
        ensures same { self.new ≡ self.old }
        ensures place { result ≡ target self.old.by_column self.old.lengths element }
        ensures limit { result < 2 ^ 31 }
    {
        target_of(
            self.column_major,
            &self.lengths,
            &self.block,
            &mut self.index,
            element,
        )
    }
}

fn target_of(
    column_major: bool,
    lengths: &Shape,
    block: &Shape,
    index: &mut [u64],
    element: u64,
) -> u64
    requires inside { element < elements lengths.now }
    requires turned { lengths.now ≡ stored column_major block.now }
    requires axes { length index.old ≡ length lengths.now }
    ensures place { result ≡ target column_major lengths.now element }
    ensures limit { result < 2 ^ 31 }
{
    let _ = lengths.dims();
    if column_major {
        column_start(lengths, block, index, element)
    } else {
        element
    }
}
