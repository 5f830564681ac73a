//! The blocks that operations take.
ghost use Rattle.std.specs.Prelude.{◌≡◌, ◌<◌, [], length, IfOk, slice_index_or};
ghost use Rattle.nd_grid.specs.Grid.{grid_of};
ghost use Rattle.block_kernels.specs.Kernels.{nth, operand};
ghost use Rattle.block_kernels.specs.Inputs.{blocks_of, grids_of, shapes_of, IsPlace, operand_shape, number_of, number_array};

use crate::spec::Operand;
use nd_shape::{Block, Shape};
use std::alloc::{AllocError, Global};
use std::sync::Arc;

/// The input at a place. No memory.
pub fn input_at(inputs: &[Arc<Block>], place: u32) -> &Block
    requires { place < length inputs.now }
    ensures grid { grid_of result.now ≡ nth (grids_of (blocks_of inputs.now)) place }
    ensures shape { result.now.shape ≡ slice_index_or (shapes_of (blocks_of inputs.now)) place [] }
{
    let shared = &inputs[place as usize];
    shared.as_ref()
}

fn number_or_zero(operand: Operand) -> i64
    ensures { result ≡ number_of operand }
{
    match operand {
        Operand::Input(_) => 0,
        Operand::Number(value) => value,
    }
}

/// The block of no axes that stands for an operand that is a number. For an input it isn't used.
pub fn number_block(alloc: Global, operand: Operand) -> Result<Block, AllocError>
    ensures { IfOk result (λ block. block ≡ number_array operand) }
{
    let value = number_or_zero(operand);
    let mut cells = Vec::new(alloc);
    cells.push(value)?;
    Ok(Block::new(Shape::of(Vec::new(alloc)), cells))
}

/// The block of an operand, of which `number` is its number's. No memory.
pub fn operand_at<'a>(inputs: &'a [Arc<Block>], number: &'a Block, which: Operand) -> &'a Block
    requires place { IsPlace which (length inputs.now) }
    requires number { number.now ≡ number_array which }
    ensures grid { grid_of result.now ≡ operand which (grids_of (blocks_of inputs.now)) }
    ensures shape { result.now.shape ≡ operand_shape which (shapes_of (blocks_of inputs.now)) }
{
    match which {
        Operand::Input(place) => input_at(inputs, place),
        Operand::Number(_) => number,
    }
}
