//! Parts of arrays, put where they belong.
ghost use Rattle.std.specs.Prelude.{◌≡◌, ◌<◌, ◌+◌, length, IfOk};
ghost use Rattle.nd_shape.specs.Shape.{elements};
ghost use Rattle.nd_shape.specs.Region.{IsPart};
ghost use Rattle.plain_block.specs.Placing.{ArePlaced};

use nd_grid::operand::index_moved;
use nd_shape::shape::AXES;
use nd_shape::{Block, Region, Shape, ravel, unravel};
use std::alloc::{AllocError, Global};

/// The block of a shape whose elements are all 0.
pub fn zeros(alloc: Global, shape: &Shape) -> Result<Block, AllocError>
    ensures { IfOk result (λ block. block.shape ≡ shape.now) }
{
    let cells = vec![in alloc; 0; shape.elements() as usize]?;
    Ok(Block::new(shape.copy(alloc)?, cells))
}

// Writes an element of a part where it belongs.
fn put_cell(shape: &Shape, region: &Region, part: &Block, p: u64, cells: &mut [i64])
    requires inside { IsPart region.now shape.now }
    requires same { part.now.shape ≡ region.now.lengths }
    requires there { p < elements region.now.lengths }
    requires room { length cells.old ≡ elements shape.now }
    requires placed { ArePlaced shape.now region.now part.now.cells cells.old p }
    ensures { ArePlaced shape.now region.now part.now.cells cells.new (p + 1) }
{
    let dims = shape.dims();
    let starts = region.starts();
    let mut inner = [0; AXES];
    let index = &mut inner[..dims.len()];
    unravel(part.shape(), p, index);
    let mut outer = [0; AXES];
    let own = &mut outer[..dims.len()];
    index_moved(starts, index, own);
    cells[ravel(shape, own) as usize] = part.cells()[p as usize];
}

// Writes a part where it belongs.
fn put_cells(shape: &Shape, region: &Region, part: &Block, cells: &mut [i64])
    requires inside { IsPart region.now shape.now }
    requires same { part.now.shape ≡ region.now.lengths }
    requires room { length cells.old ≡ elements shape.now }
    ensures { ArePlaced shape.now region.now part.now.cells cells.new (elements region.now.lengths) }
{
    let count = part.shape().elements();
    for p in 0..count {
        put_cell(shape, region, part, p, cells);
    }
}

/// The block of a shape that has a part where it belongs, and 0 elsewhere.
pub fn placed(
    alloc: Global,
    shape: &Shape,
    region: &Region,
    part: &Block,
) -> Result<Block, AllocError>
    requires inside { IsPart region.now shape.now }
    requires same { part.now.shape ≡ region.now.lengths }
    ensures shape { IfOk result (λ block. block.shape ≡ shape.now) }
    ensures cells { IfOk result (λ block. ArePlaced shape.now region.now part.now.cells block.cells (elements region.now.lengths)) }
{
    let mut cells = vec![in alloc; 0; shape.elements() as usize]?;
    put_cells(shape, region, part, &mut cells);
    Ok(Block::new(shape.copy(alloc)?, cells))
}
