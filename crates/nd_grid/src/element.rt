//! Elements of blocks, by an index of what they are operands of.
ghost use Rattle.std.specs.Prelude.{◌≡◌, ◌+◌, ◌≤◌, length, cond, nat_eq, Some};
ghost use Rattle.nd_shape.specs.Shape.{IsShape};
ghost use Rattle.nd_shape.specs.Index.{IsIn};
ghost use Rattle.nd_grid.specs.Grid.{grid_of, under};

use nd_shape::shape::AXES;
use nd_shape::{Block, ravel};

/// The lengths of a block. No memory.
pub fn dims_of(block: &Block) -> &[u64]
    ensures dims { result.now ≡ block.now.shape }
    ensures limits { IsShape block.now.shape }
{
    block.shape().dims()
}

/// The element of a block at an index. No memory.
pub fn element_at(block: &Block, index: &[u64]) -> i64
    requires { IsIn block.now.shape index.now }
    ensures { Some result ≡ (grid_of block.now).at index.now }
{
    let at = ravel(block.shape(), index);
    let cells = block.cells();
    cells[at as usize]
}

/// The element of a block under an index of a shape that it is broadcast to. No memory.
pub fn element_under(block: &Block, index: &[u64]) -> i64
    requires { IsIn block.now.shape (under block.now.shape index.now) }
    ensures { Some result ≡ (grid_of block.now).at (under block.now.shape index.now) }
{
    let dims = block.shape().dims();
    let mut room = [0; AXES];
    let own = &mut room[..dims.len()];
    index_under(dims, index, own);
    element_at(block, own)
}

// The coordinate under i on an axis of n.
fn clip(n: u64, i: u64) -> u64
    ensures { result ≡ cond (nat_eq n 1) 0 i }
{
    if n == 1 { 0 } else { i }
}

/// Writes the index of an operand that stands under an index of the shape that it is broadcast to. No memory.
pub fn index_under(dims: &[u64], index: &[u64], own: &mut [u64])
    requires axes { length dims.now ≤ length index.now }
    requires room { length own.old ≡ length dims.now }
    ensures { own.new ≡ under dims.now index.now }
{
    let front = index.len() - dims.len();
    for (axis, len) in dims.iter().enumerate() {
        own[axis] = clip(*len, index[front + axis]);
    }
}
