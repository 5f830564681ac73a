//! Counts of chunks, one per axis, and indexes below them.
ghost use Rattle.std.specs.Prelude.{◌≡◌, ◌<◌, ◌-◌, ◌^◌, length, min, IfOk};
ghost use Rattle.nd_shape.specs.Shape.{elements};
ghost use Rattle.nd_shape.specs.Index.{IsIn, index_at};
ghost use Rattle.chunk_layout.specs.Layouts.{counts as counts_in};

use chunk_layout::Cuts;
use std::alloc::{AllocError, Global};

/// How many chunks each axis has.
pub fn counts_of(alloc: Global, axes: &[Cuts]) -> Result<Vec<u64>, AllocError>
    ensures { IfOk result (λ v. v.items ≡ counts_in axes.now) }
{
    let mut list = Vec::with_capacity(alloc, axes.len())?;
    for cuts in axes {
        list.push(cuts.count())?;
    }
    Ok(list)
}

/// How many indexes lie below the counts, or 2^64-1 where there are more. No memory.
pub fn product_of(counts: &[u64]) -> u64
    ensures { result ≡ min (elements counts.now) (2 ^ 64 - 1) }
{
    let mut product = 1u64;
    for count in counts {
        product = product.saturating_mul(*count);
    }
    product
}

/// Writes the index at a place in row-major order. No memory.
pub fn numbers_of(counts: &[u64], place: u64, numbers: &mut [u64])
    requires place { place < elements counts.now }
    requires axes { length numbers.old ≡ length counts.now }
    ensures value { numbers.new ≡ index_at counts.now place }
    ensures inside { IsIn counts.now numbers.new }
{
    let mut left = place;
    let mut axis = counts.len();
    while axis > 0 {
        axis -= 1;
        let count = counts[axis];
        numbers[axis] = left % count;
        left /= count;
    }
}
