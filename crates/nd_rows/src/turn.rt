//! Blocks in column-major order, turned to row-major order.
ghost use Rattle.std.specs.Prelude.{◌≡◌, ◌≤◌, ◌<◌, ◌+◌, ◌-◌, ◌*◌, ◌^◌, ℕ, length, reverse, get_or, slice_index_or, pos, IfOk};
ghost use Rattle.nd_shape.specs.Shape.{elements};
ghost use Rattle.nd_shape.specs.Index.{index_at, place};
ghost use Rattle.nd_rows.specs.Storage.{column_place, from_column};

use crate::walk::stored_dims;
use nd_shape::{Shape, ravel, unravel};
use std::alloc::{AllocError, Global};

// The length of the last axis, or 1 where there is none.
fn last_len(dims: &[u64]) -> u64
    ensures { result ≡ slice_index_or dims.now (length dims.now - 1) 1 }
{
    match dims {
        [.., last] => *last,
        [] => 1,
    }
}

// Where the element at a place in row-major order stands in column-major order. `turned` is the shape with its axes
// backwards, and `index` is room for an index.
pub(crate) fn column_start(shape: &Shape, turned: &Shape, index: &mut [u64], position: u64) -> u64
    requires turned { turned.now ≡ reverse shape.now }
    requires axes { length index.old ≡ length shape.now }
    requires inside { position < elements shape.now }
    ensures place { result ≡ column_place shape.now (index_at shape.now position) }
    ensures limit { result < elements shape.now }
{
    unravel(shape, position, index);
    index.reverse();
    ravel(turned, index)
}

// Fills a row with elements of equal distance.
fn gather(row: &mut [i64], cells: &[i64], at: usize, stride: usize)
    requires inside { (k : ℕ) → k < length row.old → at + k * stride < length cells.now }
    requires small { length cells.now < 2 ^ 32 }
    ensures { (k : ℕ) → k < length row.old → get_or row.new k (pos 0) ≡ get_or cells.now (at + k * stride) (pos 0) }
{
    for (k, cell) in row.iter_mut().enumerate() {
        *cell = cells[at + k * stride];
    }
}

// Fills all rows.
fn gather_rows(
    shape: &Shape,
    turned: &Shape,
    index: &mut [u64],
    cells: &[i64],
    row_len: usize,
    block: &mut [i64],
)
    requires turned { turned.now ≡ reverse shape.now }
    requires axes { length index.old ≡ length shape.now }
    requires row { row_len ≡ slice_index_or shape.now (length shape.now - 1) 1 }
    requires some { 0 < elements shape.now }
    requires small { elements shape.now ≤ 2 ^ 31 }
    requires cells { length cells.now ≡ elements shape.now }
    requires block { length block.old ≡ elements shape.now }
    ensures { (p : ℕ) → p < elements shape.now → get_or block.new p (pos 0) ≡ from_column shape.now cells.now p }
{
    let rows = block.len() / row_len;
    for row in 0..rows {
        let at = column_start(shape, turned, index, (row * row_len) as u64);
        let part = &mut block[row * row_len..(row + 1) * row_len];
        gather(part, cells, at as usize, rows);
    }
}

/// The elements of a block in row-major order, from those in column-major order.
pub fn from_column_major(
    alloc: Global,
    shape: &Shape,
    cells: &[i64],
) -> Result<Vec<i64>, AllocError>
    requires { length cells.now ≡ elements shape.now }
    ensures count { IfOk result (λ v. length v.items ≡ elements shape.now) }
    ensures each { IfOk result (λ v. (p : ℕ) → p < elements shape.now → get_or v.items p (pos 0) ≡ from_column shape.now cells.now p) }
{
    let mut block = vec![in alloc; 0; cells.len()]?;
    if cells.is_empty() {
        return Ok(block);
    }
    let turned = stored_dims(alloc, true, shape)?;
    let mut index = vec![in alloc; 0; shape.dims().len()]?;
    let row_len = last_len(shape.dims()) as usize;
    gather_rows(shape, &turned, &mut index, cells, row_len, &mut block);
    Ok(block)
}
