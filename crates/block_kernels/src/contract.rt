//! Contraction: the products over paired axes of two blocks, summed, as a product of two matrices.
ghost use Rattle.std.specs.Prelude.{◌≡◌, ◌+◌, ◌*◌, ◌<◌, ◌≤◌, ◌++◌, ◌^◌, ◌*ℤ◌, ℕ, length, map, slice_index, slice_index_or, pos, All, Some, Ok, IfOk};
ghost use Rattle.nd_shape.specs.Shape.{elements, IsShape};
ghost use Rattle.nd_grid.specs.Int64.{wrap};
ghost use Rattle.nd_grid.specs.declared.operation.Fold.TheVariants.{Sum};
ghost use Rattle.nd_grid.specs.Operation.{fold_two};
ghost use Rattle.nd_grid.specs.Grid.{grid_of, block_of, kept_shape, contracted};
ghost use Rattle.block_kernels.specs.Inputs.{blocks_of, shapes_of};
ghost use Rattle.block_kernels.specs.WellFormed.{AreAxes, FitsContract};
ghost use Rattle.block_kernels.specs.Contracting.{woven_at, AreKeptRows, ArePairedRows, IsContraction, AddsRow, AddsProducts, IsProduct};
ghost use Rattle.block_kernels.specs.Contracting.{contracted_at, contracted_dims};

use crate::inputs::input_at;
use crate::reduce::kept_dims;
use nd_grid::element_at;
use nd_grid::operand::index_woven;
use nd_shape::shape::AXES;
use nd_shape::{Block, Shape, unravel};
use std::alloc::{AllocError, Global};
use std::sync::Arc;

// The element of a block at a place of its kept axes and a place of its paired ones. No memory.
fn woven_cell(block: &Block, axes: &[u64], kept: &Shape, paired: &Shape, i: u64, p: u64) -> i64
    requires kept { kept.now ≡ kept_shape 0 block.now.shape axes.now }
    requires paired { paired.now ≡ map (λ a. slice_index block.now.shape a) axes.now }
    requires row { i < elements kept.now }
    requires column { p < elements paired.now }
    ensures { Some result ≡ woven_at axes.now block.now kept.now paired.now i p }
{
    let mut first = [0; AXES];
    let stays = &mut first[..kept.dims().len()];
    unravel(kept, i, stays);
    let mut second = [0; AXES];
    let rest = &mut second[..paired.dims().len()];
    unravel(paired, p, rest);
    let dims = block.shape().dims();
    let mut third = [0; AXES];
    let own = &mut third[..dims.len()];
    index_woven(axes, dims, stays, rest, own);
    element_at(block, own)
}

// The elements of a block, a row for each place of its kept axes.
fn kept_rows(
    alloc: Global,
    block: &Block,
    axes: &[u64],
    kept: &Shape,
    paired: &Shape,
) -> Result<Vec<i64>, AllocError>
    requires kept { kept.now ≡ kept_shape 0 block.now.shape axes.now }
    requires paired { paired.now ≡ map (λ a. slice_index block.now.shape a) axes.now }
    requires small { elements kept.now * elements paired.now ≤ 2 ^ 31 }
    ensures size { IfOk result (λ v. length v.items ≡ elements kept.now * elements paired.now) }
    ensures at { IfOk result (λ v. AreKeptRows axes.now block.now kept.now paired.now v.items) }
{
    let width = paired.elements();
    let count = kept.elements() * width;
    let mut cells = Vec::with_capacity(alloc, count as usize)?;
    for x in 0..count {
        cells.push(woven_cell(block, axes, kept, paired, x / width, x % width))?;
    }
    Ok(cells)
}

// The elements of a block, a row for each place of its paired axes.
fn paired_rows(
    alloc: Global,
    block: &Block,
    axes: &[u64],
    kept: &Shape,
    paired: &Shape,
) -> Result<Vec<i64>, AllocError>
    requires kept { kept.now ≡ kept_shape 0 block.now.shape axes.now }
    requires paired { paired.now ≡ map (λ a. slice_index block.now.shape a) axes.now }
    requires small { elements paired.now * elements kept.now ≤ 2 ^ 31 }
    ensures size { IfOk result (λ v. length v.items ≡ elements paired.now * elements kept.now) }
    ensures at { IfOk result (λ v. ArePairedRows axes.now block.now kept.now paired.now v.items) }
{
    let width = kept.elements();
    let count = paired.elements() * width;
    let mut cells = Vec::with_capacity(alloc, count as usize)?;
    for x in 0..count {
        cells.push(woven_cell(block, axes, kept, paired, x % width, x / width))?;
    }
    Ok(cells)
}

// The product of two elements.
fn times(a: i64, b: i64) -> i64
    ensures { result ≡ wrap (a *ℤ b) }
{
    a.wrapping_mul(b)
}

// The sum of two elements.
fn plus(a: i64, b: i64) -> i64
    ensures { result ≡ fold_two Sum a b }
{
    a.wrapping_add(b)
}

// Adds a multiple of a row. No memory.
fn add_row(sums: &mut [i64], place: usize, factor: i64, cells: &[i64], from: usize, count: usize)
    requires room { place + count ≤ length sums.old }
    requires cells { from + count ≤ length cells.now }
    ensures { AddsRow place factor cells.now from count sums.old sums.new }
{
    for j in 0..count {
        sums[place + j] = plus(sums[place + j], times(factor, cells[from + j]));
    }
}

// Adds the products of a row of the first matrix with the columns of the second. No memory.
fn add_products(
    sums: &mut [i64],
    place: usize,
    left: &[i64],
    first: usize,
    right: &[i64],
    depth: usize,
    count: usize,
)
    requires room { place + count ≤ length sums.old }
    requires left { first + depth ≤ length left.now }
    requires right { depth * count ≤ length right.now }
    requires small { depth * count ≤ 2 ^ 31 }
    ensures { AddsProducts place left.now first right.now depth count sums.old sums.new }
{
    for p in 0..depth {
        add_row(sums, place, left[first + p], right, p * count, count);
    }
}

// The product of two matrices.
fn multiplied(
    alloc: Global,
    left: &[i64],
    right: &[i64],
    height: usize,
    depth: usize,
    count: usize,
) -> Result<Vec<i64>, AllocError>
    requires left { height * depth ≤ length left.now }
    requires right { depth * count ≤ length right.now }
    requires left_small { height * depth ≤ 2 ^ 31 }
    requires right_small { depth * count ≤ 2 ^ 31 }
    requires small { height * count ≤ 2 ^ 31 }
    ensures size { IfOk result (λ v. length v.items ≡ height * count) }
    ensures product { IfOk result (λ v. IsProduct left.now right.now height depth count v.items) }
{
    let mut cells = vec![in alloc; 0; height * count]?;
    multiply(cells.as_mut_slice(), left, right, height, depth, count);
    Ok(cells)
}

// Fills the product of two matrices into zeros. No memory.
fn multiply(
    cells: &mut [i64],
    left: &[i64],
    right: &[i64],
    height: usize,
    depth: usize,
    count: usize,
)
    requires left { height * depth ≤ length left.now }
    requires right { depth * count ≤ length right.now }
    requires room { length cells.old ≡ height * count }
    requires left_small { height * depth ≤ 2 ^ 31 }
    requires right_small { depth * count ≤ 2 ^ 31 }
    requires small { height * count ≤ 2 ^ 31 }
    requires zeros { (j : ℕ) → j < height * count → slice_index_or cells.old j (pos 0) ≡ pos 0 }
    ensures { IsProduct left.now right.now height depth count cells.new }
{
    for i in 0..height {
        add_products(cells, i * count, left, i * depth, right, depth, count);
    }
}

// The lengths of the listed axes, in the order of the list.
fn listed_dims(alloc: Global, dims: &[u64], axes: &[u64]) -> Result<Vec<u64>, AllocError>
    requires { All (λ a. a < length dims.now) axes.now }
    ensures { IfOk result (λ v. v.items ≡ map (λ a. slice_index dims.now a) axes.now) }
{
    let mut lengths = Vec::new(alloc);
    for axis in axes {
        lengths.push(dims[*axis as usize])?;
    }
    Ok(lengths)
}

// The lengths of two lists, one after the other.
fn joined(alloc: Global, first: &[u64], second: &[u64]) -> Result<Vec<u64>, AllocError>
    ensures { IfOk result (λ v. v.items ≡ first.now ++ second.now) }
{
    let mut lengths = Vec::from_slice(alloc, first)?;
    lengths.extend_from_slice(second)?;
    Ok(lengths)
}

// The cells of the contraction, by the lengths of the axes that are kept and of those that are paired.
fn contract_cells(
    alloc: Global,
    left: &Block,
    right: &Block,
    left_axes: &[u64],
    right_axes: &[u64],
    left_kept: &Shape,
    right_kept: &Shape,
    paired: &Shape,
) -> Result<Vec<i64>, AllocError>
    requires left_kept { left_kept.now ≡ kept_shape 0 left.now.shape left_axes.now }
    requires right_kept { right_kept.now ≡ kept_shape 0 right.now.shape right_axes.now }
    requires left_paired { paired.now ≡ map (λ a. slice_index left.now.shape a) left_axes.now }
    requires right_paired { paired.now ≡ map (λ a. slice_index right.now.shape a) right_axes.now }
    requires left_small { elements left_kept.now * elements paired.now ≤ 2 ^ 31 }
    requires right_small { elements paired.now * elements right_kept.now ≤ 2 ^ 31 }
    requires small { elements left_kept.now * elements right_kept.now ≤ 2 ^ 31 }
    ensures size { IfOk result (λ v. length v.items ≡ elements left_kept.now * elements right_kept.now) }
    ensures block { IfOk result (λ v. IsContraction left_axes.now right_axes.now left.now right.now (left_kept.now ++ right_kept.now) v.items) }
{
    let first = kept_rows(alloc, left, left_axes, left_kept, paired)?;
    let second = paired_rows(alloc, right, right_axes, right_kept, paired)?;
    let cells = multiplied(
        alloc,
        first.as_slice(),
        second.as_slice(),
        left_kept.elements() as usize,
        paired.elements() as usize,
        right_kept.elements() as usize,
    )?;
    Ok(cells)
}

// The contraction where the result has elements.
fn contract_some(
    alloc: Global,
    left: &Block,
    right: &Block,
    left_axes: &[u64],
    right_axes: &[u64],
    shape: Shape,
) -> Result<Block, AllocError>
    requires left { AreAxes left_axes.now (length left.now.shape) }
    requires right { AreAxes right_axes.now (length right.now.shape) }
    requires paired { map (λ a. slice_index left.now.shape a) left_axes.now ≡ map (λ a. slice_index right.now.shape a) right_axes.now }
    requires shape { kept_shape 0 left.now.shape left_axes.now ++ kept_shape 0 right.now.shape right_axes.now ≡ shape }
    requires some { 0 < elements shape }
    ensures { IfOk result (λ block. block_of (contracted left_axes.now right_axes.now (grid_of left.now) (grid_of right.now)) ≡ Ok block) }
{
    let _ = shape.dims();
    let paired = Shape::of(listed_dims(alloc, left.shape().dims(), left_axes)?);
    let left_kept = Shape::of(kept_dims(alloc, left.shape().dims(), left_axes)?);
    let right_kept = Shape::of(kept_dims(alloc, right.shape().dims(), right_axes)?);
    let cells = contract_cells(
        alloc,
        left,
        right,
        left_axes,
        right_axes,
        &left_kept,
        &right_kept,
        &paired,
    )?;
    Ok(Block::new(shape, cells))
}

// The contraction of two blocks.
fn contract_two(
    alloc: Global,
    left: &Block,
    right: &Block,
    left_axes: &[u64],
    right_axes: &[u64],
    shape: Shape,
) -> Result<Block, AllocError>
    requires left { AreAxes left_axes.now (length left.now.shape) }
    requires right { AreAxes right_axes.now (length right.now.shape) }
    requires paired { map (λ a. slice_index left.now.shape a) left_axes.now ≡ map (λ a. slice_index right.now.shape a) right_axes.now }
    requires shape { kept_shape 0 left.now.shape left_axes.now ++ kept_shape 0 right.now.shape right_axes.now ≡ shape }
    ensures { IfOk result (λ block. block_of (contracted left_axes.now right_axes.now (grid_of left.now) (grid_of right.now)) ≡ Ok block) }
{
    if shape.elements() == 0 {
        return Ok(Block::new(shape, Vec::new(alloc)));
    }
    contract_some(alloc, left, right, left_axes, right_axes, shape)
}

/// The products over paired axes of two of the inputs, summed, as NumPy's `tensordot`: the axes that are left are those
/// of the first, then those of the second.
pub fn contract(
    alloc: Global,
    left: u32,
    right: u32,
    left_axes: &[u64],
    right_axes: &[u64],
    inputs: &[Arc<Block>],
) -> Result<Block, AllocError>
    requires fits { FitsContract left right left_axes.now right_axes.now (shapes_of (blocks_of inputs.now)) }
    requires limits { IsShape (contracted_dims left_axes.now right_axes.now left right (blocks_of inputs.now)) }
    ensures { IfOk result (λ block. block_of (contracted_at left_axes.now right_axes.now left right (blocks_of inputs.now)) ≡ Ok block) }
{
    let first = input_at(inputs, left);
    let second = input_at(inputs, right);
    let kept = kept_dims(alloc, first.shape().dims(), left_axes)?;
    let more = kept_dims(alloc, second.shape().dims(), right_axes)?;
    let shape = Shape::of(joined(alloc, kept.as_slice(), more.as_slice())?);
    contract_two(alloc, first, second, left_axes, right_axes, shape)
}
