//! Reductions: the elements along some axes folded into one, within each block and then over the blocks in order.
ghost use Rattle.std.specs.Prelude.{◌≡◌, ◌+◌, ◌*◌, ◌<◌, ◌≤◌, ◌^◌, ◌++◌, ℕ, [], ◌∷◌, length, cond, pos, slice_index_or, Some, Ok, IfOk, OnOk, MatchOption};
ghost use Rattle.nd_shape.specs.Shape.{elements, IsShape};
ghost use Rattle.nd_grid.specs.declared.operation.Fold.{Fold};
ghost use Rattle.nd_grid.specs.Operation.{folded_from, fold_two, neutral};
ghost use Rattle.nd_grid.specs.Grid.{block_of, kept_shape, folded_shape};
ghost use Rattle.block_kernels.specs.Inputs.{blocks_of, shapes_of};
ghost use Rattle.block_kernels.specs.WellFormed.{FitsReduce};
ghost use Rattle.block_kernels.specs.Reducing.{TakesBlock, TakesRow, TakesRows, AreTotals, line_of, reduced_blocks, reduced_dims};
ghost use Rattle.block_kernels.specs.Viewing.{IsView, Extends, TakesView};

use crate::inputs::input_at;
use nd_grid::operand::is_in_list;
use nd_grid::operation::neutral;
use nd_grid::plain::reduce;
use nd_grid::{Fail, Fold};
use nd_shape::{Block, Shape};
use std::alloc::{AllocError, Global};
use std::sync::Arc;

/// A fold by its operation on two elements, so that the loops are made for each fold.
pub trait Folding {
    ghost fold: { Self → Fold };

    /// Two elements folded into one. No memory.
    fn two(&self, a: i64, b: i64) -> i64
        ensures { result ≡ fold_two (fold self.now) a b };
}

/// Sums, modulo 2^64.
#[derive(Clone, Copy)]
pub struct Sums;

/// Products, modulo 2^64.
#[derive(Clone, Copy)]
pub struct Products;

/// Least elements.
#[derive(Clone, Copy)]
pub struct Least;

/// Greatest elements.
#[derive(Clone, Copy)]
pub struct Greatest;

impl Folding for Sums {
    ghost use Rattle.nd_grid.specs.declared.operation.Fold.TheVariants.{Sum};

    ghost fold = { λ s. Sum };

    fn two(&self, a: i64, b: i64) -> i64 {
        a.wrapping_add(b)
    }
}

impl Folding for Products {
    ghost use Rattle.nd_grid.specs.declared.operation.Fold.TheVariants.{Prod};

    ghost fold = { λ s. Prod };

    fn two(&self, a: i64, b: i64) -> i64 {
        a.wrapping_mul(b)
    }
}

impl Folding for Least {
    ghost use Rattle.nd_grid.specs.declared.operation.Fold.TheVariants.{Min};

    ghost fold = { λ s. Min };

    fn two(&self, a: i64, b: i64) -> i64 {
        a.min(b)
    }
}

impl Folding for Greatest {
    ghost use Rattle.nd_grid.specs.declared.operation.Fold.TheVariants.{Max};

    ghost fold = { λ s. Max };

    fn two(&self, a: i64, b: i64) -> i64 {
        a.max(b)
    }
}

// One more length, if it is wanted.
fn push_if(lengths: &mut Vec<u64>, wanted: bool, len: u64) -> Result<(), AllocError>
    ensures { OnOk result (lengths.new.items ≡ lengths.old.items ++ cond wanted (len ∷ []) []) }
{
    if wanted {
        lengths.push(len)?;
    }
    Ok(())
}

// The lengths of the listed axes, in ascending order.
fn folded_dims(alloc: Global, dims: &[u64], axes: &[u64]) -> Result<Vec<u64>, AllocError>
    ensures { IfOk result (λ v. v.items ≡ folded_shape 0 dims.now axes.now) }
{
    let mut lengths = Vec::new(alloc);
    for (axis, len) in dims.iter().enumerate() {
        let listed = is_in_list(axes, axis as u64);
        push_if(&mut lengths, listed, *len)?;
    }
    Ok(lengths)
}

/// The lengths of the axes that aren't listed, in ascending order.
pub fn kept_dims(alloc: Global, dims: &[u64], axes: &[u64]) -> Result<Vec<u64>, AllocError>
    ensures { IfOk result (λ v. v.items ≡ kept_shape 0 dims.now axes.now) }
{
    let mut lengths = Vec::new(alloc);
    for (axis, len) in dims.iter().enumerate() {
        let listed = is_in_list(axes, axis as u64);
        push_if(&mut lengths, !listed, *len)?;
    }
    Ok(lengths)
}

// Folds a row of cells into as many totals, one by one. No memory.
fn fold_row<F: Folding>(
    folding: &F,
    totals: &mut [i64],
    place: usize,
    cells: &[i64],
    from: usize,
    count: usize,
)
    requires room { place + count ≤ length totals.old }
    requires cells { from + count ≤ length cells.now }
    ensures { TakesRow (F.fold folding.now) place cells.now from count totals.old totals.new }
{
    for i in 0..count {
        totals[place + i] = folding.two(totals[place + i], cells[from + i]);
    }
}

// Folds rows of cells, one after another, into one row of totals. No memory.
fn fold_rows<F: Folding>(
    folding: &F,
    totals: &mut [i64],
    place: usize,
    cells: &[i64],
    from: usize,
    rows: usize,
    count: usize,
)
    requires room { place + count ≤ length totals.old }
    requires cells { from + rows * count ≤ length cells.now }
    requires small { from + rows * count ≤ 2 ^ 31 }
    ensures { TakesRows (F.fold folding.now) place cells.now from rows count totals.old totals.new }
{
    for row in 0..rows {
        fold_row(folding, totals, place, cells, from + row * count, count);
    }
}

// Folds cells that lie side by side into one total. No memory.
fn fold_line<F: Folding>(folding: &F, total: i64, cells: &[i64], from: usize, count: usize) -> i64
    requires { from + count ≤ length cells.now }
    ensures { folded_from (F.fold folding.now) (Some total) (line_of cells.now from count) ≡ Some result }
{
    let mut all = total;
    for q in 0..count {
        all = folding.two(all, cells[from + q]);
    }
    all
}

// How a block's elements lie: `outer` parts of `rows` rows of `inner` elements, where the rows are folded.
#[derive(Clone, Copy)]
struct View {
    outer: usize,
    rows: usize,
    inner: usize,
}

// The view with one axis more before its axes, unless the folded axes then don't lie side by side.
fn extended(view: View, gone: bool, len: u64) -> Option<View>
    requires small { len * ((view.outer * view.rows) * view.inner) ≤ 2 ^ 31 }
    requires some { 0 < (view.outer * view.rows) * view.inner }
    ensures { MatchOption result (Unit {0}) (λ v. Extends gone len view.outer view.rows view.inner v.outer v.rows v.inner) }
{
    let len = len as usize;
    if gone {
        if view.outer != 1 {
            return None;
        }
        return Some(View {
            outer: 1,
            rows: len * view.rows,
            inner: view.inner,
        });
    }
    if view.outer == 1 && view.rows == 1 {
        return Some(View {
            outer: 1,
            rows: 1,
            inner: len * view.inner,
        });
    }
    Some(View {
        outer: len * view.outer,
        rows: view.rows,
        inner: view.inner,
    })
}

// How the elements of a block lie, if the folded axes lie side by side.
fn view_of(axes: &[u64], dims: &[u64]) -> Option<View>
    requires small { elements dims.now ≤ 2 ^ 31 }
    requires some { 0 < elements dims.now }
    ensures { MatchOption result (Unit {0}) (λ v. IsView 0 dims.now axes.now v.outer v.rows v.inner) }
{
    let mut view = View {
        outer: 1,
        rows: 1,
        inner: 1,
    };
    let mut axis = dims.len();
    while axis > 0 {
        axis -= 1;
        let gone = is_in_list(axes, axis as u64);
        let Some(next) = extended(view, gone, dims[axis]) else {
            return None;
        };
        view = next;
    }
    Some(view)
}

// Folds the rows of each part into its totals. No memory.
fn fold_view<F: Folding>(folding: &F, view: View, cells: &[i64], totals: &mut [i64])
    requires cells { (view.outer * view.rows) * view.inner ≤ length cells.now }
    requires room { view.outer * view.inner ≤ length totals.old }
    requires small { (view.outer * view.rows) * view.inner ≤ 2 ^ 31 }
    requires few { view.outer * view.inner ≤ 2 ^ 31 }
    ensures { TakesView (F.fold folding.now) cells.now view.outer view.rows view.inner totals.old totals.new }
{
    for part in 0..view.outer {
        let size = view.rows * view.inner;
        fold_rows(
            folding,
            totals,
            part * view.inner,
            cells,
            part * size,
            view.rows,
            view.inner,
        );
    }
}

// Folds the cells of each part into its one total. No memory.
fn fold_lines<F: Folding>(folding: &F, view: View, cells: &[i64], totals: &mut [i64])
    requires line { view.inner ≡ 1 }
    requires cells { (view.outer * view.rows) * view.inner ≤ length cells.now }
    requires room { view.outer * view.inner ≤ length totals.old }
    requires small { (view.outer * view.rows) * view.inner ≤ 2 ^ 31 }
    requires few { view.outer * view.inner ≤ 2 ^ 31 }
    ensures { TakesView (F.fold folding.now) cells.now view.outer view.rows view.inner totals.old totals.new }
{
    for part in 0..view.outer {
        totals[part] = fold_line(folding, totals[part], cells, part * view.rows, view.rows);
    }
}

// Folds a block into the totals by its view. No memory.
fn fold_parts<F: Folding>(folding: &F, view: View, cells: &[i64], totals: &mut [i64])
    requires cells { (view.outer * view.rows) * view.inner ≤ length cells.now }
    requires room { view.outer * view.inner ≤ length totals.old }
    requires small { (view.outer * view.rows) * view.inner ≤ 2 ^ 31 }
    requires few { view.outer * view.inner ≤ 2 ^ 31 }
    ensures { TakesView (F.fold folding.now) cells.now view.outer view.rows view.inner totals.old totals.new }
{
    if view.inner == 1 {
        fold_lines(folding, view, cells, totals);
    } else {
        fold_view(folding, view, cells, totals);
    }
}

// Folds a block into the totals by its view. No memory.
fn fold_parts_by(fold: Fold, view: View, cells: &[i64], totals: &mut [i64])
    requires cells { (view.outer * view.rows) * view.inner ≤ length cells.now }
    requires room { view.outer * view.inner ≤ length totals.old }
    requires small { (view.outer * view.rows) * view.inner ≤ 2 ^ 31 }
    requires few { view.outer * view.inner ≤ 2 ^ 31 }
    ensures { TakesView fold cells.now view.outer view.rows view.inner totals.old totals.new }
{
    match fold {
        Fold::Sum => fold_parts(&Sums, view, cells, totals),
        Fold::Prod => fold_parts(&Products, view, cells, totals),
        Fold::Min => fold_parts(&Least, view, cells, totals),
        Fold::Max => fold_parts(&Greatest, view, cells, totals),
    }
}

// Folds a row of cells into as many totals. No memory.
fn fold_row_by(fold: Fold, totals: &mut [i64], cells: &[i64])
    requires { length cells.now ≡ length totals.old }
    ensures { TakesRow fold 0 cells.now 0 (length cells.now) totals.old totals.new }
{
    match fold {
        Fold::Sum => fold_row(&Sums, totals, 0, cells, 0, cells.len()),
        Fold::Prod => fold_row(&Products, totals, 0, cells, 0, cells.len()),
        Fold::Min => fold_row(&Least, totals, 0, cells, 0, cells.len()),
        Fold::Max => fold_row(&Greatest, totals, 0, cells, 0, cells.len()),
    }
}

// Folds a block into the totals, whichever axes are folded.
fn fold_scattered(
    alloc: Global,
    fold: Fold,
    axes: &[u64],
    shape: &Shape,
    block: &Block,
    totals: &mut [i64],
) -> Result<(), AllocError>
    requires kept { kept_shape 0 block.now.shape axes.now ≡ shape.now }
    requires some { 0 < elements shape.now }
    requires room { length totals.old ≡ elements shape.now }
    ensures { OnOk result (TakesBlock fold axes.now shape.now block.now totals.old totals.new) }
{
    let folded = Shape::of(folded_dims(alloc, block.shape().dims(), axes)?);
    match reduce(alloc, fold, axes, block, &folded, shape.copy(alloc)?) {
        Ok(made) => {
            fold_row_by(fold, totals, made.cells());
            Ok(())
        }
        Err(Fail::OutOfMemory) => Err(AllocError),
        Err(Fail::ZeroDivide { .. }) => unreachable!(),
    }
}

// Folds a block into the totals.
fn fold_block(
    alloc: Global,
    fold: Fold,
    axes: &[u64],
    shape: &Shape,
    block: &Block,
    totals: &mut [i64],
) -> Result<(), AllocError>
    requires kept { kept_shape 0 block.now.shape axes.now ≡ shape.now }
    requires room { length totals.old ≡ elements shape.now }
    ensures { OnOk result (TakesBlock fold axes.now shape.now block.now totals.old totals.new) }
{
    let _ = shape.dims();
    if totals.is_empty() {
        return Ok(());
    }
    if block.cells().is_empty() {
        return fold_scattered(alloc, fold, axes, shape, block, totals);
    }
    match view_of(axes, block.shape().dims()) {
        Some(view) => {
            fold_parts_by(fold, view, block.cells(), totals);
            Ok(())
        }
        None => fold_scattered(alloc, fold, axes, shape, block, totals),
    }
}

// Folds the blocks into the totals, in order.
fn fold_blocks(
    alloc: Global,
    fold: Fold,
    axes: &[u64],
    shape: &Shape,
    blocks: &[Arc<Block>],
    totals: &mut [i64],
) -> Result<(), AllocError>
    requires kept { (k : ℕ) → k < length blocks.now → kept_shape 0 (slice_index_or (shapes_of (blocks_of blocks.now)) k []) axes.now ≡ shape.now }
    requires room { length totals.old ≡ elements shape.now }
    requires start { (p : ℕ) → p < elements shape.now → slice_index_or totals.old p (pos 0) ≡ neutral fold }
    ensures { OnOk result (AreTotals fold axes.now shape.now (blocks_of blocks.now) totals.new) }
{
    for block in blocks {
        fold_block(alloc, fold, axes, shape, block, totals)?;
    }
    Ok(())
}

// What the blocks leave, at each place of the result.
fn totals_of(
    alloc: Global,
    fold: Fold,
    axes: &[u64],
    shape: &Shape,
    blocks: &[Arc<Block>],
) -> Result<Vec<i64>, AllocError>
    requires { (k : ℕ) → k < length blocks.now → kept_shape 0 (slice_index_or (shapes_of (blocks_of blocks.now)) k []) axes.now ≡ shape.now }
    ensures size { IfOk result (λ v. length v.items ≡ elements shape.now) }
    ensures at { IfOk result (λ v. AreTotals fold axes.now shape.now (blocks_of blocks.now) v.items) }
{
    let mut totals = vec![in alloc; neutral(fold); shape.elements() as usize]?;
    fold_blocks(alloc, fold, axes, shape, blocks, totals.as_mut_slice())?;
    Ok(totals)
}

/// The elements along the listed axes folded into one, within each block and then over the blocks in order, as NumPy's
/// `sum`, `prod`, `min` and `max` over axes, and as Dask's reductions put their partial results together.
pub fn reduce_blocks(
    alloc: Global,
    fold: Fold,
    axes: &[u64],
    inputs: &[Arc<Block>],
) -> Result<Block, AllocError>
    requires fits { FitsReduce fold axes.now (shapes_of (blocks_of inputs.now)) }
    requires limits { IsShape (reduced_dims axes.now (blocks_of inputs.now)) }
    ensures { IfOk result (λ block. block_of (reduced_blocks fold axes.now (blocks_of inputs.now)) ≡ Ok block) }
{
    let shape = Shape::of(kept_dims(alloc, input_at(inputs, 0).shape().dims(), axes)?);
    let totals = totals_of(alloc, fold, axes, &shape, inputs)?;
    Ok(Block::new(shape, totals))
}
