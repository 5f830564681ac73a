//! Blocks made a row at a time.
ghost use Rattle.std.specs.Prelude.{◌≡◌, ℕ, ◌+◌, ◌*◌, ◌<◌, ◌≤◌, ◌^◌, length, get_or, pos, IfOk, IfErr, IfSome, IfNone, OnOk, [], Ok, Some};
ghost use Rattle.nd_shape.specs.Shape.{elements};
ghost use Rattle.nd_grid.specs.Grid.{Grid, block_of};
ghost use Rattle.nd_grid.specs.Computed.{FailsAs};
ghost use Rattle.block_kernels.specs.Rows.{at_place, Fills, Misses, FillsAll, row_count, row_length, AreRows, FailsFirst, FailsWithin};

use nd_grid::Fail;
use nd_shape::shape::elements_up_to_limit;
use nd_shape::{Block, Shape};
use std::alloc::{AllocError, Global};

/// What has an element, or nothing, at each index of a shape, a row at a time: a row goes along all axes but the first
/// ones.
pub trait Rows {
    ghost grid: { Self → Grid };

    ghost outer: { Self → ℕ };

    ghost valid: { Self → Type 0 };

    /// Writes a row, or tells the first place in it at which there is nothing. No memory.
    fn fill(&self, row: u64, out: &mut [i64]) -> Option<u64>
        requires valid { valid self.now }
        requires inside { row < row_count (grid self.now).shape (outer self.now) }
        requires room { length out.old ≡ row_length (grid self.now).shape (outer self.now) }
        requires some { 0 < length out.old }
        ensures len { length out.new ≡ length out.old }
        ensures filled { IfNone result (Fills (grid self.now) (row * length out.old) (length out.old) out.new) }
        ensures missing { IfSome result (λ z. Misses (grid self.now) (row * length out.old) (length out.old) z) };
}

// A row, written where it lies among all elements.
fn fill_at<F: Rows>(formula: &F, row: u64, run: u64, cells: &mut [i64]) -> Option<u64>
    requires valid { F.valid formula.now }
    requires inside { row < row_count (F.grid formula.now).shape (F.outer formula.now) }
    requires run { run ≡ row_length (F.grid formula.now).shape (F.outer formula.now) }
    requires some { 0 < run }
    requires room { row * run + run ≤ length cells.old }
    requires small { length cells.old ≤ 2 ^ 31 }
    ensures len { length cells.new ≡ length cells.old }
    ensures kept { (p : ℕ) → p < row * run → get_or cells.new p (pos 0) ≡ get_or cells.old p (pos 0) }
    ensures filled { IfNone result ((r : ℕ) → r < run → at_place (F.grid formula.now) (row * run + r) ≡ Some (get_or cells.new (row * run + r) (pos 0))) }
    ensures missing { IfSome result (λ z. Misses (F.grid formula.now) (row * run) run z) }
{
    let start = (row * run) as usize;
    let end = start + run as usize;
    let part = &mut cells[start..end];
    formula.fill(row, part)
}

// A row behind those that are there. It is filled while the zeros that it begins as are in the cache.
fn append_row<F: Rows>(
    formula: &F,
    row: u64,
    run: u64,
    cells: &mut Vec<i64>,
) -> Result<Option<u64>, AllocError>
    requires valid { F.valid formula.now }
    requires inside { row < row_count (F.grid formula.now).shape (F.outer formula.now) }
    requires run { run ≡ row_length (F.grid formula.now).shape (F.outer formula.now) }
    requires some { 0 < run }
    requires room { length cells.old.items ≡ row * run }
    requires small { row * run + run ≤ 2 ^ 31 }
    ensures len { OnOk result (length cells.new.items ≡ row * run + run) }
    ensures kept { OnOk result ((p : ℕ) → p < row * run → get_or cells.new.items p (pos 0) ≡ get_or cells.old.items p (pos 0)) }
    ensures filled { IfOk result (λ missed. IfNone missed ((r : ℕ) → r < run
        → at_place (F.grid formula.now) (row * run + r) ≡ Some (get_or cells.new.items (row * run + r) (pos 0)))) }
    ensures missing { IfOk result (λ missed. IfSome missed (λ z. Misses (F.grid formula.now) (row * run) run z)) }
{
    let end = row * run + run;
    cells.resize(end as usize, 0)?;
    Ok(fill_at(formula, row, run, cells.as_mut_slice()))
}

// All rows, or the first place at which there is nothing.
fn append_rows<F: Rows>(formula: &F, rows: u64, run: u64, cells: &mut Vec<i64>) -> Result<(), Fail>
    requires valid { F.valid formula.now }
    requires rows { rows ≡ row_count (F.grid formula.now).shape (F.outer formula.now) }
    requires run { run ≡ row_length (F.grid formula.now).shape (F.outer formula.now) }
    requires some { 0 < run }
    requires none { cells.old.items ≡ [] }
    requires small { rows * run ≤ 2 ^ 31 }
    ensures len { OnOk result (length cells.new.items ≡ rows * run) }
    ensures filled { OnOk result (FillsAll (F.grid formula.now) (rows * run) cells.new.items) }
    ensures missing { IfErr result (FailsWithin (F.grid formula.now) (rows * run)) }
{
    for row in 0..rows {
        match append_row(formula, row, run, cells)? {
            Some(place) => {
                return Err(Fail::ZeroDivide {
                    position: row * run + place,
                });
            }
            None => {}
        }
    }
    Ok(())
}

/// How many rows there are, and their length. No memory.
pub fn row_sizes(shape: &Shape, outer: usize) -> (u64, u64)
    requires axes { outer ≤ length shape.now }
    requires some { 0 < elements shape.now }
    ensures { AreRows shape.now outer result.0 result.1 }
{
    let (front, back) = shape.dims().split_at(outer);
    let rows = elements_up_to_limit(front);
    let run = elements_up_to_limit(back);
    (rows, run)
}

// All elements.
fn cells_of<F: Rows>(
    alloc: Global,
    formula: &F,
    outer: usize,
    shape: &Shape,
) -> Result<Vec<i64>, Fail>
    requires valid { F.valid formula.now }
    requires same { (F.grid formula.now).shape ≡ shape.now }
    requires outer { F.outer formula.now ≡ outer }
    requires axes { outer ≤ length shape.now }
    ensures len { IfOk result (λ v. length v.items ≡ elements shape.now) }
    ensures ok { IfOk result (λ v. FillsAll (F.grid formula.now) (elements shape.now) v.items) }
    ensures err { IfErr result (FailsFirst (F.grid formula.now)) }
{
    let count = shape.elements();
    let mut cells = Vec::with_capacity(alloc, count as usize)?;
    if count == 0 {
        return Ok(cells);
    }
    let (rows, run) = row_sizes(shape, outer);
    append_rows(formula, rows, run, &mut cells)?;
    Ok(cells)
}

/// The block of a formula, or the first place at which it has nothing. The rows go along all but the first `outer` axes.
pub fn tabulate_rows<F: Rows>(
    alloc: Global,
    formula: &F,
    outer: usize,
    shape: Shape,
) -> Result<Block, Fail>
    requires valid { F.valid formula.now }
    requires same { (F.grid formula.now).shape ≡ shape }
    requires outer { F.outer formula.now ≡ outer }
    requires axes { outer ≤ length shape }
    ensures ok { IfOk result (λ block. block_of (F.grid formula.now) ≡ Ok block) }
    ensures dims { IfOk result (λ block. block.shape ≡ shape) }
    ensures err { IfErr result (λ e. FailsAs e (block_of (F.grid formula.now))) }
{
    let cells = cells_of(alloc, formula, outer, &shape)?;
    Ok(Block::new(shape, cells))
}
