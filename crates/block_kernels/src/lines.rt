//! Blocks whose rows lie in an operand at equal distances. They are made a strip of rows at a time, tile by tile: what the
//! rows of a tile read lies in few lines of the cache.
ghost use Rattle.std.specs.Prelude.{◌≡◌, ℕ, ℤ, List, ◌+◌, ◌*◌, ◌<◌, ◌≤◌, ◌^◌, length, get_or, pos, IfOk, OnOk, [], Ok, Some};
ghost use Rattle.nd_shape.specs.Shape.{elements};
ghost use Rattle.nd_grid.specs.Grid.{Grid, block_of};
ghost use Rattle.block_kernels.specs.Rows.{at_place, FillsAll, row_count, row_length};
ghost use Rattle.block_kernels.specs.Gathers.{IsSpot, IsRow, IsLine, HasTaken};

use crate::gather::gather;
use crate::rows::row_sizes;
use nd_grid::element::dims_of;
use nd_shape::{Block, Shape};
use std::alloc::{AllocError, Global};

// How many rows a strip has, and how many elements of each a tile has.
const SIDE: usize = 16;

// Places less far apart than this lie in one line of the cache.
const CLOSE: usize = 8;

/// What has an element of an operand at each index of a shape, and whose rows lie there at equal distances: a row goes
/// along all axes but the first ones.
pub trait Lines {
    ghost grid: { Self → Grid };

    ghost outer: { Self → ℕ };

    ghost source: { Self → List ℤ };

    ghost valid: { Self → Type 0 };

    /// The places in the operand of a row's first element and of its second, or of the first where there is no second.
    /// No memory.
    fn line(&self, row: u64, run: u64) -> (usize, usize)
        requires valid { valid self.now }
        requires inside { row < row_count (grid self.now).shape (outer self.now) }
        requires run { run ≡ row_length (grid self.now).shape (outer self.now) }
        requires some { 0 < run }
        ensures { IsLine (grid self.now) (source self.now) (row * run) run result.0 result.1 };
}

// A piece of a row, from one of its elements on.
fn fill_piece(
    cells: &[i64],
    first: usize,
    second: usize,
    from: usize,
    place: usize,
    count: usize,
    out: &mut [i64],
)
    requires row { IsRow (length cells.now) first second (from + count) }
    requires few { length cells.now ≤ 2 ^ 31 }
    requires some { 0 < count }
    requires room { place + count ≤ length out.old }
    ensures len { length out.new ≡ length out.old }
    ensures made { (i p : ℕ) → i < count → IsSpot first second (from + i) p → get_or out.new (place + i) (pos 0) ≡ get_or cells.now p (pos 0) }
    ensures before { (q : ℕ) → q < place → get_or out.new q (pos 0) ≡ get_or out.old q (pos 0) }
    ensures after { (q : ℕ) → place + count ≤ q → get_or out.new q (pos 0) ≡ get_or out.old q (pos 0) }
{
    let part = &mut out[place..place + count];
    gather(cells, first, second, from, part);
}

// A tile: the same piece of each row.
fn fill_tile(
    cells: &[i64],
    firsts: &[usize],
    seconds: &[usize],
    run: usize,
    from: usize,
    to: usize,
    out: &mut [i64],
)
    requires pairs { length seconds.now ≡ length firsts.now }
    requires rows { (k : ℕ) → k < length firsts.now → IsRow (length cells.now) (get_or firsts.now k 0) (get_or seconds.now k 0) run }
    requires few { length cells.now ≤ 2 ^ 31 }
    requires some { from < to }
    requires inside { to ≤ run }
    requires room { length out.old ≡ length firsts.now * run }
    requires small { length out.old ≤ 2 ^ 31 }
    ensures len { length out.new ≡ length out.old }
    ensures made { (k i : ℕ) → k < length firsts.now → from ≤ i → i < to → HasTaken cells.now (get_or firsts.now k 0) (get_or seconds.now k 0) run k i out.new }
    ensures kept { (k i : ℕ) → k < length firsts.now → i < from → get_or out.new (k * run + i) (pos 0) ≡ get_or out.old (k * run + i) (pos 0) }
{
    for k in 0..firsts.len() {
        fill_piece(
            cells,
            firsts[k],
            seconds[k],
            from,
            k * run + from,
            to - from,
            out,
        );
    }
}

// A strip: rows, tile by tile.
fn fill_strip(
    cells: &[i64],
    firsts: &[usize],
    seconds: &[usize],
    run: usize,
    width: usize,
    out: &mut [i64],
)
    requires pairs { length seconds.now ≡ length firsts.now }
    requires rows { (k : ℕ) → k < length firsts.now → IsRow (length cells.now) (get_or firsts.now k 0) (get_or seconds.now k 0) run }
    requires few { length cells.now ≤ 2 ^ 31 }
    requires wide { 0 < width }
    requires narrow { width ≤ 2 ^ 31 }
    requires short { run ≤ 2 ^ 31 }
    requires room { length out.old ≡ length firsts.now * run }
    requires small { length out.old ≤ 2 ^ 31 }
    ensures len { length out.new ≡ length out.old }
    ensures made { (k i : ℕ) → k < length firsts.now → i < run → HasTaken cells.now (get_or firsts.now k 0) (get_or seconds.now k 0) run k i out.new }
{
    let mut from = 0;
    while from < run {
        let to = run.min(from + width);
        fill_tile(cells, firsts, seconds, run, from, to, out);
        from = to;
    }
}

// How far apart two places are.
fn distance(first: usize, second: usize) -> usize {
    if second < first {
        first - second
    } else {
        second - first
    }
}

// How many elements of each row a tile has: all where the places of a row lie close together.
fn tile_width(first: usize, second: usize, run: usize) -> usize
    requires some { 0 < run }
    requires short { run ≤ 2 ^ 31 }
    ensures wide { 0 < result }
    ensures narrow { result ≤ 2 ^ 31 }
{
    if distance(first, second) < CLOSE {
        run
    } else {
        SIDE
    }
}

// The places in the operand of the first and of the second element of rows.
fn find_lines<F: Lines>(
    formula: &F,
    row: u64,
    run: u64,
    firsts: &mut [usize],
    seconds: &mut [usize],
)
    requires valid { F.valid formula.now }
    requires inside { row + length firsts.old ≤ row_count (F.grid formula.now).shape (F.outer formula.now) }
    requires run { run ≡ row_length (F.grid formula.now).shape (F.outer formula.now) }
    requires some { 0 < run }
    requires small { row + length firsts.old ≤ 2 ^ 31 }
    requires pairs { length seconds.old ≡ length firsts.old }
    ensures firsts { length firsts.new ≡ length firsts.old }
    ensures seconds { length seconds.new ≡ length firsts.old }
    ensures each { (k : ℕ) → k < length firsts.old
        → IsLine (F.grid formula.now) (F.source formula.now) ((row + k) * run) run (get_or firsts.new k 0) (get_or seconds.new k 0) }
{
    for k in 0..firsts.len() {
        let (first, second) = formula.line(row + k as u64, run);
        firsts[k] = first;
        seconds[k] = second;
    }
}

// A strip, written where it lies among all elements.
fn strip_at<F: Lines>(
    formula: &F,
    row: u64,
    many: usize,
    run: u64,
    source: &[i64],
    cells: &mut [i64],
)
    requires valid { F.valid formula.now }
    requires source { F.source formula.now ≡ source.now }
    requires inside { row + many ≤ row_count (F.grid formula.now).shape (F.outer formula.now) }
    requires run { run ≡ row_length (F.grid formula.now).shape (F.outer formula.now) }
    requires some { 0 < run }
    requires rows { 0 < many }
    requires strip { many ≤ 16 }
    requires few { length source.now ≤ 2 ^ 31 }
    requires room { length cells.old ≡ (row + many) * run }
    requires small { length cells.old ≤ 2 ^ 31 }
    ensures len { length cells.new ≡ length cells.old }
    ensures kept { (p : ℕ) → p < row * run → get_or cells.new p (pos 0) ≡ get_or cells.old p (pos 0) }
    ensures filled { (r : ℕ) → r < many * run → at_place (F.grid formula.now) (row * run + r) ≡ Some (get_or cells.new (row * run + r) (pos 0)) }
{
    let mut room = [0; SIDE];
    let firsts = &mut room[..many];
    let mut space = [0; SIDE];
    let seconds = &mut space[..many];
    find_lines(formula, row, run, firsts, seconds);
    let width = tile_width(firsts[0], seconds[0], run as usize);
    let start = (row * run) as usize;
    let part = &mut cells[start..];
    fill_strip(source, firsts, seconds, run as usize, width, part);
}

// A strip behind the rows that are there. It is filled while the zeros that it begins as are in the cache.
fn append_strip<F: Lines>(
    formula: &F,
    row: u64,
    many: u64,
    run: u64,
    source: &[i64],
    cells: &mut Vec<i64>,
) -> Result<(), AllocError>
    requires valid { F.valid formula.now }
    requires source { F.source formula.now ≡ source.now }
    requires inside { row + many ≤ row_count (F.grid formula.now).shape (F.outer formula.now) }
    requires run { run ≡ row_length (F.grid formula.now).shape (F.outer formula.now) }
    requires some { 0 < run }
    requires rows { 0 < many }
    requires strip { many ≤ 16 }
    requires few { length source.now ≤ 2 ^ 31 }
    requires room { length cells.old.items ≡ row * run }
    requires small { (row + many) * run ≤ 2 ^ 31 }
    ensures len { OnOk result (length cells.new.items ≡ (row + many) * run) }
    ensures kept { OnOk result ((p : ℕ) → p < row * run → get_or cells.new.items p (pos 0) ≡ get_or cells.old.items p (pos 0)) }
    ensures filled { OnOk result ((r : ℕ) → r < many * run
        → at_place (F.grid formula.now) (row * run + r) ≡ Some (get_or cells.new.items (row * run + r) (pos 0))) }
{
    let end = (row + many) * run;
    cells.resize(end as usize, 0)?;
    strip_at(
        formula,
        row,
        many as usize,
        run,
        source,
        cells.as_mut_slice(),
    );
    Ok(())
}

// All rows.
fn append_strips<F: Lines>(
    formula: &F,
    rows: u64,
    run: u64,
    source: &[i64],
    cells: &mut Vec<i64>,
) -> Result<(), AllocError>
    requires valid { F.valid formula.now }
    requires source { F.source formula.now ≡ source.now }
    requires rows { rows ≡ row_count (F.grid formula.now).shape (F.outer formula.now) }
    requires run { run ≡ row_length (F.grid formula.now).shape (F.outer formula.now) }
    requires some { 0 < run }
    requires few { length source.now ≤ 2 ^ 31 }
    requires none { cells.old.items ≡ [] }
    requires small { rows * run ≤ 2 ^ 31 }
    ensures len { OnOk result (length cells.new.items ≡ rows * run) }
    ensures filled { OnOk result (FillsAll (F.grid formula.now) (rows * run) cells.new.items) }
{
    let mut row = 0;
    while row < rows {
        let many = (rows - row).min(SIDE as u64);
        append_strip(formula, row, many, run, source, cells)?;
        row += many;
    }
    Ok(())
}

// All elements.
fn cells_of<F: Lines>(
    alloc: Global,
    formula: &F,
    of: &Block,
    outer: usize,
    shape: &Shape,
) -> Result<Vec<i64>, AllocError>
    requires valid { F.valid formula.now }
    requires source { F.source formula.now ≡ of.now.cells }
    requires same { (F.grid formula.now).shape ≡ shape.now }
    requires outer { F.outer formula.now ≡ outer }
    requires axes { outer ≤ length shape.now }
    ensures len { IfOk result (λ v. length v.items ≡ elements shape.now) }
    ensures ok { IfOk result (λ v. FillsAll (F.grid formula.now) (elements shape.now) v.items) }
{
    let _ = dims_of(of);
    let count = shape.elements();
    let mut cells = Vec::with_capacity(alloc, count as usize)?;
    if count == 0 {
        return Ok(cells);
    }
    let (rows, run) = row_sizes(shape, outer);
    append_strips(formula, rows, run, of.cells(), &mut cells)?;
    Ok(cells)
}

/// The block of a formula. The rows go along all but the first `outer` axes.
pub fn tabulate_lines<F: Lines>(
    alloc: Global,
    formula: &F,
    of: &Block,
    outer: usize,
    shape: Shape,
) -> Result<Block, AllocError>
    requires valid { F.valid formula.now }
    requires source { F.source formula.now ≡ of.now.cells }
    requires same { (F.grid formula.now).shape ≡ shape }
    requires outer { F.outer formula.now ≡ outer }
    requires axes { outer ≤ length shape }
    ensures ok { IfOk result (λ block. block_of (F.grid formula.now) ≡ Ok block) }
    ensures dims { IfOk result (λ block. block.shape ≡ shape) }
{
    let cells = cells_of(alloc, formula, of, outer, &shape)?;
    Ok(Block::new(shape, cells))
}
