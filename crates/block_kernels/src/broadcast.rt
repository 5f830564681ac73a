//! Rows of operands that are broadcast.
ghost use Rattle.std.specs.Prelude.{◌≡◌, ℕ, ◌+◌, ◌-◌, ◌*◌, ◌<◌, ◌≤◌, ◌↔◌, cond, length, get_or, pos, Some, IsTrue};
ghost use Rattle.nd_shape.specs.Shape.{elements};
ghost use Rattle.nd_shape.specs.Index.{IsIn, index_at};
ghost use Rattle.nd_grid.specs.Grid.{grid_of, under};
ghost use Rattle.block_kernels.specs.Rows.{tail, item, FitsRun, HoldsItems, row_count, row_length};

use crate::binary::Run;
use nd_grid::index_under;
use nd_shape::shape::{AXES, elements_up_to_limit};
use nd_shape::{Block, ravel};

// The last axes, so many or all.
fn tail_of(dims: &[u64], axes: usize) -> &[u64]
    ensures { result.now ≡ tail axes dims.now }
{
    let front = dims.len().saturating_sub(axes);
    &dims[front..]
}

// Whether the last axes have one element.
fn is_single(dims: &[u64], axes: usize) -> bool
    ensures { IsTrue result ↔ (elements (tail axes dims.now) ≡ 1) }
{
    elements_up_to_limit(tail_of(dims, axes)) == 1
}

// Whether two lists of lengths are the same.
fn are_same(xs: &[u64], ys: &[u64]) -> bool
    ensures { IsTrue result → xs.now ≡ ys.now }
{
    xs == ys
}

// Whether an operand has a whole row or one element along the axes from `outer` on.
fn fits_run(dims: &[u64], shape: &[u64], outer: usize) -> bool
    requires { outer ≤ length shape.now }
    ensures { IsTrue result → FitsRun dims.now shape.now outer }
{
    let inner = shape.len() - outer;
    is_single(dims, inner) || are_same(tail_of(dims, inner), &shape[outer..])
}

// Whether all of three do.
fn all_fit(first: &[u64], second: &[u64], third: &[u64], shape: &[u64], outer: usize) -> bool
    requires { outer ≤ length shape.now }
    ensures { IsTrue result → FitsRun first.now shape.now outer × FitsRun second.now shape.now outer × FitsRun third.now shape.now outer }
{
    let a = fits_run(first, shape, outer);
    let b = fits_run(second, shape, outer);
    let c = fits_run(third, shape, outer);
    a & b & c
}

// The rows' least number of elements, where the shape has so many: each is written while it is in the cache, and has its own
// place in each operand to be found.
const ROW: u64 = 1024;

// How many axes may stand before the rows: as many as leave them long enough, or none.
fn first_axes(shape: &[u64]) -> usize
    ensures { result ≤ length shape.now }
{
    let mut axes = shape.len();
    while axes > 0 {
        if elements_up_to_limit(&shape[axes..]) >= ROW {
            return axes;
        }
        axes -= 1;
    }
    0
}

/// How many axes stand before the rows of three operands that are broadcast to a shape. The rows are as long as they can be,
/// or `ROW` elements or more. No memory.
pub fn outer_axes(first: &[u64], second: &[u64], third: &[u64], shape: &[u64]) -> usize
    ensures inside { result ≤ length shape.now }
    ensures first { FitsRun first.now shape.now result }
    ensures second { FitsRun second.now shape.now result }
    ensures third { FitsRun third.now shape.now result }
{
    for outer in first_axes(shape)..shape.len() {
        if all_fit(first, second, third, shape, outer) {
            return outer;
        }
    }
    shape.len()
}

// So many elements from a place on, or the one there.
fn run_at(cells: &[i64], at: usize, single: bool, len: usize) -> Run<'_>
    requires { at + cond single 1 len ≤ length cells.now }
    ensures single { result.single ≡ single }
    ensures holds { HoldsItems result.cells.now single len }
    ensures each { (r : ℕ) → r < len → item result.cells.now single r ≡ get_or cells.now (at + cond single 0 r) (pos 0) }
{
    let count = if single { 1 } else { len };
    let end = at + count;
    Run {
        cells: &cells[at..end],
        single,
    }
}

/// The row of an operand that stands under a row of the shape that it is broadcast to. `index` is the index of the row's
/// first element. No memory.
pub fn run_under<'a>(
    block: &'a Block,
    shape: &[u64],
    outer: usize,
    row: u64,
    index: &[u64],
    len: usize,
) -> Run<'a>
    requires outer { outer ≤ length shape.now }
    requires fits { FitsRun block.now.shape shape.now outer }
    requires under { (i : _) → IsIn shape.now i → IsIn block.now.shape (under block.now.shape i) }
    requires row { row < row_count shape.now outer }
    requires len { len ≡ row_length shape.now outer }
    requires some { 0 < len }
    requires index { index.now ≡ index_at shape.now (row * len) }
    ensures holds { HoldsItems result.cells.now result.single len }
    ensures each { (r : ℕ) → r < len → (grid_of block.now).at (under block.now.shape (index_at shape.now (row * len + r)))
        ≡ Some (item result.cells.now result.single r) }
{
    let dims = block.shape().dims();
    let mut room = [0; AXES];
    let own = &mut room[..dims.len()];
    index_under(dims, index, own);
    let at = ravel(block.shape(), own);
    let single = is_single(dims, shape.len() - outer);
    run_at(block.cells(), at as usize, single, len)
}
