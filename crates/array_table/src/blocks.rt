//! What is asked of blocks.
ghost use Rattle.std.specs.Prelude.{◌≡◌, [], ◌∷◌, IfSome};
ghost use Rattle.nd_shape.specs.Region.{IsPart};

use crate::elements::{binary, fold};
use crate::row::Row;
use crate::text::Answer;
use nd_grid::plain::{choose, elementwise, negate, ramp_part, reduce, slice, transpose};
use nd_grid::{Binary, Fail, Fold};
use nd_shape::{Block, Part, Region, Shape, broadcast, broadcast_three, resolve_slice};
use std::alloc::Global;

fn put_block(out: &mut Answer, block: &Block) {
    out.put_cells(block.shape().dims(), block.cells());
}

fn put_made(out: &mut Answer, made: Result<Block, Fail>) {
    match made {
        Ok(block) => put_block(out, &block),
        Err(fail) => out.refuse(fail),
    }
}

fn put_twice(out: &mut Answer, block: &Block) {
    match block.copy(out.alloc()) {
        Ok(copied) => {
            let (shape, cells) = copied.into_parts();
            out.put_cells(shape.dims(), &cells);
        }
        Err(_) => out.fail(),
    }
    put_block(out, block);
}

fn put_combined(out: &mut Answer, op: Binary, left: &Block, right: &Block) {
    let alloc = out.alloc();
    match broadcast(alloc, left.shape(), right.shape()) {
        Ok(shape) => put_made(out, elementwise(alloc, op, left, right, shape)),
        Err(e) => out.refuse(e),
    }
}

fn put_chosen(out: &mut Answer, condition: &Block, yes: &Block, no: &Block) {
    let alloc = out.alloc();
    match broadcast_three(alloc, condition.shape(), yes.shape(), no.shape()) {
        Ok(shape) => put_made(out, choose(alloc, condition, yes, no, shape)),
        Err(e) => out.refuse(e),
    }
}

fn put_negated(out: &mut Answer, block: &Block) {
    let alloc = out.alloc();
    match block.shape().copy(alloc) {
        Ok(shape) => put_made(out, negate(alloc, block, shape)),
        Err(_) => out.fail(),
    }
}

fn put_of(out: &mut Answer, word: &str, blocks: &[Block]) {
    match blocks {
        [block] if word == "block" => put_twice(out, block),
        [block] => put_negated(out, block),
        [left, right] => put_combined(out, binary(word), left, right),
        [condition, yes, no] => put_chosen(out, condition, yes, no),
        _ => out.mark_ill(),
    }
}

/// Of blocks, each by its lengths and elements: `block` puts the parts of a block's copy, and the block; `negate` a block
/// negated; `blocks`, behind an operation, two blocks element by element; `choose` the elements that the first one chooses.
pub fn of_blocks(row: &mut Row, word: &str, count: u64, out: &mut Answer) {
    let blocks = row.blocks(count, out);
    put_of(out, word, &blocks);
}

fn put_ramp(out: &mut Answer, whole: &Shape, region: &Region, start: i64, step: i64)
    requires { IsPart region.now whole.now }
{
    let alloc = out.alloc();
    match region.shape(alloc, whole) {
        Ok(shape) => put_made(out, ramp_part(alloc, whole, region, start, step, shape)),
        Err(_) => out.fail(),
    }
}

fn put_ramp_in(out: &mut Answer, whole: &Shape, region: &Region, start: i64, step: i64) {
    if region.is_part(whole.dims()) {
        put_ramp(out, whole, region, start, step);
    } else {
        out.mark_ill();
    }
}

/// `ramp START STEP STARTS LENGTHS LENGTHS`: a region of a ramp.
pub fn ramp(row: &mut Row, out: &mut Answer) {
    let start = row.number();
    let step = row.number();
    let region = row.region();
    match Shape::new(row.naturals()) {
        Ok(whole) => put_ramp_in(out, &whole, &region, start, step),
        Err(limit) => out.refuse(limit),
    }
}

fn shape_of(alloc: Global, lengths: &[u64]) -> Option<Shape>
    ensures { IfSome result (λ shape. shape ≡ lengths.now) }
{
    let dims = Vec::from_slice(alloc, lengths).ok()?;
    Shape::new(dims).ok()
}

// A block of these lengths.
fn block_with(row: &mut Row, lengths: &[u64]) -> Option<Block>
    ensures { IfSome result (λ block. block.shape ≡ lengths.now) }
{
    let cells = row.numbers();
    let shape = shape_of(row.alloc(), lengths)?;
    row.block_of(shape, cells)
}

fn put_slice(out: &mut Answer, block: &Block, part: &Part)
    requires { block.now.shape ≡ 5 ∷ [] }
{
    let alloc = out.alloc();
    match resolve_slice(5, part) {
        Ok(steps) => match shape_of(alloc, &[steps.count]) {
            Some(shape) => put_made(out, slice(alloc, &[steps], &[], block, shape)),
            None => out.fail(),
        },
        Err(e) => out.refuse(e),
    }
}

/// `taken START STOP STEP ELEMENTS`: what a range takes of five elements.
pub fn taken(row: &mut Row, out: &mut Answer) {
    let start = row.optional();
    let stop = row.optional();
    let step = row.optional();
    match block_with(row, &[5]) {
        Some(block) => put_slice(out, &block, &Part::Range(start, stop, step)),
        None => out.mark_ill(),
    }
}

fn put_turned(out: &mut Answer, table: &Block)
    requires { table.now.shape ≡ 2 ∷ 3 ∷ [] }
{
    let alloc = out.alloc();
    match shape_of(alloc, &[3, 2]) {
        Some(shape) => put_made(out, transpose(alloc, &[1, 0], table, shape)),
        None => out.fail(),
    }
}

/// `turned ELEMENTS`: two rows of three elements, with the axes in another order.
pub fn turned(row: &mut Row, out: &mut Answer) {
    match block_with(row, &[2, 3]) {
        Some(table) => put_turned(out, &table),
        None => out.mark_ill(),
    }
}

fn put_folded(out: &mut Answer, fold: Fold, table: &Block, folded: &Shape)
    requires table { table.now.shape ≡ 2 ∷ 3 ∷ [] }
    requires folded { folded.now ≡ 2 ∷ [] }
{
    let alloc = out.alloc();
    match shape_of(alloc, &[3]) {
        Some(shape) => put_made(out, reduce(alloc, fold, &[0], table, folded, shape)),
        None => out.fail(),
    }
}

fn put_columns(out: &mut Answer, fold: Fold, table: &Block)
    requires { table.now.shape ≡ 2 ∷ 3 ∷ [] }
{
    match shape_of(out.alloc(), &[2]) {
        Some(folded) => put_folded(out, fold, table, &folded),
        None => out.fail(),
    }
}

/// `columns FOLD ELEMENTS`: two rows of three elements, folded along the first axis.
pub fn columns(row: &mut Row, out: &mut Answer) {
    let fold = fold(row.word());
    match block_with(row, &[2, 3]) {
        Some(table) => put_columns(out, fold, &table),
        None => out.mark_ill(),
    }
}
