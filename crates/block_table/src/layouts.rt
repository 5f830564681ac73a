//! What is asked of layouts: `layout WORD SHAPE ..`, where chunks are written `COUNT` and so many `even SIZE` or
//! `list SIZES`.
ghost use Rattle.std.specs.Prelude.{◌≡◌, IfOk, IfSome};
ghost use Rattle.nd_shape.specs.Chunk.{total};
ghost use Rattle.chunk_layout.specs.Layouts.{lengths};
ghost use Rattle.chunk_layout.specs.Slicing.{TakesOf, TakesAll};

use crate::line::Line;
use crate::why::Why;
use chunk_layout::{Cuts, Layout, Levels, blocks_of, normalize, plan, slice_layout, tree, unify};
use nd_shape::{ChunkSpec, Part, Pieces, Region, Shape, Steps, is_inside, resolve_slice};
use std::alloc::AllocError;

// Puts the sizes of the chunks of each axis.
fn put_layout(line: &mut Line, layout: &Layout) {
    for cuts in layout.axes() {
        line.put_list(cuts.sizes());
    }
}

fn put_made(line: &mut Line, made: Result<Layout, AllocError>) {
    match made {
        Ok(layout) => put_layout(line, &layout),
        Err(_) => line.fail(),
    }
}

// A layout of a shape, from specifications of chunks.
fn layout(line: &mut Line, shape: &Shape) -> Option<Layout>
    ensures { IfSome result (λ layout. lengths layout ≡ shape.now) }
{
    let specs = line.specs();
    match normalize(line.alloc(), shape, &specs) {
        Ok(layout) => Some(layout),
        Err(e) => {
            line.refuse(Why::Chunks(e));
            None
        }
    }
}

fn put_count(line: &mut Line, shape: &Shape, specs: &[ChunkSpec]) {
    match blocks_of(shape, specs) {
        Ok(count) => line.put_item(" ", &count),
        Err(e) => line.refuse(Why::Chunks(e)),
    }
}

// `count SHAPE CHUNKS`: how many blocks there would be, without making a layout.
fn count(line: &mut Line) {
    if let Some(shape) = line.shape() {
        let specs = line.specs();
        put_count(line, &shape, &specs);
    }
}

fn put_block(line: &mut Line, layout: &Layout, block: u64) {
    if block >= layout.blocks() {
        return line.mark_ill();
    }
    let mut region = Region::new();
    layout.block_region(block, &mut region);
    line.put_region(&region);
}

fn put_number(line: &mut Line, shape: &Shape, layout: &Layout, index: &[u64])
    requires { lengths layout.now ≡ shape.now }
{
    if is_inside(shape, index) {
        line.put_item(" ", &layout.block_of(index));
    } else {
        line.mark_ill();
    }
}

// `START STOP STEP`, where `-` leaves one out: what a range takes of an axis.
fn part(line: &mut Line, cuts: &Cuts) -> Result<Steps, Why>
    ensures { IfOk result (λ steps. TakesOf (total cuts.now) steps) }
{
    let start = line.optional();
    let stop = line.optional();
    let step = line.optional();
    Ok(resolve_slice(cuts.len(), &Part::Range(start, stop, step))?)
}

fn parts(line: &mut Line, axes: &[Cuts]) -> Result<Vec<Steps>, Why>
    ensures { IfOk result (λ list. TakesAll axes.now list.items) }
{
    let mut list = Vec::new(line.alloc());
    for cuts in axes {
        list.push(part(line, cuts)?)?;
    }
    Ok(list)
}

fn put_slice(line: &mut Line, layout: &Layout) {
    match parts(line, layout.axes()) {
        Ok(parts) => put_made(line, slice_layout(line.alloc(), layout, &parts)),
        Err(why) => line.refuse(why),
    }
}

// What is asked of one layout: `of SHAPE CHUNKS`, the sizes of the chunks on each axis; `blocks SHAPE CHUNKS`, how many
// blocks the layout has; `region BLOCK SHAPE CHUNKS`, the box of indexes of a block; `slice SHAPE CHUNKS RANGES`, the
// layout of a slice, with a range for each axis.
fn put_of(line: &mut Line, word: &str, layout: &Layout, block: u64) {
    match word {
        "of" => put_layout(line, layout),
        "blocks" => line.put_item(" ", &layout.blocks()),
        "region" => put_block(line, layout, block),
        "slice" => put_slice(line, layout),
        _ => line.mark_ill(),
    }
}

fn of_shape(line: &mut Line, word: &str, shape: &Shape, block: u64) {
    if let Some(layout) = layout(line, shape) {
        put_of(line, word, &layout, block);
    }
}

fn of_one(line: &mut Line, word: &str) {
    let block = if word == "region" { line.natural() } else { 0 };
    if let Some(shape) = line.shape() {
        of_shape(line, word, &shape, block);
    }
}

fn put_number_of(line: &mut Line, shape: &Shape, index: &[u64]) {
    if let Some(layout) = layout(line, shape) {
        put_number(line, shape, &layout, index);
    }
}

// `block INDEX SHAPE CHUNKS`: the block in which an index lies.
fn block(line: &mut Line) {
    let index = line.naturals();
    if let Some(shape) = line.shape() {
        put_number_of(line, &shape, &index);
    }
}

fn put_all_pieces(line: &mut Line, pieces: &Pieces) {
    for piece in pieces.as_slice() {
        line.put_piece(piece);
    }
}

fn put_plan(line: &mut Line, from: &Layout, to: &Layout, block: u64)
    requires { lengths from.now ≡ lengths to.now }
{
    if block >= to.blocks() {
        return line.mark_ill();
    }
    match plan(line.alloc(), from, to, block) {
        Ok(pieces) => put_all_pieces(line, &pieces),
        Err(_) => line.fail(),
    }
}

// What is asked of two layouts of one shape: `unify SHAPE CHUNKS CHUNKS`, the layout that is cut wherever one of them is;
// `plan BLOCK SHAPE CHUNKS CHUNKS`, what a block of the second is made of in the first.
fn put_of_two(line: &mut Line, word: &str, first: &Layout, second: &Layout, block: u64)
    requires { lengths first.now ≡ lengths second.now }
{
    if word == "unify" {
        put_made(line, unify(line.alloc(), first, second));
    } else {
        put_plan(line, first, second, block);
    }
}

fn of_second(line: &mut Line, word: &str, shape: &Shape, first: &Layout, block: u64)
    requires { lengths first.now ≡ shape.now }
{
    if let Some(second) = layout(line, shape) {
        put_of_two(line, word, first, &second, block);
    }
}

fn of_first(line: &mut Line, word: &str, shape: &Shape, block: u64) {
    if let Some(first) = layout(line, shape) {
        of_second(line, word, shape, &first, block);
    }
}

fn of_two(line: &mut Line, word: &str) {
    let block = if word == "plan" { line.natural() } else { 0 };
    if let Some(shape) = line.shape() {
        of_first(line, word, &shape, block);
    }
}

// Puts the sizes of the groups of each level.
fn put_levels(line: &mut Line, levels: &Levels) {
    for sizes in levels.as_slice() {
        line.put_list(sizes.as_slice());
    }
}

// `tree PARTIALS SPLIT`: the sizes of the groups of each level.
fn folded(line: &mut Line) {
    let partials = line.natural();
    let split = line.natural();
    if partials >= 4294967296 || split >= 4294967296 || split < 2 {
        return line.mark_ill();
    }
    match tree(line.alloc(), partials as u32, split as u32) {
        Ok(levels) => put_levels(line, &levels),
        Err(_) => line.fail(),
    }
}

/// Answers by the next word.
pub fn answer(line: &mut Line) {
    let word = line.word();
    match word {
        "count" => count(line),
        "block" => block(line),
        "unify" | "plan" => of_two(line, word),
        "tree" => folded(line),
        _ => of_one(line, word),
    }
}
