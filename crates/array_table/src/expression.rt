//! What is asked of expressions.
ghost use Rattle.std.specs.Prelude.{◌<◌, ◌^◌, All, IfSome, length};

use crate::inputs::have_blocks;
use crate::operation::operation;
use crate::row::Row;
use crate::text::Answer;
use array_expr::{Expr, NodeId, Op, Span, Spans};
use input_regions::needed_regions;
use nd_shape::{Block, Dims, Region, Specs};
use node_reach::needed;
use plain_eval::{Held, PlainOutcome, evaluate, evaluate_all};

// The most nodes of a line.
const MOST: usize = 64;

// Adds the node that the words stand for, and tells whether there is one more.
fn add_node(row: &mut Row, expr: &mut Expr, out: &mut Answer) -> bool {
    match operation(row, expr.nodes().len() as u32) {
        Some(op) => match expr.add_node(op) {
            Ok(_) => true,
            Err(e) => {
                out.refuse(e);
                false
            }
        },
        None => {
            out.mark_ill();
            false
        }
    }
}

/// The expression whose nodes the words stand for, up to one that is refused.
pub fn expression(row: &mut Row, out: &mut Answer) -> Expr {
    let mut expr = Expr::new(row.alloc());
    for _ in 0..MOST {
        if row.is_empty() || !add_node(row, &mut expr, out) {
            break;
        }
    }
    expr
}

/// The last node.
pub fn last_node(expr: &Expr) -> Option<NodeId>
    ensures { IfSome result (λ node. node < length expr.now) }
{
    let count = expr.nodes().len();
    if count == 0 {
        return None;
    }
    Some(NodeId::new(count as u32 - 1))
}

/// Puts what a region of a node is, or the first place in the region that met a zero divisor.
pub fn put_outcome(out: &mut Answer, outcome: &PlainOutcome) {
    match outcome {
        PlainOutcome::Values(block) => out.put_cells(block.shape().dims(), block.cells()),
        PlainOutcome::Zero { position, .. } => {
            out.put(" zero divisor at");
            out.put_item(*position);
        }
    }
}

fn put_part(out: &mut Answer, expr: &Expr, node: NodeId, region: &Region, blocks: &[Block])
    requires { node < length expr.now }
{
    if !region.is_part(expr.shape_of(node).dims()) {
        return out.mark_ill();
    }
    if !have_blocks(expr.nodes(), node.number() as usize + 1, blocks) {
        return out.mark_ill();
    }
    match evaluate(out.alloc(), expr, node, region, blocks) {
        Ok(outcome) => put_outcome(out, &outcome),
        Err(_) => out.fail(),
    }
}

// The array of the last node, which needs no input.
fn put_whole(out: &mut Answer, expr: &Expr) {
    match last_node(expr) {
        Some(node) => {
            let region = Region::whole(expr.shape_of(node).dims());
            put_part(out, expr, node, &region, &[]);
        }
        None => out.mark_ill(),
    }
}

// A region of the last node over the blocks of its inputs.
fn put_last(out: &mut Answer, expr: &Expr, region: &Region, blocks: &[Block]) {
    match last_node(expr) {
        Some(node) => put_part(out, expr, node, region, blocks),
        None => out.mark_ill(),
    }
}

fn put_held(out: &mut Answer, held: &Held) {
    out.put(" |");
    out.put_items(held.dims());
    out.put(" :");
    for cell in held.cells() {
        out.put_maybe(*cell);
    }
}

fn put_arrays(out: &mut Answer, arrays: &[Held]) {
    for held in arrays {
        put_held(out, held);
    }
}

// The array of each node over the blocks of the inputs.
fn put_all(out: &mut Answer, expr: &Expr, blocks: &[Block]) {
    let nodes = expr.nodes();
    if !have_blocks(nodes, nodes.len(), blocks) {
        return out.mark_ill();
    }
    match evaluate_all(out.alloc(), expr, blocks) {
        Ok(arrays) => put_arrays(out, &arrays),
        Err(_) => out.fail(),
    }
}

fn put_regions(out: &mut Answer, regions: &[Option<Region>]) {
    for region in regions {
        match region {
            Some(region) => out.put_region(region),
            None => out.put(" none"),
        }
    }
}

fn put_needs_of(out: &mut Answer, expr: &Expr, node: NodeId, region: &Region)
    requires { node < length expr.now }
{
    if !region.is_part(expr.shape_of(node).dims()) {
        return out.mark_ill();
    }
    match needed_regions(out.alloc(), expr, node, region) {
        Ok(regions) => put_regions(out, &regions),
        Err(_) => out.fail(),
    }
}

// What a region of the last node needs of each node.
fn put_needs(out: &mut Answer, expr: &Expr, region: &Region) {
    match last_node(expr) {
        Some(node) => put_needs_of(out, expr, node, region),
        None => out.mark_ill(),
    }
}

// Nodes among the first so many.
fn roots(out: &mut Answer, numbers: &[u64], count: usize) -> Vec<NodeId>
    requires { count < 2 ^ 32 }
    ensures { All (λ k. k < count) result.items }
{
    let mut roots = Vec::new(out.alloc());
    for number in numbers {
        if *number < count as u64 {
            let added = roots.push(NodeId::new(*number as u32));
            if added.is_err() {
                out.fail();
            }
        }
    }
    roots
}

fn put_marks(out: &mut Answer, marks: &[bool]) {
    for (node, mark) in marks.iter().enumerate() {
        if *mark {
            out.put_item(node);
        }
    }
}

// The nodes that are needed for these.
fn put_reached(out: &mut Answer, expr: &Expr, numbers: &[u64]) {
    let roots = roots(out, numbers, expr.nodes().len());
    match needed(out.alloc(), expr, &roots) {
        Ok(marks) => put_marks(out, &marks),
        Err(_) => out.fail(),
    }
}

// Answers what is asked of an expression that was read.
fn put_of(
    word: &str,
    expr: &Expr,
    region: &Region,
    roots: &[u64],
    blocks: &[Block],
    out: &mut Answer,
) {
    match word {
        "eval" => put_whole(out, expr),
        "part" => put_last(out, expr, region, blocks),
        "all" => put_all(out, expr, blocks),
        "needs" => put_needs(out, expr, region),
        _ => put_reached(out, expr, roots),
    }
}

// The region that `part` and `needs` ask for.
fn region_for(word: &str, row: &mut Row) -> Region {
    match word {
        "part" | "needs" => row.region(),
        _ => Region::new(),
    }
}

// The nodes that `reach` asks for.
fn roots_for(word: &str, row: &mut Row) -> Vec<u64> {
    match word {
        "reach" => row.naturals(),
        _ => Vec::new(row.alloc()),
    }
}

// The blocks that `part` and `all` give.
fn blocks_for(word: &str, row: &mut Row, out: &mut Answer) -> Vec<Block> {
    match word {
        "part" | "all" => {
            let count = row.natural();
            row.blocks(count, out)
        }
        _ => Vec::new(row.alloc()),
    }
}

/// Of an expression: `eval NODES`, the array of the last node, which needs no input; `part STARTS LENGTHS COUNT BLOCKS
/// NODES`, a region of the last node over the blocks of its inputs; `all COUNT BLOCKS NODES`, the array of each node over
/// them; `needs STARTS LENGTHS NODES`, what a region of the last node needs of each node; `reach ROOTS NODES`, the nodes
/// that are needed for these.
pub fn of_expression(word: &str, row: &mut Row, out: &mut Answer) {
    let region = region_for(word, row);
    let roots = roots_for(word, row);
    let blocks = blocks_for(word, row, out);
    let expr = expression(row, out);
    if !out.is_refused() {
        put_of(word, &expr, &region, &roots, &blocks, out);
    }
}

// One more node, and its place in a text.
fn add_point(out: &mut Answer, expr: &mut Expr, places: &mut Spans) {
    let alloc = out.alloc();
    let op = Op::Full {
        dims: Dims::new(alloc),
        value: 7,
        chunks: Specs::new(alloc),
    };
    match expr.add_node(op) {
        Ok(node) => {
            let added = places.push(Span {
                line: node.number(),
                column: 1,
            });
            out.keep(added);
        }
        Err(e) => out.refuse(e),
    }
}

/// `fill COUNT`: so many nodes, how many there are, and why there aren't more.
pub fn fill(row: &mut Row, out: &mut Answer) {
    let mut expr = Expr::new(row.alloc());
    let mut places = Spans::new(row.alloc());
    let mut refusal = Answer::new(row.alloc());
    for _ in 0..row.natural() {
        add_point(&mut refusal, &mut expr, &mut places);
    }
    out.put_item(expr.nodes().len());
    out.put(" nodes,");
    out.put_item(places.as_slice().len());
    out.put(" places");
    if refusal.is_refused() {
        out.put(",");
        out.put(refusal.as_str());
    }
}
