//! What is asked of expressions over two files in memory.
ghost use Rattle.std.specs.Prelude.{◌≡◌, ◌<◌, ◌+◌, List, length};
ghost use Rattle.io_edge.specs.Content.{Content};
ghost use Rattle.nd_shape.specs.Region.{IsPart};
ghost use Rattle.array_expr.specs.Node.{shape_at};
ghost use Rattle.plain_block.specs.Files.{HaveFiles};

use crate::expression::{expression, last_node, put_outcome};
use crate::inputs::have_files;
use crate::row::Row;
use crate::text::Answer;
use array_expr::{Expr, NodeId};
use io_edge::{Counted, Kind, MemorySite, Refusal, Site};
use nd_shape::{Block, Region};
use npy_codec::{Head, NpyError, write_head};
use plain_block::{PlainOutcome, plain_block};
use std::alloc::{AllocError, Global};

fn add_cells(out: &mut Answer, bytes: &mut Vec<u8>, cells: &[i64]) {
    for cell in cells {
        out.keep(bytes.extend_from_slice(&cell.cast_unsigned().to_le_bytes()));
    }
}

// The bytes of a file with a block, of which some are missing at its end.
fn bytes(out: &mut Answer, block: &Block, missing: u64) -> Vec<u8> {
    let mut bytes = Vec::new(out.alloc());
    match write_head(out.alloc(), block.shape()) {
        Ok(front) => out.keep(bytes.extend_from_slice(&front)),
        Err(_) => out.fail(),
    }
    add_cells(out, &mut bytes, block.cells());
    let length = bytes.len().saturating_sub(missing as usize);
    bytes.truncate(length);
    bytes
}

fn add_head(out: &mut Answer, heads: &mut Vec<Head>, block: &Block) {
    match block.shape().copy(out.alloc()) {
        Ok(shape) => {
            let head = Head {
                shape,
                fortran: false,
                data_at: 128,
                width: 8,
                big: false,
            };
            if heads.push(head).is_err() {
                out.fail();
            }
        }
        Err(_) => out.fail(),
    }
}

fn heads(out: &mut Answer, blocks: &[Block]) -> Vec<Head> {
    let mut heads = Vec::new(out.alloc());
    for block in blocks {
        add_head(out, &mut heads, block);
    }
    heads
}

// The read that is to fail.
fn refusals(out: &mut Answer, failing: Option<i64>) -> Vec<Refusal> {
    let mut refusals = Vec::new(out.alloc());
    if let Some(call) = failing {
        let refusal = Refusal {
            kind: Kind::Read,
            counted: Counted::OverAll,
            call: call.unsigned_abs(),
        };
        out.keep(refusals.extend_from_slice(&[refusal]));
    }
    refusals
}

// Puts a file in place, by its block and the number of bytes that are missing.
fn put_file(out: &mut Answer, site: &mut MemorySite, name: &str, block: &Block, missing: u64) {
    let bytes = bytes(out, block, missing);
    out.keep(site.put(out.alloc(), name, &bytes));
}

fn put_files(out: &mut Answer, site: &mut MemorySite, blocks: &[Block], missing: &[u64]) {
    if let ([first, second], [of_first, of_second]) = (blocks, missing) {
        put_file(out, site, "a.npy", first, *of_first);
        put_file(out, site, "b.npy", second, *of_second);
    }
}

fn names(alloc: Global) -> Result<[String; 2], AllocError> {
    let first = String::from_str(alloc, "a.npy")?;
    let second = String::from_str(alloc, "b.npy")?;
    Ok([first, second])
}

fn put_made(out: &mut Answer, made: Result<PlainOutcome, NpyError>) {
    match made {
        Ok(outcome) => put_outcome(out, &outcome),
        Err(e) => out.refuse(e),
    }
}

// Puts what a region of a node is over the two files.
fn put_over_files<S: Site>(
    out: &mut Answer,
    expr: &Expr,
    node: NodeId,
    region: &Region,
    site: &mut S,
    names: &[String],
    heads: &[Head],
)
    requires node { node < length expr.now }
    requires region { IsPart region.now (shape_at expr.now node) }
    requires names { length names.now ≡ 2 }
    requires files { (files : List Content) → length files ≡ 2 → HaveFiles expr.now (node + 1) files heads.now }
{
    let alloc = out.alloc();
    match site.store(alloc, names) {
        Ok(mut store) => {
            let made = plain_block(alloc, expr, node, region, &mut store, heads);
            site.give_store(store);
            put_made(out, made);
        }
        Err(_) => out.mark_ill(),
    }
}

// The same of the last node, where all is there.
fn put_over<S: Site>(
    out: &mut Answer,
    expr: &Expr,
    region: &Region,
    site: &mut S,
    names: &[String],
    heads: &[Head],
)
    requires { length names.now ≡ 2 }
{
    if let Some(node) = last_node(expr)
        && region.is_part(expr.shape_of(node).dims())
        && have_files(expr.nodes(), node.number() as usize + 1, 2, heads)
    {
        put_over_files(out, expr, node, region, site, names, heads);
    } else {
        out.mark_ill();
    }
}

// Puts a region of the last node over two files with these blocks.
fn put_in_files(
    out: &mut Answer,
    expr: &Expr,
    region: &Region,
    site: &mut MemorySite,
    blocks: &[Block],
) {
    let heads = heads(out, blocks);
    match names(out.alloc()) {
        Ok(names) => put_over(out, expr, region, site, &names, &heads),
        Err(_) => out.fail(),
    }
}

// The same, of a new site of which a read is to fail.
fn put_in_site(
    out: &mut Answer,
    expr: &Expr,
    region: &Region,
    failing: Option<i64>,
    blocks: &[Block],
    missing: &[u64],
) {
    let refusals = refusals(out, failing);
    match MemorySite::new(out.alloc(), 0, refusals) {
        Ok(mut site) => {
            put_files(out, &mut site, blocks, missing);
            put_in_files(out, expr, region, &mut site, blocks);
        }
        Err(_) => out.fail(),
    }
}

/// `files STARTS LENGTHS FAILING LENGTHS ELEMENTS LENGTHS ELEMENTS MISSING NODES`: a region of the last node over two
/// files, each without so many bytes at its end. The read with the number FAILING, from 0, fails.
pub fn files(row: &mut Row, out: &mut Answer) {
    let region = row.region();
    let failing = row.optional();
    let blocks = row.blocks(2, out);
    let missing = row.naturals();
    let expr = expression(row, out);
    put_in_site(out, &expr, &region, failing, &blocks, &missing);
}
