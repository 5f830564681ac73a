//! Regions of the nodes of a job, over files.
ghost use Rattle.std.specs.Prelude.{◌≡◌, ◌<◌, ◌≤◌, ◌+◌, ◌^◌, IsTrue, List, length, true};
ghost use Rattle.io_edge.specs.Content.{Content};
ghost use Rattle.nd_shape.specs.Region.{IsPart};
ghost use Rattle.array_expr.specs.Elem.{is_input, next_input};
ghost use Rattle.array_expr.specs.Node.{shape_at};
ghost use Rattle.npy_codec.specs.Regions.{IsWidth};
ghost use Rattle.plain_block.specs.Files.{HaveFiles, head_at};

use crate::arrays::{print_cells, region_of, say_refusal};
use crate::desk::Desk;
use crate::say::say;
use crate::text::bytes_of;
use crate::words::{Trouble, Words, split};
use array_expr::{Expr, Node, NodeId, Op};
use io_edge::{MemorySite, OpenFault, Site, Store};
use job_text::parse;
use nd_shape::Region;
use npy_codec::{Head, NpyError, read_head};
use plain_block::{PlainOutcome, plain_block};
use std::alloc::Global;

/// What a region of a node is, or why it isn't given.
type Given = Result<PlainOutcome, NpyError>;

// Whether the region lies in a node that is there.
fn is_part_of(expr: &Expr, node: NodeId, region: &Region) -> bool
    ensures there { IsTrue result → node < length expr.now }
    ensures inside { IsTrue result → IsPart region.now (shape_at expr.now node) }
{
    (node.number() as usize) < expr.nodes().len() && region.is_part(expr.shape_of(node).dims())
}

// Whether a node is no input, or the input with this number, which has a file and a head of its shape.
fn has_file(node: &Node, input: usize, files: usize, heads: &[Head]) -> bool
    ensures file { IsTrue result → is_input node.now.op ≡ true → input < files }
    ensures head { IsTrue result → is_input node.now.op ≡ true → input < length heads.now }
    ensures shape { IsTrue result → is_input node.now.op ≡ true → (head_at heads.now input).shape ≡ node.now.shape }
    ensures near { IsTrue result → is_input node.now.op ≡ true → (head_at heads.now input).data_at ≤ 2 ^ 21 }
    ensures width { IsTrue result → is_input node.now.op ≡ true → IsWidth (head_at heads.now input).width }
{
    if !is_input(&node.op) {
        return true;
    }
    if input >= files || input >= heads.len() {
        return false;
    }
    let head = &heads[input];
    head.shape.dims() == node.shape.dims() && head.data_at <= 2097152 && is_width(head.width)
}

fn is_width(width: u32) -> bool
    ensures { IsTrue result → IsWidth width }
{
    matches!(width, 1 | 2 | 4 | 8)
}

fn is_input(op: &Op) -> bool
    ensures { result ≡ is_input op.now }
{
    match op {
        Op::Input { .. } => true,
        _ => false,
    }
}

fn next_input(op: &Op, input: usize) -> usize
    requires { input < 2 ^ 63 }
    ensures { result ≡ next_input op.now input }
{
    if is_input(op) { input + 1 } else { input }
}

// Whether each input among the first so many nodes has a file and a head of its shape.
fn have_files(nodes: &[Node], count: usize, files: usize, heads: &[Head]) -> bool
    requires { count ≤ length nodes.now }
    ensures { IsTrue result → (held : List Content) → length held ≡ files → HaveFiles nodes.now count held heads.now }
{
    let mut input = 0;
    for k in 0..count {
        let node = &nodes[k];
        if !has_file(node, input, files, heads) {
            return false;
        }
        input = next_input(&node.op, input);
    }
    true
}

// The heads of the files of a store.
fn heads_in<I: Store>(alloc: Global, store: &mut I, count: u32) -> Result<Vec<Head>, Trouble>
    requires { length (I.files store.old) ≡ count }
{
    let mut heads = Vec::new(alloc);
    for file in 0..count {
        match read_head(alloc, store, file) {
            Ok(head) => heads.push(head)?,
            Err(_) => return Err(Trouble::Ill),
        }
    }
    Ok(heads)
}

// The heads of a site's files.
fn heads_of<S: Site>(alloc: Global, site: &mut S, names: &[String]) -> Result<Vec<Head>, Trouble> {
    if names.len() > 64 {
        return Err(Trouble::Ill);
    }
    match site.store(alloc, names) {
        Ok(mut store) => heads_in(alloc, &mut store, names.len() as u32),
        Err(_) => Err(Trouble::Ill),
    }
}

// What a region of a node is over a site's files.
fn over_files<S: Site>(
    alloc: Global,
    expr: &Expr,
    node: NodeId,
    region: &Region,
    site: &mut S,
    names: &[String],
    heads: &[Head],
) -> Result<Given, OpenFault>
    requires node { node < length expr.now }
    requires region { IsPart region.now (shape_at expr.now node) }
    requires files { (files : List Content) → length files ≡ length names.now → HaveFiles expr.now (node + 1) files heads.now }
{
    let mut store = site.store(alloc, names)?;
    let given = plain_block(alloc, expr, node, region, &mut store, heads);
    site.give_store(store);
    Ok(given)
}

fn print_given<R: Print>(rt: &R, given: Result<Given, OpenFault>) -> Result<(), Trouble> {
    match given {
        Ok(Ok(PlainOutcome::Values(block))) => print_cells(rt, block.cells()),
        Ok(Ok(PlainOutcome::Zero { position, .. })) => Ok(print!(rt;
            " zero divisor at {position}"
        )?),
        Ok(Err(error)) => say_refusal(rt, error),
        Err(fault) => say(rt, Err::<u64, OpenFault>(fault)),
    }
}

// Looks whether the region, the files and the heads are those of the expression, and prints what the region is.
fn print_node<R: Print, S: Site>(
    rt: &R,
    alloc: Global,
    expr: &Expr,
    node: NodeId,
    region: &Region,
    site: &mut S,
    names: &[String],
    heads: &[Head],
) -> Result<(), Trouble> {
    if !is_part_of(expr, node, region) {
        return Err(Trouble::Ill);
    }
    if !have_files(expr.nodes(), node.number() as usize + 1, names.len(), heads) {
        return Err(Trouble::Ill);
    }
    let given = over_files(alloc, expr, node, region, site, names, heads);
    print_given(rt, given)
}

/// Prints what a region of a node of a job is over the files of a site, whose heads are those of a new site: the files, the
/// node's number, the region, and the job's text.
pub fn print_block<R: Print>(
    rt: &R,
    alloc: Global,
    desk: &Desk,
    site: &mut MemorySite,
    words: &mut Words,
) -> Result<(), Trouble> {
    let names = split(alloc, words.word(), ',')?;
    let node = NodeId::new(words.below(65535)? as u32);
    let region = region_of(words.word())?;
    let text = bytes_of(alloc, words.rest)?;
    let heads = heads_of(alloc, &mut desk.sound_site(alloc)?, &names)?;
    match parse(alloc, &text) {
        Ok(said) => print_node(
            rt,
            alloc,
            &said.job.expr,
            node,
            &region,
            site,
            &names,
            &heads,
        ),
        Err(_) => Err(Trouble::Ill),
    }
}
