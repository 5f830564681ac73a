//! The keys that are run, numbered depth first.
ghost use Rattle.std.specs.Prelude.{◌≡◌, ◌<◌, ◌++◌, None, length, map, All, slice_index_or, IfOk, OnOk};
ghost use Rattle.std.specs.List.{AllByRecursion, flat_map};
ghost use Rattle.task_graph.specs.Orders.{position};
ghost use Rattle.chunk_layout.specs.Layouts.{counts};
ghost use Rattle.lowering_laws.specs.Sources.{Source};
ghost use Rattle.lowering_laws.specs.Lowered.{source_at, keys_of, culled};

use crate::counts::counts_of;
use crate::layouts::copied_layout;
use crate::making::Making;
use crate::nodes::source_of;
use crate::sources::{Keyed, Name};
use array_expr::NodeId;
use chunk_layout::Layout;
use cluster_msgs::{KeyList, Sequence};
use nd_shape::Dims;
use std::alloc::{AllocError, Global};
use task_graph::moves::renumber;
use task_graph::{Graph, Renumber, order};

/// The graph that makes the saved blocks, the node and block of each key that is one's own, and the keys of the blocks of each
/// save, in row-major order, and the layout of each save's array; for each node how many chunks its array has on each axis.
#[derive(Drop)]
pub struct Lowered {
    pub graph: Graph,
    pub names: Sequence<Name>,
    pub saved: Sequence<KeyList>,
    pub layouts: Sequence<Layout>,
    pub blocks: Sequence<Dims>,
}

// The keys of an array's blocks, all of them below a bound: they are keys of the graph.
fn keys_of_blocks(alloc: Global, source: &Keyed, bound: u32) -> Result<Vec<u32>, AllocError>
    ensures value { IfOk result (λ keys. keys.items ≡ keys_of source.now) }
    ensures there { IfOk result (λ keys. AllByRecursion (λ k. k < bound) keys.items) }
{
    let blocks = source.blocks();
    let mut keys = Vec::with_capacity(alloc, blocks as usize)?;
    for block in 0..blocks {
        let key = source.key_of_block(block)?;
        if key >= bound {
            return Err(AllocError);
        }
        keys.push(key)?;
    }
    Ok(keys)
}

// The keys of each save.
fn wanted_keys(
    alloc: Global,
    sources: &[Keyed],
    saves: &[NodeId],
    bound: u32,
) -> Result<Vec<KeyList>, AllocError>
    requires { All (λ n. n < length sources.now) saves.now }
    ensures value { IfOk result (λ v. v.items ≡ map (λ n. keys_of (source_at sources.now n)) saves.now) }
    ensures there { IfOk result (λ v. AllByRecursion (AllByRecursion (λ k. k < bound)) v.items) }
{
    let mut wanted = Vec::with_capacity(alloc, saves.len())?;
    for node in saves {
        let source = &sources[node.number() as usize];
        let keys = keys_of_blocks(alloc, source, bound)?;
        wanted.push(KeyList::from_vec(keys))?;
    }
    Ok(wanted)
}

// The layout of each save's array.
fn saved_layouts(
    alloc: Global,
    sources: &[Keyed],
    saves: &[NodeId],
) -> Result<Sequence<Layout>, AllocError>
    requires { All (λ n. n < length sources.now) saves.now }
    ensures { IfOk result (λ layouts. layouts ≡ map (λ n. (source_at sources.now n).layout) saves.now) }
{
    let mut layouts = Vec::with_capacity(alloc, saves.len())?;
    for node in saves {
        let source = source_of(sources, *node);
        layouts.push(copied_layout(alloc, source.layout())?)?;
    }
    Ok(Sequence::from_vec(layouts))
}

// How many chunks each array has on each axis.
fn all_counts(alloc: Global, sources: &[Keyed]) -> Result<Sequence<Dims>, AllocError>
    ensures { IfOk result (λ blocks. blocks ≡ map (λ (s : Source). counts s.layout) sources.now) }
{
    let mut blocks = Vec::with_capacity(alloc, sources.len())?;
    for source in sources {
        let counts = counts_of(alloc, source.layout().axes())?;
        blocks.push(Dims::from_vec(counts))?;
    }
    Ok(Sequence::from_vec(blocks))
}

// Puts keys at the end.
fn push_keys(all: &mut Vec<u32>, keys: &[u32]) -> Result<(), AllocError>
    ensures { OnOk result (all.new.items ≡ all.old.items ++ keys.now) }
{
    for key in keys {
        all.push(*key)?;
    }
    Ok(())
}

// All of them, one list after another.
fn joined_keys(alloc: Global, lists: &[KeyList]) -> Result<KeyList, AllocError>
    ensures { IfOk result (λ keys. keys ≡ flat_map (λ ks. ks) lists.now) }
{
    let mut all = Vec::new(alloc);
    for keys in lists {
        push_keys(&mut all, keys.as_slice())?;
    }
    Ok(KeyList::from_vec(all))
}

// The new number of a key, or how many keys are kept where it isn't. Every wanted key is kept.
fn number_now(numbers: &Renumber, key: u32) -> u32
    requires { key < numbers.now.keys }
    ensures { result ≡ position numbers.now.order key }
{
    match numbers.get(key) {
        Some(number) => number,
        None => numbers.count(),
    }
}

// The keys of a save under their new numbers.
fn numbers_now(alloc: Global, numbers: &Renumber, keys: &[u32]) -> Result<KeyList, AllocError>
    requires { AllByRecursion (λ k. k < numbers.now.keys) keys.now }
    ensures { IfOk result (λ new. new ≡ map (position numbers.now.order) keys.now) }
{
    let mut new = Vec::with_capacity(alloc, keys.len())?;
    for key in keys {
        new.push(number_now(numbers, *key))?;
    }
    Ok(KeyList::from_vec(new))
}

// The keys of all saves under their new numbers.
fn saved_keys(
    alloc: Global,
    numbers: &Renumber,
    wanted: &[KeyList],
) -> Result<Sequence<KeyList>, AllocError>
    requires { AllByRecursion (AllByRecursion (λ k. k < numbers.now.keys)) wanted.now }
    ensures { IfOk result (λ saved. saved ≡ map (λ ks. map (position numbers.now.order) ks) wanted.now) }
{
    let mut saved = Vec::with_capacity(alloc, wanted.len())?;
    for keys in wanted {
        saved.push(numbers_now(alloc, numbers, keys.as_slice())?)?;
    }
    Ok(Sequence::from_vec(saved))
}

// The name of a key, or none where there is no such key.
fn name_at(names: &[Name], key: u32) -> Name
    ensures { result ≡ slice_index_or names.now key None }
{
    match names.get(key as usize) {
        Some(name) => *name,
        None => None,
    }
}

// The names of the keys that are kept, in their new order.
fn kept_names(alloc: Global, names: &[Name], order: &[u32]) -> Result<Sequence<Name>, AllocError>
    ensures { IfOk result (λ kept. kept ≡ map (λ k. slice_index_or names.now k None) order.now) }
{
    let mut kept = Vec::with_capacity(alloc, order.len())?;
    for key in order {
        kept.push(name_at(names, *key))?;
    }
    Ok(Sequence::from_vec(kept))
}

/// The keys that the saved blocks reach, under the numbers of a depth-first visit. One step serves culling and numbering: the
/// order lists the kept keys alone.
pub fn finish(alloc: Global, made: Making, saves: &[NodeId]) -> Result<Lowered, AllocError>
    requires { All (λ n. n < length made.sources) saves.now }
    ensures tasks { IfOk result (λ l. l.graph ≡ (culled made saves.now).tasks) }
    ensures names { IfOk result (λ l. l.names ≡ (culled made saves.now).names) }
    ensures saved { IfOk result (λ l. l.saved ≡ (culled made saves.now).saved) }
    ensures layouts { IfOk result (λ l. l.layouts ≡ map (λ n. (source_at made.sources n).layout) saves.now) }
    ensures blocks { IfOk result (λ l. l.blocks ≡ map (λ (s : Source). counts s.layout) made.sources) }
{
    let (graph, names, sources) = made.into_parts();
    let wanted = wanted_keys(alloc, sources.as_slice(), saves, graph.keys())?;
    let all = joined_keys(alloc, wanted.as_slice())?;
    let numbers = order(&graph, &all)?;
    let saved = saved_keys(alloc, &numbers, wanted.as_slice())?;
    let names = kept_names(alloc, names.as_slice(), numbers.order())?;
    let graph = renumber(graph, &numbers)?;
    let layouts = saved_layouts(alloc, sources.as_slice(), saves)?;
    let blocks = all_counts(alloc, sources.as_slice())?;
    Ok(Lowered {
        graph,
        names,
        saved,
        layouts,
        blocks,
    })
}
