//! Partial results, folded by a tree: for each block the partial results, then the levels that fold them.
ghost use Rattle.std.specs.Prelude.{◌≡◌, ◌<◌, ◌≤◌, ◌+◌, ◌++◌, [], ℕ, List, length, map, replicate, IfOk, IfErr, OnOk};
ghost use Rattle.std.specs.List.{range_with_len};
ghost use Rattle.nd_shape.specs.Shape.{elements};
ghost use Rattle.nd_shape.specs.Chunk.{total};
ghost use Rattle.nd_shape.specs.Index.{IsIn, index_at};
ghost use Rattle.chunk_layout.specs.Layouts.{counts as counts_in};
ghost use Rattle.chunk_layout.specs.Trees.{tree as levels_of};
ghost use Rattle.task_graph.specs.declared.graph.Task.{Task as AnyTask};
ghost use Rattle.task_graph.specs.Graphs.{task};
ghost use Rattle.lowering_laws.specs.Stages.{group_tasks, level_tasks};
ghost use Rattle.block_lowering.specs.Folding.{folded_parts, folded_at, folded_blocks};
ghost use Rattle.block_lowering.specs.Growing.{Refuses, IsGrown};

use crate::counts::{counts_of, numbers_of, product_of};
use crate::error::LowerError;
use crate::growing::{Stage, push_blocks, push_task};
use crate::lists::keys_from;
use crate::parts::{KEYS, cost_of, lengths_of, shape_from};
use crate::sources::Keyed;
use array_expr::axes::push_kept;
use block_kernels::Spec;
use chunk_layout::{Layout, Levels, tree};
use cluster_msgs::KeyList;
use nd_grid::Fold;
use nd_shape::{Axes, Shape, Shapes, Sizes};
use std::alloc::{AllocError, Global};
use task_graph::{Graph, Task};

/// Partial results of each block of an array.
pub trait Parted {
    /// The task that makes the partial result of a block at an index, and the counts that those indexes lie below.
    ghost part_of: { Self → List ℕ → List ℕ → AnyTask };

    ghost parts: { Self → List ℕ };

    fn part(&self, alloc: Global, block: &[u64], index: &[u64]) -> Result<Task, AllocError>
        requires { IsIn (parts self.now) index.now }
        ensures { IfOk result (λ task. task ≡ part_of self.now block.now index.now) };
}

// The partial results of one block.
#[derive(Drop)]
struct OneBlock<'a, P> {
    of: &'a P,
    block: &'a [u64],
}

impl<'a, P: Parted> Stage for OneBlock<'a, P> {
    ghost task_of = { λ s index. P.part_of s.of.now s.block.now index };

    ghost chunks = { λ s. P.parts s.of.now };

    ghost sound = { λ s. Unit {0} };

    fn task(&self, alloc: Global, _place: u64, index: &[u64]) -> Result<Task, AllocError> {
        self.of.part(alloc, self.block, index)
    }
}

/// The task that folds inputs of these shapes along axes and over the inputs.
pub fn fold_task(
    alloc: Global,
    fold: Fold,
    axes: &Axes,
    inputs: Shapes,
    deps: KeyList,
) -> Result<Task, AllocError>
    ensures { IfOk result (λ made. made ≡ task (Spec.Reduce fold axes.now inputs) deps) }
{
    let shapes = inputs.as_slice();
    let mut kept = Vec::new(alloc);
    if let [first, ..] = shapes {
        push_kept(&mut kept, first.dims(), axes.as_slice())?;
    }
    let shape = shape_from(kept)?;
    let cost = cost_of(&shape, shapes)?;
    Ok(Task {
        spec: Spec::Reduce {
            fold,
            axes: axes.copy()?,
            inputs,
        },
        deps,
        work: cost.work,
        nbytes: cost.nbytes,
    })
}

// So many copies of a shape.
fn copies_of(alloc: Global, shape: &Shape, count: u32) -> Result<Shapes, AllocError>
    ensures { IfOk result (λ shapes. shapes ≡ replicate count shape.now) }
{
    let mut shapes = Vec::with_capacity(alloc, count as usize)?;
    for _ in 0..count {
        shapes.push(shape.copy(alloc)?)?;
    }
    Ok(Shapes::from_vec(shapes))
}

// The task of a group of keys.
fn group_task(
    alloc: Global,
    fold: Fold,
    dims: &Shape,
    at: u32,
    count: u32,
) -> Result<Task, AllocError>
    ensures task { IfOk result (λ made. made ≡ task (Spec.Reduce fold [] (replicate count dims.now)) (range_with_len at count)) }
    ensures there { OnOk result (at + count ≤ 32768) }
{
    // The keys of a group are a graph's.
    if u64::from(at) + u64::from(count) > KEYS {
        return Err(AllocError);
    }
    let inputs = copies_of(alloc, dims, count)?;
    let deps = KeyList::from_vec(keys_from(alloc, at, count)?);
    fold_task(alloc, fold, &Axes::new(alloc), inputs, deps)
}

// Puts a task for each group of a level behind those of a graph, and tells the key behind the last group.
fn push_level(
    alloc: Global,
    graph: &mut Graph,
    fold: Fold,
    dims: &Shape,
    first: u32,
    sizes: &[u32],
) -> Result<u32, LowerError>
    ensures end { IfOk result (λ end. end ≡ first + total sizes.now) }
    ensures ok { OnOk result (graph.new ≡ graph.old ++ group_tasks fold dims.now first sizes.now) }
    ensures err { IfErr result (Refuses graph.old (group_tasks fold dims.now first sizes.now)) }
{
    let mut at = first;
    for size in sizes {
        let task = group_task(alloc, fold, dims, at, *size)?;
        push_task(graph, task)?;
        at += *size;
    }
    Ok(at)
}

// Puts the levels of a tree behind the tasks of a graph.
fn push_levels(
    alloc: Global,
    graph: &mut Graph,
    fold: Fold,
    dims: &Shape,
    first: u32,
    levels: &[Sizes],
) -> Result<(), LowerError>
    ensures ok { OnOk result (graph.new ≡ graph.old ++ level_tasks fold dims.now first levels.now) }
    ensures err { IfErr result (Refuses graph.old (level_tasks fold dims.now first levels.now)) }
{
    let mut at = first;
    for sizes in levels {
        at = push_level(alloc, graph, fold, dims, at, sizes.as_slice())?;
    }
    Ok(())
}

// How a block's partial results are folded.
#[derive(Drop)]
struct Folding<'a> {
    fold: Fold,
    split: u64,
    counts: &'a [u64],
    levels: &'a [Sizes],
}

// Puts the partial results of one block, and the tree over them, behind the tasks of a graph.
fn push_block<P: Parted>(
    alloc: Global,
    graph: &mut Graph,
    folding: &Folding,
    of: &P,
    block: &[u64],
    dims: &Shape,
) -> Result<(), LowerError>
    requires parts { P.parts of.now ≡ folding.now.counts.now }
    requires levels { folding.now.levels.now ≡ levels_of (elements folding.now.counts.now) folding.now.split }
    ensures ok { let f = folding.now in
        OnOk result (graph.new ≡ graph.old ++ folded_parts f.fold f.split f.counts.now (P.part_of of.now block.now) dims.now (length graph.old)) }
    ensures err { let f = folding.now in
        IfErr result (Refuses graph.old (folded_parts f.fold f.split f.counts.now (P.part_of of.now block.now) dims.now (length graph.old))) }
{
    let first = graph.keys();
    let stage = OneBlock { of, block };
    push_blocks(alloc, graph, &stage, folding.counts)?;
    push_levels(alloc, graph, folding.fold, dims, first, folding.levels)
}

// The same for the block at a place of a layout.
fn push_block_at<P: Parted>(
    alloc: Global,
    graph: &mut Graph,
    folding: &Folding,
    of: &P,
    layout: &Layout,
    counts: &[u64],
    place: u64,
) -> Result<(), LowerError>
    requires parts { P.parts of.now ≡ folding.now.counts.now }
    requires levels { folding.now.levels.now ≡ levels_of (elements folding.now.counts.now) folding.now.split }
    requires counts { counts.now ≡ counts_in layout.now }
    requires place { place < elements counts.now }
    ensures ok { let f = folding.now in let bs = index_at counts.now place in
        OnOk result (graph.new ≡ graph.old ++ folded_at f.fold f.split f.counts.now (P.part_of of.now) layout.now bs (length graph.old)) }
    ensures err { let f = folding.now in let bs = index_at counts.now place in
        IfErr result (Refuses graph.old (folded_at f.fold f.split f.counts.now (P.part_of of.now) layout.now bs (length graph.old))) }
{
    let mut numbers = vec![in alloc; 0u64; counts.len()]?;
    numbers_of(counts, place, numbers.as_mut_slice());
    let dims = lengths_of(alloc, layout.axes(), numbers.as_slice())?;
    push_block(alloc, graph, folding, of, numbers.as_slice(), &dims)
}

// How many tasks the levels have, which are no more than a graph has keys.
fn groups_in(levels: &[Sizes]) -> Result<u64, AllocError>
    ensures value { IfOk result (λ count. count ≡ total (map (λ (gs : List ℕ). length gs) levels.now)) }
    ensures few { IfOk result (λ count. count ≤ 32768) }
{
    let mut count = 0;
    for sizes in levels {
        count += sizes.as_slice().len() as u64;
        if count > KEYS {
            return Err(AllocError);
        }
    }
    Ok(count)
}

// The tree over so many partial results, of which there are no more than a graph has keys. A split above their number is as
// good as their number.
fn tree_of(alloc: Global, partials: u64, split: u64) -> Result<Levels, AllocError>
    requires { 2 ≤ split }
    ensures levels { IfOk result (λ levels. levels ≡ levels_of partials split) }
    ensures few { OnOk result (partials ≤ 32768) }
{
    if partials > KEYS {
        return Err(AllocError);
    }
    tree(alloc, partials as u32, split.min(2 * KEYS) as u32)
}

/// Puts for each block of a layout its partial results, and the tree that folds them, behind the tasks of a graph.
pub fn push_folded<P: Parted>(
    alloc: Global,
    graph: &mut Graph,
    fold: Fold,
    split: u64,
    of: &P,
    parts: &[u64],
    layout: Layout,
) -> Result<Keyed, LowerError>
    requires parts { P.parts of.now ≡ parts.now }
    requires split { 2 ≤ split }
    ensures ok { IfOk result (IsGrown graph.old (folded_blocks fold split parts.now (P.part_of of.now) layout (length graph.old)) graph.new) }
    ensures err { IfErr result (Refuses graph.old (folded_blocks fold split parts.now (P.part_of of.now) layout (length graph.old)).tasks) }
{
    let base = graph.keys();
    let partials = product_of(parts);
    let levels = tree_of(alloc, partials, split)?;
    let folding = Folding {
        fold,
        split,
        counts: parts,
        levels: levels.as_slice(),
    };
    let counts = counts_of(alloc, layout.axes())?;
    for place in 0..product_of(counts.as_slice()) {
        push_block_at(
            alloc,
            graph,
            &folding,
            of,
            &layout,
            counts.as_slice(),
            place,
        )?;
    }
    graph.sound();
    let stride = partials + groups_in(levels.as_slice())?;
    if stride == 0 || stride > KEYS {
        // A block has a key, and no more keys than the graph.
        return Err(LowerError::OutOfMemory);
    }
    Ok(Keyed::new(layout, base + (stride - 1) as u32, stride as u32)?)
}
