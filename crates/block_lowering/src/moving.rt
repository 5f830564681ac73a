//! Slices and transposes: each block is made of one block.
ghost use Rattle.std.specs.Prelude.{◌≡◌, ◌≤◌, [], ◌∷◌, cond, length, map, get_or, slice_index_or, IfOk, IfErr};
ghost use Rattle.chunk_layout.specs.Slices.{pieces_of, counts_taken};
ghost use Rattle.chunk_layout.specs.Slicing.{TakesAll};
ghost use Rattle.lowering_laws.specs.Stages.{sliced_blocks, transposed_blocks, kept_axes, pieces_at, nothing_taken};
ghost use Rattle.block_lowering.specs.Growing.{Refuses, IsGrown};
ghost use Rattle.block_lowering.specs.Moving.{AreTaken};

use crate::counts::counts_of;
use crate::error::LowerError;
use crate::growing::{Stage, push_blocks};
use crate::layouts::{cut_from, layout_from, push_kept_cuts, turned_axes};
use crate::lists::{index_turned, next_if, number_at};
use crate::parts::{cost_of, lengths_of, shape_from};
use crate::sources::Keyed;
use array_expr::axes::is_in_list;
use block_kernels::Spec;
use block_kernels::shapes::sliced_dims;
use chunk_layout::{ChunkSteps, Cuts, Layout, chunks_taken};
use cluster_msgs::KeyList;
use nd_shape::{Axes, Sequence, Shape, StepList, Steps};
use std::alloc::{AllocError, Global};
use std::slice;
use task_graph::{Graph, Task};

/// What a slice takes of the chunks of an axis, in its order.
pub type AxisPieces = Sequence<ChunkSteps>;

/// The one key, as dependencies.
pub fn one_key(alloc: Global, key: u32) -> Result<KeyList, AllocError>
    ensures { IfOk result (λ deps. deps ≡ key ∷ []) }
{
    let mut deps = KeyList::new(alloc);
    deps.push(key)?;
    Ok(deps)
}

// ---- slices

// What a block of a slice takes: the chunk of each axis, and the steps within it.
#[derive(Drop)]
struct BlockPieces {
    numbers: Vec<u64>,
    steps: Vec<Steps>,
}

// The piece of an axis at a place, or nothing of chunk 0.
fn piece_at(pieces: &[ChunkSteps], place: u64) -> (u64, Steps)
    ensures chunk { result.0 ≡ (slice_index_or pieces.now place nothing_taken).chunk }
    ensures steps { result.1 ≡ (slice_index_or pieces.now place nothing_taken).steps }
{
    match pieces.get(place as usize) {
        Some(piece) => (piece.chunk, piece.steps),
        None => (
            0,
            Steps {
                start: 0,
                step: 1,
                count: 0,
            },
        ),
    }
}

// The place on an axis: a dropped axis has one piece.
fn place_on(gone: bool, block: &[u64], used: usize) -> u64
    ensures { result ≡ cond gone 0 (get_or block.now used 0) }
{
    if gone { 0 } else { number_at(block, used) }
}

fn pieces_of_block(
    alloc: Global,
    pieces: &[AxisPieces],
    dropped: &[u64],
    block: &[u64],
) -> Result<BlockPieces, AllocError>
    requires { length pieces.now ≤ 8 }
    ensures { IfOk result (λ b. AreTaken (pieces_at 0 pieces.now dropped.now block.now) b.numbers.items b.steps.items) }
{
    let mut numbers = Vec::with_capacity(alloc, pieces.len())?;
    let mut steps = Vec::with_capacity(alloc, pieces.len())?;
    let mut used = 0;
    for (axis, list) in pieces.iter().enumerate() {
        let gone = is_in_list(dropped, axis as u64);
        let (chunk, taken) = piece_at(list.as_slice(), place_on(gone, block, used));
        numbers.push(chunk)?;
        steps.push(taken)?;
        used = next_if(!gone, used);
    }
    Ok(BlockPieces { numbers, steps })
}

// The blocks of a slice.
#[derive(Drop)]
struct Sliced<'a> {
    source: &'a Keyed,
    pieces: &'a [AxisPieces],
    dropped: &'a Axes,
    counts: &'a [u64],
}

impl<'a> Stage for Sliced<'a> {
    ghost use Rattle.std.specs.Prelude.{◌≤◌, length};
    ghost use Rattle.lowering_laws.specs.Stages.{slice_task};

    ghost task_of = { λ s bs. slice_task s.source.now s.pieces.now s.dropped.now bs };

    ghost chunks = { λ s. s.counts.now };

    ghost sound = { λ s. length s.pieces.now ≤ 8 };

    fn task(&self, alloc: Global, _place: u64, block: &[u64]) -> Result<Task, AllocError> {
        let dropped = self.dropped.as_slice();
        let taken = pieces_of_block(alloc, self.pieces, dropped, block)?;
        let axes = self.source.layout().axes();
        let input = lengths_of(alloc, axes, taken.numbers.as_slice())?;
        let shape = shape_from(sliced_dims(alloc, taken.steps.as_slice(), dropped)?)?;
        let cost = cost_of(&shape, slice::from_ref(&input))?;
        let key = self.source.key(taken.numbers.as_slice())?;
        Ok(Task {
            spec: Spec::Slice {
                steps: StepList::from_vec(taken.steps),
                dropped: self.dropped.copy()?,
                input,
            },
            deps: one_key(alloc, key)?,
            work: cost.work,
            nbytes: cost.nbytes,
        })
    }
}

// What a slice takes of each axis.
fn pieces_of(alloc: Global, axes: &[Cuts], steps: &[Steps]) -> Result<Vec<AxisPieces>, AllocError>
    requires { TakesAll axes.now steps.now }
    ensures { IfOk result (λ pieces. pieces.items ≡ pieces_of axes.now steps.now) }
{
    let mut pieces = Vec::with_capacity(alloc, axes.len())?;
    for axis in 0..axes.len() {
        pieces.push(AxisPieces::from_vec(chunks_taken(alloc, &axes[axis], steps[axis])?))?;
    }
    Ok(pieces)
}

// The number in 32 bits. A slice takes no more of an axis than its length.
fn small(count: u64) -> Result<u32, AllocError>
    ensures { IfOk result (λ n. n ≡ count) }
{
    if count > u64::from(u32::MAX) {
        return Err(AllocError);
    }
    Ok(count as u32)
}

// The sizes of what is taken of an axis.
fn sizes_taken(alloc: Global, pieces: &[ChunkSteps]) -> Result<Cuts, AllocError>
    ensures { IfOk result (λ cuts. cuts ≡ counts_taken pieces.now) }
{
    let mut sizes = Vec::with_capacity(alloc, pieces.len())?;
    for piece in pieces {
        sizes.push(small(piece.steps.count)?)?;
    }
    cut_from(alloc, sizes)
}

// The cut of each axis of a slice, no axis dropped.
fn cuts_taken(alloc: Global, pieces: &[AxisPieces]) -> Result<Vec<Cuts>, AllocError>
    ensures { IfOk result (λ v. v.items ≡ map counts_taken pieces.now) }
{
    let mut axes = Vec::with_capacity(alloc, pieces.len())?;
    for list in pieces {
        axes.push(sizes_taken(alloc, list.as_slice())?)?;
    }
    Ok(axes)
}

// The layout of a slice.
fn layout_taken(alloc: Global, pieces: &[AxisPieces], dropped: &[u64]) -> Result<Layout, AllocError>
    ensures { IfOk result (λ layout. layout ≡ kept_axes 0 (map counts_taken pieces.now) dropped.now) }
{
    let all = cuts_taken(alloc, pieces)?;
    let mut kept = Vec::new(alloc);
    push_kept_cuts(alloc, &mut kept, all.as_slice(), dropped)?;
    layout_from(alloc, kept)
}

/// Puts the blocks of a slice behind the tasks of a graph.
pub fn push_sliced(
    alloc: Global,
    graph: &mut Graph,
    source: &Keyed,
    steps: &[Steps],
    dropped: &Axes,
) -> Result<Keyed, LowerError>
    requires { TakesAll source.now.layout steps.now }
    ensures ok { IfOk result (IsGrown graph.old (sliced_blocks source.now steps.now dropped.now (length graph.old)) graph.new) }
    ensures err { IfErr result (Refuses graph.old (sliced_blocks source.now steps.now dropped.now (length graph.old)).tasks) }
{
    let first = graph.keys();
    let pieces = pieces_of(alloc, source.layout().axes(), steps)?;
    let layout = layout_taken(alloc, pieces.as_slice(), dropped.as_slice())?;
    let counts = counts_of(alloc, layout.axes())?;
    let stage = Sliced {
        source,
        pieces: pieces.as_slice(),
        dropped,
        counts: counts.as_slice(),
    };
    push_blocks(alloc, graph, &stage, counts.as_slice())?;
    Ok(Keyed::new(layout, first, 1)?)
}

// ---- transposes

// The blocks of a transpose.
#[derive(Drop)]
struct Transposed<'a> {
    source: &'a Keyed,
    axes: &'a Axes,
    layout: &'a Layout,
}

// The lengths of a block in another order of its axes.
fn turned_lengths(alloc: Global, input: &Shape, axes: &[u64]) -> Result<Shape, AllocError>
    ensures { IfOk result (λ shape. shape ≡ map (λ a. get_or input.now a 0) axes.now) }
{
    let dims = input.dims();
    let mut turned = Vec::with_capacity(alloc, axes.len())?;
    for axis in axes {
        turned.push(number_at(dims, *axis as usize))?;
    }
    shape_from(turned)
}

impl<'a> Stage for Transposed<'a> {
    ghost use Rattle.chunk_layout.specs.Layouts.{counts};
    ghost use Rattle.block_lowering.specs.Tasks.{turn_task};

    ghost task_of = { λ s bs. turn_task s.axes.now s.source.now bs };

    ghost chunks = { λ s. counts s.layout.now };

    ghost sound = { λ s. Unit {0} };

    fn task(&self, alloc: Global, _place: u64, block: &[u64]) -> Result<Task, AllocError> {
        let order = self.axes.as_slice();
        let numbers = index_turned(alloc, order, block)?;
        let input = lengths_of(alloc, self.source.layout().axes(), numbers.as_slice())?;
        let shape = turned_lengths(alloc, &input, order)?;
        let cost = cost_of(&shape, slice::from_ref(&input))?;
        let key = self.source.key(numbers.as_slice())?;
        Ok(Task {
            spec: Spec::Transpose {
                axes: self.axes.copy()?,
                input,
            },
            deps: one_key(alloc, key)?,
            work: cost.work,
            nbytes: cost.nbytes,
        })
    }
}

/// Puts the blocks of a transpose behind the tasks of a graph.
pub fn push_transposed(
    alloc: Global,
    graph: &mut Graph,
    source: &Keyed,
    axes: &Axes,
) -> Result<Keyed, LowerError>
    ensures ok { IfOk result (IsGrown graph.old (transposed_blocks source.now axes.now (length graph.old)) graph.new) }
    ensures err { IfErr result (Refuses graph.old (transposed_blocks source.now axes.now (length graph.old)).tasks) }
{
    let first = graph.keys();
    let layout = turned_axes(alloc, source.layout().axes(), axes.as_slice())?;
    let counts = counts_of(alloc, layout.axes())?;
    let stage = Transposed {
        source,
        axes,
        layout: &layout,
    };
    push_blocks(alloc, graph, &stage, counts.as_slice())?;
    Ok(Keyed::new(layout, first, 1)?)
}
