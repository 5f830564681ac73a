//! What slices take of the chunks of a layout.
ghost use Rattle.std.specs.Prelude.{◌≡◌, ◌+◌, ◌<◌, ◌≤◌, ◌^◌, pos, ◌≤ℤ◌, [], ◌∷◌, IfOk};
ghost use Rattle.nd_shape.specs.Chunk.{total};
ghost use Rattle.nd_shape.specs.Slice.{position, coordinate};
ghost use Rattle.chunk_layout.specs.Cuts.{IsLayout, IsCut};
ghost use Rattle.chunk_layout.specs.Slices.{Taken, taken_of, counts_taken, slice_layout as sliced};
ghost use Rattle.chunk_layout.specs.Slicing.{TakesOf, TakesAll, IsRun, room_ahead};

use crate::cuts::Cuts;
use crate::layout::Layout;
use nd_shape::Steps;
use std::alloc::{AllocError, Global};
use std::marker::Model;

/// What a slice takes of a chunk: the chunk's number, and the indexes, counted from the chunk's first element.
#[derive(Drop)]
pub struct ChunkSteps {
    pub chunk: u64,
    pub steps: Steps,
}

impl Model for ChunkSteps {
    ghost Value = { Taken };

    ghost view = { λ p. record { chunk = p.chunk; steps = p.steps } };
}

/// The layout of a slice, no axis dropped: on each axis the pieces of the chunks that have an element in it, in the
/// slice's order, as in a slice of a Dask array (<https://docs.dask.org/en/stable/array-slicing.html>), and the one chunk
/// 0 where there is none.
pub fn slice_layout(alloc: Global, a: &Layout, parts: &[Steps]) -> Result<Layout, AllocError>
    requires { TakesAll a.now parts.now }
    ensures { IfOk result (λ layout. layout ≡ sliced a.now parts.now) }
{
    let axes = slices(alloc, a.axes(), parts)?;
    Ok(Layout::of(axes))
}

fn slices(alloc: Global, a: &[Cuts], parts: &[Steps]) -> Result<Vec<Cuts>, AllocError>
    requires parts { TakesAll a.now parts.now }
    requires sound { IsLayout a.now }
    ensures value { IfOk result (λ axes. axes.items ≡ sliced a.now parts.now) }
    ensures sound { IfOk result (λ axes. IsLayout axes.items) }
{
    let mut axes = Vec::with_capacity(alloc, a.len())?;
    for axis in 0..a.len() {
        axes.push(slice_of(alloc, &a[axis], parts[axis])?)?;
    }
    Ok(axes)
}

/// The cut of a slice of one axis.
#[tactic(auto, using(crate::proofs::Running::taken_is_cut))]
pub fn slice_of(alloc: Global, cuts: &Cuts, steps: Steps) -> Result<Cuts, AllocError>
    requires { TakesOf (total cuts.now) steps }
    ensures value { IfOk result (λ sizes. sizes ≡ counts_taken (taken_of cuts.now steps)) }
    ensures cut { IsCut (counts_taken (taken_of cuts.now steps)) }
{
    let _ = cuts.sizes();
    let pieces = chunks_taken(alloc, cuts, steps)?;
    let sizes = counts_of(alloc, pieces.as_slice())?;
    Cuts::of(alloc, sizes)
}

fn counts_of(alloc: Global, pieces: &[ChunkSteps]) -> Result<Vec<u32>, AllocError>
    requires { total (counts_taken pieces.now) ≤ 2 ^ 31 }
    ensures { IfOk result (λ sizes. sizes.items ≡ counts_taken pieces.now) }
{
    let mut sizes = Vec::with_capacity(alloc, pieces.len())?;
    for piece in pieces {
        sizes.push(piece.steps.count as u32)?;
    }
    Ok(sizes)
}

/// What a slice takes of the chunks of an axis, in its order: a piece wherever it goes on in another chunk, and chunk 0,
/// of which nothing is taken, where it has no element. A binary search for each piece.
pub fn chunks_taken(alloc: Global, cuts: &Cuts, steps: Steps) -> Result<Vec<ChunkSteps>, AllocError>
    requires { TakesOf (total cuts.now) steps }
    ensures { IfOk result (λ list. list.items ≡ taken_of cuts.now steps) }
{
    if steps.count == 0 {
        return one(alloc, no_steps(steps));
    }
    let mut list = Vec::new(alloc);
    let mut at = 0;
    while at < steps.count {
        let piece = taken_at(cuts, steps, at);
        at += piece.steps.count;
        list.push(piece)?;
    }
    Ok(list)
}

fn one(alloc: Global, piece: ChunkSteps) -> Result<Vec<ChunkSteps>, AllocError>
    ensures { IfOk result (λ list. list.items ≡ piece ∷ []) }
{
    let mut list = Vec::new(alloc);
    list.push(piece)?;
    Ok(list)
}

fn no_steps(steps: Steps) -> ChunkSteps
    ensures { result ≡ record { chunk = 0; steps = record { start = 0; step = steps.step; count = 0 } } }
{
    ChunkSteps {
        chunk: 0,
        steps: Steps {
            start: 0,
            step: steps.step,
            count: 0,
        },
    }
}

// The longest piece from a place of the slice on that lies in one chunk.
fn taken_at(cuts: &Cuts, steps: Steps, at: u64) -> ChunkSteps
    requires fits { TakesOf (total cuts.now) steps }
    requires there { at < steps.count }
    ensures { IsRun cuts.now steps at result }
{
    let starts = cuts.starts();
    let index = coordinate_of(steps, at);
    let chunk = cuts.chunk_at(index);
    let low = starts[chunk as usize];
    let high = starts[chunk as usize + 1];
    let room = room_of(steps.step, index, low, high);
    let size = steps.step.unsigned_abs();
    let count = (room / size + 1).min(steps.count - at);
    ChunkSteps {
        chunk,
        steps: Steps {
            start: index - low,
            step: steps.step,
            count,
        },
    }
}

fn room_of(step: i64, index: u64, low: u64, high: u64) -> u64
    requires low { low ≤ index }
    requires high { index < high }
    ensures { result ≡ room_ahead step index low high }
{
    if step < 0 {
        index - low
    } else {
        high - 1 - index
    }
}

// The index of the axis at place i of a slice.
fn coordinate_of(steps: Steps, i: u64) -> u64
    requires forward { pos 0 ≤ℤ position steps i }
    requires small { coordinate steps i < 2 ^ 31 }
    ensures { result ≡ coordinate steps i }
{
    let span = steps.step.unsigned_abs() * i;
    if steps.step < 0 {
        steps.start - span
    } else {
        steps.start + span
    }
}
