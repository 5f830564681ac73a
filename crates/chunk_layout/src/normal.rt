//! Layouts from specifications of chunks.
ghost use Rattle.std.specs.Prelude.{◌≡◌, ◌≢◌, ◌^◌, ◌-◌, min, IfOk, OnOk, IfErr};
ghost use Rattle.nd_shape.specs.Shape.{IsShape};
ghost use Rattle.chunk_layout.specs.Layouts.{blocks, lengths, normalized};
ghost use Rattle.chunk_layout.specs.Cuts.{IsLayout};
ghost use Rattle.chunk_layout.specs.Refusals.{AreCut, RefusesCut};

use crate::cuts::Cuts;
use crate::layout::Layout;
use nd_shape::{ChunkError, ChunkSpec, Shape, axis_chunks, chunk_count};
use std::alloc::Global;

/// The layout of an array, as Dask's `normalize_chunks` (<https://docs.dask.org/en/stable/array-chunks.html>): on each
/// axis a number cuts chunks of that size and a smaller last one, and a list is taken as it stands. Another number of
/// specifications than of axes is AxisCount; then the first axis that can't be cut so says why, a chunk of 0 before a
/// wrong sum. Everything is counted before a size is made: `blocks_of` tells how many blocks there would be.
pub fn normalize(alloc: Global, shape: &Shape, specs: &[ChunkSpec]) -> Result<Layout, ChunkError>
    ensures ok { IfOk result (λ layout. layout ≡ normalized shape.now specs.now) }
    ensures shape { IfOk result (λ layout. lengths layout ≡ shape.now) }
    ensures cut { OnOk result (AreCut shape.now specs.now) }
    ensures err { IfErr result (λ e. RefusesCut shape.now specs.now e) }
{
    let _ = blocks_of(shape, specs)?;
    let axes = axes_of(alloc, shape.dims(), specs)?;
    Ok(Layout::of(axes))
}

/// The number of blocks of the layout that `normalize` makes, or 2^64-1 where it is larger, or why it refuses, by counting
/// alone. No memory.
pub fn blocks_of(shape: &Shape, specs: &[ChunkSpec]) -> Result<u64, ChunkError>
    ensures ok { IfOk result (λ count. count ≡ min (blocks (normalized shape.now specs.now)) (2 ^ 64 - 1)) }
    ensures cut { OnOk result (AreCut shape.now specs.now) }
    ensures err { IfErr result (λ e. RefusesCut shape.now specs.now e) }
    ensures memory { result ≢ Err ChunkError.OutOfMemory }
{
    let dims = shape.dims();
    if specs.len() != dims.len() {
        return Err(ChunkError::AxisCount {
            given: specs.len() as u64,
            axes: dims.len() as u64,
        });
    }
    let mut count = 1u64;
    for axis in 0..dims.len() {
        match chunk_count(axis as u32, dims[axis], &specs[axis]) {
            Ok(chunks) => count = count.saturating_mul(chunks),
            Err(e) => return Err(e),
        }
    }
    Ok(count)
}

fn axes_of(alloc: Global, dims: &[u64], specs: &[ChunkSpec]) -> Result<Vec<Cuts>, ChunkError>
    requires shape { IsShape dims.now }
    requires cut { AreCut dims.now specs.now }
    ensures ok { IfOk result (λ axes. axes.items ≡ normalized dims.now specs.now) }
    ensures shape { IfOk result (λ axes. lengths axes.items ≡ dims.now) }
    ensures sound { IfOk result (λ axes. IsLayout axes.items) }
    ensures err { IfErr result (λ e. RefusesCut dims.now specs.now e) }
{
    let mut axes = Vec::with_capacity(alloc, dims.len())?;
    for axis in 0..dims.len() {
        let sizes = axis_chunks(alloc, axis as u32, dims[axis], &specs[axis])?;
        axes.push(Cuts::of(alloc, sizes.into_vec())?)?;
    }
    Ok(axes)
}
