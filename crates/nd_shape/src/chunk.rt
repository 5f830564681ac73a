//! How an axis is cut into chunks.
ghost use Rattle.std.specs.Prelude.{◌≡◌, ◌≢◌, ◌+◌, ◌*◌, ◌/◌, ◌%◌, ◌<◌, ◌≤◌, ◌^◌, length, IfOk, IfErr, OnOk, [], ◌∷◌};
ghost use Rattle.nd_shape.specs.Chunk.{chunks_of, even_chunks, CanCut, RefusesChunks, total};

use crate::error::ChunkError;
use crate::sequence::{Dims, Sizes};
use std::alloc::{AllocError, Global};

/// How an axis is cut into chunks: by one size, with a smaller last chunk, or by a list of sizes.
#[derive(Drop)]
pub enum ChunkSpec {
    Even(u64),
    List(Dims),
}

/// The sizes of the chunks of an axis, as Dask's `normalize_chunks`
/// (<https://docs.dask.org/en/stable/array-chunks.html>): a number cuts chunks of that size and a smaller last one, and
/// a list is taken as it stands. An axis of length 0 has the one chunk 0, whatever number was given. A chunk of 0 is
/// ZeroChunk, which goes before SumDiffers. It takes four bytes per chunk: `chunk_count` tells first how many there are.
pub fn axis_chunks(
    alloc: Global,
    axis: u32,
    len: u64,
    spec: &ChunkSpec,
) -> Result<Sizes, ChunkError>
    requires { len ≤ 2 ^ 31 }
    ensures ok { IfOk result (λ sizes. sizes ≡ chunks_of len spec.now) }
    ensures cut { OnOk result (CanCut len spec.now) }
    ensures sum { OnOk result (total (chunks_of len spec.now) ≡ len) }
    ensures err { IfErr result (λ e. RefusesChunks axis len spec.now e) }
{
    let count = chunk_count(axis, len, spec)?;
    let sizes = match spec {
        ChunkSpec::Even(size) => even(alloc, len, *size)?,
        ChunkSpec::List(sizes) => narrowed(alloc, sizes.as_slice())?,
    };
    let _ = count;
    Ok(Sizes::from_vec(sizes))
}

/// How many chunks `axis_chunks` makes, or why it refuses, by counting alone. No memory.
pub fn chunk_count(axis: u32, len: u64, spec: &ChunkSpec) -> Result<u64, ChunkError>
    requires { len ≤ 2 ^ 31 }
    ensures ok { IfOk result (λ count. count ≡ length (chunks_of len spec.now)) }
    ensures cut { OnOk result (CanCut len spec.now) }
    ensures err { IfErr result (λ e. RefusesChunks axis len spec.now e) }
    ensures memory { result ≢ Err ChunkError.OutOfMemory }
{
    match spec {
        ChunkSpec::Even(size) => even_count(axis, len, *size),
        ChunkSpec::List(sizes) => list_count(axis, len, sizes.as_slice()),
    }
}

fn even_count(axis: u32, len: u64, size: u64) -> Result<u64, ChunkError>
    ensures ok { IfOk result (λ count. count ≡ length (chunks_of len (ChunkSpec.Even size))) }
    ensures cut { OnOk result (CanCut len (ChunkSpec.Even size)) }
    ensures err { IfErr result (λ e. (e ≡ ChunkError.ZeroChunk axis) × RefusesChunks axis len (ChunkSpec.Even size) e) }
{
    if len == 0 {
        return Ok(1);
    }
    if size == 0 {
        return Err(ChunkError::ZeroChunk { axis });
    }
    Ok(count_of(len, size))
}

fn count_of(len: u64, size: u64) -> u64
    requires { 0 < size }
    ensures { result ≡ length (even_chunks len size) }
{
    if len % size == 0 {
        len / size
    } else {
        len / size + 1
    }
}

fn list_count(axis: u32, len: u64, sizes: &[u64]) -> Result<u64, ChunkError>
    ensures ok { IfOk result (λ count. count ≡ length (chunks_of len (ChunkSpec.List sizes.now))) }
    ensures cut { OnOk result (CanCut len (ChunkSpec.List sizes.now)) }
    ensures err { IfErr result (λ e. (e ≢ ChunkError.OutOfMemory) × RefusesChunks axis len (ChunkSpec.List sizes.now) e) }
{
    if len == 0 {
        return no_length(axis, sizes);
    }
    if sizes.contains(&0) {
        return Err(ChunkError::ZeroChunk { axis });
    }
    let sum = sum_of(sizes);
    if sum != u128::from(len) {
        return Err(ChunkError::SumDiffers { axis, sum, len });
    }
    Ok(sizes.len() as u64)
}

// A list for an axis of length 0.
fn no_length(axis: u32, sizes: &[u64]) -> Result<u64, ChunkError>
    ensures ok { IfOk result (λ count. count ≡ 1) }
    ensures cut { OnOk result (sizes.now ≡ 0 ∷ []) }
    ensures err { IfErr result (λ e. (e ≢ ChunkError.OutOfMemory) × RefusesChunks axis 0 (ChunkSpec.List sizes.now) e) }
{
    match sizes {
        [0] => Ok(1),
        _ => {
            if sizes.is_empty() || sizes.contains(&0) {
                return Err(ChunkError::ZeroChunk { axis });
            }
            Err(ChunkError::SumDiffers {
                axis,
                sum: sum_of(sizes),
                len: 0,
            })
        }
    }
}

fn sum_of(sizes: &[u64]) -> u128
    ensures { result ≡ total sizes.now }
{
    let mut sum = 0;
    for size in sizes {
        sum += u128::from(*size);
    }
    sum
}

fn even(alloc: Global, len: u64, size: u64) -> Result<Vec<u32>, AllocError>
    requires len { len ≤ 2 ^ 31 }
    requires cut { CanCut len (ChunkSpec.Even size) }
    ensures { IfOk result (λ v. v.items ≡ chunks_of len (ChunkSpec.Even size)) }
{
    if len == 0 {
        return Ok(vec![in alloc; 0]?);
    }
    // A size above the length leaves the one chunk that is smaller.
    let whole = size.min(len) as u32;
    let mut sizes = vec![in alloc; whole; (len / size) as usize]?;
    if len % size != 0 {
        sizes.push((len % size) as u32)?;
    }
    Ok(sizes)
}

fn narrowed(alloc: Global, sizes: &[u64]) -> Result<Vec<u32>, AllocError>
    requires { total sizes.now ≤ 2 ^ 31 }
    ensures { IfOk result (λ v. v.items ≡ sizes.now) }
{
    let mut narrow = Vec::with_capacity(alloc, sizes.len())?;
    for size in sizes {
        narrow.push(*size as u32)?;
    }
    Ok(narrow)
}
