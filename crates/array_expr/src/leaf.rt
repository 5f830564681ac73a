//! Arrays without operands: their limits and their chunks.
ghost use Rattle.std.specs.Prelude.{◌≡◌, ◌≤◌, ◌^◌, length, All, IfOk, IfErr, OnOk};
ghost use Rattle.nd_shape.specs.Shape.{IsShape};
ghost use Rattle.array_expr.specs.Axes.{AreCut, RefusesCut};
ghost use Rattle.array_expr.specs.Refusal.{PassesLimit, RefusesLeaf, RefusesRechunk};

use crate::error::{NodeError, Quantity};
use nd_shape::{ChunkError, ChunkSpec, Dims, Shape, ShapeLimit, Specs, chunk_count};
use std::alloc::Global;

/// The shape with these lengths, or the limit that they pass. No memory.
pub fn limited(dims: Vec<u64>) -> Result<Shape, Quantity>
    ensures ok { IfOk result (λ shape. shape ≡ dims.items) }
    ensures limits { OnOk result (IsShape dims.items) }
    ensures err { IfErr result (λ quantity. PassesLimit quantity dims.items) }
{
    match Shape::new(dims) {
        Ok(shape) => Ok(shape),
        Err(ShapeLimit::Axes) => Err(Quantity::Axes),
        Err(ShapeLimit::Elements) => Err(Quantity::Elements),
    }
}

/// Whether each axis can be cut as it is said, or the first cause why not. No memory.
pub fn check_cut(dims: &[u64], chunks: &[ChunkSpec]) -> Result<(), ChunkError>
    requires few { length dims.now ≤ 8 }
    requires lengths { All (λ n. n ≤ 2 ^ 31) dims.now }
    ensures ok { OnOk result (AreCut dims.now chunks.now) }
    ensures err { IfErr result (λ e. RefusesCut dims.now chunks.now e) }
{
    if chunks.len() != dims.len() {
        return Err(ChunkError::AxisCount {
            given: chunks.len() as u64,
            axes: dims.len() as u64,
        });
    }
    for axis in 0..dims.len() {
        match chunk_count(axis as u32, dims[axis], &chunks[axis]) {
            Ok(_) => {}
            Err(e) => return Err(e),
        }
    }
    Ok(())
}

/// The shape of an array without operands.
pub fn leaf_shape(alloc: Global, dims: &Dims, chunks: &Specs) -> Result<Shape, NodeError>
    ensures ok { IfOk result (λ shape. shape ≡ dims.now) }
    ensures cut { OnOk result (AreCut dims.now chunks.now) }
    ensures err { IfErr result (λ e. RefusesLeaf dims.now chunks.now e) }
{
    let lengths = Vec::from_slice(alloc, dims.as_slice())?;
    let shape = limited(lengths)?;
    match check_cut(shape.dims(), chunks.as_slice()) {
        Ok(()) => Ok(shape),
        Err(e) => Err(NodeError::Chunks(e)),
    }
}

/// The shape of an array in other chunks.
pub fn rechunked_shape(alloc: Global, of: &Shape, chunks: &Specs) -> Result<Shape, NodeError>
    ensures ok { IfOk result (λ shape. shape ≡ of.now) }
    ensures cut { OnOk result (AreCut of.now chunks.now) }
    ensures err { IfErr result (λ e. RefusesRechunk of.now chunks.now e) }
{
    match check_cut(of.dims(), chunks.as_slice()) {
        Ok(()) => Ok(of.copy(alloc)?),
        Err(e) => Err(NodeError::Chunks(e)),
    }
}
