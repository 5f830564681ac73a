//! What the blocks of one layout are made of in another.
ghost use Rattle.std.specs.Prelude.{◌≡◌, ◌<◌, ◌≤◌, ◌+◌, ◌*◌, ◌++◌, [], length, map, OnOk, IfOk, IsTrue, ◌↔◌};
ghost use Rattle.std.specs.List.{flat_map};
ghost use Rattle.nd_shape.specs.Chunk.{total};
ghost use Rattle.nd_shape.specs.Index.{IsIn};
ghost use Rattle.chunk_layout.specs.Layouts.{counts, lengths, blocks};
ghost use Rattle.chunk_layout.specs.Cuts.{IsLayout};
ghost use Rattle.chunk_layout.specs.Plans.{plan as pieces_of, overlaps_from};
ghost use Rattle.chunk_layout.specs.Crossings.{extended, IsOpen, AllOpen, HasElements, pieces_at};

use crate::cuts::Cuts;
use crate::layout::{Layout, numbers_at};
use nd_shape::shape::AXES;
use nd_shape::{Piece, Pieces, Region};
use std::alloc::{AllocError, Global};

/// What block `block` of `to` is made of in `from`, for layouts of equal shapes, as in Dask's rechunk
/// (<https://docs.dask.org/en/stable/generated/dask.array.rechunk.html>): a piece for each block of `from` that meets its
/// region in an element, in row-major order. A piece's source is the number of that block, `from` counts from that
/// block's first element and `to` from the first element of the new block. An empty block has no piece, and the block of
/// an array without axes has one.
pub fn plan(alloc: Global, from: &Layout, to: &Layout, block: u64) -> Result<Pieces, AllocError>
    requires same { lengths from.now ≡ lengths to.now }
    requires block { block < blocks to.now }
    ensures { IfOk result (λ pieces. pieces ≡ pieces_of from.now to.now block) }
{
    let mut numbers = [0; AXES];
    let axes = to.axes();
    let used = &mut numbers[..axes.len()];
    numbers_at(axes, block, used);
    let pieces = pieces_of_block(alloc, from.axes(), axes, used)?;
    Ok(Pieces::from_vec(pieces))
}

fn pieces_of_block(
    alloc: Global,
    from: &[Cuts],
    to: &[Cuts],
    numbers: &[u64],
) -> Result<Vec<Piece>, AllocError>
    requires sound { IsLayout from.now }
    requires same { lengths from.now ≡ lengths to.now }
    requires numbers { IsIn (counts to.now) numbers.now }
    ensures { IfOk result (λ pieces. pieces.items ≡ pieces_at from.now to.now numbers.now) }
{
    if has_elements(to, numbers) {
        crossings(alloc, from, to, numbers)
    } else {
        Ok(Vec::new(alloc))
    }
}

// Whether no chunk of the block is empty.
fn has_elements(axes: &[Cuts], numbers: &[u64]) -> bool
    requires { IsIn (counts axes.now) numbers.now }
    ensures { IsTrue result ↔ HasElements axes.now numbers.now }
{
    for axis in 0..axes.len() {
        if axes[axis].sizes()[numbers[axis] as usize] == 0 {
            return false;
        }
    }
    true
}

fn first_piece() -> Piece
    ensures { result ≡ record { source = 0; from = record { start = []; lengths = [] }; to = record { start = []; lengths = [] } } }
{
    Piece {
        source: 0,
        from: Region::new(),
        to: Region::new(),
    }
}

// The pieces, axis by axis.
fn crossings(
    alloc: Global,
    from: &[Cuts],
    to: &[Cuts],
    numbers: &[u64],
) -> Result<Vec<Piece>, AllocError>
    requires sound { IsLayout from.now }
    requires same { lengths from.now ≡ lengths to.now }
    requires numbers { IsIn (counts to.now) numbers.now }
    requires some { HasElements to.now numbers.now }
    ensures { IfOk result (λ pieces. pieces.items ≡ pieces_at from.now to.now numbers.now) }
{
    let mut pieces = Vec::new(alloc);
    pieces.push(first_piece())?;
    for axis in 0..from.len() {
        let starts = to[axis].starts();
        let number = numbers[axis] as usize;
        let (low, high) = (starts[number], starts[number + 1]);
        pieces = crossed(alloc, pieces.as_slice(), &from[axis], low, high)?;
    }
    Ok(pieces)
}

// Each piece, cut by the chunks of one more axis that lie between two places.
fn crossed(
    alloc: Global,
    pieces: &[Piece],
    from: &Cuts,
    low: u64,
    high: u64,
) -> Result<Vec<Piece>, AllocError>
    requires open { AllOpen 1 (length from.now) pieces.now }
    requires some { low < high }
    requires top { high ≤ total from.now }
    ensures { IfOk result (λ v. v.items ≡ flat_map (λ p. map (extended (length from.now) p) (overlaps_from 0 0 low high from.now)) pieces.now) }
{
    let mut out = Vec::new(alloc);
    for piece in pieces {
        put_parts(piece, from, low, high, &mut out)?;
    }
    Ok(out)
}

// The parts of one piece.
fn put_parts(
    piece: &Piece,
    from: &Cuts,
    low: u64,
    high: u64,
    out: &mut Vec<Piece>,
) -> Result<(), AllocError>
    requires open { IsOpen 1 (length from.now) piece.now }
    requires some { low < high }
    requires top { high ≤ total from.now }
    ensures { OnOk result (out.new.items ≡ out.old.items ++ map (extended (length from.now) piece.now) (overlaps_from 0 0 low high from.now)) }
{
    let starts = from.starts();
    let count = from.count();
    let mut chunk = from.chunk_at(low);
    while starts[chunk as usize] < high {
        let at = starts[chunk as usize];
        let end = starts[chunk as usize + 1].min(high);
        let begin = at.max(low);
        out.push(part(piece, count, chunk, begin - at, begin - low, end - begin))?;
        chunk += 1;
    }
    Ok(())
}

// A piece, cut on one more axis.
fn part(piece: &Piece, count: u64, chunk: u64, from: u64, to: u64, len: u64) -> Piece
    requires open { IsOpen 1 count piece.now }
    requires there { chunk < count }
    ensures { result ≡ extended count piece.now (record { chunk = chunk; from = from; to = to; len = len }) }
{
    let mut from_region = piece.from.copy();
    from_region.push(from, len);
    let mut to_region = piece.to.copy();
    to_region.push(to, len);
    Piece {
        source: (u64::from(piece.source) * count + chunk) as u32,
        from: from_region,
        to: to_region,
    }
}
