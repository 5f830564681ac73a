//! Rechunking: each block is put together of the parts that blocks of another layout have of it.
ghost use Rattle.std.specs.Prelude.{◌≡◌, ◌≤◌, length, IfOk, IfErr};
ghost use Rattle.nd_shape.specs.Index.{index_at};
ghost use Rattle.chunk_layout.specs.Layouts.{counts, lengths_at, normalized};
ghost use Rattle.lowering_laws.specs.Sources.{fitted, rechunked};
ghost use Rattle.lowering_laws.specs.Stages.{rechunked_blocks};
ghost use Rattle.block_lowering.specs.Growing.{Refuses, IsGrown};
ghost use Rattle.block_lowering.specs.Rechunking.{renamed, keys_of_parts, shapes_of_parts, assembled};

use crate::counts::{counts_of, numbers_of};
use crate::error::LowerError;
use crate::growing::{Stage, push_blocks};
use crate::layouts::{are_same, cut_one_shape, layout_of};
use crate::parts::{KEYS, cost_of, lengths_of};
use crate::sources::Keyed;
use block_kernels::Spec;
use chunk_layout::{Layout, plan};
use cluster_msgs::KeyList;
use nd_shape::{ChunkSpec, Piece, Pieces, Shape, Shapes};
use std::alloc::{AllocError, Global};
use task_graph::{Graph, Task};

// The key of each piece's block.
fn keys_of_pieces(alloc: Global, source: &Keyed, pieces: &[Piece]) -> Result<Vec<u32>, AllocError>
    ensures { IfOk result (λ keys. keys.items ≡ keys_of_parts source.now pieces.now) }
{
    let mut keys = Vec::with_capacity(alloc, pieces.len())?;
    for piece in pieces {
        keys.push(source.key_of_block(piece.source)?)?;
    }
    Ok(keys)
}

// The lengths of a block, by its number.
fn lengths_of_block(alloc: Global, source: &Keyed, block: u32) -> Result<Shape, AllocError>
    ensures { IfOk result (λ shape. shape ≡ lengths_at source.now.layout (index_at (counts source.now.layout) block)) }
{
    if block >= source.blocks() {
        return Err(AllocError);
    }
    let axes = source.layout().axes();
    let counts = counts_of(alloc, axes)?;
    let mut numbers = vec![in alloc; 0u64; counts.len()]?;
    numbers_of(counts.as_slice(), u64::from(block), numbers.as_mut_slice());
    lengths_of(alloc, axes, numbers.as_slice())
}

// The lengths of each piece's block.
fn shapes_of_pieces(
    alloc: Global,
    source: &Keyed,
    pieces: &[Piece],
) -> Result<Vec<Shape>, AllocError>
    ensures { IfOk result (λ shapes. shapes.items ≡ shapes_of_parts source.now pieces.now) }
{
    let mut shapes = Vec::with_capacity(alloc, pieces.len())?;
    for piece in pieces {
        shapes.push(lengths_of_block(alloc, source, piece.source)?)?;
    }
    Ok(shapes)
}

// Names the place of each piece's block among the inputs: each piece has a block of its own.
fn name_places(pieces: &mut [Piece])
    requires { length pieces.old ≤ 32768 }
    ensures { pieces.new ≡ renamed 0 pieces.old }
{
    for (place, piece) in pieces.iter_mut().enumerate() {
        piece.source = place as u32;
    }
}

// The task that puts a block of these lengths together of pieces of an array's blocks.
fn assembly(
    alloc: Global,
    source: &Keyed,
    pieces: Vec<Piece>,
    shape: Shape,
) -> Result<Task, AllocError>
    ensures { IfOk result (λ task. task ≡ assembled source.now pieces.items shape) }
{
    let mut pieces = pieces;

    // A task has no more inputs than a graph has keys.
    if pieces.len() as u64 > KEYS {
        return Err(AllocError);
    }
    let keys = keys_of_pieces(alloc, source, pieces.as_slice())?;
    let shapes = shapes_of_pieces(alloc, source, pieces.as_slice())?;
    let cost = cost_of(&shape, shapes.as_slice())?;
    name_places(pieces.as_mut_slice());
    Ok(Task {
        spec: Spec::Assemble {
            pieces: Pieces::from_vec(pieces),
            inputs: Shapes::from_vec(shapes),
            shape,
        },
        deps: KeyList::from_vec(keys),
        work: cost.work,
        nbytes: cost.nbytes,
    })
}

// The blocks of an array in another layout.
#[derive(Drop)]
struct Rechunked<'a> {
    source: &'a Keyed,
    layout: &'a Layout,
}

impl<'a> Stage for Rechunked<'a> {
    ghost use Rattle.std.specs.Prelude.{◌≡◌};
    ghost use Rattle.chunk_layout.specs.Layouts.{counts, lengths};
    ghost use Rattle.lowering_laws.specs.Sources.{rechunk_task};

    ghost task_of = { λ s bs. rechunk_task s.source.now s.layout.now bs };

    ghost chunks = { λ s. counts s.layout.now };

    ghost sound = { λ s. lengths s.source.now.layout ≡ lengths s.layout.now };

    fn task(&self, alloc: Global, place: u64, block: &[u64]) -> Result<Task, AllocError> {
        let pieces = plan(alloc, self.source.layout(), self.layout, place)?;
        let shape = lengths_of(alloc, self.layout.axes(), block)?;
        assembly(alloc, self.source, pieces.into_vec(), shape)
    }
}

// Puts the blocks of an array in another layout behind the tasks of a graph. Both layouts cut one shape, always.
fn push_layout(
    alloc: Global,
    graph: &mut Graph,
    source: &Keyed,
    layout: Layout,
) -> Result<Keyed, LowerError>
    ensures ok { IfOk result (IsGrown graph.old (rechunked (length graph.old) source.now layout) graph.new) }
    ensures err { IfErr result (Refuses graph.old (rechunked (length graph.old) source.now layout).tasks) }
{
    if !cut_one_shape(source.layout(), &layout) {
        return Err(LowerError::OutOfMemory);
    }
    let first = graph.keys();
    let counts = counts_of(alloc, layout.axes())?;
    let stage = Rechunked {
        source,
        layout: &layout,
    };
    push_blocks(alloc, graph, &stage, counts.as_slice())?;
    Ok(Keyed::new(layout, first, 1)?)
}

/// The array in a layout: rechunked, behind the tasks of a graph, where its own differs.
pub fn push_fitted(
    alloc: Global,
    graph: &mut Graph,
    source: &Keyed,
    layout: Layout,
) -> Result<Keyed, LowerError>
    ensures ok { IfOk result (IsGrown graph.old (fitted (length graph.old) source.now layout) graph.new) }
    ensures err { IfErr result (Refuses graph.old (fitted (length graph.old) source.now layout).tasks) }
{
    if are_same(source.layout(), &layout) {
        return Ok(source.copy(alloc)?);
    }
    push_layout(alloc, graph, source, layout)
}

/// Puts the blocks of an array, cut as specified, behind the tasks of a graph.
pub fn push_rechunked(
    alloc: Global,
    graph: &mut Graph,
    source: &Keyed,
    shape: &Shape,
    chunks: &[ChunkSpec],
) -> Result<Keyed, LowerError>
    ensures ok { IfOk result (IsGrown graph.old (rechunked_blocks source.now (normalized shape.now chunks.now) (length graph.old)) graph.new) }
    ensures err { IfErr result (Refuses graph.old (rechunked_blocks source.now (normalized shape.now chunks.now) (length graph.old)).tasks) }
{
    let layout = layout_of(alloc, shape, chunks)?;
    let made = push_layout(alloc, graph, source, layout)?;
    graph.sound();
    Ok(made)
}
