//! Concatenations: each block is one block of an operand, once the operands have the same chunks on the other axes.
ghost use Rattle.std.specs.Prelude.{◌≡◌, ◌<◌, ◌^◌, ◌++◌, ◌∷◌, [], length, map, cond, nat_eq, get_or, IfOk, IfErr, OnOk};
ghost use Rattle.lowering_laws.specs.Stages.{Along, along_at as along_place, along_from, along_all, or_empty, joined_all, common_layout, fitted_along, whole_piece, concatenated_blocks};
ghost use Rattle.block_lowering.specs.Args.{AreCommon, OfCommon};
ghost use Rattle.block_lowering.specs.Growing.{Refuses, IsGrown};
ghost use Rattle.block_lowering.specs.Joining.{AllAlong, sizes_along, layouts_in};

use crate::counts::counts_of;
use crate::error::LowerError;
use crate::growing::{Stage, push_blocks};
use crate::layouts::{cut_from, joined_if, with_axis};
use crate::lists::{number_at, with_number};
use crate::moving::one_key;
use crate::parts::{cost_of, lengths_of};
use crate::rechunk::push_fitted;
use crate::sources::Keyed;
use block_kernels::Spec;
use chunk_layout::{Cuts, Layout};
use nd_shape::{Piece, Pieces, Region, Shape, Shapes};
use std::alloc::{AllocError, Global};
use std::marker::Model;
use std::slice;
use task_graph::{Graph, Task};

// A chunk along the axis of a concatenation: the operand that it is of, its number there, and its size.
#[derive(Drop)]
struct ChunkAlong {
    operand: u32,
    chunk: u64,
    size: u32,
}

impl Model for ChunkAlong {
    ghost use Rattle.lowering_laws.specs.Stages.{Along};

    ghost Value = { Along };

    ghost view = { λ a. record { operand = a.operand; chunk = a.chunk; size = a.size } };
}

// ---- along the axis

// One more chunk, unless it is empty.
fn push_chunk(
    list: &mut Vec<ChunkAlong>,
    operand: u32,
    chunk: u64,
    size: u32,
) -> Result<(), AllocError>
    ensures { OnOk result (list.new.items ≡ list.old.items ++ cond (nat_eq size 0) [] (record { operand = operand; chunk = chunk; size = size } ∷ [])) }
{
    if size > 0 {
        list.push(ChunkAlong {
            operand,
            chunk,
            size,
        })?;
    }
    Ok(())
}

// Puts the chunks of an operand that aren't empty at the end.
fn push_along(list: &mut Vec<ChunkAlong>, operand: u32, sizes: &[u32]) -> Result<(), AllocError>
    ensures { OnOk result (list.new.items ≡ list.old.items ++ along_from operand 0 sizes.now) }
{
    for (chunk, size) in sizes.iter().enumerate() {
        push_chunk(list, operand, chunk as u64, *size)?;
    }
    Ok(())
}

// The sizes of the chunks of an operand on an axis, or none where it has no such axis.
fn sizes_on(source: &Keyed, axis: usize) -> &[u32]
    ensures { result.now ≡ get_or source.now.layout axis [] }
{
    match source.layout().axes().get(axis) {
        Some(cuts) => cuts.sizes(),
        None => &[],
    }
}

// The chunks of all operands that aren't empty, or one that is.
fn chunks_along(
    alloc: Global,
    sources: &[Keyed],
    axis: usize,
) -> Result<Vec<ChunkAlong>, AllocError>
    requires { length sources.now < 2 ^ 32 }
    ensures { IfOk result (λ v. v.items ≡ or_empty (along_all 0 (map (sizes_along axis) sources.now))) }
{
    let mut list = Vec::new(alloc);
    for (operand, source) in sources.iter().enumerate() {
        push_along(&mut list, operand as u32, sizes_on(source, axis))?;
    }
    if list.is_empty() {
        list.push(ChunkAlong {
            operand: 0,
            chunk: 0,
            size: 0,
        })?;
    }
    Ok(list)
}

// The cut of the result along the axis.
fn cut_along(alloc: Global, along: &[ChunkAlong]) -> Result<Cuts, AllocError>
    ensures { IfOk result (λ cuts. cuts ≡ map (λ (a : Along). a.size) along.now) }
{
    let mut sizes = Vec::with_capacity(alloc, along.len())?;
    for chunk in along {
        sizes.push(chunk.size)?;
    }
    cut_from(alloc, sizes)
}

// ---- on the other axes

// The union of the operands' cuts on an axis on which they have one length.
fn common_cuts(alloc: Global, sources: &[Keyed], axis: usize) -> Result<Cuts, AllocError>
    ensures { IfOk result (λ cuts. cuts ≡ joined_all (map (sizes_along axis) sources.now)) }
{
    let mut cuts = None;
    let mut place = sources.len();
    while place > 0 {
        place -= 1;
        let own = sources[place].layout().axes().get(axis);
        cuts = joined_if(alloc, own, cuts)?;
    }
    match cuts {
        Some(cuts) => Ok(cuts),

        // The operands have the axis.
        None => Err(AllocError),
    }
}

// A copy of an operand's own cut on an axis, which it has.
fn own_cuts(alloc: Global, source: &Keyed, axis: usize) -> Result<Cuts, AllocError>
    ensures { IfOk result (λ cuts. cuts ≡ get_or source.now.layout axis []) }
{
    match source.layout().axes().get(axis) {
        Some(cuts) => cuts.copy(alloc),
        None => Err(AllocError),
    }
}

// The cut of an axis: the common one, or the first operand's own along the axis of the concatenation.
fn cuts_of_axis(
    alloc: Global,
    sources: &[Keyed],
    along: usize,
    axis: usize,
) -> Result<Cuts, AllocError>
    requires { 0 < length sources.now }
    ensures { (axis ≡ along → ⊥) → IfOk result (λ cuts. cuts ≡ joined_all (map (sizes_along axis) sources.now)) }
{
    if axis == along {
        own_cuts(alloc, &sources[0], axis)
    } else {
        common_cuts(alloc, sources, axis)
    }
}

// The cuts that the operands get, but for the axis along which they are put together.
fn common(alloc: Global, sources: &[Keyed], axis: usize) -> Result<Vec<Cuts>, AllocError>
    requires { 0 < length sources.now }
    ensures { IfOk result (λ v. AreCommon (common_layout (layouts_in sources.now)) axis v.items) }
{
    let count = sources[0].layout().axes().len();
    let mut axes = Vec::with_capacity(alloc, count)?;
    for k in 0..count {
        axes.push(cuts_of_axis(alloc, sources, axis, k)?)?;
    }
    Ok(axes)
}

// Brings each operand to the common layout, with its own chunks along the axis.
fn fit_all(
    alloc: Global,
    graph: &mut Graph,
    axes: &[Cuts],
    axis: usize,
    sources: &[Keyed],
) -> Result<Vec<Keyed>, LowerError>
    ensures ok { OfCommon axis axes.now (λ common. IfOk result (λ v. AllAlong common axis sources.now graph.old graph.new v.items)) }
    ensures err { OfCommon axis axes.now (λ common. IfErr result (Refuses graph.old (fitted_along common axis sources.now (length graph.old)).tasks)) }
{
    let mut fitted = Vec::with_capacity(alloc, sources.len())?;
    for source in sources {
        let own = own_cuts(alloc, source, axis)?;
        let target = with_axis(alloc, axes, axis, &own)?;
        fitted.push(push_fitted(alloc, graph, source, target)?)?;
    }
    Ok(fitted)
}

// ---- tasks

// The whole of one block, as a piece.
fn whole_of(shape: &Shape) -> Piece
    ensures { result ≡ whole_piece shape.now }
{
    let dims = shape.dims();
    Piece {
        source: 0,
        from: Region::whole(dims),
        to: Region::whole(dims),
    }
}

// The operand, and the number there, of the chunk along the axis that a block has.
fn along_at(along: &[ChunkAlong], chunk: u64) -> (u32, u64)
    ensures operand { result.0 ≡ (along_place along.now chunk).operand }
    ensures chunk { result.1 ≡ (along_place along.now chunk).chunk }
{
    match along.get(chunk as usize) {
        Some(at) => (at.operand, at.chunk),
        None => (0, 0),
    }
}

// The blocks of a concatenation.
#[derive(Drop)]
struct Joined<'a> {
    layout: &'a Layout,
    along: &'a [ChunkAlong],
    axis: usize,
    sources: &'a [Keyed],
}

impl<'a> Stage for Joined<'a> {
    ghost use Rattle.chunk_layout.specs.Layouts.{counts};
    ghost use Rattle.lowering_laws.specs.Stages.{joined_task};

    ghost task_of = { λ s bs. joined_task s.layout.now s.along.now s.axis s.sources.now bs };

    ghost chunks = { λ s. counts s.layout.now };

    ghost sound = { λ s. Unit {0} };

    fn task(&self, alloc: Global, _place: u64, block: &[u64]) -> Result<Task, AllocError> {
        let (operand, chunk) = along_at(self.along, number_at(block, self.axis));
        let Some(source) = self.sources.get(operand as usize) else {
            // Each chunk along the axis is an operand's.
            return Err(AllocError);
        };
        let own = with_number(alloc, block, self.axis, chunk)?;
        let shape = lengths_of(alloc, self.layout.axes(), block)?;
        let input = lengths_of(alloc, source.layout().axes(), own.as_slice())?;
        let cost = cost_of(&shape, slice::from_ref(&input))?;
        let key = source.key(own.as_slice())?;
        let mut pieces = Pieces::new(alloc);
        pieces.push(whole_of(&shape))?;
        let mut inputs = Shapes::new(alloc);
        inputs.push(input)?;
        Ok(Task {
            spec: Spec::Assemble {
                pieces,
                inputs,
                shape,
            },
            deps: one_key(alloc, key)?,
            work: cost.work,
            nbytes: cost.nbytes,
        })
    }
}

/// Puts the blocks of a concatenation behind the tasks of a graph, and before them those of its operands in the common
/// layout, operand by operand.
pub fn push_joined(
    alloc: Global,
    graph: &mut Graph,
    sources: &[Keyed],
    axis: usize,
) -> Result<Keyed, LowerError>
    requires some { 0 < length sources.now }
    requires few { length sources.now < 2 ^ 32 }
    ensures ok { IfOk result (IsGrown graph.old (concatenated_blocks sources.now axis (length graph.old)) graph.new) }
    ensures err { IfErr result (Refuses graph.old (concatenated_blocks sources.now axis (length graph.old)).tasks) }
{
    let axes = common(alloc, sources, axis)?;
    let along = chunks_along(alloc, sources, axis)?;
    let cut = cut_along(alloc, along.as_slice())?;
    let layout = with_axis(alloc, axes.as_slice(), axis, &cut)?;
    let fitted = fit_all(alloc, graph, axes.as_slice(), axis, sources)?;
    let first = graph.keys();
    let counts = counts_of(alloc, layout.axes())?;
    let stage = Joined {
        layout: &layout,
        along: along.as_slice(),
        axis,
        sources: fitted.as_slice(),
    };
    push_blocks(alloc, graph, &stage, counts.as_slice())?;
    Ok(Keyed::new(layout, first, 1)?)
}
