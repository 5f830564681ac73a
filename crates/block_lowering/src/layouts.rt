//! Layouts of nodes.
ghost use Rattle.std.specs.Prelude.{◌≡◌, ◌<◌, ◌≤◌, ◌*◌, ◌^◌, [], ◌∷◌, ◌++◌, cond, get_or, slice_set, IfOk, OnOk, IsTrue, MatchOption, ◌↔◌};
ghost use Rattle.nd_shape.specs.Chunk.{total, chunks_of};
ghost use Rattle.chunk_layout.specs.Layouts.{blocks, lengths, normalized};
ghost use Rattle.chunk_layout.specs.Cuts.{AllCut, AllSome, IsCut};
ghost use Rattle.lowering_laws.specs.Sources.{same_sizes, same_layout};
ghost use Rattle.lowering_laws.specs.Stages.{kept_axes, turned_layout, joined};
ghost use Rattle.block_lowering.specs.Standing.{StandsFor};
ghost use Rattle.block_lowering.specs.Shortened.{IsShort, IsShortened};
ghost use Rattle.block_lowering.specs.Args.{sizes_or_none, HaveSizes};

use crate::parts::KEYS;
use array_expr::axes::is_in_list;
use chunk_layout::{Cuts, Layout, blocks_of, normalize, union_of};
use nd_shape::shape::limit_passed;
use nd_shape::{ChunkSpec, Shape, axis_chunks};
use std::alloc::{AllocError, Global};

// ---- layouts of cuts

// The lengths of the axes.
fn lens_of(alloc: Global, axes: &[Cuts]) -> Result<Vec<u64>, AllocError>
    ensures value { IfOk result (λ v. v.items ≡ lengths axes.now) }
    ensures cut { OnOk result (AllCut axes.now) }
{
    let mut lens = Vec::with_capacity(alloc, axes.len())?;
    for cuts in axes {
        let _ = cuts.sizes();
        lens.push(cuts.len())?;
    }
    Ok(lens)
}

/// The layout of these cuts. They cut the shape of a node, so that they are always one.
pub fn layout_from(alloc: Global, axes: Vec<Cuts>) -> Result<Layout, AllocError>
    ensures { IfOk result (λ layout. layout ≡ axes.items) }
{
    let lens = lens_of(alloc, axes.as_slice())?;
    match limit_passed(lens.as_slice()) {
        None => Ok(Layout::of(axes)),
        Some(_) => Err(AllocError),
    }
}

/// An equal layout of its own.
pub fn copied_layout(alloc: Global, layout: &Layout) -> Result<Layout, AllocError>
    ensures { IfOk result (λ copy. copy ≡ layout.now) }
{
    let axes = layout.axes();
    let mut copies = Vec::with_capacity(alloc, axes.len())?;
    for cuts in axes {
        copies.push(cuts.copy(alloc)?)?;
    }
    Ok(Layout::of(copies))
}

// The sizes are the one 0, or none of them is 0 and they are at most 2^31 together.
fn is_cut(sizes: &[u32]) -> bool
    ensures { IsTrue result → IsCut sizes.now }
{
    match sizes {
        [] => false,
        [0] => true,
        _ => are_some(sizes) && sum_up_to(sizes) <= 1 << 31,
    }
}

fn are_some(sizes: &[u32]) -> bool
    ensures { IsTrue result → AllSome sizes.now }
{
    for size in sizes {
        if *size == 0 {
            return false;
        }
    }
    true
}

// The sum, or 2^32 where it is larger.
fn sum_up_to(sizes: &[u32]) -> u64
    ensures { result ≤ 2 ^ 31 → result ≡ total sizes.now }
{
    let mut sum = 0u64;
    for size in sizes {
        sum = (sum + u64::from(*size)).min(1 << 32);
    }
    sum
}

/// The cut of an axis into chunks of these sizes. They are an axis's, so that they always cut one.
pub fn cut_from(alloc: Global, sizes: Vec<u32>) -> Result<Cuts, AllocError>
    ensures { IfOk result (λ cuts. cuts ≡ sizes.items) }
{
    if !is_cut(sizes.as_slice()) {
        return Err(AllocError);
    }
    Cuts::of(alloc, sizes)
}

/// The one chunk of an axis of 1.
pub fn single(alloc: Global) -> Result<Cuts, AllocError>
    ensures { IfOk result (λ cuts. cuts ≡ 1 ∷ []) }
{
    let mut sizes = Vec::new(alloc);
    sizes.push(1)?;
    cut_from(alloc, sizes)
}

// ---- as specified

/// The layout that these specifications make, where a graph has room for its blocks. Else a layout with more blocks than that,
/// of which the first ones are the same: a chunk of 1 on a long axis is refused by as many sizes as a graph has keys.
pub fn layout_of(alloc: Global, shape: &Shape, specs: &[ChunkSpec]) -> Result<Layout, AllocError>
    ensures { IfOk result (StandsFor (normalized shape.now specs.now)) }
{
    match blocks_of(shape, specs) {
        Ok(count) if count <= KEYS => normal(alloc, shape, specs),
        Ok(_) => shortened(alloc, shape.dims(), specs),

        // The chunks of a node were looked at when it was made.
        Err(_) => Err(AllocError),
    }
}

fn normal(alloc: Global, shape: &Shape, specs: &[ChunkSpec]) -> Result<Layout, AllocError>
    ensures { IfOk result (λ layout. layout ≡ normalized shape.now specs.now) }
{
    match normalize(alloc, shape, specs) {
        Ok(layout) => Ok(layout),
        Err(_) => Err(AllocError),
    }
}

// The layout whose axes have so many chunks and then one of all that is left.
fn shortened(alloc: Global, dims: &[u64], specs: &[ChunkSpec]) -> Result<Layout, AllocError>
    ensures { IfOk result (λ layout. 32768 < blocks (normalized dims.now specs.now) → StandsFor (normalized dims.now specs.now) layout) }
{
    let mut axes = Vec::with_capacity(alloc, dims.len())?;
    for axis in 0..dims.len().min(specs.len()) {
        axes.push(short_axis(alloc, dims[axis], &specs[axis])?)?;
    }
    let layout = layout_from(alloc, axes)?;
    let _ = layout.axes();
    Ok(layout)
}

// The chunks of an axis, or the first of them and the rest.
fn short_axis(alloc: Global, len: u64, spec: &ChunkSpec) -> Result<Cuts, AllocError>
    ensures { IfOk result (IsShort len spec.now) }
{
    match spec {
        ChunkSpec::Even(size) if *size > 0 && len / *size > KEYS => first_chunks(alloc, len, *size),
        _ => all_chunks(alloc, len, spec),
    }
}

fn all_chunks(alloc: Global, len: u64, spec: &ChunkSpec) -> Result<Cuts, AllocError>
    ensures { IfOk result (λ cuts. cuts ≡ chunks_of len spec.now) }
{
    if len > 1 << 31 {
        return Err(AllocError);
    }
    match axis_chunks(alloc, 0, len, spec) {
        Ok(sizes) => cut_from(alloc, sizes.into_vec()),
        Err(_) => Err(AllocError),
    }
}

// As many chunks of a size as a graph has keys, and one chunk of the rest.
fn first_chunks(alloc: Global, len: u64, size: u64) -> Result<Cuts, AllocError>
    requires { 32768 * size < len }
    ensures { IfOk result (IsShortened len size) }
{
    if len > 1 << 31 {
        return Err(AllocError);
    }
    let mut sizes = vec![in alloc; size as u32; KEYS as usize]?;
    sizes.push((len - KEYS * size) as u32)?;
    cut_from(alloc, sizes)
}

// ---- of others

/// Whether two layouts are equal. No memory.
pub fn are_same(a: &Layout, b: &Layout) -> bool
    ensures { result ≡ same_layout a.now b.now }
{
    let left = a.axes();
    let right = b.axes();
    if left.len() != right.len() {
        return false;
    }
    for axis in 0..left.len() {
        if !are_same_sizes(left[axis].sizes(), right[axis].sizes()) {
            return false;
        }
    }
    true
}

fn are_same_sizes(a: &[u32], b: &[u32]) -> bool
    ensures { result ≡ same_sizes a.now b.now }
{
    if a.len() != b.len() {
        return false;
    }
    for chunk in 0..a.len() {
        if a[chunk] != b[chunk] {
            return false;
        }
    }
    true
}

/// Whether two layouts cut one shape. No memory.
pub fn cut_one_shape(a: &Layout, b: &Layout) -> bool
    ensures { IsTrue result ↔ lengths a.now ≡ lengths b.now }
{
    let left = a.axes();
    let right = b.axes();
    if left.len() != right.len() {
        return false;
    }
    for axis in 0..left.len() {
        if left[axis].len() != right[axis].len() {
            return false;
        }
    }
    true
}

// The cuts at the boundaries of some and of others, of which there may be none. The two cut one length.
fn joined_cuts(alloc: Global, cuts: &Cuts, more: Option<Cuts>) -> Result<Cuts, AllocError>
    ensures { IfOk result (λ sizes. sizes ≡ joined cuts.now (sizes_or_none more)) }
{
    let _ = cuts.sizes();
    match more {
        None => cuts.copy(alloc),
        Some(others) => {
            let _ = others.sizes();
            if cuts.len() != others.len() {
                return Err(AllocError);
            }
            union_of(alloc, cuts, &others)
        }
    }
}

/// One more operand's cut, where it has one, beside those of the operands behind it.
pub fn joined_if(
    alloc: Global,
    cuts: Option<&Cuts>,
    more: Option<Cuts>,
) -> Result<Option<Cuts>, AllocError>
    ensures { MatchOption cuts.entry (IfOk result (HaveSizes (sizes_or_none more))) (λ own. IfOk result (HaveSizes (joined own.now (sizes_or_none more)))) }
{
    match cuts {
        None => Ok(more),
        Some(own) => Ok(Some(joined_cuts(alloc, own, more)?)),
    }
}

/// Puts the cuts of the axes that aren't listed at the end.
pub fn push_kept_cuts(
    alloc: Global,
    kept: &mut Vec<Cuts>,
    axes: &[Cuts],
    listed: &[u64],
) -> Result<(), AllocError>
    ensures { OnOk result (kept.new.items ≡ kept.old.items ++ kept_axes 0 axes.now listed.now) }
{
    for (axis, cuts) in axes.iter().enumerate() {
        let gone = is_in_list(listed, axis as u64);
        push_cuts_unless(alloc, kept, gone, cuts)?;
    }
    Ok(())
}

// One more cut, unless its axis is gone.
fn push_cuts_unless(
    alloc: Global,
    kept: &mut Vec<Cuts>,
    gone: bool,
    cuts: &Cuts,
) -> Result<(), AllocError>
    ensures { OnOk result (kept.new.items ≡ kept.old.items ++ cond gone [] (cuts.now ∷ [])) }
{
    if !gone {
        kept.push(cuts.copy(alloc)?)?;
    }
    Ok(())
}

/// The axes in another order. Those that are listed are there.
pub fn turned_axes(alloc: Global, axes: &[Cuts], order: &[u64]) -> Result<Layout, AllocError>
    ensures { IfOk result (λ layout. layout ≡ turned_layout order.now axes.now) }
{
    let mut turned = Vec::with_capacity(alloc, order.len())?;
    for axis in order {
        turned.push(copied_axis(alloc, axes, *axis)?)?;
    }
    layout_from(alloc, turned)
}

// A copy of an axis's cut.
fn copied_axis(alloc: Global, axes: &[Cuts], axis: u64) -> Result<Cuts, AllocError>
    ensures { IfOk result (λ cuts. cuts ≡ get_or axes.now axis []) }
{
    match axes.get(axis as usize) {
        Some(cuts) => cuts.copy(alloc),
        None => Err(AllocError),
    }
}

/// The layout with another cut on an axis.
pub fn with_axis(
    alloc: Global,
    axes: &[Cuts],
    axis: usize,
    cuts: &Cuts,
) -> Result<Layout, AllocError>
    ensures { IfOk result (λ layout. layout ≡ slice_set axes.now axis cuts.now) }
{
    let mut list = Vec::with_capacity(alloc, axes.len())?;
    for (k, own) in axes.iter().enumerate() {
        list.push(chosen_cuts(alloc, k == axis, cuts, own)?)?;
    }
    layout_from(alloc, list)
}

fn chosen_cuts(alloc: Global, first: bool, a: &Cuts, b: &Cuts) -> Result<Cuts, AllocError>
    ensures { IfOk result (λ cuts. cuts ≡ cond first a.now b.now) }
{
    if first { a.copy(alloc) } else { b.copy(alloc) }
}
