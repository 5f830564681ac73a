//! Products over paired axes: a product for each pair of blocks that meet, and trees that add them.
ghost use Rattle.std.specs.Prelude.{◌≡◌, ◌≤◌, ◌++◌, [], cond, nat_eq, drop, get_or, length, slice_index_or, IfOk, IfErr};
ghost use Rattle.std.specs.List.{position_or_len};
ghost use Rattle.nd_grid.specs.Grid.{is_among};
ghost use Rattle.chunk_layout.specs.Layouts.{counts as counts_in};
ghost use Rattle.chunk_layout.specs.Unions.{union};
ghost use Rattle.lowering_laws.specs.Stages.{kept_axes, paired_sizes, with_sizes, product_blocks, contracted_blocks};
ghost use Rattle.block_lowering.specs.Pairing.{OnGathered, shape_contracted, contracting};
ghost use Rattle.block_lowering.specs.Growing.{Refuses, IsGrown};

use crate::counts::counts_of;
use crate::error::LowerError;
use crate::folds::{Parted, push_folded};
use crate::layouts::{layout_from, push_kept_cuts};
use crate::lists::{index_woven, place_in_list};
use crate::parts::{cost_of, lengths_of, shape_from};
use crate::rechunk::push_fitted;
use crate::sources::Keyed;
use crate::uses::{Gathered, Uses};
use array_expr::axes::{is_in_list, push_kept};
use block_kernels::Spec;
use chunk_layout::{Cuts, Layout, union_of};
use nd_grid::Fold;
use nd_shape::{Axes, Shape};
use std::alloc::{AllocError, Global};
use task_graph::{Graph, Task};

// ---- layouts

// The union of two cuts of one length.
fn union_cuts(alloc: Global, a: &Cuts, b: &Cuts) -> Result<Cuts, AllocError>
    ensures { IfOk result (λ cuts. cuts ≡ union a.now b.now) }
{
    if a.len() != b.len() {
        return Err(AllocError);
    }
    union_of(alloc, a, b)
}

// The cuts of the paired axes.
fn paired_cuts(
    alloc: Global,
    left: &[Cuts],
    right: &[Cuts],
    left_axes: &[u64],
    right_axes: &[u64],
) -> Result<Vec<Cuts>, AllocError>
    ensures { IfOk result (λ v. v.items ≡ paired_sizes left.now right.now left_axes.now right_axes.now) }
{
    let mut pairs = Vec::with_capacity(alloc, left_axes.len())?;
    for k in 0..left_axes.len().min(right_axes.len()) {
        match (
            left.get(left_axes[k] as usize),
            right.get(right_axes[k] as usize),
        ) {
            (Some(a), Some(b)) => pairs.push(union_cuts(alloc, a, b)?)?,

            // The axes that are paired are there.
            _ => return Err(AllocError),
        }
    }
    Ok(pairs)
}

// The cut of an axis: that of its pair, where it is listed.
fn cuts_of_axis(
    alloc: Global,
    own: &Cuts,
    axis: usize,
    listed: &[u64],
    pairs: &[Cuts],
) -> Result<Cuts, AllocError>
    ensures { IfOk result (λ cuts. cuts ≡ cond (is_among axis listed.now) (get_or pairs.now (position_or_len (nat_eq axis) listed.now) []) own.now) }
{
    if !is_in_list(listed, axis as u64) {
        return own.copy(alloc);
    }
    match pairs.get(place_in_list(listed, axis as u64)) {
        Some(cuts) => cuts.copy(alloc),
        None => Err(AllocError),
    }
}

// The layout with these cuts on the listed axes.
fn with_pairs(
    alloc: Global,
    axes: &[Cuts],
    listed: &[u64],
    pairs: &[Cuts],
) -> Result<Layout, AllocError>
    ensures { IfOk result (λ layout. layout ≡ with_sizes axes.now listed.now pairs.now) }
{
    let mut list = Vec::with_capacity(alloc, axes.len())?;
    for (axis, own) in axes.iter().enumerate() {
        list.push(cuts_of_axis(alloc, own, axis, listed, pairs)?)?;
    }
    layout_from(alloc, list)
}

// The layout of the result: what is left of the first, then of the second.
fn product_layout(
    alloc: Global,
    left: &[Cuts],
    right: &[Cuts],
    left_axes: &[u64],
    right_axes: &[u64],
) -> Result<Layout, AllocError>
    ensures { IfOk result (λ layout. layout ≡ kept_axes 0 left.now left_axes.now ++ kept_axes 0 right.now right_axes.now) }
{
    let mut kept = Vec::new(alloc);
    push_kept_cuts(alloc, &mut kept, left, left_axes)?;
    push_kept_cuts(alloc, &mut kept, right, right_axes)?;
    layout_from(alloc, kept)
}

// ---- tasks

// The products of blocks that meet.
#[derive(Drop)]
struct Contracted<'a> {
    left_axes: &'a Axes,
    right_axes: &'a Axes,
    left: &'a Keyed,
    right: &'a Keyed,
    pairs: &'a [u64],
}

// The lengths of an input, or none.
fn dims_at(inputs: &[Shape], place: usize) -> &[u64]
    ensures { result.now ≡ slice_index_or inputs.now place [] }
{
    match inputs.get(place) {
        Some(shape) => shape.dims(),
        None => &[],
    }
}

// The shape of the product of two inputs.
fn product_shape(
    alloc: Global,
    inputs: &[Shape],
    left: usize,
    right: usize,
    left_axes: &[u64],
    right_axes: &[u64],
) -> Result<Shape, AllocError>
    ensures { IfOk result (λ shape. shape ≡ shape_contracted inputs.now left right left_axes.now right_axes.now) }
{
    let mut dims = Vec::new(alloc);
    push_kept(&mut dims, dims_at(inputs, left), left_axes)?;
    push_kept(&mut dims, dims_at(inputs, right), right_axes)?;
    shape_from(dims)
}

// The numbers from a place on, or none.
fn behind(list: &[u64], place: usize) -> &[u64]
    ensures { result.now ≡ drop place list.now }
{
    if place <= list.len() {
        &list[place..]
    } else {
        &[]
    }
}

// Gathers the block that has `rest` on the listed axes, and tells its key.
fn gather(
    alloc: Global,
    source: &Keyed,
    axes: &[u64],
    kept: &[u64],
    rest: &[u64],
    uses: &mut Gathered,
) -> Result<u32, AllocError>
    ensures { OnGathered source.now axes.now kept.now rest.now uses.old uses.new result }
{
    let cuts = source.layout().axes();
    let counts = counts_of(alloc, cuts)?;
    let own = index_woven(alloc, counts.as_slice(), axes, kept, rest)?;
    let shape = lengths_of(alloc, cuts, own.as_slice())?;
    let key = source.key(own.as_slice())?;
    uses.add(key, shape)?;
    Ok(key)
}

// The task of a product, once its inputs are known. They are two blocks at most, so that their places are small.
fn product_task(
    alloc: Global,
    uses: Uses,
    left: u32,
    right: u32,
    left_axes: &Axes,
    right_axes: &Axes,
) -> Result<Task, AllocError>
    requires { length uses ≤ 2 }
    ensures { IfOk result (λ made. made ≡ contracting uses left right left_axes.now right_axes.now) }
{
    let inputs = uses.inputs(alloc)?;
    let first = uses.place(left);
    let second = uses.place(right);
    let (one, two) = (left_axes.as_slice(), right_axes.as_slice());
    let shape = product_shape(alloc, inputs.as_slice(), first, second, one, two)?;
    let cost = cost_of(&shape, inputs.as_slice())?;
    Ok(Task {
        spec: Spec::Contract {
            left: first as u32,
            right: second as u32,
            left_axes: left_axes.copy()?,
            right_axes: right_axes.copy()?,
            inputs,
        },
        deps: uses.into_deps(),
        work: cost.work,
        nbytes: cost.nbytes,
    })
}

impl<'a> Parted for Contracted<'a> {
    ghost use Rattle.block_lowering.specs.Tasks.{pair_task};

    ghost part_of = { λ s bs index. pair_task s.left_axes.now s.right_axes.now s.left.now s.right.now bs index };

    ghost parts = { λ s. s.pairs.now };

    fn part(&self, alloc: Global, block: &[u64], index: &[u64]) -> Result<Task, AllocError> {
        let (one, two) = (self.left_axes.as_slice(), self.right_axes.as_slice());
        let kept = product_kept(self.left.layout().axes(), one);
        let mut uses = Gathered::new(alloc);
        let left = gather(alloc, self.left, one, block, index, &mut uses)?;
        let right = gather(
            alloc,
            self.right,
            two,
            behind(block, kept),
            index,
            &mut uses,
        )?;
        let uses = uses.into_uses(alloc)?;
        product_task(alloc, uses, left, right, self.left_axes, self.right_axes)
    }
}

// How many axes aren't listed.
fn product_kept(axes: &[Cuts], listed: &[u64]) -> usize
    requires { length axes.now ≤ 8 }
    ensures { result ≡ length (kept_axes 0 axes.now listed.now) }
{
    let mut count = 0;
    for axis in 0..axes.len() {
        if !is_in_list(listed, axis as u64) {
            count += 1;
        }
    }
    count
}

/// Puts the blocks of a product behind the tasks of a graph, and before them those of its operands, whose paired axes are
/// brought to the union of their boundaries: the first operand's, then the second's.
pub fn push_contracted(
    alloc: Global,
    graph: &mut Graph,
    left_axes: &Axes,
    right_axes: &Axes,
    left: &Keyed,
    right: &Keyed,
) -> Result<Keyed, LowerError>
    ensures ok { IfOk result (IsGrown graph.old (contracted_blocks left_axes.now right_axes.now left.now right.now (length graph.old)) graph.new) }
    ensures err { IfErr result (Refuses graph.old (contracted_blocks left_axes.now right_axes.now left.now right.now (length graph.old)).tasks) }
{
    let (one, two) = (left_axes.as_slice(), right_axes.as_slice());
    let cuts = paired_cuts(alloc, left.layout().axes(), right.layout().axes(), one, two)?;
    let target = with_pairs(alloc, left.layout().axes(), one, cuts.as_slice())?;
    let first = push_fitted(alloc, graph, left, target)?;
    let target = with_pairs(alloc, right.layout().axes(), two, cuts.as_slice())?;
    let second = push_fitted(alloc, graph, right, target)?;
    push_products(
        alloc,
        graph,
        left_axes,
        right_axes,
        &first,
        &second,
        cuts.as_slice(),
    )
}

// Puts the blocks of a product of fitted operands behind the tasks of a graph.
fn push_products(
    alloc: Global,
    graph: &mut Graph,
    left_axes: &Axes,
    right_axes: &Axes,
    left: &Keyed,
    right: &Keyed,
    cuts: &[Cuts],
) -> Result<Keyed, LowerError>
    ensures ok { let pairs = counts_in cuts.now in
        IfOk result (IsGrown graph.old (product_blocks left_axes.now right_axes.now pairs left.now right.now (length graph.old)) graph.new) }
    ensures err { let pairs = counts_in cuts.now in
        IfErr result (Refuses graph.old (product_blocks left_axes.now right_axes.now pairs left.now right.now (length graph.old)).tasks) }
{
    let pairs = counts_of(alloc, cuts)?;
    let (one, two) = (left_axes.as_slice(), right_axes.as_slice());
    let layout = product_layout(alloc, left.layout().axes(), right.layout().axes(), one, two)?;
    let of = Contracted {
        left_axes,
        right_axes,
        left,
        right,
        pairs: pairs.as_slice(),
    };
    push_folded(alloc, graph, Fold::Sum, 4, &of, pairs.as_slice(), layout)
}
