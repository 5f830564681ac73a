//! Reads what is needed of the arrays of inputs.
ghost use Rattle.std.specs.Prelude.{◌≡◌, ◌≤◌, ◌<◌, ◌-◌, ◌^◌, length, true, Some, IfOk, IfErr, OnOk, OnErr, IsErrOf};
ghost use Rattle.io_edge.specs.Cause.{Rose};
ghost use Rattle.io_edge.specs.Content.{file_at, size_of};
ghost use Rattle.nd_shape.specs.Region.{Box, IsPart};
ghost use Rattle.npy_codec.specs.Regions.{IsWidth, RegionRefusedAs};
ghost use Rattle.array_expr.specs.Node.{IsExpression};
ghost use Rattle.array_expr.specs.Elem.{is_input};
ghost use Rattle.input_regions.specs.Widening.{AreFit};
ghost use Rattle.plain_block.specs.Files.{HaveFiles, AddsBlock, AreRead, IsRead, IsRefusedRegion, RefusesRegions, head_at};

use crate::placing::{placed, zeros};
use array_expr::{Node, Op};
use io_edge::Store;
use nd_shape::{Block, Region};
use npy_codec::{Head, NpyError};
use npy_region::read_region;
use std::alloc::Global;

// The array of a file with its elements in a region, and 0 elsewhere.
fn read_box<S: Store>(
    alloc: Global,
    store: &mut S,
    file: u32,
    head: &Head,
    region: &Region,
) -> Result<Block, NpyError>
    requires there { file < length (S.files store.old) }
    requires near { head.now.data_at ≤ 2 ^ 21 }
    requires width { IsWidth head.now.width }
    requires part { IsPart region.now head.now.shape }
    ensures same { S.files store.new ≡ S.files store.old }
    ensures later { S.count store.old ≤ S.count store.new }
    ensures kept { OnOk result (S.count store.new ≡ S.count store.old) }
    ensures block { IfOk result (λ block. IsRead (file_at (S.files store.old) file) head.now (Some region.now) block) }
    ensures refused { IfErr result (RegionRefusedAs (size_of (file_at (S.files store.old) file)) head.now region.now) }
    ensures fault { IsErrOf result NpyError.ReadFault → Rose (S.count store.old) (S.count store.new) }
{
    let part = read_region(alloc, store, file, head, region)?;
    let block = placed(alloc, &head.shape, region, &part)?;
    Ok(block)
}

// The array of a file with its elements in a region, if there is one, and 0 elsewhere.
fn read_part<S: Store>(
    alloc: Global,
    store: &mut S,
    file: u32,
    head: &Head,
    region: &Option<Region>,
) -> Result<Block, NpyError>
    requires there { file < length (S.files store.old) }
    requires near { head.now.data_at ≤ 2 ^ 21 }
    requires width { IsWidth head.now.width }
    requires part { (box : Box) → region.now ≡ Some box → IsPart box head.now.shape }
    ensures same { S.files store.new ≡ S.files store.old }
    ensures later { S.count store.old ≤ S.count store.new }
    ensures kept { OnOk result (S.count store.new ≡ S.count store.old) }
    ensures block { IfOk result (λ block. IsRead (file_at (S.files store.old) file) head.now region.now block) }
    ensures refused { IfErr result (IsRefusedRegion (file_at (S.files store.old) file) head.now region.now) }
    ensures fault { IsErrOf result NpyError.ReadFault → Rose (S.count store.old) (S.count store.new) }
{
    match region {
        None => {
            let empty = zeros(alloc, &head.shape)?;
            Ok(empty)
        }
        Some(needed) => read_box(alloc, store, file, head, needed),
    }
}

// One more block, if a node is an input.
fn read_input<S: Store>(
    alloc: Global,
    store: &mut S,
    node: &Node,
    region: &Option<Region>,
    heads: &[Head],
    blocks: &mut Vec<Block>,
) -> Result<(), NpyError>
    requires few { length blocks.old.items ≤ 65536 }
    requires file { is_input node.now.op ≡ true → length blocks.old.items < length (S.files store.old) }
    requires head { is_input node.now.op ≡ true → length blocks.old.items < length heads.now }
    requires near { is_input node.now.op ≡ true → (head_at heads.now (length blocks.old.items)).data_at ≤ 2 ^ 21 }
    requires width { is_input node.now.op ≡ true → IsWidth (head_at heads.now (length blocks.old.items)).width }
    requires part { is_input node.now.op ≡ true → (box : Box) → region.now ≡ Some box → IsPart box (head_at heads.now (length blocks.old.items)).shape }
    ensures same { S.files store.new ≡ S.files store.old }
    ensures later { S.count store.old ≤ S.count store.new }
    ensures kept { OnOk result (S.count store.new ≡ S.count store.old) }
    ensures block { OnOk result (AddsBlock (file_at (S.files store.old) (length blocks.old.items)) (head_at heads.now (length blocks.old.items)) region.now (is_input node.now.op) blocks.old.items blocks.new.items) }
    ensures input { OnErr result (is_input node.now.op ≡ true) }
    ensures refused { IfErr result (IsRefusedRegion (file_at (S.files store.old) (length blocks.old.items)) (head_at heads.now (length blocks.old.items)) region.now) }
    ensures fault { IsErrOf result NpyError.ReadFault → Rose (S.count store.old) (S.count store.new) }
{
    match &node.op {
        Op::Input { .. } => {
            let file = blocks.len();
            let block = read_part(alloc, store, file as u32, &heads[file], region)?;
            blocks.push(block)?;
            Ok(())
        }
        _ => Ok(()),
    }
}

/// The arrays of the inputs among the first so many nodes in order, each with the elements in its region, if there is one,
/// and 0 elsewhere. An input without a region isn't read.
pub fn read_inputs<S: Store>(
    alloc: Global,
    store: &mut S,
    nodes: &[Node],
    regions: &[Option<Region>],
    heads: &[Head],
) -> Result<Vec<Block>, NpyError>
    requires sound { IsExpression nodes.now }
    requires inside { length regions.now ≤ length nodes.now }
    requires fit { AreFit nodes.now regions.now }
    requires files { HaveFiles nodes.now (length regions.now) (S.files store.old) heads.now }
    ensures same { S.files store.new ≡ S.files store.old }
    ensures later { S.count store.old ≤ S.count store.new }
    ensures kept { OnOk result (S.count store.new ≡ S.count store.old) }
    ensures arrays { IfOk result (λ v. AreRead nodes.now (length regions.now) (S.files store.old) heads.now regions.now v.items) }
    ensures refused { IfErr result (RefusesRegions nodes.now (S.files store.old) heads.now regions.now (length regions.now)) }
    ensures fault { IsErrOf result NpyError.ReadFault → Rose (S.count store.old) (S.count store.new) }
{
    let mut blocks = Vec::new(alloc);
    for k in 0..regions.len() {
        read_input(alloc, store, &nodes[k], &regions[k], heads, &mut blocks)?;
    }
    Ok(blocks)
}
