//! Arrays of a graph, whose blocks are held by keys that lie equally far apart.
ghost use Rattle.std.specs.Prelude.{◌≡◌, ◌<◌, ◌≤◌, IfOk, IsTrue, ◌↔◌};
ghost use Rattle.nd_shape.specs.Index.{IsIn, place};
ghost use Rattle.chunk_layout.specs.Layouts.{counts, blocks};
ghost use Rattle.lowering_laws.specs.Sources.{key_of, key_at};
ghost use Rattle.lowering_laws.specs.Lowered.{name_at};

use crate::layouts::copied_layout;
use crate::parts::KEYS;
use chunk_layout::{Cuts, Layout};
use std::alloc::{AllocError, Global};
use std::marker::Model;

/// The node and the block of which a key is the own one, or none.
pub type Name = Option<(u32, u32)>;

/// An array of the graph: its layout, the key of its first block, and how far apart the keys of its blocks are.
#[derive(Drop)]
pub struct Keyed {
    layout: Layout,
    first: u32,
    stride: u32,
}

impl Model for Keyed {
    ghost use Rattle.lowering_laws.specs.Sources.{Source};
    ghost use Rattle.block_lowering.specs.Stored.{IsKeyed};

    ghost Value = { Source };

    ghost view = { λ s. record { layout = s.layout; first = s.first; stride = s.stride } };

    ghost invariant = { IsKeyed };
}

impl Keyed {
    /// The array of this layout, whose keys are these. An array of the graph has no more blocks than the graph has keys.
    pub fn new(layout: Layout, first: u32, stride: u32) -> Result<Keyed, AllocError>
        ensures { IfOk result (λ s. s ≡ record { layout = layout; first = first; stride = stride }) }
    {
        let most = KEYS as u32;
        let few = layout.blocks() <= KEYS;
        let near = (first <= most) & (stride <= most) & (stride > 0);
        if !(few & near) {
            return Err(AllocError);
        }
        Ok(Keyed {
            layout,
            first,
            stride,
        })
    }

    /// How it is cut. No memory.
    pub fn layout(&self) -> &Layout
        ensures value { result.now ≡ self.now.layout }
        ensures few { blocks self.now.layout ≤ 32768 }
    {
        &self.layout
    }

    /// An equal array of its own.
    pub fn copy(&self, alloc: Global) -> Result<Keyed, AllocError>
        ensures { IfOk result (λ s. s ≡ self.now) }
    {
        Ok(Keyed {
            layout: copied_layout(alloc, &self.layout)?,
            first: self.first,
            stride: self.stride,
        })
    }

    /// How many blocks it has. No memory.
    pub fn blocks(&self) -> u32
        ensures value { result ≡ blocks self.now.layout }
        ensures few { result ≤ 32768 }
    {
        self.layout.blocks() as u32
    }

    /// The key of a block. Blocks are named by their own numbers, which are below their count.
    pub fn key_of_block(&self, block: u32) -> Result<u32, AllocError>
        ensures value { IfOk result (λ key. key ≡ key_of self.now block) }
        ensures there { IfOk result (λ key. block < blocks self.now.layout) }
    {
        if block >= self.blocks() {
            return Err(AllocError);
        }
        Ok(self.first + self.stride * block)
    }

    /// The key of the block with these numbers of chunks, which lie below their counts.
    pub fn key(&self, numbers: &[u64]) -> Result<u32, AllocError>
        ensures value { IfOk result (λ key. key ≡ key_at self.now numbers.now) }
        ensures inside { IfOk result (λ key. IsIn (counts self.now.layout) numbers.now) }
    {
        let axes = self.layout.axes();
        if !are_inside(axes, numbers) {
            return Err(AllocError);
        }
        let block = place_of(axes, numbers);
        Ok(self.first + self.stride * block as u32)
    }

    /// What a key is of the array of this node. No memory.
    pub fn name(&self, node: u32, key: u32) -> Name
        ensures { result ≡ name_at self.now node key }
    {
        if key < self.first {
            return None;
        }
        let distance = key - self.first;
        if distance % self.stride == 0 {
            Some((node, distance / self.stride))
        } else {
            None
        }
    }
}

// Whether there is a chunk of each of these numbers.
fn are_inside(axes: &[Cuts], numbers: &[u64]) -> bool
    ensures { IsTrue result ↔ IsIn (counts axes.now) numbers.now }
{
    if axes.len() != numbers.len() {
        return false;
    }
    for axis in 0..axes.len() {
        if numbers[axis] >= axes[axis].count() {
            return false;
        }
    }
    true
}

// The number of the block with these numbers of chunks.
fn place_of(axes: &[Cuts], numbers: &[u64]) -> u64
    requires few { blocks axes.now ≤ 32768 }
    requires inside { IsIn (counts axes.now) numbers.now }
    ensures value { result ≡ place (counts axes.now) numbers.now }
    ensures there { result < blocks axes.now }
{
    let mut at = 0;
    for (axis, cuts) in axes.iter().enumerate() {
        at = at * cuts.count() + numbers[axis];
    }
    at
}
