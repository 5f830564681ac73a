//! The layout of an array, and its blocks.
ghost use Rattle.std.specs.Prelude.{◌≡◌, ◌<◌, ◌≤◌, ◌^◌, ◌-◌, List, ℕ, length, min};
ghost use Rattle.nd_shape.specs.Index.{IsIn, index_at};
ghost use Rattle.chunk_layout.specs.Layouts.{counts, lengths, blocks, region, box_at, block_of};
ghost use Rattle.chunk_layout.specs.Cuts.{IsLayout};

use crate::cuts::Cuts;
use nd_shape::Region;
use nd_shape::shape::AXES;
use std::marker::Model;

/// For each axis of an array the sizes of its chunks. Its blocks are numbered in row-major order.
#[derive(Drop)]
pub struct Layout {
    axes: Vec<Cuts>,
}

impl Model for Layout {
    ghost Value = { List (List ℕ) };

    ghost view = { λ l. l.axes.items };

    ghost invariant = { λ l. IsLayout l.axes.items };
}

impl Layout {
    /// Takes the cuts of all axes over. No memory.
    pub fn of(axes: Vec<Cuts>) -> Self
        requires { IsLayout axes.items }
        ensures { result ≡ axes.items }
    {
        Layout { axes }
    }

    /// The cut of each axis. No memory.
    pub fn axes(&self) -> &[Cuts]
        ensures value { result.now ≡ self.now }
        ensures sound { IsLayout self.now }
    {
        self.axes.as_slice()
    }

    /// The number of blocks, or 2^64-1 where it is larger. No memory.
    pub fn blocks(&self) -> u64
        ensures { result ≡ min (blocks self.now) (2 ^ 64 - 1) }
    {
        product_of(self.axes())
    }

    /// Writes the box of indexes of a block: on each axis the sum of the sizes before its chunk, and the chunk's size.
    /// No memory, and a step for each axis.
    pub fn block_region(&self, block: u64, out: &mut Region)
        requires { block < blocks self.now }
        ensures { out.new ≡ region self.now block }
    {
        let mut numbers = [0; AXES];
        let axes = self.axes();
        let used = &mut numbers[..axes.len()];
        numbers_at(axes, block, used);
        put_box(axes, used, out);
    }

    /// The number of the block in which an index lies. No memory; a binary search for each axis.
    pub fn block_of(&self, index: &[u64]) -> u64
        requires { IsIn (lengths self.now) index.now }
        ensures block { result ≡ block_of self.now index.now }
        ensures there { result < blocks self.now }
    {
        number_of(self.axes(), index)
    }
}

fn product_of(axes: &[Cuts]) -> u64
    ensures { result ≡ min (blocks axes.now) (2 ^ 64 - 1) }
{
    let mut count = 1u64;
    for cuts in axes {
        count = count.saturating_mul(cuts.count());
    }
    count
}

/// Writes the number of the chunk on each axis of the block with this number. No memory.
pub fn numbers_at(axes: &[Cuts], block: u64, numbers: &mut [u64])
    requires block { block < blocks axes.now }
    requires axes { length numbers.old ≡ length axes.now }
    ensures value { numbers.new ≡ index_at (counts axes.now) block }
    ensures inside { IsIn (counts axes.now) numbers.new }
{
    let mut left = block;
    let mut axis = axes.len();
    while axis > 0 {
        axis -= 1;
        let count = axes[axis].count();
        numbers[axis] = left % count;
        left /= count;
    }
}

fn put_box(axes: &[Cuts], numbers: &[u64], out: &mut Region)
    requires numbers { IsIn (counts axes.now) numbers.now }
    requires axes { length axes.now ≤ 8 }
    ensures { out.new ≡ box_at axes.now numbers.now }
{
    out.clear();
    for (axis, cuts) in axes.iter().enumerate() {
        let chunk = numbers[axis] as usize;
        out.push(cuts.starts()[chunk], u64::from(cuts.sizes()[chunk]));
    }
}

fn number_of(axes: &[Cuts], index: &[u64]) -> u64
    requires sound { IsLayout axes.now }
    requires inside { IsIn (lengths axes.now) index.now }
    ensures block { result ≡ block_of axes.now index.now }
    ensures there { result < blocks axes.now }
{
    let mut at = 0;
    for (axis, cuts) in axes.iter().enumerate() {
        at = at * cuts.count() + cuts.chunk_at(index[axis]);
    }
    at
}
