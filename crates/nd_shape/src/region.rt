//! Regions: boxes of indexes.
ghost use Rattle.std.specs.Prelude.{◌≡◌, ◌+◌, ◌<◌, ◌≤◌, [], ◌∷◌, ◌++◌, length, take, replicate, IsTrue, ◌↔◌, IfOk};
ghost use Rattle.nd_shape.specs.Region.{Box, IsPart};

use crate::shape::{AXES, Shape};
use std::alloc::{AllocError, Global};
use std::marker::Model;

/// A box of indexes: per axis its first index and its length. It has room for eight axes from its making, so that
/// filling it takes no memory.
#[derive(Drop)]
pub struct Region {
    starts: [u64; AXES],
    lengths: [u64; AXES],
    axes: usize,
}

impl Model for Region {
    ghost Value = { Box };

    ghost view = { λ r. record { start = take r.axes r.starts; lengths = take r.axes r.lengths } };

    ghost invariant = { λ r. r.axes ≤ 8 };
}

impl Region {
    /// The region of no axes. No memory.
    pub fn new() -> Self
        ensures { result ≡ record { start = []; lengths = [] } }
    {
        Region {
            starts: [0; AXES],
            lengths: [0; AXES],
            axes: 0,
        }
    }

    /// Takes all axes away. No memory.
    pub fn clear(&mut self)
        ensures { self.new ≡ record { start = []; lengths = [] } }
    {
        self.axes = 0;
    }

    /// Puts one more axis at the end. No memory.
    pub fn push(&mut self, start: u64, len: u64)
        requires { length self.old.lengths < 8 }
        ensures starts { self.new.start ≡ self.old.start ++ start ∷ [] }
        ensures lengths { self.new.lengths ≡ self.old.lengths ++ len ∷ [] }
    {
        self.starts[self.axes] = start;
        self.lengths[self.axes] = len;
        self.axes += 1;
    }

    /// The first index per axis. No memory.
    pub fn starts(&self) -> &[u64]
        ensures value { result.now ≡ self.now.start }
        ensures same { length self.now.start ≡ length self.now.lengths }
        ensures axes { length self.now.start ≤ 8 }
    {
        &self.starts[..self.axes]
    }

    /// The length per axis. No memory.
    pub fn lengths(&self) -> &[u64]
        ensures value { result.now ≡ self.now.lengths }
        ensures same { length self.now.start ≡ length self.now.lengths }
        ensures axes { length self.now.lengths ≤ 8 }
    {
        &self.lengths[..self.axes]
    }

    /// An equal region. No memory.
    pub fn copy(&self) -> Self
        ensures { result ≡ self.now }
    {
        Region {
            starts: self.starts,
            lengths: self.lengths,
            axes: self.axes,
        }
    }

    /// All indexes of an array. No memory.
    pub fn whole(dims: &[u64]) -> Self
        requires { length dims.now ≤ 8 }
        ensures { result ≡ record { start = replicate (length dims.now) 0; lengths = dims.now } }
    {
        let mut region = Region::new();
        for len in dims {
            region.push(0, *len);
        }
        region
    }

    /// The shape of what lies in the region of an array.
    pub fn shape(&self, alloc: Global, whole: &Shape) -> Result<Shape, AllocError>
        requires { IsPart self.now whole.now }
        ensures { IfOk result (λ shape. shape ≡ self.now.lengths) }
    {
        let _ = whole.dims();
        let dims = Vec::from_slice(alloc, self.lengths())?;
        Ok(Shape::of(dims))
    }

    /// Whether the region lies in an array with these lengths, and has as many axes. No memory.
    pub fn is_part(&self, dims: &[u64]) -> bool
        ensures { IsTrue result ↔ IsPart self.now dims.now }
    {
        let starts = self.starts();
        let lengths = self.lengths();
        if lengths.len() != dims.len() {
            return false;
        }
        for (axis, len) in dims.iter().enumerate() {
            if starts[axis] > *len || lengths[axis] > *len - starts[axis] {
                return false;
            }
        }
        true
    }
}

/// A part of a block: it lies at `from` in a source and goes to `to` in the new block, both counted from the first
/// element of their block. The source is a number that the list of pieces gives its meaning.
#[derive(Drop)]
pub struct Piece {
    pub source: u32,
    pub from: Region,
    pub to: Region,
}
