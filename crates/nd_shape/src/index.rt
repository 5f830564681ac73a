//! Indexes and their places in row-major order.
ghost use Rattle.std.specs.Prelude.{◌≡◌, ◌<◌, ◌≤◌, ◌^◌, ◌↔◌, length, IsTrue};
ghost use Rattle.nd_shape.specs.Shape.{elements};
ghost use Rattle.nd_shape.specs.Index.{IsIn, place, index_at};

use crate::shape::Shape;

/// Whether an index has a coordinate for each axis, below that axis's length. No memory.
pub fn is_inside(shape: &Shape, index: &[u64]) -> bool
    ensures { IsTrue result ↔ IsIn shape.now index.now }
{
    let dims = shape.dims();
    if dims.len() != index.len() {
        return false;
    }
    below(dims, index)
}

/// The place of an index in row-major order, as NumPy's `ravel_multi_index`. No memory.
pub fn ravel(shape: &Shape, index: &[u64]) -> u64
    requires { IsIn shape.now index.now }
    ensures place { result ≡ place shape.now index.now }
    ensures inside { result < elements shape.now }
    ensures inverse { index_at shape.now result ≡ index.now }
{
    place_of(shape.dims(), index)
}

/// Writes the index at a place in row-major order, as NumPy's `unravel_index`. No memory.
pub fn unravel(shape: &Shape, position: u64, index: &mut [u64])
    requires inside { position < elements shape.now }
    requires axes { length index.old ≡ length shape.now }
    ensures index { index.new ≡ index_at shape.now position }
    ensures inside { IsIn shape.now index.new }
    ensures inverse { place shape.now index.new ≡ position }
{
    index_of(shape.dims(), position, index);
}

fn below(dims: &[u64], index: &[u64]) -> bool
    requires { length index.now ≡ length dims.now }
    ensures { IsTrue result ↔ IsIn dims.now index.now }
{
    for (axis, len) in dims.iter().enumerate() {
        if index[axis] >= *len {
            return false;
        }
    }
    true
}

fn place_of(dims: &[u64], index: &[u64]) -> u64
    requires small { elements dims.now ≤ 2 ^ 31 }
    requires inside { IsIn dims.now index.now }
    ensures { result ≡ place dims.now index.now }
{
    let mut at = 0;
    for (axis, len) in dims.iter().enumerate() {
        at = at * len + index[axis];
    }
    at
}

fn index_of(dims: &[u64], position: u64, index: &mut [u64])
    requires small { elements dims.now ≤ 2 ^ 31 }
    requires inside { position < elements dims.now }
    requires axes { length index.old ≡ length dims.now }
    ensures { index.new ≡ index_at dims.now position }
{
    let mut row = 1;
    for len in dims {
        row *= len;
    }
    let mut left = position;
    for (axis, len) in dims.iter().enumerate() {
        row /= len;
        index[axis] = left / row;
        left %= row;
    }
}
