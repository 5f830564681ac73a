//! A region's elements in the order of storage.
ghost use Rattle.std.specs.Prelude.{◌≡◌, ◌≤◌, ◌<◌, ◌+◌, ◌^◌, ℕ, length, reverse, slice_index, IfOk};
ghost use Rattle.nd_shape.specs.Shape.{elements};
ghost use Rattle.nd_shape.specs.Index.{index_at, place};
ghost use Rattle.nd_shape.specs.Region.{IsPart, moved};
ghost use Rattle.nd_rows.specs.Storage.{IsRow, count_of, spot, stored, walk_of};

use nd_shape::{Region, Shape, ravel, unravel};
use std::alloc::{AllocError, Global};
use std::marker::Model;

/// A region of an array, with the axes in the order of storage, the slowest first.
#[derive(Drop)]
pub struct RegionWalk {
    dims: Shape,
    region: Region,
    lengths: Shape,
    index: Vec<u64>,
}

impl Model for RegionWalk {
    ghost use Rattle.std.specs.Prelude.{◌≡◌, length};
    ghost use Rattle.nd_shape.specs.Region.{IsPart};
    ghost use Rattle.nd_rows.specs.Storage.{Walk};

    ghost Value = { Walk };

    ghost view = { λ w. record { dims = w.dims; region = w.region } };

    ghost invariant = { λ w. (IsPart w.region w.dims) × (w.lengths ≡ w.region.lengths) × (length w.index.items ≡ length w.dims) };
}

// The lengths in the order of storage.
#[tactic(auto, using(crate::proofs::Turned::reversed_shape))]
pub(crate) fn stored_dims(
    alloc: Global,
    column_major: bool,
    shape: &Shape,
) -> Result<Shape, AllocError>
    ensures { IfOk result (λ dims. dims ≡ stored column_major shape.now) }
{
    if column_major {
        let dims = shape.dims().iter().rev().copied().collect(alloc)?;
        Ok(Shape::of(dims))
    } else {
        shape.copy(alloc)
    }
}

// The region with its axes backwards. No memory.
fn backwards(region: &Region) -> Region
    ensures start { result.start ≡ reverse region.now.start }
    ensures lengths { result.lengths ≡ reverse region.now.lengths }
{
    let starts = region.starts();
    let lengths = region.lengths();
    let axes = starts.len();
    let mut turned = Region::new();
    for done in 0..axes {
        let axis = axes - 1 - done;
        turned.push(starts[axis], lengths[axis]);
    }
    turned
}

// Moves an index of a region to one of the array. No memory.
fn move_by(starts: &[u64], index: &mut [u64])
    requires axes { length index.old ≡ length starts.now }
    requires small { (k : ℕ) → k < length starts.now → slice_index starts.now k + slice_index index.old k < 2 ^ 64 }
    ensures { index.new ≡ moved starts.now index.old }
{
    for (axis, start) in starts.iter().enumerate() {
        index[axis] += start;
    }
}

// Where an element of a region is stored, by its number. The index is room for one. No memory.
fn spot_of(dims: &Shape, region: &Region, lengths: &Shape, index: &mut [u64], element: u64) -> u64
    requires part { IsPart region.now dims.now }
    requires lengths { lengths.now ≡ region.now.lengths }
    requires axes { length index.old ≡ length dims.now }
    requires inside { element < elements lengths.now }
    ensures place { result ≡ place dims.now (moved region.now.start (index_at region.now.lengths element)) }
    ensures limit { result < 2 ^ 31 }
{
    let _ = dims.dims();
    unravel(lengths, element, index);
    move_by(region.starts(), index);
    ravel(dims, index)
}

// The length of a row of a region. No memory.
fn row_of(dims: &[u64], region: &Region) -> u64
    requires part { IsPart region.now dims.now }
    requires some { 0 < elements region.now.lengths }
    requires small { elements region.now.lengths ≤ 2 ^ 31 }
    ensures { IsRow (record { dims = dims.now; region = region.now }) result }
{
    let lengths = region.lengths();
    let mut row = 1;
    for (axis, len) in dims.iter().enumerate() {
        if lengths[axis] == *len {
            row *= len;
        } else {
            row = lengths[axis];
        }
    }
    row
}

impl RegionWalk {
    /// The walk over a region of an array that is stored in column-major order where `column_major` says so, and in
    /// row-major order otherwise.
    pub fn new(
        alloc: Global,
        column_major: bool,
        shape: &Shape,
        region: &Region,
    ) -> Result<Self, AllocError>
        requires { IsPart region.now shape.now }
        ensures { IfOk result (λ walk. walk ≡ walk_of column_major shape.now region.now) }
    {
        let dims = stored_dims(alloc, column_major, shape)?;
        let region = if column_major {
            backwards(region)
        } else {
            region.copy()
        };
        let lengths = region.shape(alloc, &dims)?;
        let index = vec![in alloc; 0; dims.dims().len()]?;
        Ok(RegionWalk {
            dims,
            region,
            lengths,
            index,
        })
    }

    /// How many elements the region has. No memory.
    pub fn len(&self) -> u64
        ensures count { result ≡ count_of self.now }
        ensures limit { result ≤ 2 ^ 31 }
    {
        let _ = self.lengths.dims();
        self.lengths.elements()
    }

    /// Where the region's element of this number is stored, among the elements of the array. No memory.
    pub fn place(&mut self, element: u64) -> u64
        requires { element < count_of self.old }
        ensures same { self.new ≡ self.old }
        ensures place { result ≡ spot self.old element }
        ensures limit { result < 2 ^ 31 }
    {
        spot_of(
            &self.dims,
            &self.region,
            &self.lengths,
            &mut self.index,
            element,
        )
    }

    /// The length of a row: the elements of a row are stored one behind the other. No memory.
    pub fn row_len(&self) -> u64
        requires { 0 < count_of self.now }
        ensures { IsRow self.now result }
    {
        let _ = self.lengths.dims();
        row_of(self.dims.dims(), &self.region)
    }
}
