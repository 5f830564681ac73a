//! Indexes of operands behind indexes of slices, transposes, parts, reductions and products.
ghost use Rattle.std.specs.Prelude.{◌≡◌, ◌+◌, ◌<◌, ◌≤◌, ◌^◌, ℕ, false, true, length, All, cond, nat_eq, pos, ◌≤ℤ◌, slice_index};
ghost use Rattle.std.specs.List.{position_or_len};
ghost use Rattle.nd_shape.specs.Index.{IsIn};
ghost use Rattle.nd_shape.specs.Slice.{position, coordinate};
ghost use Rattle.nd_shape.specs.Region.{moved};
ghost use Rattle.nd_grid.specs.Grid.{is_among, sliced_shape, sliced_from, SlicesFit, turned, IsTranspose, kept_shape, folded_shape, merged, woven};

use nd_shape::Steps;

/// The index of the axis at place i of a slice. No memory.
pub fn coordinate_of(steps: Steps, i: u64) -> u64
    requires forward { pos 0 ≤ℤ position steps i }
    requires small { coordinate steps i < 2 ^ 31 }
    ensures { result ≡ coordinate steps i }
{
    let span = steps.step.unsigned_abs() * i;
    if steps.step < 0 {
        steps.start - span
    } else {
        steps.start + span
    }
}

/// Whether an axis is in a list. No memory.
pub fn is_in_list(axes: &[u64], axis: u64) -> bool
    ensures { result ≡ is_among axis axes.now }
{
    axes.iter().any(|k| axis == *k)
}

fn coordinate_or_start(steps: Steps, gone: bool, index: &[u64], used: usize) -> u64
    requires there { gone ≡ false → used < length index.now }
    requires forward { gone ≡ false → pos 0 ≤ℤ position steps (slice_index index.now used) }
    requires small { gone ≡ false → coordinate steps (slice_index index.now used) < 2 ^ 31 }
    ensures { result ≡ cond gone steps.start (coordinate steps (slice_index index.now used)) }
{
    if gone {
        steps.start
    } else {
        coordinate_of(steps, index[used])
    }
}

/// How many coordinates are used after an axis: one more, unless the axis is gone. No memory.
pub fn next_used(gone: bool, used: usize) -> usize
    requires { used < 2 ^ 63 }
    ensures { result ≡ cond gone used (used + 1) }
{
    if gone { used } else { used + 1 }
}

/// Writes the index of the operand behind an index of a slice. No memory.
pub fn index_sliced(steps: &[Steps], dropped: &[u64], dims: &[u64], index: &[u64], own: &mut [u64])
    requires fits { SlicesFit 0 steps.now dims.now dropped.now }
    requires few { length dims.now ≤ 8 }
    requires lengths { All (λ n. n ≤ 2 ^ 31) dims.now }
    requires inside { IsIn (sliced_shape 0 steps.now dropped.now) index.now }
    requires room { length own.old ≡ length dims.now }
    ensures { own.new ≡ sliced_from 0 steps.now dropped.now index.now }
{
    let mut used = 0;
    for axis in 0..dims.len() {
        let s = steps[axis];
        let gone = is_in_list(dropped, axis as u64);
        own[axis] = coordinate_or_start(s, gone, index, used);
        used = next_used(gone, used);
    }
}

// The place of an axis in a list, or the list's length.
fn place_in_list(axes: &[u64], axis: u64) -> usize
    ensures { result ≡ position_or_len (nat_eq axis) axes.now }
{
    for (place, k) in axes.iter().enumerate() {
        if axis == *k {
            return place;
        }
    }
    axes.len()
}

/// Writes the index of the operand behind an index of a transpose. No memory.
pub fn index_transposed(axes: &[u64], index: &[u64], own: &mut [u64])
    requires axes { IsTranspose axes.now (length axes.now) }
    requires few { length axes.now ≤ 8 }
    requires index { length index.now ≡ length axes.now }
    requires room { length own.old ≡ length axes.now }
    ensures { own.new ≡ turned axes.now index.now }
{
    for axis in 0..axes.len() {
        own[axis] = index[place_in_list(axes, axis as u64)];
    }
}

/// Writes an index of a region, counted from the first index of the whole. No memory.
pub fn index_moved(starts: &[u64], index: &[u64], own: &mut [u64])
    requires index { length index.now ≡ length starts.now }
    requires room { length own.old ≡ length starts.now }
    requires fits { (k : ℕ) → k < length starts.now → slice_index starts.now k + slice_index index.now k < 2 ^ 64 }
    ensures { own.new ≡ moved starts.now index.now }
{
    for (axis, start) in starts.iter().enumerate() {
        own[axis] = start + index[axis];
    }
}

fn one_of(gone: bool, folded: &[u64], spent: usize, kept: &[u64], used: usize) -> u64
    requires folded { gone ≡ true → spent < length folded.now }
    requires kept { gone ≡ false → used < length kept.now }
    ensures { result ≡ cond gone (slice_index folded.now spent) (slice_index kept.now used) }
{
    if gone { folded[spent] } else { kept[used] }
}

fn next_spent(gone: bool, spent: usize) -> usize
    requires { spent < 2 ^ 63 }
    ensures { result ≡ cond gone (spent + 1) spent }
{
    if gone { spent + 1 } else { spent }
}

/// Writes the index whose coordinates on the listed axes are those of `folded` and whose others are those of `kept`,
/// each in order. No memory.
pub fn index_merged(axes: &[u64], dims: &[u64], kept: &[u64], folded: &[u64], own: &mut [u64])
    requires few { length dims.now ≤ 8 }
    requires kept { IsIn (kept_shape 0 dims.now axes.now) kept.now }
    requires folded { IsIn (folded_shape 0 dims.now axes.now) folded.now }
    requires room { length own.old ≡ length dims.now }
    ensures { own.new ≡ merged 0 dims.now axes.now kept.now folded.now }
{
    let mut used = 0;
    let mut spent = 0;
    for axis in 0..dims.len() {
        let gone = is_in_list(axes, axis as u64);
        own[axis] = one_of(gone, folded, spent, kept, used);
        used = next_used(gone, used);
        spent = next_spent(gone, spent);
    }
}

/// Writes the index whose coordinates on the listed axes are those of `rest`, in the order of the list, and whose others
/// are those of `kept`, in order. No memory.
pub fn index_woven(axes: &[u64], dims: &[u64], kept: &[u64], rest: &[u64], own: &mut [u64])
    requires few { length dims.now ≤ 8 }
    requires kept { length (kept_shape 0 dims.now axes.now) ≤ length kept.now }
    requires rest { length rest.now ≡ length axes.now }
    requires room { length own.old ≡ length dims.now }
    ensures { own.new ≡ woven 0 dims.now axes.now kept.now rest.now }
{
    let mut used = 0;
    for axis in 0..dims.len() {
        let paired = is_in_list(axes, axis as u64);
        let place = place_in_list(axes, axis as u64);
        own[axis] = one_of(paired, rest, place, kept, used);
        used = next_used(paired, used);
    }
}
