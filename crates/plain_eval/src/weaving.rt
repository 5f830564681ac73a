//! Indexes of the operands of a product over paired axes.
ghost use Rattle.std.specs.Prelude.{◌≡◌, ◌<◌, ◌≤◌, ◌+◌, ◌^◌, length, cond, slice_index, nat_eq, true, false};
ghost use Rattle.std.specs.List.{position_or_len};
ghost use Rattle.nd_grid.specs.Grid.{is_among, kept_shape, woven};

// The place of an axis in a list, or the list's length.
fn place_in_list(axes: &[u64], axis: u64) -> usize
    ensures { result ≡ position_or_len (nat_eq axis) axes.now }
{
    for (place, k) in axes.iter().enumerate() {
        if axis == *k {
            return place;
        }
    }
    axes.len()
}

// Whether an axis is in a list.
fn is_in_list(axes: &[u64], axis: u64) -> bool
    ensures { result ≡ is_among axis axes.now }
{
    axes.iter().any(|k| axis == *k)
}

// The coordinate on an axis.
fn one_of(paired: bool, rest: &[u64], place: usize, kept: &[u64], used: usize) -> u64
    requires rest { paired ≡ true → place < length rest.now }
    requires kept { paired ≡ false → used < length kept.now }
    ensures { result ≡ cond paired (slice_index rest.now place) (slice_index kept.now used) }
{
    if paired { rest[place] } else { kept[used] }
}

fn next_used(paired: bool, used: usize) -> usize
    requires { used < 2 ^ 63 }
    ensures { result ≡ cond paired used (used + 1) }
{
    if paired { used } else { used + 1 }
}

/// Writes the index whose coordinates on the listed axes are those of `rest`, in the order of the list, and whose others
/// are those of `kept`, in order. No memory.
pub fn index_woven(axes: &[u64], dims: &[u64], kept: &[u64], rest: &[u64], own: &mut [u64])
    requires few { length dims.now ≤ 8 }
    requires kept { length (kept_shape 0 dims.now axes.now) ≤ length kept.now }
    requires rest { length rest.now ≡ length axes.now }
    requires room { length own.old ≡ length dims.now }
    ensures { own.new ≡ woven 0 dims.now axes.now kept.now rest.now }
{
    let mut used = 0;
    for axis in 0..dims.len() {
        let paired = is_in_list(axes, axis as u64);
        let place = place_in_list(axes, axis as u64);
        own[axis] = one_of(paired, rest, place, kept, used);
        used = next_used(paired, used);
    }
}

/// How many axes aren't listed. No memory.
pub fn kept_count(axes: &[u64], dims: &[u64]) -> usize
    requires { length dims.now ≤ 8 }
    ensures { result ≡ length (kept_shape 0 dims.now axes.now) }
{
    let mut count = 0;
    for axis in 0..dims.len() {
        let paired = is_in_list(axes, axis as u64);
        count = next_used(paired, count);
    }
    count
}
