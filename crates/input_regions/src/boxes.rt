//! Regions as the least boxes that have some indexes.
ghost use Rattle.std.specs.Prelude.{◌≡◌, ◌≤◌, ◌<◌, ◌⊎◌, ◌^◌, ℕ, Some, length, replicate, slice_index};
ghost use Rattle.nd_shape.specs.Region.{Box};
ghost use Rattle.input_regions.specs.Boxes.{IsInRegion, IsLeast};
ghost use Rattle.input_regions.specs.Needed.{region_at};
ghost use Rattle.input_regions.specs.Widening.{AreFull, CanHave, IsEither, IsFull, Reaches, Widens};

use array_expr::NodeId;
use nd_shape::Region;

// The region of one index.
fn point(index: &[u64]) -> Region
    requires { length index.now ≤ 8 }
    ensures { result ≡ record { start = index.now; lengths = replicate (length index.now) 1 } }
{
    let mut region = Region::new();
    for coordinate in index {
        region.push(*coordinate, 1);
    }
    region
}

// A region that reaches to an index too.
fn stretched(region: &Region, index: &[u64]) -> Region
    requires full { IsFull region.now }
    requires axes { length region.now.start ≡ length index.now }
    requires small { (a : ℕ) → a < length index.now → slice_index index.now a < 2 ^ 31 }
    ensures { Reaches region.now index.now result }
{
    let starts = region.starts();
    let lengths = region.lengths();
    let mut wider = Region::new();
    for (axis, coordinate) in index.iter().enumerate() {
        let start = starts[axis].min(*coordinate);
        let end = (starts[axis] + lengths[axis]).max(*coordinate + 1);
        wider.push(start, end - start);
    }
    wider
}

// The least region that has what a region has, if there is one, and this index.
fn widened(region: &Option<Region>, index: &[u64]) -> Region
    requires full { (box : Box) → region.now ≡ Some box → IsFull box }
    requires can { CanHave region.now index.now }
    ensures { IsLeast (λ i. IsInRegion region.now i ⊎ (i ≡ index.now)) (Some result) }
{
    match region {
        None => point(index),
        Some(region) => stretched(region, index),
    }
}

// Widens the region of a node by one of its indexes.
fn widen(needs: &mut [Option<Region>], of: NodeId, index: &[u64])
    requires there { of < length needs.old }
    requires full { AreFull needs.old }
    requires can { CanHave (region_at needs.old of) index.now }
    ensures { Widens (λ k i. (k ≡ of) × (i ≡ index.now)) needs.old needs.new }
{
    let at = of.number() as usize;
    let region = widened(&needs[at], index);
    needs[at] = Some(region);
}

/// Widens the region of a node by two of its indexes. No memory.
pub fn widen_both(needs: &mut [Option<Region>], of: NodeId, first: &[u64], last: &[u64])
    requires there { of < length needs.old }
    requires full { AreFull needs.old }
    requires first { CanHave (region_at needs.old of) first.now }
    requires last { CanHave (region_at needs.old of) last.now }
    requires axes { length first.now ≡ length last.now }
    ensures { Widens (IsEither of first.now last.now) needs.old needs.new }
{
    widen(needs, of, first);
    widen(needs, of, last);
}
