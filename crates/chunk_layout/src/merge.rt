//! The union of the boundaries of chunks.
ghost use Rattle.std.specs.Prelude.{◌≡◌, ◌<◌, IfOk, cond, nat_eq};
ghost use Rattle.nd_shape.specs.Chunk.{total};
ghost use Rattle.chunk_layout.specs.Layouts.{lengths};
ghost use Rattle.chunk_layout.specs.Cuts.{IsCut, IsLayout};
ghost use Rattle.chunk_layout.specs.Unions.{union, unified};

use crate::cuts::Cuts;
use crate::layout::Layout;
use std::alloc::{AllocError, Global};

/// The layout that is cut wherever one of two layouts of equal shapes is, as Dask's `unify_chunks`
/// (<https://docs.dask.org/en/stable/generated/dask.array.core.unify_chunks.html>).
pub fn unify(alloc: Global, a: &Layout, b: &Layout) -> Result<Layout, AllocError>
    requires { lengths a.now ≡ lengths b.now }
    ensures { IfOk result (λ layout. layout ≡ unified a.now b.now) }
{
    let axes = unions(alloc, a.axes(), b.axes())?;
    Ok(Layout::of(axes))
}

fn unions(alloc: Global, a: &[Cuts], b: &[Cuts]) -> Result<Vec<Cuts>, AllocError>
    requires same { lengths a.now ≡ lengths b.now }
    requires sound { IsLayout a.now }
    ensures value { IfOk result (λ axes. axes.items ≡ unified a.now b.now) }
    ensures sound { IfOk result (λ axes. IsLayout axes.items) }
{
    let mut axes = Vec::with_capacity(alloc, a.len())?;
    for axis in 0..a.len() {
        axes.push(union_of(alloc, &a[axis], &b[axis])?)?;
    }
    Ok(axes)
}

/// The cut of an axis at the boundaries of two cuts of it.
#[tactic(auto, using(crate::proofs::Merging::union_of_none, crate::proofs::Merging::union_is_cut, crate::proofs::Merging::cut_of_union))]
pub fn union_of(alloc: Global, a: &Cuts, b: &Cuts) -> Result<Cuts, AllocError>
    requires { total a.now ≡ total b.now }
    ensures value { IfOk result (λ cuts. cuts ≡ union a.now b.now) }
    ensures cut { IsCut (union a.now b.now) }
{
    let _ = a.sizes();
    let _ = b.sizes();
    if a.len() == 0 {
        return a.copy(alloc);
    }
    let sizes = merged(alloc, a, b)?;
    Cuts::of(alloc, sizes)
}

// 1 where a chunk ends here, 0 where it goes on.
fn passed(chunk_end: u64, end: u64) -> usize
    ensures { result ≡ cond (nat_eq chunk_end end) 1 0 }
{
    if chunk_end == end { 1 } else { 0 }
}

fn merged(alloc: Global, a: &Cuts, b: &Cuts) -> Result<Vec<u32>, AllocError>
    requires same { total a.now ≡ total b.now }
    requires some { 0 < total a.now }
    ensures { IfOk result (λ sizes. sizes.items ≡ union a.now b.now) }
{
    let left = a.starts();
    let right = b.starts();
    let len = a.len();
    let mut sizes = Vec::new(alloc);
    let mut i = 0;
    let mut j = 0;
    let mut at = 0;
    while at < len {
        let end = left[i + 1].min(right[j + 1]);
        sizes.push((end - at) as u32)?;
        i += passed(left[i + 1], end);
        j += passed(right[j + 1], end);
        at = end;
    }
    Ok(sizes)
}
