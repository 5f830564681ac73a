//! The tree that folds partial results.
ghost use Rattle.std.specs.Prelude.{◌≡◌, ◌<◌, ◌≤◌, IfOk};
ghost use Rattle.nd_shape.specs.Chunk.{even_chunks};
ghost use Rattle.chunk_layout.specs.Trees.{tree as levels_of};

use nd_shape::{Sequence, Sizes};
use std::alloc::{AllocError, Global};

/// The sizes of the groups of each level.
pub type Levels = Sequence<Sizes>;

/// The levels by which so many partial results become one: groups of `split` of them, the last group of a level maybe
/// smaller, until one is left, as the `split_every` of Dask's reductions
/// (<https://docs.dask.org/en/stable/generated/dask.array.reduction.html>). One partial result or none has no level.
pub fn tree(alloc: Global, partials: u32, split: u32) -> Result<Levels, AllocError>
    requires { 2 ≤ split }
    ensures { IfOk result (λ levels. levels ≡ levels_of partials split) }
{
    let mut levels = Levels::new(alloc);
    let mut left = partials;
    while left > 1 {
        let sizes = groups(alloc, left, split)?;
        left = sizes.len() as u32;
        levels.push(Sizes::from_vec(sizes))?;
    }
    Ok(levels)
}

fn groups(alloc: Global, count: u32, split: u32) -> Result<Vec<u32>, AllocError>
    requires { 0 < split }
    ensures { IfOk result (λ sizes. sizes.items ≡ even_chunks count split) }
{
    let mut sizes = vec![in alloc; split; (count / split) as usize]?;
    if count % split != 0 {
        sizes.push(count % split)?;
    }
    Ok(sizes)
}
