//! The links of keys: down to the dependencies, or up to the dependents.
ghost use Rattle.std.specs.Prelude.{◌≡◌, ℕ, ◌<◌, [], length, vec_len, IfOk, OnOk, All};
ghost use Rattle.std.specs.List.Sorted.{IsStrictlyIncreasing};
ghost use Rattle.spread_flags.specs.Spread.{IsLinked};
ghost use Rattle.standing.specs.Links.{IsReverse, linked_to, with_link};

use cluster_msgs::{GraphShape, KeyList};
use std::alloc::{AllocError, Global};

/// A list of its own of these keys.
fn copy_list(alloc: Global, keys: &[u32]) -> Result<KeyList, AllocError>
    ensures { IfOk result (λ list. list ≡ keys.now) }
{
    Ok(KeyList::from_vec(Vec::from_slice(alloc, keys)?))
}

/// Each key leads to its dependencies.
///
/// # Errors
/// Where no memory is left.
pub fn down_links(alloc: Global, shape: &GraphShape) -> Result<Vec<KeyList>, AllocError>
    ensures same { IfOk result (λ links. links.items ≡ shape.now.deps) }
    ensures linked { IfOk result (λ links. IsLinked links.items) }
{
    shape.sound();
    let mut links = Vec::with_capacity(alloc, shape.keys() as usize)?;
    for key in 0..shape.keys() {
        links.push(copy_list(alloc, shape.deps(key))?)?;
    }
    Ok(links)
}

/// The key is added to the lists of these keys.
fn add_dependent(links: &mut Vec<KeyList>, keys: &[u32], key: u32) -> Result<(), AllocError>
    requires keys { All (λ k. k < vec_len links.old) keys.now }
    requires rising { IsStrictlyIncreasing keys.now }
    ensures length { OnOk result (length links.new.items ≡ length links.old.items) }
    ensures added { OnOk result ((j : ℕ) → linked_to links.new.items j ≡ with_link links.old.items keys.now key j) }
{
    for other in keys {
        links[*other as usize].push(key)?;
    }
    Ok(())
}

/// So many empty lists.
fn empty_lists(alloc: Global, count: u32) -> Result<Vec<KeyList>, AllocError>
    ensures length { IfOk result (λ links. length links.items ≡ count) }
    ensures empty { IfOk result (λ links. (j : ℕ) → linked_to links.items j ≡ []) }
{
    let mut links = Vec::with_capacity(alloc, count as usize)?;
    for _key in 0..count {
        links.push(KeyList::new(alloc))?;
    }
    Ok(links)
}

/// Each key leads to those that depend on it.
///
/// # Errors
/// Where no memory is left.
pub fn up_links(alloc: Global, shape: &GraphShape) -> Result<Vec<KeyList>, AllocError>
    ensures reverse { IfOk result (λ links. IsReverse shape.now links.items) }
    ensures linked { IfOk result (λ links. IsLinked links.items) }
{
    shape.sound();
    let mut links = empty_lists(alloc, shape.keys())?;
    for key in 0..shape.keys() {
        add_dependent(&mut links, shape.deps(key), key)?;
    }
    Ok(links)
}
