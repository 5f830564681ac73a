//! The keys that depend on each key.
ghost use Rattle.std.specs.Prelude.{◌≡◌, ℕ, ◌<◌, [], length, All, IfOk, OnOk};
ghost use Rattle.worker_table.specs.Links.{dependents, IsLinked, IsAdded};

use cluster_msgs::{GraphShape, KeyList};
use std::alloc::{AllocError, Global};

/// As many empty lists.
fn no_lists(alloc: Global, count: u32) -> Result<Vec<KeyList>, AllocError>
    ensures length { IfOk result (λ lists. length lists.items ≡ count) }
    ensures empty { IfOk result (λ lists. (d : ℕ) → dependents lists.items d ≡ []) }
{
    let mut lists = Vec::with_capacity(alloc, count as usize)?;
    for _key in 0..count {
        lists.push(KeyList::new(alloc))?;
    }
    Ok(lists)
}

/// The key is named at each of these dependencies.
fn name_at(lists: &mut Vec<KeyList>, deps: &[u32], key: u32) -> Result<(), AllocError>
    requires { All (λ d. d < length lists.old.items) deps.now }
    ensures { OnOk result (IsAdded key deps.now lists.old.items lists.new.items) }
{
    for dep in deps {
        lists[*dep as usize].push(key)?;
    }
    Ok(())
}

/// At each key those that depend on it.
///
/// # Errors
/// Where no memory is left.
pub fn dependents_of(alloc: Global, shape: &GraphShape) -> Result<Vec<KeyList>, AllocError>
    ensures { IfOk result (λ lists. IsLinked shape.now lists.items) }
{
    shape.sound();
    let mut lists = no_lists(alloc, shape.keys())?;
    for key in 0..shape.keys() {
        name_at(&mut lists, shape.deps(key), key)?;
    }
    Ok(lists)
}
