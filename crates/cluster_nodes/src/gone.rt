//! The keys that an event may take from those that a node counts.
ghost use Rattle.std.specs.Prelude.{◌≡◌, ◌∷◌, [], IfOk};
ghost use Rattle.cluster_nodes.specs.Gone.{freed_by, lost_by, released_by};

use cluster_msgs::{ClientEvent, Down, KeyList, WorkerEvent};
use std::alloc::{AllocError, Global};

/// Those that it may take from a worker's memory.
///
/// # Errors
/// Where no memory is left.
pub fn lost_by(alloc: Global, event: &WorkerEvent) -> Result<KeyList, AllocError>
    ensures { IfOk result (λ keys. keys ≡ lost_by event.now) }
{
    match event {
        WorkerEvent::Down(down) => freed_by(alloc, down),
        WorkerEvent::DataLost { key } => only(alloc, *key),
        _ => Ok(KeyList::new(alloc)),
    }
}

fn freed_by(alloc: Global, down: &Down) -> Result<KeyList, AllocError>
    ensures { IfOk result (λ keys. keys ≡ freed_by down.now) }
{
    match down {
        Down::FreeKeys { keys } => keys.copy(),
        Down::RemoveReplicas { keys } => keys.copy(),
        _ => Ok(KeyList::new(alloc)),
    }
}

fn only(alloc: Global, key: u32) -> Result<KeyList, AllocError>
    ensures { IfOk result (λ keys. keys ≡ key ∷ []) }
{
    let mut keys = KeyList::new(alloc);
    keys.push(key)?;
    Ok(keys)
}

/// Those that it may take from what a client has got.
///
/// # Errors
/// Where no memory is left.
pub fn released_by(alloc: Global, event: &ClientEvent) -> Result<KeyList, AllocError>
    ensures { IfOk result (λ keys. keys ≡ released_by event.now) }
{
    match event {
        ClientEvent::Release(keys) => keys.copy(),
        _ => Ok(KeyList::new(alloc)),
    }
}
