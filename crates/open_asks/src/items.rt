//! What goes into an ask: keys with their copies.
ghost use Rattle.std.specs.Prelude.{◌≡◌, ◌==◌, ◌++◌, ◌≤◌, ◌^◌, ℕ, [], find, filter, min, length, IfOk, OnOk, OnErr};
ghost use Rattle.std.specs.List.{cons_option};
ghost use Rattle.std.specs.Option.{option_copied};
ghost use Rattle.cluster_msgs.specs.Shape.{nbytes_of};
ghost use Rattle.cluster_rules.specs.Functions.{from_one};
ghost use Rattle.cluster_rules.specs.Worker.{item_at, first_fit};
ghost use Rattle.cluster_rules.specs.WorkerStep.{keys_of};

use cluster_msgs::{GraphShape, KeyList};
use std::alloc::{AllocError, Global};

/// At most this many keys go into one ask.
const ASK_KEYS: usize = 16;

/// An ask of more than one key is for at most this many bytes.
const ASK_BYTES: u64 = 67_108_864;

/// The first pair of this peer.
fn find_holder(peer: u32, holders: &[(u32, u64)]) -> Option<&(u32, u64)>
    ensures { option_copied result ≡ find (λ (h : ℕ × ℕ). h.0 == peer) holders.now }
{
    holders.iter().find(|holder| holder.0 == peer)
}

/// The key with the copy that the peer holds, where it is one of the holders.
pub fn item_at(peer: u32, key: u32, holders: &[(u32, u64)]) -> Option<(u32, u64)>
    ensures { result ≡ item_at peer key holders.now }
{
    match find_holder(peer, holders) {
        Some(holder) => Some((key, holder.1)),
        None => None,
    }
}

/// Appends the item, where there is one.
///
/// # Errors
/// Where no memory is left; the items are then as before.
pub fn push_item(items: &mut Vec<(u32, u64)>, item: Option<(u32, u64)>) -> Result<(), AllocError>
    ensures ok { OnOk result (items.new.items ≡ items.old.items ++ cons_option item []) }
    ensures err { OnErr result (items.new.items ≡ items.old.items) }
{
    if let Some(item) = item {
        items.push(item)?;
    }
    Ok(())
}

/// The keys of these items, in their order.
///
/// # Errors
/// Where no memory is left.
pub fn keys_of(alloc: Global, items: &[(u32, u64)]) -> Result<KeyList, AllocError>
    ensures { IfOk result (λ keys. keys ≡ keys_of items.now) }
{
    let mut keys = Vec::with_capacity(alloc, items.len())?;
    for item in items {
        keys.push(item.0)?;
    }
    Ok(KeyList::from_vec(keys))
}

/// The bytes of a key's block, 0 where there is no such key.
fn nbytes(shape: &GraphShape, key: u32) -> u64
    ensures value { result ≡ nbytes_of shape.now key }
    ensures bound { result ≤ 2 ^ 27 }
{
    shape.sound();
    if key < shape.keys() {
        shape.nbytes(key)
    } else {
        0
    }
}

/// How many of these items, from the first, go into one ask: one does always, more where they have at most 2^26 bytes
/// together, and at most 16.
pub fn fitting_count(shape: &GraphShape, items: &[(u32, u64)]) -> usize
    ensures { result ≡ length (filter (first_fit shape.now items.now) (from_one (min 16 (length items.now)))) }
{
    let mut bytes = 0;
    let mut count = 0;
    for place in 0..items.len().min(ASK_KEYS) {
        bytes += nbytes(shape, items[place].0);
        count += usize::from((place == 0) | (bytes <= ASK_BYTES));
    }
    count
}
