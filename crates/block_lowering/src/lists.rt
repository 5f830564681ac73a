//! Lists of numbers: of axes, of chunks, and of keys.
ghost use Rattle.std.specs.Prelude.{◌≡◌, ◌<◌, ◌≤◌, ◌+◌, ◌^◌, ℕ, length, cond, get_or, nat_eq, slice_set, IfOk, OnOk};
ghost use Rattle.std.specs.List.{position_or_len, range_with_len};
ghost use Rattle.nd_grid.specs.Grid.{turned, merged, woven, folded_shape};
ghost use Rattle.task_graph.specs.Orders.{position, ascending, with_key};

use array_expr::axes::{is_in_list, push_unless};
use std::alloc::{AllocError, Global};

/// The number at a place of a list, or 0 where the list is shorter. No memory.
pub fn number_at(list: &[u64], place: usize) -> u64
    ensures { result ≡ get_or list.now place 0 }
{
    match list.get(place) {
        Some(number) => *number,
        None => 0,
    }
}

/// The place of an axis in a list, or the list's length. No memory.
pub fn place_in_list(axes: &[u64], axis: u64) -> usize
    ensures { result ≡ position_or_len (nat_eq axis) axes.now }
{
    for (place, k) in axes.iter().enumerate() {
        if axis == *k {
            return place;
        }
    }
    axes.len()
}

/// One more, or as many.
pub fn next_if(more: bool, count: usize) -> usize
    requires { count < 2 ^ 63 }
    ensures { result ≡ cond more (count + 1) count }
{
    if more { count + 1 } else { count }
}

/// The one or the other.
pub fn one_of(first: bool, a: u64, b: u64) -> u64
    ensures { result ≡ cond first a b }
{
    if first { a } else { b }
}

/// The numbers with another one at a place, where the list has that place.
pub fn with_number(
    alloc: Global,
    list: &[u64],
    place: usize,
    number: u64,
) -> Result<Vec<u64>, AllocError>
    ensures { IfOk result (λ v. v.items ≡ slice_set list.now place number) }
{
    let mut copy = Vec::from_slice(alloc, list)?;
    if place < list.len() {
        copy[place] = number;
    }
    Ok(copy)
}

// ---- indexes of operands

/// The index behind an index of a transpose.
pub fn index_turned(alloc: Global, axes: &[u64], index: &[u64]) -> Result<Vec<u64>, AllocError>
    ensures { IfOk result (λ v. v.items ≡ turned axes.now index.now) }
{
    let mut own = Vec::with_capacity(alloc, axes.len())?;
    for axis in 0..axes.len() {
        own.push(number_at(index, place_in_list(axes, axis as u64)))?;
    }
    Ok(own)
}

/// The index of an operand that has `folded` on the listed axes and `kept` on the others, both in order.
pub fn index_merged(
    alloc: Global,
    counts: &[u64],
    axes: &[u64],
    kept: &[u64],
    folded: &[u64],
) -> Result<Vec<u64>, AllocError>
    requires { length counts.now ≤ 8 }
    ensures { IfOk result (λ v. v.items ≡ merged 0 counts.now axes.now kept.now folded.now) }
{
    let mut own = Vec::with_capacity(alloc, counts.len())?;
    let mut used = 0;
    let mut spent = 0;
    for axis in 0..counts.len() {
        let gone = is_in_list(axes, axis as u64);
        own.push(one_of(gone, number_at(folded, spent), number_at(kept, used)))?;
        spent = next_if(gone, spent);
        used = next_if(!gone, used);
    }
    Ok(own)
}

/// The index of an operand that has `rest` on the listed axes, in the list's order, and `kept` on the others.
pub fn index_woven(
    alloc: Global,
    counts: &[u64],
    axes: &[u64],
    kept: &[u64],
    rest: &[u64],
) -> Result<Vec<u64>, AllocError>
    requires { length counts.now ≤ 8 }
    ensures { IfOk result (λ v. v.items ≡ woven 0 counts.now axes.now kept.now rest.now) }
{
    let mut own = Vec::with_capacity(alloc, counts.len())?;
    let mut used = 0;
    for axis in 0..counts.len() {
        let paired = is_in_list(axes, axis as u64);
        let place = place_in_list(axes, axis as u64);
        own.push(one_of(paired, number_at(rest, place), number_at(kept, used)))?;
        used = next_if(!paired, used);
    }
    Ok(own)
}

/// The counts on the listed axes, in the order of the axes.
pub fn folded_counts(alloc: Global, counts: &[u64], axes: &[u64]) -> Result<Vec<u64>, AllocError>
    ensures { IfOk result (λ v. v.items ≡ folded_shape 0 counts.now axes.now) }
{
    let mut folded = Vec::new(alloc);
    for (axis, count) in counts.iter().enumerate() {
        let listed = is_in_list(axes, axis as u64);
        push_unless(&mut folded, !listed, *count)?;
    }
    Ok(folded)
}

// ---- keys

/// The place of a key in a list, or the list's length. No memory.
pub fn place_of_key(keys: &[u32], key: u32) -> usize
    ensures { result ≡ position keys.now key }
{
    for (place, other) in keys.iter().enumerate() {
        if key == *other {
            return place;
        }
    }
    keys.len()
}

// How many of the first keys are smaller, up to one that isn't.
fn smaller_keys(keys: &[u32], key: u32) -> usize
    ensures there { result ≤ length keys.now }
    ensures before { (p : ℕ) → p < result → get_or keys.now p 0 < key }
    ensures behind { result < length keys.now → key ≤ get_or keys.now result 0 }
{
    for (place, other) in keys.iter().enumerate() {
        if *other >= key {
            return place;
        }
    }
    keys.len()
}

// Puts a key in its place, if it isn't there.
fn put_key(keys: &mut Vec<u32>, key: u32) -> Result<(), AllocError>
    ensures { OnOk result (keys.new.items ≡ with_key key keys.old.items) }
{
    let place = smaller_keys(keys.as_slice(), key);
    if place < keys.len() && keys[place] == key {
        return Ok(());
    }
    keys.insert(place, key)?;
    Ok(())
}

/// Each key once, ascending. For the few operands of one task.
pub fn in_order(alloc: Global, keys: &[u32]) -> Result<Vec<u32>, AllocError>
    ensures { IfOk result (λ v. v.items ≡ ascending keys.now) }
{
    let mut list = Vec::new(alloc);
    let mut place = keys.len();
    while place > 0 {
        place -= 1;
        put_key(&mut list, keys[place])?;
    }
    Ok(list)
}

/// So many keys from one on.
pub fn keys_from(alloc: Global, first: u32, count: u32) -> Result<Vec<u32>, AllocError>
    requires { first + count < 2 ^ 32 }
    ensures { IfOk result (λ v. v.items ≡ range_with_len first count) }
{
    let mut keys = Vec::with_capacity(alloc, count as usize)?;
    for k in 0..count {
        keys.push(first + k)?;
    }
    Ok(keys)
}
