//! The blocks that later keys use, one place a key.
ghost use Rattle.std.specs.Prelude.{◌≡◌, ◌<◌, Some, None, length, map, replicate, slice_index, IsSome, IfOk, OnOk, OnErr};
ghost use Rattle.std.specs.Arc.{arc_value};
ghost use Rattle.std.specs.List.{All};
ghost use Rattle.cluster_msgs.specs.Jobs.{blocks_of};
ghost use Rattle.cluster_msgs.specs.Shape.{key_count, deps_of};
ghost use Rattle.graph_run.specs.Slots.{block_at, AreKept, IsKeeping};
ghost use Rattle.graph_run.specs.Uses.{AreLastUses};
ghost use Rattle.graph_run.specs.Writes.{IsWritten};

use cluster_msgs::GraphShape;
use std::alloc::{AllocError, Global};
use std::sync::Arc;

/// No block for any of so many keys.
///
/// # Errors
/// Where no memory is left.
pub fn empty<B: Drop>(alloc: Global, keys: u32) -> Result<Vec<Option<Arc<B>>>, AllocError>
    ensures { IfOk result (λ slots. slots.items ≡ replicate keys None) }
{
    let mut slots = Vec::with_capacity(alloc, keys as usize)?;
    for _ in 0..keys {
        slots.push(None)?;
    }
    Ok(slots)
}

/// The blocks of these keys, shared.
///
/// # Errors
/// Where no memory is left.
pub fn gathered<B: Drop>(
    alloc: Global,
    slots: &[Option<Arc<B>>],
    keys: &[u32],
) -> Result<Vec<Arc<B>>, AllocError>
    requires { All (λ k. IsSome (block_at slots.now k)) keys.now }
    ensures { IfOk result (λ blocks. map (λ b. Some b) (blocks_of blocks.items) ≡ map (block_at slots.now) keys.now) }
{
    let mut blocks = Vec::with_capacity(alloc, keys.len())?;
    for key in keys {
        match &slots[*key as usize] {
            Some(block) => blocks.push(Arc::try_clone(block)?)?,
            None => unreachable!(),
        }
    }
    Ok(blocks)
}

/// Goes past a key, whose block this is: of its dependencies those are let go whose last use it was, and its block is kept
/// where a later key uses it.
///
/// # Errors
/// Where no memory is left; all is then as before.
pub fn keep<B: Drop>(
    slots: &mut [Option<Arc<B>>],
    last: &[u32],
    graph: &GraphShape,
    key: u32,
    block: &Arc<B>,
) -> Result<(), AllocError>
    requires key { key < key_count graph.now }
    requires uses { AreLastUses (deps_of graph.now) (key_count graph.now) last.now }
    requires kept { AreKept last.now key slots.old }
    ensures ok { OnOk result (IsKeeping last.now key (arc_value block.now) slots.old slots.new) }
    ensures err { OnErr result (slots.new ≡ slots.old) }
{
    graph.sound();
    let slot = if last[key as usize] > key {
        Some(Arc::try_clone(block)?)
    } else {
        None
    };
    let_go(slots, last, graph.deps(key), key);
    slots[key as usize] = slot;
    Ok(())
}

// Lets go the blocks of those of these keys whose last use is this one.
fn let_go<B: Drop>(slots: &mut [Option<Arc<B>>], last: &[u32], keys: &[u32], user: u32)
    requires same { length last.now ≡ length slots.old }
    requires below { All (λ k. k < length slots.old) keys.now }
    ensures { IsWritten (λ k. slice_index last.now k ≡ user) None None keys.now slots.old slots.new }
{
    for key in keys {
        let at = *key as usize;
        if last[at] == user {
            slots[at] = None;
        }
    }
}
