//! What the client of a cluster wants of a job, and how a run ends where a key of it failed.
ghost use Rattle.std.specs.Prelude.{◌≡◌, ◌++◌, slice_index_or, None, IfOk, OnOk};
ghost use Rattle.std.specs.List.{flat_map};
ghost use Rattle.job_run.specs.Jobs.{plan_of};
ghost use Rattle.job_run.specs.Plan.{IsRunnable};
ghost use Rattle.job_run.specs.Wanted.{EndsAtKey, IsWantedOf};

use crate::blocks::{Halt, halt_at, laws_hold};
use crate::ends::Ended;
use block_lowering::sources::Name;
use chunk_layout::Layout;
use cluster_msgs::{KeyList, Sequence};
use job_plan::Job;
use nd_shape::Dims;
use std::alloc::{AllocError, Global};

/// What a client wants: the keys of all saved blocks. And what is known of them: those of each save, in row-major order, with
/// the layout of its array; the node and block of each key of the graph; for each node how many chunks its array has on each axis.
#[derive(Drop)]
pub struct Wanted {
    pub all: KeyList,
    pub saved: Sequence<KeyList>,
    pub layouts: Sequence<Layout>,
    pub names: Sequence<Name>,
    pub blocks: Sequence<Dims>,
}

// Puts keys at the end.
fn push_keys(all: &mut Vec<u32>, keys: &[u32]) -> Result<(), AllocError>
    ensures { OnOk result (all.new.items ≡ all.old.items ++ keys.now) }
{
    for key in keys {
        all.push(*key)?;
    }
    Ok(())
}

/// All of these keys, one list after another.
///
/// # Errors
/// Where no memory is left.
pub fn joined_keys(alloc: Global, lists: &[KeyList]) -> Result<KeyList, AllocError>
    ensures { IfOk result (λ keys. keys ≡ flat_map (λ ks. ks) lists.now) }
{
    let mut all = Vec::new(alloc);
    for keys in lists {
        push_keys(&mut all, keys.as_slice())?;
    }
    Ok(KeyList::from_vec(all))
}

// The node and the block that a key is, where it is one's own.
fn name_at(names: &[Name], key: u32) -> Name
    ensures { result ≡ slice_index_or names.now key None }
{
    match names.get(key as usize) {
        Some(name) => *name,
        None => None,
    }
}

/// How a run ends where the client was told of a zero divisor at a key. What has no name divides nothing.
pub fn ended_at(alloc: Global, job: &Job, wanted: &Wanted, key: u32) -> Ended
    requires runs { IsRunnable (plan_of job.now) }
    requires wanted { IsWantedOf (plan_of job.now) wanted.now }
    ensures { EndsAtKey (plan_of job.now) key result }
{
    laws_hold(job);
    let name = name_at(wanted.names.as_slice(), key);
    match halt_at(alloc, job, wanted.blocks.as_slice(), name) {
        Halt::Zero { node, block } => Ended::Zero { node, block },
        _ => Ended::OutOfMemory,
    }
}
