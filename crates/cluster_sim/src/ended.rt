//! Whether the client's wait is over.
ghost use Rattle.std.specs.Prelude.{◌≡◌, ◌<◌, ℕ, true, false, is_some, find, option_and_then, Some, None};
ghost use Rattle.std.specs.Option.{option_map};
ghost use Rattle.cluster_rules.specs.Client.{ClientFacts, client_keys};
ghost use Rattle.cluster_rules.specs.Derived.{is_in};
ghost use Rattle.cluster_rules.specs.World.{shape_of};
ghost use Rattle.cluster_rules.specs.Draw.{over};
ghost use Rattle.cluster_rules.specs.Sched.{is_above};
ghost use Rattle.cluster_msgs.specs.Shape.{key_count};
ghost use Rattle.cluster_world.specs.Worlds.{world as world_of};
ghost use Rattle.cluster_sim.specs.Faults.{fault_at};
ghost use Rattle.cluster_sim.specs.Seen.{IsSeen};
ghost use Rattle.cluster_sim.specs.Standing.{IsFor};

use crate::seen::Seen;
use cluster_msgs::{End, JobSpec, KeyList};
use cluster_world::World;

/// The client whose wait a simulation is.
pub const CLIENT: u32 = 1;

/// The end of a simulation: the key to blame, where the client was told of a failure.
#[derive(Clone, Copy)]
pub struct Ending {
    pub failure: Option<u32>,
}

/// What the client's failure is blamed on: a key whose own operation met a zero divisor, or one that was killed, since its
/// worker left more often than allowed while the key was assigned to it.
#[derive(Clone, Copy)]
pub enum Fault {
    Zero { key: u32 },
    Killed { key: u32, losses: u32 },
}

/// What the key of an end is to blame for, in the world where it ended.
pub fn fault_of<J: JobSpec>(world: &World<J>, failure: Option<u32>) -> Option<Fault>
    ensures { result ≡ option_map (fault_at (world_of world.now)) failure }
{
    match failure {
        Some(key) => Some(fault_at(world, key)),
        None => None,
    }
}

/// A key that lost its worker more often than is allowed was killed; else its operation is at fault.
fn fault_at<J: JobSpec>(world: &World<J>, key: u32) -> Fault
    ensures { result ≡ fault_at (world_of world.now) key }
{
    let losses = world.losses(key);
    if is_above(world.allowed(), losses) {
        Fault::Killed { key, losses }
    } else {
        Fault::Zero { key }
    }
}

/// Whether so many losses are more than are allowed.
fn is_above(allowed: Option<u32>, losses: u32) -> bool
    ensures { result ≡ is_above allowed losses }
{
    match allowed {
        Some(most) => losses > most,
        None => false,
    }
}

/// The end, once the client has failed on a key, of which the least counts, or has got all that it wants, by what was seen of
/// the client.
pub fn end_of(seen: &Seen, wanted: &KeyList) -> Option<Ending>
    ensures { (c : ClientFacts) → IsSeen wanted.now c seen.now → IsFor wanted.now c → ((k : ℕ) → is_in k wanted.now ≡ true → k < key_count c.shape) →
        option_map (λ e. e.failure) result ≡ over c }
{
    match seen.failure {
        Some(blame) => Some(Ending {
            failure: Some(blame),
        }),
        None => {
            if seen.got == wanted.as_slice().len() {
                Some(Ending { failure: None })
            } else {
                None
            }
        }
    }
}

/// The blame of the least key that the client has failed on.
pub fn least_failure<J: JobSpec>(world: &World<J>) -> Option<u32>
    requires fresh { (k : ℕ) → is_some (((world_of world.now).clients 1).failed k) ≡ true → ((world_of world.now).clients 1).got k ≡ false }
    requires shape { ((world_of world.now).clients 1).shape ≡ shape_of (world_of world.now) }
    ensures { let c = (world_of world.now).clients 1 in result ≡ option_and_then c.failed (find (λ k. is_some (c.failed k)) (client_keys c)) }
{
    let count = world.shape().keys();
    for key in 0..count {
        let failure = failure_of(world, key);
        if failure.is_some() {
            return failure;
        }
    }
    None
}

/// The blame of a key that the client has failed on, and hasn't got.
fn failure_of<J: JobSpec>(world: &World<J>, key: u32) -> Option<u32>
    requires { is_some (((world_of world.now).clients 1).failed key) ≡ true → ((world_of world.now).clients 1).got key ≡ false }
    ensures { result ≡ ((world_of world.now).clients 1).failed key }
{
    match world.done(CLIENT, key) {
        Some(End::Erred { blame }) => Some(blame),
        Some(End::Got) => None,
        None => None,
    }
}

/// Whether the client has got a key.
pub fn has_got<J: JobSpec>(world: &World<J>, key: u32) -> bool
    ensures { result ≡ ((world_of world.now).clients 1).got key }
{
    match world.done(CLIENT, key) {
        Some(End::Got) => true,
        Some(End::Erred { .. }) => false,
        None => false,
    }
}
