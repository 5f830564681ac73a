//! What was seen of the client's wait, so that no turn looks at all its keys.
ghost use Rattle.std.specs.Prelude.{◌≡◌, ◌≤◌, ℕ, true, false, None, Some, is_some, find, option_and_then, length, take, slice_get};
ghost use Rattle.std.specs.List.{list_all};
ghost use Rattle.std.specs.Option.{option_copied};
ghost use Rattle.cluster_rules.specs.Client.{client_keys};
ghost use Rattle.cluster_rules.specs.World.{shape_of};
ghost use Rattle.cluster_world.specs.Worlds.{world as world_of};
ghost use Rattle.cluster_sim.specs.Seen.{IsSeen, is_erred, is_failure, tells_failure};
ghost use Rattle.cluster_sim.specs.Standing.{IsFor};

use crate::ended::{has_got, least_failure};
use cluster_msgs::{JobSpec, KeyList, Message, ToClient};
use cluster_world::World;

/// How many of the wanted keys have come, counted from the first up to one that hasn't, and the key to blame where the client
/// was told of a failure.
#[derive(Clone, Copy)]
pub struct Seen {
    pub got: usize,
    pub failure: Option<u32>,
}

impl Seen {
    /// Looks at the client again after an event, which may have told it of a failure. What has come stays: so it goes on from
    /// the key that it stopped at.
    pub fn look<J: JobSpec>(&mut self, world: &World<J>, wanted: &KeyList, told: bool)
        requires few { self.old.got ≤ length wanted.now }
        requires before { list_all ((world_of world.now).clients 1).got (take self.old.got wanted.now) ≡ true }
        requires silent { told ≡ false → (k : ℕ) → ((world_of world.now).clients 1).failed k ≡ None }
        requires client { IsFor wanted.now ((world_of world.now).clients 1) }
        requires shape { ((world_of world.now).clients 1).shape ≡ shape_of (world_of world.now) }
        ensures { IsSeen wanted.now ((world_of world.now).clients 1) self.new }
    {
        self.failure = blame_of(world, told);
        self.got = first_missing(world, wanted.as_slice(), self.got);
    }
}

/// The blame of the least key that the client has failed on. Where it wasn't told of a failure there is none.
fn blame_of<J: JobSpec>(world: &World<J>, told: bool) -> Option<u32>
    requires silent { told ≡ false → (k : ℕ) → ((world_of world.now).clients 1).failed k ≡ None }
    requires fresh { (k : ℕ) → is_some (((world_of world.now).clients 1).failed k) ≡ true → ((world_of world.now).clients 1).got k ≡ false }
    requires shape { ((world_of world.now).clients 1).shape ≡ shape_of (world_of world.now) }
    ensures { let c = (world_of world.now).clients 1 in result ≡ option_and_then c.failed (find (λ k. is_some (c.failed k)) (client_keys c)) }
{
    if told { least_failure(world) } else { None }
}

/// The first place from this one on whose key the client hasn't got, or the end of the list.
fn first_missing<J: JobSpec>(world: &World<J>, keys: &[u32], from: usize) -> usize
    requires from { from ≤ length keys.now }
    requires before { list_all ((world_of world.now).clients 1).got (take from keys.now) ≡ true }
    ensures few { result ≤ length keys.now }
    ensures before { list_all ((world_of world.now).clients 1).got (take result keys.now) ≡ true }
    ensures there { (k : ℕ) → slice_get keys.now result ≡ Some k → ((world_of world.now).clients 1).got k ≡ false }
{
    for place in from..keys.len() {
        if !has_got(world, keys[place]) {
            return place;
        }
    }
    keys.len()
}

/// Whether a message tells a client that a key failed.
pub fn tells_failure(message: Option<&Message>) -> bool
    ensures { result ≡ tells_failure (option_copied message.entry) }
{
    match message {
        Some(message) => is_failure(message),
        None => false,
    }
}

fn is_failure(message: &Message) -> bool
    ensures { result ≡ is_failure message.now }
{
    match message {
        Message::ToClient(news) => is_erred(news),
        _ => false,
    }
}

fn is_erred(news: &ToClient) -> bool
    ensures { result ≡ is_erred news.now }
{
    matches!(news, ToClient::ClientTaskErred { .. })
}
