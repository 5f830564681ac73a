//! What a search for progress events asks of a world.
ghost use Rattle.std.specs.Prelude.{◌≡◌, ◌<◌, ℕ, false, length, map, Some, slice_get};
ghost use Rattle.cluster_msgs.specs.Shape.{key_count};
ghost use Rattle.cluster_msgs.specs.declared.events.Event.TheVariants.{SendGather};
ghost use Rattle.cluster_rules.specs.Enabled.{enabled};
ghost use Rattle.cluster_rules.specs.World.{World, shape_of, is_connected};
ghost use Rattle.cluster_world.specs.Searching.{IsNextFinish, name_of};

use crate::state::State;
use cluster_msgs::{Asker, Event};
use cluster_rules::Facts;

/// Whose events may be enabled: workers, clients, and what is under way. No question takes memory.
pub trait Choices {
    ghost world: { Self → World };

    /// Holds where the questions are answered as the world is.
    ghost is_whole: { Self → Type 0 };

    /// Whether the event is enabled.
    fn enabled(&self, e: &Event) -> bool
        requires { is_whole self.now }
        ensures { result ≡ enabled (world self.now) e.now };

    /// The greatest number of a worker.
    fn last_worker(&self) -> u32
        requires { is_whole self.now }
        ensures { result ≡ (world self.now).sched.last_worker };

    /// Whether a worker is connected.
    fn connected(&self, worker: u32) -> bool
        requires { is_whole self.now }
        ensures { result ≡ is_connected (world self.now) worker };

    /// Whether a worker is alive.
    fn alive(&self, worker: u32) -> bool
        requires { is_whole self.now }
        ensures { result ≡ (world self.now).alive worker };

    /// How many clients there are.
    fn clients(&self) -> u32
        requires { is_whole self.now }
        ensures { result ≡ (world self.now).sched.setting.clients };

    /// How many keys the graph has.
    fn keys(&self) -> u32
        requires { is_whole self.now }
        ensures { result ≡ key_count (shape_of (world self.now)) };

    /// The least key from this one on whose task can finish at a worker.
    fn next_finish(&self, worker: u32, first: u32) -> Option<u32>
        requires { is_whole self.now }
        ensures { IsNextFinish (world self.now) worker first result };

    /// Whether an asker may have something to ask a peer.
    fn has_questions(&self, asker: Asker) -> bool
        requires { is_whole self.now }
        ensures { result ≡ false → (p : ℕ) → enabled (world self.now) (SendGather asker p) ≡ false };

    /// How many requests are under way.
    fn requests(&self) -> usize
        requires { is_whole self.now }
        ensures { result ≡ length (world self.now).requests };

    /// The asker, the peer and the number of the request at a place.
    fn request(&self, place: usize) -> (Asker, u32, u64)
        requires whole { is_whole self.now }
        requires place { place < length (world self.now).requests }
        ensures { Some result ≡ slice_get (map name_of (world self.now).requests) place };

    /// How many answers are under way.
    fn answers(&self) -> usize
        requires { is_whole self.now }
        ensures { result ≡ length (world self.now).answers };

    /// The asker, the peer and the number of the answer at a place.
    fn answer(&self, place: usize) -> (Asker, u32, u64)
        requires whole { is_whole self.now }
        requires place { place < length (world self.now).answers }
        ensures { Some result ≡ slice_get (map name_of (world self.now).answers) place };
}

impl<J: Drop, B: Drop, F: Drop> Choices for State<J, B, F> {
    ghost use Rattle.cluster_world.specs.Worlds.{world};
    ghost use Rattle.cluster_world.specs.Kept.{IsJoint};

    ghost world = { λ s. world s };

    ghost is_whole = { λ s. IsJoint s };

    fn enabled(&self, e: &Event) -> bool {
        State::enabled(self, e)
    }

    fn last_worker(&self) -> u32 {
        self.sched.last_worker()
    }

    fn connected(&self, worker: u32) -> bool {
        self.is_connected(worker)
    }

    fn alive(&self, worker: u32) -> bool {
        self.is_alive(worker)
    }

    fn clients(&self) -> u32 {
        self.clients
    }

    fn keys(&self) -> u32 {
        self.nodes.shape.keys()
    }

    fn next_finish(&self, worker: u32, first: u32) -> Option<u32> {
        State::next_finish(self, worker, first)
    }

    fn has_questions(&self, asker: Asker) -> bool {
        State::has_questions(self, asker)
    }

    fn requests(&self) -> usize {
        self.nodes.requests.len()
    }

    fn request(&self, place: usize) -> (Asker, u32, u64) {
        let request = &self.nodes.requests.as_slice()[place];
        (request.asker, request.peer, request.ask)
    }

    fn answers(&self) -> usize {
        self.nodes.answers.len()
    }

    fn answer(&self, place: usize) -> (Asker, u32, u64) {
        let answer = &self.nodes.answers.as_slice()[place];
        (answer.asker, answer.peer, answer.ask)
    }
}
