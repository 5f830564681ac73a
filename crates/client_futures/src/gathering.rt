//! A future over several keys.
ghost use Rattle.std.specs.Prelude.{◌≡◌, ◌≤◌, [], length, IfOk, IfSome, IfNone, IsSome};
ghost use Rattle.std.specs.Option.{ForSome};
ghost use Rattle.std.specs.Vec.{vec_capacity};
ghost use Rattle.futures.specs.Poll.{IfReady, OnPending};
ghost use Rattle.futures.specs.Task.{Covers, Keeps};
ghost use Rattle.futures.specs.declared.task.Poll.TheVariants.{Ready};
ghost use Rattle.client_futures.specs.Answers.{GatherAnswer, IsGathered, IsOpen, MayEnd};

use crate::look::{collect, least_erred, passed};
use crate::rounds::{GatherEnd, PollEnd, Rounds};
use cluster_msgs::KeyList;
use futures::Future;
use futures::executor::block_on_queue;
use futures::task::{Context, Doorbell, Poll, Queue};
use std::alloc::{AllocError, AllocGlobal, Global};
use std::io;
use std::random::RandomSource;
use std::sync::{Arc, Wait};

/// Waits for several keys, and gives their blocks in their order. All memory is taken when it is made.
#[derive(Drop)]
pub struct GatherAll<'a, R: Rounds> {
    rounds: &'a mut R,
    keys: KeyList,
    /// Room for the blocks, until it has ended with them.
    blocks: Option<Vec<Arc<R::Block>>>,
    /// All keys before this place were got when it looked last.
    from: usize,
    ghost room: { ForSome blocks (λ v. (v.items ≡ []) × (length keys ≤ vec_capacity v)) },
}

impl<'a, R: Rounds> GatherAll<'a, R> {
    /// A future that hasn't looked yet.
    ///
    /// # Errors
    /// Where no memory is left.
    pub fn new(
        alloc: Global,
        rounds: &'a mut R,
        keys: &KeyList,
    ) -> Result<GatherAll<'a, R>, AllocError>
        ensures { IfOk result (λ all. (all.rounds.now ≡ rounds.old) × (all.keys ≡ keys.now) × IsSome all.blocks) }
    {
        let blocks = Vec::with_capacity(alloc, keys.len())?;
        let keys = keys.copy()?;
        Ok(GatherAll {
            rounds,
            keys,
            blocks: Some(blocks),
            from: 0,
        })
    }

    /// How it ends, where it can by what the driver saw at its last turn.
    fn look(&mut self) -> Option<Result<Vec<Arc<R::Block>>, PollEnd>>
        requires { IsSome self.old.blocks }
        ensures ended { IfSome result (λ ended. GatherAnswer (R.seen self.new.rounds.now) self.old.keys (Ready ended)) }
        ensures waits { IfNone result (IsOpen (R.seen self.new.rounds.now).ends self.old.keys) }
        ensures again { IfNone result (IsSome self.new.blocks) }
        ensures keys { self.new.keys ≡ self.old.keys }
        ensures over { (R.seen self.new.rounds.now).over ≡ (R.seen self.old.rounds.now).over }
        ensures leads { R.leads self.old.rounds.now self.new.rounds.now }
    {
        if let Some((key, blame)) = least_erred(&*self.rounds, self.keys.as_slice()) {
            return Some(Err(PollEnd::TaskErred { key, blame }));
        }
        self.from = passed(&*self.rounds, self.keys.as_slice(), self.from);
        if self.from < self.keys.len() {
            return None;
        }
        let Some(mut blocks) = self.blocks.take() else {
            unreachable!()
        };
        match collect(&mut *self.rounds, self.keys.as_slice(), &mut blocks) {
            None => Some(Ok(blocks)),
            Some(at) => {
                blocks.clear();
                self.blocks = Some(blocks);
                self.from = at;
                None
            }
        }
    }
}

impl<R: Rounds> Future for GatherAll<'_, R> {
    type Output = Result<Vec<Arc<R::Block>>, PollEnd>;

    ghost use Rattle.std.specs.Prelude.{IsSome};
    ghost use Rattle.client_futures.specs.Answers.{MayEnd};

    ghost can_poll = { λ all. IsSome all.blocks };

    ghost gives = { λ all ended. MayEnd R.leads R.seen all.rounds.now all.keys ended };

    /// Its end, where it can end by what the driver saw at its last turn, or sees after one round more. Where it is pending, it has driven that round, and
    /// the task is polled again, whatever else happens.
    #[tactic(auto, using(crate::proofs::OpenLemmas::may_end_before))]
    fn poll(&mut self, cx: &mut Context<'_>) -> Poll<Self::Output>
        requires { IsSome self.old.blocks }
        ensures answer { GatherAnswer (R.seen self.new.rounds.now) self.old.keys result }
        ensures leads { R.leads self.old.rounds.now self.new.rounds.now }
        ensures keys { self.new.keys ≡ self.old.keys }
        ensures value { IfReady result (MayEnd R.leads R.seen self.old.rounds.now self.old.keys) }
        ensures again { OnPending result (IsSome self.new.blocks) }
        ensures same { OnPending result ((x : _) → MayEnd R.leads R.seen self.new.rounds.now self.new.keys x
            → MayEnd R.leads R.seen self.old.rounds.now self.old.keys x) }
        ensures registered { OnPending result (Covers cx.new (λ _. ⊥)) }
        ensures kept { Keeps cx.old cx.new }
    {
        if let Some(ended) = self.look() {
            return Poll::Ready(ended);
        }
        let driven = self.rounds.round();
        if let Some(ended) = self.look() {
            return Poll::Ready(ended);
        }
        match driven {
            Ok(()) => cx.yield_now(),
            Err(_) => Poll::Ready(Err(PollEnd::Over)),
        }
    }
}

/// A place where this thread runs a future over keys, made of its own, so that a thread that only may wait can run it.
///
/// # Errors
/// Where there is no memory, or the system gives no random bytes.
pub fn waiting_room<R: RandomSource + AllocGlobal>(rt: &R) -> io::Result<Queue> {
    Queue::new(rt, Doorbell::parking())
}

/// The blocks of a client's keys, in their order, driven until they are there: a future over the keys is run on this thread, which is alone in the room.
///
/// # Errors
/// `Ended` with the least key that failed, or where the run is over; `Memory` where there was none for the future, before any round; `Unrun` where the future
/// couldn't be run to its end.
pub fn gather_in<R: Wait, D: Rounds>(
    rt: &R,
    alloc: Global,
    room: &Queue,
    rounds: &mut D,
    keys: &KeyList,
) -> Result<Vec<Arc<D::Block>>, GatherEnd>
    ensures { IsGathered (MayEnd D.leads D.seen rounds.old keys.now) result }
{
    let all = GatherAll::new(alloc, rounds, keys)?;
    match block_on_queue(rt, room, all) {
        Ok(Ok(blocks)) => Ok(blocks),
        Ok(Err(end)) => Err(GatherEnd::Ended(end)),
        Err(_) => Err(GatherEnd::Unrun),
    }
}

/// The same in a room of its own.
///
/// # Errors
/// As `gather_in`, and `Unrun` where there is no room.
pub fn gather<R, D>(rt: &R, rounds: &mut D, keys: &KeyList) -> Result<Vec<Arc<D::Block>>, GatherEnd>
where
    R: Wait + RandomSource + AllocGlobal,
    D: Rounds,
    ensures { IsGathered (MayEnd D.leads D.seen rounds.old keys.now) result }
{
    match waiting_room(rt) {
        Ok(room) => gather_in(rt, rt.alloc(), &room, rounds, keys),
        Err(_) => Err(GatherEnd::Unrun),
    }
}
