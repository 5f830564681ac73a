//! A future over one key.
ghost use Rattle.std.specs.Prelude.{◌≡◌, Some, None, MatchOption};
ghost use Rattle.futures.specs.Poll.{OnPending};
ghost use Rattle.futures.specs.Task.{IsArmed, Keeps};
ghost use Rattle.futures.specs.declared.task.Poll.TheVariants.{Ready};
ghost use Rattle.client_futures.specs.Answers.{KeyAnswer};

use crate::rounds::{PollEnd, Rounds};
use cluster_msgs::End;
use futures::task::{Context, Poll};
use std::sync::Arc;

/// Waits for one key. It takes no memory.
#[derive(Clone, Copy)]
pub struct KeyFuture {
    key: u32,
}

impl KeyFuture {
    pub fn new(key: u32) -> KeyFuture
        ensures { result.key ≡ key }
    {
        KeyFuture { key }
    }

    /// The key's block, or why there is none. It looks at the key, and where that has no end, drives one round and looks again. Where it is pending the
    /// task is polled again, whatever else happens.
    pub fn poll<R: Rounds>(
        &mut self,
        rounds: &mut R,
        cx: &mut Context<'_>,
    ) -> Poll<Result<Arc<R::Block>, PollEnd>>
        ensures answer { KeyAnswer (R.seen rounds.new) self.old.key result }
        ensures leads { R.leads rounds.old rounds.new }
        ensures same { self.new ≡ self.old }
        ensures armed { OnPending result (IsArmed cx.new) }
        ensures kept { Keeps cx.old cx.new }
    {
        if let Some(ended) = look(rounds, self.key) {
            return Poll::Ready(ended);
        }
        let driven = rounds.round();
        if let Some(ended) = look(rounds, self.key) {
            return Poll::Ready(ended);
        }
        match driven {
            Ok(()) => cx.yield_now(),
            Err(_) => Poll::Ready(Err(PollEnd::Over)),
        }
    }
}

/// The key's block, or its failure, where it has ended.
fn look<R: Rounds>(rounds: &mut R, key: u32) -> Option<Result<Arc<R::Block>, PollEnd>>
    ensures answer { MatchOption result ((R.seen rounds.new).ends key ≡ None) (λ ended. KeyAnswer (R.seen rounds.new) key (Ready ended)) }
    ensures over { (R.seen rounds.new).over ≡ (R.seen rounds.old).over }
    ensures leads { R.leads rounds.old rounds.new }
{
    match rounds.end(key) {
        Some(End::Got) => match rounds.take(key) {
            Some(block) => Some(Ok(block)),
            None => None,
        },
        Some(End::Erred { blame }) => Some(Err(PollEnd::TaskErred { key, blame })),
        None => None,
    }
}
