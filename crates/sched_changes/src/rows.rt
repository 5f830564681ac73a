//! The rows of the scheduler's table: what each event changes, frees, answers and leaves to be told.
ghost use Rattle.std.specs.Prelude.{◌≡◌, ℕ, ◌+◌, ◌<◌, ◌≤◌, ◌^◌, nat_lt, true, false, None, Some, IfOk, [], length};
ghost use Rattle.std.specs.List.{list_all};
ghost use Rattle.cluster_msgs.specs.declared.cores.SchedEvent.TheVariants.{Join};
ghost use Rattle.cluster_rules.specs.Sched.{keys, connected, workers};
ghost use Rattle.cluster_rules.specs.SchedTable.{change_up, change_client, change, up_keys, client_keys, sched_takes, joined, left, balanced, evicted};
ghost use Rattle.cluster_rules.specs.Policies.{next_steal, next_drop};
ghost use Rattle.task_table.specs.Tasks.{facts};
ghost use Rattle.sched_changes.specs.Follows.{Follows, AreTouched};
ghost use Rattle.sched_changes.specs.Choices.{steal_for, drop_for};
ghost use Rattle.sched_changes.specs.Effects.{answering, asked_by, asked_in, wanted_list, asked_list, changed_by, IsAnswer};

use crate::answer::Answer;
use crate::changes::{self, Pairs};
use crate::leaving::leave;
use crate::making::make;
use cluster_msgs::{FromClient, SchedEvent, Steal, Up};
use cluster_rules::Facts;
use std::alloc::AllocError;
use task_table::{Change, TaskTable};

/// What an event leaves to be told, beside the keys that it frees.
#[derive(Clone, Copy)]
pub struct Effect {
    /// What a worker is answered.
    pub answer: Answer,
    /// The client that is answered, and about which key.
    pub reply: Option<(u32, u32)>,
    /// The number of the worker that joined.
    pub joined: Option<u32>,
}

/// An effect that only answers a worker.
fn answer_only(answer: Answer) -> Effect
    ensures { result ≡ record { answer = answer; reply = None; joined = None } }
{
    Effect {
        answer,
        reply: None,
        joined: None,
    }
}

/// The rows of a worker's messages.
///
/// # Errors
/// Where no memory is left. The table follows from what it was.
pub fn hear_worker(
    table: &mut TaskTable,
    freed: &mut Pairs,
    worker: u32,
    up: &Up,
) -> Result<Answer, AllocError>
    requires worker { connected (facts table.old) worker ≡ true }
    requires keys { list_all (λ k. nat_lt k (keys (facts table.old))) (up_keys up.now) ≡ true }
    requires room { (facts table.old).counter + keys (facts table.old) < 2 ^ 62 }
    requires finishes { (facts table.old).finishes < 2 ^ 62 }
    requires freed { freed.old ≡ [] }
    ensures is_answer { IfOk result (λ a. IsAnswer (facts table.old) (facts table.new) a) }
    ensures change { IfOk result (λ a. answering (facts table.old) (facts table.new) freed.new a ≡ change_up (facts table.old) worker up.now) }
    ensures follows { Follows table.old table.new }
{
    match up {
        Up::TaskFinished { key, attempt, .. } => {
            changes::finish(table, worker, *key, *attempt);
            Ok(Answer::Nothing)
        }
        Up::TaskErred { key, attempt, .. } => {
            changes::fail(table, worker, *key, *attempt);
            Ok(Answer::Nothing)
        }
        Up::AddKeys { seen, keys } => {
            changes::add_all(table, freed, worker, *seen, keys.as_slice())?;
            Ok(Answer::Nothing)
        }
        Up::ReleaseWorkerData { seen, key } => {
            changes::release(table, worker, *seen, *key);
            Ok(Answer::Nothing)
        }
        Up::MissingData {
            key,
            holder,
            copy,
            ..
        } => {
            changes::lose_copy(table, freed, *holder, *key, *copy)?;
            Ok(Answer::Refresh { worker, key: *key })
        }
        Up::RequestRefreshWhoHas { key, .. } => Ok(Answer::Refresh { worker, key: *key }),
        Up::StealResponse {
            key,
            attempt,
            yes,
            ..
        } => {
            changes::answer_steal(table, worker, *key, *attempt, *yes);
            Ok(Answer::Nothing)
        }
    }
}

/// The rows of a client's messages.
///
/// # Errors
/// Where no memory is left. The table follows from what it was.
pub fn hear_client(
    table: &mut TaskTable,
    freed: &mut Pairs,
    client: u32,
    message: &FromClient,
) -> Result<Effect, AllocError>
    requires first { 1 ≤ client }
    requires client { client ≤ (facts table.old).setting.clients }
    requires keys { list_all (λ k. nat_lt k (keys (facts table.old))) (client_keys message.now) ≡ true }
    requires freed { freed.old ≡ [] }
    ensures is_answer { IfOk result (λ x. IsAnswer (facts table.old) (facts table.new) x.answer) }
    ensures change { IfOk result (λ x. changed_by (facts table.old) (facts table.new) freed.new x (asked_by message.now) ≡ change_client (facts table.old) client message.now) }
    ensures asked { AreTouched table.new (wanted_list message.now) }
    ensures follows { Follows table.old table.new }
{
    match message {
        FromClient::Want { keys } => {
            changes::want(table, client, keys.as_slice());
            Ok(answer_only(Answer::Nothing))
        }
        FromClient::Release { keys } => {
            changes::unwant(table, client, keys.as_slice());
            Ok(answer_only(Answer::Nothing))
        }
        FromClient::Missing { key, holder, copy } => {
            changes::lose_copy(table, freed, *holder, *key, *copy)?;
            Ok(Effect {
                answer: Answer::Nothing,
                reply: Some((client, *key)),
                joined: None,
            })
        }
    }
}

/// Balance: the key is to be stolen, and its victim is asked for it.
fn balance(table: &mut TaskTable, choice: Option<Steal>) -> Effect
    requires { choice ≡ next_steal (facts table.old) }
    ensures change { changed_by (facts table.old) (facts table.new) [] result (λ k. false) ≡ balanced (facts table.old) choice }
    ensures is_answer { IsAnswer (facts table.old) (facts table.new) result.answer }
    ensures follows { Follows table.old table.new }
{
    match choice {
        Some(steal) => {
            make(
                table,
                Change::Steal {
                    key: steal.key,
                    thief: steal.thief,
                    refused: false,
                },
            );
            answer_only(Answer::AskBack { key: steal.key })
        }
        None => answer_only(Answer::Nothing),
    }
}

/// Evict: the holder's copy goes, and it is told to remove it.
fn evict(table: &mut TaskTable, choice: Option<(u32, u32)>) -> Effect
    requires { choice ≡ next_drop (facts table.old) }
    ensures change { changed_by (facts table.old) (facts table.new) [] result (λ k. false) ≡ evicted (facts table.old) choice }
    ensures is_answer { IsAnswer (facts table.old) (facts table.new) result.answer }
    ensures follows { Follows table.old table.new }
{
    match choice {
        Some((worker, key)) => {
            table.sound();
            make(table, Change::Lose { worker, key });
            answer_only(Answer::Remove { worker, key })
        }
        None => answer_only(Answer::Nothing),
    }
}

/// Join: the worker gets the next number.
///
/// # Errors
/// Where no memory is left. The table follows from what it was.
fn join(table: &mut TaskTable, threads: u32) -> Result<Effect, AllocError>
    requires threads { (1 ≤ threads) × (threads ≤ 16) }
    requires workers { length (workers (facts table.old)) < 64 }
    requires numbers { (facts table.old).last_worker < 1024 }
    ensures is_answer { IfOk result (λ x. IsAnswer (facts table.old) (facts table.new) x.answer) }
    ensures change { IfOk result (λ x. changed_by (facts table.old) (facts table.new) [] x (λ k. false) ≡ change (facts table.old) (Join threads)) }
    ensures follows { Follows table.old table.new }
{
    table.make_room()?;
    let number = table.last_worker() + 1;
    make(table, Change::Connect { threads });
    Ok(Effect {
        answer: Answer::Nothing,
        reply: None,
        joined: Some(number),
    })
}

/// The event's own change. `steal` and `drop` are what the policies chose for it.
///
/// # Errors
/// Where no memory is left. The table follows from what it was.
pub fn apply(
    table: &mut TaskTable,
    freed: &mut Pairs,
    event: &SchedEvent,
    steal: Option<Steal>,
    drop: Option<(u32, u32)>,
) -> Result<Effect, AllocError>
    requires takes { sched_takes (facts table.old) event.now ≡ true }
    requires steal { steal ≡ steal_for (facts table.old) event.now }
    requires drop { drop ≡ drop_for (facts table.old) event.now }
    requires room { (facts table.old).counter + keys (facts table.old) < 2 ^ 62 }
    requires finishes { (facts table.old).finishes < 2 ^ 62 }
    requires losses { (k : ℕ) → (facts table.old).losses k < 2 ^ 31 }
    requires freed { freed.old ≡ [] }
    ensures is_answer { IfOk result (λ x. IsAnswer (facts table.old) (facts table.new) x.answer) }
    ensures change { IfOk result (λ x. changed_by (facts table.old) (facts table.new) freed.new x (asked_in event.now) ≡ change (facts table.old) event.now) }
    ensures asked { AreTouched table.new (asked_list event.now) }
    ensures follows { Follows table.old table.new }
{
    match event {
        SchedEvent::Join { threads } => join(table, *threads),
        SchedEvent::Leave { w } => {
            leave(table, *w);
            Ok(answer_only(Answer::Nothing))
        }
        SchedEvent::FromWorker { w, up } => {
            let answer = hear_worker(table, freed, *w, up)?;
            Ok(answer_only(answer))
        }
        SchedEvent::FromClient { c, msg } => hear_client(table, freed, *c, msg),
        SchedEvent::Balance => Ok(balance(table, steal)),
        SchedEvent::Evict => Ok(evict(table, drop)),
        SchedEvent::Replicate { key, w } => Ok(answer_only(Answer::Acquire {
            worker: *w,
            key: *key,
        })),
    }
}
