//! From a value to a message.

ghost use Rattle.std.specs.Prelude.{IfOk};
ghost use Rattle.msgpack_frames.specs.View.{view};
ghost use Rattle.wire_msgs.specs.Answers.{Answers};
ghost use Rattle.wire_msgs.specs.Fields.{IsMessage};
ghost use Rattle.wire_msgs.specs.Messages.{message_of, map_answer, answer};
ghost use Rattle.wire_msgs.specs.Seen.{seen};

use crate::error::WireError;
use crate::field::Field;
use crate::finding::{first_fault, found, operation_of};
use crate::operation::Operation;
use cluster_msgs::{Down, FromClient, Message, Peer, ToClient, Up};
use msgpack_frames::Value;
use std::alloc::Global;

/// The message that a value is: a map with the field `op`, which names an operation, and the fields of this operation,
/// each once and in any order, and no others. `docs/FORMATS.md` has the table of fields.
///
/// # Errors
/// `NotAMap` comes first. Then the operation is asked for: the field `op` is `Missing`, has a `WrongType`, or names an
/// `UnknownOp`; the first pair under `op` counts. Then the first pair from the left at fault is named: its key is
/// `Unknown`, its field is `Repeated`, or what stands there has a `WrongType` or is out of `Range`. Last comes the first
/// field of the operation that is `Missing`, in the order of the table.
#[tactic(auto, unfolding(crate::specs::Messages::answer))]
pub fn from_value(alloc: Global, value: &Value) -> Result<Message, WireError>
    ensures answered { Answers result (answer (view value.now)) }
    // A message has the fields of its operation, each once, and no others.
    ensures fields { IfOk result (λ m. IsMessage (view value.now) m) }
{
    match value {
        Value::Map(pairs) => from_pairs(alloc, pairs),
        _ => Err(WireError::NotAMap),
    }
}

fn from_pairs(alloc: Global, pairs: &[(Value, Value)]) -> Result<Message, WireError>
    ensures { Answers result (map_answer (seen pairs.now)) }
{
    let operation = operation_of(pairs)?;
    if let Some(fault) = first_fault(operation, pairs) {
        return Err(fault);
    }
    message_of(alloc, operation, pairs)
}

/// The message of an operation, by the fields of these pairs.
fn message_of(
    alloc: Global,
    operation: Operation,
    pairs: &[(Value, Value)],
) -> Result<Message, WireError>
    ensures { Answers result (message_of operation (seen pairs.now)) }
{
    match operation {
        Operation::ComputeTask => compute_task(alloc, pairs),
        Operation::FreeKeys => free_keys(alloc, pairs),
        Operation::StealRequest => steal_request(alloc, pairs),
        Operation::RemoveReplicas => remove_replicas(alloc, pairs),
        Operation::AcquireReplicas => acquire_replicas(alloc, pairs),
        Operation::RefreshWhoHas => refresh_who_has(alloc, pairs),
        Operation::TaskFinished => task_finished(alloc, pairs),
        Operation::TaskErred => task_erred(alloc, pairs),
        Operation::AddKeys => add_keys(alloc, pairs),
        Operation::ReleaseWorkerData => release_worker_data(alloc, pairs),
        Operation::MissingData => missing_data(alloc, pairs),
        Operation::RequestRefreshWhoHas => request_refresh_who_has(alloc, pairs),
        Operation::StealResponse => steal_response(alloc, pairs),
        Operation::KeyInMemory => key_in_memory(alloc, pairs),
        Operation::LostData => lost_data(alloc, pairs),
        Operation::ClientTaskErred => client_task_erred(alloc, pairs),
        Operation::Want => want(alloc, pairs),
        Operation::Release => release(alloc, pairs),
        Operation::Missing => missing(alloc, pairs),
        Operation::GetData => get_data(alloc, pairs),
        Operation::Data => data(alloc, pairs),
        Operation::Hello => hello(alloc, pairs),
    }
}

#[tactic(auto, unfolding(crate::specs::Messages::message_of))]
fn compute_task(alloc: Global, pairs: &[(Value, Value)]) -> Result<Message, WireError>
    ensures { Answers result (message_of Operation.ComputeTask (seen pairs.now)) }
{
    let key = found(alloc, Field::Key, pairs)?;
    let attempt = found(alloc, Field::Attempt, pairs)?;
    let who_has = found(alloc, Field::WhoHas, pairs)?;
    Ok(Message::Down(Down::ComputeTask {
        key,
        attempt,
        who_has,
    }))
}

#[tactic(auto, unfolding(crate::specs::Messages::message_of))]
fn free_keys(alloc: Global, pairs: &[(Value, Value)]) -> Result<Message, WireError>
    ensures { Answers result (message_of Operation.FreeKeys (seen pairs.now)) }
{
    let keys = found(alloc, Field::Keys, pairs)?;
    Ok(Message::Down(Down::FreeKeys { keys }))
}

#[tactic(auto, unfolding(crate::specs::Messages::message_of))]
fn steal_request(alloc: Global, pairs: &[(Value, Value)]) -> Result<Message, WireError>
    ensures { Answers result (message_of Operation.StealRequest (seen pairs.now)) }
{
    let key = found(alloc, Field::Key, pairs)?;
    let attempt = found(alloc, Field::Attempt, pairs)?;
    Ok(Message::Down(Down::StealRequest { key, attempt }))
}

#[tactic(auto, unfolding(crate::specs::Messages::message_of))]
fn remove_replicas(alloc: Global, pairs: &[(Value, Value)]) -> Result<Message, WireError>
    ensures { Answers result (message_of Operation.RemoveReplicas (seen pairs.now)) }
{
    let keys = found(alloc, Field::Keys, pairs)?;
    Ok(Message::Down(Down::RemoveReplicas { keys }))
}

#[tactic(auto, unfolding(crate::specs::Messages::message_of))]
fn acquire_replicas(alloc: Global, pairs: &[(Value, Value)]) -> Result<Message, WireError>
    ensures { Answers result (message_of Operation.AcquireReplicas (seen pairs.now)) }
{
    let who_has = found(alloc, Field::WhoHas, pairs)?;
    Ok(Message::Down(Down::AcquireReplicas { who_has }))
}

#[tactic(auto, unfolding(crate::specs::Messages::message_of))]
fn refresh_who_has(alloc: Global, pairs: &[(Value, Value)]) -> Result<Message, WireError>
    ensures { Answers result (message_of Operation.RefreshWhoHas (seen pairs.now)) }
{
    let who_has = found(alloc, Field::WhoHas, pairs)?;
    Ok(Message::Down(Down::RefreshWhoHas { who_has }))
}

#[tactic(auto, unfolding(crate::specs::Messages::message_of))]
fn task_finished(alloc: Global, pairs: &[(Value, Value)]) -> Result<Message, WireError>
    ensures { Answers result (message_of Operation.TaskFinished (seen pairs.now)) }
{
    let seen = found(alloc, Field::Seen, pairs)?;
    let key = found(alloc, Field::Key, pairs)?;
    let attempt = found(alloc, Field::Attempt, pairs)?;
    Ok(Message::Up(Up::TaskFinished { seen, key, attempt }))
}

#[tactic(auto, unfolding(crate::specs::Messages::message_of))]
fn task_erred(alloc: Global, pairs: &[(Value, Value)]) -> Result<Message, WireError>
    ensures { Answers result (message_of Operation.TaskErred (seen pairs.now)) }
{
    let seen = found(alloc, Field::Seen, pairs)?;
    let key = found(alloc, Field::Key, pairs)?;
    let attempt = found(alloc, Field::Attempt, pairs)?;
    Ok(Message::Up(Up::TaskErred { seen, key, attempt }))
}

#[tactic(auto, unfolding(crate::specs::Messages::message_of))]
fn add_keys(alloc: Global, pairs: &[(Value, Value)]) -> Result<Message, WireError>
    ensures { Answers result (message_of Operation.AddKeys (seen pairs.now)) }
{
    let seen = found(alloc, Field::Seen, pairs)?;
    let keys = found(alloc, Field::Keys, pairs)?;
    Ok(Message::Up(Up::AddKeys { seen, keys }))
}

#[tactic(auto, unfolding(crate::specs::Messages::message_of))]
fn release_worker_data(alloc: Global, pairs: &[(Value, Value)]) -> Result<Message, WireError>
    ensures { Answers result (message_of Operation.ReleaseWorkerData (seen pairs.now)) }
{
    let seen = found(alloc, Field::Seen, pairs)?;
    let key = found(alloc, Field::Key, pairs)?;
    Ok(Message::Up(Up::ReleaseWorkerData { seen, key }))
}

#[tactic(auto, unfolding(crate::specs::Messages::message_of))]
fn missing_data(alloc: Global, pairs: &[(Value, Value)]) -> Result<Message, WireError>
    ensures { Answers result (message_of Operation.MissingData (seen pairs.now)) }
{
    let seen = found(alloc, Field::Seen, pairs)?;
    let key = found(alloc, Field::Key, pairs)?;
    let holder = found(alloc, Field::Holder, pairs)?;
    let copy = found(alloc, Field::Copy, pairs)?;
    Ok(Message::Up(Up::MissingData {
        seen,
        key,
        holder,
        copy,
    }))
}

#[tactic(auto, unfolding(crate::specs::Messages::message_of))]
fn request_refresh_who_has(alloc: Global, pairs: &[(Value, Value)]) -> Result<Message, WireError>
    ensures { Answers result (message_of Operation.RequestRefreshWhoHas (seen pairs.now)) }
{
    let seen = found(alloc, Field::Seen, pairs)?;
    let key = found(alloc, Field::Key, pairs)?;
    Ok(Message::Up(Up::RequestRefreshWhoHas { seen, key }))
}

#[tactic(auto, unfolding(crate::specs::Messages::message_of))]
fn steal_response(alloc: Global, pairs: &[(Value, Value)]) -> Result<Message, WireError>
    ensures { Answers result (message_of Operation.StealResponse (seen pairs.now)) }
{
    let seen = found(alloc, Field::Seen, pairs)?;
    let key = found(alloc, Field::Key, pairs)?;
    let attempt = found(alloc, Field::Attempt, pairs)?;
    let yes = found(alloc, Field::Yes, pairs)?;
    Ok(Message::Up(Up::StealResponse {
        seen,
        key,
        attempt,
        yes,
    }))
}

#[tactic(auto, unfolding(crate::specs::Messages::message_of))]
fn key_in_memory(alloc: Global, pairs: &[(Value, Value)]) -> Result<Message, WireError>
    ensures { Answers result (message_of Operation.KeyInMemory (seen pairs.now)) }
{
    let key = found(alloc, Field::Key, pairs)?;
    let holders = found(alloc, Field::Holders, pairs)?;
    Ok(Message::ToClient(ToClient::KeyInMemory { key, holders }))
}

#[tactic(auto, unfolding(crate::specs::Messages::message_of))]
fn lost_data(alloc: Global, pairs: &[(Value, Value)]) -> Result<Message, WireError>
    ensures { Answers result (message_of Operation.LostData (seen pairs.now)) }
{
    let key = found(alloc, Field::Key, pairs)?;
    Ok(Message::ToClient(ToClient::LostData { key }))
}

#[tactic(auto, unfolding(crate::specs::Messages::message_of))]
fn client_task_erred(alloc: Global, pairs: &[(Value, Value)]) -> Result<Message, WireError>
    ensures { Answers result (message_of Operation.ClientTaskErred (seen pairs.now)) }
{
    let key = found(alloc, Field::Key, pairs)?;
    let blame = found(alloc, Field::Blame, pairs)?;
    Ok(Message::ToClient(ToClient::ClientTaskErred { key, blame }))
}

#[tactic(auto, unfolding(crate::specs::Messages::message_of))]
fn want(alloc: Global, pairs: &[(Value, Value)]) -> Result<Message, WireError>
    ensures { Answers result (message_of Operation.Want (seen pairs.now)) }
{
    let keys = found(alloc, Field::Keys, pairs)?;
    Ok(Message::FromClient(FromClient::Want { keys }))
}

#[tactic(auto, unfolding(crate::specs::Messages::message_of))]
fn release(alloc: Global, pairs: &[(Value, Value)]) -> Result<Message, WireError>
    ensures { Answers result (message_of Operation.Release (seen pairs.now)) }
{
    let keys = found(alloc, Field::Keys, pairs)?;
    Ok(Message::FromClient(FromClient::Release { keys }))
}

#[tactic(auto, unfolding(crate::specs::Messages::message_of))]
fn missing(alloc: Global, pairs: &[(Value, Value)]) -> Result<Message, WireError>
    ensures { Answers result (message_of Operation.Missing (seen pairs.now)) }
{
    let key = found(alloc, Field::Key, pairs)?;
    let holder = found(alloc, Field::Holder, pairs)?;
    let copy = found(alloc, Field::Copy, pairs)?;
    Ok(Message::FromClient(FromClient::Missing { key, holder, copy }))
}

#[tactic(auto, unfolding(crate::specs::Messages::message_of))]
fn get_data(alloc: Global, pairs: &[(Value, Value)]) -> Result<Message, WireError>
    ensures { Answers result (message_of Operation.GetData (seen pairs.now)) }
{
    let ask = found(alloc, Field::Ask, pairs)?;
    let keys = found(alloc, Field::Keys, pairs)?;
    Ok(Message::Peer(Peer::GetData { ask, keys }))
}

#[tactic(auto, unfolding(crate::specs::Messages::message_of))]
fn data(alloc: Global, pairs: &[(Value, Value)]) -> Result<Message, WireError>
    ensures { Answers result (message_of Operation.Data (seen pairs.now)) }
{
    let ask = found(alloc, Field::Ask, pairs)?;
    let found = found(alloc, Field::Found, pairs)?;
    Ok(Message::Peer(Peer::Data { ask, found }))
}

#[tactic(auto, unfolding(crate::specs::Messages::message_of))]
fn hello(alloc: Global, pairs: &[(Value, Value)]) -> Result<Message, WireError>
    ensures { Answers result (message_of Operation.Hello (seen pairs.now)) }
{
    let role = found(alloc, Field::Role, pairs)?;
    let id = found(alloc, Field::Id, pairs)?;
    Ok(Message::Hello { role, id })
}
