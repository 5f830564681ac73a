//! From a message to a value.

ghost use Rattle.std.specs.Prelude.{◌≡◌, ◌++◌, ◌∷◌, [], Ok, IfOk, OnOk};
ghost use Rattle.msgpack_frames.specs.View.{view};
ghost use Rattle.wire_msgs.specs.Messages.{answer};
ghost use Rattle.wire_msgs.specs.Seen.{seen};
ghost use Rattle.wire_msgs.specs.Written.{entry, op_entry, message_pairs, message_data, Reads};

use crate::field::Field;
use crate::operation::Operation;
use crate::part::Part;
use cluster_msgs::{Down, FromClient, Message, Peer, Role, ToClient, Up, WhoHas};
use msgpack_frames::Value;
use std::alloc::{AllocError, Global};

/// The value of a message: a map that begins with its operation, then the fields in the order of the table in
/// `docs/FORMATS.md`.
///
/// # Errors
/// Where no memory is left.
pub fn to_value(alloc: Global, message: &Message) -> Result<Value, AllocError>
    ensures written { IfOk result (λ v. view v ≡ message_data message.now) }
    // It reads back as the same message.
    ensures read_back { IfOk result (λ v. answer (view v) ≡ Ok message.now) }
{
    Ok(Value::Map(pairs_of(alloc, message)?))
}

fn pairs_of(alloc: Global, message: &Message) -> Result<Vec<(Value, Value)>, AllocError>
    ensures written { IfOk result (λ v. seen v.items ≡ message_pairs message.now) }
    ensures reads { OnOk result (Reads message.now) }
{
    match message {
        Message::Down(down) => pairs_of_down(alloc, down),
        Message::Up(up) => pairs_of_up(alloc, up),
        Message::ToClient(to_client) => pairs_of_to_client(alloc, to_client),
        Message::FromClient(from_client) => pairs_of_from_client(alloc, from_client),
        Message::Peer(peer) => pairs_of_peer(alloc, peer),
        Message::Hello { role, id } => pairs_of_hello(alloc, role, id),
    }
}

/// The first pair of a message.
fn begun(alloc: Global, operation: Operation) -> Result<Vec<(Value, Value)>, AllocError>
    ensures { IfOk result (λ v. seen v.items ≡ op_entry operation ∷ []) }
{
    let name = String::from_str(alloc, Field::Op.name())?;
    let operation = String::from_str(alloc, operation.name())?;
    let mut pairs = Vec::new(alloc);
    pairs.push((Value::Str(name), Value::Str(operation)))?;
    Ok(pairs)
}

/// These pairs and one more.
fn with<T: Part>(
    mut pairs: Vec<(Value, Value)>,
    field: Field,
    part: &T,
) -> Result<Vec<(Value, Value)>, AllocError>
    ensures written { IfOk result (λ v. seen v.items ≡ seen pairs.items ++ entry field (T.written part.now) ∷ []) }
    ensures read_back { OnOk result (T.parsed (T.written part.now) ≡ Ok part.now) }
{
    let alloc = *pairs.allocator();
    let name = String::from_str(alloc, field.name())?;
    let value = part.write(alloc)?;
    pairs.push((Value::Str(name), value))?;
    Ok(pairs)
}

fn pairs_of_down(alloc: Global, message: &Down) -> Result<Vec<(Value, Value)>, AllocError>
    ensures written { IfOk result (λ v. seen v.items ≡ message_pairs (Message.Down message.now)) }
    ensures reads { OnOk result (Reads (Message.Down message.now)) }
{
    match message {
        Down::ComputeTask {
            key,
            attempt,
            who_has,
        } => pairs_of_compute_task(alloc, key, attempt, who_has),
        Down::FreeKeys { keys } => {
            let pairs = begun(alloc, Operation::FreeKeys)?;
            with(pairs, Field::Keys, keys)
        }
        Down::StealRequest { key, attempt } => {
            let pairs = begun(alloc, Operation::StealRequest)?;
            let pairs = with(pairs, Field::Key, key)?;
            with(pairs, Field::Attempt, attempt)
        }
        Down::RemoveReplicas { keys } => {
            let pairs = begun(alloc, Operation::RemoveReplicas)?;
            with(pairs, Field::Keys, keys)
        }
        Down::AcquireReplicas { who_has } => {
            let pairs = begun(alloc, Operation::AcquireReplicas)?;
            with(pairs, Field::WhoHas, who_has)
        }
        Down::RefreshWhoHas { who_has } => {
            let pairs = begun(alloc, Operation::RefreshWhoHas)?;
            with(pairs, Field::WhoHas, who_has)
        }
    }
}

fn pairs_of_compute_task(
    alloc: Global,
    key: &u32,
    attempt: &u64,
    who_has: &WhoHas,
) -> Result<Vec<(Value, Value)>, AllocError>
    ensures written { IfOk result (λ v. seen v.items ≡ message_pairs (Message.Down (Down.ComputeTask key.now attempt.now who_has.now))) }
    ensures reads { OnOk result (Reads (Message.Down (Down.ComputeTask key.now attempt.now who_has.now))) }
{
    let pairs = begun(alloc, Operation::ComputeTask)?;
    let pairs = with(pairs, Field::Key, key)?;
    let pairs = with(pairs, Field::Attempt, attempt)?;
    with(pairs, Field::WhoHas, who_has)
}

fn pairs_of_up(alloc: Global, message: &Up) -> Result<Vec<(Value, Value)>, AllocError>
    ensures written { IfOk result (λ v. seen v.items ≡ message_pairs (Message.Up message.now)) }
    ensures reads { OnOk result (Reads (Message.Up message.now)) }
{
    match message {
        Up::TaskFinished { seen, key, attempt } => {
            let pairs = begun(alloc, Operation::TaskFinished)?;
            let pairs = with(pairs, Field::Seen, seen)?;
            let pairs = with(pairs, Field::Key, key)?;
            with(pairs, Field::Attempt, attempt)
        }
        Up::TaskErred { seen, key, attempt } => {
            let pairs = begun(alloc, Operation::TaskErred)?;
            let pairs = with(pairs, Field::Seen, seen)?;
            let pairs = with(pairs, Field::Key, key)?;
            with(pairs, Field::Attempt, attempt)
        }
        Up::AddKeys { seen, keys } => {
            let pairs = begun(alloc, Operation::AddKeys)?;
            let pairs = with(pairs, Field::Seen, seen)?;
            with(pairs, Field::Keys, keys)
        }
        Up::ReleaseWorkerData { seen, key } => {
            let pairs = begun(alloc, Operation::ReleaseWorkerData)?;
            let pairs = with(pairs, Field::Seen, seen)?;
            with(pairs, Field::Key, key)
        }
        Up::MissingData {
            seen,
            key,
            holder,
            copy,
        } => {
            let pairs = begun(alloc, Operation::MissingData)?;
            let pairs = with(pairs, Field::Seen, seen)?;
            let pairs = with(pairs, Field::Key, key)?;
            let pairs = with(pairs, Field::Holder, holder)?;
            with(pairs, Field::Copy, copy)
        }
        Up::RequestRefreshWhoHas { seen, key } => {
            let pairs = begun(alloc, Operation::RequestRefreshWhoHas)?;
            let pairs = with(pairs, Field::Seen, seen)?;
            with(pairs, Field::Key, key)
        }
        Up::StealResponse {
            seen,
            key,
            attempt,
            yes,
        } => {
            let pairs = begun(alloc, Operation::StealResponse)?;
            let pairs = with(pairs, Field::Seen, seen)?;
            let pairs = with(pairs, Field::Key, key)?;
            let pairs = with(pairs, Field::Attempt, attempt)?;
            with(pairs, Field::Yes, yes)
        }
    }
}

fn pairs_of_to_client(alloc: Global, message: &ToClient) -> Result<Vec<(Value, Value)>, AllocError>
    ensures written { IfOk result (λ v. seen v.items ≡ message_pairs (Message.ToClient message.now)) }
    ensures reads { OnOk result (Reads (Message.ToClient message.now)) }
{
    match message {
        ToClient::KeyInMemory { key, holders } => {
            let pairs = begun(alloc, Operation::KeyInMemory)?;
            let pairs = with(pairs, Field::Key, key)?;
            with(pairs, Field::Holders, holders)
        }
        ToClient::LostData { key } => {
            let pairs = begun(alloc, Operation::LostData)?;
            with(pairs, Field::Key, key)
        }
        ToClient::ClientTaskErred { key, blame } => {
            let pairs = begun(alloc, Operation::ClientTaskErred)?;
            let pairs = with(pairs, Field::Key, key)?;
            with(pairs, Field::Blame, blame)
        }
    }
}

fn pairs_of_from_client(
    alloc: Global,
    message: &FromClient,
) -> Result<Vec<(Value, Value)>, AllocError>
    ensures written { IfOk result (λ v. seen v.items ≡ message_pairs (Message.FromClient message.now)) }
    ensures reads { OnOk result (Reads (Message.FromClient message.now)) }
{
    match message {
        FromClient::Want { keys } => {
            let pairs = begun(alloc, Operation::Want)?;
            with(pairs, Field::Keys, keys)
        }
        FromClient::Release { keys } => {
            let pairs = begun(alloc, Operation::Release)?;
            with(pairs, Field::Keys, keys)
        }
        FromClient::Missing { key, holder, copy } => {
            let pairs = begun(alloc, Operation::Missing)?;
            let pairs = with(pairs, Field::Key, key)?;
            let pairs = with(pairs, Field::Holder, holder)?;
            with(pairs, Field::Copy, copy)
        }
    }
}

fn pairs_of_peer(alloc: Global, message: &Peer) -> Result<Vec<(Value, Value)>, AllocError>
    ensures written { IfOk result (λ v. seen v.items ≡ message_pairs (Message.Peer message.now)) }
    ensures reads { OnOk result (Reads (Message.Peer message.now)) }
{
    match message {
        Peer::GetData { ask, keys } => {
            let pairs = begun(alloc, Operation::GetData)?;
            let pairs = with(pairs, Field::Ask, ask)?;
            with(pairs, Field::Keys, keys)
        }
        Peer::Data { ask, found } => {
            let pairs = begun(alloc, Operation::Data)?;
            let pairs = with(pairs, Field::Ask, ask)?;
            with(pairs, Field::Found, found)
        }
    }
}

fn pairs_of_hello(alloc: Global, role: &Role, id: &u32) -> Result<Vec<(Value, Value)>, AllocError>
    ensures written { IfOk result (λ v. seen v.items ≡ message_pairs (Message.Hello role.now id.now)) }
    ensures reads { OnOk result (Reads (Message.Hello role.now id.now)) }
{
    let pairs = begun(alloc, Operation::Hello)?;
    let pairs = with(pairs, Field::Role, role)?;
    with(pairs, Field::Id, id)
}
