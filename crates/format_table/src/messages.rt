//! The cluster's messages in MessagePack's values.
use crate::answer::Answer;
use crate::text::bytes_of;
use crate::values::put_encoded;
use cluster_msgs::{Down, FromClient, Holders, KeyList, Message, Peer, Role, ToClient, Up, WhoHas};
use msgpack_frames::{Value, decode};
use wire_msgs::{from_value, to_value};

fn put_keys(out: &mut Answer, before: &str, keys: &KeyList) {
    out.put(before);
    out.put_each(" ", keys.as_slice());
}

fn put_holders(out: &mut Answer, holders: &Holders) {
    for (holder, copy) in holders.as_slice() {
        out.put_item(" ", holder);
        out.put_item(":", copy);
    }
}

fn put_who_has(out: &mut Answer, before: &str, who_has: &WhoHas) {
    out.put(before);
    out.put("who_has");
    for (key, holders) in who_has.as_slice() {
        out.put_item(" key ", key);
        put_holders(out, holders);
    }
}

fn put_attempt(out: &mut Answer, before: &str, key: u32, attempt: u64) {
    out.put_item(before, &key);
    out.put_item(", attempt ", &attempt);
}

fn put_copy(out: &mut Answer, before: &str, key: u32, holder: u32, copy: u64) {
    out.put_item(before, &key);
    out.put_item(", holder ", &holder);
    out.put_item(", copy ", &copy);
}

fn put_down(out: &mut Answer, down: &Down) {
    match down {
        Down::ComputeTask {
            key,
            attempt,
            who_has,
        } => {
            put_attempt(out, "ComputeTask: key ", *key, *attempt);
            put_who_has(out, ", ", who_has);
        }
        Down::FreeKeys { keys } => put_keys(out, "FreeKeys: keys", keys),
        Down::StealRequest { key, attempt } => {
            put_attempt(out, "StealRequest: key ", *key, *attempt);
        }
        Down::RemoveReplicas { keys } => put_keys(out, "RemoveReplicas: keys", keys),
        Down::AcquireReplicas { who_has } => put_who_has(out, "AcquireReplicas: ", who_has),
        Down::RefreshWhoHas { who_has } => put_who_has(out, "RefreshWhoHas: ", who_has),
    }
}

// The word of a message that a worker sends, and what it has seen.
fn begin_up(up: &Up) -> (&'static str, u64) {
    match up {
        Up::TaskFinished { seen, .. } => ("TaskFinished: seen ", *seen),
        Up::TaskErred { seen, .. } => ("TaskErred: seen ", *seen),
        Up::AddKeys { seen, .. } => ("AddKeys: seen ", *seen),
        Up::ReleaseWorkerData { seen, .. } => ("ReleaseWorkerData: seen ", *seen),
        Up::MissingData { seen, .. } => ("MissingData: seen ", *seen),
        Up::RequestRefreshWhoHas { seen, .. } => ("RequestRefreshWhoHas: seen ", *seen),
        Up::StealResponse { seen, .. } => ("StealResponse: seen ", *seen),
    }
}

fn put_response(out: &mut Answer, key: u32, attempt: u64, yes: bool) {
    put_attempt(out, ", key ", key, attempt);
    out.put_item(", yes ", &yes);
}

fn put_up(out: &mut Answer, up: &Up) {
    let (word, seen) = begin_up(up);
    out.put_item(word, &seen);
    match up {
        Up::TaskFinished { key, attempt, .. } | Up::TaskErred { key, attempt, .. } => {
            put_attempt(out, ", key ", *key, *attempt);
        }
        Up::AddKeys { keys, .. } => put_keys(out, ", keys", keys),
        Up::ReleaseWorkerData { key, .. } | Up::RequestRefreshWhoHas { key, .. } => {
            out.put_item(", key ", key);
        }
        Up::MissingData {
            key,
            holder,
            copy,
            ..
        } => put_copy(out, ", key ", *key, *holder, *copy),
        Up::StealResponse {
            key,
            attempt,
            yes,
            ..
        } => put_response(out, *key, *attempt, *yes),
    }
}

fn put_in_memory(out: &mut Answer, key: u32, holders: &Holders) {
    out.put_item("KeyInMemory: key ", &key);
    out.put(", holders");
    put_holders(out, holders);
}

fn put_erred(out: &mut Answer, key: u32, blame: u32) {
    out.put_item("ClientTaskErred: key ", &key);
    out.put_item(", blame ", &blame);
}

fn put_to_client(out: &mut Answer, message: &ToClient) {
    match message {
        ToClient::KeyInMemory { key, holders } => put_in_memory(out, *key, holders),
        ToClient::LostData { key } => out.put_item("LostData: key ", key),
        ToClient::ClientTaskErred { key, blame } => put_erred(out, *key, *blame),
    }
}

fn put_from_client(out: &mut Answer, message: &FromClient) {
    match message {
        FromClient::Want { keys } => put_keys(out, "Want: keys", keys),
        FromClient::Release { keys } => put_keys(out, "Release: keys", keys),
        FromClient::Missing { key, holder, copy } => {
            put_copy(out, "Missing: key ", *key, *holder, *copy);
        }
    }
}

fn put_peer(out: &mut Answer, message: &Peer) {
    match message {
        Peer::GetData { ask, keys } => {
            out.put_item("GetData: ask ", ask);
            put_keys(out, ", keys", keys);
        }
        Peer::Data { ask, found } => {
            out.put_item("Data: ask ", ask);
            put_keys(out, ", found", found);
        }
    }
}

fn role_name(role: Role) -> &'static str {
    match role {
        Role::Scheduler => "Scheduler",
        Role::Worker => "Worker",
        Role::Client => "Client",
    }
}

fn put_hello(out: &mut Answer, role: Role, id: u32) {
    out.put("Hello: role ");
    out.put(role_name(role));
    out.put_item(", id ", &id);
}

fn put_fields(out: &mut Answer, message: &Message) {
    match message {
        Message::Down(down) => put_down(out, down),
        Message::Up(up) => put_up(out, up),
        Message::ToClient(to_client) => put_to_client(out, to_client),
        Message::FromClient(from_client) => put_from_client(out, from_client),
        Message::Peer(peer) => put_peer(out, peer),
        Message::Hello { role, id } => put_hello(out, *role, *id),
    }
}

// The fields of a message, and the bytes that it is written as.
fn put_message(out: &mut Answer, message: &Message) {
    put_fields(out, message);
    out.put(" = ");
    match to_value(out.alloc(), message) {
        Ok(value) => put_encoded(out, &value),
        Err(_) => out.fail(),
    }
}

fn put_value(out: &mut Answer, value: &Value) {
    match from_value(out.alloc(), value) {
        Ok(message) => put_message(out, &message),
        Err(e) => out.put_item("", &e),
    }
}

/// `message HEX`: the message that a value is, and the bytes that it is written as.
pub fn put_message_case(out: &mut Answer, case: &str) {
    let bytes = bytes_of(out, case);
    match decode(out.alloc(), &bytes) {
        Ok((value, _)) => put_value(out, &value),
        Err(e) => out.put_item("", &e),
    }
}
