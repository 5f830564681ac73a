//! Messages, printed with all their parts: the name of the kind, that of the message, and its fields in their order.
use crate::page::Page;
use cluster_msgs::{Down, FromClient, Message, Peer, Role, ToClient, Up};

// A message from the scheduler to a worker.
fn print_down(page: &mut Page, message: &Down) {
    match message {
        Down::ComputeTask {
            key,
            attempt,
            who_has,
        } => {
            page.numbers("compute-task", &[*key as u64, *attempt]);
            page.who_has(who_has.as_slice());
        }
        Down::FreeKeys { keys } => page.keys("free-keys", keys.as_slice()),
        Down::StealRequest { key, attempt } => {
            page.numbers("steal-request", &[*key as u64, *attempt])
        }
        Down::RemoveReplicas { keys } => page.keys("remove-replicas", keys.as_slice()),
        Down::AcquireReplicas { who_has } => {
            page.put("acquire-replicas");
            page.who_has(who_has.as_slice());
        }
        Down::RefreshWhoHas { who_has } => {
            page.put("refresh-who-has");
            page.who_has(who_has.as_slice());
        }
    }
}

// A message from a worker to the scheduler.
fn print_up(page: &mut Page, message: &Up) {
    match message {
        Up::TaskFinished { seen, key, attempt } => {
            page.numbers("task-finished", &[*seen, *key as u64, *attempt])
        }
        Up::TaskErred { seen, key, attempt } => {
            page.numbers("task-erred", &[*seen, *key as u64, *attempt])
        }
        Up::AddKeys { seen, keys } => {
            page.item("add-keys ", *seen);
            page.keys("", keys.as_slice());
        }
        Up::ReleaseWorkerData { seen, key } => {
            page.numbers("release-worker-data", &[*seen, *key as u64])
        }
        Up::MissingData {
            seen,
            key,
            holder,
            copy,
        } => page.numbers("missing-data", &[*seen, *key as u64, *holder as u64, *copy]),
        Up::RequestRefreshWhoHas { seen, key } => {
            page.numbers("request-refresh-who-has", &[*seen, *key as u64])
        }
        Up::StealResponse {
            seen,
            key,
            attempt,
            yes,
        } => {
            page.numbers("steal-response", &[*seen, *key as u64, *attempt]);
            page.item(" ", *yes);
        }
    }
}

// A message from the scheduler to a client.
fn print_to_client(page: &mut Page, message: &ToClient) {
    match message {
        ToClient::KeyInMemory { key, holders } => {
            page.item("key-in-memory ", *key);
            page.holders(" ", holders.as_slice());
        }
        ToClient::LostData { key } => page.item("lost-data ", *key),
        ToClient::ClientTaskErred { key, blame } => {
            page.numbers("client-task-erred", &[*key as u64, *blame as u64])
        }
    }
}

// A message from a client to the scheduler.
fn print_from_client(page: &mut Page, message: &FromClient) {
    match message {
        FromClient::Want { keys } => page.keys("want", keys.as_slice()),
        FromClient::Release { keys } => page.keys("release", keys.as_slice()),
        FromClient::Missing { key, holder, copy } => {
            page.numbers("missing", &[*key as u64, *holder as u64, *copy])
        }
    }
}

// A message between those who ask for blocks and those who hold them: its name, its number and its keys.
fn print_peer(page: &mut Page, message: &Peer) {
    let (name, ask, keys) = match message {
        Peer::GetData { ask, keys } => ("get-data ", *ask, keys),
        Peer::Data { ask, found } => ("data ", *ask, found),
    };
    page.item(name, ask);
    page.keys("", keys.as_slice());
}

fn kind_of(message: &Message) -> &'static str {
    match message {
        Message::Down(_) => "down ",
        Message::Up(_) => "up ",
        Message::ToClient(_) => "to-client ",
        Message::FromClient(_) => "from-client ",
        Message::Peer(_) => "peer ",
        Message::Hello { .. } => "hello ",
    }
}

fn role_name(role: Role) -> &'static str {
    match role {
        Role::Scheduler => "scheduler ",
        Role::Worker => "worker ",
        Role::Client => "client ",
    }
}

/// Any message, behind the name of its kind.
pub fn print_message(page: &mut Page, message: &Message) {
    page.put(kind_of(message));
    match message {
        Message::Down(down) => print_down(page, down),
        Message::Up(up) => print_up(page, up),
        Message::ToClient(to_client) => print_to_client(page, to_client),
        Message::FromClient(from_client) => print_from_client(page, from_client),
        Message::Peer(peer) => print_peer(page, peer),
        Message::Hello { role, id } => page.item(role_name(*role), *id),
    }
}
