//! Messages, read from the words of a line: the message's name, and its fields in their order.
use crate::words::Words;
use cluster_msgs::{Down, FromClient, Message, Peer, Role, ToClient, Up};

/// A message from the scheduler to a worker, with this name.
pub fn read_down(name: &str, words: &mut Words<'_>) -> Down {
    match name {
        "compute-task" => Down::ComputeTask {
            key: words.small(),
            attempt: words.number(),
            who_has: words.who_has(),
        },
        "free-keys" => Down::FreeKeys { keys: words.keys() },
        "remove-replicas" => Down::RemoveReplicas { keys: words.keys() },
        "acquire-replicas" => Down::AcquireReplicas {
            who_has: words.who_has(),
        },
        "refresh-who-has" => Down::RefreshWhoHas {
            who_has: words.who_has(),
        },
        _ => read_request(name, words),
    }
}

fn read_request(name: &str, words: &mut Words<'_>) -> Down {
    if name != "steal-request" {
        words.mark_ill();
    }
    Down::StealRequest {
        key: words.small(),
        attempt: words.number(),
    }
}

/// A message from a worker to the scheduler.
pub fn read_up(words: &mut Words<'_>) -> Up {
    let name = words.word();
    let seen = words.number();
    if name == "add-keys" {
        return Up::AddKeys {
            seen,
            keys: words.keys(),
        };
    }
    let key = words.small();
    match name {
        "task-finished" => Up::TaskFinished {
            seen,
            key,
            attempt: words.number(),
        },
        "task-erred" => Up::TaskErred {
            seen,
            key,
            attempt: words.number(),
        },
        "missing-data" => Up::MissingData {
            seen,
            key,
            holder: words.small(),
            copy: words.number(),
        },
        "steal-response" => Up::StealResponse {
            seen,
            key,
            attempt: words.number(),
            yes: words.truth(),
        },
        "request-refresh-who-has" => Up::RequestRefreshWhoHas { seen, key },
        "release-worker-data" => Up::ReleaseWorkerData { seen, key },
        _ => {
            words.mark_ill();
            Up::ReleaseWorkerData { seen, key }
        }
    }
}

/// A message from the scheduler to a client, with this name.
pub fn read_to_client(name: &str, words: &mut Words<'_>) -> ToClient {
    let key = words.small();
    match name {
        "key-in-memory" => ToClient::KeyInMemory {
            key,
            holders: words.holders(),
        },
        "client-task-erred" => ToClient::ClientTaskErred {
            key,
            blame: words.small(),
        },
        "lost-data" => ToClient::LostData { key },
        _ => {
            words.mark_ill();
            ToClient::LostData { key }
        }
    }
}

/// A message from a client to the scheduler.
pub fn read_from_client(words: &mut Words<'_>) -> FromClient {
    match words.word() {
        "want" => FromClient::Want { keys: words.keys() },
        "missing" => FromClient::Missing {
            key: words.small(),
            holder: words.small(),
            copy: words.number(),
        },
        "release" => FromClient::Release { keys: words.keys() },
        _ => {
            words.mark_ill();
            FromClient::Release { keys: words.keys() }
        }
    }
}

/// A message between those who ask for blocks and those who hold them.
pub fn read_peer(words: &mut Words<'_>) -> Peer {
    match words.word() {
        "get-data" => Peer::GetData {
            ask: words.number(),
            keys: words.keys(),
        },
        "data" => Peer::Data {
            ask: words.number(),
            found: words.keys(),
        },
        _ => {
            words.mark_ill();
            Peer::Data {
                ask: words.number(),
                found: words.keys(),
            }
        }
    }
}

fn role_of(word: &str) -> Role {
    match word {
        "scheduler" => Role::Scheduler,
        "worker" => Role::Worker,
        _ => Role::Client,
    }
}

/// Any message, behind the name of its kind.
pub fn read_message(words: &mut Words<'_>) -> Message {
    let kind = words.word();
    match kind {
        "down" => Message::Down(read_down(words.word(), words)),
        "up" => Message::Up(read_up(words)),
        "to-client" => Message::ToClient(read_to_client(words.word(), words)),
        "from-client" => Message::FromClient(read_from_client(words)),
        "peer" => Message::Peer(read_peer(words)),
        "hello" => Message::Hello {
            role: role_of(words.word()),
            id: words.small(),
        },
        _ => {
            words.mark_ill();
            Message::Hello {
                role: Role::Client,
                id: 0,
            }
        }
    }
}

/// The message behind a `|`, if there is one.
pub fn read_taken(words: &mut Words<'_>) -> Option<Message> {
    match words.word() {
        "|" => Some(read_message(words)),
        _ => None,
    }
}
