//! The histories that a line tells of.
use cluster_msgs::{
    Asker, Down, Entry, Event, FromClient, History, Holders, KeyList, Message, Peer, Sequence,
    ToClient, Up, WhoHas,
};
use std::alloc::{AllocError, Global};

fn steal_answer(yes: bool) -> Option<Message> {
    Some(Message::Up(Up::StealResponse {
        seen: 1,
        key: 2,
        attempt: 3,
        yes,
    }))
}

fn task_finished() -> Option<Message> {
    Some(Message::Up(Up::TaskFinished {
        seen: 1,
        key: 2,
        attempt: 3,
    }))
}

// One key.
fn only(alloc: Global, key: u32) -> Result<KeyList, AllocError> {
    let mut keys = KeyList::new(alloc);
    keys.push(key)?;
    Ok(keys)
}

// Worker 1 with a copy.
fn at_worker(alloc: Global, copy: u64) -> Result<Holders, AllocError> {
    let mut holders = Holders::new(alloc);
    holders.push((1, copy))?;
    Ok(holders)
}

// What worker 1 and the scheduler tell each other of key 0.
fn of_worker(alloc: Global, kind: &str, number: u32) -> Result<Option<Message>, AllocError> {
    let message = match kind {
        "give" => Message::Down(Down::ComputeTask {
            key: 0,
            attempt: number as u64,
            who_has: WhoHas::new(alloc),
        }),
        "free" => Message::Down(Down::FreeKeys {
            keys: only(alloc, number)?,
        }),
        "done" => Message::Up(Up::TaskFinished {
            seen: 1,
            key: 0,
            attempt: number as u64,
        }),
        _ => return Ok(None),
    };
    Ok(Some(message))
}

// What client 1 and the others tell each other of key 0.
fn of_client(alloc: Global, kind: &str, number: u32) -> Result<Option<Message>, AllocError> {
    let message = match kind {
        "wanted" => Message::FromClient(FromClient::Want {
            keys: only(alloc, number)?,
        }),
        "released" => Message::FromClient(FromClient::Release {
            keys: only(alloc, number)?,
        }),
        "news" => Message::ToClient(ToClient::KeyInMemory {
            key: 0,
            holders: at_worker(alloc, number as u64)?,
        }),
        "failed" => Message::ToClient(ToClient::ClientTaskErred {
            key: 0,
            blame: number,
        }),
        "serve" => Message::Peer(Peer::GetData {
            ask: number as u64,
            keys: only(alloc, 0)?,
        }),
        "answer" => Message::Peer(Peer::Data {
            ask: number as u64,
            found: only(alloc, 0)?,
        }),
        _ => return of_worker(alloc, kind, number),
    };
    Ok(Some(message))
}

// The message that an entry takes.
fn message(alloc: Global, kind: &str, number: u32) -> Result<Option<Message>, AllocError> {
    match kind {
        "yes" => Ok(steal_answer(true)),
        "no" => Ok(steal_answer(false)),
        "up" => Ok(task_finished()),
        _ => of_client(alloc, kind, number),
    }
}

// An event of client 1, or of a worker that serves it.
fn for_client(alloc: Global, kind: &str, number: u32) -> Result<Event, AllocError> {
    let client = 1;
    Ok(match kind {
        "want" => Event::Want {
            client,
            keys: only(alloc, number)?,
        },
        "release" => Event::Release {
            client,
            keys: only(alloc, number)?,
        },
        "wanted" | "released" => Event::DeliverFromClient { client },
        "news" | "failed" => Event::DeliverToClient { client },
        "serve" => Event::ServeGather {
            peer: 1,
            asker: Asker::Client(client),
            ask: number as u64,
        },
        "answer" => Event::ArriveGather {
            asker: Asker::Client(client),
            peer: 1,
            ask: number as u64,
        },
        _ => Event::Balance,
    })
}

fn event(alloc: Global, kind: &str, number: u32) -> Result<Event, AllocError> {
    Ok(match kind {
        "join" => Event::Join { threads: number },
        "start" => Event::Start { worker: number },
        "finish" => Event::Finish {
            worker: 1,
            key: number,
        },
        "gather" => Event::SendGather {
            asker: Asker::Worker(1),
            peer: number,
        },
        "fetch" => Event::SendGather {
            asker: Asker::Client(1),
            peer: number,
        },
        "lose" => Event::Lose { worker: number },
        "loss" => Event::SeeLoss { worker: number },
        "suspect" => Event::Suspect { worker: number },
        "copy" => Event::Replicate {
            key: 0,
            worker: number,
        },
        "yes" | "no" | "up" | "mute" => Event::DeliverUp { worker: number },
        "done" => Event::DeliverUp { worker: 1 },
        "give" | "free" => Event::DeliverDown { worker: 1 },
        _ => for_client(alloc, kind, number)?,
    })
}

fn entry(alloc: Global, word: &str) -> Result<Entry, AllocError> {
    let (stamp, rest) = word.split_once(':').unwrap_or((word, ""));
    let (kind, number) = rest.split_once(':').unwrap_or((rest, ""));
    let number = number.parse::<u32>().unwrap_or(0);
    Ok(Entry {
        stamp: stamp.parse::<u64>().unwrap_or(0),
        event: event(alloc, kind, number)?,
        message: message(alloc, kind, number)?,
    })
}

fn history(alloc: Global, text: &str) -> Result<History, AllocError> {
    let mut entries = Sequence::new(alloc);
    let mut cut = None;
    for word in text.split_whitespace() {
        match word.strip_prefix('!') {
            Some(rest) => cut = Some(entry(alloc, rest)?),
            None => entries.push(entry(alloc, word)?)?,
        }
    }
    Ok(History { entries, cut })
}

/// The histories between `|`, and none where the text is `none`.
pub fn histories(alloc: Global, text: &str) -> Result<Vec<History>, AllocError> {
    let mut histories = Vec::new(alloc);
    if text == "none" {
        return Ok(histories);
    }
    for part in text.split('|') {
        histories.push(history(alloc, part)?)?;
    }
    Ok(histories)
}
