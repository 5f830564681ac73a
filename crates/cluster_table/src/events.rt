//! The events of a cluster, read from the words of a line and printed so: the event's name, and its arguments in their
//! order. A worker that asks for blocks is `w1`, and a client `c1`.
use crate::page::Page;
use crate::words::Words;
use cluster_msgs::{Asker, Event};

/// The event of a line.
pub fn read_event(words: &mut Words<'_>) -> Event {
    let name = words.word();
    match name {
        "balance" => Event::Balance,
        "evict" => Event::Evict,
        "want" => Event::Want {
            client: words.small(),
            keys: words.keys(),
        },
        "release" => Event::Release {
            client: words.small(),
            keys: words.keys(),
        },
        "replicate" => Event::Replicate {
            key: words.small(),
            worker: words.small(),
        },
        "serve-gather" => Event::ServeGather {
            peer: words.small(),
            asker: words.asker(),
            ask: words.number(),
        },
        "send-gather" => Event::SendGather {
            asker: words.asker(),
            peer: words.small(),
        },
        "arrive-gather" => Event::ArriveGather {
            asker: words.asker(),
            peer: words.small(),
            ask: words.number(),
        },
        "fail-gather" => Event::FailGather {
            asker: words.asker(),
            peer: words.small(),
        },
        _ => read_numbered(name, words),
    }
}

// An event with the number of a worker or a client, or of threads, and maybe of a key.
fn read_numbered(name: &str, words: &mut Words<'_>) -> Event {
    let number = words.small();
    match name {
        "join" => Event::Join { threads: number },
        "lose" => Event::Lose { worker: number },
        "see-loss" => Event::SeeLoss { worker: number },
        "suspect" => Event::Suspect { worker: number },
        "deliver-down" => Event::DeliverDown { worker: number },
        "deliver-up" => Event::DeliverUp { worker: number },
        "deliver-to-client" => Event::DeliverToClient { client: number },
        "deliver-from-client" => Event::DeliverFromClient { client: number },
        "start" => Event::Start { worker: number },
        _ => read_of_key(name, number, words),
    }
}

// An event of a worker's key.
fn read_of_key(name: &str, worker: u32, words: &mut Words<'_>) -> Event {
    let key = words.small();
    match name {
        "finish" => Event::Finish { worker, key },
        "spill" => Event::Spill { worker, key },
        "lose-spilled" => Event::LoseSpilled { worker, key },
        _ => {
            words.mark_ill();
            Event::Balance
        }
    }
}

fn name_of(event: &Event) -> &'static str {
    match event {
        Event::Want { .. } => "want",
        Event::Release { .. } => "release",
        Event::Join { .. } => "join",
        Event::Lose { .. } => "lose",
        Event::SeeLoss { .. } => "see-loss",
        Event::Suspect { .. } => "suspect",
        Event::DeliverDown { .. } => "deliver-down",
        Event::DeliverUp { .. } => "deliver-up",
        Event::DeliverToClient { .. } => "deliver-to-client",
        Event::DeliverFromClient { .. } => "deliver-from-client",
        Event::Start { .. } => "start",
        Event::Finish { .. } => "finish",
        Event::SendGather { .. } => "send-gather",
        Event::ServeGather { .. } => "serve-gather",
        Event::ArriveGather { .. } => "arrive-gather",
        Event::FailGather { .. } => "fail-gather",
        Event::Balance => "balance",
        Event::Evict => "evict",
        Event::Replicate { .. } => "replicate",
        Event::Spill { .. } => "spill",
        Event::LoseSpilled { .. } => "lose-spilled",
    }
}

fn print_asker(page: &mut Page, asker: Asker) {
    match asker {
        Asker::Worker(number) => page.item(" w", number),
        Asker::Client(number) => page.item(" c", number),
    }
}

// The one who asks, and numbers behind it.
fn print_ask(page: &mut Page, asker: Asker, numbers: &[u64]) {
    print_asker(page, asker);
    page.numbers("", numbers);
}

// A served ask, of which the peer stands before the asker.
fn print_served(page: &mut Page, peer: u32, asker: Asker, ask: u64) {
    page.item(" ", peer);
    print_ask(page, asker, &[ask]);
}

fn print_wanted(page: &mut Page, client: u32, keys: &[u32]) {
    page.item(" ", client);
    page.keys("", keys);
}

/// An event.
pub fn print_event(page: &mut Page, event: &Event) {
    page.put(name_of(event));
    match event {
        Event::Want { client, keys } | Event::Release { client, keys } => {
            print_wanted(page, *client, keys.as_slice())
        }
        Event::Join { threads: number }
        | Event::Lose { worker: number }
        | Event::SeeLoss { worker: number }
        | Event::Suspect { worker: number }
        | Event::DeliverDown { worker: number }
        | Event::DeliverUp { worker: number }
        | Event::DeliverToClient { client: number }
        | Event::DeliverFromClient { client: number }
        | Event::Start { worker: number } => page.item(" ", *number),
        Event::Finish { worker, key }
        | Event::Spill { worker, key }
        | Event::LoseSpilled { worker, key } => { page.numbers("", &[*worker as u64, *key as u64]) }
        Event::SendGather { asker, peer } | Event::FailGather { asker, peer } => {
            print_ask(page, *asker, &[*peer as u64])
        }
        Event::ArriveGather { asker, peer, ask } => {
            print_ask(page, *asker, &[*peer as u64, *ask])
        }
        Event::ServeGather { peer, asker, ask } => print_served(page, *peer, *asker, *ask),
        Event::Replicate { key, worker } => page.numbers("", &[*key as u64, *worker as u64]),
        Event::Balance | Event::Evict => {}
    }
}
