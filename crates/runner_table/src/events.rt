//! Entries of a history, printed with all their parts: the stamp, the event's name, its arguments in their order and, behind a `|`, the message that
//! it took. A worker that asks for blocks is `w1`, and a client `c1`.
use crate::messages::print_message;
use crate::page::Page;
use cluster_msgs::{Asker, Entry, Event};

fn name_of(event: &Event) -> &'static str {
    match event {
        Event::Want { .. } => "want",
        Event::Release { .. } => "release",
        Event::Join { .. } => "join",
        Event::Lose { .. } => "lose",
        Event::SeeLoss { .. } => "see-loss",
        Event::Suspect { .. } => "suspect",
        Event::DeliverDown { .. } => "deliver-down",
        Event::DeliverUp { .. } => "deliver-up",
        Event::DeliverToClient { .. } => "deliver-to-client",
        Event::DeliverFromClient { .. } => "deliver-from-client",
        Event::Start { .. } => "start",
        Event::Finish { .. } => "finish",
        Event::SendGather { .. } => "send-gather",
        Event::ServeGather { .. } => "serve-gather",
        Event::ArriveGather { .. } => "arrive-gather",
        Event::FailGather { .. } => "fail-gather",
        Event::Balance => "balance",
        Event::Evict => "evict",
        Event::Replicate { .. } => "replicate",
        Event::Spill { .. } => "spill",
        Event::LoseSpilled { .. } => "lose-spilled",
    }
}

fn print_asker(page: &mut Page, asker: Asker) {
    match asker {
        Asker::Worker(number) => page.item(" w", number),
        Asker::Client(number) => page.item(" c", number),
    }
}

// The one who asks, and numbers behind it.
fn print_ask(page: &mut Page, asker: Asker, numbers: &[u64]) {
    print_asker(page, asker);
    page.numbers("", numbers);
}

// A served ask, of which the peer stands before the asker.
fn print_served(page: &mut Page, peer: u32, asker: Asker, ask: u64) {
    page.item(" ", peer);
    print_ask(page, asker, &[ask]);
}

fn print_wanted(page: &mut Page, client: u32, keys: &[u32]) {
    page.item(" ", client);
    page.keys("", keys);
}

fn print_event(page: &mut Page, event: &Event) {
    page.put(name_of(event));
    match event {
        Event::Want { client, keys } | Event::Release { client, keys } => {
            print_wanted(page, *client, keys.as_slice())
        }
        Event::Join { threads: number }
        | Event::Lose { worker: number }
        | Event::SeeLoss { worker: number }
        | Event::Suspect { worker: number }
        | Event::DeliverDown { worker: number }
        | Event::DeliverUp { worker: number }
        | Event::DeliverToClient { client: number }
        | Event::DeliverFromClient { client: number }
        | Event::Start { worker: number } => page.item(" ", *number),
        Event::Finish { worker, key }
        | Event::Spill { worker, key }
        | Event::LoseSpilled { worker, key } => { page.numbers("", &[*worker as u64, *key as u64]) }
        Event::SendGather { asker, peer } | Event::FailGather { asker, peer } => {
            print_ask(page, *asker, &[*peer as u64])
        }
        Event::ArriveGather { asker, peer, ask } => {
            print_ask(page, *asker, &[*peer as u64, *ask])
        }
        Event::ServeGather { peer, asker, ask } => print_served(page, *peer, *asker, *ask),
        Event::Replicate { key, worker } => page.numbers("", &[*key as u64, *worker as u64]),
        Event::Balance | Event::Evict => {}
    }
}

/// An entry.
pub fn print_entry(page: &mut Page, entry: &Entry) {
    page.item("", entry.stamp);
    page.put(" ");
    print_event(page, &entry.event);
    if let Some(message) = &entry.message {
        page.put(" | ");
        print_message(page, message);
    }
    page.put("\n");
}
