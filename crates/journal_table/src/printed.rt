//! Entries as the lines have them.
use cluster_msgs::{Asker, Entry, Event, Message, Up};
use std::io;

fn answer_name(up: &Up) -> &'static str {
    match up {
        Up::StealResponse { yes, .. } => { if *yes { "yes" } else { "no" } }
        _ => "up",
    }
}

fn message_name(message: &Option<Message>) -> &'static str {
    match message {
        Some(Message::Up(up)) => answer_name(up),
        Some(_) => "other",
        None => "mute",
    }
}

fn asker_name(asker: &Asker) -> &'static str {
    match asker {
        Asker::Worker(_) => "gather",
        Asker::Client(_) => "fetch",
    }
}

// The kind of an event, and its number.
fn kind(entry: &Entry) -> (&'static str, u32) {
    match &entry.event {
        Event::Join { threads } => ("join", *threads),
        Event::Start { worker } => ("start", *worker),
        Event::Finish { key, .. } => ("finish", *key),
        Event::SendGather { asker, peer } => (asker_name(asker), *peer),
        Event::SeeLoss { worker } => ("loss", *worker),
        Event::Suspect { worker } => ("suspect", *worker),
        Event::DeliverUp { worker } => (message_name(&entry.message), *worker),
        Event::Replicate { worker, .. } => ("copy", *worker),
        _ => ("balance", 0),
    }
}

/// Prints an entry and a blank.
pub fn print_entry<R: Print>(rt: &R, entry: &Entry) -> io::Result<()> {
    let (name, number) = kind(entry);
    print!(rt; "{}:{name}:{number} ", entry.stamp)
}
