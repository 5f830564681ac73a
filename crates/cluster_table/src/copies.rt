//! Stories of copies: of a history's entries, with every event and message, and of scripts. What is printed is what the copy
//! has.
//!
//! A line is `STAMP EVENT`, with a message behind a `|`, and stands for a list of that entry; or `script WORKER COUNT`, and
//! stands for one item of each kind.
use crate::events::{print_event, read_event};
use crate::messages::read_taken;
use crate::page::Page;
use crate::printed::print_message;
use crate::words::Words;
use cluster_msgs::{Entry, Item, RunFail, Script, Sequence, Stop};
use std::alloc::{AllocError, Global};

// A copy of the list of an entry.
fn copy_entry(alloc: Global, entry: Entry) -> Result<Sequence<Entry>, AllocError> {
    let mut entries = Sequence::new(alloc);
    entries.push(entry)?;
    entries.copy()
}

fn print_entry(page: &mut Page, entry: &Entry) {
    page.item("  ", entry.stamp);
    page.put(" ");
    print_event(page, &entry.event);
    if let Some(message) = &entry.message {
        page.put(" | ");
        print_message(page, message);
    }
    page.put("\n");
}

fn print_entries(page: &mut Page, entries: &Result<Sequence<Entry>, AllocError>) {
    match entries {
        Ok(entries) => {
            for entry in entries.as_slice() {
                print_entry(page, entry);
            }
        }
        Err(_) => page.fail(),
    }
}

fn read_entry(words: &mut Words<'_>) -> Entry {
    let stamp = words.number();
    let event = read_event(words);
    let message = read_taken(words);
    Entry {
        stamp,
        event,
        message,
    }
}

fn play_entry(page: &mut Page, words: &mut Words<'_>) {
    let entry = read_entry(words);
    let entries = copy_entry(words.alloc(), entry);
    match words.fault() {
        Some(fault) => page.fault(fault),
        None => print_entries(page, &entries),
    }
}

// A copy of a script with one item of each kind.
fn copy_script(alloc: Global, w: u32, at: u128) -> Result<Script, AllocError> {
    let items = [
        Item::Lose { w, at },
        Item::Suspect { w, at },
        Item::Join { at },
    ];
    let script = Script::from_vec(Vec::from_slice(alloc, &items)?);
    script.copy()
}

fn print_item(page: &mut Page, item: &Item) {
    match item {
        Item::Lose { w, at } => {
            page.item("  lose ", *w);
            page.item(" at ", *at);
        }
        Item::Suspect { w, at } => {
            page.item("  suspect ", *w);
            page.item(" at ", *at);
        }
        Item::Join { at } => page.item("  join at ", *at),
    }
    page.put("\n");
}

fn print_script(page: &mut Page, items: &[Item]) {
    for item in items {
        print_item(page, item);
    }
}

fn play_script(page: &mut Page, words: &mut Words<'_>) {
    let w = words.small();
    let at = words.number();
    if let Some(fault) = words.fault() {
        return page.fault(fault);
    }
    match copy_script(words.alloc(), w, at as u128) {
        Ok(script) => print_script(page, script.as_slice()),
        Err(_) => page.fail(),
    }
}

// The texts of why a core stopped and why a key couldn't be run.
fn print_texts(page: &mut Page) {
    page.item("  ", Stop::Spent);
    page.item(", ", RunFail::Feed);
    page.put("\n");
}

/// Plays a story of copies. The line `texts` prints why a core stopped and why a key couldn't be run.
pub fn play(page: &mut Page, alloc: Global, events: &str) {
    for line in events.lines() {
        page.line(line);
        match line.strip_prefix("script ") {
            Some(numbers) => play_script(page, &mut Words::of(alloc, numbers)),
            None if line == "texts" => print_texts(page),
            None => play_entry(page, &mut Words::of(alloc, line)),
        }
    }
}
