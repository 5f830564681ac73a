//! Stories of a client: its graph, and then an event a line.
use crate::asks::{Asks, PEERS, end_of, print_gather};
use crate::graph::read_graph;
use crate::messages::read_to_client;
use crate::page::Page;
use crate::printed::print_from_client;
use crate::words::Words;
use cluster_msgs::{ClientEvent, ClientInstruction, ClientOut, End};
use gather_client::ClientCore;
use std::alloc::Global;

// The event of a line: a message of the scheduler, or what the client does by itself.
fn read_event(words: &mut Words<'_>) -> ClientEvent {
    let name = words.word();
    match name {
        "want" => ClientEvent::Want(words.keys()),
        "release" => ClientEvent::Release(words.keys()),
        "ask" => ClientEvent::Ask {
            peer: words.small(),
        },
        "gathered" => ClientEvent::Gathered {
            peer: words.small(),
            ask: words.number(),
            found: words.keys(),
        },
        "gather-failed" => ClientEvent::GatherFailed {
            peer: words.small(),
            ask: words.number(),
        },
        _ => ClientEvent::FromScheduler(read_to_client(name, words)),
    }
}

fn print_instruction(page: &mut Page, instruction: &ClientInstruction) {
    match instruction {
        ClientInstruction::Send(message) => {
            page.put(", send ");
            print_from_client(page, message);
        }
        ClientInstruction::Gather { peer, ask, keys } => {
            print_gather(page, *peer, *ask, keys.as_slice())
        }
    }
}

// Takes an event, and prints its end and its instructions.
fn take(page: &mut Page, alloc: Global, core: &mut ClientCore, event: ClientEvent) {
    let mut out = ClientOut::new(alloc);
    page.put(end_of(core.on(event, &mut out)));
    for instruction in out.as_slice() {
        print_instruction(page, instruction);
    }
    page.put("\n");
}

fn play_line(page: &mut Page, core: &mut ClientCore, words: &mut Words<'_>) {
    let event = read_event(words);
    match words.fault() {
        Some(fault) => page.fault(fault),
        None => take(page, words.alloc(), core, event),
    }
}

/// How a key ended, behind a blank.
pub fn print_end(page: &mut Page, end: Option<End>) {
    match end {
        Some(End::Got) => page.put(" got"),
        Some(End::Erred { blame }) => page.item(" erred:", blame),
        None => page.put(" waits"),
    }
}

fn print_peers(page: &mut Page, alloc: Global, core: &ClientCore) {
    let mut asks = Asks::new(alloc);
    for peer in PEERS {
        asks.note(peer, core.would_ask(peer), core.ask_number(peer));
    }
    asks.print(page, core.pairs());
}

// How each key ended.
fn print_ends(page: &mut Page, core: &ClientCore, keys: u32) {
    page.put(" ");
    for key in 0..keys {
        print_end(page, core.done(key));
    }
}

fn play_lines(page: &mut Page, alloc: Global, core: &mut ClientCore, keys: u32, events: &str) {
    for line in events.lines() {
        page.item(line, ": ");
        play_line(page, core, &mut Words::of(alloc, line));
        print_ends(page, core, keys);
        print_peers(page, alloc, core);
    }
}

/// Plays a story of a client.
pub fn play(page: &mut Page, words: &mut Words<'_>, events: &str) {
    match read_graph(words) {
        Ok(shape) => {
            let keys = shape.keys();
            match ClientCore::new(words.alloc(), shape) {
                Ok(mut core) => {
                    play_lines(page, words.alloc(), &mut core, keys, events);
                    drop(core);
                }
                Err(_) => page.fail(),
            }
        }
        Err(fault) => page.fault(fault),
    }
}
