//! Stories of a worker: its number, its threads and its graph, and then an event a line.
use crate::asks::{Asks, PEERS, end_of, print_gather};
use crate::graph::read_graph;
use crate::messages::read_down;
use crate::page::Page;
use crate::printed::print_up;
use crate::words::Words;
use cluster_msgs::{Instruction, Instructions, WState, WorkerEvent};
use std::alloc::Global;
use worker_core::WorkerCore;

// The event of a line: a message of the scheduler, or what the worker does by itself.
fn read_event(words: &mut Words<'_>) -> WorkerEvent {
    let name = words.word();
    match name {
        "start" => WorkerEvent::Start,
        "done" | "zero" => WorkerEvent::Done {
            key: words.small(),
            zero: name == "zero",
        },
        "ask" => WorkerEvent::Ask {
            peer: words.small(),
        },
        "gathered" => WorkerEvent::Gathered {
            peer: words.small(),
            ask: words.number(),
            found: words.keys(),
        },
        "gather-failed" => WorkerEvent::GatherFailed {
            peer: words.small(),
            ask: words.number(),
        },
        "data-lost" => WorkerEvent::DataLost { key: words.small() },
        _ => WorkerEvent::Down(read_down(name, words)),
    }
}

fn name_of(state: WState) -> &'static str {
    match state {
        WState::Memory => " memory",
        WState::Executing => " executing",
        WState::ResumedExecuting => " resumed-executing",
        WState::CancelledExecuting => " cancelled-executing",
        WState::ResumedFlight => " resumed-flight",
        WState::Flight => " flight",
        WState::CancelledFlight => " cancelled-flight",
        WState::Ready => " ready",
        WState::Waiting => " waiting",
        WState::Fetch => " fetch",
        WState::Missing => " missing",
        WState::Error => " error",
        WState::Released => " released",
        WState::Forgotten => " forgotten",
    }
}

fn print_instruction(page: &mut Page, instruction: &Instruction) {
    match instruction {
        Instruction::Execute { key } => page.item(", execute ", *key),
        Instruction::Gather { peer, ask, keys } => print_gather(page, *peer, *ask, keys.as_slice()),
        Instruction::Keep { key } => page.item(", keep ", *key),
        Instruction::Drop { key } => page.item(", drop ", *key),
        Instruction::Send(message) => {
            page.put(", send ");
            print_up(page, message);
        }
    }
}

// Takes an event, and prints its end and its instructions.
fn take(page: &mut Page, alloc: Global, core: &mut WorkerCore, event: WorkerEvent) {
    let mut out = Instructions::new(alloc);
    page.put(end_of(core.on(event, &mut out)));
    for instruction in out.as_slice() {
        print_instruction(page, instruction);
    }
    page.put("\n");
}

fn play_line(page: &mut Page, core: &mut WorkerCore, words: &mut Words<'_>) {
    let event = read_event(words);
    match words.fault() {
        Some(fault) => page.fault(fault),
        None => take(page, words.alloc(), core, event),
    }
}

fn print_runs(page: &mut Page, core: &WorkerCore, keys: u32) {
    let mut from = 0;
    for _ in 0..keys {
        match core.next_run(from) {
            Some(key) => {
                page.item(" ", key);
                from = key.saturating_add(1);
            }
            None => break,
        }
    }
}

fn print_peers(page: &mut Page, alloc: Global, core: &WorkerCore) {
    let mut asks = Asks::new(alloc);
    for peer in PEERS {
        asks.note(peer, core.would_ask(peer), core.ask_number(peer));
    }
    asks.print(page, core.pairs());
}

// The state of each key, what could be started and what runs.
fn print_states(page: &mut Page, core: &WorkerCore, keys: u32) {
    page.put(" ");
    for key in 0..keys {
        page.put(name_of(core.state(key)));
    }
    page.put("; start");
    if let Some(key) = core.would_start() {
        page.item(" ", key);
    }
    page.put("; runs");
    print_runs(page, core, keys);
}

fn play_lines(page: &mut Page, alloc: Global, core: &mut WorkerCore, keys: u32, events: &str) {
    for line in events.lines() {
        page.item(line, ": ");
        play_line(page, core, &mut Words::of(alloc, line));
        print_states(page, core, keys);
        print_peers(page, alloc, core);
    }
}

/// Plays a story of a worker.
pub fn play(page: &mut Page, words: &mut Words<'_>, events: &str) {
    let id = words.small();
    let threads = words.small();
    match read_graph(words) {
        Ok(shape) => {
            let keys = shape.keys();
            match WorkerCore::new(words.alloc(), id, threads, shape) {
                Ok(mut core) => {
                    play_lines(page, words.alloc(), &mut core, keys, events);
                    drop(core);
                }
                Err(_) => page.fail(),
            }
        }
        Err(fault) => page.fault(fault),
    }
}
