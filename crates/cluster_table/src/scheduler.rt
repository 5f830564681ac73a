//! Stories of the scheduler.
//!
//! The first line has the number of clients, the saturation in tenths, with the losses that are allowed behind it where these are
//! bounded, and the graph. An event is `join THREADS`, `leave WORKER`, `worker WORKER MESSAGE`, `client CLIENT MESSAGE`,
//! `balance`, `evict` or `replicate KEY WORKER`. The line `facts` asks for all that policies ask of the scheduler, and for what
//! they answer; `losses` asks how often each key lost its worker.
use crate::facts::{print_facts, print_known, print_losses, print_phases};
use crate::graph::read_graph;
use crate::messages::{read_from_client, read_up};
use crate::page::Page;
use crate::policy::print_choices;
use crate::printed::{print_down, print_to_client};
use crate::words::{Fault, Words};
use cluster_msgs::{Down, Outbox, SchedEvent, ToClient};
use scheduler_core::Sched;
use std::alloc::Global;

fn read_event(words: &mut Words<'_>) -> SchedEvent {
    match words.word() {
        "join" => SchedEvent::Join {
            threads: words.small(),
        },
        "leave" => SchedEvent::Leave { w: words.small() },
        "worker" => SchedEvent::FromWorker {
            w: words.small(),
            up: read_up(words),
        },
        "client" => SchedEvent::FromClient {
            c: words.small(),
            msg: read_from_client(words),
        },
        "balance" => SchedEvent::Balance,
        "evict" => SchedEvent::Evict,
        "replicate" => SchedEvent::Replicate {
            key: words.small(),
            w: words.small(),
        },
        _ => {
            words.mark_ill();
            SchedEvent::Evict
        }
    }
}

fn print_to_workers(page: &mut Page, messages: &[(u32, Down)]) {
    for (worker, message) in messages {
        page.item("  to worker ", *worker);
        page.put(": ");
        print_down(page, message);
        page.put("\n");
    }
}

fn print_to_clients(page: &mut Page, messages: &[(u32, ToClient)]) {
    for (client, message) in messages {
        page.item("  to client ", *client);
        page.put(": ");
        print_to_client(page, message);
        page.put("\n");
    }
}

// What is to be sent, in its order.
fn print_outbox(page: &mut Page, out: &Outbox) {
    for number in out.joined.as_slice() {
        page.item("  joined ", *number);
        page.put("\n");
    }
    print_to_workers(page, out.down.as_slice());
    print_to_clients(page, out.clients.as_slice());
}

// Takes an event, and prints whether it would be taken, its end, and what is to be sent.
fn take(page: &mut Page, alloc: Global, core: &mut Sched, event: SchedEvent) {
    page.item("  takes ", core.takes(&event));
    let mut out = Outbox::new(alloc);
    match core.on(event, &mut out) {
        Ok(()) => page.put(": taken\n"),
        Err(stop) => {
            page.item(": ", stop);
            page.put("\n");
        }
    }
    print_outbox(page, &out);
    print_phases(page, core);
}

fn play_line(page: &mut Page, core: &mut Sched, words: &mut Words<'_>) {
    let event = read_event(words);
    match words.fault() {
        Some(fault) => page.fault(fault),
        None => take(page, words.alloc(), core, event),
    }
}

fn print_all(page: &mut Page, core: &Sched) {
    core.settled();
    print_known(page, core);
    print_facts(page, core);
    print_choices(page, core, core.shape());
}

fn play_lines(page: &mut Page, alloc: Global, core: &mut Sched, events: &str) {
    for line in events.lines() {
        page.line(line);
        if line == "facts" {
            print_all(page, core);
        } else if line == "losses" {
            print_losses(page, core);
        } else {
            play_line(page, core, &mut Words::of(alloc, line));
        }
    }
}

/// Plays a story of the scheduler.
pub fn play(page: &mut Page, words: &mut Words<'_>, events: &str) {
    let clients = words.small();
    let (saturation, allowed) = words.bounded();
    if clients > 16 || saturation < 1 || saturation > 1000 {
        return page.fault(Fault::Ill);
    }
    match read_graph(words) {
        Ok(shape) => match Sched::new(words.alloc(), shape, clients, saturation, allowed) {
            Ok(mut core) => {
                play_lines(page, words.alloc(), &mut core, events);
                drop(core);
            }
            Err(_) => page.fail(),
        },
        Err(fault) => page.fault(fault),
    }
}
