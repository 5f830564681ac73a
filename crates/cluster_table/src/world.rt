//! Stories of a world: its clients, its saturation, with the losses that are allowed behind it where these are bounded, what its
//! feed has and whether it fails, and its graph, and then an event a line. `go` takes the first event that makes progress, so
//! many times; `losses` asks how often each key lost its worker.
ghost use Rattle.std.specs.Prelude.{◌≡◌, ◌≤◌, IfOk};

pub mod quotients;

use crate::client::print_end;
use crate::events::{print_event, read_event};
use crate::graph::read_graph;
use crate::page::Page;
use crate::printed::print_message;
use crate::words::{Fault, Words};
use cluster_msgs::Event;
use cluster_world::{StepError, World};
use quiet_bound::rest;
use quotients::{Number, Quotients};
use std::alloc::Global;

/// So many of the events that make progress are printed.
const SHOWN: u64 = 40;

/// How a step of a world ended.
fn end_of(end: Result<(), StepError>) -> &'static str {
    match end {
        Ok(()) => ": taken\n",
        Err(StepError::NotEnabled) => ": not enabled\n",
        Err(StepError::Stopped) => ": stopped\n",
        Err(StepError::Feed) => ": the feed failed\n",
        Err(StepError::Spent) => ": spent\n",
        Err(StepError::OutOfMemory) => ": out of memory\n",
    }
}

// Takes an event, prints the message that it takes from a link and its end, and says whether it was taken.
fn step(page: &mut Page, world: &mut World<Quotients>, event: &Event) -> bool {
    if let Some(message) = world.message(event) {
        page.put(" takes ");
        print_message(page, message);
    }
    let end = world.step(event);
    page.put(end_of(end));
    end.is_ok()
}

// Takes the first event that makes progress, if there is one, and says whether it was taken.
fn go_on(page: &mut Page, world: &mut World<Quotients>) -> bool {
    match world.progress(0) {
        Some(event) => {
            print_event(page, &event);
            let is_taken = step(page, world, &event);
            drop(event);
            is_taken
        }
        None => false,
    }
}

// Takes the first events that make progress, as many and as long as there are.
fn go(page: &mut Page, world: &mut World<Quotients>, turns: u32) {
    page.put("\n");
    for _ in 0..turns {
        if !go_on(page, world) {
            break;
        }
    }
}

// Takes the event of a line.
fn take(page: &mut Page, world: &mut World<Quotients>, words: &mut Words<'_>) {
    let event = read_event(words);
    match words.fault() {
        Some(fault) => page.fault(fault),
        None => {
            let _taken = step(page, world, &event);
        }
    }
    drop(event);
}

// How often each key lost its worker.
fn print_losses(page: &mut Page, world: &World<Quotients>) {
    page.put("\n  lost");
    for key in 0..world.shape().keys() {
        page.item(" ", world.losses(key));
    }
    page.put("\n");
}

fn play_line(page: &mut Page, alloc: Global, world: &mut World<Quotients>, line: &str) {
    page.put(line);
    if line == "losses" {
        return print_losses(page, world);
    }
    match line.strip_prefix("go ") {
        Some(turns) => go(page, world, turns.parse::<u32>().unwrap_or(0)),
        None => take(page, world, &mut Words::of(alloc, line)),
    }
}

/// How a key ended for a client, and its block, if the client has got it.
pub fn print_key(page: &mut Page, world: &World<Quotients>, client: u32, key: u32) {
    print_end(page, world.done(client, key));
    if let Some(block) = world.got(client, key) {
        page.item(":", *block);
    }
}

// How each key ended for a client, and the block that it has got.
fn print_client(page: &mut Page, world: &World<Quotients>, client: u32) {
    page.item("  client ", client);
    page.put(":");
    for key in 0..world.shape().keys() {
        print_key(page, world, client, key);
    }
    page.put("\n");
}

// The events that make progress, in their order.
fn print_progress(page: &mut Page, world: &World<Quotients>) {
    page.item("  progress ", world.progress_count());
    for n in 0..SHOWN {
        match world.progress(n) {
            Some(event) => {
                page.put("; ");
                print_event(page, &event);
                drop(event);
            }
            None => break,
        }
    }
    page.put("\n");
}

// What the world counts, what could happen, and what each client has.
fn print_world(page: &mut Page, world: &World<Quotients>) {
    page.item("  under way ", world.under_way());
    page.item("; workers ", world.workers());
    page.item("; finishes ", world.finishes());
    page.item("; bound ", rest(world));
    page.put("\n");
    print_progress(page, world);
    for before in 0..world.clients() {
        print_client(page, world, before.saturating_add(1));
    }
}

/// What a world begins with.
#[derive(Drop)]
pub struct Opening {
    pub job: Quotients,
    pub feed: Number,
}

/// What the words say: what the feed has, whether it fails, and the graph.
pub fn read_opening(words: &mut Words<'_>) -> Result<Opening, Fault>
    ensures { IfOk result (λ o. o.feed.value ≡ o.job.content) }
{
    let content = words.number();
    let fails = words.truth();
    match read_graph(words) {
        Ok(shape) => Ok(Opening {
            job: Quotients { shape, content },
            feed: Number {
                value: content,
                faults: 0,
                fails,
            },
        }),
        Err(fault) => Err(fault),
    }
}

fn play_lines(page: &mut Page, alloc: Global, world: &mut World<Quotients>, events: &str) {
    for line in events.lines() {
        play_line(page, alloc, world, line);
        print_world(page, world);
    }
}

/// Prints how often the feed of a world failed.
pub fn print_faults(page: &mut Page, world: World<Quotients>) {
    page.item("faults ", world.into_feed().faults);
    page.put("\n");
}

// Plays the events of a world, and gives its feed back.
fn play_opened(
    page: &mut Page,
    alloc: Global,
    opening: Opening,
    clients: u32,
    saturation: u32,
    allowed: Option<u32>,
    events: &str,
)
    requires clients { clients ≤ 16 }
    requires saturation { (1 ≤ saturation) × (saturation ≤ 1000) }
    requires feed { opening.feed.value ≡ opening.job.content }
{
    let Opening { job, feed } = opening;
    match World::new(alloc, job, feed, clients, saturation, allowed) {
        Ok(mut world) => {
            play_lines(page, alloc, &mut world, events);
            print_faults(page, world);
        }
        Err(_) => page.fail(),
    }
}

/// Plays a story of a world.
pub fn play(page: &mut Page, words: &mut Words<'_>, events: &str) {
    let clients = words.small();
    let (saturation, allowed) = words.bounded();
    if clients > 16 || saturation < 1 || saturation > 1000 {
        return page.fault(Fault::Ill);
    }
    match read_opening(words) {
        Ok(opening) => play_opened(
            page,
            words.alloc(),
            opening,
            clients,
            saturation,
            allowed,
            events,
        ),
        Err(fault) => page.fault(fault),
    }
}
