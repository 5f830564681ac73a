//! The program `cluster_table`: plays stories of the parts of a cluster, and prints what each event leads to.
//!
//! It stands on the crates of the cluster, and nothing stands above it. It carries no promise of its own. Its input is
//! stories between empty lines. A story begins with a note behind `#`, or with none; the next line names the part and its
//! setting, and each further line is an event. What it prints is compared with what the tables of events ask for.
//! `tools/scheduler_stories.py` works that out for the scheduler, and `tools/world_model.py` for the workers, the clients and
//! the world: models of the rules that are no part of the program. `docs/CLUSTER.md` tells the rules.
#![tactic(auto)]

mod asks;
mod client;
mod copies;
mod counted;
mod events;
mod facts;
mod graph;
mod messages;
mod packet;
mod page;
mod policy;
mod printed;
mod report;
mod rows;
mod scheduler;
mod simulation;
mod words;
mod worker;
mod world;

use page::Page;
use std::alloc::Global;
use std::io;
use words::Words;

// Plays a story: the words of its setting, and the lines of its events.
fn play(page: &mut Page, words: &mut Words<'_>, events: &str) {
    match words.word() {
        "graph" => graph::play(page, words),
        "copies" => copies::play(page, words.alloc(), events),
        "packet" => packet::play(page, words),
        "grid" => rows::play(page, words, events),
        "scheduler" => scheduler::play(page, words, events),
        "report" => report::play(page, words, events),
        "worker" => worker::play(page, words, events),
        "client" => client::play(page, words, events),
        "world" => world::play(page, words, events),
        "simulation" => simulation::play(page, words),
        "bound" => counted::play_bounds(page, words.alloc(), events),
        "generator" => counted::play_words(page, words.alloc(), events),
        _ => page.line("no such story"),
    }
}

// Prints the note of a story, and plays the story.
fn play_story(page: &mut Page, alloc: Global, story: &str) {
    let (head, events) = story.split_once('\n').unwrap_or((story, ""));
    page.line(head);
    if head.starts_with('#') {
        let (head, events) = events.split_once('\n').unwrap_or((events, ""));
        page.line(head);
        play(page, &mut Words::of(alloc, head), events);
    } else {
        play(page, &mut Words::of(alloc, head), events);
    }
    page.put("\n");
}

fn main(rt: HostRuntime) -> io::Result<()> {
    let text = io::read_to_string(rt.alloc(), rt.reader())?;
    let mut page = Page::new(rt.alloc());
    for story in text.as_str().split("\n\n") {
        play_story(&mut page, rt.alloc(), story);
    }
    print!(rt; "{}", page.as_str())?;
    if page.is_short() {
        println!(rt; "out of memory")?;
    }
    Ok(())
}
