//! The program `runner_table`: plays small jobs by a cluster of threads as lines tell, and prints what came of each, which is the same whatever the
//! threads do.
//!
//! It stands on `node_runner` and `journal_audit`, and nothing stands above it. A line is `sum` or `shared`, `LEAVES WORKERS THREADS CAPACITY`, and words:
//! `lose:W@N`, `suspect:W@N`, `join@N`, `want:KEY`, `saturation:N`, `allowed:N`, `zero:KEY`, `short:W`, `fail:W`, `hungry:W`, `work:N`, `slow:N`;
//! `meet:N`, which holds each task until N have started; and `journal`, which prints the entries of all nodes besides, with their report and their
//! audit. These are others in each run. `leave:N`, `mute:N` and `late:N` spoil one of these entries before.
#![tactic(auto)]

mod asked;
mod events;
mod gates;
mod journal;
mod messages;
mod name;
mod page;
mod play;
mod results;
mod spoils;
mod sums;

use page::Page;
use std::alloc::{AllocGlobal, Global};
use std::io;
use std::random::RandomSource;
use std::sync::Wait;
use std::thread::Threads;

fn play_line<R: Threads + Wait + RandomSource + AllocGlobal + Sync>(
    rt: &R,
    alloc: Global,
    page: &mut Page,
    line: &str,
) {
    page.line(line);
    match asked::read(alloc, line) {
        Some(asked) => {
            play::play(rt, alloc, page, &asked);
            drop(asked);
        }
        None => page.line("no such line"),
    }
}

fn main(rt: HostRuntime) -> io::Result<()> {
    let text = io::read_to_string(rt.alloc(), rt.reader())?;
    let mut page = Page::new(rt.alloc());
    for line in text.as_str().lines() {
        play_line(&rt, rt.alloc(), &mut page, line);
    }
    print!(rt; "{}", page.as_str())?;
    if page.is_short() {
        println!(rt; "no memory")?;
    }
    Ok(())
}
