//! The program `cell_table`: plays what lines tell of cells, tickers, ports and histories, and prints what came of it.
//!
//! It stands on `turn_cell` and `node_links`, and nothing stands above it. It carries no promise of its own. A line is a word and its
//! numbers: `turns`; `draw RIGHTS`; `ports CAPACITY COUNT`; `limit BYTES COUNT`.
#![tactic(auto)]

mod drawn;
mod limits;
mod node;
mod posts;
mod turns;

use std::alloc::Global;
use std::io;
use std::str::SplitWhitespace;
use std::sync::Wait;

// The next number of a line, or 0.
fn number(words: &mut SplitWhitespace) -> u32 {
    match words.next() {
        Some(word) => word.parse::<u32>().unwrap_or(0),
        None => 0,
    }
}

fn play<R: Print + Wait>(rt: &R, alloc: Global, line: &str) -> io::Result<()> {
    println!(rt; "{line}")?;
    let mut words = line.split_whitespace();
    let word = words.next().unwrap_or("");
    let first = number(&mut words);
    let second = number(&mut words);
    match word {
        "turns" => turns::play(rt, alloc),
        "draw" => drawn::play(rt, alloc, first),
        "ports" => posts::play(rt, alloc, first, second),
        "limit" => limits::play(rt, alloc, first, second),
        _ => println!(rt; "no such line"),
    }
}

fn main(rt: HostRuntime) -> io::Result<()> {
    let text = io::read_to_string(rt.alloc(), rt.reader())?;
    for line in text.as_str().lines() {
        play(&rt, rt.alloc(), line)?;
    }
    Ok(())
}
