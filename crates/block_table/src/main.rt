//! The program `block_table`: answers what the lines of a table ask of blocks.
//!
//! It stands on `chunk_layout`, `task_graph` and `block_lowering`, and nothing stands above it. It carries no promise of its
//! own: what it prints is compared with answers that come from outside. A line is a word that says what is asked and words
//! that say of what, and it is printed before its answer. Each area has a module: `layouts` has the cuts of arrays into
//! blocks, `graphs` the graphs of tasks, `jobs` what jobs are lowered to. A list is written with commas, `()` where it is
//! empty; the axes of a layout are lists with blanks between.
//!
//! `tools/block_table.py` writes the lines and the answers.
#![tactic(auto)]

mod graphs;
mod jobs;
mod layouts;
mod line;
mod why;

use line::Line;
use std::alloc::Global;
use std::io;

// What is asked, by the first word: a module for each area.
fn answer(line: &mut Line) {
    match line.word() {
        "layout" => layouts::answer(line),
        "graph" => graphs::answer(line),
        "job" => jobs::answer(line, true),
        "count" => jobs::answer(line, false),
        _ => line.mark_ill(),
    }
}

// Answers a line by all of its words.
fn take(line: &mut Line) {
    answer(line);
    if !line.is_empty() {
        line.mark_ill();
    }
}

// Prints what a line asks, and the answer.
fn print_answer<R: Print>(rt: &R, alloc: Global, text: &str) -> io::Result<()> {
    let mut line = Line::new(alloc, text);
    take(&mut line);
    match line.why() {
        None => println!(rt; "{text}:{}", line.text()),
        Some(why) => println!(rt; "{text}: {why}"),
    }
}

fn main(rt: HostRuntime) -> io::Result<()> {
    for line in rt.lines(rt.alloc()) {
        let line = line?;
        print_answer(&rt, rt.alloc(), line.as_str())?;
    }
    Ok(())
}
