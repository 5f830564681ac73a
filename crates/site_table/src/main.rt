//! The program `site_table`: makes sites of the files and the failing calls that lines describe, calls them and runs the
//! program over them, and prints what came of it.
//!
//! It stands on `dask_top`, `io_edge`, `npy_region` and `plain_block`, and nothing stands above it. It carries no promise of
//! its own: what it prints is compared with what NumPy and the tables of `docs/PROGRAM.md` give. `tools/site_table.py` writes
//! the lines and what is wanted.
#![tactic(auto)]

mod arrays;
mod block;
mod calls;
mod desk;
mod disk;
mod failing;
mod noted;
mod notes;
mod places;
mod runs;
mod say;
mod spills;
mod text;
mod words;

use block::print_block;
use calls::call;
use desk::Desk;
use failing::{fail_each, run_for_part};
use io_edge::{MemorySite, RealSite, Site};
use noted::run_noted;
use places::{change, counts, put_any, show, texts};
use runs::{run_for_file, run_here, run_often};
use say::say_word;
use std::io;
use std::random::RandomSource;
use std::rt::Files;
use std::sync::Wait;
use std::thread::Threads;
use words::{Trouble, Words, place};

// Answers a line that runs the program.
fn answer_run<R: Print + Files + Threads + Wait + RandomSource + AllocGlobal + Sync>(
    rt: &R,
    desk: &Desk,
    site: &mut MemorySite,
    name: &str,
    words: &mut Words,
) -> Result<(), Trouble> {
    match place(
        name,
        &[
            "top", "serial", "often", "saved", "fail", "failany", "partly", "noted",
        ],
    ) {
        0 => run_here(rt, false, site, words),
        1 => run_here(rt, true, site, words),
        2 => run_often(rt, desk, words),
        3 => run_for_file(rt, desk, words),
        4 => fail_each(rt, desk, words, false),
        5 => fail_each(rt, desk, words, true),
        6 => run_for_part(rt, desk, words),
        7 => run_noted(rt, desk, words),
        _ => call(rt, rt.alloc(), site, name, words),
    }
}

// Answers a line that calls the real site.
fn answer_really<R: Print + Files + AllocGlobal, S: Site>(
    rt: &R,
    real: &mut S,
    words: &mut Words,
) -> Result<(), Trouble> {
    let name = words.word();
    say_word(rt, name)?;
    call(rt, rt.alloc(), real, name, words)
}

// Answers a line on which something is printed.
fn answer_name<R: Print + Files + Threads + Wait + RandomSource + AllocGlobal + Sync, S: Site>(
    rt: &R,
    desk: &Desk,
    site: &mut MemorySite,
    real: &mut S,
    name: &str,
    words: &mut Words,
) -> Result<(), Trouble> {
    match place(
        name,
        &["real", "texts", "show", "block", "counts", "putany"],
    ) {
        0 => answer_really(rt, real, words),
        1 => texts(rt),
        2 => show(rt, rt.alloc(), site, words),
        3 => print_block(rt, rt.alloc(), desk, site, words),
        4 => counts(rt, site, words),
        5 => put_any(rt, site, words),
        _ => answer_run(rt, desk, site, name, words),
    }
}

// Answers a line. One that begins with `#` stands for itself.
fn answer<R: Print + Files + Threads + Wait + RandomSource + AllocGlobal + Sync, S: Site>(
    rt: &R,
    desk: &mut Desk,
    site: &mut MemorySite,
    real: &mut S,
    line: &str,
) -> Result<(), Trouble> {
    let mut words = Words { rest: line };
    let name = words.word();
    if name == "#" {
        return Ok(println!(rt; "{line}")?);
    }
    if change(rt, rt.alloc(), desk, site, name, &mut words)? {
        return Ok(());
    }
    print!(rt; "{name}:")?;
    answer_name(rt, desk, site, real, name, &mut words)?;
    Ok(println!(rt; "")?)
}

fn print_trouble<R: Print>(rt: &R, trouble: Trouble) -> io::Result<()> {
    let text = match trouble {
        Trouble::Ill => "ill line",
        Trouble::OutOfMemory => "out of memory",
        Trouble::Output => "a file or the output failed",
    };
    println!(rt; " {text}")
}

fn answer_all<
    R: Print + Input + Files + Threads + Wait + RandomSource + AllocGlobal + Sync,
    S: Site,
>(rt: &R, desk: &mut Desk, site: &mut MemorySite, real: &mut S) -> io::Result<()> {
    for line in rt.lines(rt.alloc()) {
        let line = line?;
        if let Err(trouble) = answer(rt, desk, site, real, line.as_str()) {
            print_trouble(rt, trouble)?;
        }
    }
    Ok(())
}

fn main(rt: HostRuntime) -> io::Result<()> {
    let mut desk = Desk::new(rt.alloc());
    let mut real = RealSite::new(rt.alloc(), &rt, rt.stdout(), rt.stderr());
    match desk.site(rt.alloc(), None) {
        Ok(mut site) => answer_all(&rt, &mut desk, &mut site, &mut real),
        Err(_) => println!(rt; "out of memory"),
    }
}
