//! Runs of the program whose started and ended tasks are counted, held against what it printed.
use crate::desk::Desk;
use crate::notes::Notes;
use crate::runs::status;
use crate::words::{Trouble, Words, split};
use dask_top::top;
use io_edge::MemorySite;
use std::random::RandomSource;
use std::sync::Wait;
use std::thread::Threads;

// Workers and keys that are counted.
const WORKERS: usize = 65;

const KEYS: usize = 64;

// The number behind a name, on the line that begins with it.
fn count_of(text: &str, name: &str) -> Option<u64> {
    for line in text.lines() {
        if let Some((what, number)) = line.rsplit_once(' ') {
            if what == name {
                return number.parse::<u64>().ok();
            }
        }
    }
    None
}

// The worker and the count of a line `worker W started N`.
fn started(line: &str) -> Option<(usize, u64)> {
    let mut words = line.split_whitespace();
    if words.next()? != "worker" {
        return None;
    }
    let worker = words.next()?.parse::<usize>().ok()?;
    if words.next()? != "started" {
        return None;
    }
    Some((worker, words.next()?.parse::<u64>().ok()?))
}

// Whether each worker's line has as many starts as were noted, their sum is that of the line `started`, and there are so many
// lines.
fn agrees(text: &str, notes: &Notes, workers: u64) -> bool {
    let mut lines: u64 = 0;
    let mut sum: u64 = 0;
    for line in text.lines() {
        if let Some((worker, count)) = started(line) {
            if notes.starts_of(worker) != count {
                return false;
            }
            lines = lines.saturating_add(1);
            sum = sum.saturating_add(count);
        }
    }
    lines == workers && count_of(text, "started") == Some(sum)
}

// Whether a line is the same in each run.
fn is_fixed(line: &str) -> bool {
    for name in ["saved", "keys", "edges", "losses", "finished", "audit"] {
        if line.starts_with(name) {
            return true;
        }
    }
    false
}

// Prints the lines that are the same in each run.
fn print_fixed<R: Print>(rt: &R, printed: &str) -> Result<(), Trouble> {
    for line in printed.lines() {
        if is_fixed(line) {
            print!(rt; "\n{line}")?;
        }
    }
    Ok(())
}

// Prints what of a run with a report is the same whatever its threads do.
fn print_counts<R: Print>(
    rt: &R,
    printed: &str,
    notes: &Notes,
    workers: u64,
) -> Result<(), Trouble> {
    if let Some(keys) = count_of(printed, "keys") {
        print!(rt; "\neach key was started: {}", notes.has_each(keys as usize))?;
        print!(rt; "\neach start has its end: {}", notes.is_even())?;
        let agrees = agrees(printed, notes, workers);
        print!(rt; "\nworkers started what their lines say: {agrees}")?;
    }
    Ok(())
}

// Whether a site has the file that the evaluation of `job.txt` in the calling thread saves.
fn is_plain<R: Threads + Wait + RandomSource + AllocGlobal + Sync>(
    rt: &R,
    desk: &Desk,
    ran: &MemorySite,
    file: &str,
) -> Result<bool, Trouble> {
    let list = split(rt.alloc(), "plain job.txt", ' ')?;
    let mut plain = desk.sound_site(rt.alloc())?;
    let status = status(rt, false, &list, &mut plain);
    match (ran.file(file), plain.file(file)) {
        (Some(one), Some(other)) => Ok(status == 0 && one == other),
        _ => Ok(false),
    }
}

/// Runs the program over a new site: how many workers join in all, the file that is held against that of `plain`, and the words.
pub fn run_noted<R: Print + Threads + Wait + RandomSource + AllocGlobal + Sync>(
    rt: &R,
    desk: &Desk,
    words: &mut Words,
) -> Result<(), Trouble> {
    let workers = words.below(64)?;
    let file = words.word();
    let list = split(rt.alloc(), words.rest, ' ')?;
    let notes = Notes::new(rt.alloc(), WORKERS, KEYS)?;
    let mut site = desk.sound_site(rt.alloc())?;
    let status = top(rt, &list, &mut site, &notes);
    print!(rt; " {status}")?;
    let printed = String::from_utf8_lossy(rt.alloc(), site.printed())?;
    print_fixed(rt, printed.as_str())?;
    print_counts(rt, printed.as_str(), &notes, workers)?;
    let is_plain = is_plain(rt, desk, &site, file)?;
    Ok(print!(rt; "\nthe file is that of plain: {is_plain}")?)
}
