//! Runs of the program over sites in memory.
use crate::calls::faults;
use crate::desk::Desk;
use crate::notes::Notes;
use crate::text::text_of;
use crate::words::{Trouble, Words, split};
use dask_top::{is_run, serial, top};
use io_edge::MemorySite;
use std::alloc::{AllocError, Global};
use std::random::RandomSource;
use std::sync::Wait;
use std::thread::Threads;

/// Runs the whole program over a site, or its one thread, which takes all words but those of a run by threads.
pub fn status<R: Threads + Wait + RandomSource + AllocGlobal + Sync>(
    rt: &R,
    is_serial: bool,
    words: &[String],
    site: &mut MemorySite,
) -> u8 {
    if is_serial {
        return in_one_thread(rt, words, site);
    }
    top(rt, words, site, &Notes::none(rt.alloc()))
}

// Runs the one thread of the program over a site, or the whole program where the words are those of a run by threads.
fn in_one_thread<R: Threads + Wait + RandomSource + AllocGlobal + Sync>(
    rt: &R,
    words: &[String],
    site: &mut MemorySite,
) -> u8 {
    if !is_run(words) {
        return serial(rt.alloc(), words, site);
    }
    top(rt, words, site, &Notes::none(rt.alloc()))
}

/// What the file of a name holds.
fn file_text(alloc: Global, site: &MemorySite, name: &str) -> Result<String, AllocError> {
    match site.file(name) {
        Some(bytes) => text_of(alloc, bytes),
        None => String::from_str(alloc, "none"),
    }
}

/// Both streams and the counts of faults.
pub fn told_streams(alloc: Global, site: &MemorySite) -> Result<String, AllocError> {
    let out = text_of(alloc, site.printed())?;
    let err = text_of(alloc, site.noted())?;
    let [reads, writes, prints, notes] = faults(site);
    format!(in alloc; " out \"{out}\" err \"{err}\" faults {reads} {writes} {prints} {notes}")
}

/// Both streams, the counts of faults, and the file of a name.
pub fn told(alloc: Global, site: &MemorySite, file: &str) -> Result<String, AllocError> {
    let streams = told_streams(alloc, site)?;
    let held = file_text(alloc, site, file)?;
    format!(in alloc; "{streams} {file} {held}")
}

// Runs the program over a site, and tells what came of it.
fn run<R: Threads + Wait + RandomSource + AllocGlobal + Sync>(
    rt: &R,
    is_serial: bool,
    words: &[String],
    file: &str,
    site: &mut MemorySite,
) -> Result<String, AllocError> {
    let status = status(rt, is_serial, words, site);
    let told = told(rt.alloc(), site, file)?;
    format!(in rt.alloc(); " {status}{told}")
}

/// Runs the program over a site: the file that is shown, and the words.
pub fn run_here<R: Print + Threads + Wait + RandomSource + AllocGlobal + Sync>(
    rt: &R,
    is_serial: bool,
    site: &mut MemorySite,
    words: &mut Words,
) -> Result<(), Trouble> {
    let file = words.word();
    let list = split(rt.alloc(), words.rest, ' ')?;
    let told = run(rt, is_serial, &list, file, site)?;
    Ok(print!(rt; "{told}")?)
}

// Runs the program over a new site.
fn run_anew<R: Threads + Wait + RandomSource + AllocGlobal + Sync>(
    rt: &R,
    desk: &Desk,
    is_serial: bool,
    words: &[String],
    file: &str,
) -> Result<String, AllocError> {
    let mut site = desk.site(rt.alloc(), None)?;
    run(rt, is_serial, words, file, &mut site)
}

fn print_again<R: Print>(rt: &R, told: &str, again: &str) -> Result<(), Trouble> {
    if told == again {
        Ok(print!(rt; "\nagain: the same")?)
    } else {
        Ok(print!(rt; "\nagain:{again}")?)
    }
}

/// Runs the program over a new site, and again over another, in one thread where the words allow that: the file that is shown, and
/// the words.
pub fn run_often<R: Print + Threads + Wait + RandomSource + AllocGlobal + Sync>(
    rt: &R,
    desk: &Desk,
    words: &mut Words,
) -> Result<(), Trouble> {
    let file = words.word();
    let list = split(rt.alloc(), words.rest, ' ')?;
    let told = run_anew(rt, desk, false, &list, file)?;
    print!(rt; "{told}")?;
    let again = run_anew(rt, desk, true, &list, file)?;
    print_again(rt, told.as_str(), again.as_str())
}

// Runs the program over a new site, and tells the status and a file.
fn run_for_text<R: Threads + Wait + RandomSource + AllocGlobal + Sync>(
    rt: &R,
    desk: &Desk,
    words: &[String],
    file: &str,
) -> Result<(u8, String), AllocError> {
    let mut site = desk.site(rt.alloc(), None)?;
    let status = status(rt, false, words, &mut site);
    let held = file_text(rt.alloc(), &site, file)?;
    Ok((status, held))
}

/// Runs the program over a new site, and prints the status and a file: the file, and the words.
pub fn run_for_file<R: Print + Threads + Wait + RandomSource + AllocGlobal + Sync>(
    rt: &R,
    desk: &Desk,
    words: &mut Words,
) -> Result<(), Trouble> {
    let file = words.word();
    let list = split(rt.alloc(), words.rest, ' ')?;
    let (status, held) = run_for_text(rt, desk, &list, file)?;
    Ok(print!(rt; " {status} {file} {held}")?)
}
