//! Runs of the program over sites of which one call fails.
use crate::calls::faults;
use crate::desk::{Desk, kind_of};
use crate::runs::{status, told_streams};
use crate::words::{Trouble, Words, split};
use io_edge::{Counted, Kind, MemorySite, Refusal};
use std::alloc::{AllocError, Global};
use std::random::RandomSource;
use std::sync::Wait;
use std::thread::Threads;

// The most calls of a kind that are made to fail in turn.
const CALLS: u64 = 1000;

/// What a run is to save: the name of a file, and what it holds where all of it is there.
#[derive(Drop)]
struct Wanted {
    file: String,
    bytes: Vec<u8>,
}

fn wanted_of(alloc: Global, site: &MemorySite, file: &str) -> Result<Wanted, AllocError> {
    let bytes = site.file(file).unwrap_or(&[]).to_vec(alloc)?;
    let file = String::from_str(alloc, file)?;
    Ok(Wanted { file, bytes })
}

fn undisturbed<R: Threads + Wait + RandomSource + AllocGlobal + Sync>(
    rt: &R,
    desk: &Desk,
    words: &[String],
    file: &str,
) -> Result<Wanted, AllocError> {
    let mut site = desk.sound_site(rt.alloc())?;
    let _ = status(rt, false, words, &mut site);
    wanted_of(rt.alloc(), &site, file)
}

// Whether each byte is the wanted one for its place, or 0.
fn is_in_part(held: &[u8], wanted: &[u8]) -> bool {
    let mut right = held.len() == wanted.len();
    for (byte, other) in held.iter().zip(wanted) {
        right &= *byte == 0 || byte == other;
    }
    right
}

// How much of what is wanted a site has. Whether all of it is told only where that is asked for.
fn state(site: &MemorySite, wanted: &Wanted, asks_whole: bool) -> &'static str {
    match site.file(wanted.file.as_str()) {
        None => "none",
        Some(held) => {
            if asks_whole && held == wanted.bytes.as_slice() {
                "whole"
            } else if is_in_part(held, &wanted.bytes) {
                "in part"
            } else {
                "wrong"
            }
        }
    }
}

/// What came of a run of which a call was to fail, and whether one did.
#[derive(Drop)]
struct Tried {
    told: String,
    failed: bool,
}

fn make_tried(
    alloc: Global,
    site: &MemorySite,
    status: u8,
    wanted: &Wanted,
    any: bool,
) -> Result<Tried, AllocError> {
    let streams = told_streams(alloc, site)?;
    let state = state(site, wanted, !any || status == 0);
    let failed = faults(site) != [0, 0, 0, 0];
    let told = format!(in alloc; " {status}{streams} {} {state}", wanted.file)?;
    Ok(Tried { told, failed })
}

fn run_failing<R: Threads + Wait + RandomSource + AllocGlobal + Sync>(
    rt: &R,
    desk: &Desk,
    kind: Kind,
    call: u64,
    words: &[String],
    wanted: &Wanted,
    any: bool,
) -> Result<Tried, AllocError> {
    let refusal = Refusal {
        kind,
        counted: Counted::OverAll,
        call,
    };
    let mut site = desk.site(rt.alloc(), Some(refusal))?;
    let status = status(rt, false, words, &mut site);
    make_tried(rt.alloc(), &site, status, wanted, any)
}

// Prints what came of a call where it isn't what came of the one before it.
fn print_new<R: Print>(rt: &R, last: &str, told: &str) -> Result<(), Trouble> {
    if told == last {
        Ok(())
    } else if last.is_empty() {
        Ok(print!(rt; "{told}")?)
    } else {
        Ok(print!(rt; "\n{told}")?)
    }
}

// How many calls there are, of a kind whose calls the program promises to count.
fn print_count<R: Print>(rt: &R, kind: Kind, count: u64) -> Result<(), Trouble> {
    if kind == Kind::Open || kind == Kind::Create {
        print!(rt; "\ncount: {count}")?;
    }
    Ok(())
}

/// Runs the program over new sites, of which each call of a kind fails in turn, until none does: the kind, the file that is
/// shown, and the words. What comes of several calls, one after another, stands once. `any` is said of runs whose blocks come in any
/// order: of a file after another status than 0 isn't told whether all of it is there.
pub fn fail_each<R: Print + Threads + Wait + RandomSource + AllocGlobal + Sync>(
    rt: &R,
    desk: &Desk,
    words: &mut Words,
    any: bool,
) -> Result<(), Trouble> {
    let kind = kind_of(words.word())?;
    let file = words.word();
    let list = split(rt.alloc(), words.rest, ' ')?;
    let wanted = undisturbed(rt, desk, &list, file)?;
    let mut last = String::new(rt.alloc());
    for call in 0..CALLS {
        let tried = run_failing(rt, desk, kind, call, &list, &wanted, any)?;
        print_new(rt, last.as_str(), tried.told.as_str())?;
        if !tried.failed {
            return print_count(rt, kind, call);
        }
        last = tried.told;
    }
    Err(Trouble::Ill)
}

// Runs the program over a new site, and tells the status and how a file stands to another one of the site.
fn run_for_state<R: Threads + Wait + RandomSource + AllocGlobal + Sync>(
    rt: &R,
    desk: &Desk,
    words: &[String],
    file: &str,
    other: &str,
) -> Result<(u8, &'static str), AllocError> {
    let mut site = desk.site(rt.alloc(), None)?;
    let bytes = site.file(other).unwrap_or(&[]).to_vec(rt.alloc())?;
    let file = String::from_str(rt.alloc(), file)?;
    let wanted = Wanted { file, bytes };
    let status = status(rt, false, words, &mut site);
    Ok((status, state(&site, &wanted, false)))
}

/// Runs the program over a new site, and prints the status and whether a file has right bytes alone: the file, another one that has
/// all of them, and the words. A byte is right that is the other file's for its place, or 0.
pub fn run_for_part<R: Print + Threads + Wait + RandomSource + AllocGlobal + Sync>(
    rt: &R,
    desk: &Desk,
    words: &mut Words,
) -> Result<(), Trouble> {
    let file = words.word();
    let other = words.word();
    let list = split(rt.alloc(), words.rest, ' ')?;
    let (status, state) = run_for_state(rt, desk, &list, file, other)?;
    Ok(print!(rt; " {status} {file} {state}")?)
}
