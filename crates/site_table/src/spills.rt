//! The disks for workers' blocks of any site.
use crate::disk::{disk, look};
use crate::say::{say, say_bytes};
use crate::text::bytes_of;
use crate::words::{Trouble, Words, number, place, split};
use io_edge::{OpenFault, Site, SpillDisk};
use std::alloc::Global;
use std::rt::Files;

// The most calls in a line.
const CALLS: usize = 64;

// Puts bytes under a key.
fn put<R: Print, D: SpillDisk>(
    rt: &R,
    alloc: Global,
    spill: &mut D,
    key: u32,
    words: &mut Words,
) -> Result<(), Trouble> {
    let bytes = bytes_of(alloc, words.word())?;
    say(rt, spill.put(key, &bytes).map(|()| "done"))
}

// Gets the front of a key's bytes: how many are wanted.
fn get<R: Print, D: SpillDisk>(
    rt: &R,
    alloc: Global,
    spill: &mut D,
    key: u32,
    words: &mut Words,
) -> Result<(), Trouble> {
    let count = words.below(64)? as usize;
    let mut buf = [0u8; 64];
    let answer = spill.get(key, &mut buf[..count]);
    say_bytes(rt, alloc, &buf[..count], answer)
}

// One call of a disk: a key, and what the call takes.
fn call_disk<R: Print, D: SpillDisk>(
    rt: &R,
    alloc: Global,
    spill: &mut D,
    call: &str,
    words: &mut Words,
) -> Result<(), Trouble> {
    let key = words.below(u32::MAX as u64)? as u32;
    match place(call, &["put", "get", "delete"]) {
        0 => put(rt, alloc, spill, key, words),
        1 => get(rt, alloc, spill, key, words),
        2 => say(rt, spill.delete(key).map(|()| "done")),
        _ => Err(Trouble::Ill),
    }
}

// One call of the disk with a place among these, or what another program does and sees meanwhile.
fn call_at<R: Print + Files, D: SpillDisk>(
    rt: &R,
    alloc: Global,
    spills: &mut [D],
    call: &str,
    words: &mut Words,
) -> Result<(), Trouble> {
    match place(call, &["disk", "look"]) {
        0 => return disk(rt, alloc, words),
        1 => return look(rt, words),
        _ => {}
    }
    let at = words.below(63)? as usize;
    match spills.get_mut(at) {
        Some(spill) => call_disk(rt, alloc, spill, call, words),
        None => Err(Trouble::Ill),
    }
}

fn call_often<R: Print + Files, D: SpillDisk>(
    rt: &R,
    alloc: Global,
    spills: &mut [D],
    words: &mut Words,
) -> Result<(), Trouble> {
    for _ in 0..CALLS {
        let call = words.word();
        if call.is_empty() {
            break;
        }
        call_at(rt, alloc, spills, call, words)?;
    }
    Ok(())
}

fn worker_of(word: &str) -> Result<u32, Trouble> {
    let worker = number(word)?;
    if worker > u32::MAX as u64 {
        return Err(Trouble::Ill);
    }
    Ok(worker as u32)
}

// Asks for a disk for each of these workers.
fn ask<R: Print, S: Site>(
    rt: &R,
    alloc: Global,
    site: &mut S,
    workers: &[String],
) -> Result<Vec<S::Spill>, Trouble> {
    let mut spills = Vec::new(alloc);
    for worker in workers {
        match site.spill(alloc, worker_of(worker.as_str())?) {
            Ok(spill) => spills.push(spill)?,
            Err(fault) => say(rt, Err::<u64, OpenFault>(fault))?,
        }
    }
    Ok(spills)
}

// Gives the disks back, and prints the count of faults of each.
fn give_all<R: Print, S: Site>(rt: &R, site: &mut S, spills: Vec<S::Spill>) -> Result<(), Trouble> {
    for spill in spills {
        print!(rt; " faults {}", spill.faults())?;
        site.give_spill(spill);
    }
    Ok(())
}

/// Asks for disks, for workers whose numbers stand between commas, makes the calls that follow, and gives the disks back.
pub fn spill<R: Print + Files, S: Site>(
    rt: &R,
    alloc: Global,
    site: &mut S,
    words: &mut Words,
) -> Result<(), Trouble> {
    let workers = split(alloc, words.word(), ',')?;
    let mut spills = ask(rt, alloc, site, &workers)?;
    let told = call_often(rt, alloc, spills.as_mut_slice(), words);
    let given = give_all(rt, site, spills);
    told?;
    given
}
