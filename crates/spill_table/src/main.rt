//! The program `spill_table`: plays what lines tell of a store of blocks, and prints what came of it.
//!
//! It stands on `spill_store`, and nothing stands above it. It carries no promise of its own. A line is a limit in bytes, the
//! words of a disk, `:` and the words of calls; the README tells them.
#![tactic(auto)]

mod calls;
mod spoiled;
mod words;

use spill_store::SpillStore;
use spoiled::SpoiledDisk;
use std::alloc::Global;
use std::io;

fn play_at<R: Print>(
    rt: &R,
    alloc: Global,
    limit: u64,
    disk: Option<SpoiledDisk>,
    text: &str,
) -> io::Result<()> {
    match SpillStore::new(alloc, disk, limit) {
        Ok(store) => calls::play(rt, alloc, store, text),
        Err(_) => println!(rt; "no memory"),
    }
}

fn play<R: Print>(rt: &R, alloc: Global, line: &str) -> io::Result<()> {
    println!(rt; "{line}")?;
    let (head, text) = line.split_once(':').unwrap_or((line, ""));
    let (limit, disk) = head.split_once(' ').unwrap_or((head, ""));
    let limit = words::number(limit) as u64;
    match words::disk(alloc, disk) {
        Ok(disk) => play_at(rt, alloc, limit, disk, text),
        Err(_) => println!(rt; "no memory"),
    }
}

fn main(rt: HostRuntime) -> io::Result<()> {
    for line in rt.lines(rt.alloc()) {
        let line = line?;
        play(&rt, rt.alloc(), line.as_str())?;
    }
    Ok(())
}
