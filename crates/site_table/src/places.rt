//! What lines change, and what they show of a site in memory.
use crate::desk::Desk;
use crate::disk::disk;
use crate::runs::told;
use crate::text::bytes_of;
use crate::words::{Trouble, Words, place};
use io_edge::{Failed, Gate, MemorySite, OpenFault, Point, RealGate};
use std::alloc::Global;
use std::rt::Files;

// Puts a file into a site: a name, and bytes up to the end of the line.
fn put(alloc: Global, site: &mut MemorySite, words: &mut Words) -> Result<(), Trouble> {
    let name = words.word();
    let bytes = bytes_of(alloc, words.rest)?;
    Ok(site.put(alloc, name, &bytes)?)
}

// Makes a new site.
fn renew(
    alloc: Global,
    desk: &mut Desk,
    site: &mut MemorySite,
    words: &mut Words,
) -> Result<(), Trouble> {
    desk.set(alloc, words)?;
    *site = desk.site(alloc, None)?;
    Ok(())
}

/// Changes what a word names, and tells whether it names such a thing.
pub fn change<R: Files>(
    rt: &R,
    alloc: Global,
    desk: &mut Desk,
    site: &mut MemorySite,
    name: &str,
    words: &mut Words,
) -> Result<bool, Trouble> {
    match place(name, &["file", "site", "put", "disk"]) {
        0 => desk.shelve(alloc, words)?,
        1 => renew(alloc, desk, site, words)?,
        2 => put(alloc, site, words)?,
        3 => disk(rt, alloc, words)?,
        _ => return Ok(false),
    }
    Ok(true)
}

/// Shows both streams, the counts of faults and the file of a name.
pub fn show<R: Print>(
    rt: &R,
    alloc: Global,
    site: &MemorySite,
    words: &mut Words,
) -> Result<(), Trouble> {
    let told = told(alloc, site, words.word())?;
    Ok(print!(rt; "{told}")?)
}

/// Shows how often a disk was asked for a worker, and how many puts its disks took.
pub fn counts<R: Print>(rt: &R, site: &MemorySite, words: &mut Words) -> Result<(), Trouble> {
    let worker = words.below(u32::MAX as u64)? as u32;
    let asked = site.asked(worker);
    Ok(print!(rt; " asked {asked} puts {}", site.puts(worker))?)
}

/// Shows how often a disk was asked for a worker, and whether its disks took a put.
pub fn put_any<R: Print>(rt: &R, site: &MemorySite, words: &mut Words) -> Result<(), Trouble> {
    let worker = words.below(u32::MAX as u64)? as u32;
    let some = site.puts(worker) > 0;
    Ok(print!(rt; " asked {} put {some}", site.asked(worker))?)
}

/// Shows the texts of the faults, and passes the gate that does nothing.
pub fn texts<R: Print>(rt: &R) -> Result<(), Trouble> {
    RealGate.at(Point::Started { worker: 1, key: 0 });
    RealGate.at(Point::Ended { worker: 1, key: 0 });
    Ok(print!(rt;
        " {Failed}, {}, {}",
        OpenFault::Failed,
        OpenFault::OutOfMemory
    )?)
}
