//! The calls of a line.

use crate::spoiled::SpoiledDisk;
use crate::words::number;
use io_edge::SpillDisk;
use nd_shape::{Block, Shape};
use spill_store::{Digested, Got, LostBy, SpillStore};
use std::alloc::{AllocError, Global};
use std::io;
use std::sync::Arc;

// A block of one axis with so many elements, from 1,000 times the key on.
fn block(alloc: Global, key: u32, count: u32) -> Result<Arc<Block>, AllocError> {
    let count = count.min(1000);
    let shape = Shape::line(alloc, count as u64)?;
    let mut cells = Vec::new(alloc);
    for place in 0..count {
        cells.push(key as i64 * 1000 + place as i64)?;
    }
    Ok(Arc::new(alloc, Block::new(shape, cells))?)
}

fn print_block<R: Print>(rt: &R, block: &Block) -> io::Result<()> {
    let cells = block.cells();
    match (cells.first(), cells.last()) {
        (Some(first), Some(last)) => print!(rt; "found {} from {first} to {last}", cells.len()),
        _ => print!(rt; "found nothing"),
    }
}

fn print_lost<R: Print>(rt: &R, by: LostBy) -> io::Result<()> {
    match by {
        LostBy::Fault => print!(rt; "lost by a fault"),
        LostBy::Length { has, needs } => print!(rt; "lost by length {has} of {needs}"),
        LostBy::Digest { .. } => print!(rt; "lost by digest"),
    }
}

fn print_got<R: Print>(rt: &R, got: Result<Got, AllocError>) -> io::Result<()> {
    match got {
        Ok(Got::Found(block)) => print_block(rt, &block),
        Ok(Got::Absent) => print!(rt; "absent"),
        Ok(Got::Lost(by)) => print_lost(rt, by),
        Err(_) => print!(rt; "no memory"),
    }
}

// Puts a block. Whether that went well.
fn put(alloc: Global, store: &mut SpillStore<SpoiledDisk>, key: u32, count: u32) -> bool {
    match block(alloc, key, count) {
        Ok(block) => store.put(key, block).is_ok(),
        Err(_) => false,
    }
}

// Makes the digest of a block that goes out once so many more bytes come, and hands it to the store. The block's key, if there is one.
fn prepare(alloc: Global, store: &mut SpillStore<SpoiledDisk>, coming: u32) -> Option<u32> {
    let (key, block) = store.next_out(coming as u64)?;
    store.expect(Digested::new(alloc, key, block));
    Some(key)
}

// The key of a block that goes out once so many more bytes come, of which no digest is handed over.
fn given(store: &mut SpillStore<SpoiledDisk>, coming: u32) -> Option<u32> {
    let (key, _) = store.next_out(coming as u64)?;
    Some(key)
}

// Hands the digest of a block to the store. Whether there was memory for the block.
fn hand_over(alloc: Global, store: &mut SpillStore<SpoiledDisk>, key: u32, count: u32) -> bool {
    match block(alloc, key, count) {
        Ok(block) => {
            store.expect(Digested::new(alloc, key, block));
            true
        }
        Err(_) => false,
    }
}

fn print_key<R: Print>(rt: &R, word: &str, key: Option<u32>) -> io::Result<()> {
    match key {
        Some(key) => print!(rt; "{word} {key}"),
        None => print!(rt; "{word} nothing"),
    }
}

fn print_spilled<R: Print>(rt: &R, store: &SpillStore<SpoiledDisk>) -> io::Result<()> {
    print!(rt; "; on the disk")?;
    for key in 0..10 {
        if store.spilled(key) {
            print!(rt; " {key}")?;
        }
    }
    println!(rt; "")
}

fn print_disk<R: Print>(rt: &R, spills: u64, disk: Option<SpoiledDisk>) -> io::Result<()> {
    match disk {
        Some(disk) => {
            print!(rt; "{spills} spills, {} faults, holds", disk.faults())?;
            for key in 0..10 {
                if let Some(bytes) = disk.disk.bytes(key) {
                    print!(rt; " {key}:{}", bytes.len())?;
                }
            }
            println!(rt; "")
        }
        None => println!(rt; "no disk"),
    }
}

fn play_one<R: Print>(
    rt: &R,
    alloc: Global,
    store: &mut SpillStore<SpoiledDisk>,
    word: &str,
) -> io::Result<()> {
    let (name, count) = word.split_once(':').unwrap_or((word, ""));
    if let Some(key) = name.strip_prefix('p') {
        let done = put(alloc, store, number(key), number(count));
        print!(rt; "{word}: put {done}")?;
    } else if let Some(key) = name.strip_prefix('g') {
        let got = store.get(number(key));
        print!(rt; "{word}: ")?;
        print_got(rt, got)?;
    } else if let Some(key) = name.strip_prefix('r') {
        store.remove(number(key));
        print!(rt; "{word}: removed")?;
    } else if let Some(coming) = name.strip_prefix('n') {
        let prepared = prepare(alloc, store, number(coming));
        print!(rt; "{word}: ")?;
        print_key(rt, "prepared", prepared)?;
    } else if let Some(coming) = name.strip_prefix('m') {
        let given = given(store, number(coming));
        print!(rt; "{word}: ")?;
        print_key(rt, "given", given)?;
    } else if let Some(key) = name.strip_prefix('h') {
        let done = hand_over(alloc, store, number(key), number(count));
        print!(rt; "{word}: handed over {done}")?;
    } else if let Some(coming) = name.strip_prefix('a') {
        let awaits = store.awaits(number(coming) as u64);
        print!(rt; "{word}: awaits {awaits}")?;
    } else if let Some(coming) = name.strip_prefix('f') {
        let room = store.has_room(number(coming) as u64);
        print!(rt; "{word}: room {room}")?;
    } else if let Some(key) = name.strip_prefix('w') {
        let away = store.is_away(number(key));
        print!(rt; "{word}: away {away}")?;
    }
    print_spilled(rt, store)
}

/// Plays the calls, and prints what came of each, and in the end how often blocks were put on the disk and what it holds.
pub fn play<R: Print>(
    rt: &R,
    alloc: Global,
    mut store: SpillStore<SpoiledDisk>,
    text: &str,
) -> io::Result<()> {
    for word in text.split_whitespace() {
        play_one(rt, alloc, &mut store, word)?;
    }
    print_disk(rt, store.spills(), store.into_disk())
}
