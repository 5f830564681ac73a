//! The words of a line.

use crate::spoiled::SpoiledDisk;
use io_edge::{Counted, Kind, MemoryDisk, Refusal};
use std::alloc::{AllocError, Global};

/// A number, or 0.
pub fn number(word: &str) -> u32 {
    word.parse::<u32>().unwrap_or(0)
}

// What a word tells of a disk.
enum Word {
    Refusal(Refusal),
    Cut(u32),
    Flip(u32),
    Nothing,
}

fn refusal(kind: Kind, call: u32) -> Word {
    Word::Refusal(Refusal {
        kind,
        counted: Counted::OverAll,
        call: call as u64,
    })
}

fn read_word(word: &str) -> Word {
    let (name, place) = word.split_once('@').unwrap_or((word, ""));
    let place = number(place);
    match name {
        "put" => refusal(Kind::Put, place),
        "get" => refusal(Kind::Get, place),
        "delete" => refusal(Kind::Delete, place),
        "cut" => Word::Cut(place),
        "flip" => Word::Flip(place),
        _ => Word::Nothing,
    }
}

/// The disk that these words tell of: none, or one whose calls fail as they say.
pub fn disk(alloc: Global, text: &str) -> Result<Option<SpoiledDisk>, AllocError> {
    let mut refusals = Vec::new(alloc);
    let mut cut = None;
    let mut flip = None;
    let mut found = false;
    for word in text.split_whitespace() {
        match read_word(word) {
            Word::Refusal(refusal) => refusals.push(refusal)?,
            Word::Cut(key) => cut = Some(key),
            Word::Flip(key) => flip = Some(key),
            Word::Nothing => found = found | (word == "disk"),
        }
    }
    if !found {
        return Ok(None);
    }
    let disk = MemoryDisk::new(alloc, refusals)?;
    Ok(Some(SpoiledDisk { disk, cut, flip }))
}
