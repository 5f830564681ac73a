//! Histories of which one entry is spoiled, so that an audit differs.
use cluster_msgs::{Entry, History, Sequence};
use std::alloc::{AllocError, Global};

/// An entry is left out, has lost its message, or has a stamp that is 20 later.
#[derive(Clone, Copy)]
pub enum Way {
    LeftOut,
    Mute,
    Late,
}

/// Which entry is spoiled, counted over all histories as they stand and again from the first behind the last, and how.
#[derive(Clone, Copy)]
pub struct Spoil {
    pub way: Way,
    pub place: u32,
}

/// How many entries there are.
fn count(histories: &[History]) -> u64 {
    let mut count: u64 = 0;
    for history in histories {
        count = count.saturating_add(history.entries.len() as u64);
    }
    count
}

/// The entry as it is spoiled, unless it is left out.
fn spoiled(entry: Entry, way: Way) -> Option<Entry> {
    let Entry {
        stamp,
        event,
        message,
    } = entry;
    match way {
        Way::LeftOut => None,
        Way::Mute => Some(Entry {
            stamp,
            event,
            message: None,
        }),
        Way::Late => Some(Entry {
            stamp: stamp.saturating_add(20),
            event,
            message,
        }),
    }
}

/// The history, of which the entry at a place is spoiled, if there is one at it.
fn spoil_one(
    alloc: Global,
    history: History,
    place: Option<u64>,
    way: Way,
) -> Result<History, AllocError> {
    let History { entries, cut } = history;
    let mut kept = Sequence::new(alloc);
    for (at, entry) in entries.into_vec().into_iter().enumerate() {
        let entry = if place == Some(at as u64) {
            spoiled(entry, way)
        } else {
            Some(entry)
        };
        if let Some(entry) = entry {
            kept.push(entry)?;
        }
    }
    Ok(History { entries: kept, cut })
}

/// The histories, of which one entry is spoiled.
pub fn spoil_one_entry(
    alloc: Global,
    histories: Vec<History>,
    spoil: Spoil,
) -> Result<Vec<History>, AllocError> {
    let mut place = Some(
        (spoil.place as u64)
            .checked_rem(count(&histories))
            .unwrap_or(0),
    );
    let mut all = Vec::new(alloc);
    for history in histories {
        let length = history.entries.len() as u64;
        all.push(spoil_one(alloc, history, place, spoil.way)?)?;
        // the place in the next history, and none once it lay in this one
        place = place.and_then(|place| place.checked_sub(length));
    }
    Ok(all)
}
