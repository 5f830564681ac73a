//! Where blocks lie in a file, and where it is free. Lengths and places are in bytes.

use std::alloc::{AllocError, Global};
use std::collections::{BTreeMap, BTreeSet};

/// A stretch of the file.
#[derive(Clone, Copy)]
pub(crate) struct Slot {
    pub(crate) at: u64,
    pub(crate) len: u64,
}

/// The slots of a file by the keys of their blocks.
#[derive(Drop)]
pub(crate) struct Slots {
    used: BTreeMap<u32, Slot>,
    // the free stretches, lengths by places: none is empty, no two touch, and none is at the end
    free: BTreeMap<u64, u64>,
    // the same, first by lengths
    sizes: BTreeSet<(u64, u64)>,
    // past this nothing lies
    end: u64,
}

impl Slots {
    /// Of an empty file.
    pub(crate) fn new(alloc: Global) -> Slots {
        Slots {
            used: BTreeMap::new(alloc),
            free: BTreeMap::new(alloc),
            sizes: BTreeSet::new(alloc),
            end: 0,
        }
    }

    /// How long the file has to be.
    pub(crate) fn end(&self) -> u64 {
        self.end
    }

    /// The slot of a key.
    pub(crate) fn find(&self, key: u32) -> Option<Slot> {
        self.used.get(&key).copied()
    }

    // Notes a free stretch. Where there is no memory to note it, it is lost until the file is given up.
    fn note(&mut self, free: Slot) {
        if free.len == 0 || self.free.insert(free.at, free.len).is_err() {
            return;
        }
        if self.sizes.insert((free.len, free.at)).is_err() {
            self.free.remove(&free.at);
        }
    }

    fn forget(&mut self, free: Slot) {
        self.free.remove(&free.at);
        self.sizes.remove(&(free.len, free.at));
    }

    // The shortest free stretch that has room for so many bytes.
    fn fitting(&self, len: u64) -> Option<Slot> {
        let (len, at) = *self.sizes.range((len, 0)..).next()?;
        Some(Slot { at, len })
    }

    // The place of so many bytes, which are no longer free: in the shortest stretch that has room, else at the end.
    fn place(&mut self, len: u64) -> Option<u64> {
        let Some(free) = self.fitting(len) else {
            let at = self.end;
            self.end = at.checked_add(len)?;
            return Some(at);
        };
        self.forget(free);
        self.note(Slot {
            at: free.at.saturating_add(len),
            len: free.len.saturating_sub(len),
        });
        Some(free.at)
    }

    /// A slot of so many bytes for a key that has none. There is none where the file would be too long.
    pub(crate) fn take(&mut self, key: u32, len: u64) -> Result<Option<Slot>, AllocError> {
        self.used.insert(key, Slot { at: 0, len: 0 })?;
        let Some(at) = self.place(len) else {
            self.used.remove(&key);
            return Ok(None);
        };
        let slot = Slot { at, len };
        if let Some(own) = self.used.get_mut(&key) {
            *own = slot;
        }
        Ok(Some(slot))
    }

    // The free stretch that ends where this one begins.
    fn before(&self, slot: Slot) -> Option<Slot> {
        let (at, len) = self.free.range(..slot.at).next_back()?;
        let free = Slot { at: *at, len: *len };
        (free.at.checked_add(free.len) == Some(slot.at)).then_some(free)
    }

    // The free stretch that begins where this one ends.
    fn after(&self, slot: Slot) -> Option<Slot> {
        let at = slot.at.checked_add(slot.len)?;
        let len = *self.free.get(&at)?;
        Some(Slot { at, len })
    }

    // Has a stretch free again, as one with those that touch it.
    fn give(&mut self, slot: Slot) {
        let mut whole = slot;
        if let Some(before) = self.before(whole) {
            self.forget(before);
            whole = Slot {
                at: before.at,
                len: before.len.saturating_add(whole.len),
            };
        }
        if let Some(after) = self.after(whole) {
            self.forget(after);
            whole.len = whole.len.saturating_add(after.len);
        }
        if whole.at.saturating_add(whole.len) == self.end {
            self.end = whole.at;
        } else {
            self.note(whole);
        }
    }

    /// The key has no slot any more. Answers whether the file has to be less long than before.
    pub(crate) fn release(&mut self, key: u32) -> bool {
        let end = self.end;
        if let Some(slot) = self.used.remove(&key) {
            if slot.len > 0 {
                self.give(slot);
            }
        }
        self.end < end
    }
}
