//! The stores and files of the site in memory.
ghost use Rattle.std.specs.Prelude.{◌<◌, ◌+◌, map, string_bytes};
ghost use Rattle.io_edge.specs.Content.{Told, Reads};

use crate::script::{Kind, Most, Script};
use crate::transcript::Transcript;
use crate::{Failed, OutFile, Store};
use std::alloc::Global;
use std::sync::Arc;

/// Files in memory, opened to be read: a copy of what they held then.
#[derive(Drop)]
pub struct MemoryStore {
    pub(crate) files: Vec<Vec<u8>>,
    pub(crate) faults: u64,
    /// How often the site had been asked for a store before.
    pub(crate) place: u64,
    pub(crate) lengths: u64,
    pub(crate) reads: u64,
    pub(crate) gave: Transcript,
    pub(crate) most: Most,
    pub(crate) script: Arc<Script, Global>,
}

// Copies what there is from an offset on, at most this many bytes.
fn copy_from(bytes: &[u8], offset: u64, buf: &mut [u8], most: Most) -> usize
    ensures { Reads (Told bytes.now) offset buf.old buf.new result }
{
    if offset >= bytes.len() as u64 {
        return 0;
    }
    let rest = &bytes[offset as usize..];
    let count = rest.len().min(buf.len()).min(most.bytes);
    buf[..count].copy_from_slice(&rest[..count]);
    count
}

impl Store for MemoryStore {
    ghost files = { λ s. map (λ v. Told v.items) s.files.items };

    ghost names = { λ s. s.gave.names };

    ghost gave = { λ s. s.gave.pieces };

    ghost count = { λ s. s.faults };

    fn len(&mut self, file: u32) -> Result<u64, Failed> {
        let refused = self.script.refuses(Kind::Length, self.place, self.lengths);
        self.lengths = self.lengths.saturating_add(1);
        if refused {
            self.faults = self.faults.saturating_add(1);
            return Err(Failed);
        }
        let size = self.files[file as usize].len() as u64;
        self.gave.note(&[file as u64, size, 0], &[]);
        Ok(size)
    }

    fn read_at(&mut self, file: u32, offset: u64, buf: &mut [u8]) -> Result<usize, Failed> {
        let refused = self.script.refuses(Kind::Read, self.place, self.reads);
        self.reads = self.reads.saturating_add(1);
        if refused {
            self.faults = self.faults.saturating_add(1);
            return Err(Failed);
        }
        let bytes = &self.files[file as usize];
        let size = bytes.len() as u64;
        let count = copy_from(bytes.as_slice(), offset, buf, self.most);
        self.gave.note(&[file as u64, size, offset], &buf[..count]);
        Ok(count)
    }

    fn faults(&self) -> u64 {
        self.faults
    }
}

/// A created file in memory. It has its whole room from its making.
#[derive(Drop)]
pub struct MemoryFile {
    pub(crate) name: String,
    pub(crate) bytes: Vec<u8>,
    pub(crate) faults: u64,
    /// How often the site had been asked for a file before.
    pub(crate) place: u64,
    pub(crate) writes: u64,
    pub(crate) most: Most,
    pub(crate) script: Arc<Script, Global>,
}

impl OutFile for MemoryFile {
    ghost content = { λ f. Told f.bytes.items };

    ghost named = { λ f. string_bytes f.name };

    ghost count = { λ f. f.faults };

    fn write_at(&mut self, offset: u64, bytes: &[u8]) -> Result<usize, Failed> {
        let refused = self.script.refuses(Kind::Write, self.place, self.writes);
        self.writes = self.writes.saturating_add(1);
        if refused {
            self.faults = self.faults.saturating_add(1);
            return Err(Failed);
        }
        let at = offset as usize;
        let count = bytes.len().min(self.most.bytes);
        self.bytes[at..at + count].copy_from_slice(&bytes[..count]);
        Ok(count)
    }

    fn faults(&self) -> u64 {
        self.faults
    }
}
