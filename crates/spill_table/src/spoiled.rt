//! A disk that gives other bytes than it was given.
ghost use Rattle.spill_table.specs.Views.{spoiled_view};

use io_edge::{Failed, MemoryDisk, SpillDisk};

/// A disk in memory of whose bytes under one key one less is given, and under another the first one changed. It tells
/// nothing of what it holds.
#[derive(Drop)]
pub struct SpoiledDisk {
    pub disk: MemoryDisk,
    pub cut: Option<u32>,
    pub flip: Option<u32>,
}

impl SpillDisk for SpoiledDisk {
    ghost view = { spoiled_view };

    fn put(&mut self, key: u32, bytes: &[u8]) -> Result<(), Failed> {
        self.disk.put(key, bytes)
    }

    fn get(&mut self, key: u32, buf: &mut [u8]) -> Result<usize, Failed> {
        let count = self.disk.get(key, buf)?;
        if self.flip == Some(key) {
            if let Some(first) = buf.first_mut() {
                *first ^= 1;
            }
        }
        if self.cut == Some(key) {
            return Ok(count.saturating_sub(1));
        }
        Ok(count)
    }

    fn delete(&mut self, key: u32) -> Result<(), Failed> {
        self.disk.delete(key)
    }

    fn faults(&self) -> u64 {
        self.disk.faults()
    }
}
