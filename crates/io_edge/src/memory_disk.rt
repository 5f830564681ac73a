//! The disks of the site in memory.
ghost use Rattle.std.specs.Prelude.{◌≡◌, ◌≤◌, ◌<◌, IfOk, IsErr};
ghost use Rattle.std.specs.Option.{option_map};
ghost use Rattle.io_edge.specs.Cause.{Rose};
ghost use Rattle.io_edge.specs.Disk.{Copies, new_disk};
ghost use Rattle.io_edge.specs.MemoryDisks.{memory_view};

use crate::script::{Kind, Refusal, Script};
use crate::{Failed, SpillDisk};
use std::alloc::{AllocError, Global};
use std::collections::BTreeMap;
use std::sync::Arc;

/// A disk in memory. It tells all that it holds.
#[derive(Drop)]
pub struct MemoryDisk {
    alloc: Global,
    held: BTreeMap<u32, Vec<u8>>,
    faults: u64,
    /// The worker for which the site was asked for it.
    pub(crate) worker: u32,
    /// How many puts went well.
    pub(crate) taken: u64,
    /// How often the site had been asked for a disk before.
    place: u64,
    puts: u64,
    gets: u64,
    deletes: u64,
    script: Arc<Script, Global>,
}

// Copies as many bytes of the front as fit, and answers how many there are.
fn copy_front(bytes: &[u8], buf: &mut [u8]) -> usize
    ensures { Copies bytes.now buf.old buf.new result }
{
    let count = bytes.len().min(buf.len());
    buf[..count].copy_from_slice(&bytes[..count]);
    bytes.len()
}

impl SpillDisk for MemoryDisk {
    ghost view = { memory_view };

    fn put(&mut self, key: u32, bytes: &[u8]) -> Result<(), Failed> {
        let refused = self.script.refuses(Kind::Put, self.place, self.puts);
        self.puts = self.puts.saturating_add(1);
        if refused {
            return self.fail();
        }
        let Ok(own) = bytes.to_vec(self.alloc) else {
            return self.fail();
        };
        match self.held.insert(key, own) {
            Ok(_) => {
                self.taken = self.taken.saturating_add(1);
                Ok(())
            }
            Err(_) => self.fail(),
        }
    }

    fn get(&mut self, key: u32, buf: &mut [u8]) -> Result<usize, Failed> {
        let refused = self.script.refuses(Kind::Get, self.place, self.gets);
        self.gets = self.gets.saturating_add(1);
        if refused {
            return self.fail();
        }
        match self.held.get(&key) {
            Some(bytes) => Ok(copy_front(bytes.as_slice(), buf)),
            None => Ok(0),
        }
    }

    fn delete(&mut self, key: u32) -> Result<(), Failed> {
        let refused = self.script.refuses(Kind::Delete, self.place, self.deletes);
        self.deletes = self.deletes.saturating_add(1);
        if refused {
            return self.fail();
        }
        self.held.remove(&key);
        Ok(())
    }

    fn faults(&self) -> u64 {
        self.faults
    }
}

impl MemoryDisk {
    /// A disk by itself that holds nothing, and whose calls fail by this list. Its count of faults is 0.
    pub fn new(alloc: Global, refusals: Vec<Refusal>) -> Result<MemoryDisk, AllocError>
        ensures view { IfOk result (λ d. memory_view d ≡ new_disk) }
        ensures refusals { IfOk result (λ d. d.script.value.refusals ≡ refusals) }
    {
        let script = Arc::new(alloc, Script::new(refusals))?;
        Ok(MemoryDisk::made(alloc, 0, 0, script))
    }

    /// A disk that holds nothing, which a site makes for this worker. It has this place among the disks.
    pub(crate) fn made(
        alloc: Global,
        worker: u32,
        place: u64,
        script: Arc<Script, Global>,
    ) -> MemoryDisk
        ensures view { memory_view result ≡ new_disk }
        ensures worker { result.worker ≡ worker }
        ensures taken { result.taken ≡ 0 }
        ensures script { result.script ≡ script }
    {
        MemoryDisk {
            alloc,
            held: BTreeMap::new(alloc),
            faults: 0,
            worker,
            taken: 0,
            place,
            puts: 0,
            gets: 0,
            deletes: 0,
            script,
        }
    }

    /// What it holds under a key. No memory.
    pub fn bytes(&self, key: u32) -> Option<&[u8]>
        ensures { option_map (λ b. b.now) result ≡ (memory_view self.now).held key }
    {
        match self.held.get(&key) {
            Some(bytes) => Some(bytes.as_slice()),
            None => None,
        }
    }

    // A call failed.
    fn fail<T>(&mut self) -> Result<T, Failed>
        ensures held { self.new.held ≡ self.old.held }
        ensures failed { IsErr result }
        ensures rose { Rose self.old.faults self.new.faults }
        ensures later { self.old.faults ≤ self.new.faults }
    {
        self.faults = self.faults.saturating_add(1);
        Err(Failed)
    }
}
