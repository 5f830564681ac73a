//! Real disks for workers' blocks: one file for each, which is made at the first put and has no name from then on, so that
//! nothing stays of it however the program ends. They tell nothing of what they hold.
ghost use Rattle.std.specs.Prelude.{◌≡◌, IfOk, OnOk};
ghost use Rattle.io_edge.specs.Cause.{HasCause};
ghost use Rattle.io_edge.specs.Real.{untold_disk};

use crate::slots::Slots;
use crate::{Failed, SpillDisk};
use std::alloc::{AllocError, Global};
use std::fs;
use std::fs::{OpenFile, OpenOptions};
use std::io::ErrorKind;
use std::os::unix::fs::{FileExt, OpenOptionsExt};
use std::rt::Files;

// How many names of a file are tried.
const NAMES: u32 = 256;

/// A file without a name, or with the one that could not be taken from it.
#[derive(Drop)]
struct Nameless<F> {
    file: F,
    name: Option<String>,
}

// The name that the file of a worker's disk has for a moment.
fn name_file(alloc: Global, folder: &str, worker: u32, number: u32) -> Result<String, AllocError> {
    if folder.is_empty() {
        return format!(in alloc; ".dask-spill-{worker}-{number}");
    }
    format!(in alloc; "{folder}/.dask-spill-{worker}-{number}")
}

// Takes the name from a file that was just made, and answers the name where that can't be done.
fn unlink<R: Files>(rt: &R, name: String) -> Option<String> {
    match fs::remove_file(rt, name.as_str()) {
        Ok(()) => None,
        Err(e) if e.kind() == ErrorKind::NotFound => None,
        Err(_) => Some(name),
    }
}

// Removes an empty file: it is of a program that was ended between making it and taking its name, or is about to take it.
fn clear<R: Files>(rt: &R, name: &str) {
    let is_empty =
        matches!(&fs::symlink_metadata(rt, name), Ok(there) if there.is_file() && there.len() == 0);
    if is_empty {
        let _ = fs::remove_file(rt, name);
    }
}

// Makes the file of a worker's disk, which only its owner may open while it has a name.
fn create_file<R: Files>(
    alloc: Global,
    rt: &R,
    folder: &str,
    worker: u32,
) -> Result<Nameless<R::File>, Failed> {
    let mut how = OpenOptions::new();
    how.read(true).write(true).create_new(true).mode(0o600);
    for number in 0..NAMES {
        let Ok(name) = name_file(alloc, folder, worker, number) else {
            return Err(Failed);
        };
        match how.open(rt, name.as_str()) {
            Ok(file) => {
                let name = unlink(rt, name);
                return Ok(Nameless { file, name });
            }
            Err(e) if e.kind() == ErrorKind::AlreadyExists => clear(rt, name.as_str()),
            Err(_) => return Err(Failed),
        }
    }
    Err(Failed)
}

/// A real disk for a worker's blocks.
#[derive(Drop)]
pub struct RealDisk<R: Files> {
    rt: R,
    alloc: Global,
    /// The worker for which the site was asked for it.
    pub(crate) worker: u32,
    /// How many puts went well.
    pub(crate) taken: u64,
    pub(crate) faults: u64,
    // where its file is made, or nothing for the folder of the call
    folder: String,
    file: Option<Nameless<R::File>>,
    slots: Slots,
}

impl<R: Files + Drop> RealDisk<R>
where
    R::File: FileExt,
{
    /// A disk of this worker, with its file in this folder, or in that of the call where the folder has no name.
    pub(crate) fn new(alloc: Global, rt: R, worker: u32, folder: String) -> RealDisk<R>
        ensures { result.faults ≡ 0 }
    {
        RealDisk {
            rt,
            alloc,
            worker,
            taken: 0,
            faults: 0,
            folder,
            file: None,
            slots: Slots::new(alloc),
        }
    }

    // Has the key's slot free again. What is past the last slot is given back to the file system.
    fn release(&mut self, key: u32)
        ensures { self.new.faults ≡ self.old.faults }
    {
        if self.slots.release(key) {
            if let Some(own) = &self.file {
                let _ = own.file.set_len(self.slots.end());
            }
        }
    }

    // Writes a block into a slot of its own, of a key that has none.
    fn write(&mut self, key: u32, bytes: &[u8]) -> Result<(), Failed>
        ensures { self.new.faults ≡ self.old.faults }
    {
        let Some(own) = &self.file else {
            return Err(Failed);
        };
        let Ok(Some(slot)) = self.slots.take(key, bytes.len() as u64) else {
            return Err(Failed);
        };
        match own.file.write_all_at(bytes, slot.at) {
            Ok(()) => Ok(()),
            Err(_) => Err(Failed),
        }
    }

    fn put_block(&mut self, key: u32, bytes: &[u8]) -> Result<(), Failed>
        ensures { self.new.faults ≡ self.old.faults }
    {
        if self.file.is_none() {
            let made = create_file(self.alloc, &self.rt, self.folder.as_str(), self.worker)?;
            self.file = Some(made);
        }
        self.release(key);
        let written = self.write(key, bytes);
        if written.is_err() {
            self.release(key);
        }
        written
    }

    // Reads the front of a block, as much as the buffer takes, and answers the block's length.
    fn get_block(&self, key: u32, buf: &mut [u8]) -> Result<usize, Failed> {
        let (Some(own), Some(slot)) = (&self.file, self.slots.find(key)) else {
            return Err(Failed);
        };
        let count = slot.len.min(buf.len() as u64) as usize;
        match own.file.read_exact_at(&mut buf[..count], slot.at) {
            Ok(()) => Ok(slot.len as usize),
            Err(_) => Err(Failed),
        }
    }

    // Where a call failed, that is counted.
    fn count<T>(&mut self, done: Result<T, Failed>) -> Result<T, Failed>
        ensures result { result ≡ done }
        ensures kept { OnOk result (self.new.faults ≡ self.old.faults) }
        ensures cause { HasCause self.old.faults self.new.faults result }
    {
        if done.is_err() {
            self.faults = self.faults.saturating_add(1);
        }
        done
    }

    /// Gives the disk up. Where its file still has a name, it is removed.
    pub(crate) fn end(self) {
        let RealDisk { rt, file, .. } = self;
        let Some(own) = file else {
            return;
        };
        let Nameless { file, name } = own;
        // it is closed first, since not every file system removes what is open
        drop(file);
        if let Some(name) = name {
            let _ = fs::remove_file(&rt, name.as_str());
        }
    }
}

impl<R: Files + Send + Sync + Drop> SpillDisk for RealDisk<R>
where
    R::File: FileExt + Send + Sync,
{
    ghost view = { λ d. untold_disk d.faults };

    fn put(&mut self, key: u32, bytes: &[u8]) -> Result<(), Failed> {
        let done = self.put_block(key, bytes);
        if done.is_ok() {
            self.taken = self.taken.saturating_add(1);
        }
        self.count(done)
    }

    fn get(&mut self, key: u32, buf: &mut [u8]) -> Result<usize, Failed> {
        let done = self.get_block(key, buf);
        self.count(done)
    }

    fn delete(&mut self, key: u32) -> Result<(), Failed> {
        self.release(key);
        Ok(())
    }

    fn faults(&self) -> u64 {
        self.faults
    }
}
