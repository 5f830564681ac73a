//! Real files that are created: their bytes go beside the name, and take it once all of them are there.

use crate::{Failed, Lock, Lockable};
use std::alloc::{AllocError, Global};
use std::fs::{OpenFile, OpenOptions};
use std::io::ErrorKind;
use std::os::unix::fs::{FileTypeExt, MetadataExt};
use std::rt::Files;
use std::{fs, io};

// How many names beside a target are tried.
const PARTS: u32 = 16;

/// A file beside the name that it is to take. While it is open its lock is held, so that it isn't taken for one that was left.
#[derive(Drop)]
pub(crate) struct Part<R> {
    rt: R,
    name: String,
    // the name that it takes, links followed
    target: String,
    // how many of its bytes are still to come
    left: u64,
}

impl<R: Files + Drop> Part<R> {
    /// So many bytes more were written. Once all are, the file takes its name, and that is answered.
    pub(crate) fn count(&mut self, written: usize) -> Result<bool, Failed> {
        self.left = self.left.saturating_sub(written as u64);
        if self.left > 0 {
            return Ok(false);
        }
        match fs::rename(&self.rt, self.name.as_str(), self.target.as_str()) {
            Ok(()) => Ok(true),
            Err(_) => Err(Failed),
        }
    }

    /// Removes the file, which isn't whole.
    pub(crate) fn remove(self) {
        let _ = fs::remove_file(&self.rt, self.name.as_str());
    }
}

/// A real file that is open to be written, and what it is beside its name, if it doesn't have it yet. What is no regular
/// file, as a device or a pipe, is a stream: it takes bytes in their order alone, and has got so many.
#[derive(Drop)]
pub(crate) struct Opened<R, F> {
    pub(crate) file: F,
    pub(crate) part: Option<Part<R>>,
    pub(crate) stream: Option<u64>,
}

impl<R: Files + Drop, F: Drop> Opened<R, F> {
    /// Closes the file. What isn't whole is removed before that, while its lock is held.
    pub(crate) fn end(self) {
        let Opened { file, part, .. } = self;
        if let Some(part) = part {
            part.remove();
        }
        drop(file);
    }
}

// The name that a file takes which is created as `name`, links followed. There is none where something else than a
// regular file has the name: that is written in place.
fn target_of<R: Files>(alloc: Global, rt: &R, name: &str) -> Result<Option<String>, AllocError> {
    let Ok(there) = fs::symlink_metadata(rt, name) else {
        return Ok(Some(String::from_str(alloc, name)?));
    };
    if there.is_file() {
        return Ok(Some(String::from_str(alloc, name)?));
    }
    if !there.is_symlink() {
        return Ok(None);
    }
    match (fs::metadata(rt, name), rt.canonicalize(alloc, name)) {
        (Ok(there), Ok(path)) if there.is_file() => Ok(Some(path.into_string())),
        _ => Ok(None),
    }
}

// Whether the name is that of this open file.
fn has_name<R: Files>(rt: &R, file: &R::File, name: &str) -> bool {
    match (file.metadata(), fs::symlink_metadata(rt, name)) {
        (Ok(own), Ok(there)) => own.dev() == there.dev() && own.ino() == there.ino(),
        _ => false,
    }
}

// Removes the part of this name where a program that was ended left it: nobody holds its lock.
fn clear_part<R: Files>(rt: &R, name: &str)
where
    R::File: Lockable,
{
    let is_regular = matches!(&fs::symlink_metadata(rt, name), Ok(there) if there.is_file());
    if !is_regular {
        return;
    }
    // some file systems lock only what is open to be written, and what has the permissions of a target may not be
    let opened = match OpenOptions::new().write(true).open(rt, name) {
        Ok(file) => Ok(file),
        Err(_) => fs::open(rt, name),
    };
    let Ok(file) = opened else {
        return;
    };
    if let Lock::Held = file.try_to_lock() {
        if has_name(rt, &file, name) {
            let _ = fs::remove_file(rt, name);
        }
    }
}

// Whether no name leads to an open file any more. What tells no number tells no names either.
fn is_removed<F: OpenFile>(file: &F) -> bool {
    matches!(&file.metadata(), Ok(own) if own.ino() > 0 && own.nlink() == 0)
}

// Creates a file and takes its lock. There is none where another program took it for one that was left.
fn create_locked<R: Files>(rt: &R, name: &str) -> io::Result<Option<R::File>>
where
    R::File: Lockable,
{
    let file = OpenOptions::new()
        .write(true)
        .create_new(true)
        .open(rt, name)?;
    match file.try_to_lock() {
        Lock::Taken => Ok(None),
        Lock::Held | Lock::Unknown => Ok((!is_removed(&file)).then_some(file)),
    }
}

// The name of a part of this number.
fn name_part(alloc: Global, stem: &str, number: u32) -> Result<String, AllocError> {
    format!(in alloc; "{stem}.{number}.part")
}

// Removes what was left of parts with this stem.
fn clear_parts<R: Files>(alloc: Global, rt: &R, stem: &str) -> Result<(), AllocError>
where
    R::File: Lockable,
{
    for number in 0..PARTS {
        let name = name_part(alloc, stem, number)?;
        clear_part(rt, name.as_str());
    }
    Ok(())
}

// Creates a part with this stem. There is none where that can't be had.
fn create_first<R: Files>(
    alloc: Global,
    rt: &R,
    stem: &str,
) -> Result<Option<(R::File, String)>, AllocError>
where
    R::File: Lockable,
{
    for number in 0..PARTS {
        let name = name_part(alloc, stem, number)?;
        match create_locked(rt, name.as_str()) {
            Ok(Some(file)) => return Ok(Some((file, name))),
            Ok(None) => {}
            Err(e) if e.kind() == ErrorKind::AlreadyExists => {}
            Err(_) => return Ok(None),
        }
    }
    Ok(None)
}

// A number that differs from name to name, as good as always (FNV-1a).
fn digest(name: &str) -> u64 {
    let mut digest = 0xcbf29ce484222325u64;
    for byte in name.bytes() {
        digest = (digest ^ u64::from(byte)).wrapping_mul(0x100000001b3);
    }
    digest
}

// A short stem in the folder of a target, whose own name may leave no room for the end of a part's.
fn short_stem(alloc: Global, target: &str) -> Result<String, AllocError> {
    match target.rsplit_once('/') {
        Some((folder, name)) => format!(in alloc; "{folder}/.dask-{:016x}", digest(name)),
        None => format!(in alloc; ".dask-{:016x}", digest(target)),
    }
}

// Creates a file beside the target. What was left of others is removed before. There is none where that can't be had.
fn create_part<R: Files>(
    alloc: Global,
    rt: &R,
    target: &str,
) -> Result<Option<(R::File, String)>, AllocError>
where
    R::File: Lockable,
{
    clear_parts(alloc, rt, target)?;
    let made = create_first(alloc, rt, target)?;
    if made.is_some() {
        return Ok(made);
    }
    let stem = short_stem(alloc, target)?;
    clear_parts(alloc, rt, stem.as_str())?;
    create_first(alloc, rt, stem.as_str())
}

// Opens a pipe to be written. Its opening would wait for a reader, so one of this program's own is there for that time;
// where no other is, the first write fails.
fn open_pipe<R: Files>(rt: &R, name: &str) -> io::Result<R::File> {
    let reader = OpenOptions::new().read(true).write(true).open(rt, name)?;
    let file = fs::create(rt, name);
    drop(reader);
    file
}

// Opens what has the name to be written, or makes it.
fn open_there<R: Files>(rt: &R, name: &str) -> io::Result<R::File> {
    match fs::metadata(rt, name) {
        Ok(there) if there.file_type().is_fifo() => open_pipe(rt, name),
        _ => fs::create(rt, name),
    }
}

// Opens what has the name, or makes it, and gives it the length where it is a regular file.
fn open_in_place<R: Files>(rt: &R, name: &str, len: u64) -> Option<Opened<R, R::File>> {
    let Ok(file) = open_there(rt, name) else {
        return None;
    };
    let stream = match file.metadata() {
        Ok(there) if !there.is_file() => Some(0),
        Ok(_) if file.set_len(len).is_ok() => None,
        _ => return None,
    };
    Some(Opened {
        file,
        part: None,
        stream,
    })
}

// Gives a part its length and the permissions of what has the name. It is removed where it can't have that length.
fn begin_part<R: Files + Drop>(file: R::File, part: Part<R>) -> Option<Opened<R, R::File>> {
    if file.set_len(part.left).is_err() {
        part.remove();
        return None;
    }
    if let Ok(there) = fs::metadata(&part.rt, part.target.as_str()) {
        let _ = file.set_permissions(there.permissions());
    }
    Some(Opened {
        file,
        part: Some(part),
        stream: None,
    })
}

/// Opens a file of this many bytes to be written: beside its name where that can be had, else in place. There is none
/// where neither can. All memory is taken before anything is created.
pub(crate) fn open_output<R: Files + Copy + Drop>(
    alloc: Global,
    rt: &R,
    name: &str,
    len: u64,
) -> Result<Option<Opened<R, R::File>>, AllocError>
where
    R::File: Lockable,
{
    if len > 0 {
        if let Some(target) = target_of(alloc, rt, name)? {
            if let Some((file, name)) = create_part(alloc, rt, target.as_str())? {
                let part = Part {
                    rt: *rt,
                    name,
                    target,
                    left: len,
                };
                return Ok(begin_part(file, part));
            }
        }
    }
    Ok(open_in_place(rt, name, len))
}
