//! What another program does to a real file, and sees of one.
use crate::text::bytes_of;
use crate::words::{Trouble, Words};
use std::alloc::Global;
use std::fs;
use std::rt::Files;

/// Removes a file, or writes it: its name, and for a write bytes.
pub fn disk<R: Files>(rt: &R, alloc: Global, words: &mut Words) -> Result<(), Trouble> {
    let is_write = words.word() == "write";
    let name = words.word();
    if !is_write {
        return Ok(fs::remove_file(rt, name)?);
    }
    let bytes = bytes_of(alloc, words.word())?;
    Ok(fs::write(rt, name, &bytes)?)
}

/// Prints how long a file is, or that there is a folder of that name or nothing.
pub fn look<R: Print + Files>(rt: &R, words: &mut Words) -> Result<(), Trouble> {
    match fs::metadata(rt, words.word()) {
        Ok(there) if there.is_file() => print!(rt; " {}", there.len())?,
        Ok(_) => print!(rt; " folder")?,
        Err(_) => print!(rt; " none")?,
    }
    Ok(())
}
