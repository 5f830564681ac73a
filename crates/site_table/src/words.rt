//! The words of a line, which are taken from the left, and why a line isn't answered.
ghost use Rattle.std.specs.Prelude.{◌≤◌, IfOk};

use std::alloc::{AllocError, AllocFailed, Global};
use std::io;

/// Why a line isn't answered.
#[derive(Clone, Copy)]
pub enum Trouble {
    /// It has another form.
    Ill,
    OutOfMemory,
    /// Standard output, or a real file, failed.
    Output,
}

impl From<AllocError> for Trouble {
    fn from(_: AllocError) -> Self {
        Trouble::OutOfMemory
    }
}

impl<T: Drop> From<AllocFailed<T>> for Trouble {
    fn from(_: AllocFailed<T>) -> Self {
        Trouble::OutOfMemory
    }
}

impl From<io::Error> for Trouble {
    fn from(_: io::Error) -> Self {
        Trouble::Output
    }
}

/// What is left of a line.
#[derive(Clone, Copy)]
pub struct Words<'a> {
    pub rest: &'a str,
}

/// The number that a word is.
pub fn number(word: &str) -> Result<u64, Trouble> {
    match word.parse::<u64>() {
        Ok(number) => Ok(number),
        Err(_) => Err(Trouble::Ill),
    }
}

impl<'a> Words<'a> {
    /// The next word, an empty one at the end.
    pub fn word(&mut self) -> &'a str {
        let (word, rest) = self.rest.split_once(' ').unwrap_or((self.rest, ""));
        self.rest = rest;
        word
    }

    /// The next number, at most this one.
    pub fn below(&mut self, most: u64) -> Result<u64, Trouble>
        ensures { IfOk result (λ n. n ≤ most) }
    {
        let number = number(self.word())?;
        if number > most {
            return Err(Trouble::Ill);
        }
        Ok(number)
    }
}

/// The place of a word among these, or how many these are.
pub fn place(word: &str, names: &[&str]) -> usize {
    names
        .iter()
        .position(|name| *name == word)
        .unwrap_or(names.len())
}

/// The words of a text, between these characters; none of an empty text.
pub fn split(alloc: Global, text: &str, between: char) -> Result<Vec<String>, Trouble> {
    let mut words = Vec::new(alloc);
    if text.is_empty() {
        return Ok(words);
    }
    for word in text.split(between) {
        words.push(String::from_str(alloc, word)?)?;
    }
    Ok(words)
}
