//! What is printed.
use crate::text::text_of;
use crate::words::Trouble;
use io_edge::Failed;
use std::alloc::Global;
use std::fmt::Display;

/// Prints what a call answers, or why it doesn't.
pub fn say<R: Print, T: Display + Drop, E: Display + Drop>(
    rt: &R,
    answer: Result<T, E>,
) -> Result<(), Trouble> {
    match answer {
        Ok(value) => print!(rt; " {value}")?,
        Err(error) => print!(rt; " {error}")?,
    }
    Ok(())
}

/// Prints a word.
pub fn say_word<R: Print>(rt: &R, word: &str) -> Result<(), Trouble> {
    Ok(print!(rt; " {word}")?)
}

/// Prints which bytes were read, and how many, or that the call failed.
pub fn say_bytes<R: Print>(
    rt: &R,
    alloc: Global,
    buf: &[u8],
    answer: Result<usize, Failed>,
) -> Result<(), Trouble> {
    match answer {
        Ok(count) => {
            let text = text_of(alloc, &buf[..count.min(buf.len())])?;
            print!(rt; " {text} {count}")?;
        }
        Err(Failed) => print!(rt; " {Failed}")?,
    }
    Ok(())
}
