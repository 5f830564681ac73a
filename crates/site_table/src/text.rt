//! Bytes as text: printed ASCII stands for itself, `|` for a newline, and `\` with two hexadecimal digits for any byte.
ghost use Rattle.std.specs.Prelude.{◌<◌, IfOk};

use crate::words::Trouble;
use std::alloc::{AllocError, Global};

const DIGITS: [char; 16] = [
    '0', '1', '2', '3', '4', '5', '6', '7', '8', '9', 'a', 'b', 'c', 'd', 'e', 'f',
];

fn push_hexadecimal(text: &mut String, byte: u8) -> Result<(), AllocError> {
    text.push('\\')?;
    text.push(DIGITS[(byte / 16) as usize])?;
    text.push(DIGITS[(byte % 16) as usize])
}

fn push_byte(text: &mut String, byte: u8) -> Result<(), AllocError> {
    if byte == b'\n' {
        text.push('|')
    } else if byte < b' ' || byte > b'~' || byte == b'\\' || byte == b'|' {
        push_hexadecimal(text, byte)
    } else {
        text.push(char::from(byte))
    }
}

/// The text of bytes.
pub fn text_of(alloc: Global, bytes: &[u8]) -> Result<String, AllocError> {
    let mut text = String::new(alloc);
    for byte in bytes {
        push_byte(&mut text, *byte)?;
    }
    Ok(text)
}

// How far a byte is read.
#[derive(Clone, Copy)]
enum Part {
    Nothing,
    Backslash,
    High(u8),
}

fn digit(byte: u8) -> Result<u8, Trouble>
    ensures { IfOk result (λ n. n < 16) }
{
    if byte.is_ascii_digit() {
        return Ok(byte - b'0');
    }
    if byte >= b'a' && byte <= b'f' {
        return Ok(byte - b'a' + 10);
    }
    Err(Trouble::Ill)
}

// The part after one more byte of the text, and the byte that is complete.
fn step(part: Part, byte: u8) -> Result<(Part, Option<u8>), Trouble> {
    match part {
        Part::Nothing if byte == b'\\' => Ok((Part::Backslash, None)),
        Part::Nothing if byte == b'|' => Ok((Part::Nothing, Some(b'\n'))),
        Part::Nothing => Ok((Part::Nothing, Some(byte))),
        Part::Backslash => Ok((Part::High(digit(byte)?), None)),
        Part::High(high) => Ok((Part::Nothing, Some((high % 16) * 16 + digit(byte)?))),
    }
}

/// The bytes of a text.
pub fn bytes_of(alloc: Global, text: &str) -> Result<Vec<u8>, Trouble> {
    let mut bytes = Vec::new(alloc);
    let mut part = Part::Nothing;
    for byte in text.bytes() {
        let (next, complete) = step(part, byte)?;
        part = next;
        if let Some(byte) = complete {
            bytes.push(byte)?;
        }
    }
    Ok(bytes)
}
