//! The words, numbers and bytes of a case.
ghost use Rattle.std.specs.Prelude.{◌<◌};

use crate::answer::Answer;

/// The first word of a text, and what stands behind the blank after it.
pub fn next_word(text: &str) -> (&str, &str) {
    text.split_once(' ').unwrap_or((text, ""))
}

/// The number that a word is, and 0 for another word.
pub fn number(word: &str) -> u64 {
    word.parse::<u64>().unwrap_or(0)
}

/// The number that a word is, and 0 for another word.
pub fn count(word: &str) -> usize {
    word.parse::<usize>().unwrap_or(0)
}

/// The numbers between commas.
pub fn numbers(out: &mut Answer, text: &str) -> Vec<u64> {
    let mut numbers = Vec::new(out.alloc());
    for word in text.split(',') {
        if let Ok(number) = word.parse::<u64>() {
            out.keep(numbers.extend_from_slice(&[number]));
        }
    }
    numbers
}

fn digit_of(letter: u8) -> u8
    ensures { result < 16 }
{
    match letter {
        b'0'..=b'9' => letter - b'0',
        b'a'..=b'f' => letter - b'a' + 10,
        _ => 0,
    }
}

// The byte that two hexadecimal digits stand for.
fn byte_of(high: u8, low: u8) -> u8 {
    digit_of(high) * 16 + digit_of(low)
}

/// The bytes that pairs of hexadecimal digits stand for.
pub fn bytes_of(out: &mut Answer, hex: &str) -> Vec<u8> {
    let mut bytes = Vec::new(out.alloc());
    for pair in hex.as_bytes().chunks(2) {
        if let [high, low] = pair {
            out.keep(bytes.extend_from_slice(&[byte_of(*high, *low)]));
        }
    }
    bytes
}

// How often, a colon, and what is repeated.
fn add_repeated(out: &mut Answer, bytes: &mut Vec<u8>, part: &str) {
    let (times, text) = part.split_once(':').unwrap_or((part, ""));
    for _ in 0..count(times) {
        out.keep(bytes.extend_from_slice(text.as_bytes()));
    }
}

// The byte that begins what stands behind a `\`, and the others; `\.` has none.
fn split_escape(part: &[u8]) -> (Option<u8>, &[u8]) {
    match part {
        [b'n', rest @ ..] => (Some(b'\n'), rest),
        [b't', rest @ ..] => (Some(b'\t'), rest),
        [b'r', rest @ ..] => (Some(b'\r'), rest),
        [b'x', high, low, rest @ ..] => (Some(byte_of(*high, *low)), rest),
        [b'.', rest @ ..] => (None, rest),
        _ => (None, &[]),
    }
}

// What stands behind a `\`.
fn add_escaped(out: &mut Answer, bytes: &mut Vec<u8>, part: &str) {
    if let Some(repeated) = part.strip_prefix('*') {
        return add_repeated(out, bytes, repeated);
    }
    let (first, rest) = split_escape(part.as_bytes());
    if let Some(byte) = first {
        out.keep(bytes.extend_from_slice(&[byte]));
    }
    out.keep(bytes.extend_from_slice(rest));
}

/// The bytes of a case.
pub fn unescaped(out: &mut Answer, text: &str) -> Vec<u8> {
    let mut bytes = Vec::new(out.alloc());
    let (front, escaped) = text.split_once('\\').unwrap_or((text, "."));
    out.keep(bytes.extend_from_slice(front.as_bytes()));
    for part in escaped.split('\\') {
        add_escaped(out, &mut bytes, part);
    }
    bytes
}
