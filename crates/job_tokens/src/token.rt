//! The next token of a text.
ghost use Rattle.std.specs.Prelude.{◌≡◌, ◌≤◌, ◌<◌, ◌+◌, Option, Some, None, length, false, IfSome};
ghost use Rattle.job_tokens.specs.Fronts.{single, file_front, pair_front, front, skipped, blank_step};
ghost use Rattle.job_tokens.specs.Texts.{next_at, IsWithin};

use crate::bytes::{
    digits_at_front, file_name_at_front, is_digit_byte, is_letter_byte, word_at_front,
};
use crate::kind::{Kind, kind_of_word};

/// A token, with the places of its first byte and of the byte after it.
#[derive(Clone, Copy)]
pub struct Token {
    pub kind: Kind,
    pub start: usize,
    pub end: usize,
}

/// What comes next in a text.
#[derive(Clone, Copy)]
pub enum Next {
    Token(Token),
    /// No token begins at this byte, which is no blank and stands in no comment.
    Refused(usize),
    /// The end of the text, behind blanks and comments.
    End(usize),
}

// How many bytes a token has, and what it is.
#[derive(Clone, Copy)]
struct Front {
    kind: Kind,
    length: usize,
}

fn single_sign(byte: u8) -> Option<Kind>
    ensures { result ≡ single byte }
{
    match byte {
        b'\n' => Some(Kind::Newline),
        b'=' => Some(Kind::Equals),
        b'+' => Some(Kind::Plus),
        b'-' => Some(Kind::Minus),
        b'*' => Some(Kind::Times),
        b'%' => Some(Kind::Remainder),
        b'(' => Some(Kind::OpenParenthesis),
        b')' => Some(Kind::CloseParenthesis),
        b',' => Some(Kind::Comma),
        b'[' => Some(Kind::OpenBracket),
        b']' => Some(Kind::CloseBracket),
        b':' => Some(Kind::Colon),
        _ => None,
    }
}

// A sign of two bytes, behind its first byte.
fn pair_sign(kind: Kind, second: u8, behind: &[u8]) -> Option<Front>
    ensures { result ≡ pair_front kind second behind.now }
{
    match behind {
        [byte, ..] if *byte == second => Some(Front { kind, length: 2 }),
        _ => None,
    }
}

// A file name, behind its first quote.
fn file_name(behind: &[u8]) -> Option<Front>
    ensures value { result ≡ file_front behind.now }
    ensures within { IfSome result (λ f. (0 < f.length) × (f.length ≤ length behind.now + 1)) }
{
    let length = file_name_at_front(behind);
    if 1 <= length && length <= 255 && behind.get(length) == Some(&b'"') {
        Some(Front {
            kind: Kind::File,
            length: length + 2,
        })
    } else {
        None
    }
}

// The token at the front.
fn front_token(rest: &[u8]) -> Option<Front>
    ensures value { result ≡ front rest.now }
    ensures within { IfSome result (λ f. (0 < f.length) × (f.length ≤ length rest.now)) }
{
    let (first, behind) = rest.split_first()?;
    if is_letter_byte(*first) {
        let length = word_at_front(rest);
        let kind = kind_of_word(&rest[..length]);
        return Some(Front { kind, length });
    }
    if is_digit_byte(*first) {
        let length = digits_at_front(rest);
        return Some(Front {
            kind: Kind::Number,
            length,
        });
    }
    match *first {
        b'"' => file_name(behind),
        b'/' => pair_sign(Kind::FloorDivide, b'/', behind),
        b'.' => pair_sign(Kind::Transposed, b'T', behind),
        byte => single_sign(byte).map(|kind| Front { kind, length: 1 }),
    }
}

// Whether a byte is skipped, and whether a comment goes on behind it.
fn after_blank(inside: bool, comment: bool, byte: u8) -> Option<bool>
    ensures { result ≡ blank_step inside comment byte }
{
    match byte {
        b'\n' => { if inside { Some(false) } else { None } }
        _ if comment => Some(true),
        b'#' => Some(true),
        b' ' | b'\t' | b'\r' => Some(false),
        _ => None,
    }
}

// How many bytes are blanks or stand in comments.
fn blanks_at_front(rest: &[u8], inside: bool) -> usize
    ensures count { result ≡ skipped inside false rest.now }
    ensures within { result ≤ length rest.now }
{
    let mut comment = false;
    for (i, byte) in rest.iter().enumerate() {
        match after_blank(inside, comment, *byte) {
            None => return i,
            Some(now) => comment = now,
        }
    }
    rest.len()
}

/// The next token behind the first `from` bytes of a text, between open parentheses or brackets (`inside`) or not: the newline
/// is a token where it is not inside. A file name that is empty, has more than 255 bytes, another byte than those that it may
/// hold, or no end, is refused at its first quote. Takes no memory.
pub fn next_token(text: &[u8], from: usize, inside: bool) -> Next
    requires { from ≤ length text.now }
    ensures next { result ≡ next_at text.now from inside }
    ensures within { IsWithin text.now from result }
{
    let start = from + blanks_at_front(&text[from..], inside);
    if start == text.len() {
        return Next::End(start);
    }
    match front_token(&text[start..]) {
        None => Next::Refused(start),
        Some(front) => Next::Token(Token {
            kind: front.kind,
            start,
            end: start + front.length,
        }),
    }
}
