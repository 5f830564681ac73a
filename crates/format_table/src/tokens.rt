//! The tokens of a job's text.
use crate::answer::Answer;
use crate::text::{count, next_word, unescaped};
use job_tokens::{Kind, Next, Token, next_token, number, place_of};

/// `number DIGITS`: what digits say.
pub fn put_number(out: &mut Answer, case: &str) {
    out.put_item("", &number(case.as_bytes()));
}

/// Puts the line and the column of a byte.
pub fn put_place_of(out: &mut Answer, text: &[u8], at: usize) {
    if at > text.len() || text.len() >= 2147483648 {
        return out.put("no place");
    }
    let place = place_of(text, at);
    out.put_item("", &place.line);
    out.put_item(":", &place.column);
}

/// `place BYTE TEXT`: the line and the column of a byte.
pub fn put_place(out: &mut Answer, case: &str) {
    let (at, text) = next_word(case);
    let text = unescaped(out, text);
    put_place_of(out, &text, count(at));
}

// How many brackets are open behind a token.
fn open_behind(open: u32, kind: Kind) -> u32 {
    match kind {
        Kind::OpenParenthesis | Kind::OpenBracket => open.saturating_add(1),
        Kind::CloseParenthesis | Kind::CloseBracket => open.saturating_sub(1),
        _ => open,
    }
}

/// The tokens up to the end or the refused byte, which is the last member.
pub fn all_tokens(out: &mut Answer, text: &[u8]) -> Vec<Next> {
    let mut found = Vec::new(out.alloc());
    let mut at = 0;
    let mut open = 0;
    for _ in 0..=text.len() {
        if at > text.len() {
            break;
        }
        let next = next_token(text, at, 0 < open);
        out.keep(found.extend_from_slice(&[next]));
        let Next::Token(token) = next else {
            break;
        };
        open = open_behind(open, token.kind);
        at = token.end;
    }
    found
}

fn put_token(out: &mut Answer, token: Token) {
    out.put_item(" ", &token.kind.number());
    out.put(token.kind.spelling());
    out.put_item("@", &token.start);
    out.put_item("-", &token.end);
}

fn put_next(out: &mut Answer, next: Next) {
    match next {
        Next::Token(token) => put_token(out, token),
        Next::Refused(at) => out.put_item(" refused@", &at),
        Next::End(at) => out.put_item(" end@", &at),
    }
}

/// `tokens TEXT`: the number of each token's kind, the reserved word that it is, and its bytes.
pub fn put_tokens(out: &mut Answer, case: &str) {
    let text = unescaped(out, case);
    out.put("tokens");
    for next in &all_tokens(out, &text) {
        put_next(out, *next);
    }
}
