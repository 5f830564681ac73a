//! A small grammar of the generic reader: sums of numbers, with parentheses and signs.
ghost use Rattle.std.specs.Prelude.{◌≡◌, true};
ghost use Rattle.grammar.specs.Tables.{moves_end};

use crate::answer::Answer;
use crate::text::unescaped;
use grammar::{Reader, Reply, Row, Rule, Symbol, Table, rules_on};
use std::alloc::AllocError;

const PUSH: u16 = 10;

const ADD: u16 = 11;

const NEGATE: u16 = 12;

// The parts, by their places in the table.
const SUM: u16 = 0;

const SIGNED: u16 = 1;

const TERM: u16 = 2;

const MORE: u16 = 3;

// Each rule from its last symbol to its first.
static SYMBOLS: [Symbol; 11] = [
    // a sum is a signed term and more
    Symbol::Part(MORE),
    Symbol::Part(SIGNED),
    // after a minus
    Symbol::Action(NEGATE),
    Symbol::Part(SIGNED),
    // no minus
    Symbol::Part(TERM),
    // after a number
    Symbol::Action(PUSH),
    // after an opening parenthesis
    Symbol::Token(3),
    Symbol::Part(SUM),
    // after a plus
    Symbol::Part(MORE),
    Symbol::Action(ADD),
    Symbol::Part(SIGNED),
];

static RULES: [Rule; 7] = [
    Rule { start: 0, end: 2 },
    Rule { start: 2, end: 4 },
    Rule { start: 4, end: 5 },
    Rule { start: 5, end: 6 },
    Rule { start: 6, end: 8 },
    Rule { start: 8, end: 11 },
    Rule { start: 11, end: 11 },
];

static ON: [Row; 4] = [
    rules_on!(- - - - - - - - - - - - - - - - - - - - - - - - - - - - - - - - - - - - - - - - - - - - - - - -),
    rules_on!(- - - - 1 - - - - - - - - - - - - - - - - - - - - - - - - - - - - - - - - - - - - - - - - - - -),
    rules_on!(3 - 4 - - - - - - - - - - - - - - - - - - - - - - - - - - - - - - - - - - - - - - - - - - - - -),
    rules_on!(- 5 - - - - - - - - - - - - - - - - - - - - - - - - - - - - - - - - - - - - - - - - - - - - - -),
];

static OTHER: [Option<u16>; 4] = [Some(0), Some(2), None, Some(6)];

static MOVES: [u16; 4] = [5, 3, 1, 1];

fn table() -> Table
    ensures { moves_end result ≡ true }
{
    Table::new(&ON, &OTHER, &MOVES, &RULES, &SYMBOLS)
}

// The kind of a token: a number, `+`, `(`, `)` and `-`; one that no rule takes, and one that the table does not have.
fn kind_of(letter: u8) -> u16 {
    match letter {
        b'1' => 0,
        b'+' => 1,
        b'(' => 2,
        b')' => 3,
        b'-' => 4,
        b'$' => 5,
        _ => 60000,
    }
}

fn action_name(action: u16) -> &'static str {
    match action {
        PUSH => "push",
        ADD => "add",
        NEGATE => "negate",
        _ => "?",
    }
}

// The first actions of a call, and how many more there are.
fn put_actions(out: &mut Answer, actions: &[u16]) {
    for action in actions.iter().take(8) {
        out.put(" ");
        out.put(action_name(*action));
    }
    if actions.len() > 8 {
        out.put_item(" and ", &(actions.len() - 8));
        out.put(" more");
    }
}

// Whether a token, or the end, is taken.
fn is_taken(out: &mut Answer, reply: Result<Reply, AllocError>) -> bool {
    match reply {
        Ok(Reply::Taken) => true,
        Ok(Reply::Refused) => false,
        Err(_) => {
            out.fail();
            false
        }
    }
}

// Puts the actions of the tokens, up to the first one that is refused, and tells how many are taken.
fn put_tokens(out: &mut Answer, reader: &mut Reader, text: &[u8]) -> usize {
    for (at, letter) in text.iter().enumerate() {
        let reply = reader.step(kind_of(*letter));
        put_actions(out, reader.actions());
        if !is_taken(out, reply) {
            return at;
        }
    }
    text.len()
}

// Puts the actions of the end, and tells whether it is taken.
fn put_end(out: &mut Answer, reader: &mut Reader) -> bool {
    let reply = reader.end();
    put_actions(out, reader.actions());
    is_taken(out, reply)
}

fn put_reading(out: &mut Answer, reader: &mut Reader, text: &[u8]) {
    out.put("sum");
    let at = put_tokens(out, reader, text);
    if at == text.len() && put_end(out, reader) {
        out.put_item("; whole at ", &at);
    } else {
        out.put_item("; refused at ", &at);
    }
}

/// `sum TEXT`: the actions of a sum as they are complete, and its first token that is refused.
pub fn put_sum(out: &mut Answer, case: &str) {
    let text = unescaped(out, case);
    match Reader::new(out.alloc(), table(), SUM) {
        Ok(mut reader) => put_reading(out, &mut reader, &text),
        Err(_) => out.fail(),
    }
}
