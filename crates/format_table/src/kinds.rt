//! What the grammar of jobs does with the kinds of a text's tokens.
use crate::answer::Answer;
use crate::text::unescaped;
use crate::tokens::all_tokens;
use grammar::Reply;
use job_grammar::{JobReader, action_of};
use job_tokens::Next;
use std::alloc::AllocError;

// The number of each action that the last call did, in the order of the crate's list.
fn put_actions(out: &mut Answer, reader: &JobReader) {
    for number in reader.actions() {
        match action_of(*number) {
            Some(action) => out.put_item(" ", &(action as u16)),
            None => out.put(" ?"),
        }
    }
}

fn put_reply(out: &mut Answer, reply: Result<Reply, AllocError>) {
    match reply {
        Ok(Reply::Taken) => out.put(" taken"),
        Ok(Reply::Refused) => out.put(" refused"),
        Err(_) => out.fail(),
    }
}

// Takes a token, or does what needs no token.
fn put_step(out: &mut Answer, reader: &mut JobReader, next: Next) {
    match next {
        Next::Token(token) => {
            let reply = reader.take(token.kind);
            put_actions(out, reader);
            put_reply(out, reply);
        }
        Next::Refused(_) => {
            out.keep(reader.finish());
            put_actions(out, reader);
            out.put(" finished");
        }
        Next::End(_) => {}
    }
}

fn put_reading(out: &mut Answer, reader: &mut JobReader, tokens: &[Next]) {
    out.put("kinds");
    for next in tokens {
        put_step(out, reader, *next);
    }
    let reply = reader.end();
    put_actions(out, reader);
    put_reply(out, reply);
}

/// `kinds TEXT`: for each token the actions before it and whether it is taken, and the same for the end. Where no token
/// begins, the actions that need none are done before the end.
pub fn put_kinds(out: &mut Answer, case: &str) {
    let text = unescaped(out, case);
    let tokens = all_tokens(out, &text);
    match JobReader::new(out.alloc()) {
        Ok(mut reader) => put_reading(out, &mut reader, &tokens),
        Err(_) => out.fail(),
    }
}
