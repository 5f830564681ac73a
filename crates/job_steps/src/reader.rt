//! The reader of a text's steps.
ghost use Rattle.std.specs.Prelude.{◌≡◌, ◌≤◌, ◌<◌, ◌+◌, ◌^◌, ◌∷◌, ◌++◌, [], ℕ, List, true, false, nat_lt, length, Ok, OnOk, IfOk};
ghost use Rattle.job_tokens.specs.declared.token.Next.TheVariants as NextVariants;
ghost use Rattle.job_tokens.specs.Texts.{next_at};
ghost use Rattle.job_steps.specs.declared.step.Ending.TheVariants.{Unexpected, NoToken};
ghost use Rattle.job_steps.specs.Steps.{opened, steps_at, nothing_yet, IsPast, IsRead};

use crate::step::{Ending, Step, Steps};
use grammar::Reply;
use job_grammar::{JobReader, action_of};
use job_tokens::{Kind, Next, Token, next_token};
use std::alloc::{AllocError, Global};

// What stands before the first token.
fn before_all() -> Token
    ensures { result ≡ nothing_yet }
{
    Token {
        kind: Kind::Newline,
        start: 0,
        end: 0,
    }
}

// How many parentheses and brackets are open behind a token.
fn open_behind(depth: usize, kind: Kind) -> usize
    requires { depth + 1 < 2 ^ 64 }
    ensures value { result ≡ opened depth kind }
    ensures within { result ≤ depth + 1 }
{
    match kind {
        Kind::OpenParenthesis | Kind::OpenBracket => depth + 1,
        Kind::CloseParenthesis | Kind::CloseBracket => depth.saturating_sub(1),
        _ => depth,
    }
}

fn add_step(steps: &mut Vec<Step>, action: u16, token: Token) -> Result<(), AllocError>
    ensures { OnOk result (steps.new.items ≡ steps.old.items ++ steps_at token (action ∷ [])) }
{
    match action_of(action) {
        Some(action) => steps.push(Step { action, token })?,
        None => {}
    }
    Ok(())
}

fn add_steps(steps: &mut Vec<Step>, actions: &[u16], token: Token) -> Result<(), AllocError>
    ensures { OnOk result (steps.new.items ≡ steps.old.items ++ steps_at token actions.now) }
{
    for action in actions {
        add_step(steps, *action, token)?;
    }
    Ok(())
}

// Takes the next token with the actions before it, and says whether a job goes on with it.
fn take_token(
    reader: &mut JobReader,
    steps: &mut Vec<Step>,
    last: Token,
    token: Token,
) -> Result<bool, AllocError>
    ensures taken { result ≡ Ok true → (text : List ℕ) (at depth_now : ℕ) → next_at text at (nat_lt 0 depth_now) ≡ NextVariants.Token token → IsPast text at depth_now last steps.old.items reader.old.left → IsPast text token.end (opened depth_now token.kind) token steps.new.items reader.new.left }
    ensures refused { result ≡ Ok false → (text : List ℕ) (at depth_now : ℕ) → next_at text at (nat_lt 0 depth_now) ≡ NextVariants.Token token → IsPast text at depth_now last steps.old.items reader.old.left → IsRead text (record { steps = steps.new.items; ending = Unexpected token }) }
{
    let reply = reader.take(token.kind)?;
    add_steps(steps, reader.actions(), last)?;
    match reply {
        Reply::Taken => Ok(true),
        Reply::Refused => Ok(false),
    }
}

// Takes the end of the text with the actions before it.
fn take_end(
    reader: &mut JobReader,
    steps: &mut Vec<Step>,
    last: Token,
    end: usize,
) -> Result<Ending, AllocError>
    ensures { IfOk result (λ e. (text : List ℕ) (at depth_now : ℕ) → end ≡ length text → next_at text at (nat_lt 0 depth_now) ≡ NextVariants.End end → IsPast text at depth_now last steps.old.items reader.old.left → IsRead text (record { steps = steps.new.items; ending = e })) }
{
    let reply = reader.end()?;
    add_steps(steps, reader.actions(), last)?;
    match reply {
        Reply::Taken => Ok(Ending::Whole),
        Reply::Refused => Ok(Ending::Unfinished(end)),
    }
}

// Does the actions before a byte at which no token begins.
fn stop_at(
    reader: &mut JobReader,
    steps: &mut Vec<Step>,
    last: Token,
    byte: usize,
) -> Result<Ending, AllocError>
    ensures { IfOk result (λ e. (text : List ℕ) (at depth_now : ℕ) → next_at text at (nat_lt 0 depth_now) ≡ NextVariants.Refused byte → IsPast text at depth_now last steps.old.items reader.old.left → IsRead text (record { steps = steps.new.items; ending = e })) }
{
    reader.finish()?;
    add_steps(steps, reader.actions(), last)?;
    Ok(Ending::NoToken(byte))
}

// Reads the steps of a text, up to its end or to the first place that is no job's.
fn read_into(
    reader: &mut JobReader,
    steps: &mut Vec<Step>,
    text: &[u8],
) -> Result<Ending, AllocError>
    requires { IsPast text.now 0 0 nothing_yet steps.old.items reader.old.left }
    ensures { IfOk result (λ e. IsRead text.now (record { steps = steps.new.items; ending = e })) }
{
    let mut last = before_all();
    let mut at = 0;
    let mut depth = 0;
    'tokens: loop {
        match next_token(text, at, 0 < depth) {
            Next::Token(token) => {
                if !take_token(reader, steps, last, token)? {
                    return Ok(Ending::Unexpected(token));
                }
                depth = open_behind(depth, token.kind);
                last = token;
                at = token.end;
            }
            Next::End(end) => return take_end(reader, steps, last, end),
            Next::Refused(byte) => return stop_at(reader, steps, last, byte),
        }
    }
}

/// Reads the steps of a text of any length, up to its end or to the first place that is no job's.
/// It takes memory for the steps, and for what is left to be read.
pub fn read_steps(alloc: Global, text: &[u8]) -> Result<Steps, AllocError>
    ensures { IfOk result (IsRead text.now) }
{
    let mut reader = JobReader::new(alloc)?;
    let mut steps = Vec::new(alloc);
    let ending = read_into(&mut reader, &mut steps, text)?;
    Ok(Steps::new(steps, ending))
}
