//! The reader of a text's script.
ghost use Rattle.std.specs.Prelude.{◌≡◌, None, IfOk, IfErr, OnOk};
ghost use Rattle.job_script.specs.Scripts.{refusal_at, unexpected, run, IsScript};
ghost use Rattle.job_script.specs.Follows.{StoppedAs};
ghost use Rattle.job_script.specs.Earlier.{IsSound};

use crate::asked::{Fault, Placed, Refusal, Why};
use crate::draft::Draft;
use crate::named::Named;
use crate::words::token_number;
use job_steps::{Ending, Step, read_steps};
use job_tokens::{Kind, Token};
use std::alloc::{AllocError, Global};
use std::marker::Model;

/// What a text asks for: operations on earlier nodes, and the files that are read and saved; and where it is refused behind them.
#[derive(Drop)]
pub struct Script {
    asked: Vec<Placed>,
    inputs: Vec<Named>,
    saves: Vec<Named>,
    refusal: Option<Refusal>,
}

impl Model for Script {
    ghost use Rattle.job_script.specs.Scripts.{Scripted};

    ghost Value = { Scripted };

    ghost view = { λ s. record { asked = s.asked.items; inputs = s.inputs.items; saves = s.saves.items; refusal = s.refusal } };
}

impl Script {
    /// The operations and the bytes at which they stand. Takes no memory.
    pub fn asked(&self) -> &[Placed]
        ensures { result.now ≡ self.now.asked }
    {
        self.asked.as_slice()
    }

    /// The files that are read, with their nodes. Takes no memory.
    pub fn inputs(&self) -> &[Named]
        ensures { result.now ≡ self.now.inputs }
    {
        self.inputs.as_slice()
    }

    /// The files that are saved, with their nodes. Takes no memory.
    pub fn saves(&self) -> &[Named]
        ensures { result.now ≡ self.now.saves }
    {
        self.saves.as_slice()
    }

    /// Where the text is refused behind what it asks for. Takes no memory.
    pub fn refusal(&self) -> Option<Refusal>
        ensures { result ≡ self.now.refusal }
    {
        self.refusal
    }

    /// Gives the operations, the files that are read, and those that are saved. Takes no memory.
    pub fn into_parts(self) -> (Vec<Placed>, Vec<Named>, Vec<Named>)
        ensures asked { result.0.items ≡ self.asked }
        ensures inputs { result.1.items ≡ self.inputs }
        ensures saves { result.2.items ≡ self.saves }
    {
        let Script {
            asked,
            inputs,
            saves,
            refusal: _,
        } = self;
        (asked, inputs, saves)
    }
}

fn refusal_of_token(text: &[u8], token: Token) -> Refusal
    ensures { result ≡ unexpected text.now token }
{
    let is_large = token_number(text, token) >= 1 << 63;
    let why = if token.kind == Kind::Number && is_large {
        Why::Number
    } else {
        Why::Grammar
    };
    Refusal {
        at: token.start,
        why,
    }
}

fn refusal_of_end(text: &[u8], ending: Ending, draft: &Draft) -> Option<Refusal>
    ensures { result ≡ refusal_at text.now ending draft.now }
{
    match ending {
        Ending::Whole => {
            if draft.has_saves() {
                None
            } else {
                Some(Refusal {
                    at: text.len(),
                    why: Why::Grammar,
                })
            }
        }
        Ending::Unexpected(token) => Some(refusal_of_token(text, token)),
        Ending::Unfinished(at) => Some(Refusal {
            at,
            why: Why::Grammar,
        }),
        Ending::NoToken(at) => Some(Refusal {
            at,
            why: Why::Token,
        }),
    }
}

fn script_of(draft: Draft, refusal: Option<Refusal>) -> Script
    ensures { result ≡ record { asked = draft.asked; inputs = draft.scoped.inputs; saves = draft.scoped.saves; refusal = refusal } }
{
    let (asked, inputs, saves) = draft.into_parts();
    Script {
        asked,
        inputs,
        saves,
        refusal,
    }
}

// Does the steps one after another, up to the first that is refused.
fn act_all(draft: &mut Draft, text: &[u8], steps: &[Step]) -> Result<(), Fault>
    ensures ok { OnOk result (run text.now steps.now draft.old ≡ record { draft = draft.new; refusal = None }) }
    ensures err { IfErr result (λ e. StoppedAs e (run text.now steps.now draft.old) draft.new.asked) }
{
    for step in steps {
        draft.act(text, step.action, step.token)?;
    }
    Ok(())
}

fn scripted(alloc: Global, text: &[u8]) -> Result<Script, AllocError>
    ensures { IfOk result (IsScript text.now) }
{
    let steps = read_steps(alloc, text)?;
    let mut draft = Draft::new(alloc);
    match act_all(&mut draft, text, steps.steps()) {
        Ok(()) => {
            let refusal = refusal_of_end(text, steps.ending(), &draft);
            Ok(script_of(draft, refusal))
        }
        Err(Fault::OutOfMemory) => Err(AllocError),
        Err(Fault::Refused(refusal)) => Ok(script_of(draft, Some(refusal))),
    }
}

/// Reads what a text asks for, up to its end or its first refusal. Each operation names earlier ones. It takes memory for the steps
/// of the text and for the script.
pub fn read_script(alloc: Global, text: &[u8]) -> Result<Script, AllocError>
    ensures script { IfOk result (IsScript text.now) }
    ensures sound { IfOk result IsSound }
{
    scripted(alloc, text)
}
