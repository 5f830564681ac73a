//! The reader of a job's tokens.
ghost use Rattle.std.specs.Prelude.{◌≡◌, ◌≢◌, ◌∷◌, ◌++◌, [], List, true, Ok, Some, None, IfOk, OnOk};
ghost use Rattle.grammar.specs.Grammars.{Event, took, did_all};
ghost use Rattle.grammar.specs.Tables.{moves_end};
ghost use Rattle.grammar.specs.declared.reply.Reply.TheVariants.{Taken, Refused};
ghost use Rattle.job_tokens.specs.Words.{kind_number};
ghost use Rattle.job_grammar.specs.JobRows.{job_rows};
ghost use Rattle.job_grammar.specs.Texts.{IsReading, IsWhole, AreDue, RefusesNext};

use crate::rows::{MOVES, ON, OTHER, RULES, SYMBOLS};
use grammar::{Reader, Reply, Table};
use job_tokens::Kind;
use std::alloc::{AllocError, Global};
use std::marker::Model;

// The part of the table that stands for a whole job.
const JOB: u16 = 0;

// The kind of what is no token.
const NO_TOKEN: u16 = 37;

fn table() -> Table
    ensures rows { result ≡ job_rows }
    ensures moves { moves_end result ≡ true }
{
    Table::new(&ON, &OTHER, &MOVES, &RULES, &SYMBOLS)
}

/// Reads the tokens of one text.
///
/// It is seen as what is left to be read, with the actions of the last call. That it has read certain tokens with certain actions
/// is said by `IsReading`: then some job begins with these tokens, and each job that does has had these actions.
#[derive(Drop)]
pub struct JobReader {
    reader: Reader,
}

impl Model for JobReader {
    ghost use Rattle.std.specs.Prelude.{◌≡◌};
    ghost use Rattle.grammar.specs.Reading.{Reading};
    ghost use Rattle.job_grammar.specs.JobRows.{job_rows};

    ghost Value = { Reading };

    ghost view = { λ r. r.reader };

    ghost invariant = { λ r. r.reader.table ≡ job_rows };
}

impl JobReader {
    /// A reader at the beginning of a text.
    pub fn new(alloc: Global) -> Result<Self, AllocError>
        ensures { IfOk result (λ r. IsReading [] r.left) }
    {
        Ok(JobReader {
            reader: Reader::new(alloc, table(), JOB)?,
        })
    }

    /// The actions that the last call did, by their numbers and in their order. Takes no memory.
    pub fn actions(&self) -> &[u16]
        ensures { result.now ≡ self.now.actions }
    {
        self.reader.actions()
    }

    /// Takes a token of this kind, with the actions before it; or refuses it: no job that begins with the tokens so far goes on
    /// so. Then all actions that need no further token are done, and what is left is as before.
    pub fn take(&mut self, kind: Kind) -> Result<Reply, AllocError>
        ensures taken { result ≡ Ok Taken → (past : List Event) → IsReading past self.old.left → IsReading (past ++ (did_all self.new.actions ++ took (kind_number kind) ∷ [])) self.new.left }
        ensures refused { result ≡ Ok Refused → (past : List Event) → IsReading past self.old.left → AreDue past self.new.actions × RefusesNext past (Some (kind_number kind)) }
        ensures kept { result ≢ Ok Taken → self.new.left ≡ self.old.left }
    {
        self.reader.step(kind.number())
    }

    /// Takes the end of the text, with the actions before it: the tokens are those of a job; or refuses it: no job has just the
    /// tokens so far. Then all actions that need no further token are done, and what is left is as before.
    pub fn end(&mut self) -> Result<Reply, AllocError>
        ensures taken { result ≡ Ok Taken → (past : List Event) → IsReading past self.old.left → IsWhole (past ++ did_all self.new.actions) }
        ensures refused { result ≡ Ok Refused → (past : List Event) → IsReading past self.old.left → AreDue past self.new.actions × RefusesNext past None }
        ensures kept { result ≢ Ok Taken → self.new.left ≡ self.old.left }
    {
        self.reader.end()
    }

    /// Does all actions that need no further token, where what follows is no token.
    pub fn finish(&mut self) -> Result<(), AllocError>
        ensures { OnOk result ((past : List Event) → IsReading past self.old.left → AreDue past self.new.actions) }
    {
        let _reply = self.reader.step(NO_TOKEN)?;
        Ok(())
    }
}
