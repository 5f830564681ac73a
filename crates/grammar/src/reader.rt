//! A reader takes one token after another, and does actions as they are complete.
ghost use Rattle.std.specs.Prelude.{List, ◌≡◌, ◌∷◌, [], ℕ, true, Some, None, Ok, IfOk, ◌≢◌};
ghost use Rattle.grammar.specs.Grammars.{Grammar, move, on_next, turned, step};
ghost use Rattle.grammar.specs.declared.symbol.Symbol.{Symbol};
ghost use Rattle.grammar.specs.declared.symbol.Symbol.TheVariants.{Token, Part};
ghost use Rattle.grammar.specs.Tables.{grammar_of, moves_end};
ghost use Rattle.grammar.specs.Reading.{step_of, Moved};
ghost use Rattle.grammar.specs.declared.reply.Reply.TheVariants.{Taken};

use crate::left::Left;
use crate::reply::Reply;
use crate::symbol::Symbol;
use crate::table::Table;
use std::alloc::{AllocError, Global};
use std::marker::Model;

// What a part turns into.
fn turn(
    table: &Table,
    part: u16,
    next: Option<u16>,
    left: &mut Left,
) -> Result<Option<Reply>, AllocError>
    ensures ok { IfOk result (λ r. Moved (turned left.old.left (on_next (grammar_of table.now) part next) ((grammar_of table.now).other part)) r left.new.left [] []) }
    ensures base { left.new.base ≡ left.old.base }
{
    if let Some(rule) = table.next_rule(part, next) {
        left.put(rule)?;
        return Ok(Some(Reply::Taken));
    }
    match table.other_rule(part) {
        Some(rule) => {
            left.put(rule)?;
            Ok(None)
        }
        None => Ok(Some(Reply::Refused)),
    }
}

// The reply where no symbol is left.
fn at_end(next: Option<u16>) -> Reply
    ensures { (g : Grammar) (old : List ℕ) → Moved (move g [] next) (Some result) [] old old }
{
    match next {
        Some(_) => Reply::Refused,
        None => Reply::Taken,
    }
}

// The reply where a token of a kind comes next.
fn at_token(kind: u16, next: Option<u16>) -> Reply
    ensures { (g : Grammar) (left : List Symbol) (old : List ℕ) → Moved (move g (Token kind ∷ left) next) (Some result) left old old }
{
    match next {
        Some(k) if k == kind => Reply::Taken,
        _ => Reply::Refused,
    }
}

// One move: no reply where more follow.
fn one_move(
    table: &Table,
    next: Option<u16>,
    left: &mut Left,
    actions: &mut Vec<u16>,
) -> Result<Option<Reply>, AllocError>
    ensures ok { IfOk result (λ r. Moved (move (grammar_of table.now) left.old.left next) r left.new.left actions.old.items actions.new.items) }
    ensures base { left.new.base ≡ left.old.base }
{
    let Some(symbol) = left.pop() else {
        return Ok(Some(at_end(next)));
    };
    match symbol {
        Symbol::Token(kind) => Ok(Some(at_token(kind, next))),
        Symbol::Action(action) => {
            actions.push(action)?;
            Ok(None)
        }
        Symbol::Part(part) => turn(table, part, next, left),
    }
}

// All moves up to the one that takes the token, or the end.
fn advance(
    table: &Table,
    next: Option<u16>,
    left: &mut Left,
    actions: &mut Vec<u16>,
) -> Result<Reply, AllocError>
    requires bounded { moves_end table.now ≡ true }
    requires none { actions.old.items ≡ [] }
    ensures ok { IfOk result (λ r. step (grammar_of table.now) left.old.left next ≡ step_of r actions.new.items left.new.left) }
    ensures base { left.new.base ≡ left.old.base }
{
    loop {
        if let Some(reply) = one_move(table, next, left, actions)? {
            return Ok(reply);
        }
    }
}

/// Reads one text.
///
/// It is seen as the symbols that are left, and the actions of the last step. It takes memory for what is left: at most
/// the symbols of one rule for each token and each move before it. A step makes fewer moves than the parts that it meets
/// may make, so the time of a text is linear in its tokens.
#[derive(Drop)]
pub struct Reader {
    table: Table,
    left: Left,
    actions: Vec<u16>,
}

impl Model for Reader {
    ghost use Rattle.std.specs.Prelude.{◌≡◌, true};
    ghost use Rattle.grammar.specs.Tables.{moves_end};
    ghost use Rattle.grammar.specs.Reading.{Reading};

    ghost Value = { Reading };

    ghost view = { λ r. record { table = r.table; left = r.left.left; actions = r.actions.items } };

    ghost invariant = { λ r. (r.left.left ≡ r.left.base) × (moves_end r.table ≡ true) };
}

impl Reader {
    /// A reader at the beginning of what a part stands for.
    pub fn new(alloc: Global, table: Table, part: u16) -> Result<Self, AllocError>
        requires { moves_end table ≡ true }
        ensures { IfOk result (λ r. r ≡ record { table = table; left = Part part ∷ []; actions = [] }) }
    {
        Ok(Reader {
            table,
            left: Left::new(alloc, Symbol::Part(part))?,
            actions: Vec::new(alloc),
        })
    }

    /// The actions that the last step or end did, in their order. Takes no memory.
    pub fn actions(&self) -> &[u16]
        ensures { result.now ≡ self.now.actions }
    {
        self.actions.as_slice()
    }

    /// Takes a token of this kind, or refuses it: then no text of the grammar that begins with the tokens taken so far goes on
    /// with such a token. The actions that are complete before the token are done in either case.
    ///
    /// After a refusal and where memory is out, what is left is as before, and the step may be tried again.
    pub fn step(&mut self, kind: u16) -> Result<Reply, AllocError>
        ensures step { IfOk result (λ r. step (grammar_of self.old.table) self.old.left (Some kind) ≡ step_of r self.new.actions self.new.left) }
        ensures kept { result ≢ Ok Taken → self.new.left ≡ self.old.left }
        ensures table { self.new.table ≡ self.old.table }
    {
        self.next(Some(kind))
    }

    /// Takes the end of the text, or refuses it: then the tokens taken so far are no text of the grammar.
    ///
    /// After a refusal and where memory is out, what is left is as before.
    pub fn end(&mut self) -> Result<Reply, AllocError>
        ensures step { IfOk result (λ r. step (grammar_of self.old.table) self.old.left None ≡ step_of r self.new.actions self.new.left) }
        ensures kept { result ≢ Ok Taken → self.new.left ≡ self.old.left }
        ensures table { self.new.table ≡ self.old.table }
    {
        self.next(None)
    }

    fn next(&mut self, next: Option<u16>) -> Result<Reply, AllocError>
        ensures step { IfOk result (λ r. step (grammar_of self.old.table) self.old.left next ≡ step_of r self.new.actions self.new.left) }
        ensures kept { result ≢ Ok Taken → self.new.left ≡ self.old.left }
        ensures table { self.new.table ≡ self.old.table }
    {
        self.actions.clear();
        let mut reply = advance(&self.table, next, &mut self.left, &mut self.actions);
        if let Ok(Reply::Taken) = reply {
            if self.left.commit().is_err() {
                reply = Err(AllocError);
            }
        }
        self.left.restore();
        reply
    }
}
