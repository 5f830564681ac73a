//! A grammar's table, and the rules that it has for a part.
ghost use Rattle.std.specs.Prelude.{◌≡◌, Option, reverse, slice_get};
ghost use Rattle.std.specs.Option.{option_map};
ghost use Rattle.grammar.specs.Tables.{Rows, rule_of, rule_maybe, entry_rule, grammar_of};
ghost use Rattle.grammar.specs.Grammars.{on_next};

use crate::symbol::{Row, Rule, Symbol};
use std::marker::Model;

/// A grammar: a row and another rule for each part, the rules, and the symbols of all rules one after another.
///
/// It is made of constants. What it means is the grammar `grammar_of`.
#[derive(Drop)]
pub struct Table {
    on: &'static [Row],
    other: &'static [Option<u16>],
    moves: &'static [u16],
    rules: &'static [Rule],
    symbols: &'static [Symbol],
}

impl Model for Table {
    ghost use Rattle.grammar.specs.Tables.{Rows};

    ghost Value = { Rows };

    ghost view = { λ t. record { on = t.on.now; other = t.other.now; moves = t.moves.now; rules = t.rules.now; symbols = t.symbols.now } };
}

// The number of the rule that a row has for a kind of token.
fn entry(row: &Row, kind: u16) -> Option<u16>
    ensures { (r : Rows) → entry_rule r (slice_get row.now kind) ≡ rule_maybe r result }
{
    match row.get(kind as usize) {
        Some(entry) => *entry,
        None => None,
    }
}

impl Table {
    /// For each part its row, the number of its other rule, and a number above the moves that it takes before a token is
    /// looked at: above the sum of those of the parts that stand in the other rule before any token, and of its actions there.
    /// Takes no memory.
    pub fn new(
        on: &'static [Row],
        other: &'static [Option<u16>],
        moves: &'static [u16],
        rules: &'static [Rule],
        symbols: &'static [Symbol],
    ) -> Self
        ensures { result ≡ record { on = on.now; other = other.now; moves = moves.now; rules = rules.now; symbols = symbols.now } }
    {
        Table {
            on,
            other,
            moves,
            rules,
            symbols,
        }
    }

    // The symbols of a rule, the last one first.
    fn symbols_of(&self, rule: &Rule) -> Option<&'static [Symbol]>
        ensures { option_map (λ s. reverse s.now) result ≡ rule_of self.now (Some rule.now) }
    {
        let start = rule.start as usize;
        let end = rule.end as usize;
        if start <= end && end <= self.symbols.len() {
            Some(&self.symbols[start..end])
        } else {
            None
        }
    }

    fn rule(&self, entry: Option<u16>) -> Option<&'static [Symbol]>
        ensures { option_map (λ s. reverse s.now) result ≡ rule_maybe self.now entry }
    {
        let Some(number) = entry else {
            return None;
        };
        match self.rules.get(number as usize) {
            Some(rule) => self.symbols_of(rule),
            None => None,
        }
    }

    fn rule_on(&self, part: u16, kind: u16) -> Option<&'static [Symbol]>
        ensures { option_map (λ s. reverse s.now) result ≡ (grammar_of self.now).on part kind }
    {
        match self.on.get(part as usize) {
            Some(row) => self.rule(entry(row, kind)),
            None => None,
        }
    }

    // The rule for what follows the next token, its last symbol first. At the end there is none.
    pub(crate) fn next_rule(&self, part: u16, next: Option<u16>) -> Option<&'static [Symbol]>
        ensures { option_map (λ s. reverse s.now) result ≡ on_next (grammar_of self.now) part next }
    {
        match next {
            Some(kind) => self.rule_on(part, kind),
            None => None,
        }
    }

    // The other rule of a part, its last symbol first.
    pub(crate) fn other_rule(&self, part: u16) -> Option<&'static [Symbol]>
        ensures { option_map (λ s. reverse s.now) result ≡ (grammar_of self.now).other part }
    {
        match self.other.get(part as usize) {
            Some(entry) => self.rule(*entry),
            None => None,
        }
    }
}
