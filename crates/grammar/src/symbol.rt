//! What rules are made of.

/// What stands in a rule, and what is left to be read.
#[derive(Clone, Copy)]
pub enum Symbol {
    /// A token of this kind.
    Token(u16),
    /// Whatever this part stands for.
    Part(u16),
    /// An action, which takes no token.
    Action(u16),
}

/// How many kinds of tokens a table has: kinds are the numbers below.
pub const KINDS: usize = 48;

/// Where the symbols of a rule stand in a table's list of symbols. They stand there in reverse, the last one first.
#[derive(Clone, Copy)]
pub struct Rule {
    pub start: u16,
    pub end: u16,
}

/// What a part may stand for: for each kind of token, the number of the rule for what follows a token of that kind.
pub type Row = [Option<u16>; KINDS];

/// A row: a rule's number, or `-` for none, for each of the [`KINDS`] kinds.
#[macro_export]
macro_rules! rules_on {
    (@ -) => {
        None
    };
    (@ $rule:literal) => {
        Some($rule)
    };
    ($($rule:tt)*) => {
        [$($crate::rules_on!(@ $rule)),*]
    };
}
