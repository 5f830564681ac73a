//! Lines and columns, one after another: each is counted on from the last one.
ghost use Rattle.std.specs.Prelude.{◌≡◌, ◌<◌, ◌+◌, ◌-◌, ◌≤◌, length, take};
ghost use Rattle.std.specs.List.{suffix_len};
ghost use Rattle.job_tokens.specs.Places.{is_no_newline};
ghost use Rattle.job_text.specs.Jobs.{IsShort, span_at};
ghost use Rattle.job_text.specs.Cursors.{Stands};

use array_expr::Span;

/// A place in a text, with its line and its column.
#[derive(Clone, Copy)]
pub(crate) struct Cursor {
    pub(crate) at: usize,
    pub(crate) line: u32,
    pub(crate) column: u32,
}

// How many bytes before this one are no newline, back to the last newline.
fn behind_newline(text: &[u8], at: usize) -> usize
    requires within { at ≤ length text.now }
    ensures count { result ≡ suffix_len is_no_newline (take at text.now) }
    ensures within { result ≤ at }
{
    let mut first = at;
    while first > 0 && text[first - 1] != b'\n' {
        first -= 1;
    }
    at - first
}

impl Cursor {
    /// The first byte of any text.
    pub(crate) fn new() -> Cursor
        ensures at { result.at ≡ 0 }
        ensures line { result.line ≡ 1 }
        ensures column { result.column ≡ 1 }
    {
        Cursor {
            at: 0,
            line: 1,
            column: 1,
        }
    }

    fn forward(&mut self, text: &[u8])
        requires stands { Stands text.now self.old }
        requires inside { self.old.at < length text.now }
        requires short { IsShort text.now }
        ensures stands { Stands text.now self.new }
        ensures at { self.new.at ≡ self.old.at + 1 }
    {
        if text[self.at] == b'\n' {
            self.line += 1;
            self.column = 1;
        } else {
            self.column += 1;
        }
        self.at += 1;
    }

    fn back(&mut self, text: &[u8])
        requires stands { Stands text.now self.old }
        requires inside { 0 < self.old.at }
        requires short { IsShort text.now }
        ensures stands { Stands text.now self.new }
        ensures at { self.new.at + 1 ≡ self.old.at }
    {
        self.at -= 1;
        if text[self.at] == b'\n' {
            self.line -= 1;
            self.column = behind_newline(text, self.at) as u32 + 1;
        } else {
            self.column -= 1;
        }
    }

    fn go_forward(&mut self, text: &[u8], at: usize)
        requires stands { Stands text.now self.old }
        requires within { at ≤ length text.now }
        requires short { IsShort text.now }
        ensures stands { Stands text.now self.new }
        ensures there { self.old.at ≤ at → self.new.at ≡ at }
        ensures else_same { at ≤ self.old.at → self.new ≡ self.old }
    {
        while self.at < at {
            self.forward(text);
        }
    }

    fn go_back(&mut self, text: &[u8], at: usize)
        requires stands { Stands text.now self.old }
        requires short { IsShort text.now }
        ensures stands { Stands text.now self.new }
        ensures there { at ≤ self.old.at → self.new.at ≡ at }
        ensures else_same { self.old.at ≤ at → self.new ≡ self.old }
    {
        while self.at > at {
            self.back(text);
        }
    }

    /// Moves to a byte, or to the text's end where it has fewer, and answers the line and the column.
    pub(crate) fn span_at(&mut self, text: &[u8], at: usize) -> Span
        requires stands { Stands text.now self.old }
        requires short { IsShort text.now }
        ensures stands { Stands text.now self.new }
        ensures span { result ≡ span_at text.now at }
    {
        let at = at.min(text.len());
        self.go_forward(text, at);
        self.go_back(text, at);
        Span {
            line: self.line,
            column: self.column,
        }
    }
}
