//! What a reader answers.

/// Whether the grammar has a place for the next token, or for the end.
#[derive(Clone, Copy)]
pub enum Reply {
    Taken,
    Refused,
}
