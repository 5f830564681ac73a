//! What tokens say.
ghost use Rattle.std.specs.Prelude.{◌≡◌, ◌≤◌, ◌^◌};
ghost use Rattle.job_script.specs.Words.{bytes_of, number_at, file_at, binary_of, fold_of, negative};

use array_expr::{Binary, Fold};
use job_tokens::{Kind, Token, number};

// The bytes of a token.
pub(crate) fn token_bytes(text: &[u8], token: Token) -> &[u8]
    ensures { result.now ≡ bytes_of text.now token }
{
    let end = token.end.min(text.len());
    let start = token.start.min(end);
    &text[start..end]
}

// The number that a token says, at most 2^64-1.
pub(crate) fn token_number(text: &[u8], token: Token) -> u64
    ensures { result ≡ number_at text.now token }
{
    number(token_bytes(text, token))
}

// The name of a file, without its quotes.
pub(crate) fn token_file(text: &[u8], token: Token) -> &[u8]
    ensures { result.now ≡ file_at text.now token }
{
    let end = token.end.saturating_sub(1).min(text.len());
    let start = token.start.saturating_add(1).min(end);
    &text[start..end]
}

pub(crate) fn binary(kind: Kind) -> Binary
    ensures { result ≡ binary_of kind }
{
    match kind {
        Kind::Plus => Binary::Add,
        Kind::Minus => Binary::Sub,
        Kind::Times => Binary::Mul,
        Kind::FloorDivide => Binary::FloorDiv,
        Kind::Remainder => Binary::Rem,
        Kind::Minimum => Binary::Minimum,
        _ => Binary::Maximum,
    }
}

pub(crate) fn fold(kind: Kind) -> Fold
    ensures { result ≡ fold_of kind }
{
    match kind {
        Kind::Sum => Fold::Sum,
        Kind::Prod => Fold::Prod,
        Kind::Min => Fold::Min,
        _ => Fold::Max,
    }
}

pub(crate) fn below_zero(number: u64) -> i64
    requires { number ≤ 2 ^ 63 }
    ensures { result ≡ negative number }
{
    if number == 0 {
        0
    } else {
        -((number - 1) as i64) - 1
    }
}
