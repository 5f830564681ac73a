//! The texts that words give to names.
ghost use Rattle.std.specs.Prelude.{◌≡◌, ◌<◌, ◌^◌, ◌-◌, ℕ, [], Option, Some, IfOk, IfErr, bytes_eq, false, map, option_map, slice_index_or, string_bytes, MatchOption};
ghost use Rattle.command_words.specs.Given.{HasBound, HasFlag, HasNumber, IsNoText, text_in};
ghost use Rattle.command_words.specs.Numbers.{IsNumber};

use crate::fail::WordsFail;
use crate::numbers::number_in;
use clap::ArgMatches;
use std::alloc::Global;

/// Whether the first word is this one.
pub fn is_first(words: &[String], name: &str) -> bool
    requires some { bytes_eq [] name.now ≡ false }
    ensures { result ≡ bytes_eq (slice_index_or (map string_bytes words.now) 0 []) name.now }
{
    match words.first() {
        Some(word) => word.as_str() == name,
        None => false,
    }
}

/// The text that is given to a name.
pub fn given_to<'a>(matches: &ArgMatches<'a>, name: &str) -> Option<&'a str>
    ensures { option_map (λ t. t.now) result ≡ text_in matches.now name.now }
{
    matches.get_str(name)
}

/// The text that is given to a name, as the caller's own.
///
/// # Errors
/// `Refused` exactly where there is none, and `OutOfMemory` where no memory is left.
pub fn own_text(alloc: Global, matches: &ArgMatches<'_>, name: &str) -> Result<String, WordsFail>
    ensures text { IfOk result (λ t. text_in matches.now name.now ≡ Some (string_bytes t)) }
    ensures refused { IfErr result (IsNoText (text_in matches.now name.now)) }
{
    match given_to(matches, name) {
        Some(text) => Ok(String::from_str(alloc, text)?),
        None => Err(WordsFail::Refused),
    }
}

/// Whether a flag is given.
pub fn is_given(matches: &ArgMatches<'_>, name: &str) -> bool
    ensures { HasFlag (text_in matches.now name.now) result }
{
    match given_to(matches, name) {
        Some(text) => text == "true",
        None => false,
    }
}

/// The number that is given to a name, or the one that is taken without it.
pub fn number_of(
    matches: &ArgMatches<'_>,
    name: &str,
    least: u128,
    most: u128,
    default: u128,
) -> Option<u128>
    requires most { most < 2 ^ 128 - 1 }
    ensures { let Has = HasNumber (text_in matches.now name.now) least most default in MatchOption result ((n : ℕ) → ¬ Has n) Has }
{
    match given_to(matches, name) {
        Some(text) => number_in(text, least, most),
        None => Some(default),
    }
}

// The number that a word says, up to this one.
fn number_up_to(word: &str, most: u32) -> Option<u32>
    ensures { MatchOption result ((n : ℕ) → ¬ IsNumber 0 most word.now n) (IsNumber 0 most word.now) }
{
    let number = number_in(word, 0, u128::from(most))?;
    u32::try_from(number).ok()
}

/// The number up to this one that is given to a name, or that there is none without it.
#[tactic(auto, using(crate::proofs::Saying::no_bound))]
pub fn bound_of(matches: &ArgMatches<'_>, name: &str, most: u32) -> Option<Option<u32>>
    ensures { let Has = HasBound (text_in matches.now name.now) most in MatchOption result ((bound : Option ℕ) → ¬ Has bound) Has }
{
    match given_to(matches, name) {
        Some(text) => match number_up_to(text, most) {
            Some(number) => Some(Some(number)),
            None => None,
        },
        None => Some(None),
    }
}
