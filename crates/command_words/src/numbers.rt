//! Numbers in decimal digits.
ghost use Rattle.std.specs.Prelude.{◌≡◌, ◌<◌, ◌*◌, ◌+◌, ◌-◌, ◌^◌, ℕ, min, MatchOption};
ghost use Rattle.std.specs.List.{list_all};
ghost use Rattle.job_tokens.specs.Bytes.{is_digit, decimal};
ghost use Rattle.command_words.specs.Numbers.{IsNumber};

// Whether all bytes are digits.
fn is_digits(word: &[u8]) -> bool
    ensures { result ≡ list_all is_digit word.now }
{
    for digit in word {
        if !matches!(*digit, b'0'..=b'9') {
            return false;
        }
    }
    true
}

// The number with a further digit, where it fits.
fn with_digit(number: u128, digit: u8) -> u128
    ensures { result ≡ min (10 * number + (digit - 48)) (2 ^ 128 - 1) }
{
    number
        .saturating_mul(10)
        .saturating_add(u128::from(digit.saturating_sub(48)))
}

// The number that digits say, and 2^128-1 for each larger one.
fn value(digits: &[u8]) -> u128
    ensures { result ≡ min (decimal digits.now) (2 ^ 128 - 1) }
{
    let mut number = 0;
    for digit in digits {
        number = with_digit(number, *digit);
    }
    number
}

/// The number that a word of decimal digits says, where it lies in the range.
pub fn number_in(word: &str, least: u128, most: u128) -> Option<u128>
    requires most { most < 2 ^ 128 - 1 }
    ensures { MatchOption result ((n : ℕ) → ¬ IsNumber least most word.now n) (IsNumber least most word.now) }
{
    let digits = word.as_bytes();
    if digits.is_empty() || !is_digits(digits) {
        return None;
    }
    let number = value(digits);
    if least <= number && number <= most {
        Some(number)
    } else {
        None
    }
}
