//! The bytes of words, numbers and file names.
ghost use Rattle.std.specs.Prelude.{◌≡◌, ◌*◌, ◌+◌, ◌-◌, ◌≤◌, length};
ghost use Rattle.std.specs.List.{prefix_len};
ghost use Rattle.job_tokens.specs.Bytes.{is_digit, is_letter, is_word, is_file_byte, capped, decimal};

pub(crate) fn is_digit_byte(byte: u8) -> bool
    ensures { result ≡ is_digit byte }
{
    matches!(byte, b'0'..=b'9')
}

pub(crate) fn is_letter_byte(byte: u8) -> bool
    ensures { result ≡ is_letter byte }
{
    matches!(byte, b'A'..=b'Z' | b'a'..=b'z' | b'_')
}

fn is_word_byte(byte: u8) -> bool
    ensures { result ≡ is_word byte }
{
    is_letter_byte(byte) || is_digit_byte(byte)
}

fn is_inside_quotes(byte: u8) -> bool
    ensures { result ≡ is_file_byte byte }
{
    matches!(byte, 32..=126) && byte != b'"' && byte != b'\\'
}

// How many digits stand at the front.
pub(crate) fn digits_at_front(rest: &[u8]) -> usize
    ensures count { result ≡ prefix_len is_digit rest.now }
    ensures within { result ≤ length rest.now }
{
    for (i, byte) in rest.iter().enumerate() {
        if !is_digit_byte(*byte) {
            return i;
        }
    }
    rest.len()
}

// How many bytes of a word stand at the front.
pub(crate) fn word_at_front(rest: &[u8]) -> usize
    ensures count { result ≡ prefix_len is_word rest.now }
    ensures within { result ≤ length rest.now }
{
    for (i, byte) in rest.iter().enumerate() {
        if !is_word_byte(*byte) {
            return i;
        }
    }
    rest.len()
}

// How many bytes that a file name may hold stand at the front.
pub(crate) fn file_name_at_front(rest: &[u8]) -> usize
    ensures count { result ≡ prefix_len is_file_byte rest.now }
    ensures within { result ≤ length rest.now }
{
    for (i, byte) in rest.iter().enumerate() {
        if !is_inside_quotes(*byte) {
            return i;
        }
    }
    rest.len()
}

// The number with a further digit, where it fits.
fn with_digit(number: u64, digit: u8) -> u64
    ensures { result ≡ capped (10 * number + (digit - 48)) }
{
    number
        .saturating_mul(10)
        .saturating_add(u64::from(digit.saturating_sub(48)))
}

/// The number that decimal digits say, and 2^64-1 for each larger one. The digits may be of any number. Takes no memory.
pub fn number(digits: &[u8]) -> u64
    ensures { result ≡ capped (decimal digits.now) }
{
    let mut number = 0;
    for digit in digits {
        number = with_digit(number, *digit);
    }
    number
}
