//! The bits of one word.
ghost use Rattle.std.specs.Prelude.{◌≡◌, ℕ, ◌+◌, ◌<◌, cond, nat_eq, true, false, Some};
ghost use Rattle.key_sets.specs.Sets.{bit, IsFirst, IsLast};

/// Whether the bit is set.
pub fn test(word: u64, place: u32) -> bool
    requires { place < 64 }
    ensures { result ≡ bit word place }
{
    (word >> place) & 1 == 1
}

/// The word with this bit set.
pub fn with_bit(word: u64, place: u32) -> u64
    requires { place < 64 }
    ensures { (i : ℕ) → i < 64 → bit result i ≡ cond (nat_eq i place) true (bit word i) }
{
    word | (1 << place)
}

/// The word with this bit cleared.
pub fn without_bit(word: u64, place: u32) -> u64
    requires { place < 64 }
    ensures { (i : ℕ) → i < 64 → bit result i ≡ cond (nat_eq i place) false (bit word i) }
{
    word & !(1 << place)
}

/// The least bit from this place on that is set.
pub fn lowest_from(word: u64, place: u32) -> Option<u32>
    requires { place < 64 }
    ensures first { IsFirst (bit word) place result }
    ensures within { (r : ℕ) → result ≡ Some r → r < 64 }
{
    let rest = word >> place;
    if rest == 0 {
        None
    } else {
        Some(place + rest.trailing_zeros())
    }
}

/// The least bit that is set, of a word with some.
pub fn lowest(word: u64) -> u32
    requires { 0 < word }
    ensures first { IsFirst (bit word) 0 (Some result) }
    ensures within { result < 64 }
{
    word.trailing_zeros()
}

/// The greatest bit below this place that is set.
pub fn highest_below(word: u64, place: u32) -> Option<u32>
    requires { place < 64 }
    ensures { IsLast (bit word) place result }
{
    let rest = word % (1 << place);
    if rest == 0 {
        None
    } else {
        Some(63 - rest.leading_zeros())
    }
}

/// The greatest bit that is set, of a word with some.
pub fn top(word: u64) -> u32
    requires { 0 < word }
    ensures { IsLast (bit word) 64 (Some result) }
{
    63 - word.leading_zeros()
}

/// The greatest bit that is set.
pub fn highest(word: u64) -> Option<u32>
    ensures { IsLast (bit word) 64 result }
{
    if word == 0 {
        None
    } else {
        Some(63 - word.leading_zeros())
    }
}
