//! Arithmetic on int64 that a division needs beside the wrapping operations.
ghost use Rattle.std.specs.Prelude.{◌≡◌, ◌≢◌, pos};
ghost use Rattle.nd_grid.specs.Int64.{wrap, floor_div, floor_rem};

/// The quotient rounded towards minus infinity, as NumPy's `floor_divide`. It wraps: `-2^63 // -1` is `-2^63`.
/// No memory.
pub fn floor_divide(a: i64, b: i64) -> i64
    requires { b ≢ pos 0 }
    ensures { result ≡ wrap (floor_div a b) }
{
    if b == -1 {
        return a.wrapping_neg();
    }
    let quotient = a.div_euclid(b);
    if b < 0 && a.rem_euclid(b) != 0 {
        quotient - 1
    } else {
        quotient
    }
}

/// What the quotient leaves, with the sign of the divisor, as NumPy's `remainder`. No memory.
pub fn floor_remainder(a: i64, b: i64) -> i64
    requires { b ≢ pos 0 }
    ensures { result ≡ wrap (floor_rem a b) }
{
    if b == -1 {
        return 0;
    }
    let rest = a.rem_euclid(b);
    if b < 0 && rest != 0 { rest + b } else { rest }
}
