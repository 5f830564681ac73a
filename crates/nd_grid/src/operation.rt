//! Operations on elements. They wrap modulo 2^64.
ghost use Rattle.std.specs.Prelude.{◌≡◌, ◌<◌, ◌^◌, pos, ◌+ℤ◌, ◌*ℤ◌, Some};
ghost use Rattle.nd_grid.specs.Int64.{wrap};
ghost use Rattle.nd_grid.specs.Operation.{apply, combine, pick, pick_all, negated_element, neutral, fold_two};

use crate::int64::{floor_divide, floor_remainder};

/// An operation on two elements.
#[derive(Clone, Copy)]
pub enum Binary {
    Add,
    Sub,
    Mul,
    /// Rounds towards minus infinity.
    FloorDiv,
    /// Takes the sign of the divisor.
    Rem,
    Minimum,
    Maximum,
}

/// An operation that folds elements into one.
#[derive(Clone, Copy)]
pub enum Fold {
    Sum,
    Prod,
    Min,
    Max,
}

/// The result, or nothing where the divisor is 0. No memory.
pub fn apply(op: Binary, a: i64, b: i64) -> Option<i64>
    ensures { result ≡ apply op a b }
{
    match op {
        Binary::Add => Some(a.wrapping_add(b)),
        Binary::Sub => Some(a.wrapping_sub(b)),
        Binary::Mul => Some(a.wrapping_mul(b)),
        Binary::FloorDiv => {
            if b == 0 {
                None
            } else {
                Some(floor_divide(a, b))
            }
        }
        Binary::Rem => {
            if b == 0 {
                None
            } else {
                Some(floor_remainder(a, b))
            }
        }
        Binary::Minimum => Some(a.min(b)),
        Binary::Maximum => Some(a.max(b)),
    }
}

/// The result, where both elements are there. No memory.
pub fn combine(op: Binary, a: Option<i64>, b: Option<i64>) -> Option<i64>
    ensures { result ≡ combine op a b }
{
    match (a, b) {
        (Some(a), Some(b)) => apply(op, a, b),
        _ => None,
    }
}

/// The second where the first isn't 0, else the third; nothing where one of the three is nothing. No memory.
pub fn pick(condition: Option<i64>, yes: Option<i64>, no: Option<i64>) -> Option<i64>
    ensures { result ≡ pick_all condition yes no }
{
    match (condition, yes, no) {
        (Some(condition), Some(yes), Some(no)) => Some(if condition != 0 { yes } else { no }),
        _ => None,
    }
}

/// The element negated; `-2^63` stays as it is. No memory.
pub fn negate_element(a: i64) -> i64
    ensures { Some result ≡ negated_element (Some a) }
{
    0i64.wrapping_sub(a)
}

/// Where a fold begins: it changes nothing. No memory.
pub fn neutral(fold: Fold) -> i64
    ensures { result ≡ neutral fold }
{
    match fold {
        Fold::Sum => 0,
        Fold::Prod => 1,
        Fold::Min => i64::MAX,
        Fold::Max => i64::MIN,
    }
}

/// Two elements folded into one. No memory.
pub fn fold_two(fold: Fold, a: i64, b: i64) -> i64
    ensures { result ≡ fold_two fold a b }
{
    match fold {
        Fold::Sum => a.wrapping_add(b),
        Fold::Prod => a.wrapping_mul(b),
        Fold::Min => a.min(b),
        Fold::Max => a.max(b),
    }
}

fn scaled(step: i64, place: u64) -> i64
    requires { place < 2 ^ 31 }
    ensures { result ≡ wrap (step *ℤ pos place) }
{
    step.wrapping_mul(place as i64)
}

/// The element of a ramp at a place: `start + step * place`. No memory.
pub fn on_slope(start: i64, step: i64, place: u64) -> i64
    requires { place < 2 ^ 31 }
    ensures { result ≡ wrap (start +ℤ (step *ℤ pos place)) }
{
    start.wrapping_add(scaled(step, place))
}
