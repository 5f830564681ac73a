//! Slices of one axis, by Python's rules.
ghost use Rattle.std.specs.Prelude.{◌≡◌, ◌≢◌, ◌<◌, ◌≤◌, ℕ, ℤ, pos, negsuc, ◌*◌, ◌+ℤ◌, ◌-ℤ◌, ◌<ℤ◌, Option, IfOk, IfErr, cond, nat_eq};
ghost use Rattle.nd_shape.specs.Slice.{Resolves, RefusesPart, StepsFitAxis, IsRange, clipped, from_end, first_index, end_index};

use crate::error::ShapeError;

/// One part of a slice, between `[` and `]`: an index, or a range by its start, its stop and its step, each of which
/// may be left out.
#[derive(Clone, Copy)]
pub enum Part {
    At(i64),
    Range(Option<i64>, Option<i64>, Option<i64>),
}

/// The indexes of an axis that a slice takes: `count` of them, from `start` on, `step` apart.
#[derive(Clone, Copy)]
pub struct Steps {
    pub start: u64,
    pub step: i64,
    pub count: u64,
}

/// The indexes that a part takes of an axis of `len`, by Python's rules for sequences
/// (<https://numpy.org/doc/stable/user/basics.indexing.html>): an index below 0 counts from the end, the ends of a range
/// are held to the axis, and a start or stop that is left out goes by the sign of the step. An index outside the axis is
/// BadIndex and a step of 0 is ZeroStep. An index has the step 1, and where there is no element the start is 0.
/// No memory.
pub fn resolve_slice(len: u64, part: &Part) -> Result<Steps, ShapeError>
    ensures ok { IfOk result (λ steps. Resolves len part.now steps) }
    ensures inside { IfOk result (λ steps. StepsFitAxis steps len) }
    ensures err { IfErr result (λ e. RefusesPart len part.now e) }
{
    match part {
        Part::At(index) => resolve_index(len, *index),
        Part::Range(start, stop, step) => resolve_range(len, *start, *stop, step.unwrap_or(1)),
    }
}

fn resolve_index(len: u64, index: i64) -> Result<Steps, ShapeError>
    ensures ok { IfOk result (λ steps. Resolves len (Part.At index) steps) }
    ensures err { IfErr result (λ e. RefusesPart len (Part.At index) e) }
{
    let distance = index.unsigned_abs();
    let start = if index >= 0 {
        if distance >= len {
            return Err(ShapeError::BadIndex { index, len });
        }
        distance
    } else {
        if distance > len {
            return Err(ShapeError::BadIndex { index, len });
        }
        len - distance
    };
    Ok(Steps {
        start,
        step: 1,
        count: 1,
    })
}

fn resolve_range(
    len: u64,
    start: Option<i64>,
    stop: Option<i64>,
    step: i64,
) -> Result<Steps, ShapeError>
    ensures ok { IfOk result (λ steps. (step ≢ pos 0) × IsRange (first_index len step start) (end_index len step stop) step steps) }
    ensures err { IfErr result (λ e. (step ≡ pos 0) × (e ≡ ShapeError.ZeroStep)) }
{
    if step == 0 {
        return Err(ShapeError::ZeroStep);
    }
    if step > 0 {
        return Ok(forwards(len, start, stop, step));
    }
    Ok(backwards(len, start, stop, step))
}

// How many steps of this size begin below a distance.
fn steps_within(distance: u64, size: u64) -> u64
    requires { 0 < size }
    ensures taken { (t : ℕ) → t < result → size * t < distance }
    ensures ended { distance ≤ size * result }
{
    if distance == 0 {
        return 0;
    }
    (distance - 1) / size + 1
}

// An index held to 0 and the length.
fn held(len: u64, index: i64) -> u64
    ensures { pos result ≡ clipped (pos 0) (pos len) (from_end len index) }
{
    let distance = index.unsigned_abs();
    if index >= 0 {
        distance.min(len)
    } else {
        len.saturating_sub(distance)
    }
}

// An index held to -1 and the last one, plus 1.
fn held_above(len: u64, index: i64) -> u64
    ensures { pos result ≡ clipped (negsuc 0) (pos len -ℤ pos 1) (from_end len index) +ℤ pos 1 }
{
    let distance = index.unsigned_abs();
    if index >= 0 {
        if distance < len { distance + 1 } else { len }
    } else if distance <= len {
        len - distance + 1
    } else {
        0
    }
}

fn first_forwards(len: u64, step: i64, start: Option<i64>) -> u64
    requires { pos 0 <ℤ step }
    ensures { pos result ≡ first_index len step start }
{
    match start {
        None => 0,
        Some(index) => held(len, index),
    }
}

fn end_forwards(len: u64, step: i64, stop: Option<i64>) -> u64
    requires { pos 0 <ℤ step }
    ensures { pos result ≡ end_index len step stop }
{
    match stop {
        None => len,
        Some(index) => held(len, index),
    }
}

// One above the first index.
fn first_backwards(len: u64, step: i64, start: Option<i64>) -> u64
    requires { step <ℤ pos 0 }
    ensures { pos result ≡ first_index len step start +ℤ pos 1 }
{
    match start {
        None => len,
        Some(index) => held_above(len, index),
    }
}

// One above the end, which is -1 where it lies before the first index.
fn end_backwards(len: u64, step: i64, stop: Option<i64>) -> u64
    requires { step <ℤ pos 0 }
    ensures { pos result ≡ end_index len step stop +ℤ pos 1 }
{
    match stop {
        None => 0,
        Some(index) => held_above(len, index),
    }
}

fn start_of(first: u64, count: u64) -> u64
    ensures { result ≡ cond (nat_eq count 0) 0 first }
{
    if count == 0 { 0 } else { first }
}

fn forwards(len: u64, start: Option<i64>, stop: Option<i64>, step: i64) -> Steps
    requires { pos 0 <ℤ step }
    ensures { IsRange (first_index len step start) (end_index len step stop) step result }
{
    let first = first_forwards(len, step, start);
    let end = end_forwards(len, step, stop);
    let count = steps_within(end.saturating_sub(first), step.unsigned_abs());
    Steps {
        start: start_of(first, count),
        step,
        count,
    }
}

fn backwards(len: u64, start: Option<i64>, stop: Option<i64>, step: i64) -> Steps
    requires { step <ℤ pos 0 }
    ensures { IsRange (first_index len step start) (end_index len step stop) step result }
{
    let first = first_backwards(len, step, start);
    let end = end_backwards(len, step, stop);
    let count = steps_within(first.saturating_sub(end), step.unsigned_abs());
    Steps {
        start: start_of(first.saturating_sub(1), count),
        step,
        count,
    }
}
