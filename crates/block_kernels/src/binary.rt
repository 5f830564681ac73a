//! Operations on two rows, element by element.
ghost use Rattle.std.specs.Prelude.{◌≡◌, ◌≢◌, ℕ, ℤ, ◌<◌, ◌≤◌, length, cond, get_or, pos, Some, None, IfSome, IfNone};
ghost use Rattle.nd_grid.specs.Operation.{apply};
ghost use Rattle.nd_grid.specs.declared.operation.Binary.{Binary};
ghost use Rattle.nd_grid.specs.declared.operation.Binary.TheVariants.{FloorDiv, Rem};
ghost use Rattle.block_kernels.specs.Rows.{item, Applied, Refused, HoldsItems};

use crate::source::{One, Row, Source};
use nd_grid::Binary;
use nd_grid::int64::{floor_divide, floor_remainder};

/// An operation on two elements that is known when the loop is compiled.
pub trait Operation: Copy {
    ghost binary: { Self → Binary };

    ghost takes: { Self → ℤ → Type 0 };

    /// What the operation makes of two elements. No memory.
    fn on(&self, x: i64, y: i64) -> i64
        requires { takes self.now y }
        ensures { apply (binary self.now) x y ≡ Some result };
}

#[derive(Clone, Copy)]
struct Adding;

impl Operation for Adding {
    ghost use Rattle.nd_grid.specs.declared.operation.Binary.TheVariants.{Add};

    ghost binary = { λ s. Add };

    ghost takes = { λ s y. Unit {0} };

    fn on(&self, x: i64, y: i64) -> i64 {
        x.wrapping_add(y)
    }
}

#[derive(Clone, Copy)]
struct Subtracting;

impl Operation for Subtracting {
    ghost use Rattle.nd_grid.specs.declared.operation.Binary.TheVariants.{Sub};

    ghost binary = { λ s. Sub };

    ghost takes = { λ s y. Unit {0} };

    fn on(&self, x: i64, y: i64) -> i64 {
        x.wrapping_sub(y)
    }
}

#[derive(Clone, Copy)]
struct Multiplying;

impl Operation for Multiplying {
    ghost use Rattle.nd_grid.specs.declared.operation.Binary.TheVariants.{Mul};

    ghost binary = { λ s. Mul };

    ghost takes = { λ s y. Unit {0} };

    fn on(&self, x: i64, y: i64) -> i64 {
        x.wrapping_mul(y)
    }
}

#[derive(Clone, Copy)]
struct Dividing;

impl Operation for Dividing {
    ghost use Rattle.std.specs.Prelude.{◌≢◌, pos};
    ghost use Rattle.nd_grid.specs.declared.operation.Binary.TheVariants.{FloorDiv};

    ghost binary = { λ s. FloorDiv };

    ghost takes = { λ s y. y ≢ pos 0 };

    fn on(&self, x: i64, y: i64) -> i64 {
        floor_divide(x, y)
    }
}

#[derive(Clone, Copy)]
struct Remaining;

impl Operation for Remaining {
    ghost use Rattle.std.specs.Prelude.{◌≢◌, pos};
    ghost use Rattle.nd_grid.specs.declared.operation.Binary.TheVariants.{Rem};

    ghost binary = { λ s. Rem };

    ghost takes = { λ s y. y ≢ pos 0 };

    fn on(&self, x: i64, y: i64) -> i64 {
        floor_remainder(x, y)
    }
}

#[derive(Clone, Copy)]
struct Least;

impl Operation for Least {
    ghost use Rattle.nd_grid.specs.declared.operation.Binary.TheVariants.{Minimum};

    ghost binary = { λ s. Minimum };

    ghost takes = { λ s y. Unit {0} };

    fn on(&self, x: i64, y: i64) -> i64 {
        x.min(y)
    }
}

#[derive(Clone, Copy)]
struct Greatest;

impl Operation for Greatest {
    ghost use Rattle.nd_grid.specs.declared.operation.Binary.TheVariants.{Maximum};

    ghost binary = { λ s. Maximum };

    ghost takes = { λ s y. Unit {0} };

    fn on(&self, x: i64, y: i64) -> i64 {
        x.max(y)
    }
}

// The one loop of all operations.
fn fill_pairs<O: Operation, L: Source, R: Source>(op: O, left: L, right: R, out: &mut [i64])
    requires left { (i : ℕ) → i < length out.old → L.holds left i }
    requires right { (i : ℕ) → i < length out.old → R.holds right i }
    requires takes { (i : ℕ) → i < length out.old → O.takes op (R.value right i) }
    ensures len { length out.new ≡ length out.old }
    ensures each { (i : ℕ) → i < length out.old → apply (O.binary op) (L.value left i) (R.value right i) ≡ Some (get_or out.new i (pos 0)) }
{
    for i in 0..out.len() {
        out[i] = op.on(left.at(i), right.at(i));
    }
}

/// A row of an operand: its elements, or the one element that stands for all.
#[derive(Clone, Copy)]
pub struct Run<'a> {
    pub cells: &'a [i64],
    pub single: bool,
}

// The loop with whole rows and single elements told apart.
fn fill_runs<O: Operation>(op: O, left: Run, right: Run, out: &mut [i64])
    requires left { HoldsItems left.cells.now left.single (length out.old) }
    requires right { HoldsItems right.cells.now right.single (length out.old) }
    requires some { 0 < length out.old }
    requires takes { (i : ℕ) → i < length out.old → O.takes op (item right.cells.now right.single i) }
    ensures len { length out.new ≡ length out.old }
    ensures applied { Applied (O.binary op) left.entry.cells.now left.entry.single right.entry.cells.now right.entry.single out.new }
{
    let x = Row { cells: left.cells };
    let y = Row { cells: right.cells };
    if left.single {
        let x = One {
            item: left.cells[0],
        };
        if right.single {
            let y = One {
                item: right.cells[0],
            };
            fill_pairs(op, x, y, out);
        } else {
            fill_pairs(op, x, y, out);
        }
    } else if right.single {
        let y = One {
            item: right.cells[0],
        };
        fill_pairs(op, x, y, out);
    } else {
        fill_pairs(op, x, y, out);
    }
}

// The first of so many elements that is 0.
fn zero_in(cells: &[i64], count: usize) -> Option<u64>
    requires { count ≤ length cells.now }
    ensures none { IfNone result ((i : ℕ) → i < count → get_or cells.now i (pos 0) ≢ pos 0) }
    ensures inside { IfSome result (λ z. z < count) }
    ensures zero { IfSome result (λ z. get_or cells.now z (pos 0) ≡ pos 0) }
    ensures first { IfSome result (λ z. (i : ℕ) → i < z → get_or cells.now i (pos 0) ≢ pos 0) }
{
    for i in 0..count {
        if cells[i] == 0 {
            return Some(i as u64);
        }
    }
    None
}

fn count_of(single: bool, len: usize) -> usize
    ensures { result ≡ cond single 1 len }
{
    if single { 1 } else { len }
}

// The first divisor of a row that is 0.
fn first_zero(divisors: Run, len: usize) -> Option<u64>
    requires holds { HoldsItems divisors.cells.now divisors.single len }
    requires some { 0 < len }
    ensures none { IfNone result ((i : ℕ) → i < len → item divisors.entry.cells.now divisors.entry.single i ≢ pos 0) }
    ensures inside { IfSome result (λ z. z < len) }
    ensures zero { IfSome result (λ z. item divisors.entry.cells.now divisors.entry.single z ≡ pos 0) }
    ensures first { IfSome result (λ z. (i : ℕ) → i < z → item divisors.entry.cells.now divisors.entry.single i ≢ pos 0) }
{
    let count = count_of(divisors.single, len);
    zero_in(divisors.cells, count)
}

// An operation that leaves something of all elements.
fn fill_total<O: Operation>(op: O, left: Run, right: Run, out: &mut [i64]) -> Option<u64>
    requires left { HoldsItems left.cells.now left.single (length out.old) }
    requires right { HoldsItems right.cells.now right.single (length out.old) }
    requires some { 0 < length out.old }
    requires takes { (y : ℤ) → O.takes op y }
    ensures len { length out.new ≡ length out.old }
    ensures none { IfNone result (Applied (O.binary op) left.entry.cells.now left.entry.single right.entry.cells.now right.entry.single out.new) }
    ensures some { IfSome result (λ z. ⊥) }
{
    fill_runs(op, left, right, out);
    None
}

// The quotients, unless a divisor is 0.
fn fill_quotients(left: Run, right: Run, out: &mut [i64]) -> Option<u64>
    requires left { HoldsItems left.cells.now left.single (length out.old) }
    requires right { HoldsItems right.cells.now right.single (length out.old) }
    requires some { 0 < length out.old }
    ensures len { length out.new ≡ length out.old }
    ensures none { IfNone result (Applied FloorDiv left.entry.cells.now left.entry.single right.entry.cells.now right.entry.single out.new) }
    ensures some { IfSome result (Refused FloorDiv left.entry.cells.now left.entry.single right.entry.cells.now right.entry.single (length out.old)) }
{
    match first_zero(right, out.len()) {
        Some(zero) => Some(zero),
        None => {
            fill_runs(Dividing, left, right, out);
            None
        }
    }
}

// The remainders, unless a divisor is 0.
fn fill_remainders(left: Run, right: Run, out: &mut [i64]) -> Option<u64>
    requires left { HoldsItems left.cells.now left.single (length out.old) }
    requires right { HoldsItems right.cells.now right.single (length out.old) }
    requires some { 0 < length out.old }
    ensures len { length out.new ≡ length out.old }
    ensures none { IfNone result (Applied Rem left.entry.cells.now left.entry.single right.entry.cells.now right.entry.single out.new) }
    ensures some { IfSome result (Refused Rem left.entry.cells.now left.entry.single right.entry.cells.now right.entry.single (length out.old)) }
{
    match first_zero(right, out.len()) {
        Some(zero) => Some(zero),
        None => {
            fill_runs(Remaining, left, right, out);
            None
        }
    }
}

/// Writes what the operation makes of two rows, or tells the first place with a divisor of 0. No memory.
pub fn fill_binary(op: Binary, left: Run, right: Run, out: &mut [i64]) -> Option<u64>
    requires left { HoldsItems left.cells.now left.single (length out.old) }
    requires right { HoldsItems right.cells.now right.single (length out.old) }
    requires some { 0 < length out.old }
    ensures len { length out.new ≡ length out.old }
    ensures none { IfNone result (Applied op left.entry.cells.now left.entry.single right.entry.cells.now right.entry.single out.new) }
    ensures some { IfSome result (Refused op left.entry.cells.now left.entry.single right.entry.cells.now right.entry.single (length out.old)) }
{
    match op {
        Binary::Add => fill_total(Adding, left, right, out),
        Binary::Sub => fill_total(Subtracting, left, right, out),
        Binary::Mul => fill_total(Multiplying, left, right, out),
        Binary::FloorDiv => fill_quotients(left, right, out),
        Binary::Rem => fill_remainders(left, right, out),
        Binary::Minimum => fill_total(Least, left, right, out),
        Binary::Maximum => fill_total(Greatest, left, right, out),
    }
}
