//! The choice between two rows, element by element.
ghost use Rattle.std.specs.Prelude.{◌≡◌, ℕ, ◌<◌, length, get_or, pos};
ghost use Rattle.nd_grid.specs.Operation.{pick};
ghost use Rattle.block_kernels.specs.Rows.{item, HoldsItems};

use crate::binary::Run;
use crate::source::{One, Row, Source};

// The second where the condition isn't 0, else the third. Both are there already, so that it is no branch.
fn picked(condition: i64, first: i64, second: i64) -> i64
    ensures { result ≡ pick condition first second }
{
    if condition != 0 { first } else { second }
}

// The one loop.
fn fill_choices<C: Source, A: Source, B: Source>(condition: C, first: A, second: B, out: &mut [i64])
    requires condition { (i : ℕ) → i < length out.old → C.holds condition i }
    requires first { (i : ℕ) → i < length out.old → A.holds first i }
    requires second { (i : ℕ) → i < length out.old → B.holds second i }
    ensures len { length out.new ≡ length out.old }
    ensures each { (i : ℕ) → i < length out.old → pick (C.value condition i) (A.value first i) (B.value second i) ≡ get_or out.new i (pos 0) }
{
    for i in 0..out.len() {
        out[i] = picked(condition.at(i), first.at(i), second.at(i));
    }
}

// The loop with the third row told apart.
fn fill_third<C: Source, A: Source>(condition: C, first: A, second: Run, out: &mut [i64])
    requires condition { (i : ℕ) → i < length out.old → C.holds condition i }
    requires first { (i : ℕ) → i < length out.old → A.holds first i }
    requires second { HoldsItems second.cells.now second.single (length out.old) }
    requires some { 0 < length out.old }
    ensures len { length out.new ≡ length out.old }
    ensures each { (i : ℕ) → i < length out.old
        → pick (C.value condition i) (A.value first i) (item second.entry.cells.now second.entry.single i)
        ≡ get_or out.new i (pos 0) }
{
    if second.single {
        let other = One {
            item: second.cells[0],
        };
        fill_choices(condition, first, other, out);
    } else {
        let other = Row {
            cells: second.cells,
        };
        fill_choices(condition, first, other, out);
    }
}

// And the second.
fn fill_second<C: Source>(condition: C, first: Run, second: Run, out: &mut [i64])
    requires condition { (i : ℕ) → i < length out.old → C.holds condition i }
    requires first { HoldsItems first.cells.now first.single (length out.old) }
    requires second { HoldsItems second.cells.now second.single (length out.old) }
    requires some { 0 < length out.old }
    ensures len { length out.new ≡ length out.old }
    ensures each { (i : ℕ) → i < length out.old
        → pick (C.value condition i) (item first.entry.cells.now first.entry.single i) (item second.entry.cells.now second.entry.single i)
        ≡ get_or out.new i (pos 0) }
{
    if first.single {
        let one = One {
            item: first.cells[0],
        };
        fill_third(condition, one, second, out);
    } else {
        let one = Row { cells: first.cells };
        fill_third(condition, one, second, out);
    }
}

/// Writes the first where the condition isn't 0, else the second, element by element of three rows. No memory.
pub fn fill_choice(condition: Run, first: Run, second: Run, out: &mut [i64])
    requires condition { HoldsItems condition.cells.now condition.single (length out.old) }
    requires first { HoldsItems first.cells.now first.single (length out.old) }
    requires second { HoldsItems second.cells.now second.single (length out.old) }
    requires some { 0 < length out.old }
    ensures len { length out.new ≡ length out.old }
    ensures each { (i : ℕ) → i < length out.old
        → pick (item condition.entry.cells.now condition.entry.single i) (item first.entry.cells.now first.entry.single i) (item second.entry.cells.now second.entry.single i)
        ≡ get_or out.new i (pos 0) }
{
    if condition.single {
        let test = One {
            item: condition.cells[0],
        };
        fill_second(test, first, second, out);
    } else {
        let test = Row {
            cells: condition.cells,
        };
        fill_second(test, first, second, out);
    }
}
