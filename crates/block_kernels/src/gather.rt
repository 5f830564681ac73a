//! Rows of elements that lie at equal distances.
ghost use Rattle.std.specs.Prelude.{◌≡◌, ℕ, ◌<◌, ◌≤◌, ◌+◌, ◌-◌, ◌*◌, ◌^◌, pos, length, get_or};
ghost use Rattle.block_kernels.specs.Gathers.{IsSpot, IsRow};

// Elements a jump apart, upwards.
fn gather_up(cells: &[i64], first: usize, jump: usize, out: &mut [i64])
    requires inside { (i : ℕ) → i < length out.old → first + i * jump < length cells.now }
    requires few { length cells.now ≤ 2 ^ 31 }
    ensures len { length out.new ≡ length out.old }
    ensures each { (i : ℕ) → i < length out.old → get_or out.new i (pos 0) ≡ get_or cells.now (first + i * jump) (pos 0) }
{
    for i in 0..out.len() {
        out[i] = cells[first + i * jump];
    }
}

// Elements a jump apart, downwards.
fn gather_down(cells: &[i64], first: usize, jump: usize, out: &mut [i64])
    requires inside { (i : ℕ) → i < length out.old → i * jump ≤ first }
    requires start { first < length cells.now }
    requires few { length cells.now ≤ 2 ^ 31 }
    ensures len { length out.new ≡ length out.old }
    ensures each { (i : ℕ) → i < length out.old → get_or out.new i (pos 0) ≡ get_or cells.now (first - i * jump) (pos 0) }
{
    for i in 0..out.len() {
        out[i] = cells[first - i * jump];
    }
}

// Elements one after another.
fn copy_row(cells: &[i64], first: usize, out: &mut [i64])
    requires inside { first + length out.old ≤ length cells.now }
    ensures len { length out.new ≡ length out.old }
    ensures each { (i : ℕ) → i < length out.old → get_or out.new i (pos 0) ≡ get_or cells.now (first + i) (pos 0) }
{
    let end = first + out.len();
    out.copy_from_slice(&cells[first..end]);
}

/// Writes the elements at the places of a row, which lie at equal distances, from one of them on: the places of the
/// row's first and second are given. Where they lie one after another they are copied as they lie. No memory.
pub fn gather(cells: &[i64], first: usize, second: usize, from: usize, out: &mut [i64])
    requires row { IsRow (length cells.now) first second (from + length out.old) }
    requires few { length cells.now ≤ 2 ^ 31 }
    requires some { 0 < length out.old }
    ensures len { length out.new ≡ length out.old }
    ensures each { (i p : ℕ) → i < length out.old → IsSpot first second (from + i) p → get_or out.new i (pos 0) ≡ get_or cells.now p (pos 0) }
{
    if second < first {
        let jump = first - second;
        gather_down(cells, first - from * jump, jump, out);
    } else if second == first + 1 {
        copy_row(cells, first + from, out);
    } else {
        let jump = second - first;
        gather_up(cells, first + from * jump, jump, out);
    }
}
