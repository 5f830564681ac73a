//! Loops that count keys.
ghost use Rattle.std.specs.Prelude.{◌≡◌, ◌&&◌, ◌+◌, ◌<◌, ◌^◌, ℕ, cond, true, length, All};
ghost use Rattle.std.specs.List.Sorted.{IsStrictlyIncreasing};
ghost use Rattle.cluster_rules.specs.Derived.{is_in};
ghost use Rattle.fact_rows.specs.Rows.{read};

use fact_rows::Row;

/// Counts one more at each of these keys.
fn add_one(row: &mut Row<u32>, keys: &[u32])
    requires within { All (λ k. k < length row.old) keys.now }
    requires rising { IsStrictlyIncreasing keys.now }
    requires room { (k : ℕ) → read row.old 0 k < 2 ^ 31 }
    ensures counted { (k : ℕ) → read row.new 0 k ≡ read row.old 0 k + cond (is_in k keys.now) 1 0 }
    ensures length { length row.new ≡ length row.old }
{
    for key in keys {
        let count = row.get(*key);
        row.set(*key, count + 1);
    }
}

/// Counts one less at each of these keys.
fn take_one(row: &mut Row<u32>, keys: &[u32])
    requires within { All (λ k. k < length row.old) keys.now }
    requires rising { IsStrictlyIncreasing keys.now }
    requires there { (k : ℕ) → is_in k keys.now ≡ true → 0 < read row.old 0 k }
    ensures counted { (k : ℕ) → read row.new 0 k + cond (is_in k keys.now) 1 0 ≡ read row.old 0 k }
    ensures length { length row.new ≡ length row.old }
{
    for key in keys {
        let count = row.get(*key);
        row.set(*key, count - 1);
    }
}

/// Counts anew after a test that stands for these keys was `before` and is `after`.
pub fn recount(row: &mut Row<u32>, keys: &[u32], before: bool, after: bool)
    requires within { All (λ k. k < length row.old) keys.now }
    requires rising { IsStrictlyIncreasing keys.now }
    requires room { (k : ℕ) → read row.old 0 k < 2 ^ 31 }
    requires there { before ≡ true → (k : ℕ) → is_in k keys.now ≡ true → 0 < read row.old 0 k }
    ensures counted { (k : ℕ) → read row.new 0 k + cond (before && is_in k keys.now) 1 0 ≡ read row.old 0 k + cond (after && is_in k keys.now) 1 0 }
    ensures length { length row.new ≡ length row.old }
{
    if before & !after {
        take_one(row, keys);
    } else if after & !before {
        add_one(row, keys);
    }
}
