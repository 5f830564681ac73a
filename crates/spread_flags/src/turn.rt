//! One flag that changes, with the counts of the keys that its key leads to.
ghost use Rattle.std.specs.Prelude.{◌≡◌, ℕ, ◌+◌, ◌<◌, ◌≤◌, ◌^◌, ◌&&◌, ◌||◌, not, true, false, cond, length, All};
ghost use Rattle.std.specs.List.Sorted.{IsStrictlyIncreasing};
ghost use Rattle.fact_rows.specs.Rows.{read};
ghost use Rattle.cluster_rules.specs.Derived.{is_in};
ghost use Rattle.key_sets.specs.Sets.{has, room};

use fact_rows::Row;
use key_sets::KeySet;

/// One more for each of these keys.
pub fn count_more(counts: &mut Row<u32>, keys: &[u32])
    requires keys { All (λ k. k < length counts.old) keys.now }
    requires rising { IsStrictlyIncreasing keys.now }
    requires few { (k : ℕ) → read counts.old 0 k < 2 ^ 31 }
    ensures counted { (k : ℕ) → read counts.new 0 k ≡ read counts.old 0 k + cond (is_in k keys.now) 1 0 }
    ensures length { length counts.new ≡ length counts.old }
{
    for key in keys {
        let count = counts.get(*key);
        counts.set(*key, count + 1);
    }
}

/// One less for each of these keys.
pub fn count_less(counts: &mut Row<u32>, keys: &[u32])
    requires keys { All (λ k. k < length counts.old) keys.now }
    requires rising { IsStrictlyIncreasing keys.now }
    requires enough { (k : ℕ) → is_in k keys.now ≡ true → 1 ≤ read counts.old 0 k }
    ensures counted { (k : ℕ) → read counts.new 0 k + cond (is_in k keys.now) 1 0 ≡ read counts.old 0 k }
    ensures length { length counts.new ≡ length counts.old }
{
    for key in keys {
        let count = counts.get(*key);
        counts.set(*key, count - 1);
    }
}

/// Each of these keys is to be looked at.
pub fn mark_all(stale: &mut KeySet, keys: &[u32])
    requires { All (λ k. k < room stale.old) keys.now }
    ensures marked { (k : ℕ) → has stale.new k ≡ (has stale.old k || is_in k keys.now) }
    ensures room { room stale.new ≡ room stale.old }
{
    for key in keys {
        stale.insert(*key);
    }
}

/// One more for each of these keys, or one less.
pub fn count_turn(counts: &mut Row<u32>, keys: &[u32], to: bool)
    requires keys { All (λ k. k < length counts.old) keys.now }
    requires rising { IsStrictlyIncreasing keys.now }
    requires few { (k : ℕ) → read counts.old 0 k < 2 ^ 31 }
    requires enough { to ≡ false → (k : ℕ) → is_in k keys.now ≡ true → 1 ≤ read counts.old 0 k }
    ensures counted { (k : ℕ) → read counts.new 0 k + cond (is_in k keys.now && not to) 1 0 ≡ read counts.old 0 k + cond (is_in k keys.now && to) 1 0 }
    ensures length { length counts.new ≡ length counts.old }
{
    if to {
        count_more(counts, keys);
    } else {
        count_less(counts, keys);
    }
}
