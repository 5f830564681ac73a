//! Loops that mark keys.
ghost use Rattle.std.specs.Prelude.{◌≡◌, ◌==◌, ◌||◌, ◌&&◌, not, ◌<◌, ℕ, false, length};
ghost use Rattle.std.specs.List.{list_any};
ghost use Rattle.cluster_rules.specs.Worker.{is_asked_for};
ghost use Rattle.fact_rows.specs.Rows.{read};
ghost use Rattle.open_asks.specs.Flying.{names_to};

use crate::asks::OpenAsk;
use fact_rows::Row;

/// Marks a key, where the row has it.
fn mark_key(row: &mut Row<bool>, key: u32)
    ensures marked { (k : ℕ) → k < length row.old → read row.new false k ≡ (read row.old false k || key == k) }
    ensures length { length row.new ≡ length row.old }
{
    if (key as usize) < row.len() {
        row.set(key, true);
    }
}

/// Marks the first of each of these pairs, where the row has it: the keys of items, say, or the peers of holders.
pub fn mark_items(row: &mut Row<bool>, items: &[(u32, u64)])
    ensures marked { (k : ℕ) → k < length row.old → read row.new false k ≡ (read row.old false k || list_any (λ i. i.0 == k) items.now) }
    ensures length { length row.new ≡ length row.old }
{
    for item in items {
        mark_key(row, item.0);
    }
}

/// Marks the keys that these asks name.
pub fn mark_asked(row: &mut Row<bool>, asks: &[OpenAsk])
    ensures marked { (k : ℕ) → k < length row.old → read row.new false k ≡ (read row.old false k || is_asked_for asks.now k) }
    ensures length { length row.new ≡ length row.old }
{
    for ask in asks {
        mark_items(row, ask.items());
    }
}

/// Takes the mark of a key away, where the row has it.
fn unmark_key(row: &mut Row<bool>, key: u32)
    ensures marked { (k : ℕ) → k < length row.old → read row.new false k ≡ (read row.old false k && not (key == k)) }
    ensures length { length row.new ≡ length row.old }
{
    if (key as usize) < row.len() {
        row.set(key, false);
    }
}

/// Takes the marks of the keys of these items away.
pub fn unmark_items(row: &mut Row<bool>, items: &[(u32, u64)])
    ensures marked { (k : ℕ) → k < length row.old → read row.new false k ≡ (read row.old false k && not (list_any (λ i. i.0 == k) items.now)) }
    ensures length { length row.new ≡ length row.old }
{
    for item in items {
        unmark_key(row, item.0);
    }
}

/// Takes the marks of the keys of an ask away, where it is to this peer.
fn unmark_ask(row: &mut Row<bool>, ask: &OpenAsk, peer: u32)
    ensures marked { (k : ℕ) → k < length row.old → read row.new false k ≡ (read row.old false k && not (names_to peer k ask.now)) }
    ensures length { length row.new ≡ length row.old }
{
    if ask.peer() == peer {
        unmark_items(row, ask.items());
    }
}

/// Takes the marks of the keys away that the asks to this peer name.
pub fn unmark_asked(row: &mut Row<bool>, asks: &[OpenAsk], peer: u32)
    ensures marked { (k : ℕ) → k < length row.old → read row.new false k ≡ (read row.old false k && not (list_any (names_to peer k) asks.now)) }
    ensures length { length row.new ≡ length row.old }
{
    for ask in asks {
        unmark_ask(row, ask, peer);
    }
}
