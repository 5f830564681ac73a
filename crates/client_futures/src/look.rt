//! Looks at what a driver saw of several keys.
ghost use Rattle.std.specs.Prelude.{◌≡◌, ◌≢◌, ◌<◌, ◌≤◌, ℕ, [], length, map, slice_index_or, IfSome, IfNone};
ghost use Rattle.std.specs.Vec.{vec_capacity};
ghost use Rattle.std.specs.Arc.{arc_value};
ghost use Rattle.cluster_msgs.specs.declared.cores.End.TheVariants.{Got, Erred};
ghost use Rattle.client_futures.specs.Answers.{AreGot, IsLeast};
ghost use Rattle.client_futures.specs.Least.{lesser, lesser_erred};

use crate::rounds::Rounds;
use cluster_msgs::End;
use std::sync::Arc;

/// The least of these keys that failed, with the key that is to blame.
pub fn least_erred<R: Rounds>(rounds: &R, keys: &[u32]) -> Option<(u32, u32)>
    ensures { IsLeast (R.seen rounds.now).ends keys.now result }
{
    if rounds.may_err() {
        least_of(rounds, keys)
    } else {
        None
    }
}

fn least_of<R: Rounds>(rounds: &R, keys: &[u32]) -> Option<(u32, u32)>
    ensures { IsLeast (R.seen rounds.now).ends keys.now result }
{
    let mut least = None;
    for key in keys {
        least = lesser(least, *key, rounds.end(*key));
    }
    least
}

/// The lesser of the least of some keys that failed, and one more key, where that failed.
fn lesser(least: Option<(u32, u32)>, key: u32, end: Option<End>) -> Option<(u32, u32)>
    ensures { result ≡ lesser least key end }
{
    match end {
        Some(End::Erred { blame }) => lesser_erred(least, key, blame),
        _ => least,
    }
}

fn lesser_erred(least: Option<(u32, u32)>, key: u32, blame: u32) -> Option<(u32, u32)>
    ensures { result ≡ lesser_erred least key blame }
{
    match least {
        Some(before) => if before.0 <= key {
            Some(before)
        } else {
            Some((key, blame))
        },
        None => Some((key, blame)),
    }
}

/// The place of the first key from a place on that isn't got.
pub fn passed<R: Rounds>(rounds: &R, keys: &[u32], from: usize) -> usize
    ensures { result < length keys.now → (R.seen rounds.now).ends (slice_index_or keys.now result 0) ≢ Some Got }
{
    for at in from..keys.len() {
        match rounds.end(keys[at]) {
            Some(End::Got) => {}
            _ => return at,
        }
    }
    keys.len()
}

/// Takes the blocks of these keys, in their order, as far as they are got. The place of the first that isn't.
pub fn collect<R: Rounds>(
    rounds: &mut R,
    keys: &[u32],
    blocks: &mut Vec<Arc<R::Block>>,
) -> Option<usize>
    requires empty { blocks.old.items ≡ [] }
    requires room { length keys.now ≤ vec_capacity blocks.old }
    ensures got { IfNone result (AreGot (R.seen rounds.new) keys.now (map arc_value blocks.new.items)) }
    ensures gone { IfSome result (λ at. (at < length keys.now) × ((R.seen rounds.new).ends (slice_index_or keys.now at 0) ≢ Some Got)) }
    ensures stand { (k blame : ℕ) → (R.seen rounds.old).ends k ≢ Some (Erred blame) → (R.seen rounds.new).ends k ≢ Some (Erred blame) }
    ensures over { (R.seen rounds.new).over ≡ (R.seen rounds.old).over }
    ensures leads { R.leads rounds.old rounds.new }
    ensures room { vec_capacity blocks.new ≡ vec_capacity blocks.old }
{
    for at in 0..keys.len() {
        match rounds.take(keys[at]) {
            Some(block) => blocks.push_reserved(block),
            None => return Some(at),
        }
    }
    None
}
