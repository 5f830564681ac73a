//! A steal with its level, and the lesser of two.
ghost use Rattle.std.specs.Prelude.{◌≡◌};
ghost use Rattle.cluster_rules.specs.Choice.{is_before, better};
ghost use Rattle.balance_policy.specs.Ranks.{rank_of, comes_before};

use cluster_msgs::Steal;

/// A steal that may be made, with its level.
#[derive(Clone, Copy)]
pub struct Offer {
    /// The least n for which 2^n times the key's work (and 1) is above the bytes to fetch.
    pub level: u32,
    pub steal: Steal,
}

impl Offer {
    /// Whether this one comes before the other: by level, then victim, key and thief.
    pub fn precedes(&self, other: &Offer) -> bool
        ensures { result ≡ is_before (rank_of self.now) (rank_of other.now) }
    {
        let one = self.steal;
        let two = other.steal;
        self.level < other.level
            || (self.level == other.level
                && (one.victim < two.victim
                    || (one.victim == two.victim
                        && (one.key < two.key || (one.key == two.key && one.thief < two.thief)))))
    }
}

/// The lesser of the best so far and the next, if any; the earlier one of two equals.
pub fn lesser(best: Option<Offer>, next: Option<Offer>) -> Option<Offer>
    ensures { result ≡ better comes_before best next }
{
    match (best, next) {
        (Some(old), Some(new)) => Some(if new.precedes(&old) { new } else { old }),
        (Some(old), None) => Some(old),
        (None, new) => new,
    }
}
