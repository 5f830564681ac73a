//! Workers that a key may go to, and the lesser of two.
ghost use Rattle.std.specs.Prelude.{◌≡◌};
ghost use Rattle.cluster_rules.specs.Choice.{is_before, better};
ghost use Rattle.placement.specs.Candidates.{rank_of, comes_before};

/// Which of the connected workers are candidates.
#[derive(Clone, Copy)]
pub enum Pool {
    /// Those that are not full: where the key has no dependencies.
    NotFull,
    /// Those that hold a dependency of the key.
    Holders,
    /// All: where nobody holds a dependency.
    Everyone,
}

/// A worker with what it is ranked by.
#[derive(Clone, Copy)]
pub struct Candidate {
    /// The work ahead of the key for each thread, and the bytes to fetch.
    pub cost: u64,
    /// The bytes that the worker holds.
    pub held: u64,
    pub worker: u32,
}

impl Candidate {
    /// Whether this one comes before the other: by cost, then bytes held, then number.
    pub fn precedes(&self, other: &Candidate) -> bool
        ensures { result ≡ is_before (rank_of self.now) (rank_of other.now) }
    {
        self.cost < other.cost
            || (self.cost == other.cost
                && (self.held < other.held
                    || (self.held == other.held && self.worker < other.worker)))
    }
}

/// The lesser of the best so far and the next, if any; the earlier one of two equals.
pub fn lesser(best: Option<Candidate>, next: Option<Candidate>) -> Option<Candidate>
    ensures { result ≡ better comes_before best next }
{
    match (best, next) {
        (Some(old), Some(new)) => Some(if new.precedes(&old) { new } else { old }),
        (Some(old), None) => Some(old),
        (None, new) => new,
    }
}
