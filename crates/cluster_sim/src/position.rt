//! Where a simulation stands.
ghost use Rattle.std.specs.Prelude.{◌≡◌};
ghost use Rattle.cluster_sim.specs.Passing.{first_standing, after, CanPass};

use crate::choice::Kind;

/// How far the script is done with, how many turns were made, and how many evictions and steals, with the number of turns at
/// the last of each.
#[derive(Clone, Copy)]
pub struct Standing {
    pub passed: usize,
    pub turns: u64,
    pub evicts: u32,
    pub evicted_at: u64,
    pub balances: u32,
    pub balanced_at: u64,
}

impl Standing {
    /// Before the first turn.
    pub fn new() -> Self
        ensures { result ≡ first_standing }
    {
        Standing {
            passed: 0,
            turns: 0,
            evicts: 0,
            evicted_at: 0,
            balances: 0,
            balanced_at: 0,
        }
    }

    /// After an event of this kind.
    pub fn pass(&mut self, kind: Kind)
        requires { CanPass self.old kind }
        ensures { self.new ≡ after self.old kind }
    {
        match kind {
            Kind::Scripted { passed } => self.passed = passed,
            Kind::Evicts => {
                self.evicts += 1;
                self.evicted_at = self.turns;
            }
            Kind::Balances => {
                self.balances += 1;
                self.balanced_at = self.turns;
            }
            Kind::Drawn => self.turns += 1,
        }
    }
}
