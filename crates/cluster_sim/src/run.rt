//! A simulation that goes on.
ghost use Rattle.std.specs.Prelude.{◌≡◌, ℕ};
ghost use Rattle.cluster_sim.specs.Drawn.{IsAtTurn};
ghost use Rattle.cluster_sim.specs.Passing.{after, CanPass};

use crate::choice::Kind;
use crate::position::Standing;
use crate::seen::Seen;
use crate::words::Words;
use run_report::Tally;

/// Where the simulation stands, what was seen of the client, the words to come, and the counts of its events.
#[derive(Drop)]
pub struct Run {
    pub standing: Standing,
    pub seen: Seen,
    pub words: Words,
    pub tally: Tally,
}

impl Run {
    /// Goes on after an event of this kind.
    pub fn go_on(&mut self, kind: Kind)
        requires { CanPass self.old.standing kind }
        ensures standing { self.new.standing ≡ after self.old.standing kind }
        ensures words { (number : ℕ) → IsAtTurn self.old.words number self.old.standing.turns → IsAtTurn self.new.words number self.new.standing.turns }
        ensures tally { self.new.tally ≡ self.old.tally }
        ensures seen { self.new.seen ≡ self.old.seen }
    {
        self.standing.pass(kind);
        if let Kind::Drawn = kind {
            self.words.advance();
        }
    }
}
