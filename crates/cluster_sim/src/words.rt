//! The words of the generator.
ghost use Rattle.std.specs.Prelude.{◌≡◌, ℕ, ◌+◌};
ghost use Rattle.cluster_sim.specs.Drawn.{IsAtTurn};

use rand_core::utils::NextWord;
use rand_pcg::Lcg64Xsh32;

/// The words that a number stands for, one a turn.
#[derive(Drop)]
pub struct Words {
    rng: Lcg64Xsh32,
    word: u32,
}

impl Words {
    /// The words of a number, at the first turn.
    pub fn new(number: u64) -> Self
        ensures { IsAtTurn result number 0 }
    {
        let mut rng = Lcg64Xsh32::new(number, 1);
        let word = rng.next_word();
        Words { rng, word }
    }

    /// The word of this turn.
    pub fn word(&self) -> u32
        ensures { result ≡ self.now.word }
    {
        self.word
    }

    /// Goes on to the next turn.
    pub fn advance(&mut self)
        ensures { (number turn : ℕ) → IsAtTurn self.old number turn → IsAtTurn self.new number (turn + 1) }
    {
        self.word = self.rng.next_word();
    }
}
