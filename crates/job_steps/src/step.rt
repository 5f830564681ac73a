//! Steps, and how a text ends.
ghost use Rattle.std.specs.Prelude.{◌≡◌};

use job_grammar::Action;
use job_tokens::Token;
use std::marker::Model;

/// An action with the token at which it stands: the last one before it.
#[derive(Clone, Copy)]
pub struct Step {
    pub action: Action,
    pub token: Token,
}

/// How a text ends.
#[derive(Clone, Copy)]
pub enum Ending {
    /// The tokens are those of a job.
    Whole,
    /// No job goes on with this token.
    Unexpected(Token),
    /// No job ends here, at the end of the text.
    Unfinished(usize),
    /// No token begins at this byte.
    NoToken(usize),
}

/// The steps of a text, and how it ends. They are seen as a list and the end.
#[derive(Drop)]
pub struct Steps {
    list: Vec<Step>,
    ending: Ending,
}

impl Model for Steps {
    ghost use Rattle.job_steps.specs.Found.{Found};

    ghost Value = { Found };

    ghost view = { λ s. record { steps = s.list.items; ending = s.ending } };
}

impl Steps {
    pub(crate) fn new(list: Vec<Step>, ending: Ending) -> Self
        ensures { result ≡ record { steps = list.items; ending = ending } }
    {
        Steps { list, ending }
    }

    /// The steps, in the order in which they are complete. Takes no memory.
    pub fn steps(&self) -> &[Step]
        ensures { result.now ≡ self.now.steps }
    {
        self.list.as_slice()
    }

    /// How the text ends behind the steps. Takes no memory.
    pub fn ending(&self) -> Ending
        ensures { result ≡ self.now.ending }
    {
        self.ending
    }
}
