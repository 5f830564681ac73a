//! Why words ask for no command.
ghost use Rattle.std.specs.Prelude.{◌≡◌};
ghost use Rattle.command_words.specs.declared.fail.WordsFail.TheVariants.{OutOfMemory};

use std::alloc::AllocError;
use thiserror::Error;

/// Why no command was read.
#[derive(Clone, Copy, Debug, Error, Drop)]
pub enum WordsFail {
    #[error("words")]
    Refused,
    #[error("out of memory")]
    OutOfMemory,
}

impl From<AllocError> for WordsFail {
    ghost from_gives = { λ _ e. e ≡ OutOfMemory };

    fn from(_error: AllocError) -> Self {
        WordsFail::OutOfMemory
    }
}
