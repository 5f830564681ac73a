//! Why a job isn't lowered.
use std::alloc::{AllocError, AllocFailed};
use task_graph::Quantity;
use thiserror::Error;

/// Why there is no graph.
#[derive(Clone, Copy, Debug, Error)]
pub enum LowerError {
    /// The first limit that the graph would pass, in the order in which its keys are made.
    #[error("the graph would be too large")]
    Limit { quantity: Quantity },
    #[error("out of memory")]
    OutOfMemory,
}

impl From<AllocError> for LowerError {
    ghost use Rattle.std.specs.Prelude.{◌≡◌};
    ghost use Rattle.block_lowering.specs.declared.error.LowerError.TheVariants.{OutOfMemory};

    ghost from_gives = { λ _ e. e ≡ OutOfMemory };

    fn from(_error: AllocError) -> LowerError {
        LowerError::OutOfMemory
    }
}

impl<T: Drop> From<AllocFailed<T>> for LowerError {
    ghost use Rattle.std.specs.Prelude.{◌≡◌};
    ghost use Rattle.block_lowering.specs.declared.error.LowerError.TheVariants.{OutOfMemory};

    ghost from_gives = { λ _ e. e ≡ OutOfMemory };

    fn from(_error: AllocFailed<T>) -> LowerError {
        LowerError::OutOfMemory
    }
}
