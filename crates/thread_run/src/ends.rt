//! How a run by threads ends.
ghost use Rattle.std.specs.Prelude.{◌≡◌};
ghost use Rattle.job_run.specs.declared.ends.Ended.TheVariants.{OutOfMemory};
ghost use Rattle.thread_run.specs.declared.ends.ThreadEnded.TheVariants.{Ran as RanAs};

use job_run::Ended;
use std::alloc::{AllocError, AllocFailed};

/// How a run of a job by threads ends.
#[derive(Drop)]
pub enum ThreadEnded {
    /// A node's core had taken 2^40 events, and no end was reached.
    Events,
    /// It ended as a run in the calling thread does.
    Ran(Ended),
}

impl From<AllocError> for ThreadEnded {
    ghost from_gives = { λ _ e. e ≡ RanAs OutOfMemory };

    fn from(_: AllocError) -> Self {
        ThreadEnded::Ran(Ended::OutOfMemory)
    }
}

impl<T: Drop> From<AllocFailed<T>> for ThreadEnded {
    ghost from_gives = { λ _ e. e ≡ RanAs OutOfMemory };

    fn from(_: AllocFailed<T>) -> Self {
        ThreadEnded::Ran(Ended::OutOfMemory)
    }
}
