//! How a simulated run ends.
ghost use Rattle.std.specs.Prelude.{◌≡◌};
ghost use Rattle.job_run.specs.declared.ends.Ended.TheVariants.{OutOfMemory};
ghost use Rattle.sim_run.specs.declared.ends.SimEnded.TheVariants.{Ran as RanAs};

use job_run::Ended;
use std::alloc::AllocError;

/// How a simulated run of a job ends.
#[derive(Drop)]
pub enum SimEnded {
    /// The simulation took 2^40 events, and no end was reached.
    Events,
    /// It ended as a run in the calling thread does.
    Ran(Ended),
}

impl From<AllocError> for SimEnded {
    ghost from_gives = { λ _ e. e ≡ RanAs OutOfMemory };

    fn from(_: AllocError) -> Self {
        SimEnded::Ran(Ended::OutOfMemory)
    }
}
