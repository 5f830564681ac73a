//! How the simulation of a job over no file ends without lines.
ghost use Rattle.std.specs.Prelude.{◌≡◌};
ghost use Rattle.gen_run.specs.Ends.{end_of};
ghost use Rattle.gen_run.specs.declared.ends.GenEnded.TheVariants.{OutOfMemory as OutOfMemoryAs};

use sim_run::SimEnded;
use std::alloc::AllocError;

/// How the simulation of a job over no file ends without lines.
#[derive(Clone, Copy)]
pub enum GenEnded {
    /// The simulation took 2^40 events, and no end was reached.
    Events,
    OutOfMemory,
}

impl From<AllocError> for GenEnded {
    ghost from_gives = { λ _ e. e ≡ OutOfMemoryAs };

    fn from(_: AllocError) -> Self {
        GenEnded::OutOfMemory
    }
}

/// The end that a simulated run's is, where its site is one in memory. All calls of such a site go well while there is memory, the
/// job that a number makes passes no limit, nothing is divided in it, and as many losses are allowed as there are: so whatever else
/// ends the run is told as want of memory.
pub fn ended(end: &SimEnded) -> GenEnded
    ensures { result ≡ end_of end.now }
{
    match end {
        SimEnded::Events => GenEnded::Events,
        SimEnded::Ran(_) => GenEnded::OutOfMemory,
    }
}
