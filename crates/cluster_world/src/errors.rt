//! Why a world takes no event, or stops.
use cluster_msgs::RunFail;
use std::alloc::AllocError;
use thiserror::Error;

/// Why a world didn't take an event. After `NotEnabled`, `Stopped` and `Spent` all is as before.
#[derive(Clone, Copy, Debug, Error)]
pub enum StepError {
    #[error("the event isn't enabled")]
    NotEnabled,
    #[error("the feed failed earlier")]
    Stopped,
    #[error("the feed failed")]
    Feed,
    #[error("all events were taken")]
    Spent,
    #[error("out of memory")]
    OutOfMemory,
}

/// Why an event that is enabled couldn't be carried out.
pub enum Broken {
    Feed,
    Memory,
}

impl From<AllocError> for Broken {
    ghost use Rattle.std.specs.Prelude.{◌≡◌};
    ghost use Rattle.cluster_world.specs.declared.errors.Broken.TheVariants.{Memory};

    ghost from_gives = { λ _ e. e ≡ Memory };

    fn from(_error: AllocError) -> Broken {
        Broken::Memory
    }
}

impl From<RunFail> for Broken {
    ghost use Rattle.std.specs.Prelude.{◌≡◌};
    ghost use Rattle.cluster_world.specs.Outcomes.{broken_by};

    ghost from_gives = { λ fail e. e ≡ broken_by fail };

    fn from(fail: RunFail) -> Broken {
        match fail {
            RunFail::Feed => Broken::Feed,
            RunFail::OutOfMemory => Broken::Memory,
        }
    }
}
