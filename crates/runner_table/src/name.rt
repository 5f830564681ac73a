//! What is said of one run.
use cluster_msgs::JobSpec;
use node_runner::RunName;
use std::marker::{Brand, PhantomData};

/// The job of a run, and how often a key's worker may leave. It has no bytes and no calls; the call that runs it picks it, by `Brand`.
pub trait Picks<J> {
    ghost use Rattle.std.specs.Prelude.{ℕ, Option};

    ghost picked: { Option J };

    ghost allowed: { Option ℕ };
}

impl<J> Picks<J> for Brand {
    ghost use Rattle.std.specs.Prelude.{None};

    ghost picked = { None };

    ghost allowed = { None };
}

/// The name of a run whose job `P` picks, and whose feeds tell what they hold.
#[derive(Drop)]
pub struct Named<P> {
    of: PhantomData<P>,
}

impl<J: JobSpec, P: Picks<J>> RunName<J> for Named<P> {
    ghost use Rattle.std.specs.Prelude.{true};

    ghost job = { P.picked };

    ghost told = { true };

    ghost allowed = { P.allowed };
}
