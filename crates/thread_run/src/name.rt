//! What is said of one run.
use crate::veil::Veil;
use cluster_msgs::JobSpec;
use node_runner::RunName;
use std::marker::{Brand, PhantomData};

/// The job of a run, and how often a key's worker may leave while the key is assigned to it. It has no bytes and no calls; the
/// call that runs it picks it, by `Brand`.
pub trait Picks<J> {
    ghost use Rattle.std.specs.Prelude.{ℕ, Option};

    ghost picked: { Option J };

    ghost allowed: { Option ℕ };
}

impl<J> Picks<J> for Brand {
    ghost use Rattle.std.specs.Prelude.{None};

    ghost picked = { None };

    ghost allowed = { None };
}

/// The name of a run whose inputs are told as `V` says, and whose job `P` picks.
#[derive(Drop)]
pub struct Named<V, P> {
    of: PhantomData<(V, P)>,
}

impl<J: JobSpec, V: Veil, P: Picks<J>> RunName<J> for Named<V, P> {
    ghost job = { P.picked };

    ghost told = { V.told };

    ghost allowed = { P.allowed };
}
