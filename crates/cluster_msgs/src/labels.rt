//! The label of a run: what all its links and nodes have in common.
use std::marker::{Brand, PhantomData};

/// Names one run. It has no bytes and no calls: it tells, for contracts, each key's dependencies, dims and value, the
/// dims of a block, how often a key's worker may leave, and whether the run is told, which is that its files, links and disks give what they hold.
pub trait Label {
    type Block;

    ghost use Rattle.cluster_msgs.specs.Labels.{LabelFacts};

    ghost facts: { LabelFacts Self.Block };
}

/// What is said of one run. The call that makes all links and nodes of the run picks it, by `Brand`.
pub trait Naming<B> {
    ghost use Rattle.cluster_msgs.specs.Labels.{LabelFacts};

    ghost naming: { LabelFacts B };
}

impl<B> Naming<B> for Brand {
    ghost use Rattle.std.specs.Prelude.{false, None, []};

    ghost naming = { record { told = false; allowed = None; deps = λ _. []; dims = λ _. []; value = λ _. None; block_dims = λ _. [] } };
}

/// The label of a run with blocks `B`, as `K` names it.
pub struct Named<B, K> {
    of: PhantomData<(B, K)>,
}

impl<B, K: Naming<B>> Label for Named<B, K> {
    type Block = B;

    ghost facts = { K.naming };
}
