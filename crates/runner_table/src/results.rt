//! The values of keys, as they come.
ghost use Rattle.std.specs.Prelude.{◌≡◌, true, IfSome};
ghost use Rattle.std.specs.Arc.{arc_value};
ghost use Rattle.cluster_msgs.specs.Labels.{BlockFits};
ghost use Rattle.runner_table.specs.Results.{has_value};

use cluster_msgs::Label;
use node_runner::Sink;
use std::alloc::{AllocError, Global};
use std::marker::{Model, PhantomData};
use std::sync::Arc;

/// A value or none for each key of a graph, each of which fits the label of the run. In a clause it is these.
#[derive(Drop)]
pub struct Results<L: Label<Block = u64>> {
    values: Vec<Option<u64>>,
    of: PhantomData<L>,
}

impl<L: Label<Block = u64>> Model for Results<L> {
    ghost use Rattle.std.specs.Prelude.{ℕ, List, Option};
    ghost use Rattle.runner_table.specs.Results.{AreValues};

    ghost Value = { List (Option ℕ) };

    ghost view = { λ r. r.values.items };

    ghost invariant = { λ r. AreValues L.facts r.values.items };
}

impl<L: Label<Block = u64>> Results<L> {
    /// No values of so many keys.
    #[tactic(auto, using(crate::proofs::Values::none_fits))]
    pub fn new(alloc: Global, keys: u32) -> Result<Self, AllocError> {
        let values = vec![in alloc; None; keys as usize]?;
        Ok(Results {
            values,
            of: PhantomData,
        })
    }

    /// The value of a key, where there is one.
    #[tactic(auto, using(crate::proofs::Values::value_fits))]
    pub fn value(&self, key: u32) -> Option<u64>
        ensures { IfSome result (λ v. BlockFits L.facts key v) }
    {
        let at = key as usize;
        if at >= self.values.len() {
            return None;
        }
        self.values[at]
    }
}

impl<L: Label<Block = u64>> Sink<u64, L> for Results<L> {
    ghost use Rattle.runner_table.specs.Results.{has_value};

    ghost had = { has_value };

    ghost leads = { λ r s. Unit {0} };

    #[tactic(auto, using(crate::proofs::Values::put_fits, crate::proofs::Values::put_there))]
    fn take(&mut self, key: u32, block: Arc<u64>)
        requires { BlockFits L.facts key (arc_value block) }
        ensures { has_value self.new key ≡ true }
    {
        let at = key as usize;
        if at < self.values.len() {
            self.values[at] = Some(*block);
        }
    }

    fn has(&self, key: u32) -> bool {
        match self.values.get(key as usize) {
            Some(value) => value.is_some(),
            None => true,
        }
    }

    fn is_full(&self) -> bool {
        false
    }

    ghost here = { λ r. tt };

    ghost on = { λ r s t f g. tt };
}
