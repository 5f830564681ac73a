//! The job of a world: a key without dependencies is what its feed has, and another one 100 divided by its first
//! dependency.
ghost use Rattle.std.specs.Prelude.{◌≡◌, IfOk, IfErr};
ghost use Rattle.cluster_msgs.specs.Jobs.{Rose};
ghost use Rattle.cluster_msgs.specs.declared.jobs.RunFail.TheVariants as RunFail;

use cluster_msgs::{GraphShape, JobSpec, Outcome, RunFail};
use std::sync::Arc;

/// A number that may fail to be read.
#[derive(Drop)]
pub struct Number {
    pub value: u64,
    pub faults: u64,
    pub fails: bool,
}

impl Number {
    fn read(&mut self) -> Result<u64, RunFail>
        ensures value { IfOk result (λ v. v ≡ self.old.value) }
        ensures kept { self.new.value ≡ self.old.value }
        ensures ok { IfOk result (λ v. self.new.faults ≡ self.old.faults) }
        ensures err { IfErr result (λ e. (e ≡ RunFail.Feed) × Rose self.old.faults self.new.faults) }
    {
        if self.fails {
            self.faults = self.faults.saturating_add(1);
            return Err(RunFail::Feed);
        }
        Ok(self.value)
    }
}

/// The graph, and the number that the feed has.
#[derive(Drop)]
pub struct Quotients {
    pub shape: GraphShape,
    pub content: u64,
}

impl JobSpec for Quotients {
    type Block = u64;

    type Feed = Number;

    ghost use Rattle.std.specs.Prelude.{◌≡◌, ◌==◌, ◌/◌, [], Some, None, cond, slice_get};
    ghost use Rattle.std.specs.Option.{option_map_or};

    ghost graph = { λ j. j.shape };

    ghost key_dims = { λ j k. [] };

    ghost block_dims = { λ b. [] };

    ghost operation = { λ j k bs. option_map_or (λ b. cond (b == 0) None (Some (100 / b))) (slice_get bs 0) (Some j.content) };

    ghost feed_fits = { λ j f. f.value ≡ j.content };

    ghost feed_tells = { λ j f. Unit {0} };

    ghost fault_count = { λ f. f.faults };

    fn shape(&self) -> &GraphShape {
        &self.shape
    }

    fn dims(&self, _key: u32) -> &[u64] {
        &[]
    }

    fn faults(&self, feed: &Number) -> u64 {
        feed.faults
    }

    fn run(
        &self,
        feed: &mut Number,
        _key: u32,
        inputs: &[Arc<u64>],
    ) -> Result<Outcome<u64>, RunFail> {
        let Some(first) = inputs.first() else {
            return Ok(Outcome::Value(feed.read()?));
        };
        let divisor = **first;
        if divisor == 0 {
            return Ok(Outcome::Zero);
        }
        Ok(Outcome::Value(100 / divisor))
    }
}
