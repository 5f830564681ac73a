//! A job that has nothing but a graph.
ghost use Rattle.std.specs.Prelude.{◌≡◌};

use cluster_msgs::{GraphShape, JobSpec, Outcome, RunFail};
use std::sync::Arc;

/// A job of this graph whose blocks are empty: each key has a value, no operation meets a zero divisor, and nothing is read.
/// So a world of it takes the events of a job of the same graph, without its blocks.
#[derive(Drop)]
pub struct ShapeJob {
    shape: GraphShape,
}

impl ShapeJob {
    /// The job of a graph. It takes no memory.
    pub fn new(shape: GraphShape) -> ShapeJob
        ensures { result.shape ≡ shape }
    {
        ShapeJob { shape }
    }
}

impl JobSpec for ShapeJob {
    type Block = ();

    type Feed = ();

    ghost use Rattle.std.specs.Prelude.{[], Some};

    ghost graph = { λ j. j.shape };

    ghost key_dims = { λ j k. [] };

    ghost block_dims = { λ b. [] };

    ghost operation = { λ j k inputs. Some tt };

    ghost feed_fits = { λ j f. Unit {0} };

    ghost feed_tells = { λ j f. Unit {0} };

    ghost fault_count = { λ f. 0 };

    fn shape(&self) -> &GraphShape {
        &self.shape
    }

    fn dims(&self, _key: u32) -> &[u64] {
        &[]
    }

    fn faults(&self, _feed: &()) -> u64 {
        0
    }

    fn run(&self, _feed: &mut (), _key: u32, _inputs: &[Arc<()>]) -> Result<Outcome<()>, RunFail> {
        Ok(Outcome::Value(()))
    }
}
