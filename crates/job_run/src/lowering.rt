//! The graph of a job.
ghost use Rattle.std.specs.Prelude.{◌≡◌, map, IfOk, IfErr};
ghost use Rattle.job_run.specs.Jobs.{plan_of, saved_of};
ghost use Rattle.job_run.specs.Lowering.{IsGraphOf, LowerCause};
ghost use Rattle.job_run.specs.Plan.{IsRunnable};

use crate::ends::Ended;
use array_expr::NodeId;
use block_lowering::{LowerError, Lowered, lower};
use job_plan::{Job, Save};
use std::alloc::{AllocError, Global};

// The nodes that are saved.
fn roots(alloc: Global, saves: &[Save]) -> Result<Vec<NodeId>, AllocError>
    ensures { IfOk result (λ v. v.items ≡ map (λ s. s.node) (map saved_of saves.now)) }
{
    let mut nodes = Vec::new(alloc);
    for save in saves {
        nodes.push(save.node)?;
    }
    Ok(nodes)
}

/// The graph that makes a job's saved blocks, or the first limit that it would pass.
pub fn lower_job(alloc: Global, job: &Job) -> Result<Lowered, Ended>
    requires { IsRunnable (plan_of job.now) }
    ensures made { IfOk result (λ l. IsGraphOf (plan_of job.now) l) }
    ensures cause { IfErr result (LowerCause (plan_of job.now)) }
{
    let saves = roots(alloc, job.saves.as_slice())?;
    match lower(alloc, &job.expr, &saves) {
        Ok(lowered) => Ok(lowered),
        Err(LowerError::Limit { quantity }) => Err(Ended::Limit(quantity)),
        Err(LowerError::OutOfMemory) => Err(Ended::OutOfMemory),
    }
}
