//! Equal graphs of their own.
ghost use Rattle.std.specs.Prelude.{◌≡◌, IfOk};

use crate::graph::{Graph, Task};
use block_kernels::Spec;
use std::alloc::{AllocError, Global};

// An equal operation.
fn copied_spec(alloc: Global, spec: &Spec) -> Result<Spec, AllocError>
    ensures { IfOk result (λ copy. copy ≡ spec.now) }
{
    match spec {
        Spec::Elementwise {
            op,
            left,
            right,
            inputs,
            shape,
        } => Ok(Spec::Elementwise {
            op: *op,
            left: *left,
            right: *right,
            inputs: inputs.copy()?,
            shape: shape.copy(alloc)?,
        }),
        Spec::Where {
            cond,
            yes,
            no,
            inputs,
            shape,
        } => Ok(Spec::Where {
            cond: *cond,
            yes: *yes,
            no: *no,
            inputs: inputs.copy()?,
            shape: shape.copy(alloc)?,
        }),
        Spec::Slice {
            steps,
            dropped,
            input,
        } => Ok(Spec::Slice {
            steps: steps.copy()?,
            dropped: dropped.copy()?,
            input: input.copy(alloc)?,
        }),
        Spec::Transpose { axes, input } => Ok(Spec::Transpose {
            axes: axes.copy()?,
            input: input.copy(alloc)?,
        }),
        Spec::Assemble {
            pieces,
            inputs,
            shape,
        } => Ok(Spec::Assemble {
            pieces: pieces.copy()?,
            inputs: inputs.copy()?,
            shape: shape.copy(alloc)?,
        }),
        Spec::Reduce { fold, axes, inputs } => Ok(Spec::Reduce {
            fold: *fold,
            axes: axes.copy()?,
            inputs: inputs.copy()?,
        }),
        Spec::Contract {
            left,
            right,
            left_axes,
            right_axes,
            inputs,
        } => Ok(Spec::Contract {
            left: *left,
            right: *right,
            left_axes: left_axes.copy()?,
            right_axes: right_axes.copy()?,
            inputs: inputs.copy()?,
        }),
        Spec::Fill {
            dims,
            region,
            start,
            step,
        } => Ok(Spec::Fill {
            dims: dims.copy(alloc)?,
            region: region.copy(),
            start: *start,
            step: *step,
        }),
        Spec::Load { input, region } => Ok(Spec::Load {
            input: *input,
            region: region.copy(),
        }),
    }
}

// An equal task.
fn copied(alloc: Global, task: &Task) -> Result<Task, AllocError>
    ensures { IfOk result (λ copy. copy ≡ task.now) }
{
    let deps = task.deps.copy()?;
    let spec = copied_spec(alloc, &task.spec)?;
    Ok(Task {
        spec,
        deps,
        work: task.work,
        nbytes: task.nbytes,
    })
}

fn copied_all(alloc: Global, tasks: &[Task]) -> Result<Vec<Task>, AllocError>
    ensures { IfOk result (λ copies. copies.items ≡ tasks.now) }
{
    let mut copies = Vec::with_capacity(alloc, tasks.len())?;
    for task in tasks {
        copies.push(copied(alloc, task)?)?;
    }
    Ok(copies)
}

impl Graph {
    /// An equal graph of its own.
    ///
    /// # Errors
    /// Where no memory is left.
    pub fn copy(&self) -> Result<Graph, AllocError>
        ensures { IfOk result (λ copy. copy ≡ self.now) }
    {
        self.sound();
        let alloc = self.allocator();
        let tasks = copied_all(alloc, self.tasks())?;
        Ok(Graph::from_tasks(alloc, tasks, self.edges()))
    }
}
