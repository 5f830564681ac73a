//! How a graph grows: task by task, and by the tasks of an array, one for each block.
ghost use Rattle.std.specs.Prelude.{◌≡◌, ◌<◌, ◌++◌, ◌∷◌, [], ℕ, List, length, map, IfOk, OnOk, IfErr};
ghost use Rattle.std.specs.List.{range_with_len};
ghost use Rattle.nd_shape.specs.Shape.{elements};
ghost use Rattle.nd_shape.specs.Index.{IsIn, index_at};
ghost use Rattle.task_graph.specs.declared.graph.Task.{Task as AnyTask};
ghost use Rattle.block_lowering.specs.Growing.{Refuses};

use crate::counts::{numbers_of, product_of};
use crate::error::LowerError;
use std::alloc::{AllocError, Global};
use task_graph::{Graph, PushError, Task};

// The greatest work of a task that a graph takes.
const WORK: u64 = 1 << 46;

/// The tasks of an array, one for each index below some counts.
pub trait Stage {
    /// The task at an index, the counts, and what is asked of the stage.
    ghost task_of: { Self → List ℕ → AnyTask };

    ghost chunks: { Self → List ℕ };

    ghost sound: { Self → Type 0 };

    /// The task at an index, which stands at this place in row-major order.
    fn task(&self, alloc: Global, place: u64, block: &[u64]) -> Result<Task, AllocError>
        requires sound { sound self.now }
        requires place { place < elements (chunks self.now) }
        requires block { block.now ≡ index_at (chunks self.now) place }
        requires inside { IsIn (chunks self.now) block.now }
        ensures { IfOk result (λ task. task ≡ task_of self.now block.now) };
}

/// Puts a task behind those of a graph, or tells the first limit that is passed.
///
/// Two answers of a graph never come here: dependencies lie below their key and ascend (`law_of_order`), and the inputs of a
/// task are blocks of keys that were taken, so that its work is below 2^43.
pub fn push_task(graph: &mut Graph, task: Task) -> Result<(), LowerError>
    ensures ok { OnOk result (graph.new ≡ graph.old ++ task ∷ []) }
    ensures err { IfErr result (Refuses graph.old (task ∷ [])) }
{
    graph.sound();
    if task.work > WORK {
        return Err(LowerError::OutOfMemory);
    }
    match graph.push(task) {
        Ok(_) => Ok(()),
        Err(PushError::Limit { quantity }) => Err(LowerError::Limit { quantity }),
        Err(PushError::BadDep { .. }) => Err(LowerError::OutOfMemory),
        Err(PushError::OutOfMemory) => Err(LowerError::OutOfMemory),
    }
}

// Puts the task at a place behind those of a graph.
fn push_at<S: Stage>(
    alloc: Global,
    graph: &mut Graph,
    stage: &S,
    counts: &[u64],
    place: u64,
    numbers: &mut [u64],
) -> Result<(), LowerError>
    requires same { S.chunks stage.now ≡ counts.now }
    requires sound { S.sound stage.now }
    requires inside { place < elements counts.now }
    requires axes { length numbers.old ≡ length counts.now }
    ensures ok { OnOk result (graph.new ≡ graph.old ++ S.task_of stage.now (index_at counts.now place) ∷ []) }
    ensures err { IfErr result (Refuses graph.old (S.task_of stage.now (index_at counts.now place) ∷ [])) }
{
    numbers_of(counts, place, numbers);
    let task = stage.task(alloc, place, numbers)?;
    push_task(graph, task)
}

/// Puts the tasks of a stage behind those of a graph, in row-major order: the one loop over blocks that all operations share.
pub fn push_blocks<S: Stage>(
    alloc: Global,
    graph: &mut Graph,
    stage: &S,
    counts: &[u64],
) -> Result<(), LowerError>
    requires same { S.chunks stage.now ≡ counts.now }
    requires sound { S.sound stage.now }
    ensures ok { OnOk result (graph.new ≡ graph.old ++ map (λ c. S.task_of stage.now (index_at counts.now c)) (range_with_len 0 (elements counts.now))) }
    ensures err { IfErr result (Refuses graph.old (map (λ c. S.task_of stage.now (index_at counts.now c)) (range_with_len 0 (elements counts.now)))) }
{
    let mut numbers = vec![in alloc; 0u64; counts.len()]?;
    for place in 0..product_of(counts) {
        push_at(alloc, graph, stage, counts, place, numbers.as_mut_slice())?;
    }

    // A product above 2^64-1 isn't counted to its end: a graph refuses long before.
    graph.sound();
    Ok(())
}
