//! The turns of a worker's node.
use crate::store::BlockStore;
use crate::worker::{Finished, Task, WorkerNode};
use cluster_msgs::{Label, RunFail};
use std::sync::{Arc, Wait};
use turn_cell::{Act, Stamps};

/// What came of a worker's turn: whether it made an event, a task that it started, or a block with its key that is to be prepared.
#[derive(Drop)]
pub enum WorkerStep<B: Drop, L: Label<Block = B>, F: Drop> {
    Went(bool),
    Started(Task<B, L, F>),
    Prepares(u32, Arc<B>),
}

/// What a turn that made an event, or none, gives: a task that it started, or a block that is to be prepared, which no such turn gives.
fn step_of<B: Drop, L: Label<Block = B>, F: Drop>(
    moved: bool,
    task: Option<Task<B, L, F>>,
    given: Option<(u32, Arc<B>)>,
) -> WorkerStep<B, L, F> {
    match (task, given) {
        (Some(task), _) => WorkerStep::Started(task),
        (None, Some((key, block))) => WorkerStep::Prepares(key, block),
        (None, None) => WorkerStep::Went(moved),
    }
}

/// A turn of a worker: it makes an event, or none, and may start a task. A block that is likely to go out of its store by the next block that waits, by the
/// answer to a request or by the start of a task is given first, to be prepared, and while one is prepared these wait.
pub struct WorkerTurn<'a, R: Wait> {
    pub rt: &'a R,
    pub stamps: &'a mut Stamps,
    pub joined: bool,
    pub dead: &'a [bool],
}

impl<'a, R: Wait, B: Drop, L: Label<Block = B>, F: Drop, S: BlockStore<B, L>> Act<
    WorkerNode<B, L, F, S>,
    L,
> for WorkerTurn<'a, R> {
    type Out = WorkerStep<B, L, F>;

    fn act(self, state: &mut WorkerNode<B, L, F, S>) -> WorkerStep<B, L, F> {
        let WorkerTurn {
            rt,
            stamps,
            joined,
            dead,
        } = self;
        if state.stays() {
            let block = state.take_given();
            state.sound();
            return step_of(false, None, block);
        }
        let (moved, task) = state.go_on(rt, stamps, joined, dead);
        let given = state.take_given();
        state.sound();
        step_of(moved, task, given)
    }
}

/// The turn after a block was prepared.
pub struct Prepared<Y: Drop> {
    pub ready: Y,
}

impl<B: Drop, L: Label<Block = B>, F: Drop, S: BlockStore<B, L>> Act<WorkerNode<B, L, F, S>, L>
    for Prepared<S::Ready> {
    type Out = ();

    fn act(self, state: &mut WorkerNode<B, L, F, S>) {
        let Prepared { ready } = self;
        state.expect(ready);
        state.sound();
    }
}

/// The turn after a task.
pub struct TaskEnd<'a, R: Wait, B: Drop, L: Label<Block = B>, F: Drop> {
    pub rt: &'a R,
    pub stamps: &'a mut Stamps,
    pub made: Result<Finished<B, L>, RunFail>,
    pub feed: F,
}

impl<'a, R: Wait, B: Drop, L: Label<Block = B>, F: Drop, S: BlockStore<B, L>> Act<
    WorkerNode<B, L, F, S>,
    L,
> for TaskEnd<'a, R, B, L, F> {
    type Out = Option<F>;

    fn act(self, state: &mut WorkerNode<B, L, F, S>) -> Option<F> {
        let TaskEnd {
            rt,
            stamps,
            made,
            feed,
        } = self;
        let back = state.finish(rt, stamps, made, feed);
        state.sound();
        back
    }
}
