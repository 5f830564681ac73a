//! The turns of the nodes of a run.

use crate::label::{Fed, RunLabel, RunName};
use crate::tasks::{Lent, Returned, Running, run_lent};
use crate::watching::Watch;
use cluster_msgs::{JobSpec, Label};
use driver_rows::{Attends, ClientNews, SchedulerNews, Schedules, WorkerNews, Works};
use io_edge::Gate;
use node_states::{
    BlockStore, ClientNode, ClientTurn, Course, Prepared, SchedulerNode, SchedulerTurn, TaskEnd,
    Why, WorkerNode, WorkerStep, WorkerTurn,
};
use std::sync::Wait;
use turn_cell::{Act, Stamps};

/// A task of so much work in bytes, and more, is long, and so is what is prepared of its block.
const LONG: u64 = 32_768;

impl<'a, J: JobSpec, G: Gate, K: RunName<J>> Schedules<
    SchedulerNode<J::Block, RunLabel<J, K>>,
    RunLabel<J, K>,
> for Running<'a, J, G, K> {
    fn schedule<R: Wait>(
        &self,
        rt: &R,
        state: &mut SchedulerNode<J::Block, RunLabel<J, K>>,
        stamps: &mut Stamps,
        ended: &[bool],
    ) -> SchedulerNews {
        let turn = SchedulerTurn {
            rt,
            stamps,
            dead: ended,
        };
        let course = turn.act(state);
        news(course, state.joined().unwrap_or(0))
    }
}

/// What a scheduler's turn tells, where so many workers have joined.
fn news(course: Course, joined: u32) -> SchedulerNews {
    let (moved, lose_first, over) = match course {
        Course::Moved => (true, None, false),
        Course::Idle => (false, None, false),
        Course::LoseFirst(worker) => (false, Some((worker as usize).saturating_sub(1)), false),
        Course::Over | Course::Stopped => (false, None, true),
    };
    SchedulerNews {
        moved,
        lose_first,
        over,
        joined,
    }
}

/// Whether a worker's turn made an event, and what it lends.
fn lent<B: Drop, L: Label<Block = B>, F: Drop>(
    worker: u32,
    step: WorkerStep<B, L, F>,
) -> (bool, Option<Lent<B, L, F>>) {
    match step {
        WorkerStep::Went(moved) => (moved, None),
        WorkerStep::Started(task) => (true, Some(Lent::Runs { worker, task })),
        WorkerStep::Prepares(key, block) => (false, Some(Lent::Prepares { key, block })),
    }
}

impl<'a, J: JobSpec, G: Gate, K: RunName<J>, S: BlockStore<J::Block, RunLabel<J, K>>> Works<
    WorkerNode<J::Block, RunLabel<J, K>, Fed<J, K>, S>,
    RunLabel<J, K>,
> for Running<'a, J, G, K> {
    type Task = Lent<J::Block, RunLabel<J, K>, Fed<J, K>>;

    type Done = Returned<J::Block, RunLabel<J, K>, Fed<J, K>, S::Ready>;

    fn work<R: Wait>(
        &self,
        rt: &R,
        state: &mut WorkerNode<J::Block, RunLabel<J, K>, Fed<J, K>, S>,
        stamps: &mut Stamps,
        joined: bool,
        ended: &[bool],
    ) -> WorkerNews<Lent<J::Block, RunLabel<J, K>, Fed<J, K>>> {
        let worker = state.id();
        let turn = WorkerTurn {
            rt,
            stamps,
            joined,
            dead: ended,
        };
        let (moved, task) = lent(worker, turn.act(state));
        WorkerNews {
            moved,
            ended: state.ended(),
            task,
        }
    }

    fn lose<R: Wait>(
        &self,
        rt: &R,
        state: &mut WorkerNode<J::Block, RunLabel<J, K>, Fed<J, K>, S>,
        stamps: &mut Stamps,
    ) -> bool {
        state.end(Why::Script);
        let turn = WorkerTurn {
            rt,
            stamps,
            joined: true,
            dead: &[],
        };
        turn.act(state);
        state.ended()
    }

    fn is_long(&self, task: &Lent<J::Block, RunLabel<J, K>, Fed<J, K>>) -> bool {
        let key = match task {
            Lent::Runs { task, .. } => task.key,
            Lent::Prepares { key, .. } => *key,
        };
        let graph = self.job.shape();
        graph.sound();
        key < graph.keys() && graph.work(key) >= LONG
    }

    fn run(
        &self,
        task: Lent<J::Block, RunLabel<J, K>, Fed<J, K>>,
    ) -> Returned<J::Block, RunLabel<J, K>, Fed<J, K>, S::Ready> {
        run_lent::<J::Block, RunLabel<J, K>, Fed<J, K>, Running<'a, J, G, K>, S>(
            self.alloc, self, task,
        )
    }

    fn take_back<R: Wait>(
        &self,
        rt: &R,
        state: &mut WorkerNode<J::Block, RunLabel<J, K>, Fed<J, K>, S>,
        stamps: &mut Stamps,
        done: Returned<J::Block, RunLabel<J, K>, Fed<J, K>, S::Ready>,
    ) {
        match done {
            Returned::Ran { made, feed } => {
                let turn = TaskEnd {
                    rt,
                    stamps,
                    made,
                    feed,
                };
                turn.act(state);
            }
            Returned::Prepared(ready) => Prepared { ready }.act(state),
        }
    }
}

impl<'a, J: JobSpec, G: Gate, K: RunName<J>> Attends<
    ClientNode<J::Block, RunLabel<J, K>>,
    RunLabel<J, K>,
> for Running<'a, J, G, K> {
    type Sight = Watch<J::Block, RunLabel<J, K>>;

    fn blind(&self) -> Watch<J::Block, RunLabel<J, K>> {
        Watch::blind(self.alloc)
    }

    fn shut(&self, _sight: Watch<J::Block, RunLabel<J, K>>) {}

    /// A look at what came in earlier turns, and then a turn.
    fn attend<R: Wait>(
        &self,
        rt: &R,
        state: &mut ClientNode<J::Block, RunLabel<J, K>>,
        stamps: &mut Stamps,
        ended: &[bool],
        sight: &mut Watch<J::Block, RunLabel<J, K>>,
    ) -> ClientNews {
        let taken = sight.look(state, self.wanted.as_slice());
        if state.is_done() {
            return ClientNews {
                moved: taken,
                served: true,
                over: false,
            };
        }
        let turn = ClientTurn {
            rt,
            stamps,
            dead: ended,
        };
        let moved = turn.act(state);
        ClientNews {
            moved: moved || taken,
            served: false,
            over: state.stopped().is_some(),
        }
    }
}
