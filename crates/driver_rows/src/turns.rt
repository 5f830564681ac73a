//! What nodes do in their turns, as whoever runs them tells.

use cluster_msgs::Label;
use std::sync::Wait;
use turn_cell::{Act, Kept, Stamps};

/// What a turn of a scheduler tells.
#[derive(Clone, Copy)]
pub struct SchedulerNews {
    /// It made an event.
    pub moved: bool,
    /// The place of a worker that is to be made to end before it goes on.
    pub lose_first: Option<usize>,
    /// It goes on no more.
    pub over: bool,
    /// How many workers have joined.
    pub joined: u32,
}

/// What a turn of a worker tells.
pub struct WorkerNews<T> {
    /// It made an event.
    pub moved: bool,
    /// Its end is recorded.
    pub ended: bool,
    /// A task that is lent, with what it needs.
    pub task: Option<T>,
}

/// What a turn of a client tells.
#[derive(Clone, Copy)]
pub struct ClientNews {
    /// It made an event.
    pub moved: bool,
    /// It has what it is there for.
    pub served: bool,
    /// It goes on no more.
    pub over: bool,
}

/// How schedulers take their turns.
pub trait Schedules<S: Kept, L: Label<Block = S::Block>> {
    ghost use Rattle.turn_cell.specs.Turns.{Went};

    /// One turn. `ended` tells of each worker, by its place, whether its end was seen.
    fn schedule<R: Wait>(
        &self,
        rt: &R,
        state: &mut S,
        stamps: &mut Stamps,
        ended: &[bool],
    ) -> SchedulerNews
        requires fits { S.fits L.facts state.old }
        ensures fits { S.fits L.facts state.new }
        ensures went { Went S.entries S.core S.cut S.steps state.old state.new };
}

/// How workers take their turns, and how their tasks are run.
pub trait Works<W: Kept, L: Label<Block = W::Block>> {
    /// A task that is taken out of a turn, with what it needs.
    type Task;

    /// What the task left, which goes back.
    type Done;

    ghost use Rattle.turn_cell.specs.Turns.{Went};

    /// One turn. It may lend a task. `joined` tells that the worker is known to have joined, and `ended` of each worker whether its end was seen.
    fn work<R: Wait>(
        &self,
        rt: &R,
        state: &mut W,
        stamps: &mut Stamps,
        joined: bool,
        ended: &[bool],
    ) -> WorkerNews<Self::Task>
        requires fits { W.fits L.facts state.old }
        ensures fits { W.fits L.facts state.new }
        ensures went { Went W.entries W.core W.cut W.steps state.old state.new };

    /// A turn in which a worker that has joined is made to end. Whether its end is recorded.
    fn lose<R: Wait>(&self, rt: &R, state: &mut W, stamps: &mut Stamps) -> bool
        requires fits { W.fits L.facts state.old }
        ensures fits { W.fits L.facts state.new }
        ensures went { Went W.entries W.core W.cut W.steps state.old state.new };

    /// Whether a task may take so long that another driver is worth waking for what else there is to do.
    fn is_long(&self, task: &Self::Task) -> bool;

    /// Runs a task, outside the turns.
    fn run(&self, task: Self::Task) -> Self::Done;

    /// The turn after a task.
    fn take_back<R: Wait>(&self, rt: &R, state: &mut W, stamps: &mut Stamps, done: Self::Done)
        requires fits { W.fits L.facts state.old }
        ensures fits { W.fits L.facts state.new }
        ensures went { Went W.entries W.core W.cut W.steps state.old state.new };
}

/// A driver, as what waits by it drives it: the driver sees in the clients' turns what a sight keeps.
pub trait Drives<V> {
    /// Goes round all nodes once, and rests where nothing moved. Whether it goes on: no client has what it is there for, and no node has stopped.
    fn go_round(&mut self, sight: &mut V) -> bool;
}

/// What waits by a driver for what the clients are there for, on the thread that runs the cells. It needs to cross to no other, and `leads` tells what
/// may become of it.
pub trait Waits<V> {
    ghost leads: { Self → Self → Type 0 };

    /// Waits until the driver goes on no more. It may give up before.
    fn wait<R: Wait, D: Drives<V>>(&mut self, rt: &R, driver: &mut D)
        ensures { leads self.old self.new };

    /// Where no driver was made nothing becomes of it.
    ghost here: { (w : Self) → leads w w };
}

/// How clients take their turns.
pub trait Attends<C: Kept, L: Label<Block = C::Block>> {
    /// What a driver saw of clients in its turns.
    type Sight;

    ghost use Rattle.turn_cell.specs.Turns.{Went};

    /// A sight that keeps nothing.
    fn blind(&self) -> Self::Sight;

    /// A sight is needed no more.
    fn shut(&self, sight: Self::Sight);

    /// One turn. `ended` tells of each worker, by its place, whether its end was seen.
    fn attend<R: Wait>(
        &self,
        rt: &R,
        state: &mut C,
        stamps: &mut Stamps,
        ended: &[bool],
        sight: &mut Self::Sight,
    ) -> ClientNews
        requires fits { C.fits L.facts state.old }
        ensures fits { C.fits L.facts state.new }
        ensures went { Went C.entries C.core C.cut C.steps state.old state.new };
}

/// A turn of a scheduler.
pub struct Schedule<'a, R: Wait, J> {
    pub rt: &'a R,
    pub job: &'a J,
    pub stamps: &'a mut Stamps,
    pub ended: &'a [bool],
}

impl<'a, R: Wait, L: Label<Block = S::Block>, S: Kept, J: Schedules<S, L>> Act<S, L>
    for Schedule<'a, R, J> {
    type Out = SchedulerNews;

    fn act(self, state: &mut S) -> SchedulerNews {
        let Schedule {
            rt,
            job,
            stamps,
            ended,
        } = self;
        job.schedule(rt, state, stamps, ended)
    }
}

/// A turn of a worker.
pub struct Work<'a, R: Wait, J> {
    pub rt: &'a R,
    pub job: &'a J,
    pub stamps: &'a mut Stamps,
    pub joined: bool,
    pub ended: &'a [bool],
}

impl<'a, R: Wait, L: Label<Block = W::Block>, W: Kept, J: Works<W, L>> Act<W, L>
    for Work<'a, R, J> {
    type Out = WorkerNews<J::Task>;

    fn act(self, state: &mut W) -> WorkerNews<J::Task> {
        let Work {
            rt,
            job,
            stamps,
            joined,
            ended,
        } = self;
        job.work(rt, state, stamps, joined, ended)
    }
}

/// A turn in which a worker is made to end.
pub struct Lose<'a, R: Wait, J> {
    pub rt: &'a R,
    pub job: &'a J,
    pub stamps: &'a mut Stamps,
}

impl<'a, R: Wait, L: Label<Block = W::Block>, W: Kept, J: Works<W, L>> Act<W, L>
    for Lose<'a, R, J> {
    type Out = bool;

    fn act(self, state: &mut W) -> bool {
        let Lose { rt, job, stamps } = self;
        job.lose(rt, state, stamps)
    }
}

/// The turn after a task.
pub struct TakeBack<'a, R: Wait, J, D> {
    pub rt: &'a R,
    pub job: &'a J,
    pub stamps: &'a mut Stamps,
    pub done: D,
}

impl<'a, R: Wait, L: Label<Block = W::Block>, W: Kept, J: Works<W, L>> Act<W, L>
    for TakeBack<'a, R, J, J::Done> {
    type Out = ();

    fn act(self, state: &mut W) {
        let TakeBack {
            rt,
            job,
            stamps,
            done,
        } = self;
        job.take_back(rt, state, stamps, done);
    }
}

/// A turn of a client.
pub struct Attend<'a, R: Wait, J, V> {
    pub rt: &'a R,
    pub job: &'a J,
    pub stamps: &'a mut Stamps,
    pub ended: &'a [bool],
    pub sight: &'a mut V,
}

impl<'a, R: Wait, L: Label<Block = C::Block>, C: Kept, J: Attends<C, L>> Act<C, L>
    for Attend<'a, R, J, J::Sight> {
    type Out = ClientNews;

    fn act(self, state: &mut C) -> ClientNews {
        let Attend {
            rt,
            job,
            stamps,
            ended,
            sight,
        } = self;
        job.attend(rt, state, stamps, ended, sight)
    }
}
