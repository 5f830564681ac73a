//! Drivers, each with a pass of every cell.

ghost use Rattle.std.specs.Prelude.{◌≡◌, ◌<◌, length};
ghost use Rattle.std.specs.Thread.{IsSend, IsSync};

use crate::bell::{Bell, Manner};
use crate::turns::{
    Attend, Attends, Drives, Lose, Schedule, SchedulerNews, Schedules, TakeBack, Waits, Work,
    WorkerNews, Works,
};
use cluster_msgs::Label;
use std::sync::Wait;
use std::thread;
use std::thread::Threads;
use turn_cell::{Cells, Kept, Passes, Places, Stamps};

/// All cells, and what wakes the drivers.
pub struct Cluster<KS, KW, KC, L, S, W, C>
where
    KS: Places<S>,
    KW: Places<W>,
    KC: Places<C>,
    L: Label,
    S: Kept<Block = L::Block>,
    W: Kept<Block = L::Block>,
    C: Kept<Block = L::Block>,
{
    pub scheduler: Cells<KS, S, L>,
    pub workers: Cells<KW, W, L>,
    pub clients: Cells<KC, C, L>,
    pub bell: Bell,
    pub manner: Manner,
}

/// A driver with a pass of every cell, and what it knows from its turns: how many workers have joined, and which have ended.
pub struct Driver<KS, KW, KC, L, S, W, C>
where
    KS: Places<S>,
    KW: Places<W>,
    KC: Places<C>,
    L: Label,
    S: Kept<Block = L::Block>,
    W: Kept<Block = L::Block>,
    C: Kept<Block = L::Block>,
{
    pub scheduler: Passes<KS, S, L>,
    pub workers: Passes<KW, W, L>,
    pub clients: Passes<KC, C, L>,
    pub stamps: Stamps,
    pub joined: u32,
    pub ended: Vec<bool>,
    /// The place in the ring of nodes at which its rounds begin.
    pub home: usize,
    /// A client has what it is there for.
    pub served: bool,
    /// A node goes on no more.
    pub over: bool,
    /// In this round it was refused a turn that another driver had.
    pub missed: bool,
    /// How many rounds in a row were in vain.
    pub vain: u32,
    /// It is the one that waits for the client: it sleeps for a moment at most, since only it takes what came.
    pub dozes: bool,
}

impl<KS, KW, KC, L, S, W, C> Driver<KS, KW, KC, L, S, W, C>
where
    KS: Places<S>,
    KW: Places<W>,
    KC: Places<C>,
    L: Label,
    S: Kept<Block = L::Block>,
    W: Kept<Block = L::Block>,
    C: Kept<Block = L::Block>,
{
    /// Is what the waiter waits by for the client, and goes round by itself where that was given up.
    pub fn wait<R: Wait, J: Schedules<S, L> + Works<W, L> + Attends<C, L>, T: Waits<J::Sight>>(
        &mut self,
        rt: &R,
        cluster: &Cluster<KS, KW, KC, L, S, W, C>,
        job: &J,
        waiter: &mut T,
    )
        ensures { T.leads waiter.old waiter.new }
    {
        cluster.bell.begin();
        self.dozes = true;
        let mut driving = Driving {
            rt,
            cluster,
            job,
            driver: &mut *self,
        };
        waiter.wait(rt, &mut driving);
        let Driving {
            rt: _,
            cluster: _,
            job: _,
            driver: _,
        } = driving;
        self.drive_on(rt, cluster, job);
    }

    /// Goes round until the client is served, or the run is over. All that sleep are woken then.
    pub fn drive<R: Wait, J: Schedules<S, L> + Works<W, L> + Attends<C, L>>(
        &mut self,
        rt: &R,
        cluster: &Cluster<KS, KW, KC, L, S, W, C>,
        job: &J,
    ) {
        cluster.bell.begin();
        self.drive_on(rt, cluster, job);
    }

    fn drive_on<R: Wait, J: Schedules<S, L> + Works<W, L> + Attends<C, L>>(
        &mut self,
        rt: &R,
        cluster: &Cluster<KS, KW, KC, L, S, W, C>,
        job: &J,
    ) {
        let mut sight = job.blind();
        for _ in rt.forever() {
            if self.has_ended() || !self.go(rt, cluster, job, &mut sight) {
                cluster.bell.ring_out();
                job.shut(sight);
                return;
            }
        }
        unreachable!()
    }

    /// Whether it goes on no more: the client is served, or the run is over.
    fn has_ended(&self) -> bool {
        self.served || self.over
    }

    // Goes round once, and rests where nothing moved. Whether it goes on.
    fn go<R: Wait, J: Schedules<S, L> + Works<W, L> + Attends<C, L>>(
        &mut self,
        rt: &R,
        cluster: &Cluster<KS, KW, KC, L, S, W, C>,
        job: &J,
        sight: &mut J::Sight,
    ) -> bool {
        let before = cluster.bell.count();
        self.missed = false;
        let moved = self.round(rt, cluster, job, sight);
        if self.has_ended() {
            return false;
        }
        self.rest(rt, cluster, before, moved);
        true
    }

    // After a round: goes on where something moved, and lies down after so many rounds in vain. Two at least, since what a round learns of the nodes they
    // are told in the next.
    fn rest<R: Wait>(
        &mut self,
        rt: &R,
        cluster: &Cluster<KS, KW, KC, L, S, W, C>,
        before: u64,
        moved: bool,
    ) {
        if moved {
            self.vain = 0;
            return;
        }
        self.vain = self.vain.saturating_add(1);
        if self.vain < cluster.manner.patience.max(2) {
            thread::yield_now();
        } else {
            cluster.bell.sleep(rt, before, self.missed, self.dozes);
            self.vain = 0;
        }
    }

    /// Visits each node once, its own first: the workers, then the scheduler, then the clients, in a ring. Whether an event was made.
    fn round<R: Wait, J: Schedules<S, L> + Works<W, L> + Attends<C, L>>(
        &mut self,
        rt: &R,
        cluster: &Cluster<KS, KW, KC, L, S, W, C>,
        job: &J,
        sight: &mut J::Sight,
    ) -> bool {
        let count = cluster
            .workers
            .len()
            .saturating_add(cluster.scheduler.len())
            .saturating_add(cluster.clients.len());
        let home = self.home.min(count);
        let mut moved = false;
        for at in home..count {
            moved |= self.visit(rt, cluster, at, job, sight);
        }
        for at in 0..home {
            moved |= self.visit(rt, cluster, at, job, sight);
        }
        moved
    }

    // Some turns of the node at a place of the ring.
    fn visit<R: Wait, J: Schedules<S, L> + Works<W, L> + Attends<C, L>>(
        &mut self,
        rt: &R,
        cluster: &Cluster<KS, KW, KC, L, S, W, C>,
        at: usize,
        job: &J,
        sight: &mut J::Sight,
    ) -> bool {
        let mut moved = false;
        for _ in 0..cluster.manner.turns {
            if !self.turn(rt, cluster, at, job, sight) {
                break;
            }
            moved = true;
        }
        if moved {
            cluster.bell.note();
        }
        moved
    }

    // A turn of the node at a place of the ring.
    fn turn<R: Wait, J: Schedules<S, L> + Works<W, L> + Attends<C, L>>(
        &mut self,
        rt: &R,
        cluster: &Cluster<KS, KW, KC, L, S, W, C>,
        at: usize,
        job: &J,
        sight: &mut J::Sight,
    ) -> bool {
        let workers = cluster.workers.len();
        if at < workers {
            return self.turn_worker(rt, cluster, at, job);
        }
        let at = at - workers;
        let schedulers = cluster.scheduler.len();
        if at < schedulers {
            return self.turn_scheduler(rt, cluster, at, job);
        }
        let at = at - schedulers;
        if at < cluster.clients.len() {
            return self.turn_client(rt, cluster, at, job, sight);
        }
        false
    }

    // A turn of a scheduler, and where a worker is to end first, the turn in which it does.
    fn turn_scheduler<R: Wait, J: Schedules<S, L> + Works<W, L>>(
        &mut self,
        rt: &R,
        cluster: &Cluster<KS, KW, KC, L, S, W, C>,
        at: usize,
        job: &J,
    ) -> bool
        requires { at < length KS.berths }
    {
        let Some(news) = self.schedule(rt, cluster, at, job) else {
            return false;
        };
        match news.lose_first {
            Some(worker) => self.lose(rt, cluster, worker, job),
            None => news.moved,
        }
    }

    fn schedule<R: Wait, J: Schedules<S, L>>(
        &mut self,
        rt: &R,
        cluster: &Cluster<KS, KW, KC, L, S, W, C>,
        at: usize,
        job: &J,
    ) -> Option<SchedulerNews>
        requires { at < length KS.berths }
    {
        let act = Schedule {
            rt,
            job,
            stamps: &mut self.stamps,
            ended: self.ended.as_slice(),
        };
        match self.scheduler.try_turn(&cluster.scheduler, at, act) {
            Ok(mut news) => {
                news.moved |= self.joined < news.joined;
                self.joined = self.joined.max(news.joined);
                self.over |= news.over;
                Some(news)
            }
            Err(
                Schedule {
                    rt: _,
                    job: _,
                    stamps: _,
                    ended: _,
                },
            ) => {
                self.missed = true;
                None
            }
        }
    }

    // Makes the worker at a place end. Whether it has.
    fn lose<R: Wait, J: Works<W, L>>(
        &mut self,
        rt: &R,
        cluster: &Cluster<KS, KW, KC, L, S, W, C>,
        at: usize,
        job: &J,
    ) -> bool {
        if at >= cluster.workers.len() {
            return false;
        }
        let act = Lose {
            rt,
            job,
            stamps: &mut self.stamps,
        };
        match self.workers.try_turn(&cluster.workers, at, act) {
            Ok(ended) => {
                self.note_end(at, ended);
                ended
            }
            Err(
                Lose {
                    rt: _,
                    job: _,
                    stamps: _,
                },
            ) => {
                self.missed = true;
                false
            }
        }
    }

    // Notes that the worker at a place has ended. Whether that is news, which the nodes are told in later turns.
    fn note_end(&mut self, at: usize, ended: bool) -> bool {
        if !ended || at >= self.ended.len() || self.ended[at] {
            return false;
        }
        self.ended[at] = true;
        true
    }

    // A turn of a worker, and where it lends a task, the task and the turn after it. After a long one the schedulers are visited.
    fn turn_worker<R: Wait, J: Schedules<S, L> + Works<W, L>>(
        &mut self,
        rt: &R,
        cluster: &Cluster<KS, KW, KC, L, S, W, C>,
        at: usize,
        job: &J,
    ) -> bool
        requires { at < length KW.berths }
    {
        let Some(news) = self.work(rt, cluster, at, job) else {
            return false;
        };
        let WorkerNews { moved, ended, task } = news;
        let is_news = self.note_end(at, ended);
        let Some(task) = task else {
            return moved || is_news;
        };
        let is_long = job.is_long(&task);
        cluster.bell.ring(is_long);
        let done = job.run(task);
        self.take_back(rt, cluster, at, job, done);
        if is_long {
            self.pass_on(rt, cluster, job);
        }
        true
    }

    // The turn after a task. While another driver has it this one tries again, and naps between two tries once it has tried some times.
    fn take_back<R: Wait, J: Works<W, L>>(
        &mut self,
        rt: &R,
        cluster: &Cluster<KS, KW, KC, L, S, W, C>,
        at: usize,
        job: &J,
        done: J::Done,
    )
        requires { at < length KW.berths }
    {
        let mut act = TakeBack {
            rt,
            job,
            stamps: &mut self.stamps,
            done,
        };
        let mut tries = 0;
        for _ in rt.forever() {
            match self.workers.try_turn(&cluster.workers, at, act) {
                Ok(()) => return,
                Err(again) => act = again,
            }
            tries = cluster.bell.stay(rt, tries);
        }
        unreachable!()
    }

    // Some turns of each scheduler.
    fn pass_on<R: Wait, J: Schedules<S, L> + Works<W, L>>(
        &mut self,
        rt: &R,
        cluster: &Cluster<KS, KW, KC, L, S, W, C>,
        job: &J,
    ) {
        for at in 0..cluster.scheduler.len() {
            self.visit_scheduler(rt, cluster, at, job);
        }
    }

    // Some turns of a scheduler.
    fn visit_scheduler<R: Wait, J: Schedules<S, L> + Works<W, L>>(
        &mut self,
        rt: &R,
        cluster: &Cluster<KS, KW, KC, L, S, W, C>,
        at: usize,
        job: &J,
    )
        requires { at < length KS.berths }
    {
        for _ in 0..cluster.manner.turns {
            if !self.turn_scheduler(rt, cluster, at, job) {
                return;
            }
            cluster.bell.note();
        }
    }

    fn work<R: Wait, J: Works<W, L>>(
        &mut self,
        rt: &R,
        cluster: &Cluster<KS, KW, KC, L, S, W, C>,
        at: usize,
        job: &J,
    ) -> Option<WorkerNews<J::Task>>
        requires { at < length KW.berths }
    {
        let act = Work {
            rt,
            job,
            stamps: &mut self.stamps,
            joined: at < self.joined as usize,
            ended: self.ended.as_slice(),
        };
        match self.workers.try_turn(&cluster.workers, at, act) {
            Ok(news) => Some(news),
            Err(
                Work {
                    rt: _,
                    job: _,
                    stamps: _,
                    joined: _,
                    ended: _,
                },
            ) => {
                self.missed = true;
                None
            }
        }
    }

    fn turn_client<R: Wait, J: Attends<C, L>>(
        &mut self,
        rt: &R,
        cluster: &Cluster<KS, KW, KC, L, S, W, C>,
        at: usize,
        job: &J,
        sight: &mut J::Sight,
    ) -> bool
        requires { at < length KC.berths }
    {
        let act = Attend {
            rt,
            job,
            stamps: &mut self.stamps,
            ended: self.ended.as_slice(),
            sight,
        };
        match self.clients.try_turn(&cluster.clients, at, act) {
            Ok(news) => {
                self.served |= news.served;
                self.over |= news.over;
                news.moved
            }
            Err(
                Attend {
                    rt: _,
                    job: _,
                    stamps: _,
                    ended: _,
                    sight: _,
                },
            ) => {
                self.missed = true;
                false
            }
        }
    }
}

/// A driver with what it goes round by.
struct Driving<'a, R, KS, KW, KC, L, S, W, C, J>
where
    KS: Places<S>,
    KW: Places<W>,
    KC: Places<C>,
    L: Label,
    S: Kept<Block = L::Block>,
    W: Kept<Block = L::Block>,
    C: Kept<Block = L::Block>,
{
    rt: &'a R,
    cluster: &'a Cluster<KS, KW, KC, L, S, W, C>,
    job: &'a J,
    driver: &'a mut Driver<KS, KW, KC, L, S, W, C>,
}

impl<'a, R, KS, KW, KC, L, S, W, C, J> Drives<J::Sight>
    for Driving<'a, R, KS, KW, KC, L, S, W, C, J>
where
    R: Wait,
    KS: Places<S>,
    KW: Places<W>,
    KC: Places<C>,
    L: Label,
    S: Kept<Block = L::Block>,
    W: Kept<Block = L::Block>,
    C: Kept<Block = L::Block>,
    J: Schedules<S, L> + Works<W, L> + Attends<C, L>,
{
    fn go_round(&mut self, sight: &mut J::Sight) -> bool {
        self.driver.go(self.rt, self.cluster, self.job, sight)
    }
}

/// All drivers at once, each in a thread of its own as far as threads can be started. The first stays on this thread, and is what the waiter waits by.
pub fn run_drivers<R, KS, KW, KC, L, S, W, C, J, T>(
    rt: &R,
    cluster: &Cluster<KS, KW, KC, L, S, W, C>,
    drivers: &mut [Driver<KS, KW, KC, L, S, W, C>],
    job: &J,
    waiter: &mut T,
)
where
    R: Threads + Wait + Sync,
    KS: Places<S> + Send + Sync,
    KW: Places<W> + Send + Sync,
    KC: Places<C> + Send + Sync,
    L: Label + Send + Sync,
    S: Kept<Block = L::Block> + Send + Sync,
    W: Kept<Block = L::Block> + Send + Sync,
    C: Kept<Block = L::Block> + Send + Sync,
    J: Schedules<S, L> + Works<W, L> + Attends<C, L> + Sync,
    T: Waits<J::Sight>,
    ensures count { length drivers.new ≡ length drivers.old }
    ensures waited { T.leads waiter.old waiter.new }
{
    let Some((first, others)) = drivers.split_first_mut() else {
        return;
    };
    thread::join_mut(
        rt,
        &mut ||
            requires { IsSync R.row × IsSync J.row × (IsSend KS.row × IsSync KS.row) × (IsSend KW.row × IsSync KW.row) × (IsSend KC.row × IsSync KC.row)
                × (IsSend L.row × IsSync L.row) × (IsSend S.row × IsSync S.row) × (IsSend W.row × IsSync W.row) × (IsSend C.row × IsSync C.row) }
        { run_others(rt, cluster, others, job) },
        &mut || first.wait(rt, cluster, job, waiter),
    );
}

/// Drivers that go round, each in a thread of its own as far as threads can be started.
fn run_others<R, KS, KW, KC, L, S, W, C, J>(
    rt: &R,
    cluster: &Cluster<KS, KW, KC, L, S, W, C>,
    drivers: &mut [Driver<KS, KW, KC, L, S, W, C>],
    job: &J,
)
where
    R: Threads + Wait + Sync,
    KS: Places<S> + Send + Sync,
    KW: Places<W> + Send + Sync,
    KC: Places<C> + Send + Sync,
    L: Label + Send + Sync,
    S: Kept<Block = L::Block> + Send + Sync,
    W: Kept<Block = L::Block> + Send + Sync,
    C: Kept<Block = L::Block> + Send + Sync,
    J: Schedules<S, L> + Works<W, L> + Attends<C, L> + Sync,
    ensures { length drivers.new ≡ length drivers.old }
{
    let count = drivers.len().max(1);
    thread::for_each_mut(
        rt,
        drivers,
        count,
        &|_, driver: &mut Driver<KS, KW, KC, L, S, W, C>| driver.drive(rt, cluster, job),
    );
}
