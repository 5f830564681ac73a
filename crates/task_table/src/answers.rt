//! The policies' questions.
ghost use Rattle.std.specs.Prelude.{◌≡◌, ◌*◌, ◌<◌, ◌≤◌, nat_le, unwrap_or};
ghost use Rattle.std.specs.Option.{option_map};
ghost use Rattle.cluster_rules.specs.Sched.{keys, erred, waiters};
ghost use Rattle.task_table.specs.Tasks.{facts};

use crate::table::TaskTable;
use cluster_rules::Facts;

/// The worker of a place.
fn place_worker(place: Option<(u32, u64)>) -> Option<u32>
    ensures { result ≡ option_map (λ p. p.0) place }
{
    match place {
        Some((worker, _)) => Some(worker),
        None => None,
    }
}

/// The threads of a worker, where it is connected.
fn thread_count(threads: Option<u32>) -> u32
    ensures { result ≡ unwrap_or threads 0 }
{
    match threads {
        Some(count) => count,
        None => 0,
    }
}

/// Whether a worker of so many threads has as many tasks as the saturation allows.
fn is_full(threads: u32, saturation: u32, tasks: u64) -> bool
    requires threads { threads ≤ 16 }
    requires saturation { saturation ≤ 1000 }
    requires tasks { tasks ≤ 32768 }
    ensures { result ≡ nat_le (threads * saturation) (10 * tasks) }
{
    u64::from(threads) * u64::from(saturation) <= 10 * tasks
}

/// A count of keys or of workers.
fn few(count: u64) -> u32
    requires { count ≤ 32768 }
    ensures { result ≡ count }
{
    count as u32
}

impl Facts for TaskTable {
    ghost facts = { facts };

    fn sound(&self) {
        self.table().sound();
    }

    fn keys(&self) -> u32 {
        self.table().keys()
    }

    fn needed(&self, key: u32) -> bool {
        self.is_needed(key)
    }

    fn held(&self, key: u32) -> bool {
        self.table().is_held(key)
    }

    fn erred(&self, key: u32) -> bool {
        self.is_erred(key)
    }

    fn holds(&self, worker: u32, key: u32) -> bool {
        self.table().holds(worker, key)
    }

    fn on(&self, key: u32) -> Option<u32> {
        place_worker(self.table().on(key))
    }

    fn last_worker(&self) -> u32 {
        self.table().last_worker()
    }

    fn connected(&self, worker: u32) -> bool {
        self.table().is_connected(worker)
    }

    fn threads(&self, worker: u32) -> u32 {
        thread_count(self.table().threads(worker))
    }

    fn tasks(&self, worker: u32) -> u32 {
        let table = self.table();
        table.sound();
        few(table.tasks(worker))
    }

    fn occupancy(&self, worker: u32) -> u64 {
        self.table().occupancy(worker)
    }

    fn bytes_held(&self, worker: u32) -> u64 {
        self.table().bytes_held(worker)
    }

    fn holders(&self, key: u32) -> u32 {
        let table = self.table();
        table.sound();
        few(table.holder_count(key))
    }

    fn waiters(&self, key: u32) -> u32 {
        self.waiter_count(key)
    }

    fn asked_steal(&self, key: u32) -> bool {
        self.table().steal(key).is_some()
    }

    fn full(&self, worker: u32) -> bool {
        let table = self.table();
        table.sound();
        is_full(
            thread_count(table.threads(worker)),
            table.saturation(),
            table.tasks(worker),
        )
    }
}
