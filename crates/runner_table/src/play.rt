//! Runs what a line asks for, and prints how it ended.
ghost use Rattle.std.specs.Prelude.{◌≡◌, Some, true, All, IfOk, IfSome};
ghost use Rattle.runner_table.specs.Sums.{sum_of};

use crate::asked::Asked;
use crate::gates::{Meeting, Slow};
use crate::journal;
use crate::name::{Named, Picks};
use crate::page::Page;
use crate::results::Results;
use crate::sums::{Reader, Sums, graph};
use cluster_msgs::{KeyList, RunFail};
use io_edge::Gate;
use node_runner::{Ends, Fed, Histories, RunLabel, RunName, RunStatus, run_cluster};
use node_states::{Blocks, Why};
use std::alloc::{AllocError, AllocGlobal, Global};
use std::marker::Brand;
use std::random::RandomSource;
use std::sync::Wait;
use std::thread::Threads;

/// The store of a worker's blocks.
type Store<K> = Blocks<u64, RunLabel<Sums, K>>;

/// A key with its value.
#[derive(Clone, Copy)]
struct Worth {
    key: u32,
    value: u64,
}

/// What came of a run.
#[derive(Drop)]
struct Told {
    worths: Result<Vec<Worth>, RunStatus>,
    left: Vec<Option<Why>>,
    histories: Option<Histories>,
}

/// Runs it, and prints how it ended.
pub fn play<R: Threads + Wait + RandomSource + AllocGlobal + Sync>(
    rt: &R,
    alloc: Global,
    page: &mut Page,
    asked: &Asked,
) {
    match graph(alloc, asked.leaves, asked.shared, asked.manner.work as u64) {
        Some(shape) => {
            let zero = asked.manner.zero;
            play_job(rt, alloc, page, asked, &Sums { shape, zero });
        }
        None => page.line("no memory"),
    }
}

fn play_job<R: Threads + Wait + RandomSource + AllocGlobal + Sync>(
    rt: &R,
    alloc: Global,
    page: &mut Page,
    asked: &Asked,
    job: &Sums,
) {
    let told = if asked.manner.meet > 0 {
        meet(rt, alloc, page, asked, job)
    } else {
        let looks = asked.manner.slow;
        run(rt, alloc, asked, &Slow { looks }, job)
    };
    match told {
        Ok(told) => print(page, alloc, asked, job, told),
        Err(_) => page.line("no memory"),
    }
}

/// Runs it with tasks that meet, and prints whether they did.
fn meet<R: Threads + Wait + RandomSource + AllocGlobal + Sync>(
    rt: &R,
    alloc: Global,
    page: &mut Page,
    asked: &Asked,
    job: &Sums,
) -> Result<Told, AllocError> {
    let meeting = Meeting::new(asked.manner.meet as u64);
    let told = run(rt, alloc, asked, &meeting, job);
    page.item("", asked.manner.meet);
    page.item(" tasks at once: ", meeting.met());
    page.put("\n");
    told
}

/// Runs it. Each value that is told is that of its key.
fn run<R: Threads + Wait + RandomSource + AllocGlobal + Sync, G: Gate>(
    rt: &R,
    alloc: Global,
    asked: &Asked,
    gate: &G,
    job: &Sums,
) -> Result<Told, AllocError>
    ensures { IfOk result (λ t. IfOk t.worths (λ ws. All (λ w. sum_of job.now.shape job.now.zero w.key ≡ Some w.value) ws.items)) }
{
    run_named::<R, G, Brand>(rt, alloc, asked, gate, job)
}

fn run_named<R, G, P>(
    rt: &R,
    alloc: Global,
    asked: &Asked,
    gate: &G,
    job: &Sums,
) -> Result<Told, AllocError>
where
    R: Threads + Wait + RandomSource + AllocGlobal + Sync,
    G: Gate,
    P: Picks<Sums> + Send + Sync + Drop,
    requires picked { P.picked ≡ Some job.now }
    requires allowed { P.allowed ≡ asked.now.plan.allowed }
    ensures { IfOk result (λ t. IfOk t.worths (λ ws. All (λ w. sum_of job.now.shape job.now.zero w.key ≡ Some w.value) ws.items)) }
{
    let keys = job.shape.keys();
    let results = Results::<RunLabel<Sums, Named<P>>>::new(alloc, keys)?;
    let mut wanted = KeyList::new(alloc);
    let mut feeds = Vec::new(alloc);
    let mut stores = Vec::new(alloc);
    if begin::<Named<P>>(alloc, asked, keys, &mut wanted, &mut feeds, &mut stores).is_err() {
        // Without stores nothing is run, as for want of memory.
        stores.clear();
    }
    let (ends, results) = run_cluster::<
        R,
        Sums,
        G,
        Named<P>,
        Store<Named<P>>,
        Results<RunLabel<Sums, Named<P>>>,
    >(
        rt,
        alloc,
        job,
        gate,
        &asked.plan,
        &wanted,
        feeds,
        stores,
        results,
    );
    let told = told_of(alloc, job, &wanted, ends, &results);
    drop(results);
    Ok(told)
}

/// Adds the keys that the client wants, and the feeds and the stores of the workers.
fn begin<K: RunName<Sums>>(
    alloc: Global,
    asked: &Asked,
    keys: u32,
    wanted: &mut KeyList,
    feeds: &mut Vec<Vec<Fed<Sums, K>>>,
    stores: &mut Vec<Store<K>>,
) -> Result<(), AllocError> {
    add_wanted(wanted, asked.wanted.as_slice())?;
    wanted.push(keys.saturating_sub(1))?;
    add_feeds(alloc, feeds, asked)?;
    add_stores(alloc, stores, asked.plan.numbers(), keys)
}

fn add_wanted(wanted: &mut KeyList, keys: &[u32]) -> Result<(), AllocError> {
    for key in keys {
        wanted.push(*key)?;
    }
    Ok(())
}

/// Adds the feeds of each worker that may come.
fn add_feeds<K: RunName<Sums>>(
    alloc: Global,
    feeds: &mut Vec<Vec<Fed<Sums, K>>>,
    asked: &Asked,
) -> Result<(), AllocError> {
    for at in 0..asked.plan.numbers() {
        let worker = at + 1;
        let mut own = Vec::new(alloc);
        let added = add_own(&mut own, feed_count(asked, worker), failure(asked, worker));
        feeds.push(own)?;
        added?;
    }
    Ok(())
}

/// Adds a store of blocks for each worker that may come, which keeps them all in memory.
fn add_stores<K: RunName<Sums>>(
    alloc: Global,
    stores: &mut Vec<Store<K>>,
    numbers: u32,
    keys: u32,
) -> Result<(), AllocError> {
    for _ in 0..numbers {
        stores.push(Blocks::new(alloc, keys)?)?;
    }
    Ok(())
}

/// How many feeds a worker has.
fn feed_count(asked: &Asked, worker: u32) -> u32 {
    if worker == asked.manner.short {
        0
    } else {
        asked.plan.threads
    }
}

/// How a worker's feeds fail, if they do.
fn failure(asked: &Asked, worker: u32) -> Option<RunFail> {
    if worker == asked.manner.failing {
        Some(RunFail::Feed)
    } else if worker == asked.manner.hungry {
        Some(RunFail::OutOfMemory)
    } else {
        None
    }
}

#[tactic(auto, using(crate::proofs::Played::fed))]
fn add_own<K: RunName<Sums>>(
    own: &mut Vec<Fed<Sums, K>>,
    count: u32,
    fails: Option<RunFail>,
) -> Result<(), AllocError> {
    for _ in 0..count {
        own.push(Fed::new(Reader { fails, faults: 0 }))?;
    }
    Ok(())
}

/// How a run ended, without its feeds and stores.
fn told_of<K: RunName<Sums>>(
    alloc: Global,
    job: &Sums,
    wanted: &KeyList,
    ends: Ends<Fed<Sums, K>, Store<K>>,
    results: &Results<RunLabel<Sums, K>>,
) -> Told
    requires named { K.job ≡ Some job.now }
    requires told { K.told ≡ true }
    ensures { IfOk result.worths (λ ws. All (λ w. sum_of job.now.shape job.now.zero w.key ≡ Some w.value) ws.items) }
{
    let Ends {
        result,
        histories,
        left,
        feeds,
        stores,
    } = ends;
    drop(feeds);
    drop(stores);
    let worths = match result {
        Ok(()) => worths(alloc, job, wanted.as_slice(), results),
        Err(status) => Err(status),
    };
    Told {
        worths,
        left,
        histories,
    }
}

fn worths<K: RunName<Sums>>(
    alloc: Global,
    job: &Sums,
    wanted: &[u32],
    results: &Results<RunLabel<Sums, K>>,
) -> Result<Vec<Worth>, RunStatus>
    requires named { K.job ≡ Some job.now }
    requires told { K.told ≡ true }
    ensures { IfOk result (λ ws. All (λ w. sum_of job.now.shape job.now.zero w.key ≡ Some w.value) ws.items) }
{
    let mut worths = Vec::new(alloc);
    for key in wanted {
        if let Some(worth) = worth_of(job, *key, results) {
            if worths.push(worth).is_err() {
                return Err(RunStatus::Memory);
            }
        }
    }
    Ok(worths)
}

fn worth_of<K: RunName<Sums>>(
    _job: &Sums,
    key: u32,
    results: &Results<RunLabel<Sums, K>>,
) -> Option<Worth>
    requires named { K.job ≡ Some _job.now }
    requires told { K.told ≡ true }
    ensures { IfSome result (λ w. sum_of _job.now.shape _job.now.zero w.key ≡ Some w.value) }
{
    match results.value(key) {
        Some(value) => Some(Worth { key, value }),
        None => None,
    }
}

fn why(why: Why) -> &'static str {
    match why {
        Why::Script => "script",
        Why::Feed => "feed",
        Why::Link => "link",
        Why::Memory => "memory",
    }
}

fn print(page: &mut Page, alloc: Global, asked: &Asked, job: &Sums, told: Told) {
    let Told {
        worths,
        left,
        histories,
    } = told;
    match worths {
        Ok(worths) => print_worths(page, &worths),
        Err(RunStatus::Zero { key }) => {
            page.item("zero divisor at ", key);
            page.put("\n");
        }
        Err(RunStatus::Killed { key, losses }) => {
            page.numbers("killed:", &[key as u64, losses as u64]);
            page.put("\n");
        }
        Err(RunStatus::Read) => page.line("read fault"),
        Err(RunStatus::Events) => page.line("events"),
        Err(RunStatus::Memory) => page.line("no memory"),
    }
    print_left(page, &left);
    if asked.manner.journal {
        journal::print(
            page,
            alloc,
            job,
            asked.plan.saturation,
            asked.plan.allowed,
            asked.manner.spoil,
            histories,
        );
    } else {
        drop(histories);
    }
}

fn print_worths(page: &mut Page, worths: &[Worth]) {
    for worth in worths {
        page.item("key ", worth.key);
        page.item(" is ", worth.value);
        page.put("\n");
    }
}

fn print_left(page: &mut Page, left: &[Option<Why>]) {
    for (at, cause) in left.iter().enumerate() {
        if let Some(cause) = cause {
            page.item("worker ", at + 1);
            page.item(" left: ", why(*cause));
            page.put("\n");
        }
    }
}
