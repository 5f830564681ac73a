//! The job that is played: leaves, one task on each, maybe one on each four neighbours of these, and a tree of fours.
ghost use Rattle.std.specs.Prelude.{◌≡◌, fold, IfOk};
ghost use Rattle.cluster_msgs.specs.Jobs.{CountsFault, blocks_of};
ghost use Rattle.cluster_msgs.specs.declared.jobs.Outcome.TheVariants.{Value};
ghost use Rattle.runner_table.specs.Sums.{is_at, mixed_in};

use cluster_msgs::{GraphRow, GraphShape, JobSpec, KeyList, Outcome, RunFail};
use std::alloc::Global;
use std::sync::Arc;

/// What is read from outside: it fails, or finds no memory, where that is said.
#[derive(Drop)]
pub struct Reader {
    pub fails: Option<RunFail>,
    pub faults: u64,
}

/// The graph, and the key that meets a zero divisor, if one does.
#[derive(Drop)]
pub struct Sums {
    pub shape: GraphShape,
    pub zero: Option<u32>,
}

const MODULUS: u64 = 1_000_003;

impl JobSpec for Sums {
    type Block = u64;

    type Feed = Reader;

    ghost use Rattle.std.specs.Prelude.{◌≡◌, []};
    ghost use Rattle.runner_table.specs.Sums.{worth};

    ghost graph = { λ j. j.shape };

    ghost key_dims = { λ j k. [] };

    ghost block_dims = { λ b. [] };

    ghost operation = { λ j. worth j.zero };

    ghost feed_fits = { λ j f. Unit {0} };

    ghost feed_tells = { λ j f. Unit {0} };

    ghost fault_count = { λ f. f.faults };

    fn shape(&self) -> &GraphShape {
        &self.shape
    }

    fn dims(&self, _key: u32) -> &[u64] {
        &[]
    }

    fn faults(&self, feed: &Reader) -> u64 {
        feed.faults
    }

    fn run(
        &self,
        feed: &mut Reader,
        key: u32,
        inputs: &[Arc<u64>],
    ) -> Result<Outcome<u64>, RunFail> {
        if is_at(self.zero, key) {
            return Ok(Outcome::Zero);
        }
        if inputs.is_empty() {
            return read(feed, key);
        }
        Ok(Outcome::Value(mixed(inputs)))
    }
}

fn is_at(place: Option<u32>, key: u32) -> bool
    ensures { result ≡ is_at place key }
{
    match place {
        Some(place) => place == key,
        None => false,
    }
}

/// A leaf, unless its feed fails or finds no memory.
fn read(feed: &mut Reader, key: u32) -> Result<Outcome<u64>, RunFail>
    ensures value { IfOk result (λ o. o ≡ Value key) }
    ensures faults { CountsFault result feed.old.faults feed.new.faults }
{
    match feed.fails {
        None => Ok(Outcome::Value(key as u64)),
        Some(RunFail::OutOfMemory) => Err(RunFail::OutOfMemory),
        Some(RunFail::Feed) => {
            feed.faults = feed.faults.saturating_add(1);
            Err(RunFail::Feed)
        }
    }
}

fn mixed(inputs: &[Arc<u64>]) -> u64
    ensures { result ≡ fold mixed_in 0 (blocks_of inputs.now) }
{
    let mut value: u64 = 0;
    for input in inputs {
        value = (value % MODULUS * 31 + **input % MODULUS) % MODULUS;
    }
    value
}

/// So many leaves, a key over each, and trees of fours over these down to one key, which is the last. Where keys are shared, a key over each four
/// neighbours stands between. A key's work is so often the bytes that it reads and makes. None where they are too many, or there is no memory.
pub fn graph(alloc: Global, leaves: u32, shared: bool, times: u64) -> Option<GraphShape> {
    let mut rows = Rows {
        alloc,
        rows: Vec::new(alloc),
        times,
        is_short: false,
    };
    rows.add_leaves(leaves);
    rows.add_windows(0, leaves, 1);
    let end = leaves.saturating_mul(2);
    if shared {
        rows.add_windows(leaves, end, 4);
        rows.add_tree(end, leaves.saturating_mul(3));
    } else {
        rows.add_tree(leaves, end);
    }
    rows.into_graph()
}

/// Rows of a graph, how often a key's work is the bytes that it reads and makes, and whether there was no memory for a row.
#[derive(Drop)]
struct Rows {
    alloc: Global,
    rows: Vec<GraphRow>,
    times: u64,
    is_short: bool,
}

impl Rows {
    /// A key over those from the first to an end, which reads and makes so many bytes.
    fn add(&mut self, first: u32, end: u32, bytes: u64) {
        let mut deps = KeyList::new(self.alloc);
        for key in first..end {
            self.is_short |= deps.push(key).is_err();
        }
        let row = GraphRow {
            deps,
            work: self.times.saturating_mul(bytes),
            nbytes: 8,
        };
        self.is_short |= self.rows.push(row).is_err();
    }

    fn add_leaves(&mut self, leaves: u32) {
        for _ in 0..leaves {
            self.add(0, 0, 8);
        }
    }

    /// A key over each of these and so many neighbours, as far as there are.
    fn add_windows(&mut self, first: u32, end: u32, count: u32) {
        for key in first..end {
            self.add(key, key.saturating_add(count).min(end), 16);
        }
    }

    /// A key over each four of these, the first of which has number `end`. The end of the new ones.
    fn level(&mut self, first: u32, end: u32) -> u32 {
        let mut made = end;
        let mut key = first;
        while key < end {
            let last = key.saturating_add(4).min(end);
            self.add(key, last, 40);
            made = made.saturating_add(1);
            key = last;
        }
        made
    }

    /// Levels over these keys down to one key.
    fn add_tree(&mut self, first: u32, end: u32) {
        let mut first = first;
        let mut end = end;
        for _ in 0..16 {
            if end.saturating_sub(first) <= 1 {
                break;
            }
            let top = self.level(first, end);
            first = end;
            end = top;
        }
    }

    fn into_graph(self) -> Option<GraphShape> {
        let Rows {
            alloc,
            rows,
            is_short,
            ..
        } = self;
        if is_short {
            return None;
        }
        GraphShape::from_rows(alloc, rows).ok()
    }
}
