//! What a simulation begins with.
ghost use Rattle.std.specs.Prelude.{◌≡◌, IfOk, nat_lt};
ghost use Rattle.std.specs.List.{list_all};
ghost use Rattle.cluster_msgs.specs.Shape.{key_count};
ghost use Rattle.cluster_sim.specs.Openings.{AreWanted};
ghost use Rattle.cluster_sim.specs.Plans.{plan_of, IsPlan};

use crate::words::{Fault, Words};
use crate::world::quotients::{Number, Quotients};
use crate::world::{Opening, read_opening};
use cluster_msgs::{Item, KeyList, Script};
use cluster_sim::SimPlan;

/// A script has at most this many items.
const MOST_ITEMS: usize = 64;

/// A plan, what losses are allowed, the generator's number, the keys that client 1 wants, and the job with its feed.
#[derive(Drop)]
pub struct Setup {
    pub plan: SimPlan,
    pub allowed: Option<u32>,
    pub number: u64,
    pub wanted: KeyList,
    pub job: Quotients,
    pub feed: Number,
}

// An item `lose:1@2`, `suspect:1@2` or `join@2`.
fn read_item(words: &mut Words<'_>, word: &str) -> Item {
    let (what, at) = word.split_once('@').unwrap_or((word, ""));
    let at = words.number_of(at) as u128;
    match what.split_once(':') {
        Some(("lose", worker)) => Item::Lose {
            w: words.small_of(worker),
            at,
        },
        Some(("suspect", worker)) => Item::Suspect {
            w: words.small_of(worker),
            at,
        },
        _ => Item::Join { at },
    }
}

fn read_script(words: &mut Words<'_>) -> Script {
    let mut script = Script::new(words.alloc());
    let word = words.word();
    if word != "-" {
        for item in word.split(',') {
            let item = read_item(words, item);
            words.note(script.push(item));
        }
    }
    script
}

// The plan of so many workers and threads, and of a script.
fn plan_with(workers: u32, threads: u32, script: Script) -> Result<SimPlan, Fault>
    ensures { IfOk result (λ p. IsPlan (plan_of p)) }
{
    if workers > 64 || threads < 1 || threads > 16 || script.len() > MOST_ITEMS {
        return Err(Fault::Ill);
    }
    Ok(SimPlan {
        workers,
        threads,
        script,
    })
}

fn are_below(keys: &[u32], count: u32) -> bool
    ensures { result ≡ list_all (λ k. nat_lt k count) keys.now }
{
    for key in keys {
        if *key >= count {
            return false;
        }
    }
    true
}

// Some keys, if all are of a graph of so many.
fn wanted_of(keys: KeyList, count: u32) -> Result<KeyList, Fault>
    ensures { IfOk result (λ keys. AreWanted count keys) }
{
    if keys.is_empty() || !are_below(keys.as_slice(), count) {
        return Err(Fault::Ill);
    }
    Ok(keys)
}

/// What the words of a story say.
pub fn read_setup(words: &mut Words<'_>) -> Result<Setup, Fault>
    ensures plan { IfOk result (λ s. IsPlan (plan_of s.plan)) }
    ensures wanted { IfOk result (λ s. AreWanted (key_count s.job.shape) s.wanted) }
    ensures feed { IfOk result (λ s. s.feed.value ≡ s.job.content) }
{
    let workers = words.small();
    let (threads, allowed) = words.bounded();
    let number = words.number();
    let plan = plan_with(workers, threads, read_script(words))?;
    let wanted = words.keys();
    let Opening { job, feed } = read_opening(words)?;
    let wanted = wanted_of(wanted, job.shape.keys())?;
    Ok(Setup {
        plan,
        allowed,
        number,
        wanted,
        job,
        feed,
    })
}
