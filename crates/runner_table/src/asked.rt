//! What a line asks for.
ghost use Rattle.std.specs.Prelude.{◌≤◌};
ghost use Rattle.runner_table.specs.Plans.{IsRunnable};

use crate::spoils::{Spoil, Way};
use cluster_msgs::{Item, KeyList, Script};
use node_runner::RunPlan;
use std::alloc::Global;
use std::str::SplitWhitespace;

/// A job of so many leaves, over which shared keys may stand; which keys are wanted besides the last; the plan of its run; and what else is changed.
#[derive(Drop)]
pub struct Asked {
    pub leaves: u32,
    pub shared: bool,
    pub wanted: KeyList,
    pub plan: RunPlan,
    pub manner: Manner,
    ghost runnable: { IsRunnable plan },
}

/// What goes wrong: a key that meets a zero divisor, a worker without feeds, one whose feeds fail, and one whose feeds find no memory. 0 stands for no
/// worker. Also how often a key's work is its bytes, how often each task yields to other threads, how many tasks are to meet, if any, and whether the
/// journal is printed, and how it is spoiled before.
#[derive(Clone, Copy)]
pub struct Manner {
    pub zero: Option<u32>,
    pub short: u32,
    pub failing: u32,
    pub hungry: u32,
    pub work: u32,
    pub slow: u32,
    pub meet: u32,
    pub journal: bool,
    pub spoil: Option<Spoil>,
}

/// What is changed about a run: what the script makes happen, how often a key's worker may leave, which keys are wanted besides, and what goes wrong.
/// Also whether a word says nothing of that, or there is no memory for what it says.
#[derive(Drop)]
struct Changes {
    script: Script,
    saturation: u32,
    allowed: Option<u32>,
    wanted: KeyList,
    manner: Manner,
    is_ill: bool,
}

/// How large a run is.
#[derive(Clone, Copy)]
struct Size {
    leaves: u32,
    shared: bool,
    workers: u32,
    threads: u32,
    capacity: u32,
}

/// The number that a word says, or 0.
fn number(word: &str) -> u32 {
    word.parse::<u32>().unwrap_or(0)
}

/// The number that a word says, of at least 1 and at most so many.
fn count(word: Option<&str>, most: u32) -> u32
    requires { 1 ≤ most }
    ensures { (1 ≤ result) × (result ≤ most) }
{
    number(word.unwrap_or("")).max(1).min(most)
}

/// A line, where it is one.
pub fn read(alloc: Global, line: &str) -> Option<Asked> {
    let mut words = line.split_whitespace();
    let job = words.next().unwrap_or("");
    let size = Size {
        leaves: count(words.next(), 8192),
        shared: job == "shared",
        workers: count(words.next(), 8),
        threads: count(words.next(), 8),
        capacity: count(words.next(), 64),
    };
    let mut changes = Changes::new(alloc);
    changes.is_ill = !size.shared && job != "sum";
    changes.read(words);
    asked_by(size, changes)
}

#[tactic(auto, using(crate::proofs::Plans::few_threads, crate::proofs::Plans::few_numbers))]
fn asked_by(size: Size, changes: Changes) -> Option<Asked>
    requires workers { size.workers ≤ 8 }
    requires threads { (1 ≤ size.threads) × (size.threads ≤ 8) }
    requires capacity { 1 ≤ size.capacity }
{
    let Changes {
        script,
        saturation,
        allowed,
        wanted,
        manner,
        is_ill,
    } = changes;
    if is_ill || script.len() > 1000 || saturation < 1 || saturation > 1000 {
        return None;
    }
    Some(Asked {
        leaves: size.leaves,
        shared: size.shared,
        wanted,
        plan: RunPlan {
            workers: size.workers,
            threads: size.threads,
            saturation,
            allowed,
            script,
            capacity: size.capacity as usize,
        },
        manner,
    })
}

impl Changes {
    fn new(alloc: Global) -> Self {
        Changes {
            script: Script::new(alloc),
            saturation: 11,
            allowed: None,
            wanted: KeyList::new(alloc),
            manner: Manner {
                zero: None,
                short: 0,
                failing: 0,
                hungry: 0,
                work: 1,
                slow: 0,
                meet: 0,
                journal: false,
                spoil: None,
            },
            is_ill: false,
        }
    }

    fn read(&mut self, words: SplitWhitespace) {
        for word in words {
            let (name, rest) = word.split_once(':').unwrap_or((word, ""));
            self.change(name, rest);
        }
    }

    fn change(&mut self, name: &str, rest: &str) {
        let said = number(rest);
        match name {
            "zero" => self.manner.zero = Some(said),
            "short" => self.manner.short = said,
            "fail" => self.manner.failing = said,
            "hungry" => self.manner.hungry = said,
            "want" => self.is_ill |= self.wanted.push(said).is_err(),
            "saturation" => self.saturation = said,
            "allowed" => self.allowed = Some(said),
            "work" => self.manner.work = said.max(1).min(1_000_000),
            "slow" => self.manner.slow = said,
            "meet" => self.manner.meet = said,
            "journal" => self.manner.journal = true,
            "leave" => self.spoil(Way::LeftOut, said),
            "mute" => self.spoil(Way::Mute, said),
            "late" => self.spoil(Way::Late, said),
            _ => self.happen(name, rest),
        }
    }

    fn spoil(&mut self, way: Way, place: u32) {
        self.manner.spoil = Some(Spoil { way, place });
    }

    /// What the script makes happen: `lose` or `suspect` with `W@N` behind it, or `join@N`.
    fn happen(&mut self, name: &str, rest: &str) {
        let (worker, after) = rest.split_once('@').unwrap_or((rest, ""));
        let (w, at) = (number(worker), number(after) as u128);
        match name {
            "lose" => self.add(Item::Lose { w, at }),
            "suspect" => self.add(Item::Suspect { w, at }),
            _ => self.join(name),
        }
    }

    fn join(&mut self, word: &str) {
        let (name, after) = word.split_once('@').unwrap_or((word, ""));
        self.is_ill |= name != "join";
        self.add(Item::Join {
            at: number(after) as u128,
        });
    }

    fn add(&mut self, item: Item) {
        self.is_ill |= self.script.push(item).is_err();
    }
}
