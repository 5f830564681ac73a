//! All words of `sim`.
ghost use Rattle.std.specs.Prelude.{◌-◌, ◌^◌, ℕ, IfOk, IfErr, codes, map, string_bytes, MatchOption};
ghost use Rattle.command_words.specs.Given.{text_in};
ghost use Rattle.command_words.specs.Numbers.{IsNumber};
ghost use Rattle.command_words.specs.Words.{HasSeed, IsSettings, IsSim, IsWhy, SaysNoSim, SaysSim};
ghost use Rattle.command_words.specs.declared.sim.Settings.{Settings as AnySettings};

use crate::apps::sim_matches;
use crate::fail::WordsFail;
use crate::given::{given_to, is_first, own_text};
use crate::numbers::number_in;
use crate::settings::{settings_of, walk_of};
use clap::ArgMatches;
use cluster_msgs::Script;
use std::alloc::Global;

/// The numbers of a simulation: the generator's, how many workers there are at first, with how many threads each, the saturation
/// in tenths, and how often a key's worker may leave while the key is assigned to it, where that is bounded.
#[derive(Clone, Copy)]
pub struct Settings {
    pub number: u64,
    pub workers: u32,
    pub threads: u32,
    pub saturation: u32,
    pub allowed: Option<u32>,
}

/// What the words of a simulation say.
#[derive(Drop)]
pub struct SimWords {
    pub job: String,
    pub settings: Settings,
    pub script: Script,
}

// The generator's number that a word says.
fn seed_in(word: &str) -> Option<u64>
    ensures { MatchOption result ((n : ℕ) → ¬ IsNumber 0 (2 ^ 64 - 1) word.now n) (IsNumber 0 (2 ^ 64 - 1) word.now) }
{
    let number = number_in(word, 0, u128::from(u64::MAX))?;
    u64::try_from(number).ok()
}

// The generator's number that is given.
pub(crate) fn seed_of(matches: &ArgMatches<'_>) -> Option<u64>
    ensures { let Has = HasSeed (text_in matches.now (codes "number")) in MatchOption result ((n : ℕ) → ¬ Has n) Has }
{
    match given_to(matches, "number") {
        Some(text) => seed_in(text),
        None => None,
    }
}

// All numbers.
fn settings_of_sim(matches: &ArgMatches<'_>) -> Option<Settings>
    ensures { let Has = IsSettings (text_in matches.now) in MatchOption result ((s : AnySettings) → ¬ Has s) Has }
{
    let number = seed_of(matches)?;
    let run = settings_of(matches)?;
    Some(Settings {
        number,
        workers: run.workers,
        threads: run.threads,
        saturation: run.saturation,
        allowed: run.allowed,
    })
}

// The simulation of this job with these settings, where its script can be followed.
fn with_settings(
    alloc: Global,
    matches: &ArgMatches<'_>,
    settings: Settings,
) -> Result<SimWords, WordsFail>
    requires settings { IsSettings (text_in matches.now) settings }
    ensures said { IfOk result (SaysSim (text_in matches.now)) }
    ensures refused { IfErr result (SaysNoSim (text_in matches.now)) }
{
    let job = own_text(alloc, matches, "job")?;
    let script = walk_of(alloc, matches, settings.workers, settings.threads)?;
    Ok(SimWords {
        job,
        settings,
        script,
    })
}

// The simulation that the texts say.
fn sim_of(alloc: Global, matches: &ArgMatches<'_>) -> Result<SimWords, WordsFail>
    ensures said { IfOk result (SaysSim (text_in matches.now)) }
    ensures refused { IfErr result (SaysNoSim (text_in matches.now)) }
{
    match settings_of_sim(matches) {
        Some(settings) => with_settings(alloc, matches, settings),
        None => Err(WordsFail::Refused),
    }
}

/// What the words `sim JOB NUMBER` with their options say.
///
/// The options are `--workers N` (1 to 64, else 4), `--threads N` (1 to 16, else 2), `--saturation N` (1 to 1000, else 11),
/// `--allowed-failures N` (0 to 1000, else losses aren't bounded) and `--script S`, each at most once, in any order. A script
/// is up to 1,000 items `lose:W@N`, `suspect:W@N` or `join@N` with commas between, with N not falling, that takes away only
/// workers that are there, lets at most 64 join, and leaves always at least one worker, at most 64, and at most 64 threads.
/// The words behind `sim` are read with `clap`, so `--workers=N` is accepted, and behind `--` a job may begin with a hyphen.
///
/// # Errors
/// `Refused` exactly where the words say nothing of this form, and `OutOfMemory` where no memory is left.
pub fn read_sim(alloc: Global, words: &[String]) -> Result<SimWords, WordsFail>
    ensures said { IfOk result (IsSim (map string_bytes words.now)) }
    ensures refused { IfErr result (IsWhy (map string_bytes words.now)) }
{
    if !is_first(words, "sim") {
        return Err(WordsFail::Refused);
    }
    let matches = sim_matches(alloc, words)?;
    sim_of(alloc, &matches)
}
