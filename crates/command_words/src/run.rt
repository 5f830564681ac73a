//! All words of `run`.
ghost use Rattle.std.specs.Prelude.{◌^◌, ℕ, IfOk, IfErr, Some, codes, map, string_bytes, MatchBool, MatchOption};
ghost use Rattle.command_words.specs.Given.{HasNumber, text_in};
ghost use Rattle.command_words.specs.Words.{HasSettings, HasTransport, IsNoRun, IsRun, SaysNoRun, SaysRun};

use crate::apps::run_matches;
use crate::fail::WordsFail;
use crate::given::{given_to, is_first, is_given, number_of, own_text};
use crate::settings::{RunSettings, settings_of, walk_of};
use clap::ArgMatches;
use cluster_msgs::Script;
use std::alloc::Global;

/// The most bytes of blocks that a worker may be said to keep in memory, and those that it keeps where nothing is said.
const MOST_MEMORY: u128 = 1 << 40;

const MEMORY: u128 = 1 << 28;

/// What the words of a run say. The memory is that of a worker's blocks, in bytes.
#[derive(Drop)]
pub struct RunWords {
    pub job: String,
    pub settings: RunSettings,
    pub memory: u64,
    pub script: Script,
    pub report: bool,
}

// Whether the one transport is asked for, or none.
fn has_transport(matches: &ArgMatches<'_>) -> bool
    ensures { let given = text_in matches.now (codes "transport") in MatchBool result (HasTransport given) (¬ HasTransport given) }
{
    match given_to(matches, "transport") {
        Some(text) => text == "inproc",
        None => true,
    }
}

// The bytes of blocks that each worker may keep in memory.
fn memory_of(matches: &ArgMatches<'_>) -> Option<u64>
    ensures { let Has = HasNumber (text_in matches.now (codes "memory")) 1 (2 ^ 40) (2 ^ 28) in MatchOption result ((n : ℕ) → ¬ Has n) Has }
{
    let number = number_of(matches, "memory", 1, MOST_MEMORY, MEMORY)?;
    u64::try_from(number).ok()
}

// The run of this job with these settings, where its script can be followed.
fn with_settings(
    alloc: Global,
    matches: &ArgMatches<'_>,
    settings: RunSettings,
    memory: u64,
) -> Result<RunWords, WordsFail>
    requires settings { HasSettings (text_in matches.now) settings }
    requires memory { HasNumber (text_in matches.now (codes "memory")) 1 (2 ^ 40) (2 ^ 28) memory }
    requires transport { HasTransport (text_in matches.now (codes "transport")) }
    ensures said { IfOk result (SaysRun (text_in matches.now)) }
    ensures refused { IfErr result (SaysNoRun (text_in matches.now)) }
{
    let job = own_text(alloc, matches, "job")?;
    let script = walk_of(alloc, matches, settings.workers, settings.threads)?;
    let report = is_given(matches, "report");
    Ok(RunWords {
        job,
        settings,
        memory,
        script,
        report,
    })
}

// The run that the texts say.
fn run_of(alloc: Global, matches: &ArgMatches<'_>) -> Result<RunWords, WordsFail>
    ensures said { IfOk result (SaysRun (text_in matches.now)) }
    ensures refused { IfErr result (SaysNoRun (text_in matches.now)) }
{
    if !has_transport(matches) {
        return Err(WordsFail::Refused);
    }
    match (settings_of(matches), memory_of(matches)) {
        (Some(settings), Some(memory)) => with_settings(alloc, matches, settings, memory),
        _ => Err(WordsFail::Refused),
    }
}

/// What the words `run JOB` with their options say.
///
/// The options are `--workers N` (1 to 64, else 4), `--threads N` (1 to 16, else 2), `--saturation N` (1 to 1000, else 11),
/// `--allowed-failures N` (0 to 1000, else losses aren't bounded), `--memory BYTES` (1 to 2^40, else 2^28),
/// `--transport inproc`, `--script S` and the flag `--report`, each at most once, in any order. A script is as that of a
/// simulation (`read_sim`). Workers times threads are at most 64. The words behind `run` are read with `clap`, so
/// `--workers=N` is accepted, and behind `--` a job may begin with a hyphen.
///
/// # Errors
/// `Refused` exactly where the words say nothing of this form, and `OutOfMemory` where no memory is left.
pub fn read_run(alloc: Global, words: &[String]) -> Result<RunWords, WordsFail>
    ensures said { IfOk result (IsRun (map string_bytes words.now)) }
    ensures refused { IfErr result (IsNoRun (map string_bytes words.now)) }
{
    if !is_first(words, "run") {
        return Err(WordsFail::Refused);
    }
    let matches = run_matches(alloc, words)?;
    run_of(alloc, &matches)
}
