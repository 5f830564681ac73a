//! The settings that runs and simulations have, and their script.
ghost use Rattle.std.specs.Prelude.{◌≤◌, ℕ, IfOk, IfErr, codes, MatchOption};
ghost use Rattle.command_words.specs.Given.{HasNumber, text_in};
ghost use Rattle.command_words.specs.Words.{HasNoWalk, HasScript, HasSettings, HasWalk, IsNotGiven};
ghost use Rattle.command_words.specs.declared.settings.RunSettings.{RunSettings as AnySettings};

use crate::fail::WordsFail;
use crate::given::{bound_of, given_to, number_of};
use crate::script::read_script;
use crate::walk::is_walk;
use clap::ArgMatches;
use cluster_msgs::Script;
use std::alloc::Global;

/// The numbers of a run: how many workers there are at first, with how many threads each, the saturation in tenths, and how often a key's worker may
/// leave while the key is assigned to it, where that is bounded.
#[derive(Clone, Copy)]
pub struct RunSettings {
    pub workers: u32,
    pub threads: u32,
    pub saturation: u32,
    pub allowed: Option<u32>,
}

/// No words allow a key more losses.
const MOST_LOSSES: u32 = 1000;

// A number from 1 that is given to a name, or the one that is taken without it.
pub(crate) fn setting_of(
    matches: &ArgMatches<'_>,
    name: &str,
    most: u32,
    default: u32,
) -> Option<u32>
    ensures { let Has = HasNumber (text_in matches.now name.now) 1 most default in MatchOption result ((n : ℕ) → ¬ Has n) Has }
{
    let number = number_of(matches, name, 1, u128::from(most), u128::from(default))?;
    u32::try_from(number).ok()
}

/// All numbers that are given.
pub fn settings_of(matches: &ArgMatches<'_>) -> Option<RunSettings>
    ensures { let Has = HasSettings (text_in matches.now) in MatchOption result ((s : AnySettings) → ¬ Has s) Has }
{
    Some(RunSettings {
        workers: setting_of(matches, "workers", 64, 4)?,
        threads: setting_of(matches, "threads", 16, 2)?,
        saturation: setting_of(matches, "saturation", 1000, 11)?,
        allowed: bound_of(matches, "allowed-failures", MOST_LOSSES)?,
    })
}

// The script that is given, or the empty one.
fn script_of(alloc: Global, matches: &ArgMatches<'_>) -> Result<Script, WordsFail>
    ensures script { IfOk result (HasScript (text_in matches.now (codes "script"))) }
    ensures refused { IfErr result (IsNotGiven (text_in matches.now (codes "script"))) }
{
    match given_to(matches, "script") {
        Some(text) => read_script(alloc, text),
        None => Ok(Script::new(alloc)),
    }
}

/// The script, where it can be followed from this many workers of this many threads each.
pub fn walk_of(
    alloc: Global,
    matches: &ArgMatches<'_>,
    workers: u32,
    threads: u32,
) -> Result<Script, WordsFail>
    requires workers { workers ≤ 64 }
    requires threads { threads ≤ 16 }
    ensures walk { IfOk result (HasWalk (text_in matches.now) workers threads) }
    ensures refused { IfErr result (HasNoWalk (text_in matches.now) workers threads) }
{
    let script = script_of(alloc, matches)?;
    if is_walk(alloc, workers, threads, &script)? {
        Ok(script)
    } else {
        Err(WordsFail::Refused)
    }
}
