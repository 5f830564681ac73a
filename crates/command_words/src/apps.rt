//! The commands, as `clap` reads their words.
ghost use Rattle.std.specs.Prelude.{◌≡◌, [], IfOk, IfErr, false, map, string_bytes, true};
ghost use Rattle.clap.specs.Faults.{is_simple_and_free};
ghost use Rattle.clap.specs.Simple.{app_of, with_rule};
ghost use Rattle.clap.specs.Walk.{rule_of};
ghost use Rattle.command_words.specs.Apps.{command_of, flag, gen_app, needed, option, plain_app, run_app, sim_app, with_options};
ghost use Rattle.command_words.specs.Given.{CameBy, IsRead, IsUnread};

use crate::fail::WordsFail;
use clap::error::ErrorKind;
use clap::{Arg, ArgAction, ArgMatches, Command, Error};
use std::alloc::{AllocError, Global};

// A positional word that has to stand there.
fn needed_arg<'a>(alloc: Global, name: &'a str) -> Arg<'a>
    ensures rule { rule_of result ≡ needed name.entry.now }
    ensures local { result.global ≡ false }
{
    Arg::new(alloc, name).required(true)
}

// An option with a value.
fn option_arg<'a>(alloc: Global, name: &'a str) -> Arg<'a>
    ensures rule { rule_of result ≡ option name.entry.now }
    ensures local { result.global ≡ false }
{
    Arg::new(alloc, name).long(name)
}

// An option without a value.
fn flag_arg<'a>(alloc: Global, name: &'a str) -> Arg<'a>
    ensures rule { rule_of result ≡ flag name.entry.now }
    ensures local { result.global ≡ false }
{
    Arg::new(alloc, name).long(name).action(ArgAction::SetTrue)
}

// A command that has nothing yet.
fn bare_command<'a>(alloc: Global, name: &'a str) -> Command<'a>
    ensures { app_of result ≡ command_of name.entry.now [] }
{
    Command::new(alloc, name)
        .disable_help_flag(true)
        .disable_version_flag(true)
}

// The command with a further argument.
fn with_arg<'a>(command: Command<'a>, more: Arg<'a>) -> Result<Command<'a>, AllocError>
    requires local { more.global ≡ false }
    ensures { IfOk result (λ c. app_of c ≡ with_rule (app_of command.entry) (rule_of more.entry)) }
{
    command.arg(more)
}

// The command with the options that runs and simulations have.
fn with_settings<'a>(alloc: Global, command: Command<'a>) -> Result<Command<'a>, AllocError>
    ensures { IfOk result (λ c. app_of c ≡ with_options (app_of command.entry)) }
{
    let one = with_arg(command, option_arg(alloc, "workers"))?;
    let two = with_arg(one, option_arg(alloc, "threads"))?;
    let three = with_arg(two, option_arg(alloc, "saturation"))?;
    let four = with_arg(three, option_arg(alloc, "allowed-failures"))?;
    with_arg(four, option_arg(alloc, "script"))
}

fn run_command<'a>(alloc: Global) -> Result<Command<'a>, AllocError>
    ensures { IfOk result (λ c. app_of c ≡ run_app) }
{
    let named = with_arg(bare_command(alloc, "run"), needed_arg(alloc, "job"))?;
    let set = with_settings(alloc, named)?;
    let bounded = with_arg(set, option_arg(alloc, "memory"))?;
    let linked = with_arg(bounded, option_arg(alloc, "transport"))?;
    with_arg(linked, flag_arg(alloc, "report"))
}

fn sim_command<'a>(alloc: Global) -> Result<Command<'a>, AllocError>
    ensures { IfOk result (λ c. app_of c ≡ sim_app) }
{
    let named = with_arg(bare_command(alloc, "sim"), needed_arg(alloc, "job"))?;
    let numbered = with_arg(named, needed_arg(alloc, "number"))?;
    with_settings(alloc, numbered)
}

fn plain_command<'a>(alloc: Global) -> Result<Command<'a>, AllocError>
    ensures { IfOk result (λ c. app_of c ≡ plain_app) }
{
    with_arg(bare_command(alloc, "plain"), needed_arg(alloc, "job"))
}

fn gen_command<'a>(alloc: Global) -> Result<Command<'a>, AllocError>
    ensures { IfOk result (λ c. app_of c ≡ gen_app) }
{
    let numbered = with_arg(bare_command(alloc, "gen"), needed_arg(alloc, "number"))?;
    let manned = with_arg(numbered, option_arg(alloc, "workers"))?;
    with_arg(manned, option_arg(alloc, "threads"))
}

// Whether words were refused, or not read for want of memory.
fn cause(error: &Error) -> WordsFail
    ensures { CameBy result error.now }
{
    match error.kind() {
        ErrorKind::OutOfMemory => WordsFail::OutOfMemory,
        _ => WordsFail::Refused,
    }
}

// Reads the words, of which the first is the command itself.
fn read_words<'a>(command: Command<'a>, words: &'a [String]) -> Result<ArgMatches<'a>, WordsFail>
    requires simple { is_simple_and_free (app_of command) ≡ true }
    ensures read { IfOk result (IsRead (app_of command.entry) (map string_bytes words.entry.now)) }
    ensures unread { IfErr result (IsUnread (app_of command.entry) (map string_bytes words.entry.now)) }
{
    match command.try_get_matches_from(words) {
        Ok(matches) => Ok(matches),
        Err(error) => Err(cause(&error)),
    }
}

/// Reads the words of a run, of which the first is `run`.
pub fn run_matches<'a>(alloc: Global, words: &'a [String]) -> Result<ArgMatches<'a>, WordsFail>
    ensures read { IfOk result (IsRead run_app (map string_bytes words.entry.now)) }
    ensures unread { IfErr result (IsUnread run_app (map string_bytes words.entry.now)) }
{
    read_words(run_command(alloc)?, words)
}

/// Reads the words of a simulation, of which the first is `sim`.
pub fn sim_matches<'a>(alloc: Global, words: &'a [String]) -> Result<ArgMatches<'a>, WordsFail>
    ensures read { IfOk result (IsRead sim_app (map string_bytes words.entry.now)) }
    ensures unread { IfErr result (IsUnread sim_app (map string_bytes words.entry.now)) }
{
    read_words(sim_command(alloc)?, words)
}

/// Reads the words of a plain evaluation, of which the first is `plain`.
pub fn plain_matches<'a>(alloc: Global, words: &'a [String]) -> Result<ArgMatches<'a>, WordsFail>
    ensures read { IfOk result (IsRead plain_app (map string_bytes words.entry.now)) }
    ensures unread { IfErr result (IsUnread plain_app (map string_bytes words.entry.now)) }
{
    read_words(plain_command(alloc)?, words)
}

/// Reads the words of a job that a number makes, of which the first is `gen`.
pub fn gen_matches<'a>(alloc: Global, words: &'a [String]) -> Result<ArgMatches<'a>, WordsFail>
    ensures read { IfOk result (IsRead gen_app (map string_bytes words.entry.now)) }
    ensures unread { IfErr result (IsUnread gen_app (map string_bytes words.entry.now)) }
{
    read_words(gen_command(alloc)?, words)
}
