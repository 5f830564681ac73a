//! The program `futures_table`: runs futures over keys whose ends lines tell round by round, and prints how they end.
//!
//! It stands on `client_futures`, and nothing stands above it. It carries no promise of its own. A line is `gather` or `key`, the keys with commas
//! between them, and a word for each round: what the driver sees then, `KEY` where a key is got, `KEY!BLAME` where it failed, `over`, or `-`.
#![tactic(auto)]

mod scripted;

use client_futures::{GatherEnd, KeyFuture, PollEnd, gather};
use cluster_msgs::KeyList;
use futures::Future;
use futures::executor::block_on;
use futures::task::{Context, Poll};
use scripted::Scripted;
use std::alloc::{AllocError, AllocGlobal, Global};
use std::io;
use std::random::RandomSource;
use std::sync::{Arc, Wait};

/// One key's future with its driver, so that it can be run.
#[derive(Drop)]
struct Alone<'a, 'b> {
    key: KeyFuture,
    rounds: &'a mut Scripted<'b>,
}

impl Future for Alone<'_, '_> {
    type Output = Result<Arc<u32>, PollEnd>;

    fn poll(&mut self, cx: &mut Context<'_>) -> Poll<Self::Output> {
        self.key.poll(&mut *self.rounds, cx)
    }
}

// The keys that a word tells.
fn keys_of(alloc: Global, word: &str) -> Result<KeyList, AllocError> {
    let mut keys = KeyList::new(alloc);
    for part in word.split(',') {
        keys.push(part.parse::<u32>().unwrap_or(0))?;
    }
    Ok(keys)
}

fn print_end<R: Print>(rt: &R, end: PollEnd) -> io::Result<()> {
    match end {
        PollEnd::TaskErred { key, blame } => println!(rt; "  {key} failed, {blame} is to blame"),
        PollEnd::Over => println!(rt; "  over"),
    }
}

fn play_gather<R>(rt: &R, rounds: &mut Scripted<'_>, keys: &KeyList) -> io::Result<()>
where
    R: Print + Wait + RandomSource + AllocGlobal,
{
    match gather(rt, rounds, keys) {
        Ok(blocks) => {
            for block in &blocks {
                println!(rt; "  block {}", **block)?;
            }
            Ok(())
        }
        Err(GatherEnd::Ended(end)) => print_end(rt, end),
        Err(GatherEnd::Memory) => println!(rt; "  no memory"),
        Err(GatherEnd::Unrun) => println!(rt; "  not run"),
    }
}

fn play_key<R>(rt: &R, rounds: &mut Scripted<'_>, key: u32) -> io::Result<()>
where
    R: Print + Wait + RandomSource + AllocGlobal,
{
    let alone = Alone {
        key: KeyFuture::new(key),
        rounds,
    };
    match block_on(rt, alone)? {
        Ok(block) => println!(rt; "  block {}", *block),
        Err(end) => print_end(rt, end),
    }
}

fn play<R>(rt: &R, line: &str) -> io::Result<()>
where
    R: Print + Wait + RandomSource + AllocGlobal,
{
    println!(rt; "{line}")?;
    let mut words = line.split_whitespace();
    let word = words.next().unwrap_or("");
    let keys = keys_of(rt.alloc(), words.next().unwrap_or(""))?;
    let mut rounds = Scripted::new(rt.alloc(), words)?;
    match word {
        "gather" => play_gather(rt, &mut rounds, &keys)?,
        "key" => play_key(
            rt,
            &mut rounds,
            keys.as_slice().first().copied().unwrap_or(0),
        )?,
        _ => println!(rt; "  no such line")?,
    }
    println!(rt; "  rounds {}", rounds.driven())
}

fn main(rt: HostRuntime) -> io::Result<()> {
    let text = io::read_to_string(rt.alloc(), rt.reader())?;
    for line in text.as_str().lines() {
        play(&rt, line)?;
    }
    Ok(())
}
