//! Stories of a simulation, which are their first lines: how many workers and threads, with the losses that are allowed behind
//! these where they are bounded, the number, the script, the wanted keys, what the feed has and whether it fails, and the graph.
ghost use Rattle.std.specs.Prelude.{◌≡◌, IfOk};
ghost use Rattle.cluster_msgs.specs.Shape.{key_count};
ghost use Rattle.cluster_world.specs.Worlds.{setting};
ghost use Rattle.cluster_sim.specs.Openings.{IsOpening, AreWanted};
ghost use Rattle.cluster_sim.specs.Plans.{plan_of, IsPlan};

pub mod setup;

use crate::page::Page;
use crate::report::print_report;
use crate::words::Words;
use crate::world::quotients::Quotients;
use crate::world::{print_faults, print_key};
use cluster_msgs::JobSpec;
use cluster_sim::{Fault, SimEnd, SimError, simulate};
use cluster_world::World;
use setup::{Setup, read_setup};
use std::alloc::{AllocError, Global};

// A world with one client, in which nothing has happened.
fn opened<J: JobSpec>(
    alloc: Global,
    job: J,
    feed: J::Feed,
    allowed: Option<u32>,
) -> Result<World<J>, AllocError>
    requires { J.feed_fits job feed }
    ensures opening { IfOk result (λ w. IsOpening J.operation w) }
    ensures graph { IfOk result (λ w. (setting w).shape ≡ J.graph job) }
{
    World::new(alloc, job, feed, 1, 11, allowed)
}

fn cause_of(error: SimError) -> &'static str {
    match error {
        SimError::Stuck => "nothing moves",
        SimError::Feed => "the feed failed",
        SimError::Spent => "spent",
        SimError::OutOfMemory => "out of memory",
    }
}

fn print_told(page: &mut Page, end: &SimEnd) {
    page.item("turns ", end.turns);
    match end.fault {
        Some(Fault::Zero { key }) => page.item(" blame ", key),
        Some(Fault::Killed { key, losses }) => page.numbers(
            " killed",
            &[key as u64, losses as u64],
        ),
        None => {}
    }
    page.put("\n");
    print_report(page, &end.report);
}

fn print_end(page: &mut Page, end: &Result<SimEnd, SimError>) {
    match end {
        Ok(end) => print_told(page, end),
        Err(error) => page.line(cause_of(*error)),
    }
}

// What client 1 has of the wanted keys.
fn print_wanted(page: &mut Page, world: &World<Quotients>, wanted: &[u32]) {
    page.put("wanted:");
    for key in wanted {
        print_key(page, world, 1, *key);
    }
    page.put("\n");
}

// Simulates, and gives the feed back.
fn run(page: &mut Page, alloc: Global, setup: Setup)
    requires plan { IsPlan (plan_of setup.plan) }
    requires wanted { AreWanted (key_count setup.job.shape) setup.wanted }
    requires feed { setup.feed.value ≡ setup.job.content }
{
    let Setup {
        plan,
        allowed,
        number,
        wanted,
        job,
        feed,
    } = setup;
    match opened(alloc, job, feed, allowed) {
        Ok(mut world) => {
            print_end(page, &simulate(alloc, &mut world, number, &plan, &wanted));
            print_wanted(page, &world, wanted.as_slice());
            print_faults(page, world);
        }
        Err(_) => page.fail(),
    }
}

/// Plays a story of a simulation.
pub fn play(page: &mut Page, words: &mut Words<'_>) {
    match read_setup(words) {
        Ok(setup) => run(page, words.alloc(), setup),
        Err(fault) => page.fault(fault),
    }
}
