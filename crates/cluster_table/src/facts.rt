//! The state of each key, and the answers to what policies ask of a scheduler's facts.
ghost use Rattle.std.specs.Prelude.{◌≡◌, ◌<◌, true};
ghost use Rattle.cluster_rules.specs.Sched.{keys, connected};

use crate::page::Page;
use cluster_msgs::Phase;
use cluster_rules::Facts;
use scheduler_core::Sched;

fn phase_name(phase: Phase) -> &'static str {
    match phase {
        Phase::Erred => " erred",
        Phase::Released => " released",
        Phase::Memory => " memory",
        Phase::Waiting => " waiting",
        Phase::Processing => " processing",
        Phase::NoWorker => " no-worker",
        Phase::Queued => " queued",
        Phase::Forgotten => " forgotten",
    }
}

/// The number of finishes, and each key's state and whom it is blamed on, also of the key behind the last.
pub fn print_phases(page: &mut Page, core: &Sched) {
    page.item("  finishes ", core.finishes());
    page.put(":");
    for key in 0..=core.shape().keys() {
        page.put(phase_name(core.phase(key)));
        if let Some(blame) = core.blame(key) {
            page.item(" by ", blame);
        }
    }
    page.put("\n");
}

/// How often each key lost its worker, also the key behind the last.
pub fn print_losses(page: &mut Page, core: &Sched) {
    page.put("  lost");
    for key in 0..=core.shape().keys() {
        page.item(" ", core.losses(key));
    }
    page.put("\n");
}

/// Which keys are in the cone of a wanted key.
pub fn print_known(page: &mut Page, core: &Sched) {
    page.put("  known");
    for key in 0..core.shape().keys() {
        if core.known(key) {
            page.item(" ", key);
        }
    }
    page.put("\n");
}

// Names with their numbers.
fn print_fields(page: &mut Page, fields: &[(&str, u64)]) {
    page.put(" ");
    for (name, number) in fields {
        page.item(" ", *name);
        page.item(" ", *number);
    }
}

// What is asked about a key: 1 for yes, and 0 where it is on no worker.
fn print_key<F: Facts>(page: &mut Page, facts: &F, key: u32)
    requires { key < keys (F.facts facts.now) }
{
    let fields = [
        ("key", key as u64),
        ("needed", facts.needed(key) as u64),
        ("held", facts.held(key) as u64),
        ("erred", facts.erred(key) as u64),
        ("on", facts.on(key).unwrap_or(0) as u64),
        ("holders", facts.holders(key) as u64),
        ("waiters", facts.waiters(key) as u64),
        ("asked", facts.asked_steal(key) as u64),
    ];
    print_fields(page, &fields);
    page.put("\n");
}

// What is asked about a worker that is connected, and the keys that it holds.
fn print_worker<F: Facts>(page: &mut Page, facts: &F, worker: u32)
    requires { connected (F.facts facts.now) worker ≡ true }
{
    let fields = [
        ("worker", worker as u64),
        ("threads", facts.threads(worker) as u64),
        ("tasks", facts.tasks(worker) as u64),
        ("occupancy", facts.occupancy(worker)),
        ("bytes", facts.bytes_held(worker)),
        ("full", facts.full(worker) as u64),
    ];
    print_fields(page, &fields);
    page.put(" holds");
    for key in 0..facts.keys() {
        if facts.holds(worker, key) {
            page.item(" ", key);
        }
    }
    page.put("\n");
}

fn print_keys<F: Facts>(page: &mut Page, facts: &F) {
    for key in 0..facts.keys() {
        print_key(page, facts, key);
    }
}

/// What is asked about each key and each worker.
pub fn print_facts<F: Facts>(page: &mut Page, facts: &F) {
    facts.sound();
    print_keys(page, facts);
    for before in 0..facts.last_worker() {
        let worker = before + 1;
        if facts.connected(worker) {
            print_worker(page, facts, worker);
        }
    }
}
