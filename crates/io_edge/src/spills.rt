//! What a site keeps of the disks for workers' blocks, by worker.
ghost use Rattle.std.specs.Prelude.{◌≡◌, ◌<◌, OnOk};
ghost use Rattle.io_edge.specs.Spills.{book_spills, disks_at, ChangesDisks, KnowsWorker, SameDisks};
ghost use Rattle.io_edge.specs.View.{raised, TakesPuts};

use std::alloc::AllocError;
use std::collections::BTreeMap;

/// What is kept of the disks of a worker.
#[derive(Clone, Copy)]
pub struct Disks {
    /// How often one was asked for.
    pub asked: u64,
    /// How many puts those took that were given back.
    pub puts: u64,
}

pub type SpillBook = BTreeMap<u32, Disks>;

#[tactic(auto, unfolding(crate::specs::View::raised))]
fn raise(count: u64, by: u64) -> u64
    ensures { result ≡ raised count by }
{
    count.saturating_add(by)
}

/// Makes room for a worker that there is none for.
pub fn reserve(book: &mut SpillBook, worker: u32) -> Result<(), AllocError>
    ensures same { SameDisks book.old book.new }
    ensures there { OnOk result (KnowsWorker worker book.new) }
{
    if !book.contains_key(&worker) {
        book.insert(worker, Disks { asked: 0, puts: 0 })?;
    }
    Ok(())
}

/// Counts a call for a disk.
pub fn note_disk(book: &mut SpillBook, worker: u32)
    requires { KnowsWorker worker book.old }
    ensures { ChangesDisks worker (λ d. record d { asked = raised d.asked 1 }) book.old book.new }
{
    if let Some(disks) = book.get_mut(&worker) {
        disks.asked = raise(disks.asked, 1);
    }
}

/// Counts the puts of a disk that was given back, where one was asked for that worker.
pub fn note_puts(book: &mut SpillBook, worker: u32, puts: u64)
    ensures counted { KnowsWorker worker book.old → ChangesDisks worker (λ d. record d { puts = raised d.puts puts }) book.old book.new }
    ensures asked { (book_spills book.new 0).asked ≡ (book_spills book.old 0).asked }
    ensures takes { TakesPuts (book_spills book.old 0).puts (book_spills book.new 0).puts }
{
    if let Some(disks) = book.get_mut(&worker) {
        disks.puts = raise(disks.puts, puts);
    }
}

/// How many puts the disks of a worker took, in all that were given back.
pub fn puts_at(book: &SpillBook, worker: u32) -> u64
    ensures { result ≡ (disks_at book.now worker).puts }
{
    match book.get(&worker) {
        Some(disks) => disks.puts,
        None => 0,
    }
}

/// How often a disk was asked for a worker.
pub fn asked_at(book: &SpillBook, worker: u32) -> u64
    ensures { result ≡ (disks_at book.now worker).asked }
{
    match book.get(&worker) {
        Some(disks) => disks.asked,
        None => 0,
    }
}
