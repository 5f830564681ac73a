//! The feeds of a run's workers: its inputs, opened once for each thread of each worker number.
ghost use Rattle.std.specs.Prelude.{◌≡◌, ◌≤◌, ◌<◌, ◌*◌, ℕ, [], map, string_bytes, vec_len, Contains, IfOk, IfSome, OnOk};
ghost use Rattle.std.specs.Vec.{vec_capacity};
ghost use Rattle.io_edge.specs.Cause.{Rose};
ghost use Rattle.thread_run.specs.Feeding.{IsFixed, OpensOften, TakesBack};

use crate::name::{Named, Picks};
use crate::veil::{Veil, Veiled};
use block_lowering::{Elements, JobGraph};
use io_edge::{OpenFault, Site};
use node_runner::Fed;
use std::alloc::{AllocError, Global};

/// The graph of a run over stores of this kind, and a feed of it.
pub type Graphed<I, E, V> = JobGraph<Veiled<I, V>, E>;

pub type Feed<I, E, V, P> = Fed<Graphed<I, E, V>, Named<V, P>>;

// Opens the feeds of one worker, or fewer where an opening fails.
fn open_own<S, E, V, P>(
    alloc: Global,
    site: &mut S,
    names: &[String],
    threads: u32,
    own: &mut Vec<Feed<S::In, E, V, P>>,
) -> Result<(), AllocError>
where
    S: Site,
    E: Elements + Send + Sync + Drop,
    V: Veil + Send + Sync + Drop,
    P: Picks<Graphed<S::In, E, V>> + Send + Sync + Drop,
    requires empty { own.old.items ≡ [] }
    requires room { threads ≤ vec_capacity own.old }
    requires fixed { IfSome P.picked (λ g. IsFixed E.named V.told (map string_bytes names.now) g.job.heads (S.view site.old).files) }
    ensures opens { OpensOften (map string_bytes names.now) threads (S.view site.old) (S.view site.new) }
    ensures short { OnOk result (vec_len own.new < threads → Rose (S.view site.old).read_faults (S.view site.new).read_faults) }
{
    for _thread in 0..threads {
        match site.store(alloc, names) {
            Ok(store) => own.push_reserved(Fed::new(Veiled::new(store))),
            Err(OpenFault::Failed) => return Ok(()),
            Err(OpenFault::OutOfMemory) => return Err(AllocError),
        }
    }
    Ok(())
}

// Opens the feeds of each worker number.
fn open_each<S, E, V, P>(
    alloc: Global,
    site: &mut S,
    names: &[String],
    numbers: u32,
    threads: u32,
    all: &mut Vec<Vec<Feed<S::In, E, V, P>>>,
) -> Result<(), AllocError>
where
    S: Site,
    E: Elements + Send + Sync + Drop,
    V: Veil + Send + Sync + Drop,
    P: Picks<Graphed<S::In, E, V>> + Send + Sync + Drop,
    requires empty { all.old.items ≡ [] }
    requires room { numbers ≤ vec_capacity all.old }
    requires fixed { IfSome P.picked (λ g. IsFixed E.named V.told (map string_bytes names.now) g.job.heads (S.view site.old).files) }
    ensures opens { OpensOften (map string_bytes names.now) (numbers * threads) (S.view site.old) (S.view site.new) }
    ensures short { OnOk result ((n : ℕ) → Contains (map (λ v. vec_len v) all.new.items) n → n < threads
        → Rose (S.view site.old).read_faults (S.view site.new).read_faults) }
{
    for _number in 0..numbers {
        let mut own = Vec::with_capacity(alloc, threads as usize)?;
        let opened = open_own::<S, E, V, P>(alloc, site, names, threads, &mut own);
        all.push_reserved(own);
        opened?;
    }
    Ok(())
}

/// Opens the feeds of each worker number. Where no memory is left all of them go back.
///
/// # Errors
/// Where no memory is left.
pub fn open_feeds<S, E, V, P>(
    alloc: Global,
    site: &mut S,
    names: &[String],
    numbers: u32,
    threads: u32,
) -> Result<Vec<Vec<Feed<S::In, E, V, P>>>, AllocError>
where
    S: Site,
    E: Elements + Send + Sync + Drop,
    V: Veil + Send + Sync + Drop,
    P: Picks<Graphed<S::In, E, V>> + Send + Sync + Drop,
    requires fixed { IfSome P.picked (λ g. IsFixed E.named V.told (map string_bytes names.now) g.job.heads (S.view site.old).files) }
    ensures opens { OpensOften (map string_bytes names.now) (numbers * threads) (S.view site.old) (S.view site.new) }
    ensures short { IfOk result (λ all. (n : ℕ) → Contains (map (λ v. vec_len v) all.items) n → n < threads
        → Rose (S.view site.old).read_faults (S.view site.new).read_faults) }
{
    let mut all = Vec::with_capacity(alloc, numbers as usize)?;
    match open_each::<S, E, V, P>(alloc, site, names, numbers, threads, &mut all) {
        Ok(()) => Ok(all),
        Err(error) => {
            give_all::<S, E, V, P>(site, all);
            Err(error)
        }
    }
}

/// Gives feeds back.
pub fn give_feeds<S, E, V, P>(site: &mut S, feeds: Vec<Feed<S::In, E, V, P>>)
where
    S: Site,
    E: Elements + Send + Sync + Drop,
    V: Veil + Send + Sync + Drop,
    P: Picks<Graphed<S::In, E, V>> + Send + Sync + Drop,
    ensures { TakesBack ((f : _) × Contains feeds.items f × (0 < S.In.count f.store)) (S.view site.old) (S.view site.new) }
{
    for fed in feeds {
        site.give_store(fed.into_feed().into_store());
    }
}

/// Gives the feeds of all workers back.
pub fn give_all<S, E, V, P>(site: &mut S, all: Vec<Vec<Feed<S::In, E, V, P>>>)
where
    S: Site,
    E: Elements + Send + Sync + Drop,
    V: Veil + Send + Sync + Drop,
    P: Picks<Graphed<S::In, E, V>> + Send + Sync + Drop,
    ensures { TakesBack ⊥ (S.view site.old) (S.view site.new) }
{
    for own in all {
        give_feeds::<S, E, V, P>(site, own);
    }
}
