//! Stores whose files are told only where all inputs of a run are.
ghost use Rattle.std.specs.Prelude.{◌≡◌};

use io_edge::{Failed, Store};
use std::marker::{Brand, PhantomData};

/// Whether all inputs of a run are told. It has no bytes and no calls; the call that runs a job picks it, by `Brand`.
pub trait Veil {
    ghost use Rattle.std.specs.Prelude.{Bool};

    ghost told: { Bool };
}

impl Veil for Brand {
    ghost use Rattle.std.specs.Prelude.{false};

    ghost told = { false };
}

/// A store of a run's inputs, which tells lengths alone where not all inputs are told: a site that doesn't hold what a file has may
/// hand out stores that tell different bytes of it, and those of one run have to agree.
#[derive(Drop)]
pub struct Veiled<I, V> {
    store: I,
    of: PhantomData<V>,
}

impl<I, V> Veiled<I, V> {
    /// A store of the run.
    pub fn new(store: I) -> Self
        ensures { result.store ≡ store }
    {
        Veiled {
            store,
            of: PhantomData,
        }
    }

    /// The store itself.
    pub fn into_store(self) -> I
        ensures { result ≡ self.store }
    {
        let Veiled { store, of: _ } = self;
        store
    }
}

impl<I: Store, V: Veil + Drop> Store for Veiled<I, V> {
    ghost use Rattle.thread_run.specs.Feeding.{veiled};

    ghost files = { λ s. veiled V.told (I.files s.store) };

    ghost names = { λ s. I.names s.store };

    ghost gave = { λ s. I.gave s.store };

    ghost count = { λ s. I.count s.store };

    #[tactic(auto, using(crate::proofs::Veiled::count_veiled, crate::proofs::Veiled::size_veiled))]
    fn len(&mut self, file: u32) -> Result<u64, Failed> {
        self.store.len(file)
    }

    #[tactic(auto, using(crate::proofs::Veiled::count_veiled, crate::proofs::Veiled::size_veiled, crate::proofs::Veiled::reads_veiled))]
    fn read_at(&mut self, file: u32, offset: u64, buf: &mut [u8]) -> Result<usize, Failed> {
        self.store.read_at(file, offset, buf)
    }

    fn faults(&self) -> u64 {
        self.store.faults()
    }
}
