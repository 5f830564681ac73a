//! What a header says, and why it is refused.
ghost use Rattle.std.specs.Prelude.{◌≡◌};
ghost use Rattle.npy_header.specs.declared.fields.HeaderError.TheVariants.{OutOfMemory};

use std::alloc::{AllocError, AllocFailed};
use std::marker::Model;
use thiserror::Error;

/// Why there are no fields.
#[derive(Clone, Copy, Debug, Error)]
pub enum HeaderError {
    /// The bytes are no header. The byte `at` is the first for which no header of any length begins with the bytes up to and
    /// with it; it is the number of bytes where there is no such byte.
    #[error("malformed header at byte {at}")]
    Refused { at: usize },
    #[error("out of memory")]
    OutOfMemory,
}

impl From<AllocError> for HeaderError {
    ghost from_gives = { λ _ e. e ≡ OutOfMemory };

    fn from(_: AllocError) -> Self {
        HeaderError::OutOfMemory
    }
}

impl<T: Drop> From<AllocFailed<T>> for HeaderError {
    ghost from_gives = { λ _ e. e ≡ OutOfMemory };

    fn from(_: AllocFailed<T>) -> Self {
        HeaderError::OutOfMemory
    }
}

/// What a header says: the string of `descr`, whether the data is in column-major order, and the lengths of the axes.
///
/// A length above 2^64-1 is 2^64-1 here.
#[derive(Drop)]
pub struct HeaderFields {
    descr: Vec<u8>,
    fortran: bool,
    shape: Vec<u64>,
}

impl Model for HeaderFields {
    ghost use Rattle.npy_header.specs.Headers.{Fields};

    ghost Value = { Fields };

    ghost view = { λ h. record { descr = h.descr.items; fortran = h.fortran; shape = h.shape.items } };
}

impl HeaderFields {
    /// Takes no memory.
    pub(crate) fn new(descr: Vec<u8>, fortran: bool, shape: Vec<u64>) -> Self
        ensures { result ≡ record { descr = descr.items; fortran = fortran; shape = shape.items } }
    {
        HeaderFields {
            descr,
            fortran,
            shape,
        }
    }

    /// The string of `descr`, without its quotes. Takes no memory.
    pub fn descr(&self) -> &[u8]
        ensures { result.now ≡ self.now.descr }
    {
        self.descr.as_slice()
    }

    /// Whether the data is in column-major order. Takes no memory.
    pub fn fortran(&self) -> bool
        ensures { result ≡ self.now.fortran }
    {
        self.fortran
    }

    /// The length of each axis. Takes no memory.
    pub fn shape(&self) -> &[u64]
        ensures { result.now ≡ self.now.shape }
    {
        self.shape.as_slice()
    }
}
