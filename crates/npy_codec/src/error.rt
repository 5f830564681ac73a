//! Why a file isn't read.
ghost use Rattle.std.specs.Prelude.{◌≡◌, Some};
ghost use Rattle.npy_codec.specs.Files.{error_text};
ghost use Rattle.npy_codec.specs.declared.error.NpyError.TheVariants.{ReadFault, OutOfMemory};

use io_edge::Failed;
use std::alloc::{AllocError, AllocFailed};
use std::fmt;
use thiserror::Error;

/// Why a file's head, or a region of its array, isn't given. Offsets and counts are in bytes.
#[derive(Clone, Copy, Debug, Error)]
pub enum NpyError {
    /// The file doesn't begin with the magic: it differs or ends at this offset.
    NotNpy { at: u64 },
    /// The version is none of 1.0, 2.0 and 3.0.
    Version { major: u8, minor: u8 },
    /// The header has more than 1,048,576 bytes.
    HeaderLimit { len: u64 },
    /// The file ends within its fixed bytes, its header or its data; each is counted by itself.
    Truncated { has: u64, needs: u64 },
    /// The header is none, from this offset in the file on.
    HeaderText { at: u64 },
    /// The elements are of none of the seven types.
    Descr,
    /// The shape has more than 8 axes, or a length or the number of elements is above 2^31.
    ShapeLimit,
    /// A read failed, and the store's count of faults rose.
    ReadFault,
    OutOfMemory,
}

impl fmt::Display for NpyError {
    ghost output = { λ e. Some (error_text e) };

    fn fmt<W: fmt::Write>(&self, f: &mut fmt::Formatter<W>) -> fmt::Result {
        match self {
            NpyError::NotNpy { at } => write!(f, "not npy at {at}"),
            NpyError::Version { major, minor } => write!(f, "version {major}.{minor}"),
            NpyError::HeaderLimit { len } => write!(f, "header limit {len}"),
            NpyError::Truncated { has, needs } => write!(f, "truncated: has {has}, needs {needs}"),
            NpyError::HeaderText { at } => write!(f, "header at {at}"),
            NpyError::Descr => f.write_str("descr"),
            NpyError::ShapeLimit => f.write_str("shape limit"),
            NpyError::ReadFault => f.write_str("read fault"),
            NpyError::OutOfMemory => f.write_str("out of memory"),
        }
    }
}

impl From<AllocError> for NpyError {
    ghost from_gives = { λ _ e. e ≡ OutOfMemory };

    fn from(_: AllocError) -> Self {
        NpyError::OutOfMemory
    }
}

impl<T: Drop> From<AllocFailed<T>> for NpyError {
    ghost from_gives = { λ _ e. e ≡ OutOfMemory };

    fn from(_: AllocFailed<T>) -> Self {
        NpyError::OutOfMemory
    }
}

impl From<Failed> for NpyError {
    ghost from_gives = { λ _ e. e ≡ ReadFault };

    fn from(_: Failed) -> Self {
        NpyError::ReadFault
    }
}
