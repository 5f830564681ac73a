//! Why bytes are no value, and a value has no bytes.

ghost use Rattle.std.specs.Prelude.{◌≡◌};
ghost use Rattle.msgpack_frames.specs.declared.error.MpError.TheVariants.{OutOfMemory};

use std::alloc::{AllocError, AllocFailed};
use thiserror::Error;

/// Why `decode` or `encode` gives no answer. `at` is the offset of the first byte of the refused form.
#[derive(Clone, Copy, Debug, Error)]
pub enum MpError {
    /// The bytes end before the value does.
    #[error("the bytes end before the value does")]
    Short,
    /// A float.
    #[error("a float at byte {at}")]
    Float { at: usize },
    /// An extension.
    #[error("an extension at byte {at}")]
    Ext { at: usize },
    /// The first byte C1, which MessagePack doesn't use.
    #[error("the reserved byte C1 at byte {at}")]
    Reserved { at: usize },
    /// More than 16 arrays and maps are open at once.
    #[error("more than 16 nested arrays and maps")]
    Depth,
    /// A string that is not UTF-8.
    #[error("a string that is not UTF-8 at byte {at}")]
    NotUtf8 { at: usize },
    /// A length above 2^27: of bytes, of elements or of pairs.
    #[error("a length above 2^27")]
    Limit,
    #[error("out of memory")]
    OutOfMemory,
}

/// Why a stream of frame groups is refused.
#[derive(Clone, Copy, Debug, Error)]
pub enum FrameError {
    /// A group of no frames, or of more than 17.
    #[error("a group of {count} frames")]
    TooMany { count: u64 },
    /// A first frame longer than 2^24 bytes, or another longer than 2^27.
    #[error("a frame of {len} bytes")]
    TooLong { len: u64 },
    #[error("out of memory")]
    OutOfMemory,
}

impl From<AllocError> for MpError {
    ghost from_gives = { λ _ e. e ≡ OutOfMemory };

    fn from(_e: AllocError) -> MpError {
        MpError::OutOfMemory
    }
}

impl<T: Drop> From<AllocFailed<T>> for MpError {
    ghost from_gives = { λ _ e. e ≡ OutOfMemory };

    fn from(_e: AllocFailed<T>) -> MpError {
        MpError::OutOfMemory
    }
}
