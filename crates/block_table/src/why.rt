//! Why a line has another answer than a value.
use nd_shape::{ChunkError, ShapeError, ShapeLimit};
use std::alloc::{AllocError, AllocFailed};
use std::fmt;

/// Why a line has no value: it is ill, memory is wanting, or what it asks for is refused.
#[derive(Clone, Copy)]
pub enum Why {
    /// Its words ask for nothing, or for what its own text excludes.
    Ill,
    OutOfMemory,
    Limit(ShapeLimit),
    Shape(ShapeError),
    Chunks(ChunkError),
}

impl fmt::Display for Why {
    fn fmt<W: fmt::Write>(&self, f: &mut fmt::Formatter<W>) -> fmt::Result {
        match self {
            Why::Ill => f.write_str("ill row"),
            Why::OutOfMemory => f.write_str("out of memory"),
            Why::Limit(e) => write!(f, "refused, {e}"),
            Why::Shape(e) => write!(f, "refused, {e}"),
            Why::Chunks(e) => write!(f, "refused, {e}"),
        }
    }
}

impl From<AllocError> for Why {
    fn from(_: AllocError) -> Self {
        Why::OutOfMemory
    }
}

impl<T: Drop> From<AllocFailed<T>> for Why {
    fn from(_: AllocFailed<T>) -> Self {
        Why::OutOfMemory
    }
}

impl From<ShapeLimit> for Why {
    fn from(e: ShapeLimit) -> Self {
        Why::Limit(e)
    }
}

impl From<ShapeError> for Why {
    fn from(e: ShapeError) -> Self {
        Why::Shape(e)
    }
}

impl From<ChunkError> for Why {
    fn from(e: ChunkError) -> Self {
        Why::Chunks(e)
    }
}
