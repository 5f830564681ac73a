//! Why shapes, parts of slices and chunks are refused.
ghost use Rattle.std.specs.Prelude.{◌≡◌};

use std::alloc::{AllocError, AllocFailed};
use std::error::Error;
use std::fmt;

/// Why shapes, axes, indexes or splits don't fit an operation. Axes are counted from 0.
#[derive(Clone, Copy, Debug)]
pub enum ShapeError {
    /// Two lengths don't agree, on an axis of the result.
    Misfit { axis: u64, left: u64, right: u64 },
    /// An axis isn't there, is repeated, or a list of axes has the wrong number.
    BadAxis { axis: u64 },
    /// An index outside its axis.
    BadIndex { index: i64, len: u64 },
    /// A range with the step 0.
    ZeroStep,
    /// A least or greatest element of none.
    EmptyReduce { axis: u64 },
    /// A slice with more parts than there are axes.
    TooManyParts { parts: u64, axes: u64 },
    /// Groups of fewer than two.
    BadSplit { split: u64 },
    /// A broadcast shape of more than 2^31 elements.
    Elements,
    OutOfMemory,
}

impl fmt::Display for ShapeError {
    ghost use Rattle.std.specs.Prelude.{Some};
    ghost use Rattle.nd_shape.specs.Texts.{shape_error_text};

    ghost output = { λ e. Some (shape_error_text e) };

    fn fmt<W: fmt::Write>(&self, f: &mut fmt::Formatter<W>) -> fmt::Result {
        match self {
            ShapeError::Misfit { axis, left, right } => write!(
                f,
                "shape: axis {axis}: {left} and {right}"
            ),
            ShapeError::BadAxis { axis } => write!(f, "shape: bad axis {axis}"),
            ShapeError::BadIndex { index, len } => write!(
                f,
                "shape: index {index} of length {len}"
            ),
            ShapeError::ZeroStep => write!(f, "shape: step 0"),
            ShapeError::EmptyReduce { axis } => write!(f, "shape: empty axis {axis}"),
            ShapeError::TooManyParts { parts, axes } => write!(
                f,
                "shape: {parts} parts for {axes} axes"
            ),
            ShapeError::BadSplit { split } => write!(f, "shape: split_every {split}"),
            ShapeError::Elements => write!(f, "limit elements"),
            ShapeError::OutOfMemory => write!(f, "out of memory"),
        }
    }
}

impl Error for ShapeError {}

impl From<AllocError> for ShapeError {
    ghost use Rattle.std.specs.Prelude.{◌≡◌};
    ghost use Rattle.nd_shape.specs.declared.error.ShapeError.TheVariants.{OutOfMemory};

    ghost from_gives = { λ _ e. e ≡ OutOfMemory };

    fn from(_: AllocError) -> Self {
        ShapeError::OutOfMemory
    }
}

impl<T: Drop> From<AllocFailed<T>> for ShapeError {
    ghost use Rattle.std.specs.Prelude.{◌≡◌};
    ghost use Rattle.nd_shape.specs.declared.error.ShapeError.TheVariants.{OutOfMemory};

    ghost from_gives = { λ _ e. e ≡ OutOfMemory };

    fn from(_: AllocFailed<T>) -> Self {
        ShapeError::OutOfMemory
    }
}

/// Why a way to cut an array into chunks is refused. Axes are counted from 0.
#[derive(Clone, Copy, Debug)]
pub enum ChunkError {
    /// Chunks for another number of axes.
    AxisCount { given: u64, axes: u64 },
    /// The sizes along an axis don't make up its length.
    SumDiffers { axis: u32, sum: u128, len: u64 },
    /// A chunk of 0.
    ZeroChunk { axis: u32 },
    OutOfMemory,
}

impl fmt::Display for ChunkError {
    ghost use Rattle.std.specs.Prelude.{Some};
    ghost use Rattle.nd_shape.specs.Texts.{chunk_error_text};

    ghost output = { λ e. Some (chunk_error_text e) };

    fn fmt<W: fmt::Write>(&self, f: &mut fmt::Formatter<W>) -> fmt::Result {
        match self {
            ChunkError::AxisCount { given, axes } => write!(
                f,
                "chunks: {given} given for {axes} axes"
            ),
            ChunkError::SumDiffers { axis, sum, len } => write!(
                f,
                "chunks: axis {axis}: sum {sum}, length {len}"
            ),
            ChunkError::ZeroChunk { axis } => write!(f, "chunks: axis {axis}: zero chunk"),
            ChunkError::OutOfMemory => write!(f, "out of memory"),
        }
    }
}

impl Error for ChunkError {}

impl From<AllocError> for ChunkError {
    ghost use Rattle.std.specs.Prelude.{◌≡◌};
    ghost use Rattle.nd_shape.specs.declared.error.ChunkError.TheVariants.{OutOfMemory};

    ghost from_gives = { λ _ e. e ≡ OutOfMemory };

    fn from(_: AllocError) -> Self {
        ChunkError::OutOfMemory
    }
}

impl<T: Drop> From<AllocFailed<T>> for ChunkError {
    ghost use Rattle.std.specs.Prelude.{◌≡◌};
    ghost use Rattle.nd_shape.specs.declared.error.ChunkError.TheVariants.{OutOfMemory};

    ghost from_gives = { λ _ e. e ≡ OutOfMemory };

    fn from(_: AllocFailed<T>) -> Self {
        ChunkError::OutOfMemory
    }
}
