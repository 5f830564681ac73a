//! How a run of a job ends.
ghost use Rattle.std.specs.Prelude.{◌≡◌};
ghost use Rattle.job_run.specs.declared.ends.Ended.TheVariants.{OutOfMemory};

use array_expr::NodeId;
use nd_shape::{Dims, Shape};
use npy_codec::NpyError;
use std::alloc::{AllocError, AllocFailed};
use task_graph::Quantity;

/// Why an input file is refused.
#[derive(Drop)]
pub enum FileError {
    /// It isn't a file of an array of signed integers, or its data isn't all there.
    Npy(NpyError),
    /// Its array has another shape than the job declares.
    Shape { has: Shape, declared: Shape },
}

/// How a run of a job ends.
#[derive(Drop)]
pub enum Ended {
    Done,
    /// The job's graph would pass a limit: the first that it would, in the order in which its keys are made.
    Limit(Quantity),
    /// An input file was refused: its place among the job's inputs, and why.
    File { input: usize, error: FileError },
    /// A divisor in this block of this node is zero.
    Zero { node: NodeId, block: Dims },
    /// A key was killed: its worker left so often while the key was assigned to it. Only runs by a cluster end so.
    Killed { key: u32, losses: u32 },
    /// An opening or a read failed, and the site's count of them rose.
    ReadFault,
    /// A creation, a write or a print failed, and the site's count of them rose.
    WriteFault,
    OutOfMemory,
}

impl From<AllocError> for Ended {
    ghost from_gives = { λ _ e. e ≡ OutOfMemory };

    fn from(_: AllocError) -> Self {
        Ended::OutOfMemory
    }
}

impl<T: Drop> From<AllocFailed<T>> for Ended {
    ghost from_gives = { λ _ e. e ≡ OutOfMemory };

    fn from(_: AllocFailed<T>) -> Self {
        Ended::OutOfMemory
    }
}
