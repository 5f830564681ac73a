//! What is asked for, and why a text is refused.
ghost use Rattle.std.specs.Prelude.{◌≡◌};
ghost use Rattle.job_script.specs.declared.asked.Fault.TheVariants.{OutOfMemory};

use array_expr::{NodeId, Op};
use std::alloc::{AllocError, AllocFailed};

/// An operation on earlier nodes.
#[derive(Drop)]
pub enum Asked {
    Op(Op),
    /// The axes of a node in reverse order, as many as it has.
    ReverseAxes(NodeId),
}

/// An operation with the byte at which it stands: that of its operator, its call's word, its literal or the word `input`.
#[derive(Drop)]
pub struct Placed {
    pub asked: Asked,
    pub at: usize,
}

/// Why a text is refused.
#[derive(Clone, Copy)]
pub enum Why {
    /// No token begins there.
    Token,
    /// No job goes on so, or ends there.
    Grammar,
    /// The name stands for nothing.
    UnknownName,
    /// The name is defined, or the file is saved, a second time; or a file is both saved and an input.
    Repeated,
    /// More than 1,024 statements.
    Statements,
    /// More than 65,536 nodes.
    Nodes,
    /// More than 127 parentheses, calls and lists are open around a place.
    Depth,
    /// A number above 2^63 - 1; behind a `-`, above 2^63.
    Number,
}

/// A refusal and the byte at which it stands.
#[derive(Clone, Copy)]
pub struct Refusal {
    pub at: usize,
    pub why: Why,
}

/// Why a step is not done.
#[derive(Clone, Copy)]
pub(crate) enum Fault {
    Refused(Refusal),
    OutOfMemory,
}

impl From<AllocError> for Fault {
    ghost from_gives = { λ _ e. e ≡ OutOfMemory };

    fn from(_: AllocError) -> Self {
        Fault::OutOfMemory
    }
}

impl<T: Drop> From<AllocFailed<T>> for Fault {
    ghost from_gives = { λ _ e. e ≡ OutOfMemory };

    fn from(_: AllocFailed<T>) -> Self {
        Fault::OutOfMemory
    }
}
