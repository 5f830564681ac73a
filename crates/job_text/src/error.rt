//! Why a text is no job.
ghost use Rattle.std.specs.Prelude.{◌≡◌};
ghost use Rattle.job_text.specs.Texts.{kind_of_why, kind_of_node, limit_of};

use array_expr::NodeError;
use job_script::Why;
use nd_shape::{ChunkError, ShapeError};
use std::alloc::{AllocError, AllocFailed};
use std::error::Error;
use std::fmt;

/// What is limited in a job.
#[derive(Clone, Copy, Debug)]
pub enum Quantity {
    /// At most 1,048,576 bytes of a text.
    JobBytes,
    /// At most 1,024 statements.
    Statements,
    /// At most 65,536 nodes.
    Nodes,
    /// At most 127 parentheses, calls and lists around a place.
    Depth,
    /// At most 8 axes of an array.
    Axes,
    /// At most 2^31 elements of an array, and of each of its lengths.
    Elements,
    /// Numbers of at most 2^63 - 1, and 2^63 behind a `-`.
    Number,
}

impl fmt::Display for Quantity {
    ghost use Rattle.std.specs.Prelude.{Some};
    ghost use Rattle.job_text.specs.Texts.{quantity_text};

    ghost output = { λ quantity. Some (quantity_text quantity) };

    fn fmt<W: fmt::Write>(&self, f: &mut fmt::Formatter<W>) -> fmt::Result {
        match self {
            Quantity::JobBytes => write!(f, "job bytes"),
            Quantity::Statements => write!(f, "statements"),
            Quantity::Nodes => write!(f, "nodes"),
            Quantity::Depth => write!(f, "depth"),
            Quantity::Axes => write!(f, "axes"),
            Quantity::Elements => write!(f, "elements"),
            Quantity::Number => write!(f, "number"),
        }
    }
}

/// Why a text is refused.
#[derive(Clone, Copy, Debug)]
pub enum JobKind {
    /// No token begins there.
    Token,
    /// No job goes on so, or ends there.
    Grammar,
    /// The name stands for nothing.
    UnknownName,
    /// The name is defined, or the file is saved, a second time; or a file is both saved and an input.
    Repeated,
    /// The operands of an operation don't fit.
    Shape(ShapeError),
    /// An array can't be cut into these chunks.
    Chunks(ChunkError),
    /// The text, or an array, would be too large.
    Limit { quantity: Quantity },
    OutOfMemory,
}

impl fmt::Display for JobKind {
    ghost use Rattle.std.specs.Prelude.{Some};
    ghost use Rattle.job_text.specs.Texts.{kind_text};

    ghost output = { λ kind. Some (kind_text kind) };

    fn fmt<W: fmt::Write>(&self, f: &mut fmt::Formatter<W>) -> fmt::Result {
        match self {
            JobKind::Token => write!(f, "token"),
            JobKind::Grammar => write!(f, "grammar"),
            JobKind::UnknownName => write!(f, "unknown name"),
            JobKind::Repeated => write!(f, "repeated name"),
            JobKind::Shape(e) => write!(f, "{e}"),
            JobKind::Chunks(e) => write!(f, "{e}"),
            JobKind::Limit { quantity } => write!(f, "limit {quantity}"),
            JobKind::OutOfMemory => write!(f, "out of memory"),
        }
    }
}

/// A refusal of a text, with its line and column, from 1 in bytes. Want of memory stands at 1:1.
#[derive(Clone, Copy, Debug)]
pub struct JobError {
    pub line: u32,
    pub column: u32,
    pub kind: JobKind,
}

impl fmt::Display for JobError {
    ghost use Rattle.std.specs.Prelude.{Some};
    ghost use Rattle.job_text.specs.Texts.{job_error_text};

    ghost output = { λ e. Some (job_error_text e) };

    fn fmt<W: fmt::Write>(&self, f: &mut fmt::Formatter<W>) -> fmt::Result {
        let line = self.line;
        let column = self.column;
        let kind = self.kind;
        write!(f, "{line}:{column}: {kind}")
    }
}

impl Error for JobError {}

impl From<AllocError> for JobKind {
    ghost use Rattle.std.specs.Prelude.{◌≡◌};
    ghost use Rattle.job_text.specs.declared.error.JobKind.TheVariants.{OutOfMemory};

    ghost from_gives = { λ _ e. e ≡ OutOfMemory };

    fn from(_: AllocError) -> Self {
        JobKind::OutOfMemory
    }
}

impl<T: Drop> From<AllocFailed<T>> for JobKind {
    ghost use Rattle.std.specs.Prelude.{◌≡◌};
    ghost use Rattle.job_text.specs.declared.error.JobKind.TheVariants.{OutOfMemory};

    ghost from_gives = { λ _ e. e ≡ OutOfMemory };

    fn from(_: AllocFailed<T>) -> Self {
        JobKind::OutOfMemory
    }
}

fn no_memory() -> JobError
    ensures { result ≡ record { line = 1; column = 1; kind = JobKind.OutOfMemory } }
{
    JobError {
        line: 1,
        column: 1,
        kind: JobKind::OutOfMemory,
    }
}

impl From<AllocError> for JobError {
    ghost use Rattle.std.specs.Prelude.{◌≡◌};
    ghost use Rattle.job_text.specs.declared.error.JobKind.TheVariants.{OutOfMemory};

    ghost from_gives = { λ _ e. e.kind ≡ OutOfMemory };

    fn from(_: AllocError) -> Self {
        no_memory()
    }
}

impl<T: Drop> From<AllocFailed<T>> for JobError {
    ghost use Rattle.std.specs.Prelude.{◌≡◌};
    ghost use Rattle.job_text.specs.declared.error.JobKind.TheVariants.{OutOfMemory};

    ghost from_gives = { λ _ e. e.kind ≡ OutOfMemory };

    fn from(_: AllocFailed<T>) -> Self {
        no_memory()
    }
}

fn limit_of(quantity: array_expr::Quantity) -> Quantity
    ensures { result ≡ limit_of quantity }
{
    match quantity {
        array_expr::Quantity::Nodes => Quantity::Nodes,
        array_expr::Quantity::Axes => Quantity::Axes,
        array_expr::Quantity::Elements => Quantity::Elements,
    }
}

// The refusal of a job that the refusal of a node is.
pub(crate) fn kind_of_node(error: NodeError) -> JobKind
    ensures { result ≡ kind_of_node error }
{
    match error {
        NodeError::Shape(e) => JobKind::Shape(e),
        NodeError::Chunks(e) => JobKind::Chunks(e),
        NodeError::Limit { quantity } => JobKind::Limit {
            quantity: limit_of(quantity),
        },
        NodeError::OutOfMemory => JobKind::OutOfMemory,
    }
}

fn limit(quantity: Quantity) -> JobKind
    ensures { result ≡ JobKind.Limit quantity }
{
    JobKind::Limit { quantity }
}

// The refusal of a job that a refusal of its script is.
pub(crate) fn kind_of_why(why: Why) -> JobKind
    ensures { result ≡ kind_of_why why }
{
    match why {
        Why::Token => JobKind::Token,
        Why::Grammar => JobKind::Grammar,
        Why::UnknownName => JobKind::UnknownName,
        Why::Repeated => JobKind::Repeated,
        Why::Statements => limit(Quantity::Statements),
        Why::Nodes => limit(Quantity::Nodes),
        Why::Depth => limit(Quantity::Depth),
        Why::Number => limit(Quantity::Number),
    }
}
