//! The reader of jobs.
ghost use Rattle.std.specs.Prelude.{◌≡◌, IfOk, IfErr};
ghost use Rattle.job_text.specs.Texts.{kind_of_why};
ghost use Rattle.job_text.specs.Jobs.{IsShort, StandsAt, IsJob, FilesFit, IsRefused};
ghost use Rattle.job_text.specs.JobParts.{parts_of};

use crate::builder::{build, span_at};
use crate::error::{JobError, JobKind, Quantity, kind_of_why};
use crate::job::{Parsed, job_of};
use job_script::{Refusal, read_script};
use std::alloc::Global;

/// The most bytes of a text.
pub const JOB_BYTES: usize = 1_048_576;

fn too_long() -> JobError
    ensures { result ≡ record { line = 1; column = 1; kind = JobKind.Limit Quantity.JobBytes } }
{
    JobError {
        line: 1,
        column: 1,
        kind: JobKind::Limit {
            quantity: Quantity::JobBytes,
        },
    }
}

fn refused_at(text: &[u8], refusal: Refusal) -> JobError
    requires { IsShort text.now }
    ensures kind { result.kind ≡ kind_of_why refusal.why }
    ensures place { StandsAt text.now refusal.at result }
{
    let span = span_at(text, refusal.at);
    JobError {
        line: span.line,
        column: span.column,
        kind: kind_of_why(refusal.why),
    }
}

fn parsed(alloc: Global, text: &[u8]) -> Result<Parsed, JobError>
    ensures ok { IfOk result (λ p. IsJob text.now (parts_of p)) }
    ensures err { IfErr result (IsRefused text.now) }
{
    if text.len() > JOB_BYTES {
        return Err(too_long());
    }
    let script = read_script(alloc, text)?;
    let refusal = script.refusal();
    let (asked, inputs, saves) = script.into_parts();
    let built = build(alloc, text, asked)?;
    match refusal {
        None => Ok(job_of(alloc, built, inputs, saves)?),
        Some(refusal) => Err(refused_at(text, refusal)),
    }
}

/// Reads a job's text of any length. A longer text than 1,048,576 bytes is refused before all else, at 1:1; otherwise the first
/// refusal in the order of the text is answered. An operation is refused at its operator, the word of its call, its literal or the
/// word `input`; a name, a file and a number where they stand; where the text ends early, its end. The inputs of a job are its
/// input nodes, in their order. It takes memory for the job and, while it reads, for the steps of the text.
pub fn parse(alloc: Global, text: &[u8]) -> Result<Parsed, JobError>
    ensures ok { IfOk result (λ p. IsJob text.now (parts_of p)) }
    ensures files { IfOk result (λ p. FilesFit (parts_of p)) }
    ensures err { IfErr result (IsRefused text.now) }
{
    parsed(alloc, text)
}
