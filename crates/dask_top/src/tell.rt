//! The line on standard error.
ghost use Rattle.std.specs.Prelude.{◌≡◌, ◌<◌, ◌++◌, ◌∷◌, codes, decimal, string_bytes, IfOk, OnOk, Some, Ok};
ghost use Rattle.io_edge.specs.View.{OnlyErr};
ghost use Rattle.job_run.specs.Inputs.{file_error_text};
ghost use Rattle.job_run.specs.Jobs.{plan_of};
ghost use Rattle.job_run.specs.Values.{index_text};
ghost use Rattle.job_text.specs.Texts.{job_error_text, quantity_text};
ghost use Rattle.nd_shape.specs.Shape.{comma_list};
ghost use Rattle.dask_top.specs.Ends.{GetsLine, Notes, graph_text, line_of};
ghost use Rattle.dask_top.specs.Reading.{Reading};
ghost use Rattle.dask_top.specs.Telling.{IsOfText, IsPlaced, IsRefusal, Told, end_of, rest_of, sim_end_of, thread_end_of};

use crate::answer::End;
use array_expr::NodeId;
use io_edge::{Site, note_full};
use job_run::{Ended, FileError, Job};
use job_text::JobError;
use sim_run::SimEnded;
use std::alloc::{AllocError, Global};
use task_graph::Quantity;
use thread_run::ThreadEnded;

// Prints a line to standard error. A failure there changes nothing more.
fn note<S: Site>(site: &mut S, line: &[u8])
    ensures line { GetsLine line.now (S.view site.old) (S.view site.new) }
    ensures only { OnlyErr (S.view site.old) (S.view site.new) }
{
    let _ = note_full(site, line);
}

fn job_line(alloc: Global, error: JobError) -> Result<String, AllocError>
    ensures { IfOk result (λ t. string_bytes t ≡ codes "dask: job " ++ job_error_text error ++ codes "\n") }
{
    format!(in alloc; "dask: job {error}\n")
}

fn limit_line(alloc: Global, quantity: job_text::Quantity) -> Result<String, AllocError>
    ensures { IfOk result (λ t. string_bytes t ≡ codes "dask: limit " ++ quantity_text quantity ++ codes "\n") }
{
    format!(in alloc; "dask: limit {quantity}\n")
}

fn reason(alloc: Global, error: &FileError) -> Result<String, AllocError>
    ensures { IfOk result (λ t. string_bytes t ≡ file_error_text error.now) }
{
    match error {
        FileError::Npy(error) => error.to_string(alloc),
        FileError::Shape { has, declared } => {
            let mut text = String::from_str(alloc, "shape ")?;
            text.push_str(has.text(alloc)?.as_str())?;
            text.push_str(" declared ")?;
            text.push_str(declared.text(alloc)?.as_str())?;
            Ok(text)
        }
    }
}

fn file_line(alloc: Global, name: &str, error: &FileError) -> Result<String, AllocError>
    ensures { IfOk result (λ t. string_bytes t ≡ codes "dask: file " ++ name.now ++ codes ": " ++ file_error_text error.now ++ codes "\n") }
{
    let mut line = String::from_str(alloc, "dask: file ")?;
    line.push_str(name)?;
    line.push_str(": ")?;
    line.push_str(reason(alloc, error)?.as_str())?;
    line.push_str("\n")?;
    Ok(line)
}

// The name of a limit of graphs.
fn graph_name(quantity: Quantity) -> &'static str
    ensures { result.now ≡ graph_text quantity }
{
    match quantity {
        Quantity::Keys => "keys",
        Quantity::Edges => "edges",
        Quantity::BlockBytes => "block bytes",
    }
}

fn graph_line(alloc: Global, quantity: Quantity) -> Result<String, AllocError>
    ensures { IfOk result (λ t. string_bytes t ≡ codes "dask: limit " ++ graph_text quantity ++ codes "\n") }
{
    let mut line = String::from_str(alloc, "dask: limit ")?;
    line.push_str(graph_name(quantity))?;
    line.push_str("\n")?;
    Ok(line)
}

// Appends numbers, each behind a comma.
fn push_rest(alloc: Global, text: &mut String, numbers: &[u64]) -> Result<(), AllocError>
    ensures { OnOk result (string_bytes text.new ≡ string_bytes text.old ++ rest_of numbers.now) }
{
    for number in numbers {
        let part = format!(in alloc; ", {number}")?;
        text.push_str(part.as_str())?;
    }
    Ok(())
}

// Appends a number and others, with commas between them.
fn push_several(
    alloc: Global,
    text: &mut String,
    first: u64,
    rest: &[u64],
) -> Result<(), AllocError>
    ensures { OnOk result (string_bytes text.new ≡ string_bytes text.old ++ comma_list (first ∷ rest.now)) }
{
    let part = format!(in alloc; "{first}")?;
    text.push_str(part.as_str())?;
    push_rest(alloc, text, rest)?;
    Ok(())
}

// Appends numbers, with commas between them.
fn push_list(alloc: Global, text: &mut String, numbers: &[u64]) -> Result<(), AllocError>
    ensures { OnOk result (string_bytes text.new ≡ string_bytes text.old ++ comma_list numbers.now) }
{
    match numbers {
        [] => Ok(()),
        [first, rest @ ..] => push_several(alloc, text, *first, rest),
    }
}

// Appends an index.
fn push_index(alloc: Global, text: &mut String, index: &[u64]) -> Result<(), AllocError>
    ensures { OnOk result (string_bytes text.new ≡ string_bytes text.old ++ index_text index.now) }
{
    text.push_str("(")?;
    push_list(alloc, text, index)?;
    text.push_str(")")
}

fn zero_line(alloc: Global, node: NodeId, block: &[u64]) -> Result<String, AllocError>
    ensures { IfOk result (λ t. string_bytes t ≡ codes "dask: zero division: node " ++ decimal node ++ codes " block " ++ index_text block.now ++ codes "\n") }
{
    let number = node.number();
    let mut line = format!(in alloc; "dask: zero division: node {number} block ")?;
    push_index(alloc, &mut line, block)?;
    line.push_str("\n")?;
    Ok(line)
}

fn killed_line(alloc: Global, key: u32, losses: u32) -> Result<String, AllocError>
    ensures { IfOk result (λ t. string_bytes t ≡ codes "dask: killed worker: key " ++ decimal key ++ codes " losses " ++ decimal losses ++ codes "\n") }
{
    format!(in alloc; "dask: killed worker: key {key} losses {losses}\n")
}

// Prints the line of a refusal, or where memory for it was wanted, the line that says so.
#[tactic(auto, unfolding(crate::specs::Ends::line_of))]
fn tell_refusal<S: Site>(site: &mut S, end: End, line: Result<String, AllocError>) -> End
    requires { IsRefusal end }
    ensures told { Told end result }
    ensures notes { (reading : Reading) → IfOk line (λ t. string_bytes t ≡ line_of reading end) → Notes reading (S.view site.old) (S.view site.new) result }
    ensures only { OnlyErr (S.view site.old) (S.view site.new) }
{
    match line {
        Ok(line) => {
            note(site, line.as_bytes());
            end
        }
        Err(_) => {
            note(site, b"dask: out of memory\n");
            End::OutOfMemory
        }
    }
}

/// Prints the line of an end that names nothing of a job. The end stays, but becomes `OutOfMemory` where memory for its line is
/// wanted.
#[tactic(auto, unfolding(crate::specs::Ends::line_of))]
pub fn tell_text<S: Site>(alloc: Global, site: &mut S, end: End) -> End
    requires { IsOfText end }
    ensures told { Told end result }
    ensures notes { (reading : Reading) → Notes reading (S.view site.old) (S.view site.new) result }
    ensures only { OnlyErr (S.view site.old) (S.view site.new) }
{
    match end {
        End::Words => note(site, b"dask: words\n"),
        End::Job(error) => return tell_refusal(site, end, job_line(alloc, error)),
        End::Limit(quantity) => return tell_refusal(site, end, limit_line(alloc, quantity)),
        End::Graph(quantity) => return tell_refusal(site, end, graph_line(alloc, quantity)),
        End::Events => note(site, b"dask: limit events\n"),
        End::Done => {}
        End::ReadFault => note(site, b"dask: read fault\n"),
        End::WriteFault => note(site, b"dask: write fault\n"),
        End::OutOfMemory => note(site, b"dask: out of memory\n"),
        End::File { .. } => unreachable!(),
        End::Zero { .. } => unreachable!(),
        End::Killed { .. } => unreachable!(),
    }
    end
}

/// Prints the line of the end of a run. The end stays, but a refusal becomes `OutOfMemory` where memory for its line is
/// wanted.
#[tactic(auto, unfolding(crate::specs::Ends::line_of))]
pub fn tell_run<S: Site>(alloc: Global, site: &mut S, job: &Job, end: Ended) -> End
    requires { IsPlaced (Some (Ok (plan_of job.now))) (end_of end) }
    ensures told { Told (end_of end) result }
    ensures notes { Notes (Some (Ok (plan_of job.now))) (S.view site.old) (S.view site.new) result }
    ensures only { OnlyErr (S.view site.old) (S.view site.new) }
{
    match end {
        Ended::Done => End::Done,
        Ended::File { input, error } => {
            let line = file_line(alloc, job.inputs[input].as_str(), &error);
            tell_refusal(site, End::File { input, error }, line)
        }
        Ended::Limit(quantity) => {
            let line = graph_line(alloc, quantity);
            tell_refusal(site, End::Graph(quantity), line)
        }
        Ended::Zero { node, block } => {
            let line = zero_line(alloc, node, block.as_slice());
            tell_refusal(site, End::Zero { node, block }, line)
        }
        Ended::Killed { key, losses } => {
            let line = killed_line(alloc, key, losses);
            tell_refusal(site, End::Killed { key, losses }, line)
        }
        Ended::ReadFault => {
            note(site, b"dask: read fault\n");
            End::ReadFault
        }
        Ended::WriteFault => {
            note(site, b"dask: write fault\n");
            End::WriteFault
        }
        Ended::OutOfMemory => {
            note(site, b"dask: out of memory\n");
            End::OutOfMemory
        }
    }
}

/// Prints the line of the end of a run by threads. The end stays, but a refusal becomes `OutOfMemory` where memory for its line is
/// wanted.
pub fn tell_thread<S: Site>(alloc: Global, site: &mut S, job: &Job, end: ThreadEnded) -> End
    requires { IsPlaced (Some (Ok (plan_of job.now))) (thread_end_of end) }
    ensures told { Told (thread_end_of end) result }
    ensures notes { Notes (Some (Ok (plan_of job.now))) (S.view site.old) (S.view site.new) result }
    ensures only { OnlyErr (S.view site.old) (S.view site.new) }
{
    match end {
        ThreadEnded::Events => tell_text(alloc, site, End::Events),
        ThreadEnded::Ran(end) => tell_run(alloc, site, job, end),
    }
}

/// Prints the line of the end of a simulation. The end stays, but a refusal becomes `OutOfMemory` where memory for its line is
/// wanted.
pub fn tell_sim<S: Site>(alloc: Global, site: &mut S, job: &Job, end: SimEnded) -> End
    requires { IsPlaced (Some (Ok (plan_of job.now))) (sim_end_of end) }
    ensures told { Told (sim_end_of end) result }
    ensures notes { Notes (Some (Ok (plan_of job.now))) (S.view site.old) (S.view site.new) result }
    ensures only { OnlyErr (S.view site.old) (S.view site.new) }
{
    match end {
        SimEnded::Events => tell_text(alloc, site, End::Events),
        SimEnded::Ran(end) => tell_run(alloc, site, job, end),
    }
}
