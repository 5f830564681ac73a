//! Jobs with their places in a text.
ghost use Rattle.std.specs.Prelude.{◌≡◌, All, map, IfOk, string_bytes};
ghost use Rattle.job_text.specs.Jobs.{FilesFit};
ghost use Rattle.job_text.specs.Names.{IsFileName};
ghost use Rattle.job_text.specs.JobParts.{parts_of, save_called};

use crate::builder::Built;
use array_expr::Spans;
use job_plan::{Job, Save};
use job_script::Named;
use std::alloc::{AllocError, Global};

/// What a text asks for: a job, and the place of each of its nodes in the text, which is that of its operator, the word of its
/// call, its literal or the word `input`. The files of inputs and of saves are in the order of their statements.
#[derive(Drop)]
pub struct Parsed {
    pub job: Job,
    pub spans: Spans,
}

// The name of a file, which is of printed ASCII characters.
fn name_of(named: Named) -> String
    requires { IsFileName named.name }
    ensures { string_bytes result ≡ named.name }
{
    match String::from_utf8(named.into_name()) {
        Ok(name) => name,
        Err(_) => unreachable!(),
    }
}

// The names of files.
fn names_of(alloc: Global, list: Vec<Named>) -> Result<Vec<String>, AllocError>
    requires { All (λ n. IsFileName n.name) list.items }
    ensures { IfOk result (λ v. map string_bytes v.items ≡ map (λ n. n.name) list.items) }
{
    let mut names = Vec::with_capacity(alloc, list.len())?;
    for named in list {
        names.push(name_of(named))?;
    }
    Ok(names)
}

fn save_of(named: Named) -> Save
    requires { IsFileName named.name }
    ensures { save_called result ≡ named }
{
    Save {
        node: named.node(),
        file: name_of(named),
    }
}

// Nodes with their files.
fn saves_of(alloc: Global, list: Vec<Named>) -> Result<Vec<Save>, AllocError>
    requires { All (λ n. IsFileName n.name) list.items }
    ensures { IfOk result (λ v. map save_called v.items ≡ list.items) }
{
    let mut saves = Vec::with_capacity(alloc, list.len())?;
    for named in list {
        saves.push(save_of(named))?;
    }
    Ok(saves)
}

// The job of a text that is read to its end. The names of its files are those that were read, and are not copied.
pub(crate) fn job_of(
    alloc: Global,
    built: Built,
    inputs: Vec<Named>,
    saves: Vec<Named>,
) -> Result<Parsed, AllocError>
    requires { FilesFit (record { nodes = built.expr; inputs = inputs.items; saves = saves.items; spans = built.spans }) }
    ensures { IfOk result (λ p. parts_of p ≡ record { nodes = built.expr; inputs = inputs.items; saves = saves.items; spans = built.spans }) }
{
    let inputs = names_of(alloc, inputs)?;
    let saves = saves_of(alloc, saves)?;
    Ok(Parsed {
        job: Job {
            expr: built.expr,
            inputs,
            saves,
        },
        spans: built.spans,
    })
}
