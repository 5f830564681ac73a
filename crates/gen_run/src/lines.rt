//! The lines that are printed of a job that a number makes.
ghost use Rattle.std.specs.Prelude.{◌≡◌, ◌++◌, IfOk, OnOk, string_bytes};
ghost use Rattle.gen_run.specs.Lines.{digest_line, lines_over};

use nd_shape::Shape;
use run_report::{push_count, push_report};
use sha2::{Digest, Sha256};
use sim_run::Served;
use std::alloc::{AllocError, Global};

// Appends the line of an array with this file.
fn push_digest(
    alloc: Global,
    text: &mut String,
    shape: &Shape,
    file: &[u8],
) -> Result<(), AllocError>
    ensures { OnOk result (string_bytes text.new ≡ string_bytes text.old ++ digest_line shape.now file.now) }
{
    text.push_str("s ")?;
    text.push_str(shape.text(alloc)?.as_str())?;
    text.push_str(" sha256 ")?;
    text.push_str(hex::encode(alloc, Sha256::digest(file).as_slice())?.as_str())?;
    text.push_str("\n")
}

/// The lines of a simulation in which an array of this shape was saved, which has this file.
///
/// # Errors
/// Where no memory is left.
pub fn lines(
    alloc: Global,
    shape: &Shape,
    file: &[u8],
    served: &Served,
) -> Result<String, AllocError>
    ensures { IfOk result (λ t. string_bytes t ≡ lines_over shape.now file.now served.now.report served.now.turns) }
{
    let mut text = String::new(alloc);
    push_digest(alloc, &mut text, shape, file)?;
    push_report(alloc, &mut text, &served.report)?;
    push_count(alloc, &mut text, "turns", served.turns)?;
    Ok(text)
}
