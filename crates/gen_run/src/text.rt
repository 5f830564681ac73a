//! The text of the job that a number makes.
ghost use Rattle.std.specs.Prelude.{◌≡◌, IfOk, string_bytes};
ghost use Rattle.gen_run.specs.Texts.{array_text, gen_text};

use std::alloc::{AllocError, Global};

// The statement of the array.
fn array(
    alloc: Global,
    rows: u64,
    columns: u64,
    first: u64,
    chunk: u64,
) -> Result<String, AllocError>
    ensures { IfOk result (λ t. string_bytes t ≡ array_text rows columns first chunk) }
{
    format!(in alloc; "let a = ramp(({rows}, {columns}), {first}, 3, ({chunk}, {chunk}))\n")
}

/// The text of the job that a number makes: an array of 64 to 127 rows and as many columns, in chunks of 8 to 16, is multiplied
/// with its transposed, and the sums of the product's columns are saved.
///
/// # Errors
/// Where no memory is left.
pub fn gen_job(alloc: Global, number: u64) -> Result<String, AllocError>
    ensures { IfOk result (λ t. string_bytes t ≡ gen_text number) }
{
    let rows = 64 + number % 64;
    let columns = 64 + number / 64 % 64;
    let mut text = array(alloc, rows, columns, number % 1000, 8 + number % 9)?;
    text.push_str("let t = tensordot(a, a.T, (1), (0))\n")?;
    text.push_str("let s = sum(t + 7, axis=(0))\n")?;
    text.push_str("save s \"s.npy\"\n")?;
    Ok(text)
}
