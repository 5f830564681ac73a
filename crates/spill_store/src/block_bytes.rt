//! Elements as bytes and bytes as elements.
ghost use Rattle.std.specs.Prelude.{◌≡◌, ◌%◌, All, FitsSigned, length, map, IfOk, OnOk};
ghost use Rattle.std.specs.Int.{w64};
ghost use Rattle.std.specs.List.{flat_map};
ghost use Rattle.sha2.specs.Sha512.{sha512_256};
ghost use Rattle.spill_store.specs.Blocks.{cell_bytes};

use sha2::{Digest, Sha512_256};
use std::alloc::{AllocError, Global};

/// The bytes of so many elements, 4 KiB, are in the processor's cache when they are digested.
const PIECE: usize = 512;

fn bytes_of(cell: i64) -> [u8; 8]
    ensures bytes { result ≡ cell_bytes cell }
    ensures fits { FitsSigned w64 cell }
{
    cell.cast_unsigned().to_le_bytes()
}

fn cell_of(bytes: [u8; 8]) -> i64
    ensures bytes { cell_bytes result ≡ bytes }
    ensures fits { FitsSigned w64 result }
{
    u64::from_le_bytes(bytes).cast_signed()
}

/// The bytes of each element.
pub(crate) fn words_of(alloc: Global, cells: &[i64]) -> Result<Vec<[u8; 8]>, AllocError>
    ensures words { IfOk result (λ v. v.items ≡ map cell_bytes cells.now) }
    ensures fits { OnOk result (All (FitsSigned w64) cells.now) }
{
    let mut words = Vec::with_capacity(alloc, cells.len())?;
    for cell in cells {
        words.push(bytes_of(*cell))?;
    }
    Ok(words)
}

/// The digest of the bytes of these elements, of which so many at a time are made.
///
/// # Errors
/// Where memory is wanting.
pub(crate) fn digest_of(alloc: Global, cells: &[i64]) -> Result<[u8; 32], AllocError>
    ensures digest { IfOk result (λ digest. digest ≡ sha512_256 (flat_map cell_bytes cells.now)) }
    ensures fits { OnOk result (All (FitsSigned w64) cells.now) }
{
    let mut hasher = Sha512_256::new();
    let mut rest = cells;
    while !rest.is_empty() {
        let (piece, behind) = rest.split_at(rest.len().min(PIECE));
        let words = words_of(alloc, piece)?;
        hasher.update(words.as_slice().as_flattened());
        rest = behind;
    }
    Ok(hasher.finalize())
}

// The element of each word.
fn cells_of_words(alloc: Global, words: &[[u8; 8]]) -> Result<Vec<i64>, AllocError>
    ensures words { IfOk result (λ v. map cell_bytes v.items ≡ words.now) }
    ensures fits { IfOk result (λ v. All (FitsSigned w64) v.items) }
{
    let mut cells = Vec::with_capacity(alloc, words.len())?;
    for word in words {
        cells.push(cell_of(*word))?;
    }
    Ok(cells)
}

/// The elements that have these bytes.
pub(crate) fn cells_of(alloc: Global, bytes: &[u8]) -> Result<Vec<i64>, AllocError>
    requires { length bytes.now % 8 ≡ 0 }
    ensures bytes { IfOk result (λ v. flat_map cell_bytes v.items ≡ bytes.now) }
    ensures fits { IfOk result (λ v. All (FitsSigned w64) v.items) }
{
    let (words, _) = bytes.as_chunks::<8>();
    cells_of_words(alloc, words)
}
