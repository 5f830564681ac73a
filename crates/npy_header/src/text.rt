//! The reader of a header's bytes.
ghost use Rattle.std.specs.Prelude.{◌≡◌, ◌∷◌, ◌++◌, [], List, ℕ, true, false, Ok, Some, None, IfOk, IfErr, OnOk};
ghost use Rattle.grammar.specs.Tables.{grammar_of, moves_end};
ghost use Rattle.grammar.specs.Runs.{RefusesNext};
ghost use Rattle.npy_header.specs.Kinds.{kind_of};
ghost use Rattle.npy_header.specs.HeaderRows.{rows_of};
ghost use Rattle.npy_header.specs.Scans.{fields_of};
ghost use Rattle.npy_header.specs.Reading.{IsReading, RefusedAs, Says};

use crate::fields::{HeaderError, HeaderFields};
use crate::rows::{KIND_OF_BYTE, MOVES, ON, ON_WIDE, OTHER};
use crate::rules::{RULES, SYMBOLS};
use crate::scanner::Scanner;
use grammar::{Reader, Reply, Table};
use std::alloc::{AllocError, Global};

// The part of the table that stands for a whole header.
const HEADER: u16 = 0;

fn table(wide: bool) -> Table
    ensures rows { result ≡ rows_of wide }
    ensures moves { moves_end result ≡ true }
{
    if wide {
        Table::new(&ON_WIDE, &OTHER, &MOVES, &RULES, &SYMBOLS)
    } else {
        Table::new(&ON, &OTHER, &MOVES, &RULES, &SYMBOLS)
    }
}

fn kind(byte: u8) -> u16
    ensures { result ≡ kind_of byte }
{
    KIND_OF_BYTE[byte as usize]
}

// Whether a header has a place for the next byte.
fn take_byte(
    wide: bool,
    reader: &mut Reader,
    scanner: &mut Scanner,
    byte: u8,
) -> Result<bool, AllocError>
    requires { reader.old.table ≡ rows_of wide }
    ensures table { reader.new.table ≡ rows_of wide }
    ensures taken { result ≡ Ok true → (w : List ℕ) → IsReading wide w reader.old.left scanner.old
        → IsReading wide (w ++ byte ∷ []) reader.new.left scanner.new }
    ensures refused { result ≡ Ok false → RefusesNext (grammar_of (rows_of wide)) kind_of reader.old.left (Some (kind_of byte)) }
{
    let _ = wide;
    match reader.step(kind(byte))? {
        Reply::Refused => Ok(false),
        Reply::Taken => {
            scanner.actions(reader.actions())?;
            scanner.byte(byte)?;
            Ok(true)
        }
    }
}

// Whether a header may end here.
fn take_end(wide: bool, reader: &mut Reader, scanner: &mut Scanner) -> Result<bool, AllocError>
    requires { reader.old.table ≡ rows_of wide }
    ensures taken { result ≡ Ok true → (w : List ℕ) → IsReading wide w reader.old.left scanner.old → Says wide w (fields_of scanner.new) }
    ensures refused { result ≡ Ok false → RefusesNext (grammar_of (rows_of wide)) kind_of reader.old.left None }
{
    let _ = wide;
    match reader.end()? {
        Reply::Refused => Ok(false),
        Reply::Taken => {
            scanner.actions(reader.actions())?;
            Ok(true)
        }
    }
}

// Reads all bytes of a header into what is kept of it.
fn read_bytes(
    wide: bool,
    reader: &mut Reader,
    scanner: &mut Scanner,
    bytes: &[u8],
) -> Result<(), HeaderError>
    requires table { reader.old.table ≡ rows_of wide }
    requires reading { IsReading wide [] reader.old.left scanner.old }
    ensures ok { OnOk result (Says wide bytes.now (fields_of scanner.new)) }
    ensures refused { IfErr result (RefusedAs wide bytes.now) }
{
    for (at, byte) in bytes.iter().enumerate() {
        if !take_byte(wide, reader, scanner, *byte)? {
            return Err(HeaderError::Refused { at });
        }
    }
    if !take_end(wide, reader, scanner)? {
        return Err(HeaderError::Refused { at: bytes.len() });
    }
    Ok(())
}

/// Reads a header: all bytes between the fixed bytes of the file and the data, as NEP 1 has them: a wide one where the
/// version is 3.0.
///
/// The dictionary's keys may stand in any order, in either quotes, with any number of spaces between tokens, with or without
/// a last comma, and any number of spaces may follow it before the newline. Numbers may have any length. What is no header
/// is refused at the first byte after which no header goes on, or at the end of the bytes.
/// It takes memory for what the fields hold, for the bytes, and for what is left to be read.
pub fn read_header_text(
    alloc: Global,
    wide: bool,
    bytes: &[u8],
) -> Result<HeaderFields, HeaderError>
    ensures ok { IfOk result (Says wide bytes.now) }
    ensures refused { IfErr result (RefusedAs wide bytes.now) }
{
    let mut reader = Reader::new(alloc, table(wide), HEADER)?;
    let mut scanner = Scanner::new(alloc);
    read_bytes(wide, &mut reader, &mut scanner, bytes)?;
    Ok(scanner.into_fields())
}
