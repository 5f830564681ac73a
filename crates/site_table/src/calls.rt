//! The calls of any site and of its objects.
ghost use Rattle.std.specs.Prelude.{◌≡◌, ◌≤◌, ◌<◌, length};
ghost use Rattle.io_edge.specs.Content.{size_of};

use crate::arrays::{print_head, print_region};
use crate::disk::{disk, look};
use crate::say::{say, say_bytes};
use crate::spills::spill;
use crate::text::bytes_of;
use crate::words::{Trouble, Words, number, place, split};
use io_edge::{OpenFault, OutFile, Site, Store, note_full, print_full, read_full, write_full};
use std::alloc::Global;
use std::rt::Files;

// The most calls in a line.
const CALLS: usize = 64;

// Prints a count of faults.
fn print_faults<R: Print>(rt: &R, faults: u64) -> Result<(), Trouble> {
    Ok(print!(rt; " faults {faults}")?)
}

// One read: the offset, and how many bytes are wanted.
fn read_once<R: Print, I: Store>(
    rt: &R,
    alloc: Global,
    store: &mut I,
    file: u32,
    words: &mut Words,
) -> Result<(), Trouble>
    requires { file < length (I.files store.old) }
    ensures { I.files store.new ≡ I.files store.old }
{
    let offset = number(words.word())?;
    let count = words.below(64)? as usize;
    let mut buf = [0u8; 64];
    let answer = store.read_at(file, offset, &mut buf[..count]);
    say_bytes(rt, alloc, &buf, answer)
}

// As many reads as it takes.
fn read_whole<R: Print, I: Store>(
    rt: &R,
    alloc: Global,
    store: &mut I,
    file: u32,
    words: &mut Words,
) -> Result<(), Trouble>
    requires { file < length (I.files store.old) }
    ensures { I.files store.new ≡ I.files store.old }
{
    let offset = words.below(1048576)?;
    let count = words.below(64)? as usize;
    let mut buf = [0u8; 64];
    let answer = read_full(store, file, offset, &mut buf[..count]);
    say_bytes(rt, alloc, &buf, answer)
}

// One call of a file of a store.
fn call_at<R: Print, I: Store>(
    rt: &R,
    alloc: Global,
    store: &mut I,
    file: u32,
    call: &str,
    words: &mut Words,
) -> Result<(), Trouble>
    requires { file < length (I.files store.old) }
    ensures { I.files store.new ≡ I.files store.old }
{
    match place(call, &["length", "read", "whole", "head", "region"]) {
        0 => say(rt, store.len(file)),
        1 => read_once(rt, alloc, store, file, words),
        2 => read_whole(rt, alloc, store, file, words),
        3 => print_head(rt, alloc, store, file),
        4 => print_region(rt, alloc, store, file, words.word()),
        _ => Err(Trouble::Ill),
    }
}

// One call of a store of so many files, or what another program does meanwhile.
fn call_store<R: Print + Files, I: Store>(
    rt: &R,
    alloc: Global,
    store: &mut I,
    count: u32,
    call: &str,
    words: &mut Words,
) -> Result<(), Trouble>
    requires { length (I.files store.old) ≡ count }
    ensures { I.files store.new ≡ I.files store.old }
{
    if call == "disk" {
        return disk(rt, alloc, words);
    }
    let file = number(words.word())?;
    if file >= count as u64 {
        return Err(Trouble::Ill);
    }
    call_at(rt, alloc, store, file as u32, call, words)
}

// The calls of a store of so many files.
fn call_store_often<R: Print + Files, I: Store>(
    rt: &R,
    alloc: Global,
    store: &mut I,
    count: u32,
    words: &mut Words,
) -> Result<(), Trouble>
    requires { length (I.files store.old) ≡ count }
{
    for _ in 0..CALLS {
        let call = words.word();
        if call.is_empty() {
            break;
        }
        call_store(rt, alloc, store, count, call, words)?;
    }
    Ok(())
}

// Opens files, makes the calls that follow, and gives the store back.
fn open_files<R: Print + Files, S: Site>(
    rt: &R,
    alloc: Global,
    site: &mut S,
    names: &[String],
    words: &mut Words,
) -> Result<(), Trouble>
    requires { length names.now ≤ 64 }
{
    match site.store(alloc, names) {
        Ok(mut store) => {
            let told = call_store_often(rt, alloc, &mut store, names.len() as u32, words);
            let faults = store.faults();
            site.give_store(store);
            told?;
            print_faults(rt, faults)
        }
        Err(fault) => say(rt, Err::<u64, OpenFault>(fault)),
    }
}

// Opens files, whose names stand between commas.
fn open<R: Print + Files, S: Site>(
    rt: &R,
    alloc: Global,
    site: &mut S,
    words: &mut Words,
) -> Result<(), Trouble> {
    let names = split(alloc, words.word(), ',')?;
    if names.len() > 64 {
        return Err(Trouble::Ill);
    }
    open_files(rt, alloc, site, &names, words)
}

// One call of a created file of this length.
fn write<R: Print, F: OutFile>(
    rt: &R,
    file: &mut F,
    len: u64,
    call: &str,
    offset: u64,
    bytes: &[u8],
) -> Result<(), Trouble>
    requires { size_of (F.content file.old) ≡ len }
    ensures size { size_of (F.content file.new) ≡ len }
    ensures named { F.named file.new ≡ F.named file.old }
{
    if offset > len || bytes.len() as u64 > len - offset {
        return Err(Trouble::Ill);
    }
    if call == "write" {
        say(rt, file.write_at(offset, bytes))
    } else {
        say(rt, write_full(file, offset, bytes).map(|()| "done"))
    }
}

// One call of a created file of this length: an offset, and bytes.
fn call_file<R: Print, F: OutFile>(
    rt: &R,
    alloc: Global,
    file: &mut F,
    len: u64,
    call: &str,
    words: &mut Words,
) -> Result<(), Trouble>
    requires { size_of (F.content file.old) ≡ len }
    ensures size { size_of (F.content file.new) ≡ len }
    ensures named { F.named file.new ≡ F.named file.old }
{
    let offset = number(words.word())?;
    let bytes = bytes_of(alloc, words.word())?;
    write(rt, file, len, call, offset, &bytes)
}

// The calls of a created file of this length.
fn call_file_often<R: Print, F: OutFile>(
    rt: &R,
    alloc: Global,
    file: &mut F,
    len: u64,
    words: &mut Words,
) -> Result<(), Trouble>
    requires { size_of (F.content file.old) ≡ len }
    ensures { F.named file.new ≡ F.named file.old }
{
    for _ in 0..CALLS {
        let call = words.word();
        if call.is_empty() {
            break;
        }
        call_file(rt, alloc, file, len, call, words)?;
    }
    Ok(())
}

// Creates a file with a name and a length, makes the calls that follow, and gives it back.
fn create<R: Print, S: Site>(
    rt: &R,
    alloc: Global,
    site: &mut S,
    words: &mut Words,
) -> Result<(), Trouble> {
    let name = words.word();
    let len = words.below(65536)?;
    match site.create(alloc, name, len) {
        Ok(mut file) => {
            let told = call_file_often(rt, alloc, &mut file, len, words);
            let faults = file.faults();
            site.give_file(file);
            told?;
            print_faults(rt, faults)
        }
        Err(fault) => say(rt, Err::<u64, OpenFault>(fault)),
    }
}

// Creates a file with a name and a length, and never gives it back.
fn lose<R: Print, S: Site>(
    rt: &R,
    alloc: Global,
    site: &mut S,
    words: &mut Words,
) -> Result<(), Trouble> {
    let name = words.word();
    let len = words.below(65536)?;
    match site.create(alloc, name, len) {
        Ok(file) => print_faults(rt, file.faults()),
        Err(fault) => say(rt, Err::<u64, OpenFault>(fault)),
    }
}

// Prints bytes to standard output or standard error.
fn print<R: Print, S: Site>(
    rt: &R,
    alloc: Global,
    site: &mut S,
    is_out: bool,
    words: &Words,
) -> Result<(), Trouble> {
    let bytes = bytes_of(alloc, words.rest)?;
    let answer = if is_out {
        print_full(site, &bytes)
    } else {
        note_full(site, &bytes)
    };
    say(rt, answer.map(|()| "done"))
}

/// The counts of the faults of reading, writing, printing and noting.
pub fn faults<S: Site>(site: &S) -> [u64; 4] {
    [
        site.read_faults(),
        site.write_faults(),
        site.print_faults(),
        site.note_faults(),
    ]
}

fn print_all_faults<R: Print>(rt: &R, faults: [u64; 4]) -> Result<(), Trouble> {
    for count in faults {
        print!(rt; " {count}")?;
    }
    Ok(())
}

/// One call of a site, which a word names.
pub fn call<R: Print + Files, S: Site>(
    rt: &R,
    alloc: Global,
    site: &mut S,
    name: &str,
    words: &mut Words,
) -> Result<(), Trouble> {
    let names = [
        "open", "create", "lose", "out", "err", "faults", "spill", "spilled", "look",
    ];
    match place(name, &names) {
        0 => open(rt, alloc, site, words),
        1 => create(rt, alloc, site, words),
        2 => lose(rt, alloc, site, words),
        3 => print(rt, alloc, site, true, words),
        4 => print(rt, alloc, site, false, words),
        5 => print_all_faults(rt, faults(site)),
        6 => spill(rt, alloc, site, words),
        7 => print_faults(rt, site.spill_faults()),
        8 => look(rt, words),
        _ => Err(Trouble::Ill),
    }
}
