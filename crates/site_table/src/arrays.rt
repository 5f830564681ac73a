//! Heads and regions of arrays' files.
ghost use Rattle.std.specs.Prelude.{◌≡◌, ◌≤◌, ◌<◌, ◌^◌, length};
ghost use Rattle.npy_codec.specs.Regions.{IsWidth};

use crate::say::say;
use crate::words::{Trouble, number};
use io_edge::Store;
use nd_shape::{Block, Region};
use npy_codec::{Head, NpyError, read_head};
use npy_region::read_region;
use std::alloc::Global;

/// Prints why a file isn't read.
pub fn say_refusal<R: Print>(rt: &R, error: NpyError) -> Result<(), Trouble> {
    say(rt, Err::<u64, NpyError>(error))
}

// How many bytes an element has, and their order.
fn print_type<R: Print>(rt: &R, head: &Head) -> Result<(), Trouble> {
    let order = if head.big { "big" } else { "little" };
    Ok(print!(rt; " {} {order}", head.width)?)
}

/// The head of an array's file.
pub fn print_head<R: Print, I: Store>(
    rt: &R,
    alloc: Global,
    store: &mut I,
    file: u32,
) -> Result<(), Trouble>
    requires { file < length (I.files store.old) }
    ensures { I.files store.new ≡ I.files store.old }
{
    match read_head(alloc, store, file) {
        Ok(head) => {
            let shape = head.shape.text(alloc)?;
            print!(rt; " {shape} at {}", head.data_at)?;
            print_type(rt, &head)
        }
        Err(error) => say_refusal(rt, error),
    }
}

// Adds an axis to a region.
fn push_axis(region: &mut Region, bounds: &str) -> Result<(), Trouble> {
    let (start, len) = bounds.split_once('+').ok_or(Trouble::Ill)?;
    let start = number(start)?;
    let len = number(len)?;
    if region.starts().len() == 8 {
        return Err(Trouble::Ill);
    }
    region.push(start, len);
    Ok(())
}

/// The region of a word: a start and a length for each axis, as `1+2,0+3`, or `-` for none.
pub fn region_of(word: &str) -> Result<Region, Trouble> {
    let mut region = Region::new();
    if word == "-" {
        return Ok(region);
    }
    for bounds in word.split(',') {
        push_axis(&mut region, bounds)?;
    }
    Ok(region)
}

/// Prints elements.
pub fn print_cells<R: Print>(rt: &R, cells: &[i64]) -> Result<(), Trouble> {
    for cell in cells {
        print!(rt; " {cell}")?;
    }
    Ok(())
}

fn print_block<R: Print>(rt: &R, block: Result<Block, NpyError>) -> Result<(), Trouble> {
    match block {
        Ok(block) => print_cells(rt, block.cells()),
        Err(error) => say_refusal(rt, error),
    }
}

// The elements of a region, where it lies in the array.
fn print_part<R: Print, I: Store>(
    rt: &R,
    alloc: Global,
    store: &mut I,
    file: u32,
    head: &Head,
    region: &Region,
) -> Result<(), Trouble>
    requires there { file < length (I.files store.old) }
    requires near { head.now.data_at ≤ 2 ^ 21 }
    requires width { IsWidth head.now.width }
    ensures { I.files store.new ≡ I.files store.old }
{
    if !region.is_part(head.shape.dims()) {
        return Err(Trouble::Ill);
    }
    print_block(rt, read_region(alloc, store, file, head, region))
}

/// The elements of a region of an array's file.
pub fn print_region<R: Print, I: Store>(
    rt: &R,
    alloc: Global,
    store: &mut I,
    file: u32,
    word: &str,
) -> Result<(), Trouble>
    requires { file < length (I.files store.old) }
    ensures { I.files store.new ≡ I.files store.old }
{
    let region = region_of(word)?;
    match read_head(alloc, store, file) {
        Ok(head) => print_part(rt, alloc, store, file, &head, &region),
        Err(error) => say_refusal(rt, error),
    }
}
