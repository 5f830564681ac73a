//! NumPy's files: heads, regions, and the runs of bytes that hold a region.
ghost use Rattle.std.specs.Prelude.{◌≡◌, ◌<◌, ◌≤◌, ◌^◌, length};
ghost use Rattle.npy_codec.specs.Regions.{IsWidth};

use crate::answer::Answer;
use crate::headers::order_name;
use crate::text::{count, next_word, number, numbers, unescaped};
use io_edge::{Counted, Kind, MemorySite, Refusal, Site, Store};
use nd_shape::{Block, Region, Shape};
use npy_codec::{Head, read_head};
use npy_region::{Run, read_region, region_runs};
use std::alloc::{AllocError, Global};

// The call that is to fail: `length` or `read`, and its number.
fn refusals_of(out: &mut Answer, fault: &str) -> Vec<Refusal> {
    let mut refusals = Vec::new(out.alloc());
    if let Some((kind, call)) = fault.split_once(':') {
        let refusal = Refusal {
            kind: if kind == "read" {
                Kind::Read
            } else {
                Kind::Length
            },
            counted: Counted::OverAll,
            call: number(call),
        };
        if refusals.push(refusal).is_err() {
            out.fail();
        }
    }
    refusals
}

fn names(alloc: Global) -> Result<[String; 2], AllocError> {
    let whole = String::from_str(alloc, "whole.npy")?;
    let part = String::from_str(alloc, "part.npy")?;
    Ok([whole, part])
}

fn put_head(out: &mut Answer, head: &Head) {
    out.put(order_name(head.fortran));
    out.put(" (");
    out.put_numbers(head.shape.dims());
    out.put_item(") at ", &head.data_at);
    out.put_item(" of ", &head.width);
    if head.big {
        out.put(" big");
    }
}

fn put_block(out: &mut Answer, block: &Block) {
    out.put("; (");
    out.put_numbers(block.shape().dims());
    out.put(")");
    out.put_each(" ", block.cells());
}

// Puts a region of the second file by the head of the first.
fn put_region<S: Store>(out: &mut Answer, store: &mut S, head: &Head, region: &Region)
    requires there { 1 < length (S.files store.old) }
    requires near { head.now.data_at ≤ 2 ^ 21 }
    requires width { IsWidth head.now.width }
{
    if !region.is_part(head.shape.dims()) {
        return out.put("; no part");
    }
    match read_region(out.alloc(), store, 1, head, region) {
        Ok(block) => put_block(out, &block),
        Err(e) => out.put_item("; ", &e),
    }
}

fn put_files<S: Store>(out: &mut Answer, store: &mut S, region: Option<&Region>)
    requires { 1 < length (S.files store.old) }
{
    match read_head(out.alloc(), store, 0) {
        Ok(head) => {
            put_head(out, &head);
            if let Some(region) = region {
                put_region(out, store, &head, region);
            }
        }
        Err(e) => out.put_item("", &e),
    }
}

fn put_named(out: &mut Answer, site: &mut MemorySite, names: &[String], region: Option<&Region>)
    requires { length names.now ≡ 2 }
{
    match site.store(out.alloc(), names) {
        Ok(mut store) => put_files(out, &mut store, region),
        Err(e) => out.put_item("", &e),
    }
}

fn put_opened(out: &mut Answer, site: &mut MemorySite, region: Option<&Region>) {
    match names(out.alloc()) {
        Ok(names) => put_named(out, site, &names, region),
        Err(_) => out.fail(),
    }
}

// Puts what the files say of which the second is a part of the first. Calls move at most so many bytes.
fn put_site(
    out: &mut Answer,
    most: &str,
    fault: &str,
    whole: &[u8],
    part: &[u8],
    region: Option<&Region>,
) {
    let alloc = out.alloc();
    let refusals = refusals_of(out, fault);
    match MemorySite::new(alloc, 0, refusals) {
        Ok(mut site) => {
            site.set_most(count(most).max(1));
            out.keep(site.put(alloc, "whole.npy", whole));
            out.keep(site.put(alloc, "part.npy", part));
            put_opened(out, &mut site, region);
        }
        Err(_) => out.fail(),
    }
}

/// `head MOST FAULT FILE`: the head of a file, of which a call reads at most so many bytes.
pub fn put_head_case(out: &mut Answer, case: &str) {
    let (most, case) = next_word(case);
    let (fault, file) = next_word(case);
    let bytes = unescaped(out, file);
    put_site(out, most, fault, &bytes, &[], None);
}

// The first index and the length of each axis.
fn region_of(axes: &str) -> Region {
    let mut region = Region::new();
    for axis in axes.split(',') {
        if let Some((start, len)) = axis.split_once('+')
            && region.lengths().len() < 8
        {
            region.push(number(start), number(len));
        }
    }
    region
}

/// `region MOST FAULT SIZE AXES FILE`: the region of a file whose head is read from the whole, and of which so many bytes
/// are there for the rest.
pub fn put_region_case(out: &mut Answer, case: &str) {
    let (most, case) = next_word(case);
    let (fault, case) = next_word(case);
    let (size, case) = next_word(case);
    let (axes, file) = next_word(case);
    let bytes = unescaped(out, file);
    let size = count(size).min(bytes.len());
    put_site(
        out,
        most,
        fault,
        &bytes,
        &bytes[..size],
        Some(&region_of(axes)),
    );
}

fn put_all_runs(out: &mut Answer, runs: &[Run]) {
    out.put("runs");
    for run in runs {
        out.put_item(" ", &run.offset);
        out.put_item("+", &run.length);
        out.put_item("@", &run.place);
    }
}

fn put_runs_of(out: &mut Answer, head: &Head, region: &Region)
    requires { IsWidth head.now.width }
{
    if !region.is_part(head.shape.dims()) || head.data_at > 2097152 {
        return out.put("no part");
    }
    match region_runs(out.alloc(), head, region) {
        Ok(runs) => put_all_runs(out, runs.as_slice()),
        Err(_) => out.fail(),
    }
}

fn width_of(word: &str) -> u32
    ensures { IsWidth result }
{
    match word {
        "1" => 1,
        "2" => 2,
        "4" => 4,
        _ => 8,
    }
}

/// `runs ORDER WIDTH LENGTHS AXES`: the runs of a region of a file with elements of so many bytes whose data begins at byte 80.
pub fn put_runs(out: &mut Answer, case: &str) {
    let (order, case) = next_word(case);
    let (width, case) = next_word(case);
    let (lengths, axes) = next_word(case);
    match Shape::new(numbers(out, lengths)) {
        Ok(shape) => {
            let head = Head {
                shape,
                fortran: order == "column-major",
                data_at: 80,
                width: width_of(width),
                big: false,
            };
            put_runs_of(out, &head, &region_of(axes));
        }
        Err(limit) => out.put_item("", &limit),
    }
}
