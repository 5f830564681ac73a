//! What is asked of one axis: slices and chunks.
use crate::row::Row;
use crate::text::Answer;
use nd_shape::{ChunkSpec, Dims, Part, axis_chunks, chunk_count, resolve_slice};

// The greatest length of an axis: 2^31.
const LENGTH: u64 = 2147483648;

fn put_steps(out: &mut Answer, len: u64, part: &Part) {
    match resolve_slice(len, part) {
        Ok(steps) => {
            out.put(" start");
            out.put_item(steps.start);
            out.put(" step");
            out.put_item(steps.step);
            out.put(" count");
            out.put_item(steps.count);
        }
        Err(e) => out.refuse(e),
    }
}

/// `slice LENGTH START STOP STEP`: the indexes that a range takes of an axis.
pub fn slice(row: &mut Row, out: &mut Answer) {
    let len = row.natural();
    let start = row.optional();
    let stop = row.optional();
    let step = row.optional();
    put_steps(out, len, &Part::Range(start, stop, step));
}

/// `index LENGTH INDEX`: the one that an index takes.
pub fn index(row: &mut Row, out: &mut Answer) {
    let len = row.natural();
    let index = row.number();
    put_steps(out, len, &Part::At(index));
}

// `even` and a size, or `list` and sizes.
fn spec(row: &mut Row) -> ChunkSpec {
    if row.word() == "even" {
        ChunkSpec::Even(row.natural())
    } else {
        ChunkSpec::List(Dims::from_vec(row.naturals()))
    }
}

fn put_chunks(out: &mut Answer, axis: u32, len: u64, spec: &ChunkSpec) {
    if len > LENGTH || axis >= 8 {
        return out.mark_ill();
    }
    match axis_chunks(out.alloc(), axis, len, spec) {
        Ok(sizes) => out.put_list(sizes.as_slice()),
        Err(e) => out.refuse(e),
    }
}

/// `chunks AXIS LENGTH even SIZE` or `chunks AXIS LENGTH list SIZES`: the chunks of an axis.
pub fn chunks(row: &mut Row, out: &mut Answer) {
    let axis = row.natural().min(8) as u32;
    let len = row.natural();
    let spec = spec(row);
    put_chunks(out, axis, len, &spec);
}

fn put_count(out: &mut Answer, axis: u32, len: u64, spec: &ChunkSpec) {
    if len > LENGTH || axis >= 8 {
        return out.mark_ill();
    }
    match chunk_count(axis, len, spec) {
        Ok(count) => out.put_item(count),
        Err(e) => out.refuse(e),
    }
}

/// `count ..`, with the same words: how many chunks there are.
pub fn count(row: &mut Row, out: &mut Answer) {
    let axis = row.natural().min(8) as u32;
    let len = row.natural();
    let spec = spec(row);
    put_count(out, axis, len, &spec);
}
