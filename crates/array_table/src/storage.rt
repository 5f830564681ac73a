//! What is asked of arrays in the order in which they are stored.
use crate::row::Row;
use crate::text::Answer;
use nd_rows::{BlockTargets, RegionWalk, from_column_major};
use nd_shape::{Region, Shape};
use npy_codec::Head;
use npy_region::{Run, region_runs};

// Whether an array is stored in column-major order.
fn by_column(row: &mut Row) -> bool {
    row.word() == "by-column"
}

fn put_places(out: &mut Answer, walk: &mut RegionWalk) {
    for element in 0..walk.len() {
        if element < walk.len() {
            out.put_item(walk.place(element));
        }
    }
    if walk.len() == 0 {
        return out.put(" none");
    }
    out.put(" in rows of");
    out.put_item(walk.row_len());
}

fn put_walk(out: &mut Answer, by_column: bool, shape: &Shape, region: &Region) {
    if !region.is_part(shape.dims()) {
        return out.mark_ill();
    }
    match RegionWalk::new(out.alloc(), by_column, shape, region) {
        Ok(mut walk) => put_places(out, &mut walk),
        Err(_) => out.fail(),
    }
}

/// `walk ORDER LENGTHS STARTS LENGTHS`: where each element of a region is stored, and the length of a row.
pub fn walk(row: &mut Row, out: &mut Answer) {
    let by_column = by_column(row);
    match Shape::new(row.naturals()) {
        Ok(shape) => put_walk(out, by_column, &shape, &row.region()),
        Err(limit) => out.refuse(limit),
    }
}

fn put_row_major(out: &mut Answer, shape: &Shape, cells: &[i64]) {
    if shape.elements() != cells.len() as u64 {
        return out.mark_ill();
    }
    match from_column_major(out.alloc(), shape, cells) {
        Ok(turned) => out.put_list(&turned),
        Err(_) => out.fail(),
    }
}

/// `row-major LENGTHS ELEMENTS`: the elements of a column-major array in row-major order.
pub fn row_major(row: &mut Row, out: &mut Answer) {
    match Shape::new(row.naturals()) {
        Ok(shape) => put_row_major(out, &shape, &row.numbers()),
        Err(limit) => out.refuse(limit),
    }
}

fn put_all_targets(out: &mut Answer, targets: &mut BlockTargets) {
    for element in 0..targets.len() {
        if element < targets.len() {
            out.put_item(targets.place(element));
        }
    }
}

fn put_targets(out: &mut Answer, by_column: bool, shape: &Shape) {
    match BlockTargets::new(out.alloc(), by_column, shape) {
        Ok(mut targets) => put_all_targets(out, &mut targets),
        Err(_) => out.fail(),
    }
}

/// `targets ORDER LENGTHS`: where each element of a block goes that comes in the order of storage.
pub fn targets(row: &mut Row, out: &mut Answer) {
    let by_column = by_column(row);
    match Shape::new(row.naturals()) {
        Ok(shape) => put_targets(out, by_column, &shape),
        Err(limit) => out.refuse(limit),
    }
}

fn put_all_runs(out: &mut Answer, runs: &[Run]) {
    for run in runs {
        out.put_item(run.length);
        out.put(" from");
        out.put_item(run.offset);
        out.put(" to");
        out.put_item(run.place);
    }
}

fn put_runs(out: &mut Answer, head: &Head, region: &Region) {
    if !region.is_part(head.shape.dims()) || head.data_at > 128 || head.width != 8 {
        return out.mark_ill();
    }
    match region_runs(out.alloc(), head, region) {
        Ok(runs) => put_all_runs(out, runs.as_slice()),
        Err(_) => out.fail(),
    }
}

/// `runs ORDER STARTS LENGTHS LENGTHS`: the bytes of a file that hold a region, where its data begins at 80.
pub fn runs(row: &mut Row, out: &mut Answer) {
    let fortran = by_column(row);
    let region = row.region();
    match Shape::new(row.naturals()) {
        Ok(shape) => {
            let head = Head {
                shape,
                fortran,
                data_at: 80,
                width: 8,
                big: false,
            };
            put_runs(out, &head, &region);
        }
        Err(limit) => out.refuse(limit),
    }
}
