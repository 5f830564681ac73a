//! Lists that are copied.
use crate::row::Row;
use crate::text::Answer;
use nd_shape::{ChunkSpec, Dims, Shapes};

/// `dims NUMBERS`.
pub fn dims(row: &mut Row, out: &mut Answer) {
    let list = Dims::from_vec(row.naturals());
    match list.copy() {
        Ok(copied) => out.put_list(&copied.into_vec()),
        Err(_) => out.fail(),
    }
}

fn put_spec(out: &mut Answer, spec: &ChunkSpec) {
    match spec {
        ChunkSpec::Even(size) => {
            out.put(" even");
            out.put_item(*size);
        }
        ChunkSpec::List(sizes) => {
            out.put(" list");
            out.put_list(sizes.as_slice());
        }
    }
}

fn put_specs(out: &mut Answer, list: &[ChunkSpec]) {
    for spec in list {
        put_spec(out, spec);
    }
}

/// `specs COUNT`, and for each axis a size, or -1, a number of sizes, and so many.
pub fn specs(row: &mut Row, out: &mut Answer) {
    let list = row.specs();
    match list.copy() {
        Ok(copied) => put_specs(out, copied.as_slice()),
        Err(_) => out.fail(),
    }
}

fn put_shapes(out: &mut Answer, list: &Shapes) {
    for shape in list.as_slice() {
        out.put_list(shape.dims());
    }
}

/// `shapes LENGTHS LENGTHS`.
pub fn shapes(row: &mut Row, out: &mut Answer) {
    let list = Shapes::from_vec(row.shapes(2, out));
    match list.copy() {
        Ok(copied) => put_shapes(out, &copied),
        Err(_) => out.fail(),
    }
}
