//! The headers of NumPy's files: a text that is read, and one that is written.
use crate::answer::Answer;
use crate::text::{numbers, unescaped};
use nd_shape::Shape;
use npy_codec::write_head;
use npy_header::{HeaderFields, read_header_text};

/// The order in which a file has its elements.
pub fn order_name(fortran: bool) -> &'static str {
    if fortran { "column-major" } else { "row-major" }
}

fn put_fields(out: &mut Answer, fields: &HeaderFields) {
    out.put(order_name(fields.fortran()));
    out.put(" (");
    out.put_numbers(fields.shape());
    out.put(") of '");
    out.put_bytes(fields.descr());
    out.put("'");
}

/// `header TEXT`: what the text of a header of version 1.0 or 2.0 says; `wide TEXT`: of version 3.0.
pub fn put_header(out: &mut Answer, wide: bool, case: &str) {
    let text = unescaped(out, case);
    match read_header_text(out.alloc(), wide, &text) {
        Ok(fields) => put_fields(out, &fields),
        Err(e) => out.put_item("", &e),
    }
}

fn put_front(out: &mut Answer, shape: &Shape) {
    match write_head(out.alloc(), shape) {
        Ok(front) => out.put_bytes(&front),
        Err(_) => out.fail(),
    }
}

/// `written LENGTHS`: the front of a file with axes of these lengths.
pub fn put_written(out: &mut Answer, case: &str) {
    match Shape::new(numbers(out, case)) {
        Ok(shape) => put_front(out, &shape),
        Err(limit) => out.put_item("", &limit),
    }
}
