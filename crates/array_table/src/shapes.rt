//! What is asked of shapes, indexes and regions.
use crate::row::Row;
use crate::text::Answer;
use nd_shape::{Region, Shape, ShapeError, broadcast, broadcast_three, is_inside, ravel, unravel};

fn put_shape(out: &mut Answer, shape: &Shape) {
    match shape.text(out.alloc()) {
        Ok(text) => {
            out.put(" ");
            out.put(text.as_str());
            out.put(" has");
            out.put_item(shape.elements());
        }
        Err(_) => out.fail(),
    }
}

/// `shape LENGTHS`: a shape's text and the number of its elements.
pub fn shape(row: &mut Row, out: &mut Answer) {
    match Shape::new(row.naturals()) {
        Ok(shape) => put_shape(out, &shape),
        Err(limit) => out.refuse(limit),
    }
}

/// `line LENGTH`: the same of one axis.
pub fn line(row: &mut Row, out: &mut Answer) {
    let len = row.natural();
    if len > 2147483648 {
        return out.mark_ill();
    }
    match Shape::line(out.alloc(), len) {
        Ok(shape) => put_shape(out, &shape),
        Err(_) => out.fail(),
    }
}

fn put_made(out: &mut Answer, made: Result<Shape, ShapeError>) {
    match made {
        Ok(shape) => out.put_list(shape.dims()),
        Err(e) => out.refuse(e),
    }
}

fn put_broadcast(out: &mut Answer, shapes: &[Shape]) {
    match shapes {
        [left, right] => put_made(out, broadcast(out.alloc(), left, right)),
        [first, second, third] => {
            put_made(out, broadcast_three(out.alloc(), first, second, third))
        }
        _ => out.mark_ill(),
    }
}

/// `broadcast LENGTHS LENGTHS`: the lengths to which two shapes are broadcast, and with `broadcast-three` the same of three
/// shapes at once.
pub fn broadcasted(row: &mut Row, count: u64, out: &mut Answer) {
    let shapes = row.shapes(count, out);
    put_broadcast(out, &shapes);
}

fn put_place(out: &mut Answer, shape: &Shape, index: &[u64]) {
    if is_inside(shape, index) {
        out.put_item(ravel(shape, index));
    } else {
        out.put(" outside");
    }
}

/// `ravel LENGTHS INDEX`: where an index stands in row-major order, or that it is outside.
pub fn raveled(row: &mut Row, out: &mut Answer) {
    match Shape::new(row.naturals()) {
        Ok(shape) => put_place(out, &shape, &row.naturals()),
        Err(limit) => out.refuse(limit),
    }
}

fn put_index(out: &mut Answer, shape: &Shape, place: u64) {
    if place >= shape.elements() {
        return out.put(" outside");
    }
    match vec![in out.alloc(); 0; shape.dims().len()] {
        Ok(mut index) => {
            unravel(shape, place, &mut index);
            out.put_list(&index);
        }
        Err(_) => out.fail(),
    }
}

/// `unravel LENGTHS PLACE`: the index at a place in row-major order.
pub fn unraveled(row: &mut Row, out: &mut Answer) {
    match Shape::new(row.naturals()) {
        Ok(shape) => put_index(out, &shape, row.natural()),
        Err(limit) => out.refuse(limit),
    }
}

fn put_part(out: &mut Answer, whole: &Shape, region: &Region) {
    out.put_region(region);
    if !region.is_part(whole.dims()) {
        return out.put(" is no part");
    }
    out.put(" is a part");
    match region.shape(out.alloc(), whole) {
        Ok(shape) => put_shape(out, &shape),
        Err(_) => out.fail(),
    }
}

/// `region LENGTHS STARTS LENGTHS`: a region, and whether it is a part of a shape.
pub fn region(row: &mut Row, out: &mut Answer) {
    match Shape::new(row.naturals()) {
        Ok(whole) => put_part(out, &whole, &row.region()),
        Err(limit) => out.refuse(limit),
    }
}

fn put_whole(out: &mut Answer, dims: &[u64]) {
    if dims.len() > 8 {
        return out.mark_ill();
    }
    let mut region = Region::whole(dims);
    let other = region.copy();
    region.clear();
    out.put_region(&other);
    out.put_region(&region);
}

/// `whole LENGTHS`: the region of all indexes, copied before it is cleared, and what is left of it.
pub fn whole(row: &mut Row, out: &mut Answer) {
    put_whole(out, &row.naturals());
}
