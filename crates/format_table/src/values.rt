//! MessagePack's values, and streams of frame groups.
use crate::answer::Answer;
use crate::text::{bytes_of, count, next_word};
use msgpack_frames::{FrameReader, Frames, Value, decode, encode};
use std::alloc::{AllocError, Global};

fn put_text(out: &mut Answer, text: &str) {
    out.put("'");
    out.put_bytes(text.as_bytes());
    out.put("'");
}

fn put_binary(out: &mut Answer, bytes: &[u8]) {
    out.put("<");
    out.put_hex(bytes);
    out.put(">");
}

// A value that holds no others, or how many it holds.
fn put_leaf(out: &mut Answer, value: &Value) {
    match value {
        Value::Nil => out.put("nil"),
        Value::Bool(truth) => out.put_item("", truth),
        Value::Int(number) => out.put_item("", &number.get()),
        Value::Str(text) => put_text(out, text.as_str()),
        Value::Bin(bytes) => put_binary(out, bytes),
        Value::Array(items) => out.put_item("array of ", &items.len()),
        Value::Map(pairs) => out.put_item("map of ", &pairs.len()),
    }
}

fn put_items(out: &mut Answer, items: &[Value]) {
    out.put("[");
    for item in items {
        out.put(" ");
        put_leaf(out, item);
    }
    out.put(" ]");
}

fn put_pairs(out: &mut Answer, pairs: &[(Value, Value)]) {
    out.put("{");
    for pair in pairs {
        out.put(" ");
        put_leaf(out, &pair.0);
        out.put(" ");
        put_leaf(out, &pair.1);
    }
    out.put(" }");
}

// What lies deeper shows in the bytes that the value is written as.
fn put_value(out: &mut Answer, value: &Value) {
    match value {
        Value::Array(items) => put_items(out, items),
        Value::Map(pairs) => put_pairs(out, pairs),
        _ => put_leaf(out, value),
    }
}

/// Puts the bytes that a value is written as.
pub fn put_encoded(out: &mut Answer, value: &Value) {
    match encode(out.alloc(), value) {
        Ok(bytes) => out.put_hex(&bytes),
        Err(e) => out.put_item("", &e),
    }
}

fn put_decoded(out: &mut Answer, size: usize, value: &Value) {
    out.put_item("", &size);
    out.put(" ");
    put_value(out, value);
    out.put(" = ");
    put_encoded(out, value);
}

/// `value HEX`: how many bytes a value takes, what it is, and the bytes that it is written as.
pub fn put_value_case(out: &mut Answer, case: &str) {
    let bytes = bytes_of(out, case);
    match decode(out.alloc(), &bytes) {
        Ok((value, size)) => put_decoded(out, size, &value),
        Err(e) => out.put_item("", &e),
    }
}

// An array in an array, and so on, so many altogether.
fn nested(alloc: Global, depth: u64) -> Result<Value, AllocError> {
    let mut value = Value::Array(Vec::new(alloc));
    for _ in 1..depth {
        let mut outer = Vec::new(alloc);
        outer.push(value)?;
        value = Value::Array(outer);
    }
    Ok(value)
}

/// `nested DEPTH`: the bytes of so many arrays, each in the one before.
pub fn put_nested(out: &mut Answer, case: &str) {
    match nested(out.alloc(), count(case) as u64) {
        Ok(value) => put_encoded(out, &value),
        Err(_) => out.fail(),
    }
}

fn put_group(out: &mut Answer, at: usize, group: &Frames) {
    out.put_item(" at ", &at);
    out.put(":");
    for place in 0..group.len() {
        out.put(" ");
        out.put_hex(group.get(place).unwrap_or(&[]));
    }
}

// Takes the groups that are whole.
fn put_groups(out: &mut Answer, reader: &mut FrameReader, at: usize) {
    for _ in 0..at {
        match reader.take() {
            Some(group) => put_group(out, at, &group),
            None => break,
        }
    }
}

// Feeds a piece of a stream, which ends at this byte.
fn feed(out: &mut Answer, reader: &mut FrameReader, at: usize, piece: &[u8]) {
    if let Err(e) = reader.feed(piece) {
        out.put_item(" at ", &at);
        out.put_item(": ", &e);
    }
    put_groups(out, reader, at);
}

fn put_pieces(out: &mut Answer, size: usize, bytes: &[u8]) {
    let mut reader = FrameReader::new(out.alloc());
    let mut at: usize = 0;
    out.put("groups");
    for piece in bytes.chunks(size.max(1)) {
        at = at.saturating_add(piece.len());
        feed(out, &mut reader, at, piece);
    }
}

/// `stream SIZE HEX`: the groups in a stream that comes in pieces of so many bytes, with the byte at which each is there.
pub fn put_stream(out: &mut Answer, case: &str) {
    let (size, hex) = next_word(case);
    let bytes = bytes_of(out, hex);
    put_pieces(out, count(size), &bytes);
}
