//! From bytes to a value.

ghost use Rattle.std.specs.Prelude.{◌≡◌, ℕ, ◌-◌, ◌^◌, ◌<◌, ◌++◌, List, length, IfOk, IfErr, Ok};
ghost use Rattle.std.specs.Int.{cast_signed};
ghost use Rattle.msgpack_frames.specs.Forms.{width, bound};
ghost use Rattle.msgpack_frames.specs.Data.{Data, IsWithin};
ghost use Rattle.msgpack_frames.specs.Encoding.{Encodes};
ghost use Rattle.msgpack_frames.specs.Decoded.{Answers, IsFound, Refuses};
ghost use Rattle.msgpack_frames.specs.View.{view, items_view, pairs_view};
ghost use Rattle.msgpack_frames.specs.Reading.{Gives, number_at, unsigned_at, signed_at, len_at, text_at, binary_at, items_at, pairs_at, array_at, map_at, body_at, is_too_deep, sized_at, formed_at, value_at, inner, outcome};

use crate::error::MpError;
use crate::form::{Form, Kind, Size, form_of};
use crate::value::{Integer, Value};
use std::alloc::Global;

/// How many arrays and maps may be open at once.
pub(crate) const MAX_DEPTH: usize = 16;

/// The greatest length.
pub(crate) const MAX_LEN: u64 = 1 << 27;

fn u8_at(bytes: &[u8]) -> Result<(u64, &[u8]), MpError>
    ensures read { Gives (λ x. (x.0, x.1.now)) result (number_at Size.One bytes.now) }
    ensures fits { IfOk result (λ x. x.0 < bound Size.One) }
{
    match bytes {
        [] => Err(MpError::Short),
        [first, rest @ ..] => Ok((u64::from(*first), rest)),
    }
}

fn u16_at(bytes: &[u8]) -> Result<(u64, &[u8]), MpError>
    ensures read { Gives (λ x. (x.0, x.1.now)) result (number_at Size.Two bytes.now) }
    ensures fits { IfOk result (λ x. x.0 < bound Size.Two) }
{
    if bytes.len() < 2 {
        return Err(MpError::Short);
    }
    let (front, rest) = bytes.split_at(2);
    let number = u16::from_be_bytes([front[0], front[1]]);
    Ok((u64::from(number), rest))
}

fn u32_at(bytes: &[u8]) -> Result<(u64, &[u8]), MpError>
    ensures read { Gives (λ x. (x.0, x.1.now)) result (number_at Size.Four bytes.now) }
    ensures fits { IfOk result (λ x. x.0 < bound Size.Four) }
{
    if bytes.len() < 4 {
        return Err(MpError::Short);
    }
    let (front, rest) = bytes.split_at(4);
    let number = u32::from_be_bytes([front[0], front[1], front[2], front[3]]);
    Ok((u64::from(number), rest))
}

fn u64_at(bytes: &[u8]) -> Result<(u64, &[u8]), MpError>
    ensures read { Gives (λ x. (x.0, x.1.now)) result (number_at Size.Eight bytes.now) }
    ensures fits { IfOk result (λ x. x.0 < bound Size.Eight) }
{
    if bytes.len() < 8 {
        return Err(MpError::Short);
    }
    let (front, rest) = bytes.split_at(8);
    let number = u64::from_be_bytes([
        front[0], front[1], front[2], front[3], front[4], front[5], front[6], front[7],
    ]);
    Ok((number, rest))
}

fn number_of(size: Size, bytes: &[u8]) -> Result<(u64, &[u8]), MpError>
    ensures read { Gives (λ x. (x.0, x.1.now)) result (number_at size bytes.now) }
    ensures fits { IfOk result (λ x. x.0 < bound size) }
{
    match size {
        Size::One => u8_at(bytes),
        Size::Two => u16_at(bytes),
        Size::Four => u32_at(bytes),
        Size::Eight => u64_at(bytes),
    }
}

#[tactic(auto, unfolding(crate::specs::Reading::unsigned_at))]
fn unsigned_of(size: Size, bytes: &[u8]) -> Result<(Value, &[u8]), MpError>
    ensures { Gives (λ x. (view x.0, x.1.now)) result (unsigned_at size bytes.now) }
{
    let (number, rest) = number_of(size, bytes)?;
    Ok((Value::Int(Integer::unsigned(number)), rest))
}

fn sign(size: Size, number: u64) -> i64
    requires { number < bound size }
    ensures { result ≡ cast_signed (width size) number }
{
    match size {
        Size::One => i64::from((number as u8).cast_signed()),
        Size::Two => i64::from((number as u16).cast_signed()),
        Size::Four => i64::from((number as u32).cast_signed()),
        Size::Eight => number.cast_signed(),
    }
}

#[tactic(auto, unfolding(crate::specs::Reading::signed_at))]
fn signed_of(size: Size, bytes: &[u8]) -> Result<(Value, &[u8]), MpError>
    ensures { Gives (λ x. (view x.0, x.1.now)) result (signed_at size bytes.now) }
{
    let (number, rest) = number_of(size, bytes)?;
    Ok((Value::Int(Integer::signed(sign(size, number))), rest))
}

#[tactic(auto, unfolding(crate::specs::Reading::len_at))]
fn len_of(size: Size, bytes: &[u8]) -> Result<(u64, &[u8]), MpError>
    ensures { Gives (λ x. (x.0, x.1.now)) result (len_at size bytes.now) }
{
    let (len, rest) = number_of(size, bytes)?;
    if len > MAX_LEN {
        return Err(MpError::Limit);
    }
    Ok((len, rest))
}

#[tactic(auto, unfolding(crate::specs::Reading::text_at))]
fn text_of(alloc: Global, at: usize, len: u64, bytes: &[u8]) -> Result<(Value, &[u8]), MpError>
    ensures { Gives (λ x. (view x.0, x.1.now)) result (text_at at len bytes.now) }
{
    let len = len as usize;
    if bytes.len() < len {
        return Err(MpError::Short);
    }
    let (front, rest) = bytes.split_at(len);
    match str::from_utf8(front) {
        Ok(text) => Ok((Value::Str(String::from_str(alloc, text)?), rest)),
        Err(_) => Err(MpError::NotUtf8 { at }),
    }
}

#[tactic(auto, unfolding(crate::specs::Reading::binary_at))]
fn binary_of(alloc: Global, len: u64, bytes: &[u8]) -> Result<(Value, &[u8]), MpError>
    ensures { Gives (λ x. (view x.0, x.1.now)) result (binary_at len bytes.now) }
{
    let len = len as usize;
    if bytes.len() < len {
        return Err(MpError::Short);
    }
    let (front, rest) = bytes.split_at(len);
    Ok((Value::Bin(Vec::from_slice(alloc, front)?), rest))
}

/// Whether what begins is one array or map too many.
fn is_beyond(depth: usize, kind: Kind) -> bool
    ensures { (total : ℕ) → result ≡ is_too_deep (inner total depth) kind }
{
    match kind {
        Kind::Str | Kind::Bin => false,
        Kind::Array => depth == 0,
        Kind::Map => depth == 0,
    }
}

#[cycle(read)]
fn value_of(
    alloc: Global,
    total: usize,
    depth: usize,
    bytes: &[u8],
) -> Result<(Value, &[u8]), MpError>
    ensures { Gives (λ x. (view x.0, x.1.now)) result (value_at total depth bytes.now) }
{
    match bytes {
        [] => Err(MpError::Short),
        [first, rest @ ..] => {
            let at = total.saturating_sub(bytes.len());
            formed_of(alloc, total, depth, at, form_of(*first), rest)
        }
    }
}

#[cycle(read)]
fn formed_of(
    alloc: Global,
    total: usize,
    depth: usize,
    at: usize,
    form: Form,
    bytes: &[u8],
) -> Result<(Value, &[u8]), MpError>
    ensures { Gives (λ x. (view x.0, x.1.now)) result (formed_at at (inner total depth) form bytes.now) }
{
    match form {
        Form::Nil => Ok((Value::Nil, bytes)),
        Form::Bool(truth) => Ok((Value::Bool(truth), bytes)),
        Form::Small(number) => Ok((Value::Int(Integer::signed(i64::from(number))), bytes)),
        Form::Unsigned(size) => unsigned_of(size, bytes),
        Form::Signed(size) => signed_of(size, bytes),
        Form::Fixed(kind, len) => body_of(alloc, total, depth, at, kind, u64::from(len), bytes),
        Form::Sized(kind, size) => sized_of(alloc, total, depth, at, kind, size, bytes),
        Form::Float => Err(MpError::Float { at }),
        Form::Ext => Err(MpError::Ext { at }),
        Form::Reserved => Err(MpError::Reserved { at }),
    }
}

#[cycle(read)]
#[tactic(auto, unfolding(crate::specs::Reading::sized_at))]
fn sized_of(
    alloc: Global,
    total: usize,
    depth: usize,
    at: usize,
    kind: Kind,
    size: Size,
    bytes: &[u8],
) -> Result<(Value, &[u8]), MpError>
    ensures { Gives (λ x. (view x.0, x.1.now)) result (sized_at at (inner total depth) kind size bytes.now) }
{
    if is_beyond(depth, kind) {
        return Err(MpError::Depth);
    }
    let (len, rest) = len_of(size, bytes)?;
    body_of(alloc, total, depth, at, kind, len, rest)
}

#[cycle(read)]
fn body_of(
    alloc: Global,
    total: usize,
    depth: usize,
    at: usize,
    kind: Kind,
    len: u64,
    bytes: &[u8],
) -> Result<(Value, &[u8]), MpError>
    ensures { Gives (λ x. (view x.0, x.1.now)) result (body_at at (inner total depth) kind len bytes.now) }
{
    match kind {
        Kind::Str => text_of(alloc, at, len, bytes),
        Kind::Bin => binary_of(alloc, len, bytes),
        Kind::Array => array_of(alloc, total, depth, len, bytes),
        Kind::Map => map_of(alloc, total, depth, len, bytes),
    }
}

#[cycle(read)]
fn array_of(
    alloc: Global,
    total: usize,
    depth: usize,
    len: u64,
    bytes: &[u8],
) -> Result<(Value, &[u8]), MpError>
    ensures { Gives (λ x. (view x.0, x.1.now)) result (array_at (inner total depth) len bytes.now) }
{
    if depth == 0 {
        return Err(MpError::Depth);
    }
    let (items, rest) = items_of(alloc, total, depth - 1, len, bytes)?;
    Ok((Value::Array(items), rest))
}

#[cycle(read)]
fn map_of(
    alloc: Global,
    total: usize,
    depth: usize,
    len: u64,
    bytes: &[u8],
) -> Result<(Value, &[u8]), MpError>
    ensures { Gives (λ x. (view x.0, x.1.now)) result (map_at (inner total depth) len bytes.now) }
{
    if depth == 0 {
        return Err(MpError::Depth);
    }
    let (pairs, rest) = pairs_of(alloc, total, depth - 1, len, bytes)?;
    Ok((Value::Map(pairs), rest))
}

#[cycle(read)]
fn items_of(
    alloc: Global,
    total: usize,
    depth: usize,
    len: u64,
    bytes: &[u8],
) -> Result<(Vec<Value>, &[u8]), MpError>
    ensures { Gives (λ x. (items_view x.0.items, x.1.now)) result (items_at (value_at total depth) len bytes.now) }
{
    let mut items = Vec::new(alloc);
    let mut rest = bytes;
    'items: for _ in 0..len {
        let (item, after) = value_of(alloc, total, depth, rest)?;
        items.push(item)?;
        rest = after;
    }
    Ok((items, rest))
}

#[cycle(read)]
fn pairs_of(
    alloc: Global,
    total: usize,
    depth: usize,
    len: u64,
    bytes: &[u8],
) -> Result<(Vec<(Value, Value)>, &[u8]), MpError>
    ensures { Gives (λ x. (pairs_view x.0.items, x.1.now)) result (pairs_at (value_at total depth) len bytes.now) }
{
    let mut pairs = Vec::new(alloc);
    let mut rest = bytes;
    'pairs: for _ in 0..len {
        let (key, after) = value_of(alloc, total, depth, rest)?;
        let (value, after) = value_of(alloc, total, depth, after)?;
        pairs.push((key, value))?;
        rest = after;
    }
    Ok((pairs, rest))
}

#[tactic(auto, unfolding(crate::specs::Reading::outcome))]
fn first_value(alloc: Global, bytes: &[u8]) -> Result<(Value, usize), MpError>
    ensures { Answers result (outcome bytes.now) }
{
    let (value, rest) = value_of(alloc, bytes.len(), MAX_DEPTH, bytes)?;
    Ok((value, bytes.len().saturating_sub(rest.len())))
}

/// The value at the front of the bytes, and how many bytes it takes. Bytes may follow it.
///
/// Takes each form that the [MessagePack specification] gives a value, also one that is longer than need
/// be, and no other bytes. A refusal is the first one from left to right. `Depth` is where a 17th array or
/// map begins inside 16 that are open, `Limit` where a length above 2^27 has been read; a string is tested
/// for UTF-8 once all its bytes are there.
///
/// # Errors
/// `Short`, `Float`, `Ext`, `Reserved`, `Depth`, `NotUtf8` and `Limit` where the bytes are so; `OutOfMemory` where no memory is
/// left.
///
/// [MessagePack specification]: https://github.com/msgpack/msgpack/blob/master/spec.md
pub fn decode(alloc: Global, bytes: &[u8]) -> Result<(Value, usize), MpError>
    // What is read is encoded so, in the bytes that it takes.
    ensures found { IfOk result (λ x. IsFound bytes.now (view x.0) x.1) }
    // What is encoded so is read, whatever follows, unless memory runs out.
    ensures accepted { (d : Data) (front rest : List ℕ) → Encodes d front → IsWithin d → bytes.now ≡ front ++ rest
        → Answers result (Ok (d, length front)) }
    // A refusal is the first one, at its place.
    ensures refused { IfErr result (Refuses bytes.now) }
    // Which answer it is.
    ensures exact { Answers result (outcome bytes.now) }
{
    first_value(alloc, bytes)
}
