//! From a value to bytes.

ghost use Rattle.std.specs.Prelude.{◌≡◌, ℕ, ◌-◌, ◌^◌, ◌<◌, ◌≤◌, ◌++◌, ◌∷◌, [], List, length, OnOk, IfOk, IfErr, Ok};
ghost use Rattle.std.specs.Int.{to_be_bytes};
ghost use Rattle.msgpack_frames.specs.Data.{array, dictionary, text, binary, max_depth, max_len, IsInRange, IsWithin};
ghost use Rattle.msgpack_frames.specs.Encoding.{Encodes};
ghost use Rattle.msgpack_frames.specs.Reading.{outcome};
ghost use Rattle.msgpack_frames.specs.Spelling.{sized, head, unsigned, negative, number, spelling, items_spelling, pairs_spelling, IsValid, AreValid, PairsAreValid, fault_of, items_fault, pairs_fault, len_fault, Tells, IsFaultOf};
ghost use Rattle.msgpack_frames.specs.View.{view, items_view, pairs_view};

use crate::decoder::{MAX_DEPTH, MAX_LEN};
use crate::error::MpError;
use crate::form::{Kind, Size};
use crate::value::{Integer, Value};
use std::alloc::{AllocError, Global};

#[tactic(auto, unfolding(crate::specs::Spelling::sized))]
fn put_u8(out: &mut Vec<u8>, first: u8, number: u8) -> Result<(), AllocError>
    ensures { OnOk result (out.new.items ≡ out.old.items ++ sized first Size.One number) }
{
    out.extend_from_slice(&[first, number])?;
    Ok(())
}

#[tactic(auto, unfolding(crate::specs::Spelling::sized))]
fn put_u16(out: &mut Vec<u8>, first: u8, number: u16) -> Result<(), AllocError>
    ensures { OnOk result (out.new.items ≡ out.old.items ++ sized first Size.Two number) }
{
    out.push(first)?;
    out.extend_from_slice(&number.to_be_bytes())?;
    Ok(())
}

#[tactic(auto, unfolding(crate::specs::Spelling::sized))]
fn put_u32(out: &mut Vec<u8>, first: u8, number: u32) -> Result<(), AllocError>
    ensures { OnOk result (out.new.items ≡ out.old.items ++ sized first Size.Four number) }
{
    out.push(first)?;
    out.extend_from_slice(&number.to_be_bytes())?;
    Ok(())
}

#[tactic(auto, unfolding(crate::specs::Spelling::sized))]
fn put_u64(out: &mut Vec<u8>, first: u8, number: u64) -> Result<(), AllocError>
    ensures { OnOk result (out.new.items ≡ out.old.items ++ sized first Size.Eight number) }
{
    out.push(first)?;
    out.extend_from_slice(&number.to_be_bytes())?;
    Ok(())
}

fn put_byte(out: &mut Vec<u8>, byte: u8) -> Result<(), AllocError>
    ensures { OnOk result (out.new.items ≡ out.old.items ++ byte ∷ []) }
{
    out.push(byte)?;
    Ok(())
}

#[tactic(auto, unfolding(crate::specs::Spelling::unsigned))]
fn put_unsigned(out: &mut Vec<u8>, number: u64) -> Result<(), AllocError>
    ensures { OnOk result (out.new.items ≡ out.old.items ++ unsigned number) }
{
    if number < 1 << 7 {
        put_byte(out, number as u8)
    } else if number < 1 << 8 {
        put_u8(out, 0xcc, number as u8)
    } else if number < 1 << 16 {
        put_u16(out, 0xcd, number as u16)
    } else if number < 1 << 32 {
        put_u32(out, 0xce, number as u32)
    } else {
        put_u64(out, 0xcf, number)
    }
}

/// The number `-1 - below`.
#[tactic(auto, unfolding(crate::specs::Spelling::negative))]
fn put_negative(out: &mut Vec<u8>, below: u64) -> Result<(), AllocError>
    requires { below < 2 ^ 63 }
    ensures { OnOk result (out.new.items ≡ out.old.items ++ negative below) }
{
    if below < 1 << 5 {
        put_byte(out, 0xff - below as u8)
    } else if below < 1 << 7 {
        put_u8(out, 0xd0, u8::MAX - below as u8)
    } else if below < 1 << 15 {
        put_u16(out, 0xd1, u16::MAX - below as u16)
    } else if below < 1 << 31 {
        put_u32(out, 0xd2, u32::MAX - below as u32)
    } else {
        put_u64(out, 0xd3, u64::MAX - below)
    }
}

fn put_integer(out: &mut Vec<u8>, integer: Integer) -> Result<(), AllocError>
    ensures ok { OnOk result (out.new.items ≡ out.old.items ++ number integer) }
    ensures range { IsInRange integer }
{
    let number = integer.get();
    if number >= 0 {
        put_unsigned(out, number as u64)
    } else {
        put_negative(out, (-1 - number) as u64)
    }
}

#[tactic(auto, unfolding(crate::specs::Spelling::head))]
fn put_head(out: &mut Vec<u8>, kind: Kind, len: u64) -> Result<(), AllocError>
    requires { len ≤ max_len }
    ensures { OnOk result (out.new.items ≡ out.old.items ++ head kind len) }
{
    match kind {
        Kind::Str => put_str_head(out, len),
        Kind::Bin => put_bin_head(out, len),
        Kind::Array => put_array_head(out, len),
        Kind::Map => put_map_head(out, len),
    }
}

#[tactic(auto, unfolding(crate::specs::Spelling::head))]
fn put_str_head(out: &mut Vec<u8>, len: u64) -> Result<(), AllocError>
    requires { len ≤ max_len }
    ensures { OnOk result (out.new.items ≡ out.old.items ++ head Kind.Str len) }
{
    if len < 32 {
        put_byte(out, 0xa0 + len as u8)
    } else if len < 1 << 8 {
        put_u8(out, 0xd9, len as u8)
    } else if len < 1 << 16 {
        put_u16(out, 0xda, len as u16)
    } else {
        put_u32(out, 0xdb, len as u32)
    }
}

#[tactic(auto, unfolding(crate::specs::Spelling::head))]
fn put_bin_head(out: &mut Vec<u8>, len: u64) -> Result<(), AllocError>
    requires { len ≤ max_len }
    ensures { OnOk result (out.new.items ≡ out.old.items ++ head Kind.Bin len) }
{
    if len < 1 << 8 {
        put_u8(out, 0xc4, len as u8)
    } else if len < 1 << 16 {
        put_u16(out, 0xc5, len as u16)
    } else {
        put_u32(out, 0xc6, len as u32)
    }
}

#[tactic(auto, unfolding(crate::specs::Spelling::head))]
fn put_array_head(out: &mut Vec<u8>, len: u64) -> Result<(), AllocError>
    requires { len ≤ max_len }
    ensures { OnOk result (out.new.items ≡ out.old.items ++ head Kind.Array len) }
{
    if len < 16 {
        put_byte(out, 0x90 + len as u8)
    } else if len < 1 << 16 {
        put_u16(out, 0xdc, len as u16)
    } else {
        put_u32(out, 0xdd, len as u32)
    }
}

#[tactic(auto, unfolding(crate::specs::Spelling::head))]
fn put_map_head(out: &mut Vec<u8>, len: u64) -> Result<(), AllocError>
    requires { len ≤ max_len }
    ensures { OnOk result (out.new.items ≡ out.old.items ++ head Kind.Map len) }
{
    if len < 16 {
        put_byte(out, 0x80 + len as u8)
    } else if len < 1 << 16 {
        put_u16(out, 0xde, len as u16)
    } else {
        put_u32(out, 0xdf, len as u32)
    }
}

/// The head of what has this length, if the length is within the limit.
fn begin(out: &mut Vec<u8>, kind: Kind, len: usize) -> Result<(), MpError>
    ensures ok { OnOk result (out.new.items ≡ out.old.items ++ head kind len) }
    ensures fault { Tells result (len_fault len) }
{
    let len = len as u64;
    if len > MAX_LEN {
        return Err(MpError::Limit);
    }
    put_head(out, kind, len)?;
    Ok(())
}

#[cycle(write)]
fn put(out: &mut Vec<u8>, depth: usize, value: &Value) -> Result<(), MpError>
    ensures ok { OnOk result (out.new.items ≡ out.old.items ++ spelling (view value.now)) }
    ensures valid { OnOk result (IsValid (view value.now)) }
    ensures fault { Tells result (fault_of depth (view value.now)) }
{
    match value {
        Value::Nil => Ok(put_byte(out, 0xc0)?),
        Value::Bool(false) => Ok(put_byte(out, 0xc2)?),
        Value::Bool(true) => Ok(put_byte(out, 0xc3)?),
        Value::Int(integer) => Ok(put_integer(out, *integer)?),
        Value::Str(text) => put_text(out, text.as_str()),
        Value::Bin(bytes) => put_binary(out, bytes),
        Value::Array(items) => put_array(out, depth, items),
        Value::Map(pairs) => put_map(out, depth, pairs),
    }
}

fn put_text(out: &mut Vec<u8>, string: &str) -> Result<(), MpError>
    ensures ok { OnOk result (out.new.items ≡ out.old.items ++ spelling (text string.now)) }
    ensures valid { OnOk result (IsValid (text string.now)) }
    ensures fault { (depth : ℕ) → Tells result (fault_of depth (text string.now)) }
{
    let bytes = string.as_bytes();
    begin(out, Kind::Str, bytes.len())?;
    out.extend_from_slice(bytes)?;
    Ok(())
}

fn put_binary(out: &mut Vec<u8>, bytes: &[u8]) -> Result<(), MpError>
    ensures ok { OnOk result (out.new.items ≡ out.old.items ++ spelling (binary bytes.now)) }
    ensures fault { (depth : ℕ) → Tells result (fault_of depth (binary bytes.now)) }
{
    begin(out, Kind::Bin, bytes.len())?;
    out.extend_from_slice(bytes)?;
    Ok(())
}

#[cycle(write)]
fn put_array(out: &mut Vec<u8>, depth: usize, items: &Vec<Value>) -> Result<(), MpError>
    ensures ok { OnOk result (out.new.items ≡ out.old.items ++ spelling (array (items_view items.now.items))) }
    ensures valid { OnOk result (AreValid (items_view items.now.items)) }
    ensures fault { Tells result (fault_of depth (array (items_view items.now.items))) }
{
    if depth == 0 {
        return Err(MpError::Depth);
    }
    begin(out, Kind::Array, items.len())?;
    put_items(out, depth - 1, items)
}

#[cycle(write)]
fn put_map(out: &mut Vec<u8>, depth: usize, pairs: &Vec<(Value, Value)>) -> Result<(), MpError>
    ensures ok { OnOk result (out.new.items ≡ out.old.items ++ spelling (dictionary (pairs_view pairs.now.items))) }
    ensures valid { OnOk result (PairsAreValid (pairs_view pairs.now.items)) }
    ensures fault { Tells result (fault_of depth (dictionary (pairs_view pairs.now.items))) }
{
    if depth == 0 {
        return Err(MpError::Depth);
    }
    begin(out, Kind::Map, pairs.len())?;
    put_pairs(out, depth - 1, pairs)
}

#[cycle(write)]
fn put_items(out: &mut Vec<u8>, depth: usize, items: &Vec<Value>) -> Result<(), MpError>
    ensures ok { OnOk result (out.new.items ≡ out.old.items ++ items_spelling (items_view items.now.items)) }
    ensures valid { OnOk result (AreValid (items_view items.now.items)) }
    ensures fault { Tells result (items_fault depth (items_view items.now.items)) }
{
    for item in items {
        put(out, depth, item)?;
    }
    Ok(())
}

#[cycle(write)]
fn put_pairs(out: &mut Vec<u8>, depth: usize, pairs: &Vec<(Value, Value)>) -> Result<(), MpError>
    ensures ok { OnOk result (out.new.items ≡ out.old.items ++ pairs_spelling (pairs_view pairs.now.items)) }
    ensures valid { OnOk result (PairsAreValid (pairs_view pairs.now.items)) }
    ensures fault { Tells result (pairs_fault depth (pairs_view pairs.now.items)) }
{
    for pair in pairs {
        put(out, depth, &pair.0)?;
        put(out, depth, &pair.1)?;
    }
    Ok(())
}

fn spelled(alloc: Global, value: &Value) -> Result<Vec<u8>, MpError>
    ensures ok { IfOk result (λ v. v.items ≡ spelling (view value.now)) }
    ensures valid { OnOk result (IsValid (view value.now)) }
    ensures fault { Tells result (fault_of max_depth (view value.now)) }
{
    let mut out = Vec::new(alloc);
    put(&mut out, MAX_DEPTH, value)?;
    Ok(out)
}

/// The shortest encoding of the value, with numbers that are not negative unsigned.
///
/// `Depth` is where more than 16 arrays and maps are open at once, and `Limit` where a length is above 2^27,
/// of bytes, of elements or of pairs: whichever comes first. What is written reads back as the same value,
/// whatever follows it. See the [MessagePack specification].
///
/// [MessagePack specification]: https://github.com/msgpack/msgpack/blob/master/spec.md
pub fn encode(alloc: Global, value: &Value) -> Result<Vec<u8>, MpError>
    // What is written encodes the value, and nothing shorter does.
    ensures encoded { IfOk result (λ v. Encodes (view value.now) v.items) }
    ensures shortest { IfOk result (λ v. (other : List ℕ) → Encodes (view value.now) other → length v.items ≤ length other) }
    ensures spelled { IfOk result (λ v. v.items ≡ spelling (view value.now)) }
    // It keeps the limits, and is read again.
    ensures within { OnOk result (IsWithin (view value.now)) }
    ensures read_back { IfOk result (λ v. (more : List ℕ) → outcome (v.items ++ more) ≡ Ok (view value.now, length v.items)) }
    // The first limit that the value breaks.
    ensures refused { IfErr result (IsFaultOf (view value.now)) }
{
    spelled(alloc, value)
}
