//! Reads the head of a file.
ghost use Rattle.std.specs.Prelude.{◌≡◌, ◌≤◌, ◌<◌, ◌+◌, ◌-◌, ◌*◌, ◌^◌, length, take, IfOk, IfErr, OnOk, IsErrOf, MatchOption};
ghost use Rattle.io_edge.specs.Cause.{Rose};
ghost use Rattle.io_edge.specs.Content.{size_of, file_at, OnTold};
ghost use Rattle.io_edge.specs.Given.{GivesMore, GivesOf};
ghost use Rattle.nd_shape.specs.Shape.{elements};
ghost use Rattle.npy_codec.specs.Files.{magic, CellType, HasFixed, HasHead, IsDescr, IsNotMagic, IsRefusedAs, data_bytes, fixed_of, header_limit, text_len_of};
ghost use Rattle.npy_codec.specs.Fronts.{DeclaresHead, FieldsRefusedAs, FixedRefusedAs, HasFront, IsHeadOfFields, IsHeadOfText, TextRefusedAs};
ghost use Rattle.npy_codec.specs.Regions.{IsWidth};

use crate::error::NpyError;
use crate::head::Head;
use crate::parts::read_part;
use io_edge::Store;
use nd_shape::Shape;
use npy_header::{HeaderError, HeaderFields, read_header_text};
use std::alloc::Global;

const MAGIC: [u8; 6] = [147, 78, 85, 77, 80, 89];

// The longest header that is read, in bytes.
const HEADER_LIMIT: u64 = 1048576;

// The first of six bytes that differs from the magic, or the end of fewer bytes.
fn differs_at(front: &[u8]) -> Option<usize>
    ensures { MatchOption result (take 6 front.now ≡ magic) (λ at. IsNotMagic front.now at) }
{
    for at in 0..6 {
        if at >= front.len() {
            return Some(at);
        }
        if front[at] != MAGIC[at] {
            return Some(at);
        }
    }
    None
}

// What the fixed bytes say: how many there are, whether the header is wide, and its length.
#[derive(Clone, Copy)]
struct Front {
    fixed: u64,
    wide: bool,
    len: u64,
}

// The length of the header, of which at most the twelve first bytes of the file are there.
fn text_len(major: u8, front: &[u8]) -> u64
    requires { fixed_of major ≤ length front.now }
    ensures value { result ≡ text_len_of major front.now }
    ensures small { result < 2 ^ 32 }
{
    let short = u64::from(front[8]) + 256 * u64::from(front[9]);
    if major == 1 {
        return short;
    }
    short + 65536 * u64::from(front[10]) + 16777216 * u64::from(front[11])
}

// What the first twelve bytes of a file say, or fewer where it ends before.
fn front_of(front: &[u8]) -> Result<Front, NpyError>
    requires { length front.now ≤ 12 }
    ensures value { IfOk result (λ f. HasFront f.wide f.fixed f.len front.now) }
    ensures refused { IfErr result (λ error. FixedRefusedAs front.now error) }
    ensures bytes { IsErrOf result NpyError.ReadFault → ⊥ }
{
    if let Some(at) = differs_at(front) {
        return Err(NpyError::NotNpy { at: at as u64 });
    }
    let has = front.len() as u64;
    if has < 8 {
        return Err(NpyError::Truncated { has, needs: 8 });
    }
    let major = front[6];
    let minor = front[7];
    if major == 0 {
        return Err(NpyError::Version { major, minor });
    }
    if major > 3 {
        return Err(NpyError::Version { major, minor });
    }
    if minor != 0 {
        return Err(NpyError::Version { major, minor });
    }
    let fixed = if major == 1 { 10 } else { 12 };
    if has < fixed {
        return Err(NpyError::Truncated { has, needs: fixed });
    }
    let len = text_len(major, front);
    if len > HEADER_LIMIT {
        return Err(NpyError::HeaderLimit { len });
    }
    Ok(Front {
        fixed,
        wide: major == 3,
        len,
    })
}

// How many bytes an element has by this string, and whether they are in big-endian order.
fn type_of(descr: &[u8]) -> Option<(u32, bool)>
    ensures { MatchOption result ((type : CellType) → IsDescr descr.now type → ⊥) (λ t. IsDescr descr.now (record { width = t.0; big = t.1 })) }
{
    if descr.len() != 3 {
        return None;
    }
    if descr[1] != b'i' {
        return None;
    }
    match (descr[0], descr[2]) {
        (b'<', b'8') => Some((8, false)),
        (b'>', b'8') => Some((8, true)),
        (b'<', b'4') => Some((4, false)),
        (b'>', b'4') => Some((4, true)),
        (b'<', b'2') => Some((2, false)),
        (b'>', b'2') => Some((2, true)),
        (b'|', b'1') => Some((1, false)),
        _ => None,
    }
}

// The head that a header's fields declare, for data at this offset.
fn head_of_fields(alloc: Global, fields: &HeaderFields, data_at: u64) -> Result<Head, NpyError>
    ensures declared { IfOk result (λ head. IsHeadOfFields fields.now data_at head) }
    ensures refused { IfErr result (λ error. FieldsRefusedAs fields.now error) }
    ensures bytes { IsErrOf result NpyError.ReadFault → ⊥ }
{
    let Some((width, big)) = type_of(fields.descr()) else {
        return Err(NpyError::Descr);
    };
    let dims = Vec::from_slice(alloc, fields.shape())?;
    match Shape::new(dims) {
        Ok(shape) => Ok(Head {
            shape,
            fortran: fields.fortran(),
            data_at,
            width,
            big,
        }),
        Err(_) => Err(NpyError::ShapeLimit),
    }
}

// The head that a header declares, which stands behind so many fixed bytes.
fn head_of_text(alloc: Global, wide: bool, fixed: u64, text: &[u8]) -> Result<Head, NpyError>
    requires few { fixed ≤ 12 }
    requires short { length text.now ≤ header_limit }
    ensures declared { IfOk result (λ head. IsHeadOfText wide fixed text.now head) }
    ensures refused { IfErr result (λ error. TextRefusedAs wide fixed text.now error) }
    ensures bytes { IsErrOf result NpyError.ReadFault → ⊥ }
{
    match read_header_text(alloc, wide, text) {
        Ok(fields) => head_of_fields(alloc, &fields, fixed + text.len() as u64),
        Err(HeaderError::Refused { at }) => Err(NpyError::HeaderText {
            at: fixed + at as u64,
        }),
        Err(HeaderError::OutOfMemory) => Err(NpyError::OutOfMemory),
    }
}

// What the fixed bytes of a file of this size say.
fn read_fixed<S: Store>(
    alloc: Global,
    store: &mut S,
    file: u32,
    size: u64,
) -> Result<Front, NpyError>
    requires there { file < length (S.files store.old) }
    requires size { size ≡ size_of (file_at (S.files store.old) file) }
    ensures same { S.files store.new ≡ S.files store.old }
    ensures named { S.names store.new ≡ S.names store.old }
    ensures gave { GivesMore (S.gave store.old) (S.gave store.new) }
    ensures later { S.count store.old ≤ S.count store.new }
    ensures kept { OnOk result (S.count store.new ≡ S.count store.old) }
    ensures long { IfOk result (λ f. f.fixed ≤ size) }
    ensures few { IfOk result (λ f. f.fixed ≤ 12) }
    ensures small { IfOk result (λ f. f.len ≤ header_limit) }
    ensures value { IfOk result (λ f. OnTold (file_at (S.files store.old) file) (HasFront f.wide f.fixed f.len)) }
    ensures given { IfOk result (λ f. GivesOf (S.names store.old) file (S.gave store.old) (S.gave store.new)
        (λ bytes. length bytes ≡ size → HasFront f.wide f.fixed f.len bytes)) }
    ensures given_refusal { IfErr result (λ error. GivesOf (S.names store.old) file (S.gave store.old) (S.gave store.new)
        (λ bytes. length bytes ≡ size → IsRefusedAs bytes error)) }
    ensures refused { IfErr result (λ error. OnTold (file_at (S.files store.old) file) (λ bytes. IsRefusedAs bytes error)) }
    ensures fault { IsErrOf result NpyError.ReadFault → Rose (S.count store.old) (S.count store.new) }
{
    let front = read_part(alloc, store, file, 0, size.min(12) as usize)?;
    front_of(&front)
}

// The head that the header of a file declares, whose fixed bytes say this.
fn read_text<S: Store>(
    alloc: Global,
    store: &mut S,
    file: u32,
    front: &Front,
) -> Result<Head, NpyError>
    requires there { file < length (S.files store.old) }
    requires few { front.now.fixed ≤ 12 }
    requires small { front.now.len ≤ header_limit }
    requires room { front.now.fixed + front.now.len ≤ size_of (file_at (S.files store.old) file) }
    requires value { OnTold (file_at (S.files store.old) file) (HasFront front.now.wide front.now.fixed front.now.len) }
    ensures same { S.files store.new ≡ S.files store.old }
    ensures named { S.names store.new ≡ S.names store.old }
    ensures gave { GivesMore (S.gave store.old) (S.gave store.new) }
    ensures later { S.count store.old ≤ S.count store.new }
    ensures kept { OnOk result (S.count store.new ≡ S.count store.old) }
    ensures width { IfOk result (λ head. IsWidth head.width) }
    ensures at { IfOk result (λ head. head.data_at ≡ front.now.fixed + front.now.len) }
    ensures declared { IfOk result (λ head. OnTold (file_at (S.files store.old) file) (λ bytes. DeclaresHead bytes head)) }
    ensures given { IfOk result (λ head. GivesOf (S.names store.old) file (S.gave store.old) (S.gave store.new)
        (λ bytes. HasFront front.now.wide front.now.fixed front.now.len bytes → front.now.fixed + front.now.len ≤ length bytes → DeclaresHead bytes head)) }
    ensures given_refusal { IfErr result (λ error. GivesOf (S.names store.old) file (S.gave store.old) (S.gave store.new)
        (λ bytes. HasFront front.now.wide front.now.fixed front.now.len bytes → front.now.fixed + front.now.len ≤ length bytes → IsRefusedAs bytes error)) }
    ensures refused { IfErr result (λ error. OnTold (file_at (S.files store.old) file) (λ bytes. IsRefusedAs bytes error)) }
    ensures fault { IsErrOf result NpyError.ReadFault → Rose (S.count store.old) (S.count store.new) }
{
    let text = read_part(alloc, store, file, front.fixed, front.len as usize)?;
    head_of_text(alloc, front.wide, front.fixed, &text)
}

/// Reads the head of a file of version 1.0, 2.0 or 3.0 (NEP 1) that holds an array of signed integers of 1, 2, 4 or 8 bytes,
/// or refuses it. The refusals are looked for in this order: the magic, the first eight bytes, the version, the fixed bytes,
/// the header's limit, its length, the header itself, its `descr`, its shape, and the length of the data. Bytes after the data
/// are ignored.
///
/// Whether or not the store tells what the file holds: the head, or the refusal, is that of whatever the file holds that gave
/// the pieces of this call.
pub fn read_head<S: Store>(alloc: Global, store: &mut S, file: u32) -> Result<Head, NpyError>
    requires there { file < length (S.files store.old) }
    ensures same { S.files store.new ≡ S.files store.old }
    ensures named { S.names store.new ≡ S.names store.old }
    ensures gave { GivesMore (S.gave store.old) (S.gave store.new) }
    ensures later { S.count store.old ≤ S.count store.new }
    ensures kept { OnOk result (S.count store.new ≡ S.count store.old) }
    ensures head { IfOk result (λ head. OnTold (file_at (S.files store.old) file) (λ bytes. HasHead bytes head)) }
    ensures given { IfOk result (λ head. GivesOf (S.names store.old) file (S.gave store.old) (S.gave store.new) (λ bytes. HasHead bytes head)) }
    ensures given_refusal { IfErr result (λ error. GivesOf (S.names store.old) file (S.gave store.old) (S.gave store.new) (λ bytes. IsRefusedAs bytes error)) }
    ensures width { IfOk result (λ head. IsWidth head.width) }
    ensures near { IfOk result (λ head. head.data_at ≤ 1048588) }
    ensures room { IfOk result (λ head. head.data_at + data_bytes head ≤ size_of (file_at (S.files store.old) file)) }
    ensures refused { IfErr result (λ error. OnTold (file_at (S.files store.old) file) (λ bytes. IsRefusedAs bytes error)) }
    ensures fault { IsErrOf result NpyError.ReadFault → Rose (S.count store.old) (S.count store.new) }
{
    let size = store.len(file)?;
    let front = read_fixed(alloc, store, file, size)?;
    let needs = front.len;
    let has = size - front.fixed;
    if has < needs {
        return Err(NpyError::Truncated { has, needs });
    }
    let head = read_text(alloc, store, file, &front)?;
    let needs = u64::from(head.width) * head.shape.elements();
    let has = size - head.data_at;
    if has < needs {
        return Err(NpyError::Truncated { has, needs });
    }
    Ok(head)
}
