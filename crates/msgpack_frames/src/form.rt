//! The first byte of a value.

ghost use Rattle.std.specs.Prelude.{◌≡◌};
ghost use Rattle.msgpack_frames.specs.Forms.{form};

/// How many bytes a number takes: 1, 2, 4 or 8.
#[derive(Clone, Copy)]
pub enum Size {
    One,
    Two,
    Four,
    Eight,
}

/// What has a length.
#[derive(Clone, Copy)]
pub enum Kind {
    Str,
    Bin,
    Array,
    Map,
}

/// What the first byte of a value says.
#[derive(Clone, Copy)]
pub enum Form {
    Nil,
    Bool(bool),
    /// The number stands in the first byte.
    Small(i8),
    /// An unsigned number follows.
    Unsigned(Size),
    /// A signed number follows.
    Signed(Size),
    /// The length stands in the first byte.
    Fixed(Kind, u8),
    /// The length follows, and after it what has this length.
    Sized(Kind, Size),
    Float,
    Ext,
    Reserved,
}

/// The form of a value that begins with this byte.
#[tactic(auto, unfolding(crate::specs::Forms::form))]
pub fn form_of(first: u8) -> Form
    ensures { result ≡ form first }
{
    match first {
        0x00..=0x7f | 0xe0..=0xff => Form::Small(first.cast_signed()),
        0x80..=0x8f => Form::Fixed(Kind::Map, first - 0x80),
        0x90..=0x9f => Form::Fixed(Kind::Array, first - 0x90),
        0xa0..=0xbf => Form::Fixed(Kind::Str, first - 0xa0),
        0xc0 => Form::Nil,
        0xc1 => Form::Reserved,
        0xc2 => Form::Bool(false),
        0xc3 => Form::Bool(true),
        0xc4 => Form::Sized(Kind::Bin, Size::One),
        0xc5 => Form::Sized(Kind::Bin, Size::Two),
        0xc6 => Form::Sized(Kind::Bin, Size::Four),
        0xca | 0xcb => Form::Float,
        0xc7..=0xc9 | 0xd4..=0xd8 => Form::Ext,
        0xcc => Form::Unsigned(Size::One),
        0xcd => Form::Unsigned(Size::Two),
        0xce => Form::Unsigned(Size::Four),
        0xcf => Form::Unsigned(Size::Eight),
        0xd0 => Form::Signed(Size::One),
        0xd1 => Form::Signed(Size::Two),
        0xd2 => Form::Signed(Size::Four),
        0xd3 => Form::Signed(Size::Eight),
        0xd9 => Form::Sized(Kind::Str, Size::One),
        0xda => Form::Sized(Kind::Str, Size::Two),
        0xdb => Form::Sized(Kind::Str, Size::Four),
        0xdc => Form::Sized(Kind::Array, Size::Two),
        0xdd => Form::Sized(Kind::Array, Size::Four),
        0xde => Form::Sized(Kind::Map, Size::Two),
        0xdf => Form::Sized(Kind::Map, Size::Four),
    }
}
