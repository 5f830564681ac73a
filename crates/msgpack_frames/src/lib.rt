//! MessagePack values and frame groups, as bytes.
//!
//! `encode` writes a value in its shortest form, and `decode` reads each form that the
//! [MessagePack specification] gives a value: floats, extensions and the reserved byte are refused at their
//! place. A `FrameReader` takes a stream in pieces and gives the frame groups in it. Nothing of the
//! repository stands below this crate; the messages of the cluster are values and frame groups.
//!
//! It carries the promise of part correctness for bytes: what `decode` reads is an encoding by the
//! specification, every encoding within the limits is read, whatever follows it, a refusal is the first one
//! from left to right, and a stream gives the same groups however it was cut into pieces.
//!
//! [MessagePack specification]: https://github.com/msgpack/msgpack/blob/master/spec.md
#![tactic(auto)]

mod decoder;
mod encoder;
mod error;
mod form;
mod group;
mod laws;
mod stream;
mod value;

pub use decoder::decode;
pub use encoder::encode;
pub use error::{FrameError, MpError};
pub use group::Frames;
pub use laws::{any_cut, one_value};
pub use stream::FrameReader;
pub use value::{Integer, Value};
