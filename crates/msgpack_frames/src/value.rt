//! The values that MessagePack carries, without floats and extensions.

ghost use Rattle.std.specs.Prelude.{◌≡◌, SomeIff};

use std::marker::Model;

/// A whole number from -2^63 to 2^64 - 1: what the integer forms of MessagePack can hold.
#[derive(Clone, Copy)]
pub struct Integer {
    number: i128,
}

impl Model for Integer {
    ghost use Rattle.std.specs.Prelude.{ℤ};
    ghost use Rattle.msgpack_frames.specs.Data.{IsInRange};

    ghost Value = { ℤ };

    ghost view = { λ n. n.number };

    ghost invariant = { λ n. IsInRange n.number };

    ghost inverse = { λ z. record { number = z } };
}

impl Integer {
    ghost use Rattle.std.specs.Prelude.{ℤ, pos};
    ghost use Rattle.msgpack_frames.specs.Data.{IsInRange};

    /// `number` as an `Integer`, or `None` where it is out of range.
    pub fn new(number: i128) -> Option<Self>
        ensures { SomeIff result (IsInRange number) number }
    {
        if number < -(1 << 63) || number >= 1 << 64 {
            return None;
        }
        Some(Integer { number })
    }

    /// The unsigned number `number`.
    pub fn unsigned(number: u64) -> Self
        ensures { result ≡ pos number }
    {
        Integer {
            number: i128::from(number),
        }
    }

    /// The signed number `number`.
    pub fn signed(number: i64) -> Self
        ensures { result ≡ number }
    {
        Integer {
            number: i128::from(number),
        }
    }

    /// The number.
    pub fn get(self) -> i128
        ensures value { result ≡ self }
        ensures range { IsInRange self }
    {
        self.number
    }
}

/// A MessagePack value that is neither a float nor an extension.
///
/// Strings are UTF-8. A map is its pairs in order: any value may be a key, and a key may come twice.
/// See <https://github.com/msgpack/msgpack/blob/master/spec.md>.
#[derive(Drop)]
pub enum Value {
    Nil,
    Bool(bool),
    Int(Integer),
    Str(String),
    Bin(Vec<u8>),
    Array(Vec<Value>),
    Map(Vec<(Value, Value)>),
}
