//! Lists and pairs as contents of fields: a list is an array, a pair an array of exactly two.

ghost use Rattle.std.specs.Prelude.{◌≡◌, OnOk, IfOk, Ok, map};
ghost use Rattle.std.specs.Option.{option_map};
ghost use Rattle.std.specs.Result.{result_err};
ghost use Rattle.msgpack_frames.specs.View.{view, items_of, items_view};
ghost use Rattle.wire_msgs.specs.Answers.{Tells};
ghost use Rattle.wire_msgs.specs.Parts.{members_in, two_of, two_in, both};

use crate::error::PartError;
use crate::part::Part;
use cluster_msgs::Sequence;
use msgpack_frames::Value;
use std::alloc::{AllocError, Global};

impl<T: Part> Part for Sequence<T> {
    ghost use Rattle.wire_msgs.specs.Parts.{list_data, list_in};

    ghost written = { list_data T.written };

    ghost parsed = { list_in T.parsed };

    fn write(&self, alloc: Global) -> Result<Value, AllocError> {
        Ok(Value::Array(write_members(alloc, self.as_slice())?))
    }

    fn flaw(value: &Value) -> Option<PartError> {
        match value {
            Value::Array(items) => first_flaw::<T>(items),
            _ => Some(PartError::WrongType),
        }
    }

    fn read(alloc: Global, value: &Value) -> Result<Sequence<T>, PartError> {
        match value {
            Value::Array(items) => read_members(alloc, items),
            _ => Err(PartError::WrongType),
        }
    }
}

fn write_members<T: Part>(alloc: Global, parts: &[T]) -> Result<Vec<Value>, AllocError>
    ensures written { IfOk result (λ v. items_view v.items ≡ items_of (map T.written parts.now)) }
    ensures read_back { OnOk result (members_in T.parsed (items_of (map T.written parts.now)) ≡ Ok parts.now) }
{
    let mut items = Vec::with_capacity(alloc, parts.len())?;
    for part in parts {
        items.push(part.write(alloc)?)?;
    }
    Ok(items)
}

/// Why the first member that is none is none.
fn first_flaw<T: Part>(items: &[Value]) -> Option<PartError>
    ensures { result ≡ result_err (members_in T.parsed (items_view items.now)) }
{
    for item in items {
        if let Some(flaw) = T::flaw(item) {
            return Some(flaw);
        }
    }
    None
}

fn read_members<T: Part>(alloc: Global, items: &[Value]) -> Result<Sequence<T>, PartError>
    ensures { Tells result (members_in T.parsed (items_view items.now)) }
{
    let mut parts = Vec::with_capacity(alloc, items.len())?;
    for item in items {
        parts.push(T::read(alloc, item)?)?;
    }
    Ok(Sequence::from_vec(parts))
}

impl<A: Part, B: Part> Part for (A, B) {
    ghost use Rattle.wire_msgs.specs.Parts.{pair_data, pair_in};

    ghost written = { pair_data A.written B.written };

    ghost parsed = { pair_in A.parsed B.parsed };

    fn write(&self, alloc: Global) -> Result<Value, AllocError> {
        let first = self.0.write(alloc)?;
        let second = self.1.write(alloc)?;
        let mut items = Vec::with_capacity(alloc, 2)?;
        items.push(first)?;
        items.push(second)?;
        Ok(Value::Array(items))
    }

    fn flaw(value: &Value) -> Option<PartError> {
        match value {
            Value::Array(items) => flaw_of_two::<A, B>(items),
            _ => Some(PartError::WrongType),
        }
    }

    fn read(alloc: Global, value: &Value) -> Result<(A, B), PartError> {
        match value {
            Value::Array(items) => read_two(alloc, items),
            _ => Err(PartError::WrongType),
        }
    }
}

/// The two members of an array of two.
fn two_of(items: &[Value]) -> Option<(&Value, &Value)>
    ensures { option_map (λ p. (view p.0.now, view p.1.now)) result ≡ two_of (items_view items.now) }
{
    if items.len() != 2 {
        return None;
    }
    Some((&items[0], &items[1]))
}

fn flaw_of_two<A: Part, B: Part>(items: &[Value]) -> Option<PartError>
    ensures { result ≡ result_err (two_in A.parsed B.parsed (items_view items.now)) }
{
    let Some((first, second)) = two_of(items) else {
        return Some(PartError::WrongType);
    };
    A::flaw(first).or(B::flaw(second))
}

fn read_two<A: Part, B: Part>(alloc: Global, items: &[Value]) -> Result<(A, B), PartError>
    ensures { Tells result (two_in A.parsed B.parsed (items_view items.now)) }
{
    let Some((first, second)) = two_of(items) else {
        return Err(PartError::WrongType);
    };
    read_each(alloc, first, second)
}

fn read_each<A: Part, B: Part>(
    alloc: Global,
    first: &Value,
    second: &Value,
) -> Result<(A, B), PartError>
    ensures { Tells result (both (A.parsed (view first.now)) (B.parsed (view second.now))) }
{
    let first = A::read(alloc, first)?;
    let second = B::read(alloc, second)?;
    Ok((first, second))
}
