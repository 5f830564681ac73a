//! What stands under a field: numbers, truth values, and lists and pairs of what stands there.

ghost use Rattle.std.specs.Prelude.{◌≡◌, OnOk, IfOk, Ok, ◌<◌};
ghost use Rattle.std.specs.Result.{result_err};
ghost use Rattle.msgpack_frames.specs.View.{view};
ghost use Rattle.wire_msgs.specs.Answers.{Tells};
ghost use Rattle.wire_msgs.specs.Parts.{key_in, count_in, truth_in, role_in, role_named, role_name};

use crate::error::PartError;
use cluster_msgs::Role;
use msgpack_frames::{Integer, Value};
use std::alloc::{AllocError, Global};

/// The content of a field.
pub(crate) trait Part: Drop {
    ghost use Rattle.std.specs.Prelude.{Result};
    ghost use Rattle.msgpack_frames.specs.Data.{Data};
    ghost use Rattle.wire_msgs.specs.declared.error.PartError.{PartError};

    /// How it is written.
    ghost written: { Self → Data };

    /// What a value is as such a content, or why it is none.
    ghost parsed: { Data → Result Self PartError };

    /// The value, which reads as the same content.
    fn write(&self, alloc: Global) -> Result<Value, AllocError>
        ensures written { IfOk result (λ v. view v ≡ written self.now) }
        ensures read_back { OnOk result (parsed (written self.now) ≡ Ok self.now) };

    /// Why the value is no such content, if it is none. It takes no memory.
    fn flaw(value: &Value) -> Option<PartError>
        ensures { result ≡ result_err (parsed (view value.now)) };

    /// The content that the value is.
    fn read(alloc: Global, value: &Value) -> Result<Self, PartError>
        ensures { Tells result (parsed (view value.now)) };
}

/// The number that the value is.
#[tactic(auto, unfolding(crate::specs::Parts::count_in))]
fn count_of(value: &Value) -> Result<u64, PartError>
    ensures value { result ≡ count_in (view value.now) }
{
    let Value::Int(integer) = value else {
        return Err(PartError::WrongType);
    };
    let number = integer.get();
    if number < 0 {
        return Err(PartError::Range);
    }
    Ok(number as u64)
}

#[tactic(auto, unfolding(crate::specs::Parts::count_in, crate::specs::Parts::key_in))]
fn key_of(value: &Value) -> Result<u32, PartError>
    ensures value { result ≡ key_in (view value.now) }
{
    let number = count_of(value)?;
    if number >= 1 << 32 {
        return Err(PartError::Range);
    }
    Ok(number as u32)
}

impl Part for u64 {
    ghost use Rattle.wire_msgs.specs.Parts.{number, count_in};

    ghost written = { number };

    ghost parsed = { count_in };

    #[tactic(auto, unfolding(crate::specs::Parts::count_in))]
    fn write(&self, _alloc: Global) -> Result<Value, AllocError> {
        Ok(Value::Int(Integer::unsigned(*self)))
    }

    fn flaw(value: &Value) -> Option<PartError> {
        count_of(value).err()
    }

    fn read(_alloc: Global, value: &Value) -> Result<u64, PartError> {
        count_of(value)
    }
}

impl Part for u32 {
    ghost use Rattle.wire_msgs.specs.Parts.{number, key_in};

    ghost written = { number };

    ghost parsed = { key_in };

    #[tactic(auto, unfolding(crate::specs::Parts::key_in))]
    fn write(&self, _alloc: Global) -> Result<Value, AllocError> {
        Ok(Value::Int(Integer::unsigned(u64::from(*self))))
    }

    fn flaw(value: &Value) -> Option<PartError> {
        key_of(value).err()
    }

    fn read(_alloc: Global, value: &Value) -> Result<u32, PartError> {
        key_of(value)
    }
}

fn truth_of(value: &Value) -> Result<bool, PartError>
    ensures { result ≡ truth_in (view value.now) }
{
    match value {
        Value::Bool(truth) => Ok(*truth),
        _ => Err(PartError::WrongType),
    }
}

impl Part for bool {
    ghost use Rattle.msgpack_frames.specs.Data.{boolean};
    ghost use Rattle.wire_msgs.specs.Parts.{truth_in};

    ghost written = { boolean };

    ghost parsed = { truth_in };

    fn write(&self, _alloc: Global) -> Result<Value, AllocError> {
        Ok(Value::Bool(*self))
    }

    fn flaw(value: &Value) -> Option<PartError> {
        truth_of(value).err()
    }

    fn read(_alloc: Global, value: &Value) -> Result<bool, PartError> {
        truth_of(value)
    }
}

fn role_of(value: &Value) -> Result<Role, PartError>
    ensures { result ≡ role_in (view value.now) }
{
    let Value::Str(text) = value else {
        return Err(PartError::WrongType);
    };
    role_named(text.as_str()).ok_or(PartError::Range)
}

/// The role of this name.
#[tactic(auto, unfolding(crate::specs::Parts::role_named, crate::specs::Parts::role_name))]
fn role_named(text: &str) -> Option<Role>
    ensures { result ≡ role_named text.now }
{
    match text {
        "scheduler" => Some(Role::Scheduler),
        "worker" => Some(Role::Worker),
        "client" => Some(Role::Client),
        _ => None,
    }
}

#[tactic(auto, unfolding(crate::specs::Parts::role_name))]
fn role_name(role: Role) -> &'static str
    ensures { result.now ≡ role_name role }
{
    match role {
        Role::Scheduler => "scheduler",
        Role::Worker => "worker",
        Role::Client => "client",
    }
}

impl Part for Role {
    ghost use Rattle.wire_msgs.specs.Parts.{role_data, role_in};

    ghost written = { role_data };

    ghost parsed = { role_in };

    #[tactic(auto, unfolding(crate::specs::Parts::role_named, crate::specs::Parts::role_name))]
    fn write(&self, alloc: Global) -> Result<Value, AllocError> {
        Ok(Value::Str(String::from_str(alloc, role_name(*self))?))
    }

    fn flaw(value: &Value) -> Option<PartError> {
        role_of(value).err()
    }

    fn read(_alloc: Global, value: &Value) -> Result<Role, PartError> {
        role_of(value)
    }
}
