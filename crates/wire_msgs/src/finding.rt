//! Looking things up in the pairs of a map.

ghost use Rattle.std.specs.Prelude.{◌≡◌, length, is_some};
ghost use Rattle.std.specs.List.{find};
ghost use Rattle.std.specs.Option.{option_map};
ghost use Rattle.msgpack_frames.specs.View.{view};
ghost use Rattle.wire_msgs.specs.Answers.{at, Answers};
ghost use Rattle.wire_msgs.specs.Finding.{names, under, flaw_of, field_fault, pair_fault, fault_at, first_below};
ghost use Rattle.wire_msgs.specs.Messages.{operation_of, found};
ghost use Rattle.wire_msgs.specs.Seen.{seen, seen_pair};

use crate::error::{PartError, WireError};
use crate::field::Field;
use crate::operation::Operation;
use crate::part::Part;
use cluster_msgs::{Holders, KeyList, Role, WhoHas};
use msgpack_frames::Value;
use std::alloc::Global;

/// Whether a key is the name of this field.
fn names(field: Field, key: &Value) -> bool
    ensures { result ≡ names field (view key.now) }
{
    match key {
        Value::Str(text) => text.as_str() == field.name(),
        _ => false,
    }
}

/// What stands first under this field.
fn under(field: Field, pairs: &[(Value, Value)]) -> Option<&Value>
    ensures { option_map (λ v. view v.now) result ≡ under field (seen pairs.now) }
{
    for pair in pairs {
        if names(field, &pair.0) {
            return Some(&pair.1);
        }
    }
    None
}

/// The first of these fields whose name the key is.
fn first_named(fields: &[Field], key: &Value) -> Option<Field>
    ensures { result ≡ find (λ f. names f (view key.now)) fields.now }
{
    for field in fields {
        if names(*field, key) {
            return Some(*field);
        }
    }
    None
}

/// Why what stands under this field is no content of it.
#[tactic(auto, unfolding(crate::specs::Finding::flaw_of))]
fn flaw_of(field: Field, value: &Value) -> Option<PartError>
    ensures { result ≡ flaw_of field (view value.now) }
{
    match field {
        Field::Op => None,
        Field::Seen | Field::Attempt | Field::Copy | Field::Ask => u64::flaw(value),
        Field::Key | Field::Holder | Field::Blame | Field::Id => u32::flaw(value),
        Field::Keys | Field::Found => KeyList::flaw(value),
        Field::Holders => Holders::flaw(value),
        Field::WhoHas => WhoHas::flaw(value),
        Field::Yes => bool::flaw(value),
        Field::Role => Role::flaw(value),
    }
}

/// Whether something stands under this field.
fn stands(field: Field, pairs: &[(Value, Value)]) -> bool
    ensures { result ≡ is_some (under field (seen pairs.now)) }
{
    under(field, pairs).is_some()
}

fn flaw_at(field: Field, value: &Value) -> Option<WireError>
    ensures { result ≡ option_map (at field) (flaw_of field (view value.now)) }
{
    match flaw_of(field, value) {
        None => None,
        Some(flaw) => Some(flaw.at(field)),
    }
}

/// What is wrong with this field, after the pairs before it.
#[tactic(auto, unfolding(crate::specs::Finding::field_fault))]
fn field_fault(field: Field, earlier: &[(Value, Value)], value: &Value) -> Option<WireError>
    ensures { result ≡ field_fault field (seen earlier.now) (view value.now) }
{
    if stands(field, earlier) {
        return Some(WireError::Repeated { field });
    }
    flaw_at(field, value)
}

/// What is wrong with a pair, by its place and the pairs before it.
#[tactic(auto, unfolding(crate::specs::Finding::pair_fault))]
fn pair_fault(
    operation: Operation,
    place: usize,
    earlier: &[(Value, Value)],
    pair: &(Value, Value),
) -> Option<WireError>
    ensures { result ≡ pair_fault operation place (seen earlier.now) (seen_pair pair.now) }
{
    match first_named(operation.fields(), &pair.0) {
        None => Some(WireError::Unknown { field: place }),
        Some(field) => field_fault(field, earlier, &pair.1),
    }
}

/// The first pair at fault.
pub(crate) fn first_fault(operation: Operation, pairs: &[(Value, Value)]) -> Option<WireError>
    ensures { result ≡ first_below (fault_at operation (seen pairs.now)) (length pairs.now) }
{
    for (place, pair) in pairs.iter().enumerate() {
        if let Some(fault) = pair_fault(operation, place, &pairs[..place], pair) {
            return Some(fault);
        }
    }
    None
}

/// The operation, by the text under `op`.
#[tactic(auto, unfolding(crate::specs::Messages::operation_of))]
pub(crate) fn operation_of(pairs: &[(Value, Value)]) -> Result<Operation, WireError>
    ensures { result ≡ operation_of (seen pairs.now) }
{
    match under(Field::Op, pairs) {
        None => Err(WireError::Missing { field: Field::Op }),
        Some(Value::Str(text)) => Operation::named(text.as_str()).ok_or(WireError::UnknownOp),
        Some(_) => Err(WireError::WrongType { field: Field::Op }),
    }
}

/// The content of a field.
#[tactic(auto, unfolding(crate::specs::Messages::found))]
pub(crate) fn found<T: Part>(
    alloc: Global,
    field: Field,
    pairs: &[(Value, Value)],
) -> Result<T, WireError>
    ensures { Answers result (found field T.parsed (seen pairs.now)) }
{
    let Some(value) = under(field, pairs) else {
        return Err(WireError::Missing { field });
    };
    match T::read(alloc, value) {
        Ok(part) => Ok(part),
        Err(error) => Err(error.at(field)),
    }
}
