//! Why a value is no message.

use crate::field::Field;
use std::alloc::{AllocError, AllocFailed};
use thiserror::Error;

/// Why `from_value` gives no message.
#[derive(Clone, Copy, Debug, Error)]
pub enum WireError {
    /// The value is not a map.
    #[error("the value is not a map")]
    NotAMap,
    /// The text under `op` is the name of no operation.
    #[error("an unknown operation")]
    UnknownOp,
    /// A key that is the name of no field of the operation. `field` is the place of its pair in the map, from 0.
    #[error("pair {field} is no field of the operation")]
    Unknown { field: usize },
    /// A field of the operation is not there.
    #[error("the field {field} is missing")]
    Missing { field: Field },
    /// A field stands twice.
    #[error("the field {field} is repeated")]
    Repeated { field: Field },
    /// What stands under a field is of another type.
    #[error("the field {field} has another type")]
    WrongType { field: Field },
    /// A number that is negative or too large, or a text that names no role.
    #[error("the field {field} is out of range")]
    Range { field: Field },
    #[error("out of memory")]
    OutOfMemory,
}

impl From<AllocError> for WireError {
    ghost use Rattle.std.specs.Prelude.{◌≡◌};
    ghost use Rattle.wire_msgs.specs.declared.error.WireError.TheVariants.{OutOfMemory};

    ghost from_gives = { λ _ e. e ≡ OutOfMemory };

    fn from(_error: AllocError) -> WireError {
        WireError::OutOfMemory
    }
}

impl<T: Drop> From<AllocFailed<T>> for WireError {
    ghost use Rattle.std.specs.Prelude.{◌≡◌};
    ghost use Rattle.wire_msgs.specs.declared.error.WireError.TheVariants.{OutOfMemory};

    ghost from_gives = { λ _ e. e ≡ OutOfMemory };

    fn from(_error: AllocFailed<T>) -> WireError {
        WireError::OutOfMemory
    }
}

/// Why a value is no content of a field.
#[derive(Clone, Copy)]
pub(crate) enum PartError {
    WrongType,
    Range,
    OutOfMemory,
}

impl From<AllocError> for PartError {
    ghost use Rattle.std.specs.Prelude.{◌≡◌};
    ghost use Rattle.wire_msgs.specs.declared.error.PartError.TheVariants.{OutOfMemory};

    ghost from_gives = { λ _ e. e ≡ OutOfMemory };

    fn from(_error: AllocError) -> PartError {
        PartError::OutOfMemory
    }
}

impl<T: Drop> From<AllocFailed<T>> for PartError {
    ghost use Rattle.std.specs.Prelude.{◌≡◌};
    ghost use Rattle.wire_msgs.specs.declared.error.PartError.TheVariants.{OutOfMemory};

    ghost from_gives = { λ _ e. e ≡ OutOfMemory };

    fn from(_error: AllocFailed<T>) -> PartError {
        PartError::OutOfMemory
    }
}

impl PartError {
    ghost use Rattle.std.specs.Prelude.{◌≡◌};
    ghost use Rattle.wire_msgs.specs.Answers.{at};

    /// The refusal of a message whose field has this content.
    pub(crate) fn at(self, field: Field) -> WireError
        ensures { result ≡ at field self }
    {
        match self {
            PartError::WrongType => WireError::WrongType { field },
            PartError::Range => WireError::Range { field },
            PartError::OutOfMemory => WireError::OutOfMemory,
        }
    }
}
