//! The operations of messages, and the fields of each.

ghost use Rattle.std.specs.Prelude.{◌≡◌};
ghost use Rattle.std.specs.List.{find};
ghost use Rattle.std.specs.Str.{bytes_eq};
ghost use Rattle.wire_msgs.specs.Names.{op_name, operations, operation_named, fields_of};

use crate::field::Field;

/// What a message is, by the name under `op`.
#[derive(Clone, Copy)]
pub(crate) enum Operation {
    ComputeTask,
    FreeKeys,
    StealRequest,
    RemoveReplicas,
    AcquireReplicas,
    RefreshWhoHas,
    TaskFinished,
    TaskErred,
    AddKeys,
    ReleaseWorkerData,
    MissingData,
    RequestRefreshWhoHas,
    StealResponse,
    KeyInMemory,
    LostData,
    ClientTaskErred,
    Want,
    Release,
    Missing,
    GetData,
    Data,
    Hello,
}

const OPERATIONS: [Operation; 22] = [
    Operation::ComputeTask,
    Operation::FreeKeys,
    Operation::StealRequest,
    Operation::RemoveReplicas,
    Operation::AcquireReplicas,
    Operation::RefreshWhoHas,
    Operation::TaskFinished,
    Operation::TaskErred,
    Operation::AddKeys,
    Operation::ReleaseWorkerData,
    Operation::MissingData,
    Operation::RequestRefreshWhoHas,
    Operation::StealResponse,
    Operation::KeyInMemory,
    Operation::LostData,
    Operation::ClientTaskErred,
    Operation::Want,
    Operation::Release,
    Operation::Missing,
    Operation::GetData,
    Operation::Data,
    Operation::Hello,
];

impl Operation {
    /// The name, as it stands under `op`.
    #[tactic(auto, unfolding(crate::specs::Names::op_name))]
    pub(crate) fn name(self) -> &'static str
        ensures { result.now ≡ op_name self }
    {
        match self {
            Operation::ComputeTask => "compute-task",
            Operation::FreeKeys => "free-keys",
            Operation::StealRequest => "steal-request",
            Operation::RemoveReplicas => "remove-replicas",
            Operation::AcquireReplicas => "acquire-replicas",
            Operation::RefreshWhoHas => "refresh-who-has",
            Operation::TaskFinished => "task-finished",
            Operation::TaskErred => "task-erred",
            Operation::AddKeys => "add-keys",
            Operation::ReleaseWorkerData => "release-worker-data",
            Operation::MissingData => "missing-data",
            Operation::RequestRefreshWhoHas => "request-refresh-who-has",
            Operation::StealResponse => "steal-response",
            Operation::KeyInMemory => "key-in-memory",
            Operation::LostData => "lost-data",
            Operation::ClientTaskErred => "client-task-erred",
            Operation::Want => "want",
            Operation::Release => "release",
            Operation::Missing => "missing",
            Operation::GetData => "get-data",
            Operation::Data => "data",
            Operation::Hello => "hello",
        }
    }

    /// The operation of this name.
    #[tactic(auto, unfolding(crate::specs::Names::operation_named, crate::specs::Names::operations))]
    pub(crate) fn named(text: &str) -> Option<Operation>
        ensures { result ≡ operation_named text.now }
    {
        first_named(&OPERATIONS, text)
    }

    /// The fields of a message, in the order in which they are written.
    #[tactic(auto, unfolding(crate::specs::Names::fields_of))]
    pub(crate) fn fields(self) -> &'static [Field]
        ensures { result.now ≡ fields_of self }
    {
        match self {
            Operation::ComputeTask => &[Field::Op, Field::Key, Field::Attempt, Field::WhoHas],
            Operation::FreeKeys => &[Field::Op, Field::Keys],
            Operation::StealRequest => &[Field::Op, Field::Key, Field::Attempt],
            Operation::RemoveReplicas => &[Field::Op, Field::Keys],
            Operation::AcquireReplicas => &[Field::Op, Field::WhoHas],
            Operation::RefreshWhoHas => &[Field::Op, Field::WhoHas],
            Operation::TaskFinished => &[Field::Op, Field::Seen, Field::Key, Field::Attempt],
            Operation::TaskErred => &[Field::Op, Field::Seen, Field::Key, Field::Attempt],
            Operation::AddKeys => &[Field::Op, Field::Seen, Field::Keys],
            Operation::ReleaseWorkerData => &[Field::Op, Field::Seen, Field::Key],
            Operation::MissingData => &[
                Field::Op,
                Field::Seen,
                Field::Key,
                Field::Holder,
                Field::Copy,
            ],
            Operation::RequestRefreshWhoHas => &[Field::Op, Field::Seen, Field::Key],
            Operation::StealResponse => &[
                Field::Op,
                Field::Seen,
                Field::Key,
                Field::Attempt,
                Field::Yes,
            ],
            Operation::KeyInMemory => &[Field::Op, Field::Key, Field::Holders],
            Operation::LostData => &[Field::Op, Field::Key],
            Operation::ClientTaskErred => &[Field::Op, Field::Key, Field::Blame],
            Operation::Want => &[Field::Op, Field::Keys],
            Operation::Release => &[Field::Op, Field::Keys],
            Operation::Missing => &[Field::Op, Field::Key, Field::Holder, Field::Copy],
            Operation::GetData => &[Field::Op, Field::Ask, Field::Keys],
            Operation::Data => &[Field::Op, Field::Ask, Field::Found],
            Operation::Hello => &[Field::Op, Field::Role, Field::Id],
        }
    }
}

/// The first of these operations with this name.
fn first_named(operations: &[Operation], text: &str) -> Option<Operation>
    ensures { result ≡ find (λ o. bytes_eq text.now (op_name o)) operations.now }
{
    for operation in operations {
        if text == operation.name() {
            return Some(*operation);
        }
    }
    None
}
