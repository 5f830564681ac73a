//! The messages, one variant per kind, with the fields in the order in which they are sent.
//!
//! Most have the names of Dask.distributed ("Scheduling State" and "Worker State Machine" of its documentation). Which
//! there are, and their fields, is this project's own choice. A key, a worker and a client are numbers, keys from 0 and
//! the others from 1. Attempts and copies are drawn from one counter of the scheduler, which gives no number twice.
ghost use Rattle.std.specs.Prelude.{◌≡◌, IfOk};

use crate::lists::{Holders, KeyList, WhoHas};
use std::alloc::AllocError;

/// From the scheduler to a worker.
#[derive(Drop)]
pub enum Down {
    ComputeTask {
        key: u32,
        attempt: u64,
        who_has: WhoHas,
    },
    FreeKeys {
        keys: KeyList,
    },
    StealRequest {
        key: u32,
        attempt: u64,
    },
    RemoveReplicas {
        keys: KeyList,
    },
    AcquireReplicas {
        who_has: WhoHas,
    },
    RefreshWhoHas {
        who_has: WhoHas,
    },
}

/// From a worker to the scheduler. `seen` is the number of messages from the scheduler that the worker had taken when
/// it sent this one.
#[derive(Drop)]
pub enum Up {
    TaskFinished {
        seen: u64,
        key: u32,
        attempt: u64,
    },
    TaskErred {
        seen: u64,
        key: u32,
        attempt: u64,
    },
    AddKeys {
        seen: u64,
        keys: KeyList,
    },
    ReleaseWorkerData {
        seen: u64,
        key: u32,
    },
    MissingData {
        seen: u64,
        key: u32,
        holder: u32,
        copy: u64,
    },
    RequestRefreshWhoHas {
        seen: u64,
        key: u32,
    },
    StealResponse {
        seen: u64,
        key: u32,
        attempt: u64,
        yes: bool,
    },
}

/// From the scheduler to a client. `blame` is a key whose own operation failed.
#[derive(Drop)]
pub enum ToClient {
    KeyInMemory { key: u32, holders: Holders },
    LostData { key: u32 },
    ClientTaskErred { key: u32, blame: u32 },
}

/// From a client to the scheduler.
#[derive(Drop)]
pub enum FromClient {
    Want { keys: KeyList },
    Release { keys: KeyList },
    Missing { key: u32, holder: u32, copy: u64 },
}

/// Between those who ask for blocks and those who hold them. `found` are those of the asked keys that were there.
#[derive(Drop)]
pub enum Peer {
    GetData { ask: u64, keys: KeyList },
    Data { ask: u64, found: KeyList },
}

/// What the end of a connection is to the other end.
#[derive(Clone, Copy)]
pub enum Role {
    Scheduler,
    Worker,
    Client,
}

/// Any message, without blocks. `Hello` is the first of a connection.
#[derive(Drop)]
pub enum Message {
    Down(Down),
    Up(Up),
    ToClient(ToClient),
    FromClient(FromClient),
    Peer(Peer),
    Hello { role: Role, id: u32 },
}

impl Down {
    /// An equal message of its own.
    ///
    /// # Errors
    /// Where no memory is left.
    pub fn copy(&self) -> Result<Down, AllocError>
        ensures { IfOk result (λ copy. copy ≡ self.now) }
    {
        Ok(match self {
            Down::ComputeTask {
                key,
                attempt,
                who_has,
            } => Down::ComputeTask {
                key: *key,
                attempt: *attempt,
                who_has: who_has.copy()?,
            },
            Down::FreeKeys { keys } => Down::FreeKeys { keys: keys.copy()? },
            Down::StealRequest { key, attempt } => Down::StealRequest {
                key: *key,
                attempt: *attempt,
            },
            Down::RemoveReplicas { keys } => Down::RemoveReplicas { keys: keys.copy()? },
            Down::AcquireReplicas { who_has } => Down::AcquireReplicas {
                who_has: who_has.copy()?,
            },
            Down::RefreshWhoHas { who_has } => Down::RefreshWhoHas {
                who_has: who_has.copy()?,
            },
        })
    }
}

impl Up {
    /// An equal message of its own.
    ///
    /// # Errors
    /// Where no memory is left.
    pub fn copy(&self) -> Result<Up, AllocError>
        ensures { IfOk result (λ copy. copy ≡ self.now) }
    {
        Ok(match self {
            Up::TaskFinished { seen, key, attempt } => Up::TaskFinished {
                seen: *seen,
                key: *key,
                attempt: *attempt,
            },
            Up::TaskErred { seen, key, attempt } => Up::TaskErred {
                seen: *seen,
                key: *key,
                attempt: *attempt,
            },
            Up::AddKeys { seen, keys } => Up::AddKeys {
                seen: *seen,
                keys: keys.copy()?,
            },
            Up::ReleaseWorkerData { seen, key } => Up::ReleaseWorkerData {
                seen: *seen,
                key: *key,
            },
            Up::MissingData {
                seen,
                key,
                holder,
                copy,
            } => Up::MissingData {
                seen: *seen,
                key: *key,
                holder: *holder,
                copy: *copy,
            },
            Up::RequestRefreshWhoHas { seen, key } => Up::RequestRefreshWhoHas {
                seen: *seen,
                key: *key,
            },
            Up::StealResponse {
                seen,
                key,
                attempt,
                yes,
            } => Up::StealResponse {
                seen: *seen,
                key: *key,
                attempt: *attempt,
                yes: *yes,
            },
        })
    }
}

impl ToClient {
    /// An equal message of its own.
    ///
    /// # Errors
    /// Where no memory is left.
    pub fn copy(&self) -> Result<ToClient, AllocError>
        ensures { IfOk result (λ copy. copy ≡ self.now) }
    {
        Ok(match self {
            ToClient::KeyInMemory { key, holders } => ToClient::KeyInMemory {
                key: *key,
                holders: holders.copy()?,
            },
            ToClient::LostData { key } => ToClient::LostData { key: *key },
            ToClient::ClientTaskErred { key, blame } => ToClient::ClientTaskErred {
                key: *key,
                blame: *blame,
            },
        })
    }
}

impl FromClient {
    /// An equal message of its own.
    ///
    /// # Errors
    /// Where no memory is left.
    pub fn copy(&self) -> Result<FromClient, AllocError>
        ensures { IfOk result (λ copy. copy ≡ self.now) }
    {
        Ok(match self {
            FromClient::Want { keys } => FromClient::Want { keys: keys.copy()? },
            FromClient::Release { keys } => FromClient::Release { keys: keys.copy()? },
            FromClient::Missing { key, holder, copy } => FromClient::Missing {
                key: *key,
                holder: *holder,
                copy: *copy,
            },
        })
    }
}

impl Peer {
    /// An equal message of its own.
    ///
    /// # Errors
    /// Where no memory is left.
    pub fn copy(&self) -> Result<Peer, AllocError>
        ensures { IfOk result (λ copy. copy ≡ self.now) }
    {
        Ok(match self {
            Peer::GetData { ask, keys } => Peer::GetData {
                ask: *ask,
                keys: keys.copy()?,
            },
            Peer::Data { ask, found } => Peer::Data {
                ask: *ask,
                found: found.copy()?,
            },
        })
    }
}

impl Message {
    /// An equal message of its own.
    ///
    /// # Errors
    /// Where no memory is left.
    pub fn copy(&self) -> Result<Message, AllocError>
        ensures { IfOk result (λ copy. copy ≡ self.now) }
    {
        Ok(match self {
            Message::Down(down) => Message::Down(down.copy()?),
            Message::Up(up) => Message::Up(up.copy()?),
            Message::ToClient(to_client) => Message::ToClient(to_client.copy()?),
            Message::FromClient(from_client) => Message::FromClient(from_client.copy()?),
            Message::Peer(peer) => Message::Peer(peer.copy()?),
            Message::Hello { role, id } => Message::Hello {
                role: *role,
                id: *id,
            },
        })
    }
}
