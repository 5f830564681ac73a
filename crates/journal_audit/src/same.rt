//! Whether two messages are equal.
ghost use Rattle.std.specs.Prelude.{◌≡◌, ◌↔◌, IsTrue};
ghost use Rattle.std.specs.Option.{option_copied};

use cluster_msgs::{Down, FromClient, Holders, KeyList, Message, Peer, Role, ToClient, Up, WhoHas};

// Whether both are the same keys in the same order.
fn same_keys(left: &KeyList, right: &KeyList) -> bool
    ensures { IsTrue result ↔ (left.now ≡ right.now) }
{
    left.as_slice() == right.as_slice()
}

// Whether both are the same holders with the same copies.
fn same_holders(left: &Holders, right: &Holders) -> bool
    ensures { IsTrue result ↔ (left.now ≡ right.now) }
{
    left.as_slice() == right.as_slice()
}

// Whether both are the same key with the same holders.
fn same_pair(left: &(u32, Holders), right: &(u32, Holders)) -> bool
    ensures { IsTrue result ↔ (left.now ≡ right.now) }
{
    left.0 == right.0 && same_holders(&left.1, &right.1)
}

// Whether both tell the same holders of the same keys.
fn same_who_has(left: &WhoHas, right: &WhoHas) -> bool
    ensures { IsTrue result ↔ (left.now ≡ right.now) }
{
    let (left, right) = (left.as_slice(), right.as_slice());
    if left.len() != right.len() {
        return false;
    }
    for at in 0..left.len() {
        if !same_pair(&left[at], &right[at]) {
            return false;
        }
    }
    true
}

fn same_down(left: &Down, right: &Down) -> bool
    ensures { IsTrue result ↔ (left.now ≡ right.now) }
{
    match (left, right) {
        (
            Down::ComputeTask {
                key: k,
                attempt: a,
                who_has: w,
            },
            Down::ComputeTask {
                key: l,
                attempt: b,
                who_has: v,
            },
        ) => *k == *l && *a == *b && same_who_has(w, v),
        (Down::FreeKeys { keys: k }, Down::FreeKeys { keys: l }) => same_keys(k, l),
        (Down::StealRequest { key: k, attempt: a }, Down::StealRequest { key: l, attempt: b }) => *k
            == *l
            && *a == *b,
        (Down::RemoveReplicas { keys: k }, Down::RemoveReplicas { keys: l }) => same_keys(k, l),
        (Down::AcquireReplicas { who_has: w }, Down::AcquireReplicas { who_has: v }) => {
            same_who_has(w, v)
        }
        (Down::RefreshWhoHas { who_has: w }, Down::RefreshWhoHas { who_has: v }) => {
            same_who_has(w, v)
        }
        _ => false,
    }
}

fn same_up(left: &Up, right: &Up) -> bool
    ensures { IsTrue result ↔ (left.now ≡ right.now) }
{
    match (left, right) {
        (
            Up::TaskFinished {
                seen: s,
                key: k,
                attempt: a,
            },
            Up::TaskFinished {
                seen: t,
                key: l,
                attempt: b,
            },
        ) => *s == *t && *k == *l && *a == *b,
        (
            Up::TaskErred {
                seen: s,
                key: k,
                attempt: a,
            },
            Up::TaskErred {
                seen: t,
                key: l,
                attempt: b,
            },
        ) => *s == *t && *k == *l && *a == *b,
        (Up::AddKeys { seen: s, keys: k }, Up::AddKeys { seen: t, keys: l }) => {
            *s == *t && same_keys(k, l)
        }
        (Up::ReleaseWorkerData { seen: s, key: k }, Up::ReleaseWorkerData { seen: t, key: l }) => {
            *s == *t && *k == *l
        }
        (
            Up::MissingData {
                seen: s,
                key: k,
                holder: h,
                copy: c,
            },
            Up::MissingData {
                seen: t,
                key: l,
                holder: i,
                copy: d,
            },
        ) => *s == *t && *k == *l && *h == *i && *c == *d,
        (
            Up::RequestRefreshWhoHas { seen: s, key: k },
            Up::RequestRefreshWhoHas { seen: t, key: l },
        ) => *s == *t && *k == *l,
        (
            Up::StealResponse {
                seen: s,
                key: k,
                attempt: a,
                yes: y,
            },
            Up::StealResponse {
                seen: t,
                key: l,
                attempt: b,
                yes: z,
            },
        ) => *s == *t && *k == *l && *a == *b && *y == *z,
        _ => false,
    }
}

fn same_to_client(left: &ToClient, right: &ToClient) -> bool
    ensures { IsTrue result ↔ (left.now ≡ right.now) }
{
    match (left, right) {
        (
            ToClient::KeyInMemory { key: k, holders: h },
            ToClient::KeyInMemory { key: l, holders: i },
        ) => *k == *l && same_holders(h, i),
        (ToClient::LostData { key: k }, ToClient::LostData { key: l }) => *k == *l,
        (
            ToClient::ClientTaskErred { key: k, blame: b },
            ToClient::ClientTaskErred { key: l, blame: c },
        ) => *k == *l && *b == *c,
        _ => false,
    }
}

fn same_from_client(left: &FromClient, right: &FromClient) -> bool
    ensures { IsTrue result ↔ (left.now ≡ right.now) }
{
    match (left, right) {
        (FromClient::Want { keys: k }, FromClient::Want { keys: l }) => same_keys(k, l),
        (FromClient::Release { keys: k }, FromClient::Release { keys: l }) => same_keys(k, l),
        (
            FromClient::Missing {
                key: k,
                holder: h,
                copy: c,
            },
            FromClient::Missing {
                key: l,
                holder: i,
                copy: d,
            },
        ) => *k == *l && *h == *i && *c == *d,
        _ => false,
    }
}

fn same_peer(left: &Peer, right: &Peer) -> bool
    ensures { IsTrue result ↔ (left.now ≡ right.now) }
{
    match (left, right) {
        (Peer::GetData { ask: a, keys: k }, Peer::GetData { ask: b, keys: l }) => {
            *a == *b && same_keys(k, l)
        }
        (Peer::Data { ask: a, found: k }, Peer::Data { ask: b, found: l }) => {
            *a == *b && same_keys(k, l)
        }
        _ => false,
    }
}

fn same_role(left: Role, right: Role) -> bool
    ensures { IsTrue result ↔ (left ≡ right) }
{
    match (left, right) {
        (Role::Scheduler, Role::Scheduler) => true,
        (Role::Worker, Role::Worker) => true,
        (Role::Client, Role::Client) => true,
        _ => false,
    }
}

fn same_message(left: &Message, right: &Message) -> bool
    ensures { IsTrue result ↔ (left.now ≡ right.now) }
{
    match (left, right) {
        (Message::Down(m), Message::Down(n)) => same_down(m, n),
        (Message::Up(m), Message::Up(n)) => same_up(m, n),
        (Message::ToClient(m), Message::ToClient(n)) => same_to_client(m, n),
        (Message::FromClient(m), Message::FromClient(n)) => same_from_client(m, n),
        (Message::Peer(m), Message::Peer(n)) => same_peer(m, n),
        (Message::Hello { role: r, id: i }, Message::Hello { role: s, id: j }) => {
            same_role(*r, *s) && *i == *j
        }
        _ => false,
    }
}

/// Whether both are the same message, or both none.
pub fn same_taken(left: Option<&Message>, right: Option<&Message>) -> bool
    ensures { IsTrue result ↔ (option_copied left.entry ≡ option_copied right.entry) }
{
    match (left, right) {
        (Some(left), Some(right)) => same_message(left, right),
        (None, None) => true,
        _ => false,
    }
}
