//! Which events are taken. All others are refused.
ghost use Rattle.std.specs.Prelude.{◌≡◌, ◌<◌, ◌&&◌, nat_lt, nat_le, true, not, is_some, length};
ghost use Rattle.std.specs.List.{list_all};
ghost use Rattle.cluster_msgs.specs.declared.cores.SchedEvent.{SchedEvent};
ghost use Rattle.cluster_rules.specs.Sched.{keys, workers, connected, held};
ghost use Rattle.cluster_rules.specs.SchedTable.{up_keys, client_keys, sched_takes};
ghost use Rattle.task_table.specs.Tasks.{facts};
ghost use Rattle.sched_changes.specs.Choices.{steal_for, drop_for};

use cluster_msgs::{FromClient, SchedEvent, Steal, Up};
use cluster_rules::Facts;
use task_table::TaskTable;

/// Whether each of these keys is there.
fn are_there(count: u32, named: &[u32]) -> bool
    ensures { result ≡ list_all (λ k. nat_lt k count) named.now }
{
    for key in named {
        if *key >= count {
            return false;
        }
    }
    true
}

/// Whether the key is there.
fn is_there(count: u32, key: u32) -> bool
    ensures { result ≡ (nat_lt key count && true) }
{
    key < count
}

/// Whether each key that a worker's message names is there.
fn names_keys(count: u32, up: &Up) -> bool
    ensures { result ≡ list_all (λ k. nat_lt k count) (up_keys up.now) }
{
    match up {
        Up::TaskFinished { key, .. } => is_there(count, *key),
        Up::TaskErred { key, .. } => is_there(count, *key),
        Up::AddKeys { keys, .. } => are_there(count, keys.as_slice()),
        Up::ReleaseWorkerData { key, .. } => is_there(count, *key),
        Up::MissingData { key, .. } => is_there(count, *key),
        Up::RequestRefreshWhoHas { key, .. } => is_there(count, *key),
        Up::StealResponse { key, .. } => is_there(count, *key),
    }
}

/// Whether each key that a client's message names is there.
fn asks_for_keys(count: u32, message: &FromClient) -> bool
    ensures { result ≡ list_all (λ k. nat_lt k count) (client_keys message.now) }
{
    match message {
        FromClient::Want { keys } => are_there(count, keys.as_slice()),
        FromClient::Release { keys } => are_there(count, keys.as_slice()),
        FromClient::Missing { key, .. } => is_there(count, *key),
    }
}

/// Whether one more worker of so many threads may join.
fn may_join(threads: u32, connected: u32, last: u32) -> bool
    ensures { result ≡ ((nat_le 1 threads && nat_le threads 16) && (nat_lt connected 64 && nat_lt last 1024)) }
{
    ((1 <= threads) & (threads <= 16)) & ((connected < 64) & (last < 1024))
}

/// Whether the client is there.
fn is_client(client: u32, clients: u32) -> bool
    ensures { result ≡ (nat_le 1 client && nat_le client clients) }
{
    (1 <= client) & (client <= clients)
}

/// Whether some worker holds the key. Where there is no such key none does.
fn is_held(table: &TaskTable, key: u32) -> bool
    ensures { result ≡ held (facts table.now) key }
{
    table.table().is_held(key)
}

/// Whether a connected worker may be told to get a copy of a key that is there and held, and that it doesn't hold.
fn may_copy(connected: bool, there: bool, held: bool, holds: bool) -> bool
    ensures { result ≡ ((connected && there) && (held && not holds)) }
{
    (connected & there) & (held & !holds)
}

/// How many workers are connected.
fn worker_count(table: &TaskTable) -> u32
    ensures { result ≡ length (workers (facts table.now)) }
{
    table.table().connected_count()
}

/// How many clients there are.
fn client_count(table: &TaskTable) -> u32
    ensures { result ≡ (facts table.now).setting.clients }
{
    table.table().clients()
}

/// Whether the event is taken. `steal` and `drop` are what the policies chose for it.
#[tactic(auto, unfolding(cluster_rules::specs::SchedTable::sched_takes))]
pub fn takes(
    table: &TaskTable,
    event: &SchedEvent,
    steal: Option<Steal>,
    drop: Option<(u32, u32)>,
) -> bool
    requires steal { steal ≡ steal_for (facts table.now) event.now }
    requires drop { drop ≡ drop_for (facts table.now) event.now }
    ensures { result ≡ sched_takes (facts table.now) event.now }
{
    match event {
        SchedEvent::Join { threads } => {
            may_join(*threads, worker_count(table), table.last_worker())
        }
        SchedEvent::Leave { w } => table.connected(*w),
        SchedEvent::FromWorker { w, up } => table.connected(*w) & names_keys(table.keys(), up),
        SchedEvent::FromClient { c, msg } => {
            is_client(*c, client_count(table)) & asks_for_keys(table.keys(), msg)
        }
        SchedEvent::Balance => steal.is_some(),
        SchedEvent::Evict => drop.is_some(),
        SchedEvent::Replicate { key, w } => may_copy(
            table.connected(*w),
            is_there(table.keys(), *key),
            is_held(table, *key),
            table.table().holds(*w, *key),
        ),
    }
}
