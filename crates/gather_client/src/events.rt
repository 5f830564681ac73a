//! What each event makes of a client's facts, and the instructions that it gives.
ghost use Rattle.std.specs.Prelude.{◌≡◌, ◌++◌, ◌<◌, ◌^◌, true, [], fold, All, OnOk, OnErr};
ghost use Rattle.std.specs.List.{cons_option, filter_map};
ghost use Rattle.cluster_msgs.specs.Shape.{key_count};
ghost use Rattle.cluster_rules.specs.Derived.{is_in};
ghost use Rattle.cluster_rules.specs.Client.{client_wants, client_releases, client_ask, client_gathered, client_gets, client_step, client_takes, can_hear, hear, are_client_keys, missing_message};
ghost use Rattle.gather_client.specs.Stored.{facts_of};
ghost use Rattle.gather_client.specs.Steps.{wanted, released, is_found, take_step, miss_step, miss_message, after_found, after_missed};
ghost use Rattle.gather_client.specs.Inner.{IsGrown};

use crate::table::ClientTable;
use cluster_msgs::{ClientEvent, ClientInstruction, ClientOut, FromClient, KeyList, ToClient};
use open_asks::keys_of;
use std::alloc::AllocError;

/// Carries an event out that is possible.
///
/// # Errors
/// Where no memory is left. The facts may then be amid the event.
pub fn perform(
    table: &mut ClientTable,
    event: ClientEvent,
    out: &mut ClientOut,
) -> Result<(), AllocError>
    requires possible { client_takes (facts_of table.old) event ≡ true }
    requires room { (facts_of table.old).next_ask < 2 ^ 63 }
    ensures facts { OnOk result (facts_of table.new ≡ (client_step (facts_of table.old) event).facts) }
    ensures instructions { OnOk result (out.new ≡ out.old ++ (client_step (facts_of table.old) event).out) }
    ensures err { OnErr result (IsGrown out.old out.new) }
{
    match event {
        ClientEvent::Want(keys) => want(table, keys, out),
        ClientEvent::Release(keys) => release(table, keys, out),
        ClientEvent::FromScheduler(message) => hear(table, message),
        ClientEvent::Ask { peer } => ask(table, peer, out),
        ClientEvent::Gathered { peer, ask, found } => {
            gathered(table, peer, ask, found.as_slice(), out)
        }
        ClientEvent::GatherFailed { peer, ask } => gathered(table, peer, ask, &[], out),
    }
}

/// The client wants the keys.
fn want(table: &mut ClientTable, keys: KeyList, out: &mut ClientOut) -> Result<(), AllocError>
    requires { are_client_keys (facts_of table.old) keys ≡ true }
    ensures facts { OnOk result (facts_of table.new ≡ (client_wants (facts_of table.old) keys).facts) }
    ensures instructions { OnOk result (out.new ≡ out.old ++ (client_wants (facts_of table.old) keys).out) }
    ensures err { OnErr result (out.new ≡ out.old) }
{
    want_each(table, keys.as_slice());
    out.push(ClientInstruction::Send(FromClient::Want { keys }))
}

/// Each of these keys is wanted.
fn want_each(table: &mut ClientTable, keys: &[u32])
    requires { are_client_keys (facts_of table.old) keys.now ≡ true }
    ensures { facts_of table.new ≡ fold wanted (facts_of table.old) keys.now }
{
    for key in keys {
        table.set_wanted(*key, true);
    }
}

/// The client lets the keys go.
fn release(table: &mut ClientTable, keys: KeyList, out: &mut ClientOut) -> Result<(), AllocError>
    requires { are_client_keys (facts_of table.old) keys ≡ true }
    ensures facts { OnOk result (facts_of table.new ≡ (client_releases (facts_of table.old) keys).facts) }
    ensures instructions { OnOk result (out.new ≡ out.old ++ (client_releases (facts_of table.old) keys).out) }
    ensures err { OnErr result (out.new ≡ out.old) }
{
    release_each(table, keys.as_slice());
    out.push(ClientInstruction::Send(FromClient::Release { keys }))
}

/// Each of these keys is let go.
fn release_each(table: &mut ClientTable, keys: &[u32])
    requires { are_client_keys (facts_of table.old) keys.now ≡ true }
    ensures { facts_of table.new ≡ fold released (facts_of table.old) keys.now }
{
    for key in keys {
        release_key(table, *key);
    }
}

/// The key is let go.
fn release_key(table: &mut ClientTable, key: u32)
    requires { key < key_count (facts_of table.old).shape }
    ensures { facts_of table.new ≡ released (facts_of table.old) key }
{
    table.set_wanted(key, false);
    table.forget(key);
    table.set_got(key, false);
    table.set_failed(key, None);
}

/// News of the scheduler.
fn hear(table: &mut ClientTable, message: ToClient) -> Result<(), AllocError>
    requires { can_hear (facts_of table.old) message ≡ true }
    ensures { OnOk result (facts_of table.new ≡ hear (facts_of table.old) message) }
{
    match message {
        ToClient::KeyInMemory { key, holders } => {
            if table.is_due(key) {
                table.set_located(key, holders)
            } else {
                Ok(())
            }
        }
        ToClient::LostData { key } => {
            table.forget(key);
            Ok(())
        }
        ToClient::ClientTaskErred { key, blame } => {
            if table.is_due(key) {
                table.set_failed(key, Some(blame));
                table.forget(key);
            }
            Ok(())
        }
    }
}

/// An ask to this peer is opened.
fn ask(table: &mut ClientTable, peer: u32, out: &mut ClientOut) -> Result<(), AllocError>
    requires { (facts_of table.old).next_ask < 2 ^ 63 }
    ensures facts { OnOk result (facts_of table.new ≡ (client_ask (facts_of table.old) peer).facts) }
    ensures instructions { OnOk result (out.new ≡ out.old ++ (client_ask (facts_of table.old) peer).out) }
    ensures err { OnErr result (out.new ≡ out.old) }
{
    let items = table.ask_items(peer)?;
    let keys = keys_of(table.allocator(), items.as_slice())?;
    let number = table.next_ask();
    table.open_ask(peer, items)?;
    out.push(ClientInstruction::Gather {
        peer,
        ask: number,
        keys,
    })
}

/// The ask of this number to a peer is over, and these keys were found. An answer that belongs to no open ask changes
/// nothing.
fn gathered(
    table: &mut ClientTable,
    peer: u32,
    number: u64,
    found: &[u32],
    out: &mut ClientOut,
) -> Result<(), AllocError>
    ensures facts { OnOk result (facts_of table.new ≡ (client_gathered (facts_of table.old) peer number found.now).facts) }
    ensures instructions { OnOk result (out.new ≡ out.old ++ (client_gathered (facts_of table.old) peer number found.now).out) }
    ensures err { OnErr result (IsGrown out.old out.new) }
{
    match table.open_items(peer, number)? {
        None => Ok(()),
        Some(items) => {
            table.close_ask(peer);
            take_found(table, items.as_slice(), found);
            miss_others(table, peer, items.as_slice(), found, out)
        }
    }
}

/// Gets those of the items that were found.
fn take_found(table: &mut ClientTable, items: &[(u32, u64)], found: &[u32])
    requires { All (λ i. i.0 < key_count (facts_of table.old).shape) items.now }
    ensures { facts_of table.new ≡ after_found (facts_of table.old) found.now items.now }
{
    for item in items {
        take_if_found(table, *item, found);
    }
}

/// Gets the item, where it was found.
fn take_if_found(table: &mut ClientTable, item: (u32, u64), found: &[u32])
    requires { item.0 < key_count (facts_of table.old).shape }
    ensures { facts_of table.new ≡ take_step found.now (facts_of table.old) item }
{
    if is_found(found, item.0) {
        take_block(table, item.0);
    }
}

/// Gets the key's block, where it is wanted.
fn take_block(table: &mut ClientTable, key: u32)
    requires { key < key_count (facts_of table.old).shape }
    ensures { facts_of table.new ≡ client_gets (facts_of table.old) key }
{
    if table.wants(key) {
        table.set_got(key, true);
        table.forget(key);
    }
}

/// Whether the key is one of those that were found.
fn is_found(found: &[u32], key: u32) -> bool
    ensures { result ≡ is_in key found.now }
{
    found.iter().any(|one| *one == key)
}

/// Forgets who holds those of the items that weren't found, and reports each that is wanted.
fn miss_others(
    table: &mut ClientTable,
    peer: u32,
    items: &[(u32, u64)],
    found: &[u32],
    out: &mut ClientOut,
) -> Result<(), AllocError>
    requires { All (λ i. i.0 < key_count (facts_of table.old).shape) items.now }
    ensures facts { OnOk result (facts_of table.new ≡ after_missed (facts_of table.old) found.now items.now) }
    ensures instructions { OnOk result (out.new ≡ out.old ++ filter_map (miss_message found.now (facts_of table.old) peer) items.now) }
    ensures err { OnErr result (IsGrown out.old out.new) }
{
    for item in items {
        miss_unless_found(table, peer, *item, found, out)?;
    }
    Ok(())
}

/// Forgets who holds the item and reports it, where it wasn't found.
fn miss_unless_found(
    table: &mut ClientTable,
    peer: u32,
    item: (u32, u64),
    found: &[u32],
    out: &mut ClientOut,
) -> Result<(), AllocError>
    requires { item.0 < key_count (facts_of table.old).shape }
    ensures facts { OnOk result (facts_of table.new ≡ miss_step found.now (facts_of table.old) item) }
    ensures instructions { OnOk result (out.new ≡ out.old ++ cons_option (miss_message found.now (facts_of table.old) peer item) []) }
    ensures err { OnErr result (out.new ≡ out.old) }
{
    if is_found(found, item.0) {
        return Ok(());
    }
    table.forget(item.0);
    report_missing(table, peer, item, out)
}

/// Tells the scheduler which copy wasn't there, where the key is wanted.
fn report_missing(
    table: &ClientTable,
    peer: u32,
    item: (u32, u64),
    out: &mut ClientOut,
) -> Result<(), AllocError>
    ensures ok { OnOk result (out.new ≡ out.old ++ cons_option (missing_message (facts_of table.now) peer item) []) }
    ensures err { OnErr result (out.new ≡ out.old) }
{
    if table.wants(item.0) {
        out.push(ClientInstruction::Send(FromClient::Missing {
            key: item.0,
            holder: peer,
            copy: item.1,
        }))
    } else {
        Ok(())
    }
}
