//! Packets through two ports.
ghost use Rattle.std.specs.Prelude.{◌≡◌, ◌<◌, ◌≤◌};

use crate::node::Plain;
use cluster_msgs::{FromClient, Message};
use node_links::{Port, Tally, bare_packet, close_ports, port_pair};
use std::alloc::{AllocError, Global};
use std::io;
use std::sync::Wait;

// Posts so many packets, numbered from 0.
fn post_all<R: Wait>(
    rt: &R,
    alloc: Global,
    port: &mut Port<u64, Plain>,
    count: u32,
) -> Result<(), AllocError>
    ensures to { port.new.to.pass.table_id ≡ port.old.to.pass.table_id }
    ensures from { port.new.from.pass.table_id ≡ port.old.from.pass.table_id }
{
    for key in 0..count {
        let message = Message::FromClient(FromClient::Missing {
            key,
            holder: 1,
            copy: 0,
        });
        port.post(rt, bare_packet(alloc, message))?;
    }
    Ok(())
}

// Takes what has come, whose first number is to be this one. How many came, up to the first that is another.
fn take_all<R: Wait>(rt: &R, port: &mut Port<u64, Plain>, first: u32, most: u32) -> u32
    ensures to { port.new.to.pass.table_id ≡ port.old.to.pass.table_id }
    ensures from { port.new.from.pass.table_id ≡ port.old.from.pass.table_id }
    ensures few { result ≤ most }
{
    let mut next = first;
    for taken in 0..most {
        let Some(packet) = port.take(rt) else {
            return taken;
        };
        match packet.message {
            Message::FromClient(FromClient::Missing { key, .. }) if key == next => {}
            _ => return taken,
        }
        next = next.wrapping_add(1);
    }
    most
}

// Takes the others, while those that wait are sent.
fn take_rest<R: Wait>(
    rt: &R,
    left: &mut Port<u64, Plain>,
    right: &mut Port<u64, Plain>,
    first: u32,
    count: u32,
) -> u32
    ensures to { left.new.to.pass.table_id ≡ left.old.to.pass.table_id }
    ensures from { left.new.from.pass.table_id ≡ left.old.from.pass.table_id }
    ensures right_to { right.new.to.pass.table_id ≡ right.old.to.pass.table_id }
    ensures right_from { right.new.from.pass.table_id ≡ right.old.from.pass.table_id }
{
    let mut taken = first;
    for _ in 0..count {
        left.flush(rt);
        let more = take_all(rt, right, taken, count.saturating_sub(taken));
        taken = taken.saturating_add(more);
    }
    taken
}

fn relay<R: Wait>(rt: &R, alloc: Global, capacity: usize, count: u32) -> Option<(u32, u32)>
    requires { 0 < capacity }
{
    let to_left = Tally::new(alloc).ok()?;
    let to_right = Tally::new(alloc).ok()?;
    let pair = port_pair::<u64, Plain>(alloc, capacity, &to_left, &to_right);
    let (mut left, mut right) = pair.ok()?;
    post_all(rt, alloc, &mut left, count).ok()?;
    let first = take_all(rt, &mut right, 0, count);
    let taken = take_rest(rt, &mut left, &mut right, first, count);
    close_ports(rt, left, right);
    Some((first, taken))
}

/// Posts so many packets through links of a capacity, and prints how many came at once, and how many came in their order in the end.
pub fn play<R: Print + Wait>(rt: &R, alloc: Global, capacity: u32, count: u32) -> io::Result<()> {
    let capacity = capacity.max(1) as usize;
    match relay(rt, alloc, capacity, count) {
        Some((first, taken)) => {
            println!(rt; "capacity {capacity}: {first} of {count} at once, {taken} in the end")
        }
        None => println!(rt; "no memory"),
    }
}
