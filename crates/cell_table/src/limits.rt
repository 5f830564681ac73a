//! A history that meets its limit.

use crate::node::Node;
use std::alloc::Global;
use std::io;
use turn_cell::Stamps;

fn made(alloc: Global, limit: u64, count: u32) -> Option<(u64, u64, bool)> {
    let mut stamps = Stamps::new(alloc).ok()?;
    let mut node = Node::new(alloc, count as u64, limit)?;
    for _ in 0..count {
        node.count_one(&mut stamps);
    }
    let made = node.book.made();
    let history = node.into_log().into_history();
    Some((made, history.entries.len() as u64, history.cut.is_some()))
}

/// Makes so many entries of 48 bytes with a limit of bytes, and prints how many were stored.
pub fn play<R: Print>(rt: &R, alloc: Global, limit: u32, count: u32) -> io::Result<()> {
    match made(alloc, limit as u64, count) {
        Some((made, stored, cut)) => println!(rt; "{made} made, {stored} stored, cut {cut}"),
        None => println!(rt; "no memory"),
    }
}
