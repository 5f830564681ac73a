//! What a worker and a client have in common: they ask peers for blocks, and end an event in one way.
use crate::page::Page;
use cluster_msgs::Stop;
use std::alloc::Global;

/// The peers that are looked at: a few, and those about the number below which a core marks its peers.
pub const PEERS: [u32; 8] = [1, 2, 3, 4, 127, 128, 200, 201];

/// What a core says of the peers: which could be asked, and which asks are open with their numbers.
#[derive(Drop)]
pub struct Asks {
    possible: Page,
    open: Page,
}

impl Asks {
    /// Nothing is said yet.
    pub fn new(alloc: Global) -> Self {
        Asks {
            possible: Page::new(alloc),
            open: Page::new(alloc),
        }
    }

    /// Notes what is said of a peer.
    pub fn note(&mut self, peer: u32, may_ask: bool, number: Option<u64>) {
        if may_ask {
            self.possible.item(" ", peer);
        }
        if let Some(number) = number {
            self.open.item(" ", peer);
            self.open.item("@", number);
        }
    }

    /// Prints what was said, and how many pairs of a key and a holder are known.
    pub fn print(&self, page: &mut Page, pairs: u64) {
        page.item("; ask", self.possible.as_str());
        page.item("; open", self.open.as_str());
        page.item("; pairs ", pairs);
        page.put("\n");
    }
}

/// An instruction to ask a peer.
pub fn print_gather(page: &mut Page, peer: u32, ask: u64, keys: &[u32]) {
    page.item(", gather ", peer);
    page.item(" ", ask);
    page.keys("", keys);
}

/// How an event ended.
pub fn end_of(end: Result<(), Stop>) -> &'static str {
    match end {
        Ok(()) => "taken",
        Err(Stop::Refused) => "refused",
        Err(Stop::Spent) => "spent",
        Err(Stop::Memory) => "out of memory",
    }
}
