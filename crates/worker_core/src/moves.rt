//! The peers that hold a key to fetch, marked anew after each event by the keys that are to be fetched.
#![tactic(auto)]

ghost use Rattle.std.specs.Prelude.{◌≡◌, ◌<◌, ℕ, false, length, IfOk};
ghost use Rattle.cluster_rules.specs.Worker.{fetchable, has_any, would_ask};
ghost use Rattle.fact_rows.specs.Rows.{read};
ghost use Rattle.worker_facts.specs.Stored.{facts_of};
ghost use Rattle.worker_core.specs.Moves.{AreMoves};

use fact_rows::Row;
use open_asks::mark_items;
use std::alloc::{AllocError, Global};
use worker_table::WorkerTable;

/// The peers of which it is kept whether they hold a key to fetch: those of numbers below this. Of others it is looked up.
const PEERS: usize = 128;

/// Which peers hold a key to fetch.
#[derive(Drop)]
pub struct Moves {
    pub peers: Row<bool>,
}

impl Moves {
    /// Of a worker that isn't there yet: nothing is marked.
    ///
    /// # Errors
    /// Where no memory is left.
    pub fn new(alloc: Global) -> Result<Moves, AllocError>
        ensures { IfOk result (λ moves. length moves.peers ≡ 128) }
    {
        let peers = Row::filled(alloc, PEERS, false)?;
        Ok(Moves { peers })
    }

    /// Works them out anew. It takes no memory.
    pub fn work_out(&mut self, table: &WorkerTable)
        ensures { AreMoves (facts_of table.now) self.new }
    {
        mark_peers(&mut self.peers, table);
    }

    /// Whether an ask to this peer is possible: none is open, and it holds a key to fetch.
    pub fn would_ask(&self, table: &WorkerTable, peer: u32) -> bool
        requires { AreMoves (facts_of table.now) self.now }
        ensures { result ≡ would_ask (facts_of table.now) peer }
    {
        if (peer as usize) < self.peers.len() {
            !table.has_ask(peer) & self.peers.test(peer as usize)
        } else {
            table.would_ask(peer)
        }
    }
}

/// Marks the peers that hold a key to fetch, and no other.
fn mark_peers(row: &mut Row<bool>, table: &WorkerTable)
    ensures marked { (p : ℕ) → p < length row.old → read row.new false p ≡ has_any (fetchable (facts_of table.now) p) }
    ensures length { length row.new ≡ length row.old }
{
    table.sound();
    row.fill(false);
    let mut from = 0;
    'keys: while let Some(key) = table.next_fetch(from) {
        mark_items(row, table.holders(key));
        from = key + 1;
    }
}
