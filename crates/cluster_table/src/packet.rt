//! The story of a packet with the block of one key, in a run that is not told.
ghost use Rattle.std.specs.Prelude.{◌≡◌, length};
ghost use Rattle.cluster_msgs.specs.Labels.{PacketFits};

use crate::page::Page;
use crate::words::Words;
use cluster_msgs::{KeyList, Label, Message, Named, Packet, Peer, Sequence};
use std::alloc::{AllocError, Global};
use std::marker::Brand;
use std::sync::Arc;

// How many blocks a packet of the run has.
fn count_blocks<L: Label<Block = u64>>(packet: &Packet<u64>) -> usize
    requires { PacketFits L.facts packet.now }
    ensures { result ≡ length packet.now.blocks }
{
    packet.blocks.len()
}

fn count_of(alloc: Global, key: u32, cell: u64) -> Result<usize, AllocError> {
    let block = Arc::new(alloc, cell)?;
    let mut blocks = Sequence::new(alloc);
    blocks.push(block)?;
    let mut found = KeyList::new(alloc);
    found.push(key)?;
    let packet = Packet {
        message: Message::Peer(Peer::Data { ask: 1, found }),
        blocks,
    };
    Ok(count_blocks::<Named<u64, Brand>>(&packet))
}

/// Prints how many blocks the packet has. The first line of the story is `packet KEY NUMBER`, with the block's one cell.
pub fn play(page: &mut Page, words: &mut Words<'_>) {
    let key = words.small();
    let cell = words.number();
    if let Some(fault) = words.fault() {
        return page.fault(fault);
    }
    match count_of(words.alloc(), key, cell) {
        Ok(count) => {
            page.item("  ", count);
            page.put(" blocks\n");
        }
        Err(_) => page.fail(),
    }
}
