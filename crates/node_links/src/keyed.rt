//! Blocks that fit the label of a run.
ghost use Rattle.std.specs.Prelude.{◌≡◌, ◌<◌, ◌∷◌, ◌++◌, [], IfOk, OnOk, OnErr, length};
ghost use Rattle.cluster_msgs.specs.declared.messages.Message.TheVariants as message;
ghost use Rattle.cluster_msgs.specs.declared.messages.Peer.TheVariants as peer;
ghost use Rattle.std.specs.Arc.{arc_value};
ghost use Rattle.cluster_msgs.specs.Labels.{BlockFits};
ghost use Rattle.node_links.specs.Fits.{ParcelFits};

use crate::packet::Sealed;
use cluster_msgs::{Label, Message, Packet, Peer, Sequence};
use std::alloc::{AllocError, Global};
use std::marker::{Model, PhantomData};
use std::sync::Arc;

/// A key's block, which fits the label.
#[derive(Drop)]
pub struct Keyed<B: Drop, L: Label<Block = B>> {
    key: u32,
    block: Arc<B>,
    label: PhantomData<L>,
    ghost fits: { BlockFits L.facts key (arc_value block) },
}

impl<B: Drop, L: Label<Block = B>> Keyed<B, L> {
    /// The block of a key, which it fits.
    pub fn new(key: u32, block: Arc<B>) -> Self
        requires { BlockFits L.facts key (arc_value block) }
        ensures { (result.key ≡ key) × (result.block ≡ block) }
    {
        Keyed {
            key,
            block,
            label: PhantomData,
        }
    }

    /// Its key.
    pub fn key(&self) -> u32
        ensures { result ≡ self.now.key }
    {
        self.key
    }

    /// The block.
    pub fn block(&self) -> &Arc<B>
        ensures { result.now ≡ self.now.block }
    {
        &self.block
    }

    /// The block without its key.
    pub fn into_block(self) -> Arc<B>
        ensures same { result ≡ self.block }
        ensures fits { BlockFits L.facts self.key (arc_value result) }
    {
        let Keyed {
            key: _,
            block,
            label: _,
        } = self;
        block
    }

    /// The same block, which both share.
    ///
    /// # Errors
    /// Where the count of those who share it is full.
    pub fn share(&self) -> Result<Self, AllocError>
        ensures key { IfOk result (λ k. k.key ≡ self.now.key) }
        ensures block { IfOk result (λ k. arc_value k.block ≡ arc_value self.now.block) }
    {
        let block = self.block.clone()?;
        Ok(Keyed {
            key: self.key,
            block,
            label: PhantomData,
        })
    }
}

/// Blocks on their way, each with its key. In a clause it is the keys and the blocks.
#[derive(Drop)]
pub struct Parcel<B: Drop, L: Label<Block = B>> {
    found: Vec<u32>,
    blocks: Vec<Arc<B>>,
    label: PhantomData<L>,
}

impl<B: Drop, L: Label<Block = B>> Model for Parcel<B, L> {
    ghost use Rattle.std.specs.Prelude.{ℕ, List};
    ghost use Rattle.std.specs.declared.sync.Arc.{Arc as Shared};
    ghost use Rattle.std.specs.declared.alloc.Global.{Global as Heap};
    ghost use Rattle.node_links.specs.Fits.{ParcelFits};

    ghost Value = { List ℕ × List (Shared B Heap) };

    ghost view = { λ p. (p.found.items, p.blocks.items) };

    ghost invariant = { λ p. ParcelFits L.facts p.found.items p.blocks.items };
}

impl<B: Drop, L: Label<Block = B>> Parcel<B, L> {
    /// No blocks.
    #[tactic(auto, using(crate::proofs::Parcels::no_parcel))]
    pub fn new(alloc: Global) -> Self
        ensures { result ≡ ([], []) }
    {
        Parcel {
            found: Vec::new(alloc),
            blocks: Vec::new(alloc),
            label: PhantomData,
        }
    }

    /// Adds a block with its key.
    ///
    /// # Errors
    /// Where there is no memory. The parcel is as it was, and the block is dropped.
    #[tactic(auto, using(crate::proofs::Parcels::parcel_push))]
    pub fn push(&mut self, keyed: Keyed<B, L>) -> Result<(), AllocError>
        ensures ok { OnOk result (self.new ≡ (self.old.0 ++ keyed.key ∷ [], self.old.1 ++ keyed.block ∷ [])) }
        ensures err { OnErr result (self.new ≡ self.old) }
    {
        let Keyed {
            key,
            block,
            label: _,
        } = keyed;
        self.found.reserve(1)?;
        self.blocks.reserve(1)?;
        self.found.push_reserved(key);
        self.blocks.push_reserved(block);
        Ok(())
    }

    /// The answer to an ask: its message names the keys of the blocks, in order.
    #[tactic(auto, using(crate::proofs::Parcels::packet_of_parcel))]
    pub fn seal(self, ask: u64) -> Sealed<B, L>
        ensures message { result.message ≡ message.Peer (peer.Data ask self.0) }
        ensures blocks { result.blocks ≡ self.1 }
    {
        let Parcel {
            found,
            blocks,
            label: _,
        } = self;
        Sealed::new(Packet {
            message: Message::Peer(Peer::Data {
                ask,
                found: Sequence::from_vec(found),
            }),
            blocks: Sequence::from_vec(blocks),
        })
    }
}

/// The keys of an answer with their blocks, each of which fits its key, in order.
///
/// # Errors
/// Where there is no memory.
pub fn pair_up<B: Drop, L: Label<Block = B>>(
    alloc: Global,
    found: &[u32],
    blocks: &Sequence<Arc<B>>,
) -> Result<Vec<Keyed<B, L>>, AllocError>
    requires { ParcelFits L.facts found.now blocks.now }
{
    let mut pairs = Vec::with_capacity(alloc, found.len())?;
    for at in 0..found.len().min(blocks.len()) {
        pairs.push(keyed_at(found, blocks, at)?)?;
    }
    Ok(pairs)
}

#[tactic(auto, using(crate::proofs::Parcels::fits_at))]
fn keyed_at<B: Drop, L: Label<Block = B>>(
    found: &[u32],
    blocks: &Sequence<Arc<B>>,
    at: usize,
) -> Result<Keyed<B, L>, AllocError>
    requires fits { ParcelFits L.facts found.now blocks.now }
    requires at { (at < length found.now) × (at < length blocks.now) }
{
    let block = blocks.as_slice()[at].clone()?;
    Ok(Keyed::new(found[at], block))
}
