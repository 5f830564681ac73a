//! The near ends of the links to another node.
ghost use Rattle.std.specs.Prelude.{◌≡◌, ◌<◌, ◌∷◌, ◌++◌, [], None, is_some, IfOk, IfSome, IfNone, OnOk, OnErr};
ghost use Rattle.crossbeam_queue.specs.Passes.{view};
ghost use Rattle.cluster_msgs.specs.Labels.{PacketFits, MessageFits, found};
ghost use Rattle.node_links.specs.Links.{posted, Begins};

use crate::ends::{self, OutOfMemory, Receiver, Sender, link};
use crate::packet::Sealed;
use crate::tally::{Inbox, Tally};
use cluster_msgs::{Label, Message, Packet, Sequence};
use std::alloc::{AllocError, Global};
use std::collections::VecDeque;
use std::sync::Wait;

/// What goes to another node, and what comes from it. Packets that don't fit into the link wait in their order. Those that are sent are counted, for the
/// other node and for its port to this one.
#[derive(Drop)]
pub struct Port<B: Drop, L: Label<Block = B>> {
    pub to: Sender<B, L>,
    pub from: Receiver<B, L>,
    far: Tally,
    sent: Tally,
    inbox: Inbox,
    first: Option<Sealed<B, L>>,
    waiting: VecDeque<Sealed<B, L>>,
    ghost in_order: { first ≡ None → waiting.items ≡ [] },
}

/// The ports of two nodes to each other, each of whose links holds so many packets. The tallies count what is sent to the first node and to the second.
///
/// # Errors
/// Where there is no memory.
pub fn port_pair<B: Drop, L: Label<Block = B>>(
    alloc: Global,
    capacity: usize,
    left: &Tally,
    right: &Tally,
) -> Result<(Port<B, L>, Port<B, L>), OutOfMemory>
    requires { 0 < capacity }
    ensures there { IfOk result (λ r. r.0.to.pass.table_id ≡ r.1.from.pass.table_id) }
    ensures back { IfOk result (λ r. r.1.to.pass.table_id ≡ r.0.from.pass.table_id) }
    ensures left { IfOk result (λ r. posted (view r.0.to.pass).sent r.0.first r.0.waiting.items ≡ []) }
    ensures right { IfOk result (λ r. posted (view r.1.to.pass).sent r.1.first r.1.waiting.items ≡ []) }
    ensures got { IfOk result (λ r. ((view r.0.from.pass).got ≡ []) × ((view r.1.from.pass).got ≡ [])) }
{
    let (to_right, from_left) = link::<B, L>(alloc, capacity)?;
    let (to_left, from_right) = link::<B, L>(alloc, capacity)?;
    let (left, sent_left, inbox_left) = counts(alloc, left)?;
    let (right, sent_right, inbox_right) = counts(alloc, right)?;
    Ok((
        Port {
            to: to_right,
            from: from_right,
            far: right,
            sent: sent_right,
            inbox: inbox_left,
            first: None,
            waiting: VecDeque::new(alloc),
        },
        Port {
            to: to_left,
            from: from_left,
            far: left,
            sent: sent_left,
            inbox: inbox_right,
            first: None,
            waiting: VecDeque::new(alloc),
        },
    ))
}

/// What counts the packets that are sent to a node, with what counts those of one link to it, for the port that sends and for the one that takes.
fn counts(alloc: Global, node: &Tally) -> Result<(Tally, Tally, Inbox), OutOfMemory> {
    match counted(alloc, node) {
        Ok(counts) => Ok(counts),
        Err(_) => Err(OutOfMemory),
    }
}

fn counted(alloc: Global, node: &Tally) -> Result<(Tally, Tally, Inbox), AllocError> {
    let node = node.share()?;
    let sent = Tally::new(alloc)?;
    let inbox = Inbox::new(sent.share()?);
    Ok((node, sent, inbox))
}

// Counts a packet that was sent, first for the port that takes it, so that the other node doesn't look for it in vain.
fn count(link: &Tally, node: &Tally) {
    link.add();
    node.add();
}

impl<B: Drop, L: Label<Block = B>> Port<B, L> {
    /// Gives a packet to the port, behind those that wait.
    ///
    /// # Errors
    /// Where there is no memory for it to wait. The port is as it was, and the packet is dropped.
    #[tactic(auto, using(crate::proofs::Ports::behind))]
    pub fn post<R: Wait>(&mut self, rt: &R, packet: Sealed<B, L>) -> Result<(), AllocError>
        ensures to { self.new.to.pass.table_id ≡ self.old.to.pass.table_id }
        ensures from { self.new.from ≡ self.old.from }
        ensures ok { OnOk result (posted (view self.new.to.pass).sent self.new.first self.new.waiting.items
            ≡ posted (view self.old.to.pass).sent self.old.first self.old.waiting.items ++ packet ∷ []) }
        ensures err { OnErr result (posted (view self.new.to.pass).sent self.new.first self.new.waiting.items
            ≡ posted (view self.old.to.pass).sent self.old.first self.old.waiting.items) }
    {
        if self.first.is_some() {
            self.waiting.push_back(packet)?;
            return Ok(());
        }
        match self.to.send(rt, packet.into_packet()) {
            Ok(()) => count(&self.sent, &self.far),
            Err(packet) => self.first = Some(Sealed::new(packet)),
        }
        Ok(())
    }

    /// Whether a packet waits.
    pub fn waits(&self) -> bool
        ensures { result ≡ is_some self.now.first }
    {
        self.first.is_some()
    }

    /// Sends those that wait, in their order, until none is left or the link is full.
    pub fn flush<R: Wait>(&mut self, rt: &R)
        ensures to { self.new.to.pass.table_id ≡ self.old.to.pass.table_id }
        ensures from { self.new.from ≡ self.old.from }
        ensures posted { posted (view self.new.to.pass).sent self.new.first self.new.waiting.items
            ≡ posted (view self.old.to.pass).sent self.old.first self.old.waiting.items }
    {
        for _ in 0..=self.waiting.len() {
            if !self.send_first(rt) {
                return;
            }
        }
    }

    // Sends the first that waits; false where none waits or the link is full.
    #[tactic(auto, using(crate::proofs::Ports::next))]
    fn send_first<R: Wait>(&mut self, rt: &R) -> bool
        ensures to { self.new.to.pass.table_id ≡ self.old.to.pass.table_id }
        ensures from { self.new.from ≡ self.old.from }
        ensures posted { posted (view self.new.to.pass).sent self.new.first self.new.waiting.items
            ≡ posted (view self.old.to.pass).sent self.old.first self.old.waiting.items }
    {
        let Some(packet) = self.first.take() else {
            return false;
        };
        match self.to.send(rt, packet.into_packet()) {
            Ok(()) => {
                count(&self.sent, &self.far);
                self.first = self.waiting.pop_front();
                true
            }
            Err(packet) => {
                self.first = Some(Sealed::new(packet));
                false
            }
        }
    }

    /// Takes what came next. `None` only where nothing had come, or been counted, at some moment of the call.
    pub fn take<R: Wait>(&mut self, rt: &R) -> Option<Packet<B>>
        ensures from { self.new.from.pass.table_id ≡ self.old.from.pass.table_id }
        ensures to { self.new.to ≡ self.old.to }
        ensures waiting { (self.new.first ≡ self.old.first) × (self.new.waiting ≡ self.old.waiting) }
        ensures got { IfSome result (λ p. (view self.new.from.pass).got ≡ (view self.old.from.pass).got ++ p ∷ []) }
        ensures fits { IfSome result (λ p. PacketFits L.facts p) }
        ensures none { IfNone result ((view self.new.from.pass).got ≡ (view self.old.from.pass).got) }
    {
        if self.inbox.is_empty() {
            return None;
        }
        let taken = self.from.recv(rt);
        if taken.is_some() {
            self.inbox.note();
        }
        taken
    }
}

/// Ends two ports that were made as a pair: what each has received is a beginning of what was given to the other.
#[tactic(auto, using(crate::proofs::Ports::begins_posted))]
pub fn close_ports<B: Drop, L: Label<Block = B>, R: Wait>(
    rt: &R,
    left: Port<B, L>,
    right: Port<B, L>,
)
    requires there { left.to.pass.table_id ≡ right.from.pass.table_id }
    requires back { right.to.pass.table_id ≡ left.from.pass.table_id }
    ensures there { Begins (posted (view left.to.pass).sent left.first left.waiting.items) (view right.from.pass).got }
    ensures back { Begins (posted (view right.to.pass).sent right.first right.waiting.items) (view left.from.pass).got }
{
    let Port {
        to,
        from,
        far: _,
        sent: _,
        inbox: _,
        first: _,
        waiting: _,
    } = left;
    let Port {
        to: to_left,
        from: from_left,
        far: _,
        sent: _,
        inbox: _,
        first: _,
        waiting: _,
    } = right;
    ends::close(rt, to, from_left);
    ends::close(rt, to_left, from);
}

/// A packet without blocks.
#[tactic(auto, using(crate::proofs::Parcels::packet_fits))]
pub fn bare_packet<B: Drop, L: Label<Block = B>>(alloc: Global, message: Message) -> Sealed<B, L>
    requires fits { MessageFits L.facts message }
    requires bare { found message ≡ [] }
    ensures { (result.message ≡ message) × (result.blocks ≡ []) }
{
    Sealed::new(Packet {
        message,
        blocks: Sequence::new(alloc),
    })
}
