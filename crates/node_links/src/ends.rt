//! The two ends of a link.
ghost use Rattle.std.specs.Prelude.{◌≡◌, ◌<◌, true, [], ◌∷◌, ◌++◌, IfOk, IfErr, OnOk, OnErr, IfSome, IfNone};
ghost use Rattle.std.specs.Arc.{arc_value};
ghost use Rattle.crossbeam_queue.specs.Passes.{view, IsPassOf, ruled_capacity};
ghost use Rattle.cluster_msgs.specs.Labels.{PacketFits};
ghost use Rattle.node_links.specs.Links.{Begins, WasFull};
ghost use Rattle.cluster_msgs.specs.declared.packets.Packet.{Packet};

use crate::packet::Sealed;
use crate::rule::{Got, InOrder, Known, Roles, Sent, Total};
use cluster_msgs::{Label, Packet};
use crossbeam_queue::{Pass, RuledArrayQueue};
use std::alloc::Global;
use std::sync::{Arc, Wait};

/// There was no memory.
#[derive(Drop)]
pub struct OutOfMemory;

type Line<B, L> = RuledArrayQueue<Sealed<B, L>, Known<B>, InOrder>;

/// The end that sends. Contracts see in `pass` what was sent.
#[derive(Drop)]
pub struct Sender<B: Drop, L: Label<Block = B>> {
    pub line: Arc<RuledArrayQueue<Sealed<B, L>, Known<B>, InOrder>>,
    pub pass: Pass<Sealed<B, L>, Known<B>>,
    ghost own: { IsPassOf (arc_value line) pass },
    ghost role: { (view pass).pushes ≡ true },
}

/// The end that receives. Contracts see in `pass` what was received.
#[derive(Drop)]
pub struct Receiver<B: Drop, L: Label<Block = B>> {
    pub line: Arc<RuledArrayQueue<Sealed<B, L>, Known<B>, InOrder>>,
    pub pass: Pass<Sealed<B, L>, Known<B>>,
    ghost own: { IsPassOf (arc_value line) pass },
    ghost role: { (view pass).pops ≡ true },
}

/// Makes a link that holds so many packets.
///
/// # Errors
/// Where there is no memory.
pub fn link<B: Drop, L: Label<Block = B>>(
    alloc: Global,
    capacity: usize,
) -> Result<(Sender<B, L>, Receiver<B, L>), OutOfMemory>
    requires { 0 < capacity }
    ensures pair { IfOk result (λ r. r.0.pass.table_id ≡ r.1.pass.table_id) }
    ensures empty { IfOk result (λ r. ((view r.0.pass).sent ≡ []) × ((view r.1.pass).got ≡ [])) }
    ensures capacity { IfOk result (λ r. ruled_capacity (arc_value r.0.line) ≡ capacity) }
{
    let Ok((queue, mut pass)) = Line::<B, L>::ruled(alloc, capacity) else {
        return Err(OutOfMemory);
    };
    let other = queue.another::<Roles>(&mut pass);
    let Ok(line) = Arc::new(alloc, queue) else {
        return Err(OutOfMemory);
    };
    let Ok(theirs) = Arc::try_clone(&line) else {
        return Err(OutOfMemory);
    };
    Ok((
        Sender { line, pass },
        Receiver {
            line: theirs,
            pass: other,
        },
    ))
}

impl<B: Drop, L: Label<Block = B>> Sender<B, L> {
    /// Sends a packet. It takes no memory, and may wait inside the queue.
    ///
    /// # Errors
    /// The packet comes back where the link was full at some moment of the call.
    pub fn send<R: Wait>(&mut self, rt: &R, packet: Packet<B>) -> Result<(), Packet<B>>
        requires fits { PacketFits L.facts packet }
        ensures same { (self.new.pass.table_id ≡ self.old.pass.table_id) × (self.new.line ≡ self.old.line) }
        ensures sent { OnOk result ((view self.new.pass).sent ≡ (view self.old.pass).sent ++ packet ∷ []) }
        ensures back { IfErr result (λ p. p ≡ packet) }
        ensures err { OnErr result ((view self.new.pass).sent ≡ (view self.old.pass).sent) }
        ensures full { OnErr result (WasFull (ruled_capacity (arc_value self.old.line)) (view self.old.pass).sent) }
    {
        match self
            .line
            .push_as::<Sent, R>(rt, &mut self.pass, Sealed::new(packet))
        {
            Ok(()) => Ok(()),
            Err(sealed) => Err(sealed.into_packet()),
        }
    }
}

impl<B: Drop, L: Label<Block = B>> Receiver<B, L> {
    /// Takes the next packet, which fits the label. `None` only where the link was empty at some moment of the call. It takes no memory, and may
    /// wait inside the queue.
    pub fn recv<R: Wait>(&mut self, rt: &R) -> Option<Packet<B>>
        ensures same { (self.new.pass.table_id ≡ self.old.pass.table_id) × (self.new.line ≡ self.old.line) }
        ensures got { IfSome result (λ p. (view self.new.pass).got ≡ (view self.old.pass).got ++ p ∷ []) }
        ensures fits { IfSome result (λ p. PacketFits L.facts p) }
        ensures none { IfNone result ((view self.new.pass).got ≡ (view self.old.pass).got) }
    {
        let sealed = self.line.pop_as::<Got, R>(rt, &mut self.pass)?;
        Some(sealed.into_packet())
    }
}

/// Ends a link, whose two ends these are: what was received is a beginning of what was sent. It takes no memory.
pub fn close<B: Drop, L: Label<Block = B>, R: Wait>(
    _rt: &R,
    sender: Sender<B, L>,
    receiver: Receiver<B, L>,
)
    requires { sender.pass.table_id ≡ receiver.pass.table_id }
    ensures { Begins (view sender.pass).sent (view receiver.pass).got }
{
    let Sender { line, mut pass } = sender;
    let Receiver {
        line: theirs,
        pass: other,
    } = receiver;
    line.absorb::<Roles>(&mut pass, other);
    line.learn_as::<Total>(&mut pass);
    drop(theirs);
    drop(line);
}
