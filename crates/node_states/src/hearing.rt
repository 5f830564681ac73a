//! What a worker hears: the packets that came to it.
ghost use Rattle.std.specs.Prelude.{◌≡◌, IfOk, IfSome};
ghost use Rattle.cluster_msgs.specs.Labels.{PacketFits};
ghost use Rattle.worker_core.specs.Core.{facts};
ghost use Rattle.node_states.specs.Spills.{MayMake};

use crate::links::Source;
use crate::store::BlockStore;
use crate::worker::WorkerNode;
use crate::worker_choice::{Choice, Request, down_of, paired, request_of};
use cluster_msgs::{Asker, Label, Message, Packet, Peer, Stop};

impl<B: Drop, L: Label<Block = B>, F: Drop, S: BlockStore<B, L>> WorkerNode<B, L, F, S> {
    /// What a packet tells of. A request waits, and tells of nothing yet.
    pub(crate) fn deliver(
        &mut self,
        source: Source,
        packet: Packet<B>,
    ) -> Result<Option<Choice<B, L>>, Stop>
        requires { PacketFits L.facts packet }
        ensures same { (self.new.history ≡ self.old.history) × (self.new.feeds ≡ self.old.feeds) × (self.new.ending ≡ self.old.ending) }
        ensures says { IfOk result (λ taken. IfSome taken
            (λ c. MayMake self.old.history.id (facts self.old.history.book.core.core) self.old.history.recorded c.event c.message c.said)) }
    {
        match source {
            Source::Scheduler => Ok(Some(self.hear(packet)?)),
            Source::Worker(peer) => self.meet(peer, packet),
            Source::Client(client) => {
                self.held = Some(request_of(Asker::Client(client), packet)?);
                Ok(None)
            }
        }
    }

    /// A message of the scheduler.
    fn hear(&self, packet: Packet<B>) -> Result<Choice<B, L>, Stop>
        ensures { IfOk result (λ c. MayMake self.now.history.id (facts self.now.history.book.core.core) self.now.history.recorded c.event c.message c.said) }
    {
        let down = down_of(packet)?;
        Ok(Choice::told(self.alloc, self.history.id(), down)?)
    }

    /// A request or an answer of another worker.
    #[tactic(auto, using(node_links::proofs::Parcels::parcel_fits))]
    fn meet(&mut self, peer: u32, packet: Packet<B>) -> Result<Option<Choice<B, L>>, Stop>
        requires { PacketFits L.facts packet }
        ensures same { (self.new.history ≡ self.old.history) × (self.new.feeds ≡ self.old.feeds) × (self.new.ending ≡ self.old.ending) }
        ensures says { IfOk result (λ taken. IfSome taken
            (λ c. MayMake self.old.history.id (facts self.old.history.book.core.core) self.old.history.recorded c.event c.message c.said)) }
    {
        let Packet { message, blocks } = packet;
        match message {
            Message::Peer(Peer::GetData { ask, keys }) => {
                drop(blocks);
                let asker = Asker::Worker(peer);
                self.held = Some(Request { asker, ask, keys });
                Ok(None)
            }
            Message::Peer(Peer::Data { ask, found }) => {
                let (found, brought) = paired(self.alloc, found, blocks)?;
                let id = self.history.id();
                Ok(Some(Choice::gathered(self.alloc, id, peer, ask, found, brought)?))
            }
            other => {
                drop(other);
                drop(blocks);
                Err(Stop::Refused)
            }
        }
    }
}
