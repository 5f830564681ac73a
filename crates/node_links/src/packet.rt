//! What a link carries.
ghost use Rattle.std.specs.Prelude.{◌≡◌};
ghost use Rattle.cluster_msgs.specs.Labels.{PacketFits};

use cluster_msgs::{Label, Packet};
use std::marker::{Model, PhantomData};

/// A packet that fits the label. In a clause it is the packet.
#[derive(Drop)]
pub struct Sealed<B: Drop, L: Label<Block = B>> {
    packet: Packet<B>,
    label: PhantomData<L>,
}

impl<B: Drop, L: Label<Block = B>> Model for Sealed<B, L> {
    ghost use Rattle.cluster_msgs.specs.declared.packets.Packet.{Packet};
    ghost use Rattle.cluster_msgs.specs.Labels.{PacketFits};

    ghost Value = { Packet B };

    ghost view = { λ s. s.packet };

    ghost invariant = { λ s. PacketFits L.facts s.packet };
}

impl<B: Drop, L: Label<Block = B>> Sealed<B, L> {
    pub fn new(packet: Packet<B>) -> Sealed<B, L>
        requires { PacketFits L.facts packet }
        ensures { result ≡ packet }
    {
        Sealed {
            packet,
            label: PhantomData,
        }
    }

    pub fn into_packet(self) -> Packet<B>
        ensures same { result ≡ self }
        ensures fits { PacketFits L.facts result }
    {
        let Sealed { packet, label: _ } = self;
        packet
    }
}
