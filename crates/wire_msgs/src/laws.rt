//! A law of messages, the contract of a function that does nothing.

ghost use Rattle.std.specs.Prelude.{◌≡◌, Ok};
ghost use Rattle.cluster_msgs.specs.declared.messages.Message.{Message};
ghost use Rattle.msgpack_frames.specs.Data.{Data};
ghost use Rattle.wire_msgs.specs.Fields.{IsMessage};
ghost use Rattle.wire_msgs.specs.Messages.{answer};
ghost use Rattle.wire_msgs.specs.Written.{Reads};

/// A map with the fields of a message, each once and no others, is read as this message, in whatever order they stand,
/// where the numbers of the message fit their fields.
pub fn any_order()
    ensures { (d : Data) (m : Message) → Reads m → IsMessage d m → answer d ≡ Ok m }
{}
