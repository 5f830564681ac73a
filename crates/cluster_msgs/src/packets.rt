//! What a link carries.
use crate::lists::Sequence;
use crate::messages::Message;
use std::sync::Arc;

/// A message with the blocks that go with it: one per key of `found`, in order, and none with other messages.
#[derive(Drop)]
pub struct Packet<B> {
    pub message: Message,
    pub blocks: Sequence<Arc<B>>,
}
