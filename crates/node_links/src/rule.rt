//! The rule of a link, and what its calls tell.
ghost use Rattle.std.specs.Prelude.{◌≡◌, [], ◌∷◌, ◌++◌, true, false};
ghost use Rattle.node_links.specs.Links.{log};

use crate::packet::Sealed;
use cluster_msgs::{Label, Packet};
use crossbeam_queue::protocol::{Join, Lesson, Outcome, Protocol, Split};
use std::collections::LinkedList;

/// What a pass may do (push, pop), what it has pushed and what it has popped. No value of it is made.
pub struct Known<B> {
    pub pushes: bool,
    pub pops: bool,
    pub sent: LinkedList<Packet<B>>,
    pub got: LinkedList<Packet<B>>,
}

pub struct InOrder;

impl<B: Drop, L: Label<Block = B>> Protocol<Sealed<B, L>, Known<B>> for InOrder {
    ghost use Rattle.std.specs.Prelude.{true, []};
    ghost use Rattle.node_links.specs.Links.{log, InOrder as Relayed};

    ghost holds = { Relayed };

    ghost first = { log true true [] [] };
}

pub(crate) struct Roles;

impl<B> Split<Known<B>> for Roles {
    ghost left = { λ v. log true false v.sent [] };

    ghost right = { λ v. log false true [] v.got };
}

impl<B> Join<Known<B>> for Roles {
    ghost both = { λ v w. log true true v.sent w.got };

    ghost spent = { log false false [] [] };
}

pub(crate) struct Sent;

impl<B: Drop, L: Label<Block = B>> Outcome<Sealed<B, L>, Known<B>> for Sent {
    ghost then = { λ v x w. w ≡ log v.pushes v.pops (v.sent ++ x ∷ []) v.got };
}

// A full queue: all that it held was sent, and is the end of that list.
impl<B: Drop, L: Label<Block = B>> Lesson<Sealed<B, L>, Known<B>> for Sent {
    ghost use Rattle.std.specs.Prelude.{List, ◌≡◌, ◌++◌};
    ghost use Rattle.cluster_msgs.specs.declared.packets.Packet.{Packet};

    ghost fact = { λ v items. (got : List (Packet B)) × (v.sent ≡ got ++ items) };
}

pub(crate) struct Got;

impl<B: Drop, L: Label<Block = B>> Outcome<Sealed<B, L>, Known<B>> for Got {
    ghost then = { λ v x w. w ≡ log v.pushes v.pops v.sent (v.got ++ x ∷ []) };
}

// An empty queue.
impl<B: Drop, L: Label<Block = B>> Lesson<Sealed<B, L>, Known<B>> for Got {
    ghost fact = { λ v items. Unit {0} };
}

pub(crate) struct Total;

impl<B: Drop, L: Label<Block = B>> Lesson<Sealed<B, L>, Known<B>> for Total {
    ghost fact = { λ v items. v.sent ≡ v.got ++ items };
}
