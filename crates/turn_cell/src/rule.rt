//! The rule of a cell, and what each of its steps tells.

ghost use Rattle.std.specs.Prelude.{◌≡◌};

use crate::kept::Kept;
use atomic_table::{Join, Play, Split, TableRule};
use cluster_msgs::{Entry, Label};
use std::collections::LinkedList;
use std::marker::{Model, PhantomData};
use std::snapshot::Snapshot;

/// A state that fits the label. In a clause it is the state. It lies on the heap, so that a turn moves a pointer and not the state.
pub struct Housed<S: Kept, L: Label<Block = S::Block>> {
    state: Box<S>,
    label: PhantomData<L>,
}

impl<S: Kept, L: Label<Block = S::Block>> Model for Housed<S, L> {
    ghost Value = { S };

    ghost view = { λ h. h.state.value };

    ghost invariant = { λ h. S.fits L.facts h.state.value };
}

impl<S: Kept, L: Label<Block = S::Block>> Housed<S, L> {
    pub fn new(state: Box<S>) -> Housed<S, L>
        requires { S.fits L.facts state.value }
        ensures { result ≡ state.value }
    {
        Housed {
            state,
            label: PhantomData,
        }
    }

    pub fn into_state(self) -> Box<S>
        ensures same { result.value ≡ self }
        ensures fits { S.fits L.facts result.value }
    {
        let Housed { state, label: _ } = self;
        state
    }
}

/// What a cell is made with.
#[derive(Drop)]
pub struct Start<S> {
    pub state: Snapshot<S>,
    pub parts: u64,
}

/// What a pass knows. No value of it is made.
pub struct View<S> {
    /// The state that the cell was made with.
    pub start: Option<S>,
    /// How many parts the cell was made with.
    pub total: u64,
    pub seen: LinkedList<Entry>,
    pub mine: LinkedList<Entry>,
    pub parts: u64,
    /// The state as it is known while it is out with this pass.
    pub out: Option<S>,
}

/// The rule of a cell.
pub struct InTurns;

impl<S: Kept, L: Label<Block = S::Block>> TableRule<Option<Housed<S, L>>, View<S>, Start<S>>
    for InTurns {
    ghost use Rattle.turn_cell.specs.Turns.{TurnRule, first_view};

    ghost holds = { λ key. TurnRule S.entries S.core S.cut S.steps key };

    ghost first = { λ key. first_view key };
}

pub struct Takes;

impl<S: Kept, L: Label<Block = S::Block>> Play<Option<Housed<S, L>>, View<S>> for Takes {
    ghost use Rattle.turn_cell.specs.Turns.{took};

    ghost then = { took S.entries S.core S.cut S.steps };
}

pub struct Reads;

impl<S: Kept, L: Label<Block = S::Block>> Play<Option<Housed<S, L>>, View<S>> for Reads {
    ghost use Rattle.turn_cell.specs.Turns.{read};

    ghost then = { read S.entries S.core S.cut S.steps };
}

pub struct Counts;

impl<S: Kept, L: Label<Block = S::Block>> Play<Option<Housed<S, L>>, View<S>> for Counts {
    ghost use Rattle.turn_cell.specs.Turns.{counted};

    ghost then = { counted S.entries S.core S.cut S.steps };
}

pub struct Gives;

impl<S: Kept, L: Label<Block = S::Block>> Play<Option<Housed<S, L>>, View<S>> for Gives {
    ghost use Rattle.turn_cell.specs.Turns.{gave};

    ghost then = { gave S.entries S.core S.cut S.steps };
}

pub struct Cut;

impl<S> Split<View<S>> for Cut {
    ghost use Rattle.turn_cell.specs.Turns.{left_view, right_view};

    ghost left = { left_view };

    ghost right = { right_view };
}

pub struct Glue;

impl<S> Join<View<S>> for Glue {
    ghost use Rattle.turn_cell.specs.Turns.{both_views, spent};

    ghost both = { both_views };

    ghost spent = { spent };
}
