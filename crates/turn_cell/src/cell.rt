//! The cell, its passes and its turns.
ghost use Rattle.std.specs.Prelude.{◌≡◌, ◌<◌, ◌≤◌, [], IfOk, IfErr, length};
ghost use Rattle.cluster_msgs.specs.declared.events.Entry.{Entry};
ghost use Rattle.turn_cell.specs.Turns.{Rests, Holds, Entered, WasTaken, Went, WentBy, Stayed, Ended};
ghost use Rattle.turn_cell.specs.Turns.{left_with, left_view, right_view, both_views, opening_view};

use crate::kept::Kept;
use crate::rule::{Counts, Cut, Gives, Glue, Housed, InTurns, Reads, Start, Takes, View};
use atomic_table::{Refused, Seat, Table};
use cluster_msgs::Label;
use std::alloc::{AllocFailed, Global};
use std::snapshot::Snapshot;
use std::sync::Wait;
use std::thread;

/// There was no memory.
#[derive(Drop)]
pub struct OutOfMemory;

/// Another pass had the turn.
#[derive(Drop)]
pub struct Busy;

/// A state that threads take in turns. Every state that is taken fits the label `L`.
pub struct TurnCell<S: Kept, L: Label<Block = S::Block>> {
    pub table: Table<Option<Housed<S, L>>, View<S>, Start<S>, InTurns, Global>,
    ghost sized: { (table.shared.table_id.words ≡ 2) × (table.shared.table_id.slots ≡ 1) },
}

/// A caller's seat at a cell. Contracts see what it knows in `seat.me.0`: the entries that it has seen, those of them that are its own, and how
/// many parts of the cell it has. It is joined into another pass or closes the cell, and can't be dropped.
pub struct Pass<S: Kept, L: Label<Block = S::Block>> {
    pub seat: Seat<Option<Housed<S, L>>, View<S>>,
    seen: u64,
    ghost live: { 0 < seat.me.0.parts },
    ghost seen_is: { seen ≡ length seat.me.0.seen },
}

/// The state, taken out of its cell, and for contracts what it was when it was taken.
pub struct Turn<S: Kept> {
    pub state: Box<S>,
    pub taken: Snapshot<S>,
}

impl<S: Kept, L: Label<Block = S::Block>> TurnCell<S, L> {
    /// A cell with this state, and the pass that has all its parts.
    ///
    /// # Errors
    /// The state comes back where there is no memory.
    pub fn new(
        state: S,
        parts: u32,
        alloc: Global,
    ) -> Result<(TurnCell<S, L>, Pass<S, L>), (S, OutOfMemory)>
        requires parts { 0 < parts }
        requires empty { S.entries state ≡ [] }
        requires fits { S.fits L.facts state }
        ensures own { IfOk result (λ r. r.1.seat.table_id ≡ r.0.table.shared.table_id) }
        ensures made { IfOk result (λ r. r.1.seat.me ≡ (opening_view state parts, [])) }
        ensures refused { IfErr result (λ r. r.0 ≡ state) }
    {
        let start = Start {
            state: Snapshot::of(&state),
            parts: parts as u64,
        };
        let state = match Box::new(alloc, state) {
            Ok(state) => state,
            Err(AllocFailed { value }) => return Err((value, OutOfMemory)),
        };
        let mut slots = match Vec::with_capacity(alloc, 1) {
            Ok(slots) => slots,
            Err(_) => return Err((Box::into_inner(state), OutOfMemory)),
        };
        slots.push_reserved(Some(Housed::new(state)));
        match Table::new(alloc, &[0, 0], slots, &start) {
            Ok((table, seat)) => Ok((TurnCell { table }, Pass { seat, seen: 0 })),
            Err(Refused { mut slots }) => match slots.pop() {
                Some(Some(housed)) => {
                    slots.destroy_empty();
                    Err((Box::into_inner(housed.into_state()), OutOfMemory))
                }
                _ => unreachable!(),
            },
        }
    }

    /// Takes the turn, and waits for nobody. The history of the state begins with all that the pass had seen, and the state is its replay.
    ///
    /// # Errors
    /// `Busy` where another pass had the turn at the one step at which this one asked for it. The pass is as it was. So a pass with all parts is
    /// never refused.
    pub fn try_enter(&self, pass: &mut Pass<S, L>) -> Result<Turn<S>, Busy>
        requires own { pass.old.seat.table_id ≡ self.now.table.shared.table_id }
        requires rests { Rests S.entries S.core S.cut S.steps pass.old.seat.me }
        ensures same { (pass.new.seat.table_id ≡ pass.old.seat.table_id) × (pass.new.seat.id ≡ pass.old.seat.id) }
        ensures busy { IfErr result (λ _. (pass.new.seat.me ≡ pass.old.seat.me) × WasTaken S.entries S.core S.cut S.steps pass.old.seat.me.0) }
        ensures shared { IfErr result (λ _. pass.old.seat.me.0.parts < pass.old.seat.me.0.total) }
        ensures remembered { IfOk result (λ t. t.taken.value ≡ t.state.value) }
        ensures taken { IfOk result (λ t. Entered S.entries S.core S.cut S.steps pass.old.seat.me.0 t.state.value pass.new.seat.me) }
        ensures fits { IfOk result (λ t. S.fits L.facts t.state.value) }
    {
        let shared = &self.table.shared;
        let found = shared.compare_exchange::<Takes>(&mut pass.seat, 0, 0, 1);
        if found != 0 {
            return Err(Busy);
        }
        pass.seen = shared.load::<Reads>(&mut pass.seat, 1);
        let Some(housed) = shared.exchange(&mut pass.seat, 0, None) else {
            unreachable!()
        };
        let state = housed.into_state();
        let taken = Snapshot::of(&*state);
        Ok(Turn { state, taken })
    }

    /// Takes the turn, and waits until it is free. What it tells is what `try_enter` tells.
    pub fn enter<R: Wait>(&self, rt: &R, pass: &mut Pass<S, L>) -> Turn<S>
        requires own { pass.old.seat.table_id ≡ self.now.table.shared.table_id }
        requires rests { Rests S.entries S.core S.cut S.steps pass.old.seat.me }
        ensures same { (pass.new.seat.table_id ≡ pass.old.seat.table_id) × (pass.new.seat.id ≡ pass.old.seat.id) }
        ensures remembered { result.taken.value ≡ result.state.value }
        ensures taken { Entered S.entries S.core S.cut S.steps pass.old.seat.me.0 result.state.value pass.new.seat.me }
        ensures fits { S.fits L.facts result.state.value }
    {
        for _ in rt.forever() {
            match self.try_enter(pass) {
                Ok(turn) => return turn,
                Err(_) => thread::yield_now(),
            }
        }
        unreachable!()
    }

    /// Gives the turn back, with a state that went on by one entry and one step of its core, or by neither, or past the limit of its history by
    /// one step at most. The pass has then seen the whole history, and a new entry is its own. It waits for nobody.
    pub fn leave(&self, pass: &mut Pass<S, L>, turn: Turn<S>)
        requires own { pass.old.seat.table_id ≡ self.now.table.shared.table_id }
        requires holds { Holds S.entries S.core S.cut S.steps turn.taken.value pass.old.seat.me }
        requires fits { S.fits L.facts turn.state.value }
        requires went { Went S.entries S.core S.cut S.steps turn.taken.value turn.state.value }
        ensures same { (pass.new.seat.table_id ≡ pass.old.seat.table_id) × (pass.new.seat.id ≡ pass.old.seat.id) }
        ensures left { pass.new.seat.me ≡ (left_with S.entries S.core S.cut S.steps pass.old.seat.me.0 turn.taken.value turn.state.value, []) }
    {
        let Turn { state, taken } = turn;
        let count = state.count();
        if count != pass.seen {
            self.leave_after(pass, &taken, state, count);
        } else {
            self.leave_as_taken(pass, &taken, state);
        }
    }

    // The state goes home first, then its entry is counted, then the turn is given back.
    fn leave_after(&self, pass: &mut Pass<S, L>, _taken: &Snapshot<S>, state: Box<S>, count: u64)
        requires own { pass.old.seat.table_id ≡ self.now.table.shared.table_id }
        requires holds { Holds S.entries S.core S.cut S.steps _taken.now.value pass.old.seat.me }
        requires fits { S.fits L.facts state.value }
        requires went { (e : Entry) × WentBy S.entries S.core S.cut S.steps _taken.now.value state.value e }
        requires count { count ≡ length (S.entries state.value) }
        ensures same { (pass.new.seat.table_id ≡ pass.old.seat.table_id) × (pass.new.seat.id ≡ pass.old.seat.id) }
        ensures left { pass.new.seat.me ≡ (left_with S.entries S.core S.cut S.steps pass.old.seat.me.0 _taken.now.value state.value, []) }
    {
        let shared = &self.table.shared;
        let gone = shared.exchange(&mut pass.seat, 0, Some(Housed::new(state)));
        let None = gone else { unreachable!() };
        shared.fetch_add::<Counts>(&mut pass.seat, 1, 1);
        pass.seen = count;
        shared.store::<Gives>(&mut pass.seat, 0, 0);
    }

    // The state goes home with the history that it had.
    fn leave_as_taken(&self, pass: &mut Pass<S, L>, _taken: &Snapshot<S>, state: Box<S>)
        requires own { pass.old.seat.table_id ≡ self.now.table.shared.table_id }
        requires holds { Holds S.entries S.core S.cut S.steps _taken.now.value pass.old.seat.me }
        requires fits { S.fits L.facts state.value }
        requires stayed { Stayed S.entries S.core S.cut S.steps _taken.now.value state.value }
        ensures same { (pass.new.seat.table_id ≡ pass.old.seat.table_id) × (pass.new.seat.id ≡ pass.old.seat.id) }
        ensures left { pass.new.seat.me ≡ (left_with S.entries S.core S.cut S.steps pass.old.seat.me.0 _taken.now.value state.value, []) }
    {
        let shared = &self.table.shared;
        let gone = shared.exchange(&mut pass.seat, 0, Some(Housed::new(state)));
        let None = gone else { unreachable!() };
        shared.store::<Gives>(&mut pass.seat, 0, 0);
    }

    /// Moves one part into a new pass, which has seen what this one had seen and has no entries of its own.
    pub fn split(&self, pass: &mut Pass<S, L>) -> Pass<S, L>
        requires own { pass.old.seat.table_id ≡ self.now.table.shared.table_id }
        requires parts { 2 ≤ pass.old.seat.me.0.parts }
        ensures same { (pass.new.seat.table_id ≡ pass.old.seat.table_id) × (pass.new.seat.id ≡ pass.old.seat.id) }
        ensures kept { pass.new.seat.me ≡ (left_view pass.old.seat.me.0, pass.old.seat.me.1) }
        ensures given { (result.seat.table_id ≡ pass.old.seat.table_id) × (result.seat.me ≡ (right_view pass.old.seat.me.0, [])) }
    {
        let seat = self.table.shared.split_seat::<Cut>(&mut pass.seat);
        let seen = pass.seen;
        Pass { seat, seen }
    }

    /// Takes in another pass that holds no turn: its parts and its own entries. The longer of what both had seen is what this one has seen.
    pub fn join(&self, pass: &mut Pass<S, L>, other: Pass<S, L>)
        requires own { pass.old.seat.table_id ≡ self.now.table.shared.table_id }
        requires other { other.seat.table_id ≡ self.now.table.shared.table_id }
        requires rests { Rests S.entries S.core S.cut S.steps other.seat.me }
        ensures same { (pass.new.seat.table_id ≡ pass.old.seat.table_id) × (pass.new.seat.id ≡ pass.old.seat.id) }
        ensures joined { pass.new.seat.me ≡ (both_views pass.old.seat.me.0 other.seat.me.0, pass.old.seat.me.1) }
    {
        let Pass { seat, seen } = other;
        self.table.shared.join_seat::<Glue>(&mut pass.seat, seat);
        if pass.seen < seen {
            pass.seen = seen;
        }
    }

    /// Gives the state back to the pass that has all parts. Its history has just the entries of this pass, each once.
    pub fn close(self, pass: Pass<S, L>) -> S
        requires own { pass.seat.table_id ≡ self.table.shared.table_id }
        requires all { pass.seat.me.0.parts ≡ pass.seat.me.0.total }
        requires rests { Rests S.entries S.core S.cut S.steps pass.seat.me }
        ensures ended { Ended S.entries S.core S.cut S.steps pass.seat.me.0 result }
        ensures fits { S.fits L.facts result }
    {
        let TurnCell { table } = self;
        let Pass { seat, seen: _ } = pass;
        let mut closed = table.close_with(seat);
        let housed = closed.take(0);
        closed.free();
        match housed {
            Some(housed) => Box::into_inner(housed.into_state()),
            None => unreachable!(),
        }
    }
}
