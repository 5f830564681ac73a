//! A row of cells while it is made, and what is left of it.
ghost use Rattle.std.specs.Prelude.{◌≡◌, ◌+◌, ◌<◌, ◌≤◌, ◌++◌, ◌∷◌, [], All, Some, true, false, map, length, vec_len};
ghost use Rattle.std.specs.Vec.{vec_capacity};
ghost use Rattle.turn_cell.specs.Rows.{AllAt, IsClosed, IsWhole, berth_of};

use crate::cell::{Pass, TurnCell};
use crate::kept::Kept;
use crate::row::{Cells, Home, Places};
use cluster_msgs::Label;
use std::alloc::Global;
use std::marker::Brand;

/// Cells with their passes, which have all parts, and room for the states when the cells are closed.
pub struct Made<S: Kept, L: Label<Block = S::Block>> {
    pub cells: Vec<TurnCell<S, L>>,
    pub passes: Vec<Pass<S, L>>,
    pub states: Vec<S>,
    pub parts: u32,
    ghost pairs: { AllAt (λ p c. c.table.shared.table_id ≡ p.seat.table_id) passes.items cells.items },
    ghost whole: { All (λ p. IsWhole parts p.seat) passes.items },
    ghost some_part: { 0 < parts },
    ghost empty: { states.items ≡ [] },
    ghost room: { vec_len passes ≤ vec_capacity states },
}

impl<S: Kept, L: Label<Block = S::Block>> Made<S, L> {
    /// A row without a cell yet, each of whose cells will have so many parts.
    pub fn new(alloc: Global, parts: u32) -> Self
        requires { 0 < parts }
        ensures passes { result.passes.items ≡ [] }
        ensures parts { result.parts ≡ parts }
    {
        Made {
            cells: Vec::new(alloc),
            passes: Vec::new(alloc),
            states: Vec::new(alloc),
            parts,
        }
    }

    /// The row, whose places these are; its passes; and room for the states that come back.
    pub fn into_row<K: Places<S>>(self) -> (Cells<K, S, L>, Home<K, S, L>, Vec<S>)
        requires berths { K.berths ≡ map (λ p. berth_of p.seat) self.passes.items }
        requires total { K.total ≡ self.parts }
        ensures parts { result.1.parts ≡ K.total }
        ensures empty { result.2.items ≡ [] }
        ensures room { length K.berths ≤ vec_capacity result.2 }
    {
        let Made {
            cells,
            passes,
            states,
            parts,
        } = self;
        (Cells::new(cells), Home::new(passes, parts), states)
    }
}

impl<S: Kept, L: Label<Block = S::Block>> Made<S, L> {
    fn close_at<K: Places<S>>(self) -> Vec<S>
        requires berths { K.berths ≡ map (λ p. berth_of p.seat) self.passes.items }
        requires total { K.total ≡ self.parts }
        ensures { AllAt (λ t x. IsClosed S.entries S.core S.cut S.steps t.1 x × S.fits L.facts x) K.berths result.items }
    {
        let (cells, home, states) = self.into_row::<K>();
        cells.close(home, states)
    }

    /// Closes the cells, to which no driver came, and gives their states back.
    pub fn close(self) -> Vec<S>
        ensures { AllAt (λ t x. IsClosed S.entries S.core S.cut S.steps t.1 x × S.fits L.facts x) (map (λ p. berth_of p.seat) self.passes.items) result.items }
    {
        self.close_at::<Brand>()
    }
}

impl<S: Kept, L: Label<Block = S::Block>> Made<S, L> {
    // Room for one more of each; false where there is no memory.
    fn reserve(&mut self) -> bool
        ensures passes { self.new.passes.items ≡ self.old.passes.items }
        ensures parts { self.new.parts ≡ self.old.parts }
        ensures cells { result ≡ true → vec_len self.new.cells < vec_capacity self.new.cells }
        ensures room { result ≡ true → vec_len self.new.passes < vec_capacity self.new.passes }
        ensures states { result ≡ true → vec_len self.new.passes < vec_capacity self.new.states }
    {
        if self.cells.reserve(1).is_err() {
            return false;
        }
        if self.passes.reserve(1).is_err() {
            return false;
        }
        let wanted = self.passes.len() + 1;
        self.states.reserve(wanted).is_ok()
    }

    fn push(self, cell: TurnCell<S, L>, pass: Pass<S, L>) -> Self
        requires cells { vec_len self.cells < vec_capacity self.cells }
        requires room { vec_len self.passes < vec_capacity self.passes }
        requires states { vec_len self.passes < vec_capacity self.states }
        requires own { cell.table.shared.table_id ≡ pass.seat.table_id }
        requires whole { IsWhole self.parts pass.seat }
        ensures parts { result.parts ≡ self.parts }
        ensures passes { result.passes.items ≡ self.passes.items ++ pass ∷ [] }
    {
        let Made {
            mut cells,
            mut passes,
            states,
            parts,
        } = self;
        cells.push_reserved(cell);
        passes.push_reserved(pass);
        Made {
            cells,
            passes,
            states,
            parts,
        }
    }
}

impl<S: Kept + Drop, L: Label<Block = S::Block>> Made<S, L> {
    /// Adds a cell with this state and all its parts. False where no memory is left for it: the row is then as it was, and the state is dropped.
    pub fn add(self, alloc: Global, state: S) -> (Self, bool)
        requires empty { S.entries state ≡ [] }
        requires fits { S.fits L.facts state }
        ensures parts { result.0.parts ≡ self.parts }
        ensures added { result.1 ≡ true → (p : _) × (result.0.passes.items ≡ self.passes.items ++ p ∷ []) × (p.seat.me.0.start ≡ Some state) }
        ensures same { result.1 ≡ false → result.0.passes.items ≡ self.passes.items }
    {
        let mut made = self;
        if !made.reserve() {
            drop(state);
            return (made, false);
        }
        match TurnCell::new(state, made.parts, alloc) {
            Ok((cell, pass)) => (made.push(cell, pass), true),
            Err((state, _)) => {
                drop(state);
                (made, false)
            }
        }
    }
}
