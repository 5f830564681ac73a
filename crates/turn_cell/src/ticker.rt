//! Numbers that threads draw, each once.
ghost use Rattle.std.specs.Prelude.{◌≡◌, ℕ, ◌+◌, ◌-◌, ◌^◌, ◌<◌, ◌≤◌, [], IfOk};
ghost use Rattle.turn_cell.specs.Ticks.{drawn, both_drawn, IsOnce, Drew as Drawing};

use crate::cell::OutOfMemory;
use atomic_table::{Join, Play, Split, Table, TableRule};
use std::alloc::Global;
use std::collections::LinkedList;
use std::marker::{Brand, PhantomData};

/// What a seat knows: the numbers that it drew, and how many it may draw. No value of it is made.
pub struct Drawn {
    pub drawn: LinkedList<u64>,
    pub rights: u64,
}

pub struct Draws;

impl TableRule<(), Drawn, ()> for Draws {
    ghost use Rattle.turn_cell.specs.Ticks.{TickRule, drawn, at_most};
    ghost use Rattle.std.specs.Prelude.{[]};

    ghost holds = { λ _. TickRule };

    ghost first = { λ _. drawn [] at_most };
}

pub struct Drew;

impl Play<(), Drawn> for Drew {
    ghost use Rattle.turn_cell.specs.Ticks.{drew};

    ghost then = { drew };
}

pub struct Weighed;

impl Play<(), Drawn> for Weighed {
    ghost use Rattle.turn_cell.specs.Ticks.{weighed};

    ghost then = { weighed };
}

/// How many rights a split moves.
pub trait Amount {
    ghost use Rattle.std.specs.Prelude.{ℕ};

    ghost amount: { ℕ };
}

impl Amount for Brand {
    ghost amount = { 0 };
}

pub struct CutBy<K> {
    of: PhantomData<K>,
}

impl<K: Amount> Split<Drawn> for CutBy<K> {
    ghost use Rattle.std.specs.Prelude.{[], ◌-◌};
    ghost use Rattle.turn_cell.specs.Ticks.{drawn};

    ghost left = { λ v. drawn v.drawn (v.rights - K.amount) };

    ghost right = { λ v. drawn [] K.amount };
}

pub struct Pair;

impl Join<Drawn> for Pair {
    ghost use Rattle.std.specs.Prelude.{[]};
    ghost use Rattle.turn_cell.specs.Ticks.{drawn, both_drawn};

    ghost both = { both_drawn };

    ghost spent = { drawn [] 0 };
}

/// Numbers that threads draw, each once. Every seat of it draws from the same row of numbers, from 0 on.
#[derive(Drop)]
pub struct Ticker {
    pub table: Table<(), Drawn, (), Draws, Global>,
    ghost sized: { table.shared.table_id.words ≡ 1 },
}

/// The right to draw so many numbers. Contracts see in `seat.me.0` which it drew and how many rights are left.
#[derive(Drop)]
pub struct Seat {
    pub seat: atomic_table::Seat<(), Drawn>,
    rights: u64,
    ghost same: { rights ≡ seat.me.0.rights },
    ghost rests: { seat.me.1 ≡ [] },
}

impl Ticker {
    /// A ticker, and the seat that has all 2^63 rights to draw.
    ///
    /// # Errors
    /// Where there is no memory.
    pub fn new(alloc: Global) -> Result<(Ticker, Seat), OutOfMemory>
        ensures own { IfOk result (λ r. r.1.seat.table_id ≡ r.0.table.shared.table_id) }
        ensures rights { IfOk result (λ r. r.1.seat.me.0 ≡ drawn [] (2 ^ 63)) }
    {
        match Table::of_words(alloc, &[0], &()) {
            Ok((table, seat)) => Ok((
                Ticker { table },
                Seat {
                    seat,
                    rights: 1 << 63,
                },
            )),
            Err(_) => Err(OutOfMemory),
        }
    }

    fn split_by<K: Amount>(&self, seat: &mut Seat, rights: u64) -> Seat
        requires own { seat.old.seat.table_id ≡ self.now.table.shared.table_id }
        requires amount { (rights ≡ K.amount) × (rights ≤ seat.old.seat.me.0.rights) }
        ensures same { seat.new.seat.table_id ≡ seat.old.seat.table_id }
        ensures kept { seat.new.seat.me.0 ≡ drawn seat.old.seat.me.0.drawn (seat.old.seat.me.0.rights - rights) }
        ensures given { (result.seat.table_id ≡ seat.old.seat.table_id) × (result.seat.me.0 ≡ drawn [] rights) }
    {
        let new = self.table.shared.split_seat::<CutBy<K>>(&mut seat.seat);
        seat.rights -= rights;
        Seat { seat: new, rights }
    }

    /// Moves so many rights into a new seat, which has drawn nothing.
    pub fn split(&self, seat: &mut Seat, rights: u64) -> Seat
        requires own { seat.old.seat.table_id ≡ self.now.table.shared.table_id }
        requires amount { rights ≤ seat.old.seat.me.0.rights }
        ensures same { seat.new.seat.table_id ≡ seat.old.seat.table_id }
        ensures kept { seat.new.seat.me.0 ≡ drawn seat.old.seat.me.0.drawn (seat.old.seat.me.0.rights - rights) }
        ensures given { (result.seat.table_id ≡ seat.old.seat.table_id) × (result.seat.me.0 ≡ drawn [] rights) }
    {
        self.split_by::<Brand>(seat, rights)
    }

    /// Takes in another seat: the numbers that it drew, and its rights. No number was drawn by both.
    pub fn join(&self, seat: &mut Seat, other: Seat)
        requires own { seat.old.seat.table_id ≡ self.now.table.shared.table_id }
        requires other { other.seat.table_id ≡ self.now.table.shared.table_id }
        ensures same { seat.new.seat.table_id ≡ seat.old.seat.table_id }
        ensures both { seat.new.seat.me.0 ≡ both_drawn seat.old.seat.me.0 other.seat.me.0 }
        ensures once { IsOnce seat.new.seat.me.0.drawn }
    {
        let Seat {
            seat: other,
            rights,
        } = other;
        self.table.shared.join_seat::<Pair>(&mut seat.seat, other);
        self.table.shared.load::<Weighed>(&mut seat.seat, 0);
        seat.rights += rights;
    }

    /// Draws a number below 2^63, which no seat draws again, for one right. `None` exactly where no right is left. It waits for nobody.
    pub fn draw(&self, seat: &mut Seat) -> Option<u64>
        requires own { seat.old.seat.table_id ≡ self.now.table.shared.table_id }
        ensures same { seat.new.seat.table_id ≡ seat.old.seat.table_id }
        ensures drew { Drawing seat.old.seat.me.0 result seat.new.seat.me.0 }
    {
        if seat.rights == 0 {
            return None;
        }
        seat.rights -= 1;
        Some(self.table.shared.fetch_add::<Drew>(&mut seat.seat, 0, 1))
    }
}

impl Seat {
    /// How many numbers it may draw.
    pub fn rights(&self) -> u64
        ensures { result ≡ self.now.seat.me.0.rights }
    {
        self.rights
    }
}
