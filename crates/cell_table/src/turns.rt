//! One cell with two drivers, in one thread.
ghost use Rattle.std.specs.Prelude.{◌≡◌, ◌+◌, ◌<◌, map, length};
ghost use Rattle.turn_cell.specs.Rows.{berth_of};

use crate::node::{CountOne, Node, Plain};
use std::alloc::Global;
use std::io;
use std::marker::Brand;
use std::sync::Wait;
use turn_cell::{Act, Cells, Made, Passes, Places, Stamps};

/// How many entries are stored.
#[derive(Clone, Copy)]
struct Look;

impl Act<Node, Plain> for Look {
    type Out = u64;

    fn act(self, state: &mut Node) -> u64 {
        state.book.stored()
    }
}

/// Tries a turn with other passes while it holds the turn itself. Whether that was refused.
struct Nested<'a, K: Places<Node>> {
    cells: &'a Cells<K, Node, Plain>,
    other: &'a mut Passes<K, Node, Plain>,
    at: usize,
    ghost inside: { at < length K.berths },
}

impl<'a, K: Places<Node>> Act<Node, Plain> for Nested<'a, K> {
    type Out = bool;

    fn act(self, _state: &mut Node) -> bool {
        let Nested { cells, other, at } = self;
        other.try_turn(cells, at, Look).is_err()
    }
}

/// What the turns told.
#[derive(Clone, Copy)]
pub struct Told {
    pub refused: bool,
    pub later: u64,
    pub stored: u64,
}

// While the first driver has the turn, the second is refused; afterwards it sees the entry that the first made.
fn turns_at<R: Wait, K: Places<Node>>(
    rt: &R,
    alloc: Global,
    made: Made<Node, Plain>,
    stamps: &mut Stamps,
) -> Option<Told>
    requires berths { K.berths ≡ map (λ p. berth_of p.seat) made.passes.items }
    requires total { K.total ≡ made.parts }
    requires three { made.parts ≡ 3 }
{
    let (cells, home, states) = made.into_row::<K>();
    let (home, mut first) = match home.split(alloc, &cells) {
        Ok(two) => two,
        Err(home) => {
            cells.close(home, states);
            return None;
        }
    };
    let (home, mut second) = match home.split(alloc, &cells) {
        Ok(two) => two,
        Err(home) => {
            let home = home.join(&cells, first);
            cells.close(home, states);
            return None;
        }
    };
    let (refused, later) = take_turns(rt, &cells, &mut first, &mut second, stamps);
    let home = home.join(&cells, first).join(&cells, second);
    let states = cells.close(home, states);
    let stored = match states.as_slice().first() {
        Some(node) => node.book.stored(),
        None => 0,
    };
    Some(Told {
        refused,
        later,
        stored,
    })
}

fn take_turns<R: Wait, K: Places<Node>>(
    rt: &R,
    cells: &Cells<K, Node, Plain>,
    first: &mut Passes<K, Node, Plain>,
    second: &mut Passes<K, Node, Plain>,
    stamps: &mut Stamps,
) -> (bool, u64) {
    if cells.len() == 0 {
        return (false, 0);
    }
    let nested = Nested {
        cells,
        other: second,
        at: 0,
    };
    let refused = first.turn(rt, cells, 0, nested);
    first.turn(rt, cells, 0, CountOne { stamps });
    match second.try_turn(cells, 0, Look) {
        Ok(stored) => (refused, stored),
        Err(_) => (refused, 0),
    }
}

fn turns<R: Wait>(rt: &R, alloc: Global) -> Option<Told> {
    let mut stamps = Stamps::new(alloc).ok()?;
    let node = Node::new(alloc, 8, 1000)?;
    let (made, added) = Made::<Node, Plain>::new(alloc, 3).add(alloc, node);
    let told = turns_at::<R, Brand>(rt, alloc, made, &mut stamps);
    if added { told } else { None }
}

/// Plays it, and prints what came of it.
pub fn play<R: Print + Wait>(rt: &R, alloc: Global) -> io::Result<()> {
    match turns(rt, alloc) {
        Some(told) => {
            println!(rt;
                "refused {}, then {} entries, closed with {}",
                told.refused, told.later, told.stored
            )
        }
        None => println!(rt; "no memory"),
    }
}
