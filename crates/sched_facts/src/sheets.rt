//! Rows in pages. A row takes the memory of all its pages when it is made, but a page is filled only once a member of
//! its own is written, so that a row of many keys is made as fast as one of few, and a write takes no memory.
ghost use Rattle.std.specs.Prelude.{◌≡◌, ℕ, ◌+◌, ◌*◌, ◌/◌, ◌<◌, ◌≤◌, ◌^◌, ◌++◌, ◌∷◌, [], None, IfOk, OnOk, OnErr, length, slice_index, vec_len};
ghost use Rattle.std.specs.Vec.{vec_capacity};
ghost use Rattle.fact_rows.specs.Rows.{cell, height, read, width};
ghost use Rattle.cluster_rules.specs.Functions.{put, put_pair};
ghost use Rattle.sched_facts.specs.Sheets.{IsPaged, member, spot_of};

use std::alloc::{AllocError, Global};
use std::marker::Model;

/// The keys of a page.
const PAGE: usize = 128;

/// A row with one member per key, seen as the list of its members. Only pages with a written member have members of
/// their own: page 0 stands for all others.
#[derive(Drop)]
pub struct Sheet<T> {
    rest: T,
    keys: u32,
    /// The page of each place, which is as many keys as a page has.
    places: Vec<u32>,
    /// The members, page by page.
    items: Vec<T>,
}

impl<T> Model for Sheet<T> {
    ghost use Rattle.std.specs.Prelude.{List};
    ghost use Rattle.std.specs.Vec.{vec_capacity};
    ghost use Rattle.sched_facts.specs.Sheets.{IsSheet, members};

    ghost Value = { List T };

    ghost view = { λ s. members s.rest s.places.items s.items.items s.keys };

    ghost invariant = { λ s. IsSheet s.rest s.keys s.places.items s.items.items (vec_capacity s.items) };
}

impl<T: Copy + Drop> Sheet<T> {
    /// A row of this many equal members, or want of memory.
    pub fn new(alloc: Global, keys: u32, rest: T) -> Result<Self, AllocError>
        ensures length { IfOk result (λ sheet. length sheet ≡ keys) }
        ensures same { IfOk result (λ sheet. (k : ℕ) → read sheet rest k ≡ rest) }
    {
        let count = keys as usize / PAGE + 1;
        let places = vec![in alloc; 0; count]?;
        let mut items = Vec::with_capacity(alloc, PAGE * (count + 1))?;
        add_page(&mut items, rest);
        Ok(Sheet {
            rest,
            keys,
            places,
            items,
        })
    }

    /// The member of a key.
    pub fn get(&self, key: u32) -> T
        requires { key < length self.now }
        ensures { (d : T) → result ≡ read self.now d key }
    {
        self.items[spot(self.places.as_slice(), key)]
    }

    /// Gives the key another member; all others stay.
    pub fn set(&mut self, key: u32, value: T)
        requires { key < length self.old }
        ensures meaning { (d : T) → read self.new d ≡ put (read self.old d) key value }
        ensures length { length self.new ≡ length self.old }
    {
        let place = key as usize / PAGE;
        own_page(&mut self.places, &mut self.items, place, self.rest);
        let at = spot(self.places.as_slice(), key);
        self.items[at] = value;
    }
}

impl<T: Copy + Drop> Sheet<Option<T>> {
    /// The member, or none past the end.
    pub fn read(&self, key: u32) -> Option<T>
        ensures { result ≡ read self.now None key }
    {
        if key < self.keys {
            self.items[spot(self.places.as_slice(), key)]
        } else {
            None
        }
    }
}

/// Where the member of a key stands.
fn spot(places: &[u32], key: u32) -> usize
    requires { key / 128 < length places.now }
    ensures { result ≡ spot_of places.now key }
{
    PAGE * places[key as usize / PAGE] as usize + key as usize % PAGE
}

/// The place has a page of its own, a new one where it had none.
fn own_page<T: Copy + Drop>(places: &mut Vec<u32>, items: &mut Vec<T>, place: usize, rest: T)
    requires place { place < vec_len places.old }
    requires few { vec_len places.old ≤ 2 ^ 26 }
    requires room { 128 * (vec_len places.old + 1) ≤ vec_capacity items.old }
    requires paged { IsPaged rest places.old.items items.old.items }
    ensures paged { IsPaged rest places.new.items items.new.items }
    ensures own { 0 < slice_index places.new.items place }
    ensures same { (k : ℕ) → member rest places.new.items items.new.items k ≡ member rest places.old.items items.old.items k }
    ensures length { vec_len places.new ≡ vec_len places.old }
    ensures capacity { vec_capacity items.new ≡ vec_capacity items.old }
{
    if places[place] != 0 {
        return;
    }
    places[place] = (items.len() / PAGE) as u32;
    add_page(items, rest);
}

/// One more page of equal members.
fn add_page<T: Copy + Drop>(items: &mut Vec<T>, rest: T)
    requires { vec_len items.old + 128 ≤ vec_capacity items.old }
    ensures length { vec_len items.new ≡ vec_len items.old + 128 }
    ensures same { (k : ℕ) → read items.new.items rest k ≡ read items.old.items rest k }
    ensures capacity { vec_capacity items.new ≡ vec_capacity items.old }
{
    for _key in 0..PAGE {
        items.push_reserved(rest);
    }
}

/// Rows in pages of one width, one per worker, seen as the width and the list of rows.
#[derive(Drop)]
pub struct Sheets<T> {
    rows: Vec<Sheet<T>>,
    wide: u32,
}

impl<T> Model for Sheets<T> {
    ghost use Rattle.std.specs.Prelude.{List, ℕ};
    ghost use Rattle.fact_rows.specs.Rows.{EachOf};

    ghost Value = { ℕ × List (List T) };

    ghost view = { λ s. (s.wide, s.rows.items) };

    ghost invariant = { λ s. EachOf s.wide s.rows.items };
}

impl<T: Copy + Drop> Sheets<T> {
    /// One row of equal members, or want of memory.
    pub fn new(alloc: Global, wide: u32, rest: T) -> Result<Self, AllocError>
        ensures height { IfOk result (λ sheets. height sheets ≡ 1) }
        ensures width { IfOk result (λ sheets. width sheets ≡ wide) }
        ensures same { IfOk result (λ sheets. cell sheets rest ≡ (λ i k. rest)) }
    {
        let mut sheets = Sheets {
            rows: Vec::new(alloc),
            wide,
        };
        sheets.add(alloc, rest)?;
        Ok(sheets)
    }

    /// One more row of equal members, which says nothing new; after want of memory all is as it was.
    pub fn add(&mut self, alloc: Global, rest: T) -> Result<(), AllocError>
        ensures height { OnOk result (height self.new ≡ height self.old + 1) }
        ensures kept { height self.old ≤ height self.new }
        ensures width { width self.new ≡ width self.old }
        ensures same { cell self.new rest ≡ cell self.old rest }
    {
        let row = match Sheet::new(alloc, self.wide(), rest) {
            Ok(row) => row,
            Err(error) => return Err(error),
        };
        match self.push(row) {
            Ok(()) => Ok(()),
            Err(error) => Err(error),
        }
    }

    /// How many keys each row has.
    fn wide(&self) -> u32
        ensures { result ≡ width self.now }
    {
        self.wide
    }

    /// One more row; after want of memory all is as it was.
    fn push(&mut self, row: Sheet<T>) -> Result<(), AllocError>
        requires { length row ≡ width self.old }
        ensures ok { OnOk result (self.new ≡ (width self.old, self.old.1 ++ row ∷ [])) }
        ensures err { OnErr result (self.new ≡ self.old) }
    {
        self.rows.push(row)?;
        Ok(())
    }

    /// The member at a row and a key.
    pub fn get(&self, row: u32, key: u32) -> T
        requires row { row < height self.now }
        requires key { key < width self.now }
        ensures { (d : T) → result ≡ cell self.now d row key }
    {
        self.rows[row as usize].get(key)
    }

    /// Gives one place another member; all others stay.
    pub fn set(&mut self, row: u32, key: u32, value: T)
        requires row { row < height self.old }
        requires key { key < width self.old }
        ensures meaning { (d : T) → cell self.new d ≡ put_pair (cell self.old d) row key value }
        ensures height { height self.new ≡ height self.old }
        ensures width { width self.new ≡ width self.old }
    {
        self.rows[row as usize].set(key, value);
    }
}

impl<T: Copy + Drop> Sheets<Option<T>> {
    /// The member, or none where there is no such place.
    pub fn read(&self, row: u32, key: u32) -> Option<T>
        ensures { result ≡ cell self.now None row key }
    {
        if (row as usize) < self.rows.len() {
            self.rows[row as usize].read(key)
        } else {
            None
        }
    }
}
