//! Rows and grids of facts, which contracts read as functions.
ghost use Rattle.std.specs.Prelude.{◌≡◌, ℕ, ◌+◌, ◌<◌, ◌≤◌, length, IfOk, OnOk, OnErr, ◌++◌, ◌∷◌, ◌==◌, [], false, None, Some, cond, List, Option};
ghost use Rattle.std.specs.List.{list_any, list_all};
ghost use Rattle.std.specs.Option.{option_copied};
ghost use Rattle.cluster_rules.specs.Functions.{put, put_pair};
ghost use Rattle.fact_rows.specs.Rows.{read, cell, width, height};

use std::alloc::{AllocError, Global};
use std::marker::Model;

/// A row with one member per key, seen as the list of its members, which `read` makes a function.
#[derive(Drop)]
pub struct Row<T> {
    items: Vec<T>,
}

impl<T> Model for Row<T> {
    ghost use Rattle.std.specs.Prelude.{List};

    ghost Value = { List T };

    ghost view = { λ s. s.items.items };
}

impl<T: Drop> Row<T> {
    /// A row without members. It takes no memory.
    pub fn empty(alloc: Global) -> Self
        ensures { result ≡ [] }
    {
        Row {
            items: Vec::new(alloc),
        }
    }

    /// How many members there are.
    pub fn len(&self) -> usize
        ensures { result ≡ length self.now }
    {
        self.items.len()
    }

    /// One more member at the end; after want of memory the row is as it was.
    pub fn push(&mut self, value: T) -> Result<(), AllocError>
        ensures ok { OnOk result (self.new ≡ self.old ++ value ∷ []) }
        ensures err { OnErr result (self.new ≡ self.old) }
    {
        self.items.push(value)?;
        Ok(())
    }
}

impl<T: Copy + Drop> Row<T> {
    /// A row of this many equal members, or want of memory.
    pub fn filled(alloc: Global, count: usize, value: T) -> Result<Self, AllocError>
        ensures length { IfOk result (λ row. length row ≡ count) }
        ensures same { IfOk result (λ row. (k : ℕ) → read row value k ≡ value) }
    {
        let mut items = Vec::with_capacity(alloc, count)?;
        items.resize(count, value)?;
        Ok(Row { items })
    }

    /// An equal row, or want of memory.
    pub fn copy(&self, alloc: Global) -> Result<Self, AllocError>
        ensures { IfOk result (λ row. row ≡ self.now) }
    {
        Ok(Row {
            items: Vec::from_slice(alloc, self.items.as_slice())?,
        })
    }

    /// The member of a key.
    pub fn get(&self, key: u32) -> T
        requires { key < length self.now }
        ensures { (d : T) → result ≡ read self.now d key }
    {
        self.items[key as usize]
    }

    /// Gives the key another member; all others stay.
    pub fn set(&mut self, key: u32, value: T)
        requires { key < length self.old }
        ensures meaning { (d : T) → read self.new d ≡ put (read self.old d) key value }
        ensures length { length self.new ≡ length self.old }
    {
        self.items[key as usize] = value;
    }

    /// Makes all members equal.
    pub fn fill(&mut self, value: T)
        ensures meaning { (k : ℕ) → read self.new value k ≡ value }
        ensures length { length self.new ≡ length self.old }
    {
        for key in 0..self.items.len() {
            self.items[key] = value;
        }
    }

    /// Only the members that the mask passes stay; the others become `other`.
    pub fn keep(&mut self, mask: &Row<bool>, other: T)
        ensures meaning { read self.new other ≡ (λ k. cond (read mask.now false k) (read self.old other k) other) }
        ensures length { length self.new ≡ length self.old }
    {
        for key in 0..self.items.len() {
            if !mask.test(key) {
                self.items[key] = other;
            }
        }
    }
}

impl<T: Copy + Drop> Row<Option<T>> {
    /// The member, or none past the end.
    pub fn read(&self, key: u32) -> Option<T>
        ensures { result ≡ read self.now None key }
    {
        if (key as usize) < self.items.len() {
            self.items[key as usize]
        } else {
            None
        }
    }
}

impl<T: Drop> Row<Option<T>> {
    /// This many places with nothing in them.
    pub fn vacant(alloc: Global, count: usize) -> Result<Self, AllocError>
        ensures length { IfOk result (λ row. length row ≡ count) }
        ensures none { IfOk result (λ row. (k : ℕ) → read row None k ≡ None) }
    {
        let mut items = Vec::with_capacity(alloc, count)?;
        for _place in 0..count {
            items.push(None)?;
        }
        Ok(Row { items })
    }

    /// What stands at a key, if anything does. Past the end nothing stands.
    pub fn look(&self, key: u32) -> Option<&T>
        ensures { option_copied result ≡ read self.now None key }
    {
        if (key as usize) < self.items.len() {
            self.items[key as usize].as_ref()
        } else {
            None
        }
    }

    /// Puts something at a key; what stood there is dropped.
    pub fn put(&mut self, key: u32, item: T)
        requires { key < length self.old }
        ensures meaning { read self.new None ≡ put (read self.old None) key (Some item) }
        ensures length { length self.new ≡ length self.old }
    {
        self.items[key as usize] = Some(item);
    }

    /// Takes what stands at a key away.
    pub fn take(&mut self, key: u32) -> Option<T>
        requires { key < length self.old }
        ensures item { result ≡ read self.old None key }
        ensures meaning { read self.new None ≡ put (read self.old None) key None }
        ensures length { length self.new ≡ length self.old }
    {
        self.items[key as usize].take()
    }

    /// Takes all away.
    pub fn vacate(&mut self)
        ensures meaning { (k : ℕ) → read self.new None k ≡ None }
        ensures length { length self.new ≡ length self.old }
    {
        for place in 0..self.items.len() {
            self.items[place] = None;
        }
    }
}

impl Row<bool> {
    /// Whether the member is set. Past the end none is.
    pub fn test(&self, key: usize) -> bool
        ensures { result ≡ read self.now false key }
    {
        if key < self.items.len() {
            self.items[key]
        } else {
            false
        }
    }

    /// Whether some of these members are set.
    pub fn any(&self, keys: &[u32]) -> bool
        ensures { result ≡ list_any (read self.now false) keys.now }
    {
        for key in keys {
            if self.test(*key as usize) {
                return true;
            }
        }
        false
    }

    /// Whether each of these members is set.
    pub fn all(&self, keys: &[u32]) -> bool
        ensures { result ≡ list_all (read self.now false) keys.now }
    {
        for key in keys {
            if !self.test(*key as usize) {
                return false;
            }
        }
        true
    }
}

/// Rows of one width, one per worker or client, seen as the width and the list of rows, which `cell` makes a function.
#[derive(Drop)]
pub struct Grid<T> {
    rows: Vec<Row<T>>,
    wide: u32,
}

impl<T> Model for Grid<T> {
    ghost use Rattle.std.specs.Prelude.{List, ℕ};
    ghost use Rattle.fact_rows.specs.Rows.{EachOf};

    ghost Value = { ℕ × List (List T) };

    ghost view = { λ s. (s.wide, s.rows.items) };

    ghost invariant = { λ s. EachOf s.wide s.rows.items };
}

impl<T: Drop> Grid<T> {
    /// A grid without rows, of this width. It takes no memory.
    pub fn empty(alloc: Global, wide: u32) -> Self
        ensures { result ≡ (wide, []) }
    {
        Grid {
            rows: Vec::new(alloc),
            wide,
        }
    }

    /// Past the ends of its rows a grid has nothing.
    pub fn sound(&self)
        ensures { (d : T) (w k : ℕ) → width self.now ≤ k → cell self.now d w k ≡ d }
    {
        let _rows = &self.rows;
    }

    /// How many rows there are.
    pub fn rows(&self) -> usize
        ensures { result ≡ height self.now }
    {
        self.rows.len()
    }

    /// One more row; after want of memory the grid is as it was.
    pub fn push(&mut self, row: Row<T>) -> Result<(), AllocError>
        requires { length row ≡ width self.old }
        ensures ok { OnOk result (self.new ≡ (width self.old, self.old.1 ++ row ∷ [])) }
        ensures err { OnErr result (self.new ≡ self.old) }
    {
        self.rows.push(row)?;
        Ok(())
    }
}

impl<T: Copy + Drop> Grid<T> {
    /// The member at a row and a key.
    pub fn get(&self, row: u32, key: u32) -> T
        requires row { row < height self.now }
        requires key { key < width self.now }
        ensures { (d : T) → result ≡ cell self.now d row key }
    {
        self.rows[row as usize].get(key)
    }

    /// Gives one place another member; all others stay.
    pub fn set(&mut self, row: u32, key: u32, value: T)
        requires row { row < height self.old }
        requires key { key < width self.old }
        ensures meaning { (d : T) → cell self.new d ≡ put_pair (cell self.old d) row key value }
        ensures height { height self.new ≡ height self.old }
        ensures width { width self.new ≡ width self.old }
    {
        self.rows[row as usize].set(key, value);
    }

    /// Only the members at keys that the mask passes stay; the others become `other`.
    pub fn keep(&mut self, mask: &Row<bool>, other: T)
        ensures meaning { cell self.new other ≡ (λ w k. cond (read mask.now false k) (cell self.old other w k) other) }
        ensures height { height self.new ≡ height self.old }
        ensures width { width self.new ≡ width self.old }
    {
        for row in 0..self.rows.len() {
            self.rows[row].keep(mask, other);
        }
    }

    /// Makes all members of one row equal; all other rows stay.
    pub fn fill_row(&mut self, row: u32, value: T)
        requires { row < height self.old }
        ensures meaning { cell self.new value ≡ (λ w k. cond (w == row) value (cell self.old value w k)) }
        ensures height { height self.new ≡ height self.old }
        ensures width { width self.new ≡ width self.old }
    {
        self.rows[row as usize].fill(value);
    }
}

impl<T: Copy + Drop> Grid<Option<T>> {
    /// The member, or none where there is no such place.
    pub fn read(&self, row: u32, key: u32) -> Option<T>
        ensures { result ≡ cell self.now None row key }
    {
        if (row as usize) < self.rows.len() {
            self.rows[row as usize].read(key)
        } else {
            None
        }
    }
}

impl<T: Drop> Grid<Option<T>> {
    /// One more row, with nothing in it.
    ///
    /// # Errors
    /// Where no memory is left; all is then as before.
    pub fn add(&mut self) -> Result<(), AllocError>
        ensures height { OnOk result (height self.new ≡ height self.old + 1) }
        ensures width { width self.new ≡ width self.old }
        ensures meaning { cell self.new None ≡ cell self.old None }
        ensures err { OnErr result (self.new ≡ self.old) }
    {
        let row = Row::vacant(*self.rows.allocator(), self.wide as usize)?;
        self.rows.push(row)?;
        Ok(())
    }

    /// What stands at a row and a key, if anything does.
    pub fn look(&self, row: u32, key: u32) -> Option<&T>
        ensures { option_copied result ≡ cell self.now None row key }
    {
        if (row as usize) < self.rows.len() {
            self.rows[row as usize].look(key)
        } else {
            None
        }
    }

    /// Puts something at a row and a key; what stood there is dropped.
    pub fn put(&mut self, row: u32, key: u32, item: T)
        requires row { row < height self.old }
        requires key { key < width self.old }
        ensures meaning { cell self.new None ≡ put_pair (cell self.old None) row key (Some item) }
        ensures height { height self.new ≡ height self.old }
        ensures width { width self.new ≡ width self.old }
    {
        self.rows[row as usize].put(key, item);
    }

    /// Takes what stands at a row and a key away.
    pub fn take(&mut self, row: u32, key: u32) -> Option<T>
        requires row { row < height self.old }
        requires key { key < width self.old }
        ensures item { result ≡ cell self.old None row key }
        ensures meaning { cell self.new None ≡ put_pair (cell self.old None) row key None }
        ensures height { height self.new ≡ height self.old }
        ensures width { width self.new ≡ width self.old }
    {
        self.rows[row as usize].take(key)
    }

    /// Takes all away that stands in a row.
    pub fn vacate(&mut self, row: u32)
        requires { row < height self.old }
        ensures meaning { cell self.new None ≡ (λ w k. cond (w == row) None (cell self.old None w k)) }
        ensures height { height self.new ≡ height self.old }
        ensures width { width self.new ≡ width self.old }
    {
        self.rows[row as usize].vacate();
    }
}

impl Grid<bool> {
    /// Whether the member is set. Where there is no such place it isn't.
    pub fn test(&self, row: u32, key: u32) -> bool
        ensures { result ≡ cell self.now false row key }
    {
        if (row as usize) < self.rows.len() {
            self.rows[row as usize].test(key as usize)
        } else {
            false
        }
    }
}
