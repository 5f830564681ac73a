//! Lists that contracts see as lists, and what a list can copy.
ghost use Rattle.std.specs.Prelude.{◌≡◌, ◌==◌, ◌∷◌, ◌++◌, [], length, IfOk, OnOk, OnErr};

use std::alloc::{AllocError, Global};
use std::marker::Model;

/// A list, of which a clause sees the members in their order.
#[derive(Drop)]
pub struct Sequence<T> {
    items: Vec<T>,
}

impl<T> Model for Sequence<T> {
    ghost use Rattle.std.specs.Prelude.{List};

    ghost Value = { List T };

    ghost view = { λ s. s.items.items };
}

impl<T> Sequence<T> {
    /// The empty list. It takes no memory until the first `push`.
    pub fn new(alloc: Global) -> Self
        ensures { result ≡ [] }
    {
        Sequence {
            items: Vec::new(alloc),
        }
    }

    /// Takes a vector over, without taking memory.
    pub fn from_vec(items: Vec<T>) -> Self
        ensures { result ≡ items.items }
    {
        Sequence { items }
    }

    /// Gives the vector back, without taking memory.
    pub fn into_vec(self) -> Vec<T>
        ensures { result.items ≡ self }
    {
        let Sequence { items } = self;
        items
    }

    /// How many members there are.
    pub fn len(&self) -> usize
        ensures { result ≡ length self.now }
    {
        self.items.len()
    }

    pub fn is_empty(&self) -> bool
        ensures { result ≡ (length self.now == 0) }
    {
        self.items.is_empty()
    }

    /// The members in order. No memory.
    pub fn as_slice(&self) -> &[T]
        ensures { result.now ≡ self.now }
    {
        self.items.as_slice()
    }
}

impl<T: Drop> Sequence<T> {
    /// Adds a member at the end.
    ///
    /// # Errors
    /// Where no memory is left; the list is then as before, and the member is dropped.
    pub fn push(&mut self, item: T) -> Result<(), AllocError>
        ensures ok { OnOk result (self.new ≡ self.old ++ item ∷ []) }
        ensures err { OnErr result (self.new ≡ self.old) }
    {
        self.items.push(item)?;
        Ok(())
    }

    /// Empties the list and keeps its memory.
    pub fn clear(&mut self)
        ensures { self.new ≡ [] }
    {
        self.items.clear();
    }
}

impl<T: Duplicate> Sequence<T> {
    /// An equal list of its own.
    ///
    /// # Errors
    /// Where no memory is left.
    pub fn copy(&self) -> Result<Self, AllocError>
        ensures { IfOk result (λ copy. copy ≡ self.now) }
    {
        let alloc = *self.items.allocator();
        let mut items = Vec::with_capacity(alloc, self.items.len())?;
        for item in self.items.as_slice() {
            items.push(item.duplicate()?)?;
        }
        Ok(Sequence { items })
    }
}

/// What a list can copy: a member whose copy is an equal value. std's `Clone` leaves open what a generic member's clone is.
pub trait Duplicate: Drop {
    /// An equal value of its own.
    ///
    /// # Errors
    /// Where no memory is left.
    fn duplicate(&self) -> Result<Self, AllocError>
        ensures { IfOk result (λ copy. copy ≡ self.now) };
}

impl Duplicate for u32 {
    fn duplicate(&self) -> Result<u32, AllocError> {
        Ok(*self)
    }
}

impl Duplicate for u64 {
    fn duplicate(&self) -> Result<u64, AllocError> {
        Ok(*self)
    }
}

impl Duplicate for i64 {
    fn duplicate(&self) -> Result<i64, AllocError> {
        Ok(*self)
    }
}

impl<A: Duplicate, B: Duplicate> Duplicate for (A, B) {
    fn duplicate(&self) -> Result<(A, B), AllocError> {
        let first = self.0.duplicate()?;
        let second = self.1.duplicate()?;
        Ok((first, second))
    }
}

impl<T: Duplicate> Duplicate for Sequence<T> {
    fn duplicate(&self) -> Result<Sequence<T>, AllocError> {
        self.copy()
    }
}
