//! What the elements of a block were. Only clauses read it: it takes no bytes, and its making does nothing when the program
//! runs.
ghost use Rattle.std.specs.Prelude.{◌≡◌, List, ℤ};
ghost use Rattle.std.specs.Borrow.{ftrue};

use std::marker::Model;

/// The elements that a block had.
#[derive(Drop)]
pub struct Was {
    pub ghost cells: { List ℤ },
}

impl Model for Was {
    ghost also_owns = { λ _. ftrue };
}

// It owns nothing.
unsafe impl Send for Was {}

unsafe impl Sync for Was {}

impl Was {
    /// These elements.
    pub(crate) fn new(_cells: &[i64]) -> Was
        ensures { result.cells ≡ _cells.now }
    {
        Was {}
    }
}
