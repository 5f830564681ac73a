//! Where the elements of a row come from.
ghost use Rattle.std.specs.Prelude.{ℕ, ℤ, ◌≡◌, ◌<◌, length};

/// The elements of a row by their number.
pub trait Source: Copy {
    ghost value: { Self → ℕ → ℤ };

    ghost holds: { Self → ℕ → Type 0 };

    /// The element at a number. No memory.
    fn at(&self, i: usize) -> i64
        requires { holds self.now i }
        ensures { result ≡ value self.now i };
}

/// Elements that lie in a row.
#[derive(Clone, Copy)]
pub struct Row<'a> {
    pub cells: &'a [i64],
}

impl<'a> Source for Row<'a> {
    ghost use Rattle.std.specs.Prelude.{◌<◌, length, get_or, pos};

    ghost value = { λ s i. get_or s.cells.now i (pos 0) };

    ghost holds = { λ s i. i < length s.cells.now };

    fn at(&self, i: usize) -> i64 {
        self.cells[i]
    }
}

/// One element that stands for all.
#[derive(Clone, Copy)]
pub struct One {
    pub item: i64,
}

impl Source for One {
    ghost value = { λ s i. s.item };

    ghost holds = { λ s i. Unit {0} };

    fn at(&self, _i: usize) -> i64 {
        self.item
    }
}
