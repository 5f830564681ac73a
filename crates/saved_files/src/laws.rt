//! When a file is whole.
ghost use Rattle.std.specs.Prelude.{ℕ, List};
ghost use Rattle.nd_shape.specs.Block.{Array};
ghost use Rattle.nd_shape.specs.Region.{Box};
ghost use Rattle.saved_files.specs.Filling.{FillsWhole};

/// A file in which the header and boxes that hold every index are there is that of the array. No memory.
pub fn filled_is_whole()
    ensures { (a : Array) (boxes : List Box) (bytes : List ℕ) → FillsWhole a boxes bytes }
{}
