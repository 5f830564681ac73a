//! What has an element, or nothing, at each index of a shape, and its block.
ghost use Rattle.std.specs.Prelude.{◌≡◌, ◌<◌, length, IfOk, IfErr, Some, Ok};
ghost use Rattle.nd_shape.specs.Shape.{elements};
ghost use Rattle.nd_shape.specs.Index.{IsIn, index_at};
ghost use Rattle.nd_grid.specs.Grid.{Grid, block_of, cells_up_to};
ghost use Rattle.nd_grid.specs.Computed.{FailsAs};

use nd_shape::shape::AXES;
use nd_shape::{Block, Shape, unravel};
use std::alloc::{AllocError, AllocFailed, Global};
use std::error::Error;
use std::fmt;

/// Why there is no block.
#[derive(Clone, Copy, Debug)]
pub enum Fail {
    /// The divisor at this place is the first in row-major order that is 0.
    ZeroDivide { position: u64 },
    OutOfMemory,
}

impl fmt::Display for Fail {
    fn fmt<W: fmt::Write>(&self, f: &mut fmt::Formatter<W>) -> fmt::Result {
        match self {
            Fail::ZeroDivide { position } => write!(f, "zero division at {position}"),
            Fail::OutOfMemory => write!(f, "out of memory"),
        }
    }
}

impl Error for Fail {}

impl From<AllocError> for Fail {
    ghost use Rattle.std.specs.Prelude.{◌≡◌};
    ghost use Rattle.nd_grid.specs.declared.formula.Fail.TheVariants.{OutOfMemory};

    ghost from_gives = { λ _ e. e ≡ OutOfMemory };

    fn from(_: AllocError) -> Self {
        Fail::OutOfMemory
    }
}

impl<T: Drop> From<AllocFailed<T>> for Fail {
    ghost use Rattle.std.specs.Prelude.{◌≡◌};
    ghost use Rattle.nd_grid.specs.declared.formula.Fail.TheVariants.{OutOfMemory};

    ghost from_gives = { λ _ e. e ≡ OutOfMemory };

    fn from(_: AllocFailed<T>) -> Self {
        Fail::OutOfMemory
    }
}

/// What has an element, or nothing, at each index of a shape.
pub trait Formula {
    ghost grid: { Self → Grid };

    ghost valid: { Self → Type 0 };

    /// The element at an index. No memory.
    fn at(&self, index: &[u64]) -> Option<i64>
        requires valid { valid self.now }
        requires inside { IsIn (grid self.now).shape index.now }
        ensures { result ≡ (grid self.now).at index.now };
}

// What a formula has at a place.
fn cell_at<F: Formula>(formula: &F, shape: &Shape, position: u64, index: &mut [u64]) -> Option<i64>
    requires valid { F.valid formula.now }
    requires same { (F.grid formula.now).shape ≡ shape.now }
    requires inside { position < elements shape.now }
    requires axes { length index.old ≡ length shape.now }
    ensures { result ≡ (F.grid formula.now).at (index_at shape.now position) }
{
    unravel(shape, position, index);
    formula.at(index)
}

// All that a formula has, or the first place at which it has nothing.
fn cells_of<F: Formula>(alloc: Global, formula: &F, shape: &Shape) -> Result<Vec<i64>, Fail>
    requires valid { F.valid formula.now }
    requires same { (F.grid formula.now).shape ≡ shape.now }
    ensures ok { IfOk result (λ v. cells_up_to (λ p. (F.grid formula.now).at (index_at shape.now p)) (elements shape.now) ≡ Ok v.items) }
    ensures err { IfErr result (λ e. FailsAs e (cells_up_to (λ p. (F.grid formula.now).at (index_at shape.now p)) (elements shape.now))) }
{
    let mut room = [0; AXES];
    let index = &mut room[..shape.dims().len()];
    let mut cells = Vec::new(alloc);
    for position in 0..shape.elements() {
        match cell_at(formula, shape, position, index) {
            Some(x) => cells.push(x)?,
            None => return Err(Fail::ZeroDivide { position }),
        }
    }
    Ok(cells)
}

/// The block of a formula, or the first place at which it has nothing.
pub fn tabulate<F: Formula>(alloc: Global, formula: &F, shape: Shape) -> Result<Block, Fail>
    requires valid { F.valid formula.now }
    requires same { (F.grid formula.now).shape ≡ shape }
    ensures ok { IfOk result (λ block. block_of (F.grid formula.now) ≡ Ok block) }
    ensures err { IfErr result (λ e. FailsAs e (block_of (F.grid formula.now))) }
{
    let cells = cells_of(alloc, formula, &shape)?;
    Ok(Block::new(shape, cells))
}
