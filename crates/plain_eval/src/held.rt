//! Arrays of which elements may be missing.
ghost use Rattle.std.specs.Prelude.{◌≡◌, ◌<◌, length, map, IfOk};
ghost use Rattle.std.specs.List.{range_with_len};
ghost use Rattle.nd_shape.specs.Shape.{IsShape, elements};
ghost use Rattle.nd_shape.specs.Index.{IsIn, index_at};
ghost use Rattle.nd_grid.specs.Grid.{Grid, under};
ghost use Rattle.array_expr.specs.Elem.{grid_of_cells, cells_of, array_at};

use array_expr::NodeId;
use nd_grid::{Formula, index_under};
use nd_shape::shape::AXES;
use nd_shape::{Shape, ravel, unravel};
use std::alloc::{AllocError, Global};
use std::marker::Model;

/// An array in row-major order that has an int64 at each place, or nothing where it met a zero divisor.
#[derive(Drop)]
pub struct Held {
    shape: Shape,
    cells: Vec<Option<i64>>,
}

impl Model for Held {
    ghost use Rattle.std.specs.Prelude.{◌≡◌, length};
    ghost use Rattle.nd_shape.specs.Shape.{elements};
    ghost use Rattle.array_expr.specs.Elem.{Cells};

    ghost Value = { Cells };

    ghost view = { λ h. record { shape = h.shape; cells = h.cells.items } };

    ghost invariant = { λ h. length h.cells.items ≡ elements h.shape };
}

impl Held {
    /// What a formula has at each index of a shape.
    pub fn tabulate<F: Formula>(
        alloc: Global,
        formula: &F,
        shape: Shape,
    ) -> Result<Self, AllocError>
        requires valid { F.valid formula.now }
        requires same { (F.grid formula.now).shape ≡ shape }
        ensures { IfOk result (λ held. held ≡ cells_of (F.grid formula.now)) }
    {
        let cells = cells_of_formula(alloc, formula, &shape)?;
        Ok(Held { shape, cells })
    }

    /// The array of a shape without elements, whatever its formula. No memory.
    pub fn empty(alloc: Global, shape: Shape) -> Self
        requires { elements shape ≡ 0 }
        ensures { (g : Grid) → g.shape ≡ shape → result ≡ cells_of g }
    {
        Held {
            shape,
            cells: Vec::new(alloc),
        }
    }

    /// The shape. No memory.
    pub fn shape(&self) -> &Shape
        ensures value { result.now ≡ self.now.shape }
        ensures cells { length self.now.cells ≡ elements self.now.shape }
    {
        &self.shape
    }

    /// The lengths. No memory.
    pub fn dims(&self) -> &[u64]
        ensures value { result.now ≡ self.now.shape }
        ensures limits { IsShape self.now.shape }
    {
        self.shape.dims()
    }

    /// What stands at each place, in row-major order. No memory.
    pub fn cells(&self) -> &[Option<i64>]
        ensures value { result.now ≡ self.now.cells }
        ensures count { length self.now.cells ≡ elements self.now.shape }
    {
        self.cells.as_slice()
    }

    // What stands at an index.
    fn element(&self, index: &[u64]) -> Option<i64>
        requires { IsIn self.now.shape index.now }
        ensures { result ≡ (grid_of_cells self.now).at index.now }
    {
        let at = ravel(&self.shape, index);
        self.cells[at as usize]
    }
}

/// The lengths of a node's array. No memory.
pub fn dims_of(known: &[Held], node: NodeId) -> &[u64]
    requires { node < length known.now }
    ensures value { result.now ≡ (array_at known.now node).shape }
    ensures limits { IsShape result.now }
{
    known[node.number() as usize].dims()
}

/// What stands at an index of a node's array. No memory.
pub fn element_of(known: &[Held], node: NodeId, index: &[u64]) -> Option<i64>
    requires there { node < length known.now }
    requires inside { IsIn (array_at known.now node).shape index.now }
    ensures { result ≡ (array_at known.now node).at index.now }
{
    known[node.number() as usize].element(index)
}

/// What stands in a node's array under an index of a shape that it is broadcast to. No memory.
pub fn element_under(known: &[Held], node: NodeId, index: &[u64]) -> Option<i64>
    requires there { node < length known.now }
    requires inside { IsIn (array_at known.now node).shape (under (array_at known.now node).shape index.now) }
    ensures { result ≡ (array_at known.now node).at (under (array_at known.now node).shape index.now) }
{
    let dims = dims_of(known, node);
    let mut room = [0; AXES];
    let own = &mut room[..dims.len()];
    index_under(dims, index, own);
    element_of(known, node, own)
}

// What a formula has at a place.
fn cell_at<F: Formula>(formula: &F, shape: &Shape, position: u64, index: &mut [u64]) -> Option<i64>
    requires valid { F.valid formula.now }
    requires same { (F.grid formula.now).shape ≡ shape.now }
    requires inside { position < elements shape.now }
    requires axes { length index.old ≡ length shape.now }
    ensures { result ≡ (F.grid formula.now).at (index_at shape.now position) }
{
    unravel(shape, position, index);
    formula.at(index)
}

fn cells_of_formula<F: Formula>(
    alloc: Global,
    formula: &F,
    shape: &Shape,
) -> Result<Vec<Option<i64>>, AllocError>
    requires valid { F.valid formula.now }
    requires same { (F.grid formula.now).shape ≡ shape.now }
    ensures { IfOk result (λ v. v.items ≡ map (λ p. (F.grid formula.now).at (index_at shape.now p)) (range_with_len 0 (elements shape.now))) }
{
    let mut room = [0; AXES];
    let index = &mut room[..shape.dims().len()];
    let mut cells = Vec::new(alloc);
    for position in 0..shape.elements() {
        cells.push(cell_at(formula, shape, position, index))?;
    }
    Ok(cells)
}
