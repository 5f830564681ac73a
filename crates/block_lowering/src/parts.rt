//! The lengths, the box and the cost of a block.
ghost use Rattle.std.specs.Prelude.{◌≡◌, ◌<◌, ◌≤◌, ◌+◌, ◌^◌, length, map, get_or, IfOk};
ghost use Rattle.nd_shape.specs.Chunk.{total};
ghost use Rattle.nd_shape.specs.Index.{IsIn};
ghost use Rattle.chunk_layout.specs.Layouts.{counts, lengths_at, box_at};
ghost use Rattle.task_graph.specs.Graphs.{bytes};

use chunk_layout::Cuts;
use nd_shape::{Region, Shape};
use std::alloc::{AllocError, Global};

/// The greatest number of keys of a graph, and so of the inputs of a task.
pub const KEYS: u64 = 32768;

/// What running a task costs.
#[derive(Clone, Copy)]
pub struct Cost {
    pub work: u64,
    pub nbytes: u64,
}

/// The shape of these lengths. Those of a block are at most those of its array, so they are always a shape's.
pub fn shape_from(dims: Vec<u64>) -> Result<Shape, AllocError>
    ensures { IfOk result (λ shape. shape ≡ dims.items) }
{
    match Shape::new(dims) {
        Ok(shape) => Ok(shape),
        Err(_) => Err(AllocError),
    }
}

// The size of a chunk, or 0 where there is none of that number.
fn size_at(cuts: &Cuts, chunk: u64) -> u64
    ensures { result ≡ get_or cuts.now chunk 0 }
{
    match cuts.sizes().get(chunk as usize) {
        Some(size) => u64::from(*size),
        None => 0,
    }
}

/// The lengths of the block with these numbers of chunks.
pub fn lengths_of(alloc: Global, axes: &[Cuts], numbers: &[u64]) -> Result<Shape, AllocError>
    ensures { IfOk result (λ shape. shape ≡ lengths_at axes.now numbers.now) }
{
    let mut dims = Vec::with_capacity(alloc, axes.len())?;
    for axis in 0..axes.len().min(numbers.len()) {
        dims.push(size_at(&axes[axis], numbers[axis]))?;
    }
    shape_from(dims)
}

/// The box of the block with these numbers of chunks. No memory.
pub fn box_of(axes: &[Cuts], numbers: &[u64]) -> Region
    requires axes { length axes.now ≤ 8 }
    requires numbers { IsIn (counts axes.now) numbers.now }
    ensures { result ≡ box_at axes.now numbers.now }
{
    let mut region = Region::new();
    for (axis, cuts) in axes.iter().enumerate() {
        let chunk = numbers[axis] as usize;
        region.push(cuts.starts()[chunk], u64::from(cuts.sizes()[chunk]));
    }
    region
}

/// The bytes of a block. No memory.
pub fn bytes_of(shape: &Shape) -> u64
    ensures value { result ≡ bytes shape.now }
    ensures small { result ≤ 2 ^ 34 }
{
    let _ = shape.dims();
    8 * shape.elements()
}

// The bytes of blocks together.
fn bytes_of_all(shapes: &[Shape]) -> u64
    requires { length shapes.now ≤ 32768 }
    ensures value { result ≡ total (map bytes shapes.now) }
    ensures small { result ≤ 2 ^ 49 }
{
    let mut sum = 0;
    for shape in shapes {
        sum += bytes_of(shape);
    }
    sum
}

/// The cost of making a block of others. A task has no more inputs than a graph has keys.
pub fn cost_of(shape: &Shape, inputs: &[Shape]) -> Result<Cost, AllocError>
    ensures { IfOk result (λ c. c ≡ record { work = bytes shape.now + total (map bytes inputs.now); nbytes = bytes shape.now }) }
{
    if inputs.len() as u64 > KEYS {
        return Err(AllocError);
    }
    let nbytes = bytes_of(shape);
    Ok(Cost {
        work: nbytes + bytes_of_all(inputs),
        nbytes,
    })
}

/// The cost of making a block of nothing. No memory.
pub fn cost_alone(shape: &Shape) -> Cost
    ensures { result ≡ record { work = bytes shape.now; nbytes = bytes shape.now } }
{
    let nbytes = bytes_of(shape);
    Cost {
        work: nbytes,
        nbytes,
    }
}
