//! What a task makes of the blocks of its dependencies.
ghost use Rattle.std.specs.Prelude.{◌≡◌, ℕ, ℤ, List, IfOk, IfErr, Ok, [], ◌∷◌, ◌++◌, length, map, get_or, slice_index_or};
ghost use Rattle.nd_shape.specs.Shape.{IsShape};
ghost use Rattle.nd_grid.specs.Grid.{block_of, elementwise, sliced, sliced_shape, transposed, IsTranspose, kept_shape};
ghost use Rattle.nd_grid.specs.Computed.{FailsAs};
ghost use Rattle.block_kernels.specs.Kernels.{kernel, nth, input_shapes, result_shape, reduced_all, assembled};
ghost use Rattle.block_kernels.specs.Inputs.{blocks_of, grids_of, shapes_of};
ghost use Rattle.block_kernels.specs.Pairing.{paired_at, chosen_at};
ghost use Rattle.block_kernels.specs.Contracting.{contracted_at};
ghost use Rattle.block_kernels.specs.WellFormed.{FitsPair, FitsWhere, FitsSlice, FitsReduce, FitsContract, FitsAssemble, IsWellFormed, IsMade};

use crate::assemble::assemble;
use crate::choices::choose;
use crate::contract::contract;
use crate::inputs::{input_at, number_block, operand_at};
use crate::pairs::elementwise;
use crate::reduce::reduce_blocks;
use crate::slope::fill;
use crate::spec::{Operand, Spec};
use crate::taking::{slice, transpose};
use nd_grid::{Binary, Fail, Fold};
use nd_shape::{Axes, Block, Pieces, Shape, Shapes, StepList};
use std::alloc::Global;
use std::sync::Arc;

// An operation on two operands.
fn run_elementwise(
    alloc: Global,
    op: Binary,
    left: Operand,
    right: Operand,
    inputs: &[Arc<Block>],
    shape: &Shape,
) -> Result<Block, Fail>
    requires { FitsPair left right (shapes_of (blocks_of inputs.now)) shape.now }
    ensures ok { IfOk result (λ block. block_of (paired_at op left right (blocks_of inputs.now)) ≡ Ok block) }
    ensures dims { IfOk result (λ block. block.shape ≡ shape.now) }
    ensures err { IfErr result (λ e. FailsAs e (block_of (paired_at op left right (blocks_of inputs.now)))) }
{
    let left_number = number_block(alloc, left)?;
    let right_number = number_block(alloc, right)?;
    let left_block = operand_at(inputs, &left_number, left);
    let right_block = operand_at(inputs, &right_number, right);
    elementwise(alloc, op, left_block, right_block, shape)
}

// A choice between two operands.
fn run_where(
    alloc: Global,
    condition: Operand,
    first: Operand,
    second: Operand,
    inputs: &[Arc<Block>],
    shape: &Shape,
) -> Result<Block, Fail>
    requires { FitsWhere condition first second (shapes_of (blocks_of inputs.now)) shape.now }
    ensures ok { IfOk result (λ block. block_of (chosen_at condition first second (blocks_of inputs.now)) ≡ Ok block) }
    ensures dims { IfOk result (λ block. block.shape ≡ shape.now) }
    ensures err { IfErr result (λ e. FailsAs e (block_of (chosen_at condition first second (blocks_of inputs.now)))) }
{
    let condition_number = number_block(alloc, condition)?;
    let first_number = number_block(alloc, first)?;
    let second_number = number_block(alloc, second)?;
    let condition_block = operand_at(inputs, &condition_number, condition);
    let first_block = operand_at(inputs, &first_number, first);
    let second_block = operand_at(inputs, &second_number, second);
    choose(alloc, condition_block, first_block, second_block, shape)
}

// A slice of the one input.
fn run_slice(
    alloc: Global,
    steps: &StepList,
    dropped: &Axes,
    input: &Shape,
    inputs: &[Arc<Block>],
) -> Result<Block, Fail>
    requires rules { FitsSlice steps.now dropped.now input.now }
    requires limits { IsShape (sliced_shape 0 steps.now dropped.now) }
    requires shapes { shapes_of (blocks_of inputs.now) ≡ input.now ∷ [] }
    ensures ok { IfOk result (λ block. block_of (sliced steps.now dropped.now (nth (grids_of (blocks_of inputs.now)) 0)) ≡ Ok block) }
    ensures dims { IfOk result (λ block. block.shape ≡ sliced_shape 0 steps.now dropped.now) }
    ensures err { IfErr result (λ e. FailsAs e (block_of (sliced steps.now dropped.now (nth (grids_of (blocks_of inputs.now)) 0)))) }
{
    let _ = input.dims();
    let of = input_at(inputs, 0);
    let taken = steps.as_slice();
    let gone = dropped.as_slice();
    slice(alloc, taken, gone, of)
}

// A transpose of the one input.
fn run_transpose(
    alloc: Global,
    axes: &Axes,
    input: &Shape,
    inputs: &[Arc<Block>],
) -> Result<Block, Fail>
    requires rules { IsTranspose axes.now (length input.now) }
    requires limits { IsShape (map (λ a. get_or input.now a 0) axes.now) }
    requires shapes { shapes_of (blocks_of inputs.now) ≡ input.now ∷ [] }
    ensures ok { IfOk result (λ block. block_of (transposed axes.now (nth (grids_of (blocks_of inputs.now)) 0)) ≡ Ok block) }
    ensures dims { IfOk result (λ block. block.shape ≡ map (λ a. get_or input.now a 0) axes.now) }
    ensures err { IfErr result (λ e. FailsAs e (block_of (transposed axes.now (nth (grids_of (blocks_of inputs.now)) 0)))) }
{
    let _ = input.dims();
    let of = input_at(inputs, 0);
    let order = axes.as_slice();
    transpose(alloc, order, of)
}

// The elements along the axes folded, within each input and then over the inputs in order.
fn run_reduce(
    alloc: Global,
    fold: Fold,
    axes: &Axes,
    shapes: &Shapes,
    inputs: &[Arc<Block>],
) -> Result<Block, Fail>
    requires rules { FitsReduce fold axes.now shapes.now }
    requires limits { IsShape (kept_shape 0 (slice_index_or shapes.now 0 []) axes.now) }
    requires shapes { shapes_of (blocks_of inputs.now) ≡ shapes.now }
    ensures ok { IfOk result (λ block. block_of (reduced_all fold axes.now (slice_index_or shapes.now 0 []) (grids_of (blocks_of inputs.now))) ≡ Ok block) }
    ensures dims { IfOk result (λ block. block.shape ≡ kept_shape 0 (slice_index_or shapes.now 0 []) axes.now) }
    ensures err { IfErr result (λ e. FailsAs e (block_of (reduced_all fold axes.now (slice_index_or shapes.now 0 []) (grids_of (blocks_of inputs.now))))) }
{
    let _ = shapes.as_slice();
    let listed = axes.as_slice();
    match reduce_blocks(alloc, fold, listed, inputs) {
        Ok(block) => Ok(block),
        Err(_) => Err(Fail::OutOfMemory),
    }
}

// The products over paired axes of two inputs, summed.
fn run_contract(
    alloc: Global,
    left: u32,
    right: u32,
    left_axes: &Axes,
    right_axes: &Axes,
    shapes: &Shapes,
    inputs: &[Arc<Block>],
) -> Result<Block, Fail>
    requires rules { FitsContract left right left_axes.now right_axes.now shapes.now }
    requires limits { IsShape (kept_shape 0 (slice_index_or shapes.now left []) left_axes.now
        ++ kept_shape 0 (slice_index_or shapes.now right []) right_axes.now) }
    requires shapes { shapes_of (blocks_of inputs.now) ≡ shapes.now }
    ensures ok { IfOk result (λ block. block_of (contracted_at left_axes.now right_axes.now left right (blocks_of inputs.now)) ≡ Ok block) }
    ensures dims { IfOk result (λ block. block.shape
        ≡ kept_shape 0 (slice_index_or shapes.now left []) left_axes.now ++ kept_shape 0 (slice_index_or shapes.now right []) right_axes.now) }
    ensures err { IfErr result (λ e. FailsAs e (block_of (contracted_at left_axes.now right_axes.now left right (blocks_of inputs.now)))) }
{
    let _ = shapes.as_slice();
    let first = left_axes.as_slice();
    let second = right_axes.as_slice();
    match contract(alloc, left, right, first, second, inputs) {
        Ok(block) => Ok(block),
        Err(_) => Err(Fail::OutOfMemory),
    }
}

// Parts of the inputs put together.
fn run_assemble(
    alloc: Global,
    pieces: &Pieces,
    shapes: &Shapes,
    inputs: &[Arc<Block>],
    shape: &Shape,
) -> Result<Block, Fail>
    requires rules { FitsAssemble pieces.now shapes.now shape.now }
    requires shapes { shapes_of (blocks_of inputs.now) ≡ shapes.now }
    ensures ok { IfOk result (λ block. block_of (assembled pieces.now shape.now (grids_of (blocks_of inputs.now))) ≡ Ok block) }
    ensures dims { IfOk result (λ block. block.shape ≡ shape.now) }
    ensures err { IfErr result (λ e. FailsAs e (block_of (assembled pieces.now shape.now (grids_of (blocks_of inputs.now))))) }
{
    let _ = shapes.as_slice();
    let parts = pieces.as_slice();
    match assemble(alloc, parts, inputs, shape) {
        Ok(block) => Ok(block),
        Err(_) => Err(Fail::OutOfMemory),
    }
}

/// What the operation makes of its inputs: the block of its formula, or the first place in row-major order at which a
/// divisor is 0. It is NumPy's `add`, `subtract`, `multiply`, `floor_divide`, `remainder`, `minimum` and `maximum`,
/// `where`, basic slicing, `transpose`, `full` and `arange`, `sum`, `prod`, `min` and `max` along axes, `tensordot`, and parts
/// put together, on the blocks' elements, in int64 arithmetic that wraps. A load has no inputs, and isn't made here.
pub fn run(alloc: Global, spec: &Spec, inputs: &[Arc<Block>]) -> Result<Block, Fail>
    requires rules { IsWellFormed spec.now }
    requires made { IsMade spec.now }
    requires shapes { shapes_of (blocks_of inputs.now) ≡ input_shapes spec.now }
    ensures ok { (files : ℕ → List ℕ → ℤ) → IfOk result (λ block. block_of (kernel files spec.now (grids_of (blocks_of inputs.now))) ≡ Ok block) }
    ensures dims { IfOk result (λ block. block.shape ≡ result_shape spec.now) }
    ensures err { (files : ℕ → List ℕ → ℤ) → IfErr result (λ e. FailsAs e (block_of (kernel files spec.now (grids_of (blocks_of inputs.now))))) }
{
    match spec {
        Spec::Elementwise {
            op,
            left,
            right,
            shape,
            ..
        } => run_elementwise(alloc, *op, *left, *right, inputs, shape),
        Spec::Where {
            cond,
            yes,
            no,
            shape,
            ..
        } => run_where(alloc, *cond, *yes, *no, inputs, shape),
        Spec::Slice {
            steps,
            dropped,
            input,
        } => run_slice(alloc, steps, dropped, input, inputs),
        Spec::Transpose { axes, input } => run_transpose(alloc, axes, input, inputs),
        Spec::Fill {
            dims,
            region,
            start,
            step,
        } => fill(alloc, dims, region, *start, *step),
        Spec::Reduce {
            fold,
            axes,
            inputs: shapes,
        } => run_reduce(alloc, *fold, axes, shapes, inputs),
        Spec::Contract {
            left,
            right,
            left_axes,
            right_axes,
            inputs: shapes,
        } => run_contract(alloc, *left, *right, left_axes, right_axes, shapes, inputs),
        Spec::Assemble {
            pieces,
            inputs: shapes,
            shape,
        } => run_assemble(alloc, pieces, shapes, inputs, shape),
        Spec::Load { .. } => unreachable!(),
    }
}
