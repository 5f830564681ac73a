//! The operations.

use nd_grid::{Binary, Fold};
use nd_shape::{Axes, Pieces, Region, Shape, Shapes, StepList};

/// An operand of an elementwise operation: an input by its place, or a number that stands at every element.
#[derive(Clone, Copy)]
pub enum Operand {
    Input(u32),
    Number(i64),
}

/// What a task makes of the blocks of its dependencies. `inputs` and `input` are the shapes of the input blocks, and
/// `shape` is that of the result.
#[derive(Drop)]
pub enum Spec {
    /// An operation on two blocks, element by element.
    Elementwise {
        op: Binary,
        left: Operand,
        right: Operand,
        inputs: Shapes,
        shape: Shape,
    },
    /// `yes` where `cond` isn't 0, else `no`.
    Where {
        cond: Operand,
        yes: Operand,
        no: Operand,
        inputs: Shapes,
        shape: Shape,
    },
    /// What these steps take of each axis, without the dropped axes.
    Slice {
        steps: StepList,
        dropped: Axes,
        input: Shape,
    },
    /// The axis k of the result is the axis `axes[k]` of the input.
    Transpose {
        axes: Axes,
        input: Shape,
    },
    /// Parts of the inputs put together. The source of a piece is the place of an input.
    Assemble {
        pieces: Pieces,
        inputs: Shapes,
        shape: Shape,
    },
    /// The elements along the axes folded within each input, then over the inputs in order.
    Reduce {
        fold: Fold,
        axes: Axes,
        inputs: Shapes,
    },
    /// The products over paired axes of two inputs summed.
    Contract {
        left: u32,
        right: u32,
        left_axes: Axes,
        right_axes: Axes,
        inputs: Shapes,
    },
    /// `start + step * p` at the place p of an array of shape `dims`, in the region.
    Fill {
        dims: Shape,
        region: Region,
        start: i64,
        step: i64,
    },
    /// The region of an input array of the job, by its number.
    Load {
        input: u32,
        region: Region,
    },
}
