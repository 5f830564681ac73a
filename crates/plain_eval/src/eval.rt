//! The array of one node over those before it.
ghost use Rattle.std.specs.Prelude.{◌≡◌, ◌<◌, ◌+◌, ◌++◌, [], ◌∷◌, length, take, cond, IfOk, OnOk};
ghost use Rattle.nd_grid.specs.Grid.{sliced, sliced_shape, reduced, kept_shape, folded_shape, contracted};
ghost use Rattle.array_expr.specs.Node.{IsExpression, dropped};
ghost use Rattle.array_expr.specs.Elem.{array_at, cells_of};
ghost use Rattle.plain_eval.specs.Fits.{CanTake, CanContractKnown};
ghost use Rattle.plain_eval.specs.Eval.{HaveShapes, HaveBlocks, MadeOf, inputs_before, held_in};

use crate::contraction::Contraction;
use crate::held::{Held, dims_of};
use crate::joining::Joined;
use crate::making::{Flat, Slope, Whole};
use crate::pairing::{Choice, Pair};
use crate::picking::{Negation, Reduction, Same, Taking, Turn};
use array_expr::axes::{axes_folded, dims_on, is_in_list};
use array_expr::slicing::dropped_axes;
use array_expr::{Fold, Node, NodeId, Op};
use nd_shape::{Axes, Block, Parts, Shape, Steps};
use std::alloc::{AllocError, Global};

// One more length, if its axis is folded.
fn push_if(lengths: &mut Vec<u64>, listed: bool, len: u64) -> Result<(), AllocError>
    ensures { OnOk result (lengths.new.items ≡ lengths.old.items ++ cond listed (len ∷ []) []) }
{
    if listed {
        lengths.push(len)?;
    }
    Ok(())
}

// The lengths of the listed axes, in ascending order.
fn folded_dims(alloc: Global, dims: &[u64], axes: &[u64]) -> Result<Vec<u64>, AllocError>
    ensures { IfOk result (λ v. v.items ≡ folded_shape 0 dims.now axes.now) }
{
    let mut lengths = Vec::new(alloc);
    for (axis, len) in dims.iter().enumerate() {
        let listed = is_in_list(axes, axis as u64);
        push_if(&mut lengths, listed, *len)?;
    }
    Ok(lengths)
}

// A slice by its parts.
fn sliced(
    alloc: Global,
    known: &[Held],
    of: NodeId,
    parts: &Parts,
    taken: &[Steps],
    shape: Shape,
) -> Result<Held, AllocError>
    requires fits { CanTake known.now of taken.now (dropped parts.now) }
    requires shape { sliced_shape 0 taken.now (dropped parts.now) ≡ shape }
    ensures { IfOk result (λ held. held ≡ cells_of (sliced taken.now (dropped parts.now) (array_at known.now of))) }
{
    let gone = dropped_axes(alloc, parts.as_slice())?;
    let taking = Taking {
        steps: taken,
        dropped: gone.as_slice(),
        known,
        of,
    };
    Held::tabulate(alloc, &taking, shape)
}

// A reduction over listed axes.
fn reduced(
    alloc: Global,
    fold: Fold,
    axes: &[u64],
    known: &[Held],
    of: NodeId,
    shape: Shape,
) -> Result<Held, AllocError>
    requires there { of < length known.now }
    requires shape { kept_shape 0 (array_at known.now of).shape axes.now ≡ shape }
    ensures { IfOk result (λ held. held ≡ cells_of (reduced fold axes.now (array_at known.now of))) }
{
    let lengths = folded_dims(alloc, dims_of(known, of), axes)?;
    match Shape::new(lengths) {
        Ok(folded) => {
            let reduction = Reduction {
                fold,
                axes,
                known,
                of,
                folded: &folded,
            };
            Held::tabulate(alloc, &reduction, shape)
        }
        // The folded axes are larger than a shape only where nothing is kept.
        Err(_) => Ok(Held::empty(alloc, shape)),
    }
}

// A product over paired axes.
fn contracted(
    alloc: Global,
    known: &[Held],
    left: NodeId,
    right: NodeId,
    left_axes: &[u64],
    right_axes: &[u64],
    shape: Shape,
) -> Result<Held, AllocError>
    requires fits { CanContractKnown known.now left right left_axes.now right_axes.now }
    requires shape { kept_shape 0 (array_at known.now left).shape left_axes.now ++ kept_shape 0 (array_at known.now right).shape right_axes.now ≡ shape }
    ensures { IfOk result (λ held. held ≡ cells_of (contracted left_axes.now right_axes.now (array_at known.now left) (array_at known.now right))) }
{
    let lengths = dims_on(alloc, dims_of(known, left), left_axes)?;
    match Shape::new(lengths) {
        Ok(paired) => {
            let contraction = Contraction {
                left_axes,
                right_axes,
                known,
                left,
                right,
                paired: &paired,
            };
            Held::tabulate(alloc, &contraction, shape)
        }
        // The paired axes are larger than a shape only where nothing is kept.
        Err(_) => Ok(Held::empty(alloc, shape)),
    }
}

/// The array of a node over those before it, which has this block where it is an input.
pub fn node_array(
    alloc: Global,
    nodes: &[Node],
    k: usize,
    known: &[Held],
    inputs: &[Block],
    input: usize,
) -> Result<Held, AllocError>
    requires sound { IsExpression nodes.now }
    requires inside { k < length nodes.now }
    requires known { HaveShapes known.now (take k nodes.now) }
    requires blocks { HaveBlocks nodes.now (k + 1) inputs.now }
    requires input { input ≡ inputs_before nodes.now k }
    ensures { IfOk result (λ held. MadeOf nodes.now k known.now (held_in inputs.now input) held) }
{
    let node = &nodes[k];
    let shape = node.shape.copy(alloc)?;
    match &node.op {
        Op::Input { .. } => Held::tabulate(
            alloc,
            &Whole {
                block: &inputs[input],
            },
            shape,
        ),
        Op::Full { value, .. } => Held::tabulate(
            alloc,
            &Flat {
                shape: &node.shape,
                value: *value,
            },
            shape,
        ),
        Op::Ramp { start, step, .. } => Held::tabulate(
            alloc,
            &Slope {
                shape: &node.shape,
                start: *start,
                step: *step,
            },
            shape,
        ),
        Op::Negate { of } => Held::tabulate(alloc, &Negation { known, of: *of }, shape),
        Op::Elementwise { op, left, right } => Held::tabulate(
            alloc,
            &Pair {
                op: *op,
                known,
                left: *left,
                right: *right,
            },
            shape,
        ),
        Op::Where { cond, yes, no } => Held::tabulate(
            alloc,
            &Choice {
                known,
                condition: *cond,
                first: *yes,
                second: *no,
            },
            shape,
        ),
        Op::Slice { of, parts } => sliced(alloc, known, *of, parts, node.taken.as_slice(), shape),
        Op::Transpose { of, axes } => Held::tabulate(
            alloc,
            &Turn {
                axes: axes.as_slice(),
                known,
                of: *of,
            },
            shape,
        ),
        Op::Rechunk { of, .. } => Held::tabulate(alloc, &Same { known, of: *of }, shape),
        Op::Concatenate { of, axis } => Held::tabulate(
            alloc,
            &Joined {
                known,
                of: of.as_slice(),
                axis: *axis as usize,
            },
            shape,
        ),
        Op::Reduce {
            fold,
            of,
            axes,
            split: _,
        } => {
            let folded = axes_folded(alloc, axes, dims_of(known, *of).len() as u64)?;
            reduced(alloc, *fold, folded.as_slice(), known, *of, shape)
        }
        Op::Tensordot {
            left,
            right,
            left_axes,
            right_axes,
        } => contracted(
            alloc,
            known,
            *left,
            *right,
            left_axes.as_slice(),
            right_axes.as_slice(),
            shape,
        ),
    }
}
