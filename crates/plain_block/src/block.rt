//! The elements of a region of a node, over files.
ghost use Rattle.std.specs.Prelude.{◌≡◌, ◌≤◌, ◌<◌, ◌+◌, length, IfOk, IfErr, OnOk, IsErrOf};
ghost use Rattle.io_edge.specs.Cause.{Rose};
ghost use Rattle.nd_shape.specs.Region.{IsPart};
ghost use Rattle.array_expr.specs.Node.{shape_at};
ghost use Rattle.plain_eval.specs.Eval.{HaveBlocks, IsPlain, held_in, inputs_before};
ghost use Rattle.plain_eval.specs.declared.plain.PlainOutcome.{PlainOutcome};
ghost use Rattle.plain_block.specs.Files.{HaveFiles, AreTold, HaveNeeded, RefusesFiles, elements_in};

use crate::inputs::read_inputs;
use array_expr::{Expr, NodeId};
use input_regions::needed_regions;
use io_edge::Store;
use nd_shape::{Block, Region};
use npy_codec::{Head, NpyError};
use plain_eval::{PlainOutcome, evaluate};
use std::alloc::Global;

// Arrays of the inputs that have what is needed of them: what is evaluated over them is what the files hold.
fn read_needed<S: Store>(
    alloc: Global,
    expr: &Expr,
    node: NodeId,
    region: &Region,
    inputs: &mut S,
    heads: &[Head],
) -> Result<Vec<Block>, NpyError>
    requires node { node < length expr.now }
    requires region { IsPart region.now (shape_at expr.now node) }
    requires files { HaveFiles expr.now (node + 1) (S.files inputs.old) heads.now }
    ensures same { S.files inputs.new ≡ S.files inputs.old }
    ensures later { S.count inputs.old ≤ S.count inputs.new }
    ensures kept { OnOk result (S.count inputs.new ≡ S.count inputs.old) }
    ensures blocks { IfOk result (λ v. HaveBlocks expr.now (node + 1) v.items) }
    ensures enough { IfOk result (λ v. (outcome : PlainOutcome) → AreTold (S.files inputs.old) (inputs_before expr.now (node + 1)) → IsPlain (held_in v.items) expr.now node region.now outcome → IsPlain (elements_in (S.files inputs.old) heads.now) expr.now node region.now outcome) }
    ensures whole { OnOk result (HaveNeeded expr.now node region.now (S.files inputs.old) heads.now) }
    ensures refused { IfErr result (RefusesFiles expr.now node region.now (S.files inputs.old) heads.now) }
    ensures fault { IsErrOf result NpyError.ReadFault → Rose (S.count inputs.old) (S.count inputs.new) }
{
    let regions = needed_regions(alloc, expr, node, region)?;
    read_inputs(alloc, inputs, expr.nodes(), regions.as_slice(), heads)
}

/// The elements of a region of a node, by the definition `elem`, or the node and the first place in the region, in
/// row-major order, that met a zero divisor. `inputs` has a file for each input up to the node, in the order of their
/// nodes, and `heads` the head of each. Of each input the region that is needed is read, once, and an input of which
/// nothing is needed isn't read. It is refused as `Truncated` exactly where such a region ends past its file, by the first
/// input of which it does; the two counts are of its data bytes.
///
/// Where the store doesn't tell what a file holds, nothing is said of the elements.
pub fn plain_block<S: Store>(
    alloc: Global,
    expr: &Expr,
    node: NodeId,
    region: &Region,
    inputs: &mut S,
    heads: &[Head],
) -> Result<PlainOutcome, NpyError>
    requires node { node < length expr.now }
    requires region { IsPart region.now (shape_at expr.now node) }
    requires files { HaveFiles expr.now (node + 1) (S.files inputs.old) heads.now }
    ensures same { S.files inputs.new ≡ S.files inputs.old }
    ensures later { S.count inputs.old ≤ S.count inputs.new }
    ensures kept { OnOk result (S.count inputs.new ≡ S.count inputs.old) }
    ensures values { IfOk result (λ outcome. AreTold (S.files inputs.old) (inputs_before expr.now (node + 1)) → IsPlain (elements_in (S.files inputs.old) heads.now) expr.now node region.now outcome) }
    ensures whole { OnOk result (HaveNeeded expr.now node region.now (S.files inputs.old) heads.now) }
    ensures refused { IfErr result (RefusesFiles expr.now node region.now (S.files inputs.old) heads.now) }
    ensures fault { IsErrOf result NpyError.ReadFault → Rose (S.count inputs.old) (S.count inputs.new) }
{
    let blocks = read_needed(alloc, expr, node, region, inputs, heads)?;
    let outcome = evaluate(alloc, expr, node, region, blocks.as_slice())?;
    Ok(outcome)
}
