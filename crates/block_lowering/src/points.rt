//! Operations element by element: operands are numbers or arrays, which are brought to the result's layout first.
ghost use Rattle.std.specs.Prelude.{◌≡◌, ◌<◌, ◌++◌, ◌∷◌, [], length, map, get_or, cond, nat_eq, IfOk, IfErr, OnOk, MatchOption};
ghost use Rattle.nd_shape.specs.Chunk.{total};
ghost use Rattle.nd_grid.specs.Grid.{under};
ghost use Rattle.chunk_layout.specs.Layouts.{counts};
ghost use Rattle.block_kernels.specs.declared.spec.Operand.TheVariants.{Input as At};
ghost use Rattle.lowering_laws.specs.Stages.{Blocks, sizes_on, joined_all, point_layout, arg_target, fitted_arg, fitted_args, uses_of, uses_of_arg, inputs_among, operand_of, nth_arg, point_spec, pointwise};
ghost use Rattle.block_lowering.specs.Args.{point_of, arg_of, args_of, layouts_of, sizes_given};
ghost use Rattle.block_lowering.specs.Growing.{Refuses, IsGrown};
ghost use Rattle.block_lowering.specs.Pointing.{ArgGrown, ArgsGrown};

use crate::counts::counts_of;
use crate::error::LowerError;
use crate::growing::{Stage, push_blocks};
use crate::layouts::{joined_if, layout_from, single};
use crate::parts::{KEYS, cost_of, lengths_of};
use crate::rechunk::push_fitted;
use crate::sources::Keyed;
use crate::uses::{Gathered, Uses};
use block_kernels::{Operand, Spec};
use chunk_layout::{Cuts, Layout};
use nd_grid::Binary;
use nd_grid::element::index_under;
use nd_shape::{Shape, Shapes};
use std::alloc::{AllocError, Global};
use task_graph::{Graph, Task};

/// What is done with the elements: an operation on two, or a choice by the first between the others.
#[derive(Clone, Copy)]
pub enum Operation {
    Two(Binary),
    Three,
}

/// An operand: a number, or an array of the graph.
#[derive(Drop)]
pub enum Given {
    Value(i64),
    Array(Keyed),
}

// ---- the layout

// The cut that an operand has on an axis of the result, where it has the result's length there.
fn cuts_on<'a>(dims: &[u64], axis: usize, arg: &'a Given) -> Option<&'a Cuts>
    requires { axis < length dims.now }
    ensures { MatchOption result (sizes_given dims.now axis arg.now ≡ []) (λ cuts. sizes_given dims.now axis arg.now ≡ cuts.now) }
{
    match arg {
        Given::Value(_) => None,
        Given::Array(source) => {
            let own = source.layout().axes();
            let before = dims.len().saturating_sub(own.len());
            if axis < before {
                return None;
            }
            match own.get(axis - before) {
                Some(cuts) if cuts.len() == dims[axis] => Some(cuts),
                _ => None,
            }
        }
    }
}

// The cut of an axis of the result.
fn point_axis(alloc: Global, dims: &[u64], axis: usize, args: &[Given]) -> Result<Cuts, AllocError>
    requires { axis < length dims.now }
    ensures { IfOk result (λ cuts. cuts ≡ cond (nat_eq (get_or dims.now axis 0) 1) (1 ∷ []) (joined_all (map (sizes_on dims.now axis) (layouts_of args.now)))) }
{
    if dims[axis] == 1 {
        return single(alloc);
    }
    let mut cuts = None;
    let mut place = args.len();
    while place > 0 {
        place -= 1;
        cuts = joined_if(alloc, cuts_on(dims, axis, &args[place]), cuts)?;
    }
    match cuts {
        Some(cuts) => Ok(cuts),

        // Some operand has the result's length on each axis.
        None => Err(AllocError),
    }
}

// The layout of the result.
fn layout_of_point(alloc: Global, dims: &[u64], args: &[Given]) -> Result<Layout, AllocError>
    ensures { IfOk result (λ layout. layout ≡ point_layout dims.now (layouts_of args.now)) }
{
    let mut axes = Vec::with_capacity(alloc, dims.len())?;
    for axis in 0..dims.len() {
        axes.push(point_axis(alloc, dims, axis, args)?)?;
    }
    layout_from(alloc, axes)
}

// ---- operands in that layout

// The cut that an axis of an operand is to have: one chunk where its length is 1.
fn target_axis(alloc: Global, own: &Cuts, cuts: &Cuts) -> Result<Cuts, AllocError>
    ensures { IfOk result (λ c. c ≡ cond (nat_eq (total own.now) 1) (1 ∷ []) cuts.now) }
{
    if own.len() == 1 {
        single(alloc)
    } else {
        cuts.copy(alloc)
    }
}

// The layout that an operand is to have.
fn target_of(alloc: Global, layout: &Layout, source: &Keyed) -> Result<Layout, AllocError>
    ensures { IfOk result (λ target. target ≡ arg_target layout.now (Blocks source.now)) }
{
    let own = source.layout().axes();
    let all = layout.axes();
    let front = all.len().saturating_sub(own.len());
    let mut axes = Vec::with_capacity(alloc, own.len())?;
    for axis in 0..own.len().min(all.len() - front) {
        axes.push(target_axis(alloc, &own[axis], &all[front + axis])?)?;
    }
    layout_from(alloc, axes)
}

// An operand in the result's layout.
fn fit(alloc: Global, graph: &mut Graph, layout: &Layout, arg: &Given) -> Result<Given, LowerError>
    ensures ok { IfOk result (λ new. ArgGrown graph.old (fitted_arg (length graph.old) layout.now (arg_of arg.now)) graph.new (arg_of new)) }
    ensures err { IfErr result (Refuses graph.old (fitted_arg (length graph.old) layout.now (arg_of arg.now)).tasks) }
{
    match arg {
        Given::Value(value) => Ok(Given::Value(*value)),
        Given::Array(source) => {
            let target = target_of(alloc, layout, source)?;
            Ok(Given::Array(push_fitted(alloc, graph, source, target)?))
        }
    }
}

// All operands in the result's layout, one after another.
fn fit_all(
    alloc: Global,
    graph: &mut Graph,
    layout: &Layout,
    args: &[Given],
) -> Result<Vec<Given>, LowerError>
    ensures ok { IfOk result (λ new. ArgsGrown graph.old (fitted_args layout.now (args_of args.now) (length graph.old)) graph.new (args_of new.items)) }
    ensures err { IfErr result (Refuses graph.old (fitted_args layout.now (args_of args.now) (length graph.old)).tasks) }
{
    let mut fitted = Vec::with_capacity(alloc, args.len())?;
    for arg in args {
        fitted.push(fit(alloc, graph, layout, arg)?)?;
    }
    Ok(fitted)
}

// ---- tasks

// The chunks of an operand's block under a block of the result. An operand has no more axes than the result.
fn chunks_under(alloc: Global, axes: &[Cuts], block: &[u64]) -> Result<Vec<u64>, AllocError>
    ensures { IfOk result (λ own. own.items ≡ under (counts axes.now) block.now) }
{
    if axes.len() > block.len() {
        return Err(AllocError);
    }
    let counts = counts_of(alloc, axes)?;
    let mut own = vec![in alloc; 0u64; counts.len()]?;
    index_under(counts.as_slice(), block, own.as_mut_slice());
    Ok(own)
}

// Gathers the block of an operand that a block of the result uses, if the operand is an array.
fn gather(alloc: Global, arg: &Given, block: &[u64], uses: &mut Gathered) -> Result<(), AllocError>
    ensures { OnOk result (uses.new ≡ uses.old ++ uses_of_arg block.now (arg_of arg.now)) }
{
    match arg {
        Given::Value(_) => Ok(()),
        Given::Array(source) => {
            let axes = source.layout().axes();
            let own = chunks_under(alloc, axes, block)?;
            let shape = lengths_of(alloc, axes, own.as_slice())?;
            let key = source.key(own.as_slice())?;
            uses.add(key, shape)
        }
    }
}

// The blocks that a block of the result uses.
fn gather_all(alloc: Global, args: &[Given], block: &[u64]) -> Result<Uses, AllocError>
    ensures { IfOk result (λ uses. uses ≡ uses_of (args_of args.now) block.now) }
{
    let mut uses = Gathered::new(alloc);
    for arg in args {
        gather(alloc, arg, block, &mut uses)?;
    }
    uses.into_uses(alloc)
}

// An operand of a task.
fn operand(
    alloc: Global,
    uses: &Uses,
    args: &[Given],
    place: usize,
    block: &[u64],
) -> Result<Operand, AllocError>
    ensures { IfOk result (λ o. o ≡ operand_of uses.now block.now (nth_arg (args_of args.now) place)) }
{
    match args.get(place) {
        None => Ok(Operand::Number(0)),
        Some(Given::Value(value)) => Ok(Operand::Number(*value)),
        Some(Given::Array(source)) => {
            let own = chunks_under(alloc, source.layout().axes(), block)?;
            let key = source.key(own.as_slice())?;
            input(uses.place(key))
        }
    }
}

// The input at a place. A task has no more inputs than a graph has keys.
fn input(place: usize) -> Result<Operand, AllocError>
    ensures { IfOk result (λ o. o ≡ At place) }
{
    if place as u64 >= KEYS {
        return Err(AllocError);
    }
    Ok(Operand::Input(place as u32))
}

// The operation on a block's operands.
fn spec_of(
    alloc: Global,
    operation: Operation,
    args: &[Given],
    uses: &Uses,
    block: &[u64],
    inputs: Shapes,
    shape: Shape,
) -> Result<Spec, AllocError>
    requires { inputs ≡ inputs_among uses.now }
    ensures { IfOk result (λ spec. spec ≡ point_spec (point_of operation) (args_of args.now) uses.now block.now shape) }
{
    match operation {
        Operation::Two(op) => Ok(Spec::Elementwise {
            op,
            left: operand(alloc, uses, args, 0, block)?,
            right: operand(alloc, uses, args, 1, block)?,
            inputs,
            shape,
        }),
        Operation::Three => Ok(Spec::Where {
            cond: operand(alloc, uses, args, 0, block)?,
            yes: operand(alloc, uses, args, 1, block)?,
            no: operand(alloc, uses, args, 2, block)?,
            inputs,
            shape,
        }),
    }
}

// The blocks of the result.
#[derive(Drop)]
struct Pointwise<'a> {
    operation: Operation,
    layout: &'a Layout,
    args: &'a [Given],
}

impl<'a> Stage for Pointwise<'a> {
    ghost use Rattle.chunk_layout.specs.Layouts.{counts};
    ghost use Rattle.lowering_laws.specs.Stages.{point_task};
    ghost use Rattle.block_lowering.specs.Args.{point_of, args_of};

    ghost task_of = { λ s bs. point_task (point_of s.operation) s.layout.now (args_of s.args.now) bs };

    ghost chunks = { λ s. counts s.layout.now };

    ghost sound = { λ s. Unit {0} };

    fn task(&self, alloc: Global, _place: u64, block: &[u64]) -> Result<Task, AllocError> {
        let uses = gather_all(alloc, self.args, block)?;
        let shape = lengths_of(alloc, self.layout.axes(), block)?;
        let inputs = uses.inputs(alloc)?;
        let cost = cost_of(&shape, inputs.as_slice())?;
        let spec = spec_of(
            alloc,
            self.operation,
            self.args,
            &uses,
            block,
            inputs,
            shape,
        )?;
        Ok(Task {
            spec,
            deps: uses.into_deps(),
            work: cost.work,
            nbytes: cost.nbytes,
        })
    }
}

/// Puts the blocks of an operation element by element behind the tasks of a graph, and before them those of its operands in
/// the result's layout, operand by operand.
pub fn push_pointwise(
    alloc: Global,
    graph: &mut Graph,
    operation: Operation,
    dims: &[u64],
    args: &[Given],
) -> Result<Keyed, LowerError>
    ensures ok { IfOk result (IsGrown graph.old (pointwise (point_of operation) dims.now (args_of args.now) (length graph.old)) graph.new) }
    ensures err { IfErr result (Refuses graph.old (pointwise (point_of operation) dims.now (args_of args.now) (length graph.old)).tasks) }
{
    let layout = layout_of_point(alloc, dims, args)?;
    let fitted = fit_all(alloc, graph, &layout, args)?;
    let first = graph.keys();
    let counts = counts_of(alloc, layout.axes())?;
    let stage = Pointwise {
        operation,
        layout: &layout,
        args: fitted.as_slice(),
    };
    push_blocks(alloc, graph, &stage, counts.as_slice())?;
    Ok(Keyed::new(layout, first, 1)?)
}
