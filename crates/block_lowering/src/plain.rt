//! Arrays without operands: constants and ramps, and inputs.
ghost use Rattle.std.specs.Prelude.{◌≡◌, [], length, IfOk, IfErr};
ghost use Rattle.nd_shape.specs.Region.{Box};
ghost use Rattle.chunk_layout.specs.Layouts.{normalized};
ghost use Rattle.block_kernels.specs.declared.spec.Spec.{Spec as AnySpec};
ghost use Rattle.block_kernels.specs.Kernels.{input_shapes, result_shape};
ghost use Rattle.lowering_laws.specs.Stages.{filled_blocks, loaded_blocks};
ghost use Rattle.block_lowering.specs.Growing.{Refuses, IsGrown};
ghost use Rattle.block_lowering.specs.Tasks.{alone_blocks};

use crate::counts::counts_of;
use crate::error::LowerError;
use crate::growing::{Stage, push_blocks};
use crate::layouts::layout_of;
use crate::parts::{box_of, cost_alone, shape_from};
use crate::sources::Keyed;
use block_kernels::Spec;
use chunk_layout::Layout;
use cluster_msgs::KeyList;
use nd_shape::{ChunkSpec, Region, Shape};
use std::alloc::{AllocError, Global};
use task_graph::{Graph, Task};

// What makes the blocks of an array without operands, each of its region alone.
trait Leaf {
    // The operation that makes the block of a region.
    ghost spec_of: { Self → Box → AnySpec };

    fn spec(&self, alloc: Global, region: Region) -> Result<Spec, AllocError>
        ensures value { IfOk result (λ spec. spec ≡ spec_of self.now region) }
        ensures shape { IfOk result (λ spec. result_shape spec ≡ region.lengths) }
        ensures alone { IfOk result (λ spec. input_shapes spec ≡ []) };
}

// The elements of an array of these lengths that rise by a step, from a first one on.
#[derive(Drop)]
struct Ramp<'a> {
    dims: &'a Shape,
    start: i64,
    step: i64,
}

impl<'a> Leaf for Ramp<'a> {
    ghost use Rattle.block_kernels.specs.declared.spec.Spec.TheVariants.{Fill};

    ghost spec_of = { λ s region. Fill s.dims.now region s.start s.step };

    fn spec(&self, alloc: Global, region: Region) -> Result<Spec, AllocError> {
        Ok(Spec::Fill {
            dims: self.dims.copy(alloc)?,
            region,
            start: self.start,
            step: self.step,
        })
    }
}

// The input of this number among the inputs.
#[derive(Drop)]
struct Input {
    number: u32,
}

impl Leaf for Input {
    ghost use Rattle.block_kernels.specs.declared.spec.Spec.TheVariants.{Load};

    ghost spec_of = { λ s region. Load s.number region };

    fn spec(&self, _alloc: Global, region: Region) -> Result<Spec, AllocError> {
        Ok(Spec::Load {
            input: self.number,
            region,
        })
    }
}

// The blocks of such an array.
#[derive(Drop)]
struct Alone<'a, L> {
    of: &'a L,
    layout: &'a Layout,
}

impl<'a, L: Leaf> Stage for Alone<'a, L> {
    ghost use Rattle.chunk_layout.specs.Layouts.{counts};
    ghost use Rattle.block_lowering.specs.Tasks.{alone_task};

    ghost task_of = { λ s bs. alone_task (L.spec_of s.of.now) s.layout.now bs };

    ghost chunks = { λ s. counts s.layout.now };

    ghost sound = { λ s. Unit {0} };

    fn task(&self, alloc: Global, _place: u64, block: &[u64]) -> Result<Task, AllocError> {
        let region = box_of(self.layout.axes(), block);
        let shape = shape_from(Vec::from_slice(alloc, region.lengths())?)?;
        let cost = cost_alone(&shape);
        Ok(Task {
            spec: self.of.spec(alloc, region)?,
            deps: KeyList::new(alloc),
            work: cost.work,
            nbytes: cost.nbytes,
        })
    }
}

// Puts the blocks of an array without operands, cut as specified, behind the tasks of a graph.
fn push_alone<L: Leaf>(
    alloc: Global,
    graph: &mut Graph,
    of: &L,
    dims: &Shape,
    chunks: &[ChunkSpec],
) -> Result<Keyed, LowerError>
    ensures ok { IfOk result (IsGrown graph.old (alone_blocks (L.spec_of of.now) (normalized dims.now chunks.now) (length graph.old)) graph.new) }
    ensures err { IfErr result (Refuses graph.old (alone_blocks (L.spec_of of.now) (normalized dims.now chunks.now) (length graph.old)).tasks) }
{
    let first = graph.keys();
    let layout = layout_of(alloc, dims, chunks)?;
    let counts = counts_of(alloc, layout.axes())?;
    let stage = Alone {
        of,
        layout: &layout,
    };
    push_blocks(alloc, graph, &stage, counts.as_slice())?;
    graph.sound();
    Ok(Keyed::new(layout, first, 1)?)
}

/// Puts the blocks of a ramp behind the tasks of a graph; a constant has a step of 0.
pub fn push_filled(
    alloc: Global,
    graph: &mut Graph,
    dims: &Shape,
    chunks: &[ChunkSpec],
    start: i64,
    step: i64,
) -> Result<Keyed, LowerError>
    ensures ok { IfOk result (IsGrown graph.old (filled_blocks dims.now (normalized dims.now chunks.now) start step (length graph.old)) graph.new) }
    ensures err { IfErr result (Refuses graph.old (filled_blocks dims.now (normalized dims.now chunks.now) start step (length graph.old)).tasks) }
{
    let ramp = Ramp { dims, start, step };
    push_alone(alloc, graph, &ramp, dims, chunks)
}

/// Puts the blocks of an input behind the tasks of a graph.
pub fn push_loaded(
    alloc: Global,
    graph: &mut Graph,
    input: u32,
    dims: &Shape,
    chunks: &[ChunkSpec],
) -> Result<Keyed, LowerError>
    ensures ok { IfOk result (IsGrown graph.old (loaded_blocks input (normalized dims.now chunks.now) (length graph.old)) graph.new) }
    ensures err { IfErr result (Refuses graph.old (loaded_blocks input (normalized dims.now chunks.now) (length graph.old)).tasks) }
{
    push_alone(alloc, graph, &Input { number: input }, dims, chunks)
}
