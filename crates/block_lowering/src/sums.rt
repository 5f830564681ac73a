//! Reductions: a partial result for each block of the operand, and trees over them.
ghost use Rattle.std.specs.Prelude.{◌≡◌, ◌≤◌, length, IfOk, IfErr};
ghost use Rattle.lowering_laws.specs.Stages.{kept_axes, reduced_blocks};
ghost use Rattle.block_lowering.specs.Growing.{Refuses, IsGrown};

use crate::counts::counts_of;
use crate::error::LowerError;
use crate::folds::{Parted, fold_task, push_folded};
use crate::layouts::{layout_from, push_kept_cuts};
use crate::lists::{folded_counts, index_merged};
use crate::moving::one_key;
use crate::parts::lengths_of;
use crate::sources::Keyed;
use chunk_layout::{Cuts, Layout};
use nd_grid::Fold;
use nd_shape::{Axes, Shapes};
use std::alloc::{AllocError, Global};
use task_graph::{Graph, Task};

// The partial results of a reduction.
#[derive(Drop)]
struct Reduced<'a> {
    fold: Fold,
    axes: &'a Axes,
    source: &'a Keyed,
}

impl<'a> Parted for Reduced<'a> {
    ghost use Rattle.nd_grid.specs.Grid.{folded_shape};
    ghost use Rattle.chunk_layout.specs.Layouts.{counts};
    ghost use Rattle.block_lowering.specs.Tasks.{fold_task as task_at};

    ghost part_of = { λ s bs index. task_at s.fold s.axes.now s.source.now bs index };

    ghost parts = { λ s. folded_shape 0 (counts s.source.now.layout) s.axes.now };

    fn part(&self, alloc: Global, block: &[u64], index: &[u64]) -> Result<Task, AllocError> {
        let cuts = self.source.layout().axes();
        let counts = counts_of(alloc, cuts)?;
        let axes = self.axes.as_slice();
        let own = index_merged(alloc, counts.as_slice(), axes, block, index)?;
        let key = self.source.key(own.as_slice())?;
        let mut inputs = Shapes::new(alloc);
        inputs.push(lengths_of(alloc, cuts, own.as_slice())?)?;
        fold_task(alloc, self.fold, self.axes, inputs, one_key(alloc, key)?)
    }
}

/// The layout of the axes that aren't listed.
pub fn kept_layout(alloc: Global, axes: &[Cuts], listed: &[u64]) -> Result<Layout, AllocError>
    ensures { IfOk result (λ layout. layout ≡ kept_axes 0 axes.now listed.now) }
{
    let mut kept = Vec::new(alloc);
    push_kept_cuts(alloc, &mut kept, axes, listed)?;
    layout_from(alloc, kept)
}

/// Puts the blocks of a reduction behind the tasks of a graph: for each its partial results, then the tree that folds so many
/// of them at a time.
pub fn push_reduced(
    alloc: Global,
    graph: &mut Graph,
    fold: Fold,
    axes: &Axes,
    split: u64,
    source: &Keyed,
) -> Result<Keyed, LowerError>
    requires { 2 ≤ split }
    ensures ok { IfOk result (IsGrown graph.old (reduced_blocks fold axes.now split source.now (length graph.old)) graph.new) }
    ensures err { IfErr result (Refuses graph.old (reduced_blocks fold axes.now split source.now (length graph.old)).tasks) }
{
    let cuts = source.layout().axes();
    let layout = kept_layout(alloc, cuts, axes.as_slice())?;
    let counts = counts_of(alloc, cuts)?;
    let parts = folded_counts(alloc, counts.as_slice(), axes.as_slice())?;
    let of = Reduced { fold, axes, source };
    push_folded(alloc, graph, fold, split, &of, parts.as_slice(), layout)
}
