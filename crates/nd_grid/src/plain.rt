//! Operations on blocks, one element after another by the operation's formula.
ghost use Rattle.std.specs.Prelude.{◌≡◌, ◌<◌, ◌^◌, [], ◌∷◌, length, map, slice_index, IfOk, IfErr, Ok, Some};
ghost use Rattle.nd_shape.specs.Broadcast.{broadcast, Agree};
ghost use Rattle.nd_shape.specs.Shape.{elements};
ghost use Rattle.nd_shape.specs.Index.{IsIn, index_at};
ghost use Rattle.nd_shape.specs.Region.{IsPart};
ghost use Rattle.nd_grid.specs.Grid.{grid_of, block_of, elementwise, chosen, negated, sliced, sliced_shape, SlicesFit, transposed, IsTranspose, ramp, part, reduced, kept_shape, folded_shape, merged};
ghost use Rattle.nd_grid.specs.Computed.{FailsAs};

use crate::element::{dims_of, element_at, element_under};
use crate::formula::{Fail, Formula, tabulate};
use crate::operand::{index_merged, index_moved, index_sliced, index_transposed};
use crate::operation::{Binary, Fold, apply, fold_two, negate_element, neutral, on_slope, pick};
use nd_shape::shape::AXES;
use nd_shape::{Block, Region, Shape, Steps, ravel, unravel};
use std::alloc::Global;

#[derive(Clone, Copy)]
struct Pair<'a> {
    op: Binary,
    left: &'a Block,
    right: &'a Block,
}

impl<'a> Formula for Pair<'a> {
    ghost use Rattle.std.specs.Prelude.{[], ◌∷◌};
    ghost use Rattle.nd_shape.specs.Broadcast.{Agree};
    ghost use Rattle.nd_grid.specs.Grid.{grid_of, elementwise};

    ghost grid = { λ s. elementwise s.op (grid_of s.left.now) (grid_of s.right.now) };

    ghost valid = { λ s. Agree (s.left.now.shape ∷ s.right.now.shape ∷ []) };

    fn at(&self, index: &[u64]) -> Option<i64> {
        let left = element_under(self.left, index);
        let right = element_under(self.right, index);
        apply(self.op, left, right)
    }
}

#[derive(Clone, Copy)]
struct Choice<'a> {
    condition: &'a Block,
    yes: &'a Block,
    no: &'a Block,
}

impl<'a> Formula for Choice<'a> {
    ghost use Rattle.std.specs.Prelude.{[], ◌∷◌};
    ghost use Rattle.nd_shape.specs.Broadcast.{Agree};
    ghost use Rattle.nd_grid.specs.Grid.{grid_of, chosen};

    ghost grid = { λ s. chosen (grid_of s.condition.now) (grid_of s.yes.now) (grid_of s.no.now) };

    ghost valid = { λ s. Agree (s.condition.now.shape ∷ s.yes.now.shape ∷ s.no.now.shape ∷ []) };

    fn at(&self, index: &[u64]) -> Option<i64> {
        let condition = element_under(self.condition, index);
        let yes = element_under(self.yes, index);
        let no = element_under(self.no, index);
        pick(Some(condition), Some(yes), Some(no))
    }
}

#[derive(Clone, Copy)]
struct Negation<'a> {
    of: &'a Block,
}

impl<'a> Formula for Negation<'a> {
    ghost use Rattle.nd_grid.specs.Grid.{grid_of, negated};

    ghost grid = { λ s. negated (grid_of s.of.now) };

    ghost valid = { λ s. Unit {0} };

    fn at(&self, index: &[u64]) -> Option<i64> {
        Some(negate_element(element_at(self.of, index)))
    }
}

#[derive(Clone, Copy)]
struct Taking<'a> {
    steps: &'a [Steps],
    dropped: &'a [u64],
    of: &'a Block,
}

impl<'a> Formula for Taking<'a> {
    ghost use Rattle.nd_grid.specs.Grid.{grid_of, sliced, SlicesFit};

    ghost grid = { λ s. sliced s.steps.now s.dropped.now (grid_of s.of.now) };

    ghost valid = { λ s. SlicesFit 0 s.steps.now s.of.now.shape s.dropped.now };

    fn at(&self, index: &[u64]) -> Option<i64> {
        let dims = dims_of(self.of);
        let mut room = [0; AXES];
        let own = &mut room[..dims.len()];
        index_sliced(self.steps, self.dropped, dims, index, own);
        Some(element_at(self.of, own))
    }
}

#[derive(Clone, Copy)]
struct Turn<'a> {
    axes: &'a [u64],
    of: &'a Block,
}

impl<'a> Formula for Turn<'a> {
    ghost use Rattle.std.specs.Prelude.{length};
    ghost use Rattle.nd_grid.specs.Grid.{grid_of, transposed, IsTranspose};

    ghost grid = { λ s. transposed s.axes.now (grid_of s.of.now) };

    ghost valid = { λ s. IsTranspose s.axes.now (length s.of.now.shape) };

    fn at(&self, index: &[u64]) -> Option<i64> {
        let dims = dims_of(self.of);
        let mut room = [0; AXES];
        let own = &mut room[..dims.len()];
        index_transposed(self.axes, index, own);
        Some(element_at(self.of, own))
    }
}

#[derive(Clone, Copy)]
struct Slope<'a> {
    shape: &'a Shape,
    region: &'a Region,
    start: i64,
    step: i64,
}

impl<'a> Formula for Slope<'a> {
    ghost use Rattle.nd_shape.specs.Region.{IsPart};
    ghost use Rattle.nd_grid.specs.Grid.{ramp, part};

    ghost grid = { λ s. part s.region.now (ramp s.shape.now s.start s.step) };

    ghost valid = { λ s. IsPart s.region.now s.shape.now };

    fn at(&self, index: &[u64]) -> Option<i64> {
        let dims = self.shape.dims();
        let mut room = [0; AXES];
        let own = &mut room[..dims.len()];
        index_moved(self.region.starts(), index, own);
        let place = ravel(self.shape, own);
        Some(on_slope(self.start, self.step, place))
    }
}

#[derive(Clone, Copy)]
struct Reduction<'a> {
    fold: Fold,
    axes: &'a [u64],
    of: &'a Block,
    folded: &'a Shape,
}

impl<'a> Formula for Reduction<'a> {
    ghost use Rattle.std.specs.Prelude.{◌≡◌};
    ghost use Rattle.nd_grid.specs.Grid.{grid_of, reduced, folded_shape};

    ghost grid = { λ s. reduced s.fold s.axes.now (grid_of s.of.now) };

    ghost valid = { λ s. s.folded.now ≡ folded_shape 0 s.of.now.shape s.axes.now };

    fn at(&self, index: &[u64]) -> Option<i64> {
        Some(reduced_element(self.fold, self.axes, self.of, self.folded, index))
    }
}

// The element of the operand at a place of the folded axes.
fn merged_element(axes: &[u64], of: &Block, folded: &Shape, index: &[u64], place: u64) -> i64
    requires folded { folded.now ≡ folded_shape 0 of.now.shape axes.now }
    requires kept { IsIn (kept_shape 0 of.now.shape axes.now) index.now }
    requires place { place < elements folded.now }
    ensures { Some result ≡ (grid_of of.now).at (merged 0 of.now.shape axes.now index.now (index_at folded.now place)) }
{
    let dims = dims_of(of);
    let mut room = [0; AXES];
    let rest = &mut room[..folded.dims().len()];
    unravel(folded, place, rest);
    let mut space = [0; AXES];
    let own = &mut space[..dims.len()];
    index_merged(axes, dims, index, rest, own);
    element_at(of, own)
}

fn reduced_element(fold: Fold, axes: &[u64], of: &Block, folded: &Shape, index: &[u64]) -> i64
    requires folded { folded.now ≡ folded_shape 0 of.now.shape axes.now }
    requires kept { IsIn (kept_shape 0 of.now.shape axes.now) index.now }
    ensures { Some result ≡ (reduced fold axes.now (grid_of of.now)).at index.now }
{
    let mut total = neutral(fold);
    for place in 0..folded.elements() {
        total = fold_two(fold, total, merged_element(axes, of, folded, index, place));
    }
    total
}

/// An operation on two blocks, element by element, whose shapes are broadcast. ZeroDivide names the first place with a
/// divisor of 0.
pub fn elementwise(
    alloc: Global,
    op: Binary,
    left: &Block,
    right: &Block,
    shape: Shape,
) -> Result<Block, Fail>
    requires agree { Agree (left.now.shape ∷ right.now.shape ∷ []) }
    requires shape { broadcast (left.now.shape ∷ right.now.shape ∷ []) ≡ shape }
    ensures ok { IfOk result (λ block. block_of (elementwise op (grid_of left.now) (grid_of right.now)) ≡ Ok block) }
    ensures err { IfErr result (λ e. FailsAs e (block_of (elementwise op (grid_of left.now) (grid_of right.now)))) }
{
    tabulate(alloc, &Pair { op, left, right }, shape)
}

/// The second where the condition isn't 0, else the third, as NumPy's `where`. The three are broadcast at once.
pub fn choose(
    alloc: Global,
    condition: &Block,
    yes: &Block,
    no: &Block,
    shape: Shape,
) -> Result<Block, Fail>
    requires agree { Agree (condition.now.shape ∷ yes.now.shape ∷ no.now.shape ∷ []) }
    requires shape { broadcast (condition.now.shape ∷ yes.now.shape ∷ no.now.shape ∷ []) ≡ shape }
    ensures ok { IfOk result (λ block. block_of (chosen (grid_of condition.now) (grid_of yes.now) (grid_of no.now)) ≡ Ok block) }
    ensures err { IfErr result (λ e. FailsAs e (block_of (chosen (grid_of condition.now) (grid_of yes.now) (grid_of no.now)))) }
{
    tabulate(alloc, &Choice { condition, yes, no }, shape)
}

/// Each element negated; `-2^63` stays as it is.
pub fn negate(alloc: Global, of: &Block, shape: Shape) -> Result<Block, Fail>
    requires { of.now.shape ≡ shape }
    ensures ok { IfOk result (λ block. block_of (negated (grid_of of.now)) ≡ Ok block) }
    ensures err { IfErr result (λ e. FailsAs e (block_of (negated (grid_of of.now)))) }
{
    tabulate(alloc, &Negation { of }, shape)
}

/// What a slice takes of a block, by one Steps per axis; the axes in `dropped` are left out of the result.
pub fn slice(
    alloc: Global,
    steps: &[Steps],
    dropped: &[u64],
    of: &Block,
    shape: Shape,
) -> Result<Block, Fail>
    requires fits { SlicesFit 0 steps.now of.now.shape dropped.now }
    requires shape { sliced_shape 0 steps.now dropped.now ≡ shape }
    ensures ok { IfOk result (λ block. block_of (sliced steps.now dropped.now (grid_of of.now)) ≡ Ok block) }
    ensures err { IfErr result (λ e. FailsAs e (block_of (sliced steps.now dropped.now (grid_of of.now)))) }
{
    tabulate(alloc, &Taking { steps, dropped, of }, shape)
}

/// The block whose axis k is the axis `axes[k]` of the operand, as NumPy's `transpose`.
pub fn transpose(alloc: Global, axes: &[u64], of: &Block, shape: Shape) -> Result<Block, Fail>
    requires axes { IsTranspose axes.now (length of.now.shape) }
    requires shape { map (λ a. slice_index of.now.shape a) axes.now ≡ shape }
    ensures ok { IfOk result (λ block. block_of (transposed axes.now (grid_of of.now)) ≡ Ok block) }
    ensures err { IfErr result (λ e. FailsAs e (block_of (transposed axes.now (grid_of of.now)))) }
{
    tabulate(alloc, &Turn { axes, of }, shape)
}

/// The part in a region of the array whose element at the row-major place p is `start + step * p`.
pub fn ramp_part(
    alloc: Global,
    whole: &Shape,
    region: &Region,
    start: i64,
    step: i64,
    shape: Shape,
) -> Result<Block, Fail>
    requires part { IsPart region.now whole.now }
    requires shape { region.now.lengths ≡ shape }
    ensures ok { IfOk result (λ block. block_of (part region.now (ramp whole.now start step)) ≡ Ok block) }
    ensures err { IfErr result (λ e. FailsAs e (block_of (part region.now (ramp whole.now start step)))) }
{
    let slope = Slope {
        shape: whole,
        region,
        start,
        step,
    };
    tabulate(alloc, &slope, shape)
}

/// The elements along the listed axes folded into one, as NumPy's reductions. `folded` has the lengths of those axes, in
/// ascending order.
pub fn reduce(
    alloc: Global,
    fold: Fold,
    axes: &[u64],
    of: &Block,
    folded: &Shape,
    shape: Shape,
) -> Result<Block, Fail>
    requires folded { folded.now ≡ folded_shape 0 of.now.shape axes.now }
    requires shape { kept_shape 0 of.now.shape axes.now ≡ shape }
    ensures ok { IfOk result (λ block. block_of (reduced fold axes.now (grid_of of.now)) ≡ Ok block) }
    ensures err { IfErr result (λ e. FailsAs e (block_of (reduced fold axes.now (grid_of of.now)))) }
{
    let reduction = Reduction {
        fold,
        axes,
        of,
        folded,
    };
    tabulate(alloc, &reduction, shape)
}
