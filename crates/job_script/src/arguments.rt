//! The lists and numbers of a statement or a call, while they are read.
ghost use Rattle.std.specs.Prelude.{◌≡◌, ◌<◌, ◌^◌, ◌∷◌, ◌++◌, [], None, Some, OnOk};
ghost use Rattle.nd_shape.specs.declared.chunk.ChunkSpec.TheVariants.{List as ListedChunks};
ghost use Rattle.job_script.specs.Arguments.{nothing_given, bound_at, range_of, given_after, given_with};

use job_grammar::Action;
use nd_shape::{Axes, ChunkSpec, Dims, Part, Parts, Specs};
use std::alloc::{AllocError, Global};
use std::marker::Model;
use std::mem;

/// The lists and numbers that were read. They are seen as such.
#[derive(Drop)]
pub(crate) struct Arguments {
    alloc: Global,
    dims: Dims,
    left_axes: Axes,
    chunks: Specs,
    sizes: Dims,
    parts: Parts,
    bounds: Vec<Option<i64>>,
    int: Option<i64>,
    value: i64,
    step: i64,
    axes: Option<Axes>,
    split: u64,
    axis: u64,
}

impl Model for Arguments {
    ghost use Rattle.job_script.specs.Arguments.{Given};

    ghost Value = { Given };

    ghost view = { λ a. record { dims = a.dims; left_axes = a.left_axes; chunks = a.chunks; sizes = a.sizes; parts = a.parts; bounds = a.bounds.items; int = a.int; value = a.value; step = a.step; axes = a.axes; split = a.split; axis = a.axis } };
}

fn bound(bounds: &[Option<i64>], k: usize) -> Option<i64>
    ensures { result ≡ bound_at bounds.now k }
{
    match bounds.get(k) {
        Some(bound) => *bound,
        None => None,
    }
}

fn range(bounds: &[Option<i64>]) -> Part
    ensures { result ≡ range_of bounds.now }
{
    Part::Range(bound(bounds, 0), bound(bounds, 1), bound(bounds, 2))
}

impl Arguments {
    pub(crate) fn new(alloc: Global) -> Self
        ensures { result ≡ nothing_given }
    {
        Arguments {
            alloc,
            dims: Dims::new(alloc),
            left_axes: Axes::new(alloc),
            chunks: Specs::new(alloc),
            sizes: Dims::new(alloc),
            parts: Parts::new(alloc),
            bounds: Vec::new(alloc),
            int: None,
            value: 0,
            step: 0,
            axes: None,
            split: 4,
            axis: 0,
        }
    }

    /// Does what an action does that speaks of these alone.
    pub(crate) fn act(&mut self, action: Action) -> Result<(), AllocError>
        ensures { OnOk result (self.new ≡ given_after action self.old) }
    {
        match action {
            Action::OpenDims => self.dims = Dims::new(self.alloc),
            Action::OpenChunks => self.chunks = Specs::new(self.alloc),
            Action::OpenSizes => self.sizes = Dims::new(self.alloc),
            Action::Sizes => self.add_sizes()?,
            Action::OpenParts => self.parts = Parts::new(self.alloc),
            Action::OpenPart => {
                self.bounds.clear();
                self.int = None;
            }
            Action::Index => self.parts.push(Part::At(self.int.unwrap_or(0)))?,
            Action::Bound => {
                self.bounds.push(self.int)?;
                self.int = None;
            }
            Action::Range => self.add_range()?,
            Action::PlainFold => {
                self.axes = None;
                self.split = 4;
            }
            Action::FoldAxes => self.axes = Some(self.take_dims()),
            Action::LeftAxes => self.left_axes = self.take_dims(),
            Action::Value => self.value = self.int.unwrap_or(0),
            Action::Step => self.step = self.int.unwrap_or(0),
            _ => {}
        }
        Ok(())
    }

    /// Does what an action does with a number.
    pub(crate) fn act_with(&mut self, action: Action, number: u64) -> Result<(), AllocError>
        requires { number < 2 ^ 63 }
        ensures { OnOk result (self.new ≡ given_with action number self.old) }
    {
        match action {
            Action::Dim => self.dims.push(number)?,
            Action::Even => self.chunks.push(ChunkSpec::Even(number))?,
            Action::Size => self.sizes.push(number)?,
            Action::Positive => self.int = Some(number as i64),
            Action::FoldSplit => self.split = number,
            Action::ListAxis => self.axis = number,
            _ => {}
        }
        Ok(())
    }

    fn add_sizes(&mut self) -> Result<(), AllocError>
        ensures { OnOk result (self.new ≡ record self.old { chunks = self.old.chunks ++ ListedChunks self.old.sizes ∷ []; sizes = [] }) }
    {
        let sizes = mem::replace(&mut self.sizes, Dims::new(self.alloc));
        self.chunks.push(ChunkSpec::List(sizes))
    }

    fn add_range(&mut self) -> Result<(), AllocError>
        ensures { OnOk result (self.new ≡ record self.old { bounds = self.old.bounds ++ self.old.int ∷ []; parts = self.old.parts ++ range_of (self.old.bounds ++ self.old.int ∷ []) ∷ [] }) }
    {
        self.bounds.push(self.int)?;
        let part = range(self.bounds.as_slice());
        self.parts.push(part)
    }

    pub(crate) fn set_int(&mut self, int: i64)
        ensures { self.new ≡ record self.old { int = Some int } }
    {
        self.int = Some(int);
    }

    /// Takes the lengths or axes out.
    pub(crate) fn take_dims(&mut self) -> Dims
        ensures value { result ≡ self.old.dims }
        ensures after { self.new ≡ record self.old { dims = [] } }
    {
        mem::replace(&mut self.dims, Dims::new(self.alloc))
    }

    pub(crate) fn take_left_axes(&mut self) -> Axes
        ensures value { result ≡ self.old.left_axes }
        ensures after { self.new ≡ record self.old { left_axes = [] } }
    {
        mem::replace(&mut self.left_axes, Axes::new(self.alloc))
    }

    pub(crate) fn take_chunks(&mut self) -> Specs
        ensures value { result ≡ self.old.chunks }
        ensures after { self.new ≡ record self.old { chunks = [] } }
    {
        mem::replace(&mut self.chunks, Specs::new(self.alloc))
    }

    pub(crate) fn take_parts(&mut self) -> Parts
        ensures value { result ≡ self.old.parts }
        ensures after { self.new ≡ record self.old { parts = [] } }
    {
        mem::replace(&mut self.parts, Parts::new(self.alloc))
    }

    pub(crate) fn take_axes(&mut self) -> Option<Axes>
        ensures value { result ≡ self.old.axes }
        ensures after { self.new ≡ record self.old { axes = None } }
    {
        self.axes.take()
    }

    pub(crate) fn value(&self) -> i64
        ensures { result ≡ self.now.value }
    {
        self.value
    }

    pub(crate) fn step(&self) -> i64
        ensures { result ≡ self.now.step }
    {
        self.step
    }

    pub(crate) fn split(&self) -> u64
        ensures { result ≡ self.now.split }
    {
        self.split
    }

    pub(crate) fn axis(&self) -> u64
        ensures { result ≡ self.now.axis }
    {
        self.axis
    }
}
