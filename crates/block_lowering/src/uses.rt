//! The keys that a task of several operands uses: each once, ascending, with the shapes of their blocks.
ghost use Rattle.std.specs.Prelude.{◌≡◌, ◌∷◌, ◌++◌, [], map, slice_index_or, IfOk, OnOk};
ghost use Rattle.task_graph.specs.Orders.{position};
ghost use Rattle.lowering_laws.specs.Stages.{Use, place_among, inputs_among, deps_of_uses};

use crate::lists::{in_order, place_of_key};
use cluster_msgs::KeyList;
use nd_shape::{Shape, Shapes};
use std::alloc::{AllocError, Global};
use std::marker::Model;

/// The uses of a task, of which contracts see the list in the order of the operands.
#[derive(Drop)]
pub struct Uses {
    keys: Vec<u32>,
    shapes: Vec<Shape>,
    deps: Vec<u32>,
}

/// Uses that are gathered, operand by operand.
#[derive(Drop)]
pub struct Gathered {
    keys: Vec<u32>,
    shapes: Vec<Shape>,
}

impl Model for Gathered {
    ghost use Rattle.std.specs.Prelude.{List};
    ghost use Rattle.lowering_laws.specs.Stages.{Use};
    ghost use Rattle.block_lowering.specs.Using.{zipped, AreEven};

    ghost Value = { List Use };

    ghost view = { λ s. zipped s.keys.items s.shapes.items };

    ghost invariant = { λ s. AreEven s.keys.items s.shapes.items };
}

impl Model for Uses {
    ghost use Rattle.std.specs.Prelude.{List};
    ghost use Rattle.lowering_laws.specs.Stages.{Use};
    ghost use Rattle.block_lowering.specs.Using.{zipped, AreGathered};

    ghost Value = { List Use };

    ghost view = { λ s. zipped s.keys.items s.shapes.items };

    ghost invariant = { λ s. AreGathered s.keys.items s.shapes.items s.deps.items };
}

impl Gathered {
    /// None. No memory.
    pub fn new(alloc: Global) -> Gathered
        ensures { result ≡ [] }
    {
        Gathered {
            keys: Vec::new(alloc),
            shapes: Vec::new(alloc),
        }
    }

    /// One more. Where memory is wanting, the uses are as before.
    pub fn add(&mut self, key: u32, shape: Shape) -> Result<(), AllocError>
        ensures { OnOk result (self.new ≡ self.old ++ record { key = key; shape = shape } ∷ []) }
    {
        self.shapes.push(shape)?;
        match self.keys.push(key) {
            Ok(()) => Ok(()),
            Err(_) => {
                let _ = self.shapes.pop();
                Err(AllocError)
            }
        }
    }

    /// The uses of a task, with its dependencies in order.
    pub fn into_uses(self, alloc: Global) -> Result<Uses, AllocError>
        ensures { IfOk result (λ uses. uses ≡ self) }
    {
        let deps = in_order(alloc, self.keys.as_slice())?;
        let Gathered { keys, shapes } = self;
        Ok(Uses { keys, shapes, deps })
    }
}

impl Uses {
    /// The place of a key among the dependencies. No memory.
    pub fn place(&self, key: u32) -> usize
        ensures { result ≡ place_among self.now key }
    {
        place_of_key(self.deps.as_slice(), key)
    }

    // The shape of a key's block, by its first use.
    fn shape_of_key(&self, alloc: Global, key: u32) -> Result<Shape, AllocError>
        ensures { IfOk result (λ shape. shape ≡ slice_index_or (map (λ (u : Use). u.shape) self.now) (position (map (λ (u : Use). u.key) self.now) key) []) }
    {
        match self.shapes.get(place_of_key(self.keys.as_slice(), key)) {
            Some(shape) => shape.copy(alloc),
            None => Ok(Shape::of(Vec::new(alloc))),
        }
    }

    /// The shapes of the inputs, in the order of the dependencies.
    pub fn inputs(&self, alloc: Global) -> Result<Shapes, AllocError>
        ensures { IfOk result (λ shapes. shapes ≡ inputs_among self.now) }
    {
        let mut shapes = Vec::with_capacity(alloc, self.deps.len())?;
        for key in self.deps.as_slice() {
            shapes.push(self.shape_of_key(alloc, *key)?)?;
        }
        Ok(Shapes::from_vec(shapes))
    }

    /// The keys, each once and ascending. No memory.
    pub fn into_deps(self) -> KeyList
        ensures { result ≡ deps_of_uses self }
    {
        let Uses { deps, .. } = self;
        KeyList::from_vec(deps)
    }
}
