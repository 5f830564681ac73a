//! Tasks under new numbers.
ghost use Rattle.std.specs.Prelude.{◌≡◌, ◌<◌, ◌≤◌, [], ℕ, eqb, true, length, map, IsSome, Some, None, slice_set, slice_index, slice_index_or, IfOk};
ghost use Rattle.std.specs.List.{AllByRecursion, IsDistinct};
ghost use Rattle.cluster_msgs.specs.Shape.{IsShape, edge_count};
ghost use Rattle.task_graph.specs.Graphs.{shape_of};
ghost use Rattle.task_graph.specs.Orders.{ascending, position, is_in, moved_operand, moved_piece, moved_spec, moved_task, inputs_of, renumbered};
ghost use Rattle.task_graph.specs.Numberings.{IsNumbering};
ghost use Rattle.task_graph.specs.Moves.{place_now, shapes_now, ArePlaced};

use crate::graph::{Graph, Task};
use crate::numbers::Renumber;
use block_kernels::{Operand, Spec};
use cluster_msgs::KeyList;
use nd_shape::{Piece, Pieces, Shape, Shapes};
use std::alloc::{AllocError, Global};
use std::marker::Model;

// The dependencies of a task under new numbers: a contract sees the numbers in the old order.
#[derive(Drop)]
struct Change {
    keys: Vec<u32>,
    deps: Vec<u32>,
    sources: Vec<u32>,
}

impl Model for Change {
    ghost use Rattle.std.specs.Prelude.{List, ℕ};

    ghost Value = { List ℕ };

    ghost use Rattle.task_graph.specs.Moves.{AreOrdered};

    ghost view = { λ s. s.keys.items };

    ghost invariant = { λ s. AreOrdered s.keys.items s.deps.items s.sources.items };
}

// The place of a key among ascending ones, or their number.
fn place_among(deps: &[u32], key: u32) -> u32
    requires few { length deps.now ≤ 262144 }
    requires rising { (i j : ℕ) → i < j → j < length deps.now → slice_index deps.now i < slice_index deps.now j }
    ensures { result ≡ position deps.now key }
{
    match deps.binary_search(&key) {
        Ok(place) => place as u32,
        Err(_) => deps.len() as u32,
    }
}

// The keys with their places.
fn with_places(alloc: Global, keys: &[u32]) -> Result<Vec<(u32, u32)>, AllocError>
    requires { length keys.now ≤ 262144 }
    ensures { IfOk result (λ pairs. ArePlaced keys.now pairs.items) }
{
    let mut pairs = Vec::with_capacity(alloc, keys.len())?;
    for (place, key) in keys.iter().enumerate() {
        pairs.push((*key, place as u32))?;
    }
    Ok(pairs)
}

fn firsts(alloc: Global, pairs: &[(u32, u32)]) -> Result<Vec<u32>, AllocError>
    ensures { IfOk result (λ list. list.items ≡ map (λ (p : ℕ × ℕ). p.0) pairs.now) }
{
    pairs.iter().map(|pair| pair.0).collect(alloc)
}

fn seconds(alloc: Global, pairs: &[(u32, u32)]) -> Result<Vec<u32>, AllocError>
    ensures { IfOk result (λ list. list.items ≡ map (λ (p : ℕ × ℕ). p.1) pairs.now) }
{
    pairs.iter().map(|pair| pair.1).collect(alloc)
}

// The key at a place, or 0.
fn key_at(keys: &[u32], place: u32) -> u32
    ensures { result ≡ slice_index keys.now place }
{
    match keys.get(place as usize) {
        Some(key) => *key,
        None => 0,
    }
}

impl Change {
    // The change to these numbers.
    fn to(alloc: Global, keys: Vec<u32>) -> Result<Change, AllocError>
        requires few { length keys.items ≤ 262144 }
        requires once { IsDistinct eqb keys.items }
        ensures { IfOk result (λ change. change ≡ keys.items) }
    {
        let mut pairs = with_places(alloc, keys.as_slice())?;
        pairs.sort()?;
        let deps = firsts(alloc, pairs.as_slice())?;
        let sources = seconds(alloc, pairs.as_slice())?;
        Ok(Change {
            keys,
            deps,
            sources,
        })
    }

    // Where the dependency at a place stands now.
    fn place(&self, place: u32) -> u32
        ensures { result ≡ place_now self.now place }
    {
        let key = key_at(self.keys.as_slice(), place);
        place_among(self.deps.as_slice(), key)
    }

    fn operand(&self, operand: Operand) -> Operand
        ensures { result ≡ moved_operand (place_now self.now) operand }
    {
        match operand {
            Operand::Input(place) => Operand::Input(self.place(place)),
            Operand::Number(value) => Operand::Number(value),
        }
    }

    fn pieces(&self, pieces: Pieces) -> Pieces
        ensures { result ≡ map (moved_piece (place_now self.now)) pieces }
    {
        let mut pieces = pieces.into_vec();
        self.place_each(pieces.as_mut_slice());
        Pieces::from_vec(pieces)
    }

    fn place_each(&self, pieces: &mut [Piece])
        ensures { pieces.new ≡ map (moved_piece (place_now self.now)) pieces.old }
    {
        for piece in pieces.iter_mut() {
            piece.source = self.place(piece.source);
        }
    }

    // The shapes of the inputs, each with its dependency.
    fn shapes(&self, alloc: Global, inputs: &Shapes) -> Result<Shapes, AllocError>
        ensures { IfOk result (λ shapes. shapes ≡ shapes_now self.now inputs.now) }
    {
        let shapes = shapes_at(alloc, inputs.as_slice(), self.sources.as_slice())?;
        Ok(Shapes::from_vec(shapes))
    }

    // The shapes of an operation's inputs, each with its dependency.
    fn input_shapes(&self, alloc: Global, spec: &Spec) -> Result<Shapes, AllocError>
        ensures { IfOk result (λ shapes. shapes ≡ shapes_now self.now (inputs_of spec.now)) }
    {
        match spec {
            Spec::Elementwise { inputs, .. }
            | Spec::Where { inputs, .. }
            | Spec::Assemble { inputs, .. }
            | Spec::Reduce { inputs, .. }
            | Spec::Contract { inputs, .. } => self.shapes(alloc, inputs),
            Spec::Slice { .. } | Spec::Transpose { .. } | Spec::Fill { .. } | Spec::Load { .. } => {
                self.shapes(alloc, &Shapes::new(alloc))
            }
        }
    }

    // The operation on the inputs in their new order, which have these shapes.
    fn spec(&self, spec: Spec, shapes: Shapes) -> Spec
        ensures { result ≡ moved_spec (place_now self.now) shapes spec }
    {
        match spec {
            Spec::Elementwise {
                op,
                left,
                right,
                inputs: _,
                shape,
            } => Spec::Elementwise {
                op,
                left: self.operand(left),
                right: self.operand(right),
                inputs: shapes,
                shape,
            },
            Spec::Where {
                cond,
                yes,
                no,
                inputs: _,
                shape,
            } => Spec::Where {
                cond: self.operand(cond),
                yes: self.operand(yes),
                no: self.operand(no),
                inputs: shapes,
                shape,
            },
            Spec::Assemble {
                pieces,
                inputs: _,
                shape,
            } => Spec::Assemble {
                pieces: self.pieces(pieces),
                inputs: shapes,
                shape,
            },
            Spec::Reduce {
                fold,
                axes,
                inputs: _,
            } => Spec::Reduce {
                fold,
                axes,
                inputs: shapes,
            },
            Spec::Contract {
                left,
                right,
                left_axes,
                right_axes,
                inputs: _,
            } => Spec::Contract {
                left: self.place(left),
                right: self.place(right),
                left_axes,
                right_axes,
                inputs: shapes,
            },
            Spec::Slice {
                steps,
                dropped,
                input,
            } => Spec::Slice {
                steps,
                dropped,
                input,
            },
            Spec::Transpose { axes, input } => Spec::Transpose { axes, input },
            Spec::Fill {
                dims,
                region,
                start,
                step,
            } => Spec::Fill {
                dims,
                region,
                start,
                step,
            },
            Spec::Load { input, region } => Spec::Load { input, region },
        }
    }

    // The new numbers in ascending order.
    fn into_deps(self) -> KeyList
        ensures { result ≡ ascending self }
    {
        let Change { deps, .. } = self;
        KeyList::from_vec(deps)
    }
}

// The shapes at these places.
fn shapes_at(alloc: Global, shapes: &[Shape], places: &[u32]) -> Result<Vec<Shape>, AllocError>
    ensures { IfOk result (λ copies. copies.items ≡ map (λ p. slice_index_or shapes.now p []) places.now) }
{
    let mut copies = Vec::with_capacity(alloc, places.len())?;
    for place in places {
        copies.push(shape_at(alloc, shapes, *place)?)?;
    }
    Ok(copies)
}

// The new numbers of kept keys.
fn new_numbers(alloc: Global, numbers: &Renumber, keys: &[u32]) -> Result<Vec<u32>, AllocError>
    requires there { AllByRecursion (λ k. k < numbers.now.keys) keys.now }
    requires kept { AllByRecursion (λ k. is_in numbers.now.order k ≡ true) keys.now }
    ensures { IfOk result (λ new. new.items ≡ map (position numbers.now.order) keys.now) }
{
    let mut new = Vec::with_capacity(alloc, keys.len())?;
    for key in keys {
        new.push(numbers.number(*key))?;
    }
    Ok(new)
}

// A task whose dependencies are kept, under their new numbers.
fn moved(alloc: Global, task: Task, numbers: &Renumber) -> Result<Task, AllocError>
    requires few { length task.deps ≤ 262144 }
    requires there { AllByRecursion (λ k. k < numbers.now.keys) task.deps }
    requires kept { AllByRecursion (λ k. is_in numbers.now.order k ≡ true) task.deps }
    requires once { IsDistinct eqb task.deps }
    ensures { IfOk result (λ new. new ≡ moved_task (map (position numbers.now.order) task.deps) task) }
{
    let keys = new_numbers(alloc, numbers, task.deps.as_slice())?;
    let change = Change::to(alloc, keys)?;
    let shapes = change.input_shapes(alloc, &task.spec)?;
    let Task {
        spec,
        deps: _,
        work,
        nbytes,
    } = task;
    let spec = change.spec(spec, shapes);
    Ok(Task {
        spec,
        deps: change.into_deps(),
        work,
        nbytes,
    })
}

// Tasks that are taken out one by one.
fn slots(alloc: Global, tasks: Vec<Task>) -> Result<Vec<Option<Task>>, AllocError>
    ensures { IfOk result (λ slots. slots.items ≡ map (λ t. Some t) tasks.items) }
{
    tasks.into_iter().map(|task| Some(task)).collect(alloc)
}

fn taken(slots: &mut Vec<Option<Task>>, key: u32) -> Task
    requires there { key < length slots.old.items }
    requires full { IsSome (slice_index_or slots.old.items key None) }
    ensures task { slice_index_or slots.old.items key None ≡ Some result }
    ensures rest { slots.new.items ≡ slice_set slots.old.items key None }
{
    match slots[key as usize].take() {
        Some(task) => task,
        None => unreachable!(),
    }
}

// The number of dependencies of all tasks together.
fn edges_of(tasks: &[Task]) -> u32
    requires { IsShape (shape_of tasks.now) }
    ensures { result ≡ edge_count (shape_of tasks.now) }
{
    let mut total = 0;
    for task in tasks {
        total += task.deps.len() as u32;
    }
    total
}

fn moved_all(alloc: Global, tasks: Vec<Task>, numbers: &Renumber) -> Result<Vec<Task>, AllocError>
    requires shape { IsShape (shape_of tasks.items) }
    requires whole { numbers.now.keys ≡ length tasks.items }
    requires closed { IsNumbering tasks.items numbers.now.order }
    ensures { IfOk result (λ new. new.items ≡ renumbered tasks.items numbers.now.order) }
{
    numbers.sound();
    let order = numbers.order();
    let mut new = Vec::with_capacity(alloc, order.len())?;
    let mut slots = slots(alloc, tasks)?;
    for key in order {
        let task = taken(&mut slots, *key);
        new.push(moved(alloc, task, numbers)?)?;
    }
    Ok(new)
}

fn moved_tasks(alloc: Global, tasks: Vec<Task>, numbers: &Renumber) -> Result<Vec<Task>, AllocError>
    requires shape { IsShape (shape_of tasks.items) }
    requires whole { numbers.now.keys ≡ length tasks.items }
    requires closed { IsNumbering tasks.items numbers.now.order }
    ensures tasks { IfOk result (λ new. new.items ≡ renumbered tasks.items numbers.now.order) }
    ensures shape { IfOk result (λ new. IsShape (shape_of new.items)) }
{
    numbers.sound();
    let new = moved_all(alloc, tasks, numbers)?;
    Ok(new)
}

/// The kept tasks under their new numbers. The dependencies of each ascend again, and its operation names their new
/// places. It takes time in proportion to the keys and their dependencies, but for the sorting of each task's.
///
/// # Errors
/// Where no memory is left.
pub fn renumber(graph: Graph, numbers: &Renumber) -> Result<Graph, AllocError>
    requires whole { numbers.now.keys ≡ length graph }
    requires closed { IsNumbering graph numbers.now.order }
    ensures { IfOk result (λ new. new ≡ renumbered graph numbers.now.order) }
{
    let (alloc, tasks) = graph.into_tasks();
    let tasks = moved_tasks(alloc, tasks, numbers)?;
    let edges = edges_of(tasks.as_slice());
    Ok(Graph::from_tasks(alloc, tasks, edges))
}

// The shape at a place, or that of no axes.
fn shape_at(alloc: Global, shapes: &[Shape], place: u32) -> Result<Shape, AllocError>
    ensures { IfOk result (λ shape. shape ≡ slice_index_or shapes.now place []) }
{
    match shapes.get(place as usize) {
        Some(shape) => shape.copy(alloc),
        None => Ok(Shape::of(Vec::new(alloc))),
    }
}
