//! The depth-first order of keys.
//!
//! A visit of a key that isn't numbered yet visits its dependencies in ascending order, then numbers the key. Chains of
//! dependencies are as long as the graph, so the visits under way stand on a stack of their own.
ghost use Rattle.std.specs.Prelude.{◌≡◌, ◌<◌, ◌∷◌, [], length, IfOk, OnOk, MatchOption};
ghost use Rattle.std.specs.List.{AllByRecursion};
ghost use Rattle.cluster_msgs.specs.Dags.{IsEarlier};
ghost use Rattle.cluster_msgs.specs.Shape.{deps_of};
ghost use Rattle.task_graph.specs.Graphs.{shape_of};
ghost use Rattle.task_graph.specs.Orders.{is_in, depth_first};
ghost use Rattle.task_graph.specs.Numberings.{IsNumbering};
ghost use Rattle.task_graph.specs.Walks.{visit, with_visit, with_visits, AreUnderWay, IsStep};

use crate::graph::{Graph, Task, deps_at};
use crate::numbers::Renumber;
use cluster_msgs::KeyList;
use std::alloc::{AllocError, Global};
use std::marker::Model;

// A visit under way: its key, and how many of the key's dependencies were visited.
#[derive(Clone, Copy)]
struct Frame {
    key: u32,
    next: usize,
}

// Visits under way, of which a contract sees the innermost first.
#[derive(Drop)]
struct Visits {
    frames: Vec<Frame>,
}

impl Model for Visits {
    ghost use Rattle.std.specs.Prelude.{List, reverse};
    ghost use Rattle.task_graph.specs.declared.orders.Frame.{Frame};

    ghost Value = { List Frame };

    ghost view = { λ s. reverse s.frames.items };
}

impl Visits {
    fn new(alloc: Global) -> Visits
        ensures { result ≡ [] }
    {
        Visits {
            frames: Vec::new(alloc),
        }
    }

    fn push(&mut self, frame: Frame) -> Result<(), AllocError>
        ensures { OnOk result (self.new ≡ frame ∷ self.old) }
    {
        self.frames.push(frame)?;
        Ok(())
    }

    fn pop(&mut self) -> Option<Frame>
        ensures { MatchOption result (self.old ≡ []) (λ frame. self.old ≡ frame ∷ self.new) }
    {
        self.frames.pop()
    }
}

// Begins the visit of a key, if it isn't numbered.
fn begin(key: u32, begun: &mut Visits, numbers: &Renumber) -> Result<(), AllocError>
    requires { key < numbers.now.keys }
    ensures { OnOk result (begun.new ≡ with_visit key (is_in numbers.now.order key) begun.old) }
{
    if numbers.has(key) {
        return Ok(());
    }
    begun.push(Frame { key, next: 0 })
}

// One step of the innermost visit, which was taken from the others: it begins the visit of its next dependency, if that
// isn't numbered, or numbers its key.
fn step(
    tasks: &[Task],
    frame: Frame,
    begun: &mut Visits,
    numbers: &mut Renumber,
) -> Result<(), AllocError>
    requires earlier { IsEarlier (deps_of (shape_of tasks.now)) }
    requires whole { numbers.old.keys ≡ length tasks.now }
    requires begun { AreUnderWay (deps_of (shape_of tasks.now)) (length tasks.now) numbers.old.order (frame ∷ begun.old) }
    ensures { OnOk result (IsStep (deps_of (shape_of tasks.now)) (frame ∷ begun.old) numbers.old begun.new numbers.new) }
{
    let deps = deps_at(tasks, frame.key);
    if frame.next == deps.len() {
        numbers.add(frame.key)?;
        return Ok(());
    }
    let dep = deps[frame.next];
    begun.push(Frame {
        key: frame.key,
        next: frame.next + 1,
    })?;
    begin(dep, begun, numbers)?;
    Ok(())
}

// Visits a key.
fn visit(alloc: Global, tasks: &[Task], key: u32, numbers: &mut Renumber) -> Result<(), AllocError>
    requires earlier { IsEarlier (deps_of (shape_of tasks.now)) }
    requires whole { numbers.old.keys ≡ length tasks.now }
    requires there { key < length tasks.now }
    ensures { OnOk result (numbers.new ≡ record { keys = numbers.old.keys; order = visit (deps_of (shape_of tasks.now)) key numbers.old.order }) }
{
    if numbers.has(key) {
        return Ok(());
    }
    let mut begun = Visits::new(alloc);
    begun.push(Frame { key, next: 0 })?;
    while let Some(frame) = begun.pop() {
        step(tasks, frame, &mut begun, numbers)?;
    }
    Ok(())
}

// Visits keys in their order.
fn visit_each(
    alloc: Global,
    tasks: &[Task],
    keys: &[u32],
    numbers: &mut Renumber,
) -> Result<(), AllocError>
    requires earlier { IsEarlier (deps_of (shape_of tasks.now)) }
    requires whole { numbers.old.keys ≡ length tasks.now }
    requires there { AllByRecursion (λ k. k < length tasks.now) keys.now }
    ensures { OnOk result (numbers.new ≡ with_visits (deps_of (shape_of tasks.now)) keys.now numbers.old) }
{
    for key in keys {
        visit(alloc, tasks, *key, numbers)?;
    }
    Ok(())
}

/// The numbers that a depth-first visit of the wanted keys, in their order, gives: a visit of a key that isn't numbered
/// yet visits its dependencies in ascending order, then gives the key the next number. It takes time in proportion to
/// the keys and their dependencies.
///
/// # Errors
/// Where no memory is left.
pub fn order(graph: &Graph, wanted: &KeyList) -> Result<Renumber, AllocError>
    requires { AllByRecursion (λ k. k < length graph.now) wanted.now }
    ensures numbers { IfOk result (λ numbers. numbers ≡ record { keys = length graph.now; order = depth_first graph.now wanted.now }) }
    ensures closed { IfOk result (λ numbers. IsNumbering graph.now numbers.order) }
{
    graph.settled();
    let alloc = graph.allocator();
    let mut numbers = Renumber::none(alloc, graph.keys())?;
    visit_each(alloc, graph.tasks(), wanted.as_slice(), &mut numbers)?;
    Ok(numbers)
}
