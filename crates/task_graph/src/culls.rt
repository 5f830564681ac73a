//! Which keys are needed, and the graph of these alone.
ghost use Rattle.std.specs.Prelude.{◌≡◌, ℕ, ◌<◌, ◌≤◌, ◌++◌, length, IfOk, OnOk, false};
ghost use Rattle.std.specs.List.{AllByRecursion};
ghost use Rattle.cluster_msgs.specs.Dags.{IsEarlier};
ghost use Rattle.cluster_msgs.specs.Shape.{deps_of};
ghost use Rattle.task_graph.specs.Graphs.{shape_of};
ghost use Rattle.task_graph.specs.Orders.{is_in, kept, renumbered};
ghost use Rattle.task_graph.specs.Culls.{IsMarked, AreMarked, AreNeeded, mark_at, listed_if, marked_keys};
ghost use Rattle.task_graph.specs.Numberings.{IsNumbering};

use crate::graph::{Graph, Task, deps_at};
use crate::moves::renumber;
use crate::numbers::Renumber;
use cluster_msgs::KeyList;
use std::alloc::{AllocError, Global};

// Marks keys beside those that are marked.
fn mark(marks: &mut [bool], keys: &[u32])
    requires { AllByRecursion (λ k. k < length marks.old) keys.now }
    ensures { AreMarked marks.old keys.now marks.new }
{
    for key in keys {
        marks[*key as usize] = true;
    }
}

// Marks the keys that the wanted ones need: these, and with a key its dependencies. They have smaller numbers, so one
// pass from the last key down finds all.
fn mark_needed(tasks: &[Task], wanted: &[u32], marks: &mut [bool])
    requires earlier { IsEarlier (deps_of (shape_of tasks.now)) }
    requires there { AllByRecursion (λ k. k < length tasks.now) wanted.now }
    requires few { length tasks.now ≤ 32768 }
    requires count { length marks.old ≡ length tasks.now }
    requires none { (k : ℕ) → mark_at marks.old k ≡ false }
    ensures { AreNeeded tasks.now wanted.now marks.new }
{
    mark(marks, wanted);
    let mut key = tasks.len() as u32;
    while key > 0 {
        key -= 1;
        mark_below(marks, key, deps_at(tasks, key));
    }
}

// Which keys the wanted ones need.
fn needed_marks(alloc: Global, tasks: &[Task], wanted: &[u32]) -> Result<Vec<bool>, AllocError>
    requires earlier { IsEarlier (deps_of (shape_of tasks.now)) }
    requires there { AllByRecursion (λ k. k < length tasks.now) wanted.now }
    requires few { length tasks.now ≤ 32768 }
    ensures { IfOk result (λ marks. AreNeeded tasks.now wanted.now marks.items) }
{
    let mut marks = vec![in alloc; false; tasks.len()]?;
    mark_needed(tasks, wanted, marks.as_mut_slice());
    Ok(marks)
}

// Marks the dependencies of a key, if it is marked.
fn mark_below(marks: &mut [bool], key: u32, deps: &[u32])
    requires there { key < length marks.old }
    requires below { AllByRecursion (λ k. k < length marks.old) deps.now }
    ensures { IsMarked marks.old key deps.now marks.new }
{
    if marks[key as usize] {
        mark(marks, deps);
    }
}

// The marked keys in their order.
fn marked(alloc: Global, marks: &[bool]) -> Result<Renumber, AllocError>
    requires { length marks.now ≤ 32768 }
    ensures { IfOk result (λ numbers. numbers ≡ record { keys = length marks.now; order = marked_keys marks.now }) }
{
    let mut numbers = Renumber::none(alloc, marks.len() as u32)?;
    for (key, mark) in marks.iter().enumerate() {
        add_if(&mut numbers, key as u32, *mark)?;
    }
    Ok(numbers)
}

fn add_if(numbers: &mut Renumber, key: u32, is_kept: bool) -> Result<(), AllocError>
    requires there { key < numbers.old.keys }
    requires fresh { is_in numbers.old.order key ≡ false }
    ensures { OnOk result (numbers.new ≡ record { keys = numbers.old.keys; order = numbers.old.order ++ listed_if key is_kept }) }
{
    if is_kept { numbers.add(key) } else { Ok(()) }
}

/// The numbers that the needed keys have in their old order: the wanted keys, and with a key its dependencies.
///
/// # Errors
/// Where no memory is left.
pub fn keep(graph: &Graph, wanted: &KeyList) -> Result<Renumber, AllocError>
    requires { AllByRecursion (λ k. k < length graph.now) wanted.now }
    ensures numbers { IfOk result (λ numbers. numbers ≡ record { keys = length graph.now; order = kept graph.now wanted.now }) }
    ensures closed { IfOk result (λ numbers. IsNumbering graph.now numbers.order) }
{
    graph.settled();
    let alloc = graph.allocator();
    let marks = needed_marks(alloc, graph.tasks(), wanted.as_slice())?;
    let numbers = marked(alloc, marks.as_slice())?;
    Ok(numbers)
}

/// The graph of the keys that the wanted ones need, in their old order, and their new numbers.
///
/// # Errors
/// Where no memory is left.
pub fn cull_into(graph: Graph, wanted: &KeyList) -> Result<(Graph, Renumber), AllocError>
    requires { AllByRecursion (λ k. k < length graph) wanted.now }
    ensures graph { IfOk result (λ made. made.0 ≡ renumbered graph (kept graph wanted.now)) }
    ensures numbers { IfOk result (λ made. made.1 ≡ record { keys = length graph; order = kept graph wanted.now }) }
{
    let numbers = keep(&graph, wanted)?;
    let culled = renumber(graph, &numbers)?;
    Ok((culled, numbers))
}

/// The same of a graph that stays as it is.
///
/// # Errors
/// Where no memory is left.
pub fn cull(graph: &Graph, wanted: &KeyList) -> Result<(Graph, Renumber), AllocError>
    requires { AllByRecursion (λ k. k < length graph.now) wanted.now }
    ensures graph { IfOk result (λ made. made.0 ≡ renumbered graph.now (kept graph.now wanted.now)) }
    ensures numbers { IfOk result (λ made. made.1 ≡ record { keys = length graph.now; order = kept graph.now wanted.now }) }
{
    cull_into(graph.copy()?, wanted)
}
