//! What is asked of graphs: `graph WORD KEYS LISTS.. WANTED`, where the graph has so many keys with a list of
//! dependencies for each. A key of two dependencies contracts them, the first with the second, and another folds what it
//! depends on; the block of key k is taken to have the shape (k + 1).
ghost use Rattle.std.specs.Prelude.{◌<◌, ◌≤◌, length};
ghost use Rattle.std.specs.List.{AllByRecursion};

use crate::line::Line;
use crate::why::Why;
use block_kernels::Spec;
use cluster_msgs::KeyList;
use nd_grid::Fold;
use nd_shape::{Axes, Shape, Shapes};
use std::alloc::AllocError;
use task_graph::moves::renumber;
use task_graph::{Graph, PushError, Renumber, Task, cull, keep, order};

fn add_shape(line: &mut Line, shapes: &mut Vec<Shape>, key: u64) {
    let mut dims = Vec::new(line.alloc());
    line.keep(dims.extend_from_slice(&[key.saturating_add(1)]));
    match Shape::new(dims) {
        Ok(shape) => {
            if shapes.push(shape).is_err() {
                line.fail();
            }
        }
        Err(limit) => line.refuse(Why::Limit(limit)),
    }
}

// The shapes of the blocks of these keys.
fn shapes_of(line: &mut Line, keys: &[u64]) -> Shapes {
    let mut shapes = Vec::new(line.alloc());
    for key in keys {
        add_shape(line, &mut shapes, *key);
    }
    Shapes::from_vec(shapes)
}

fn spec_of(line: &mut Line, keys: &[u64]) -> Spec {
    let alloc = line.alloc();
    let inputs = shapes_of(line, keys);
    if keys.len() == 2 {
        return Spec::Contract {
            left: 0,
            right: 1,
            left_axes: Axes::new(alloc),
            right_axes: Axes::new(alloc),
            inputs,
        };
    }
    Spec::Reduce {
        fold: Fold::Sum,
        axes: Axes::new(alloc),
        inputs,
    }
}

fn keys_of(line: &mut Line, list: &[u64]) -> KeyList {
    let mut keys = KeyList::new(line.alloc());
    for key in list {
        match u32::try_from(*key) {
            Ok(key) => line.keep(keys.push(key)),
            Err(_) => line.mark_ill(),
        }
    }
    keys
}

// Keys of a graph of so many.
fn wanted_of(line: &mut Line, list: &[u64], keys: u32) -> KeyList
    ensures { AllByRecursion (λ k. k < keys) result }
{
    let mut wanted = Vec::new(line.alloc());
    for key in list {
        if *key < keys as u64 {
            let added = wanted.push(*key as u32);
            if added.is_err() {
                line.fail();
            }
        } else {
            line.mark_ill();
        }
    }
    KeyList::from_vec(wanted)
}

// The task of a key with these dependencies, whose block has 8 bytes.
fn task_of(line: &mut Line, keys: &[u64]) -> Task
    ensures { result.work ≤ 8 }
{
    let spec = spec_of(line, keys);
    let deps = keys_of(line, keys);
    Task {
        spec,
        deps,
        work: 8,
        nbytes: 8,
    }
}

// Adds a key with the dependencies that the next word lists, and tells whether all went well so far.
fn add_key(line: &mut Line, graph: &mut Graph) -> bool {
    let keys = line.naturals();
    let task = task_of(line, &keys);
    match graph.push(task) {
        Ok(_) => {}
        Err(PushError::OutOfMemory) => line.fail(),
        Err(_) => line.mark_ill(),
    }
    line.why().is_none()
}

fn graph_of(line: &mut Line) -> Graph {
    let mut graph = Graph::new(line.alloc());
    for _ in 0..line.natural() {
        if !add_key(line, &mut graph) {
            break;
        }
    }
    graph
}

// The numbers of all old keys, `-` where one isn't kept.
fn put_numbers(line: &mut Line, numbers: &Renumber) {
    line.put(" order");
    line.put_list(numbers.order());
    line.put(" numbers");
    for old in 0..numbers.keys() {
        match numbers.get(old) {
            Some(number) => line.put_item(" ", &number),
            None => line.put(" -"),
        }
    }
}

fn put_inputs(line: &mut Line, inputs: &Shapes) {
    line.put(" of");
    for shape in inputs.as_slice() {
        line.put_list(shape.dims());
    }
}

fn put_sides(line: &mut Line, left: u32, right: u32) {
    line.put_item(" left ", &left);
    line.put_item(" right ", &right);
}

fn put_task(line: &mut Line, task: &Task) {
    line.put(";");
    line.put_list(task.deps.as_slice());
    match &task.spec {
        Spec::Contract {
            left,
            right,
            inputs,
            ..
        } => {
            put_sides(line, *left, *right);
            put_inputs(line, inputs);
        }
        Spec::Reduce { inputs, .. } => put_inputs(line, inputs),
        _ => {}
    }
}

fn put_graph(line: &mut Line, graph: &Graph) {
    for task in graph.tasks() {
        put_task(line, task);
    }
}

// The wanted keys of a graph.
fn wanted(line: &mut Line, graph: &Graph) -> KeyList
    ensures { AllByRecursion (λ k. k < length graph.now) result }
{
    let list = line.naturals();
    wanted_of(line, &list, graph.keys())
}

// The numbers of the depth-first order.
fn put_order(line: &mut Line, graph: &Graph, wanted: &KeyList)
    requires { AllByRecursion (λ k. k < length graph.now) wanted.now }
{
    match order(graph, wanted) {
        Ok(numbers) => put_numbers(line, &numbers),
        Err(_) => line.fail(),
    }
}

// Those of the needed keys in their old order.
fn put_kept(line: &mut Line, graph: &Graph, wanted: &KeyList)
    requires { AllByRecursion (λ k. k < length graph.now) wanted.now }
{
    match keep(graph, wanted) {
        Ok(numbers) => put_numbers(line, &numbers),
        Err(_) => line.fail(),
    }
}

// The graph of the needed keys.
fn put_culled(line: &mut Line, graph: &Graph, wanted: &KeyList)
    requires { AllByRecursion (λ k. k < length graph.now) wanted.now }
{
    match cull(graph, wanted) {
        Ok((culled, _)) => put_graph(line, &culled),
        Err(_) => line.fail(),
    }
}

// What is asked of a graph that is kept, and of its wanted keys.
fn of_wanted(line: &mut Line, word: &str, graph: &Graph, wanted: &KeyList)
    requires { AllByRecursion (λ k. k < length graph.now) wanted.now }
{
    match word {
        "order" => put_order(line, graph, wanted),
        "keep" => put_kept(line, graph, wanted),
        "cull" => put_culled(line, graph, wanted),
        _ => line.mark_ill(),
    }
}

// The same, where all words are well.
fn of_graph(line: &mut Line, word: &str) {
    let graph = graph_of(line);
    let wanted = wanted(line, &graph);
    if line.why().is_none() {
        of_wanted(line, word, &graph, &wanted);
    }
}

fn put_made(line: &mut Line, made: Result<Graph, AllocError>) {
    match made {
        Ok(graph) => put_graph(line, &graph),
        Err(_) => line.fail(),
    }
}

// The graph under the numbers of the depth-first order.
fn renumbered(line: &mut Line) {
    let graph = graph_of(line);
    let wanted = wanted(line, &graph);
    match order(&graph, &wanted) {
        Ok(numbers) => put_made(line, renumber(graph, &numbers)),
        Err(_) => line.fail(),
    }
}

fn put_pushed(line: &mut Line, pushed: Result<u32, PushError>) {
    match pushed {
        Ok(key) => line.put_item(" key ", &key),
        Err(PushError::BadDep { dep }) => line.put_item(" dependency ", &dep),
        Err(PushError::Limit { quantity }) => line.put_quantity(quantity),
        Err(PushError::OutOfMemory) => line.fail(),
    }
}

// What a graph says of one key more, with these dependencies.
fn pushed(line: &mut Line) {
    let mut graph = graph_of(line);
    let keys = line.naturals();
    let task = task_of(line, &keys);
    put_pushed(line, graph.push(task));
}

/// Answers by the next word.
pub fn answer(line: &mut Line) {
    let word = line.word();
    match word {
        "renumber" => renumbered(line),
        "push" => pushed(line),
        _ => of_graph(line, word),
    }
}
