//! Whether a job can be run.
ghost use Rattle.std.specs.Prelude.{◌≡◌, ◌<◌, ◌+◌, ◌^◌, ℕ, length, map, cond, slice_index_or, true, false, bytes_eq};
ghost use Rattle.array_expr.specs.Elem.{is_input};
ghost use Rattle.job_run.specs.Jobs.{plan_of, saved_of};
ghost use Rattle.job_run.specs.Plan.{AreApart, IsRunnable, input_shapes, name_at};

use crate::inputs::is_input;
use array_expr::Node;
use job_plan::{Job, Save};

// One more, if the node is an input.
fn counted(count: usize, node: &Node) -> usize
    requires { count < 2 ^ 63 }
    ensures { result ≡ count + cond (is_input node.now.op) 1 0 }
{
    if is_input(&node.op) { count + 1 } else { count }
}

// How many nodes are inputs.
fn input_count(nodes: &[Node]) -> usize
    ensures { result ≡ length (input_shapes nodes.now) }
{
    let mut count = 0;
    for node in nodes {
        count = counted(count, node);
    }
    count
}

// Whether each of the nodes is one of the first so many.
fn nodes_there(saves: &[Save], count: usize) -> bool
    ensures there { result ≡ true → (k : ℕ) → k < length saves.now → slice_index_or (map (λ s. s.node) (map saved_of saves.now)) k 0 < count }
    ensures not_there { result ≡ false → ((k : ℕ) → k < length saves.now → slice_index_or (map (λ s. s.node) (map saved_of saves.now)) k 0 < count) → ⊥ }
{
    for save in saves {
        if save.node.number() as usize >= count {
            return false;
        }
    }
    true
}

// Whether none of the saves before this place has its name.
fn is_new(saves: &[Save], place: usize) -> bool
    requires { place < length saves.now }
    ensures apart { result ≡ true → (j : ℕ) → j < place → bytes_eq (name_at (map (λ s. s.file) (map saved_of saves.now)) place) (name_at (map (λ s. s.file) (map saved_of saves.now)) j) ≡ false }
    ensures same { result ≡ false → ((j : ℕ) → j < place → bytes_eq (name_at (map (λ s. s.file) (map saved_of saves.now)) place) (name_at (map (λ s. s.file) (map saved_of saves.now)) j) ≡ false) → ⊥ }
{
    let name = saves[place].file.as_str();
    for k in 0..place {
        if name == saves[k].file.as_str() {
            return false;
        }
    }
    true
}

// Whether no two names are the same.
fn names_apart(saves: &[Save]) -> bool
    ensures apart { result ≡ true → AreApart (map (λ s. s.file) (map saved_of saves.now)) }
    ensures same { result ≡ false → AreApart (map (λ s. s.file) (map saved_of saves.now)) → ⊥ }
{
    for place in 0..saves.len() {
        if !is_new(saves, place) {
            return false;
        }
    }
    true
}

/// Whether a job can be run: there are as many names of inputs as input nodes, some nodes are saved, those are there,
/// and their names differ. No memory.
pub fn is_runnable(job: &Job) -> bool
    ensures yes { result ≡ true → IsRunnable (plan_of job.now) }
    ensures no { result ≡ false → IsRunnable (plan_of job.now) → ⊥ }
{
    let nodes = job.expr.nodes();
    let inputs = job.inputs.len() == input_count(nodes);
    let there = nodes_there(job.saves.as_slice(), nodes.len());
    let apart = names_apart(job.saves.as_slice());
    let some = job.saves.len() > 0;
    inputs & there & apart & some
}
