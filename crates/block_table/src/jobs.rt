//! What is asked of jobs: `job TEXT`, where the word `;` ends a line of the text. A graph is written by its keys and edges,
//! then each key: the node and the block that it is, `-` where it is none, what it depends on, what it does, and its work
//! and its block's bytes; then the keys of each save. `count TEXT` asks for the keys and edges alone.
ghost use Rattle.std.specs.Prelude.{◌<◌, All};

use crate::line::Line;
use array_expr::NodeId;
use block_kernels::Spec;
use block_lowering::sources::Name;
use block_lowering::{LowerError, Lowered, lower};
use job_plan::{Job, Save};
use job_text::parse;
use task_graph::{Graph, Task};

fn add_word(line: &mut Line, text: &mut String, word: &str) {
    if word == ";" {
        return line.keep(text.push_str("\n"));
    }
    line.keep(text.push_str(word));
    line.keep(text.push_str(" "));
}

// The words that are left, as the lines of a text.
fn text_of(line: &mut Line) -> String {
    let mut text = String::new(line.alloc());
    for word in line.words().split(' ') {
        add_word(line, &mut text, word);
    }
    text
}

// The saved nodes of an expression of so many.
fn saved_nodes(line: &mut Line, saves: &[Save], count: usize) -> Vec<NodeId>
    ensures { All (λ n. n < count) result.items }
{
    let mut nodes = Vec::new(line.alloc());
    for save in saves {
        if (save.node.number() as usize) < count {
            let added = nodes.push(save.node);
            if added.is_err() {
                line.fail();
            }
        } else {
            line.mark_ill();
        }
    }
    nodes
}

fn kind_of(spec: &Spec) -> &'static str {
    match spec {
        Spec::Elementwise { .. } => "elementwise",
        Spec::Where { .. } => "where",
        Spec::Slice { .. } => "slice",
        Spec::Transpose { .. } => "transpose",
        Spec::Assemble { .. } => "assemble",
        Spec::Reduce { .. } => "reduce",
        Spec::Contract { .. } => "contract",
        Spec::Fill { .. } => "fill",
        Spec::Load { .. } => "load",
    }
}

fn put_name(line: &mut Line, name: &Name) {
    match name {
        Some((node, block)) => {
            line.put_item("; ", node);
            line.put_item(".", block);
        }
        None => line.put("; -"),
    }
}

fn put_key(line: &mut Line, name: &Name, task: &Task) {
    put_name(line, name);
    line.put_list(task.deps.as_slice());
    line.put_item(" ", &kind_of(&task.spec));
    line.put_item(" ", &task.work);
    line.put_item(" ", &task.nbytes);
}

fn put_counts(line: &mut Line, graph: &Graph) {
    line.put_item(" keys ", &graph.keys());
    line.put_item(" edges ", &graph.edges());
}

fn put_keys(line: &mut Line, lowered: &Lowered) {
    for (name, task) in lowered.names.as_slice().iter().zip(lowered.graph.tasks()) {
        put_key(line, name, task);
    }
    line.put("; saved");
    for keys in lowered.saved.as_slice() {
        line.put_list(keys.as_slice());
    }
}

fn put_lowered(line: &mut Line, lowered: &Lowered, whole: bool) {
    put_counts(line, &lowered.graph);
    if whole {
        put_keys(line, lowered);
    }
}

fn put_job(line: &mut Line, job: &Job, whole: bool) {
    let nodes = saved_nodes(line, job.saves.as_slice(), job.expr.nodes().len());
    match lower(line.alloc(), &job.expr, &nodes) {
        Ok(lowered) => put_lowered(line, &lowered, whole),
        Err(LowerError::Limit { quantity }) => line.put_quantity(quantity),
        Err(LowerError::OutOfMemory) => line.fail(),
    }
}

/// Puts the graph that a job is lowered to, or the limit that it passes: all of it, or how many keys and edges it has.
pub fn answer(line: &mut Line, whole: bool) {
    let text = text_of(line);
    match parse(line.alloc(), text.as_bytes()) {
        Ok(said) => put_job(line, &said.job, whole),
        Err(_) => line.mark_ill(),
    }
}
