//! A job's text as steps, as a script and as a job.
use crate::answer::Answer;
use crate::text::unescaped;
use crate::tokens::put_place_of;
use array_expr::Op;
use job_plan::Job;
use job_script::{Asked, Named, Script, Why, read_script};
use job_steps::{Ending, Step, Steps, read_steps};
use job_text::{Parsed, parse};

fn put_all_steps(out: &mut Answer, steps: &[Step]) {
    for step in steps {
        out.put_item(" ", &(step.action as u16));
        out.put_item("@", &step.token.start);
    }
}

// The byte at which a text ends otherwise than it should, and how.
fn stop_of(ending: Ending) -> Option<(usize, &'static str)> {
    match ending {
        Ending::Whole => None,
        Ending::Unexpected(token) => Some((token.start, ": unexpected")),
        Ending::Unfinished(at) => Some((at, ": unfinished")),
        Ending::NoToken(at) => Some((at, ": no token")),
    }
}

fn put_whole_steps(out: &mut Answer, text: &[u8], steps: &Steps) {
    match stop_of(steps.ending()) {
        Some((at, how)) => {
            put_place_of(out, text, at);
            out.put(how);
        }
        None => out.put("whole"),
    }
    put_all_steps(out, steps.steps());
}

/// `steps TEXT`: how the text ends, and the number of each step's action with the byte of its token.
pub fn put_steps(out: &mut Answer, case: &str) {
    let text = unescaped(out, case);
    match read_steps(out.alloc(), &text) {
        Ok(steps) => put_whole_steps(out, &text, &steps),
        Err(_) => out.fail(),
    }
}

fn op_name(op: &Op) -> &'static str {
    match op {
        Op::Input { .. } => "input",
        Op::Full { .. } => "full",
        Op::Ramp { .. } => "ramp",
        Op::Negate { .. } => "negate",
        Op::Elementwise { .. } => "elementwise",
        Op::Where { .. } => "where",
        Op::Slice { .. } => "slice",
        Op::Transpose { .. } => "transpose",
        Op::Rechunk { .. } => "rechunk",
        Op::Concatenate { .. } => "concatenate",
        Op::Reduce { .. } => "reduce",
        Op::Tensordot { .. } => "tensordot",
    }
}

fn asked_name(asked: &Asked) -> &'static str {
    match asked {
        Asked::Op(op) => op_name(op),
        Asked::ReverseAxes(_) => "reverse",
    }
}

fn put_file(out: &mut Answer, word: &str, name: &[u8], node: usize) {
    out.put(word);
    out.put_bytes(name);
    out.put_item(" ", &node);
}

fn put_named(out: &mut Answer, word: &str, list: &[Named]) {
    for named in list {
        put_file(out, word, named.name(), named.node().number() as usize);
    }
}

fn why_name(why: Why) -> &'static str {
    match why {
        Why::Token => "token",
        Why::Grammar => "grammar",
        Why::UnknownName => "unknown name",
        Why::Repeated => "repeated name",
        Why::Statements => "limit statements",
        Why::Nodes => "limit nodes",
        Why::Depth => "limit depth",
        Why::Number => "limit number",
    }
}

fn put_asked(out: &mut Answer, script: &Script) {
    out.put("asks");
    for placed in script.asked() {
        out.put(" ");
        out.put(asked_name(&placed.asked));
        out.put_item("@", &placed.at);
    }
}

fn put_whole_script(out: &mut Answer, script: &Script) {
    put_asked(out, script);
    put_named(out, ", input ", script.inputs());
    put_named(out, ", save ", script.saves());
    if let Some(refusal) = script.refusal() {
        out.put("; ");
        out.put(why_name(refusal.why));
        out.put_item(" at ", &refusal.at);
    }
}

/// `script TEXT`: the operations with their bytes, the files, and the byte of the refusal.
pub fn put_script(out: &mut Answer, case: &str) {
    let text = unescaped(out, case);
    match read_script(out.alloc(), &text) {
        Ok(script) => put_whole_script(out, &script),
        Err(_) => out.fail(),
    }
}

// The files of the inputs, with the input nodes in their order.
fn put_inputs(out: &mut Answer, job: &Job) {
    let mut files = job.inputs.iter();
    for (node, made) in job.expr.nodes().iter().enumerate() {
        if matches!(&made.op, Op::Input { .. })
            && let Some(name) = files.next()
        {
            put_file(out, ", input ", name.as_bytes(), node);
        }
    }
}

fn put_saves(out: &mut Answer, job: &Job) {
    for save in job.saves.iter() {
        let node = save.node.number() as usize;
        put_file(out, ", save ", save.file.as_bytes(), node);
    }
}

fn put_whole_job(out: &mut Answer, said: &Parsed) {
    out.put_item("", &said.job.expr.nodes().len());
    out.put(" nodes");
    for span in said.spans.as_slice() {
        out.put_item(" ", &span.line);
        out.put_item(":", &span.column);
    }
    put_inputs(out, &said.job);
    put_saves(out, &said.job);
}

/// `job TEXT`: the places of the nodes and the files of a job, or its refusal.
pub fn put_job(out: &mut Answer, case: &str) {
    let text = unescaped(out, case);
    match parse(out.alloc(), &text) {
        Ok(said) => put_whole_job(out, &said),
        Err(e) => out.put_item("", &e),
    }
}
