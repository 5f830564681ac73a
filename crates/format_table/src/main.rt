//! The program `format_table`: reads texts, files and values of each format, and prints what they say or why they are refused.
//!
//! It stands on the crates of the formats: headers and parts of NumPy's files, MessagePack's values with the messages in
//! them, and jobs with their tokens, steps and scripts. Nothing stands above it. It carries no promise of its own: a line of
//! its input is a word and a case, and the same line of its output is what the crate answers, which is compared with what
//! is wanted. `tools/format_table.py` writes the lines. What is wanted comes from outside: files that NumPy wrote,
//! encodings that another implementation of MessagePack made, readers of the job's grammar and of NEP 1's headers that are
//! written anew in Python, and values that are worked out by hand from `docs/FORMATS.md` and the two specifications.
//!
//! In a case `\n`, `\t` and `\r` are bytes as in Rust, `\xff` is any byte, `\*3:ab` stands for `ababab`, and `\.` for
//! nothing: it ends what is repeated.
#![tactic(auto)]

mod answer;
mod files;
mod headers;
mod jobs;
mod kinds;
mod messages;
mod options;
mod sums;
mod text;
mod tokens;
mod values;

use answer::Answer;
use std::alloc::Global;
use std::io;

// NumPy's files.
fn put_file(out: &mut Answer, word: &str, case: &str) {
    match word {
        "header" => headers::put_header(out, false, case),
        "wide" => headers::put_header(out, true, case),
        "written" => headers::put_written(out, case),
        "head" => files::put_head_case(out, case),
        "region" => files::put_region_case(out, case),
        "runs" => files::put_runs(out, case),
        _ => out.put("no such word"),
    }
}

// MessagePack's values, and what they carry.
fn put_value(out: &mut Answer, word: &str, case: &str) {
    match word {
        "value" => values::put_value_case(out, case),
        "nested" => values::put_nested(out, case),
        "stream" => values::put_stream(out, case),
        "message" => messages::put_message_case(out, case),
        _ => put_file(out, word, case),
    }
}

// The parts of a job's text.
fn put_token(out: &mut Answer, word: &str, case: &str) {
    match word {
        "number" => tokens::put_number(out, case),
        "place" => tokens::put_place(out, case),
        "tokens" => tokens::put_tokens(out, case),
        "kinds" => kinds::put_kinds(out, case),
        _ => put_value(out, word, case),
    }
}

fn put_answer(out: &mut Answer, word: &str, case: &str) {
    match word {
        "#" => out.put(case),
        "sum" => sums::put_sum(out, case),
        "steps" => jobs::put_steps(out, case),
        "script" => jobs::put_script(out, case),
        "job" => jobs::put_job(out, case),
        "sim" => options::put_sim(out, case),
        "gen" => options::put_gen(out, case),
        _ => put_token(out, word, case),
    }
}

// Prints the answer to a line.
fn print_answer<R: Print>(rt: &R, alloc: Global, line: &str) -> io::Result<()> {
    let (word, case) = text::next_word(line);
    let mut out = Answer::new(alloc);
    put_answer(&mut out, word, case);
    println!(rt; "{}", out.as_str())
}

fn main(rt: HostRuntime) -> io::Result<()> {
    for line in rt.lines(rt.alloc()) {
        let line = line?;
        print_answer(&rt, rt.alloc(), line.as_str())?;
    }
    Ok(())
}
