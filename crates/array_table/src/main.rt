//! The program `array_table`: answers what the lines of a table ask of arrays.
//!
//! It stands on `nd_shape`, `nd_grid`, `nd_rows`, `array_expr`, `plain_eval`, `input_regions`, `node_reach`,
//! `npy_region` and `plain_block`, and nothing stands above it. It carries no promise of its own: what it prints is
//! compared with answers that come from outside. A line is a word that says what is asked, words that say of what, and,
//! behind `#`, how a reader would write it, which is printed before the answer; without `#` the line itself is.
//! A list is written with commas, `()` where it is empty, and `-` stands for nothing. An expression is its nodes, each an
//! operation's number and what it needs (`operation`).
//!
//! `tools/array_table.py` writes the lines and the answers: those of shapes, elements, blocks, expressions and orders of
//! storage are NumPy's, those of slices are Python's `slice` and `range`, those of chunks follow Dask's page, and the runs
//! of a file are put together from NumPy's places. What NumPy doesn't have is counted by hand: which region a region
//! needs, which nodes others need, and what of a short file is missing. The words of refusals are this project's, where
//! NumPy refuses too, or has no such rule.
#![tactic(auto)]

mod axes;
mod blocks;
mod elements;
mod expression;
mod files;
mod inputs;
mod lists;
mod operation;
mod row;
mod shapes;
mod storage;
mod text;

use row::Row;
use std::alloc::Global;
use std::io;
use text::Answer;

// What is asked of shapes and axes.
fn shape_answer(word: &str, row: &mut Row, out: &mut Answer) {
    match word {
        "shape" => shapes::shape(row, out),
        "line" => shapes::line(row, out),
        "broadcast" => shapes::broadcasted(row, 2, out),
        "broadcast-three" => shapes::broadcasted(row, 3, out),
        "ravel" => shapes::raveled(row, out),
        "unravel" => shapes::unraveled(row, out),
        "region" => shapes::region(row, out),
        "whole" => shapes::whole(row, out),
        "slice" => axes::slice(row, out),
        "index" => axes::index(row, out),
        "chunks" => axes::chunks(row, out),
        "count" => axes::count(row, out),
        _ => out.mark_ill(),
    }
}

// What is asked of blocks.
fn block_answer(word: &str, row: &mut Row, out: &mut Answer) {
    match word {
        "block" | "negate" => blocks::of_blocks(row, word, 1, out),
        "blocks" => {
            let op = row.word();
            blocks::of_blocks(row, op, 2, out);
        }
        "choose" => blocks::of_blocks(row, word, 3, out),
        "ramp" => blocks::ramp(row, out),
        "taken" => blocks::taken(row, out),
        "turned" => blocks::turned(row, out),
        "columns" => blocks::columns(row, out),
        _ => shape_answer(word, row, out),
    }
}

// What is asked of elements, orders of storage and lists.
fn element_answer(word: &str, row: &mut Row, out: &mut Answer) {
    match word {
        "element" => elements::element(row, out),
        "pick" => elements::picked(row, out),
        "negative" => elements::negative(row, out),
        "fold" => elements::folded(row, out),
        "walk" => storage::walk(row, out),
        "row-major" => storage::row_major(row, out),
        "targets" => storage::targets(row, out),
        "runs" => storage::runs(row, out),
        "dims" => lists::dims(row, out),
        "specs" => lists::specs(row, out),
        "shapes" => lists::shapes(row, out),
        _ => block_answer(word, row, out),
    }
}

// What is asked of expressions, or else of what they are made of.
fn answer(word: &str, row: &mut Row, out: &mut Answer) {
    match word {
        "eval" | "part" | "all" | "needs" | "reach" => expression::of_expression(word, row, out),
        "fill" => expression::fill(row, out),
        "files" => files::files(row, out),
        _ => element_answer(word, row, out),
    }
}

// The answer to all words of a line.
fn answer_of(alloc: Global, words: &str) -> Answer {
    let mut row = Row::new(alloc, words);
    let mut out = Answer::new(alloc);
    let word = row.word();
    answer(word, &mut row, &mut out);
    if row.is_ill() || !row.is_empty() && !out.is_refused() {
        out.mark_ill();
    }
    out.end();
    out
}

// Prints what a line asks, and the answer.
fn print_answer<R: Print>(rt: &R, alloc: Global, line: &str) -> io::Result<()> {
    let (words, asked) = line.split_once('#').unwrap_or((line, line));
    let out = answer_of(alloc, words);
    println!(rt; "{asked}:{}", out.as_str())
}

fn main(rt: HostRuntime) -> io::Result<()> {
    for line in rt.lines(rt.alloc()) {
        let line = line?;
        print_answer(&rt, rt.alloc(), line.as_str())?;
    }
    Ok(())
}
