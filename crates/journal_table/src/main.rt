//! The program `journal_table`: merges the histories that lines tell of, and prints the journals and their reports.
//!
//! It stands on `journal_audit` and the crates of its types, and nothing stands above it. It carries no promise of its own. A
//! line is `merge HISTORIES`, which prints the entries of the journal and their number, `report HISTORIES`, which prints
//! the journal's report for a graph of three keys, or `audit HISTORIES`, which prints what the audit says of the journal over
//! this graph, with one client; in `audit/N HISTORIES` a key's worker may leave N times. `HISTORIES` is `none` or histories
//! with `|` between two. A history is words with blanks between them, each an entry: `STAMP:KIND:NUMBER`, or
//! `!STAMP:KIND:NUMBER` for the one that found no room.
#![tactic(auto)]

mod printed;
mod told;

use cluster_msgs::{GraphRow, GraphShape, KeyList, Report};
use journal_audit::{Audit, ShapeJob, audit, merge, report};
use run_report::push_report;
use std::alloc::{AllocError, Global};
use std::io;

fn print_merged<R: Print>(rt: &R, alloc: Global, case: &str) -> io::Result<()> {
    let journal = merge(alloc, told::histories(alloc, case)?)?;
    for entry in journal.as_slice() {
        printed::print_entry(rt, entry)?;
    }
    println!(rt; "{} entries", journal.len())
}

// A key of a graph, with the keys below it as its dependencies.
fn row(alloc: Global, key: u32) -> Result<GraphRow, AllocError> {
    let mut deps = KeyList::new(alloc);
    for below in 0..key {
        deps.push(below)?;
    }
    Ok(GraphRow {
        deps,
        work: 1,
        nbytes: 8,
    })
}

// Three keys, each with those below it as its dependencies.
fn rows(alloc: Global) -> Result<Vec<GraphRow>, AllocError> {
    let mut rows = Vec::new(alloc);
    for key in 0..3 {
        rows.push(row(alloc, key)?)?;
    }
    Ok(rows)
}

fn print_report<R: Print>(rt: &R, alloc: Global, case: &str) -> io::Result<()> {
    let Ok(shape) = GraphShape::from_rows(alloc, rows(alloc)?) else {
        return println!(rt; "no graph");
    };
    let journal = merge(alloc, told::histories(alloc, case)?)?;
    let made = report(alloc, &shape, &journal)?;
    print_made(rt, alloc, &made)
}

fn print_made<R: Print>(rt: &R, alloc: Global, made: &Report) -> io::Result<()> {
    let mut text = String::new(alloc);
    push_report(alloc, &mut text, made)?;
    print!(rt; "{text}")
}

fn print_audit<R: Print>(
    rt: &R,
    alloc: Global,
    allowed: Option<u32>,
    case: &str,
) -> io::Result<()> {
    let Ok(shape) = GraphShape::from_rows(alloc, rows(alloc)?) else {
        return println!(rt; "no graph");
    };
    let journal = merge(alloc, told::histories(alloc, case)?)?;
    match audit(alloc, ShapeJob::new(shape), (), 1, 11, allowed, &journal) {
        Ok(Audit::Agrees(made)) => {
            println!(rt; "agrees")?;
            print_made(rt, alloc, &made)
        }
        Ok(Audit::Differs { stamp }) => println!(rt; "differs at {stamp}"),
        Err(_) => println!(rt; "no memory"),
    }
}

fn play<R: Print>(rt: &R, alloc: Global, line: &str) -> io::Result<()> {
    println!(rt; "{line}")?;
    let (word, case) = line.split_once(' ').unwrap_or((line, ""));
    if let Some(most) = word.strip_prefix("audit/") {
        return print_audit(rt, alloc, most.parse::<u32>().ok(), case);
    }
    match word {
        "merge" => print_merged(rt, alloc, case),
        "report" => print_report(rt, alloc, case),
        "audit" => print_audit(rt, alloc, None, case),
        _ => println!(rt; "no such line"),
    }
}

fn main(rt: HostRuntime) -> io::Result<()> {
    for line in rt.lines(rt.alloc()) {
        let line = line?;
        play(&rt, rt.alloc(), line.as_str())?;
    }
    Ok(())
}
