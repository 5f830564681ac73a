//! Stories of a report: the events that are counted, each with the message that it takes, behind a `|`.
use crate::events::read_event;
use crate::graph::read_graph;
use crate::messages::read_taken;
use crate::page::Page;
use crate::words::Words;
use cluster_msgs::Report;
use run_report::Tally;
use std::alloc::Global;

// Counts the event of a line, and the message behind it, if there is one.
fn count(tally: &mut Tally, words: &mut Words<'_>) {
    let event = read_event(words);
    let message = read_taken(words);
    words.note(tally.count(&event, message.as_ref()));
    drop(message);
    drop(event);
}

// Counts the events of lines. The first that is none is told of.
fn count_all(page: &mut Page, alloc: Global, tally: &mut Tally, events: &str) {
    for line in events.lines() {
        let mut words = Words::of(alloc, line);
        count(tally, &mut words);
        if let Some(fault) = words.fault() {
            page.fault(fault);
        }
    }
}

/// A report.
pub fn print_report(page: &mut Page, report: &Report) {
    page.item("keys ", report.keys);
    page.item(" edges ", report.edges);
    page.item("\nstarted ", report.started);
    for (worker, started) in report.workers.as_slice() {
        page.item("\nworker ", *worker);
        page.item(" started ", *started);
    }
    page.item("\ngathers ", report.gathers);
    page.item("\nsteals confirmed ", report.confirmed);
    page.item(" refused ", report.refused);
    page.item("\nlosses ", report.losses);
    page.put("\n");
}

/// Plays a story of a report.
pub fn play(page: &mut Page, words: &mut Words<'_>, events: &str) {
    let mut tally = Tally::new(words.alloc());
    count_all(page, words.alloc(), &mut tally, events);
    match read_graph(words) {
        Ok(shape) => match tally.report(words.alloc(), &shape) {
            Ok(report) => print_report(page, &report),
            Err(_) => page.fail(),
        },
        Err(fault) => page.fault(fault),
    }
}
