//! Stories of numbers: the quiet bound of counts, and the words of a generator.
use crate::page::Page;
use crate::words::Words;
use cluster_sim::words::Words as Generator;
use quiet_bound::quiet_events;
use std::alloc::Global;

// The bound for the clients, the messages under way, the workers, the keys and the edges of a line.
fn bound_of(words: &mut Words<'_>) -> u128 {
    let clients = words.small();
    let under_way = words.number();
    let workers = words.number();
    let keys = words.small();
    quiet_events(clients, under_way, workers, keys, words.small())
}

/// Plays a story of bounds: each line has five counts.
pub fn play_bounds(page: &mut Page, alloc: Global, events: &str) {
    for line in events.lines() {
        let mut words = Words::of(alloc, line);
        let bound = bound_of(&mut words);
        page.item(line, ": ");
        match words.fault() {
            Some(fault) => page.fault(fault),
            None => {
                page.item("", bound);
                page.put("\n");
            }
        }
    }
}

// The first three words of a number.
fn print_words(page: &mut Page, number: u64) {
    let mut words = Generator::new(number);
    page.item(" ", words.word());
    words.advance();
    page.item(" ", words.word());
    words.advance();
    page.item(" ", words.word());
    page.put("\n");
}

/// Plays a story of a generator: each line has a number, of which the first three words are printed.
pub fn play_words(page: &mut Page, alloc: Global, events: &str) {
    for line in events.lines() {
        let mut words = Words::of(alloc, line);
        let number = words.number();
        page.item(line, ":");
        match words.fault() {
            Some(fault) => page.fault(fault),
            None => print_words(page, number),
        }
    }
}
