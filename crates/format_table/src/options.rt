//! The words of the commands `sim` and `gen`.
use crate::answer::Answer;
use cluster_msgs::Item;
use command_words::{SimWords, read_gen, read_sim};

fn add_word(out: &mut Answer, words: &mut Vec<String>, word: &str) {
    match String::from_str(out.alloc(), word) {
        Ok(word) => {
            if words.push(word).is_err() {
                out.fail();
            }
        }
        Err(_) => out.fail(),
    }
}

fn words_of(out: &mut Answer, line: &str) -> Vec<String> {
    let mut words = Vec::new(out.alloc());
    for word in line.split(' ') {
        add_word(out, &mut words, word);
    }
    words
}

fn put_event(out: &mut Answer, what: &str, worker: u32, at: u128) {
    out.put_item(what, &worker);
    out.put_item(" at ", &at);
}

fn put_item(out: &mut Answer, item: &Item) {
    match item {
        Item::Lose { w, at } => put_event(out, ", lose ", *w, *at),
        Item::Suspect { w, at } => put_event(out, ", suspect ", *w, *at),
        Item::Join { at } => out.put_item(", join at ", at),
    }
}

fn put_run(out: &mut Answer, number: u64, workers: u32, threads: u32) {
    out.put_item("number ", &number);
    out.put_item(", workers ", &workers);
    out.put_item(", threads ", &threads);
}

fn put_simulation(out: &mut Answer, sim: &SimWords) {
    let settings = sim.settings;
    put_run(out, settings.number, settings.workers, settings.threads);
    out.put_item(", saturation ", &settings.saturation);
    if let Some(most) = settings.allowed {
        out.put_item(", allowed ", &most);
    }
    for item in sim.script.as_slice() {
        put_item(out, item);
    }
}

/// `sim WORDS`: the simulation that the words ask for, with one blank between two words.
pub fn put_sim(out: &mut Answer, case: &str) {
    let words = words_of(out, case);
    match read_sim(out.alloc(), &words) {
        Ok(sim) => put_simulation(out, &sim),
        Err(fail) => out.put_item("", &fail),
    }
}

/// `gen WORDS`: the number that the words give, and the workers, with one blank between two words.
pub fn put_gen(out: &mut Answer, case: &str) {
    let words = words_of(out, case);
    match read_gen(out.alloc(), &words) {
        Ok(said) => put_run(out, said.number, said.workers, said.threads),
        Err(fail) => out.put_item("", &fail),
    }
}
