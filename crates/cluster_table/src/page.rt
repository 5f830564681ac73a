//! What is printed of a story. Numbers and lists are printed as `words` reads them.
use crate::words::Fault;
use cluster_msgs::Holders;
use std::alloc::{AllocError, Global};
use std::fmt::Display;

/// A text, and whether memory was wanting for it.
#[derive(Drop)]
pub struct Page {
    text: String,
    is_short: bool,
}

impl Page {
    /// No text yet.
    pub fn new(alloc: Global) -> Self {
        Page {
            text: String::new(alloc),
            is_short: false,
        }
    }

    /// The text.
    pub fn as_str(&self) -> &str {
        self.text.as_str()
    }

    /// Whether memory was wanting for the text.
    pub fn is_short(&self) -> bool {
        self.is_short
    }

    /// Memory was wanting.
    pub fn fail(&mut self) {
        self.is_short = true;
    }

    fn keep(&mut self, written: Result<(), AllocError>) {
        self.is_short |= written.is_err();
    }

    /// Puts a text.
    pub fn put(&mut self, text: &str) {
        let written = self.text.push_str(text);
        self.keep(written);
    }

    /// Puts a text and ends the line.
    pub fn line(&mut self, text: &str) {
        let written = writeln!(self.text, "{text}");
        self.keep(written);
    }

    /// Puts a text and an item behind it.
    pub fn item<T: Display + Copy>(&mut self, mark: &str, item: T) {
        let written = write!(self.text, "{mark}{item}");
        self.keep(written);
    }

    /// Puts a name, and numbers behind it.
    pub fn numbers(&mut self, name: &str, numbers: &[u64]) {
        self.put(name);
        for number in numbers {
            self.item(" ", *number);
        }
    }

    /// Puts a name and keys between commas, and `-` where there is none.
    pub fn keys(&mut self, name: &str, keys: &[u32]) {
        self.put(name);
        let mut mark = " ";
        for key in keys {
            self.item(mark, *key);
            mark = ",";
        }
        if keys.is_empty() {
            self.put(" -");
        }
    }

    /// Puts holders as `worker@copy` between plus signs behind a mark, and `-` where there is none.
    pub fn holders(&mut self, mark: &str, holders: &[(u32, u64)]) {
        let mut mark = mark;
        for (worker, copy) in holders {
            self.item(mark, *worker);
            self.item("@", *copy);
            mark = "+";
        }
        if holders.is_empty() {
            self.item(mark, "-");
        }
    }

    /// Puts keys with their holders as `key=holders` between commas, and `-` where there is none.
    pub fn who_has(&mut self, who_has: &[(u32, Holders)]) {
        let mut mark = " ";
        for (key, holders) in who_has {
            self.item(mark, *key);
            self.holders("=", holders.as_slice());
            mark = ",";
        }
        if who_has.is_empty() {
            self.put(" -");
        }
    }

    /// Puts why a line is not played.
    pub fn fault(&mut self, fault: Fault) {
        match fault {
            Fault::Ill => self.put("ill"),
            Fault::Unfit { key } => self.item("no graph has row ", key),
            Fault::OutOfMemory => self.put("out of memory"),
        }
        self.put("\n");
    }
}
