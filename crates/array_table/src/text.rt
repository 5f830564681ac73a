//! Answers as text.
use nd_shape::Region;
use std::alloc::{AllocError, Global};
use std::fmt::Display;

/// The answer to a line, and why it has another one than a value.
#[derive(Drop)]
pub struct Answer {
    text: String,
    is_refused: bool,
    is_ill: bool,
    is_short: bool,
}

impl Answer {
    /// No text yet.
    pub fn new(alloc: Global) -> Self {
        Answer {
            text: String::new(alloc),
            is_refused: false,
            is_ill: false,
            is_short: false,
        }
    }

    /// What the values that an answer needs take their memory from.
    pub fn alloc(&self) -> Global {
        *self.text.allocator()
    }

    /// The text.
    pub fn as_str(&self) -> &str {
        self.text.as_str()
    }

    /// Whether what the line asks is refused.
    pub fn is_refused(&self) -> bool {
        self.is_refused
    }

    /// Keeps whether memory was wanting.
    pub fn keep(&mut self, written: Result<(), AllocError>) {
        self.is_short |= written.is_err();
    }

    /// Memory was wanting.
    pub fn fail(&mut self) {
        self.is_short = true;
    }

    /// The words ask for nothing, or for what their own text excludes.
    pub fn mark_ill(&mut self) {
        self.is_ill = true;
    }

    /// Puts a text.
    pub fn put(&mut self, text: &str) {
        let written = self.text.push_str(text);
        self.keep(written);
    }

    /// Puts a blank and an item.
    pub fn put_item<T: Display + Copy>(&mut self, item: T) {
        let written = write!(self.text, " {item}");
        self.keep(written);
    }

    /// Puts why what the line asks is refused, in place of what was put before.
    pub fn refuse<E: Display + Copy>(&mut self, error: E) {
        self.text.clear();
        self.is_refused = true;
        let written = write!(self.text, " refused, {error}");
        self.keep(written);
    }

    /// Puts items, each behind a blank.
    pub fn put_items<T: Display + Copy>(&mut self, items: &[T]) {
        for item in items {
            self.put_item(*item);
        }
    }

    // Puts an item behind a mark.
    fn put_behind<T: Display + Copy>(&mut self, mark: &str, item: T) {
        let written = write!(self.text, "{mark}{item}");
        self.keep(written);
    }

    /// Puts items between commas, or `()` for none.
    pub fn put_list<T: Display + Copy>(&mut self, items: &[T]) {
        if items.is_empty() {
            self.put(" ()");
        }
        let mut mark = " ";
        for item in items {
            self.put_behind(mark, *item);
            mark = ",";
        }
    }

    /// Puts the lengths and the elements of an array.
    pub fn put_cells(&mut self, lengths: &[u64], cells: &[i64]) {
        self.put_items(lengths);
        self.put(" :");
        self.put_items(cells);
    }

    /// Puts an element, or that there is nothing.
    pub fn put_maybe(&mut self, element: Option<i64>) {
        match element {
            Some(element) => self.put_item(element),
            None => self.put(" nothing"),
        }
    }

    /// Puts a region by its first indexes and its lengths.
    pub fn put_region(&mut self, region: &Region) {
        self.put(" from");
        self.put_list(region.starts());
        self.put(" so many");
        self.put_list(region.lengths());
    }

    /// Puts that the line is ill or that memory was wanting, if so, in place of a value. What is refused isn't ill.
    pub fn end(&mut self) {
        if self.is_ill && !self.is_refused {
            self.text.clear();
            self.put(" ill row");
        }
        if self.is_short {
            self.text.clear();
            self.put(" out of memory");
        }
    }
}
