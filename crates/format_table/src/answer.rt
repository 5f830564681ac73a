//! The answer to a line.
use std::alloc::{AllocError, Global};
use std::fmt::Display;

/// A text, and whether memory was wanting for some of it.
#[derive(Drop)]
pub struct Answer {
    text: String,
    is_short: bool,
}

impl Answer {
    /// No text yet.
    pub fn new(alloc: Global) -> Self {
        Answer {
            text: String::new(alloc),
            is_short: false,
        }
    }

    /// What the values that an answer needs take their memory from.
    pub fn alloc(&self) -> Global {
        *self.text.allocator()
    }

    /// The text, or that memory was wanting.
    pub fn as_str(&self) -> &str {
        if self.is_short {
            "out of memory"
        } else {
            self.text.as_str()
        }
    }

    /// Keeps whether memory was wanting.
    pub fn keep(&mut self, made: Result<(), AllocError>) {
        self.is_short |= made.is_err();
    }

    /// Memory was wanting.
    pub fn fail(&mut self) {
        self.is_short = true;
    }

    /// Puts a text.
    pub fn put(&mut self, text: &str) {
        let put = self.text.push_str(text);
        self.keep(put);
    }

    /// Puts an item behind a text.
    pub fn put_item<T: Display>(&mut self, before: &str, item: &T) {
        let put = write!(self.text, "{before}{item}");
        self.keep(put);
    }

    /// Puts numbers, each behind a text.
    pub fn put_each<T: Display>(&mut self, before: &str, items: &[T]) {
        for item in items {
            self.put_item(before, item);
        }
    }

    /// Puts numbers between commas.
    pub fn put_numbers(&mut self, numbers: &[u64]) {
        let mut mark = "";
        for number in numbers {
            self.put_item(mark, number);
            mark = ",";
        }
    }

    fn put_byte(&mut self, byte: u8) {
        let put = if byte < 32 || byte > 126 || byte == b'\\' {
            write!(self.text, "\\x{byte:02x}")
        } else {
            self.text.push(char::from(byte))
        };
        self.keep(put);
    }

    /// Puts bytes as a case has them.
    pub fn put_bytes(&mut self, bytes: &[u8]) {
        for byte in bytes {
            self.put_byte(*byte);
        }
    }

    fn put_digits(&mut self, byte: u8) {
        let put = write!(self.text, "{byte:02x}");
        self.keep(put);
    }

    /// Puts bytes as pairs of hexadecimal digits.
    pub fn put_hex(&mut self, bytes: &[u8]) {
        for byte in bytes {
            self.put_digits(*byte);
        }
    }
}
