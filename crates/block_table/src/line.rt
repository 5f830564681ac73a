//! The words of a line, which are taken from the left, and its answer as far as it is put.
use crate::why::Why;
use nd_shape::{ChunkSpec, Dims, Piece, Region, Shape};
use std::alloc::{AllocError, Global};
use std::fmt::Display;
use task_graph::Quantity;

/// The words that are left, the text of the answer, and the first reason for another answer. From then on a number is 0
/// and a list empty.
#[derive(Drop)]
pub struct Line<'a> {
    rest: &'a str,
    text: String,
    why: Option<Why>,
}

impl<'a> Line<'a> {
    /// The words of a text, between blanks.
    pub fn new(alloc: Global, words: &'a str) -> Self {
        Line {
            rest: words,
            text: String::new(alloc),
            why: None,
        }
    }

    /// What the values that an answer needs take their memory from.
    pub fn alloc(&self) -> Global {
        *self.text.allocator()
    }

    /// Whether all words were taken.
    pub fn is_empty(&self) -> bool {
        self.rest.is_empty()
    }

    /// The text of the answer.
    pub fn text(&self) -> &str {
        self.text.as_str()
    }

    /// Why the line has another answer.
    pub fn why(&self) -> Option<Why> {
        self.why
    }

    /// Notes why the line has another answer, where it is the first reason.
    pub fn refuse(&mut self, why: Why) {
        if self.why.is_none() {
            self.why = Some(why);
        }
    }

    /// The words ask for nothing, or for what their own text excludes.
    pub fn mark_ill(&mut self) {
        self.refuse(Why::Ill);
    }

    /// Memory was wanting.
    pub fn fail(&mut self) {
        self.refuse(Why::OutOfMemory);
    }

    /// Keeps whether memory was wanting.
    pub fn keep(&mut self, made: Result<(), AllocError>) {
        if made.is_err() {
            self.fail();
        }
    }

    /// The next word, or an empty one where none is left.
    pub fn word(&mut self) -> &'a str {
        if self.rest.is_empty() {
            self.mark_ill();
        }
        let (word, rest) = self.rest.split_once(' ').unwrap_or((self.rest, ""));
        self.rest = rest.trim_start();
        word
    }

    /// All words that are left.
    pub fn words(&mut self) -> &'a str {
        let words = self.rest;
        self.rest = "";
        words
    }

    fn number_of(&mut self, word: &str) -> i64 {
        let number = word.parse::<i64>();
        if number.is_err() {
            self.mark_ill();
        }
        number.unwrap_or(0)
    }

    fn natural_of(&mut self, word: &str) -> u64 {
        let number = word.parse::<u64>();
        if number.is_err() {
            self.mark_ill();
        }
        number.unwrap_or(0)
    }

    /// The next number, which isn't negative.
    pub fn natural(&mut self) -> u64 {
        let word = self.word();
        self.natural_of(word)
    }

    /// A number, or `-` for none.
    pub fn optional(&mut self) -> Option<i64> {
        let word = self.word();
        if word == "-" {
            return None;
        }
        Some(self.number_of(word))
    }

    /// Numbers between commas, or `()` for none.
    pub fn naturals(&mut self) -> Vec<u64> {
        let mut list = Vec::new(self.alloc());
        let word = self.word();
        if word != "()" {
            for number in word.split(',') {
                let number = self.natural_of(number);
                self.keep(list.extend_from_slice(&[number]));
            }
        }
        list
    }

    /// The shape of the lengths between commas.
    pub fn shape(&mut self) -> Option<Shape> {
        match Shape::new(self.naturals()) {
            Ok(shape) => Some(shape),
            Err(limit) => {
                self.refuse(Why::Limit(limit));
                None
            }
        }
    }

    // `even` and a size, or `list` and sizes.
    fn spec(&mut self) -> ChunkSpec {
        let word = self.word();
        if word == "list" {
            return ChunkSpec::List(Dims::from_vec(self.naturals()));
        }
        if word != "even" {
            self.mark_ill();
        }
        ChunkSpec::Even(self.natural())
    }

    /// How many, and so many specifications of chunks.
    pub fn specs(&mut self) -> Vec<ChunkSpec> {
        let mut list = Vec::new(self.alloc());
        for _ in 0..self.natural() {
            let spec = self.spec();
            if list.push(spec).is_err() {
                self.fail();
            }
            if self.why.is_some() {
                break;
            }
        }
        list
    }

    /// Puts a text.
    pub fn put(&mut self, text: &str) {
        let put = self.text.push_str(text);
        self.keep(put);
    }

    /// Puts an item behind a text.
    pub fn put_item<T: Display>(&mut self, before: &str, item: &T) {
        let put = write!(self.text, "{before}{item}");
        self.keep(put);
    }

    /// Puts items between commas, or `()` for none.
    pub fn put_list<T: Display>(&mut self, list: &[T]) {
        if list.is_empty() {
            self.put(" ()");
        }
        let mut mark = " ";
        for item in list {
            self.put_item(mark, item);
            mark = ",";
        }
    }

    /// Puts a region by its first indexes and its lengths.
    pub fn put_region(&mut self, region: &Region) {
        self.put(" from");
        self.put_list(region.starts());
        self.put(" so many");
        self.put_list(region.lengths());
    }

    /// Puts a piece: its source, where it begins there and in the new block, and its lengths.
    pub fn put_piece(&mut self, piece: &Piece) {
        self.put_item(" | ", &piece.source);
        self.put(" at");
        self.put_list(piece.from.starts());
        self.put(" to");
        self.put_list(piece.to.starts());
        self.put(" so many");
        self.put_list(piece.to.lengths());
    }

    /// Puts the limit that is passed.
    pub fn put_quantity(&mut self, quantity: Quantity) {
        self.put(match quantity {
            Quantity::Keys => " keys",
            Quantity::Edges => " edges",
            Quantity::BlockBytes => " block bytes",
        });
    }
}
