//! The words of a line, which are taken from the left.
ghost use Rattle.std.specs.Prelude.{◌≡◌, ◌<◌, All, IfSome, length};
ghost use Rattle.nd_shape.specs.Shape.{elements};

use crate::text::Answer;
use array_expr::{NodeId, NodeIds};
use nd_shape::{Block, ChunkSpec, Dims, Region, Shape, Specs};
use std::alloc::Global;

// The most items of a list that begins with their number.
const MOST: u64 = 64;

/// Words between blanks, those that are left, and whether one was another than it should be. Where it was, a number is 0.
#[derive(Drop)]
pub struct Row<'a> {
    alloc: Global,
    rest: &'a str,
    is_ill: bool,
}

impl<'a> Row<'a> {
    /// The words of a text, with one blank between two.
    pub fn new(alloc: Global, text: &'a str) -> Self {
        Row {
            alloc,
            rest: text,
            is_ill: false,
        }
    }

    /// What the lists that are read take their memory from.
    pub fn alloc(&self) -> Global {
        self.alloc
    }

    /// Whether all words were taken.
    pub fn is_empty(&self) -> bool {
        self.rest.is_empty()
    }

    /// Whether a word was another than it should be, or memory was wanting for a list.
    pub fn is_ill(&self) -> bool {
        self.is_ill
    }

    /// The next word, or an empty one.
    pub fn word(&mut self) -> &'a str {
        let (word, rest) = self.rest.split_once(' ').unwrap_or((self.rest, ""));
        self.rest = rest;
        word
    }

    /// The next number.
    pub fn number(&mut self) -> i64 {
        let number = self.word().parse::<i64>();
        self.is_ill |= number.is_err();
        number.unwrap_or(0)
    }

    /// The next number, which isn't negative.
    pub fn natural(&mut self) -> u64 {
        let number = self.word().parse::<u64>();
        self.is_ill |= number.is_err();
        number.unwrap_or(0)
    }

    /// A number, or another word, as `-`, for none.
    pub fn optional(&mut self) -> Option<i64> {
        self.word().parse::<i64>().ok()
    }

    /// Numbers between commas, or `()` for none.
    pub fn naturals(&mut self) -> Vec<u64> {
        let mut list = Vec::new(self.alloc);
        for word in self.word().split(',') {
            if let Ok(number) = word.parse::<u64>() {
                self.is_ill |= list.push(number).is_err();
            }
        }
        list
    }

    /// Numbers of either sign between commas, or `()` for none.
    pub fn numbers(&mut self) -> Vec<i64> {
        let mut list = Vec::new(self.alloc);
        for word in self.word().split(',') {
            if let Ok(number) = word.parse::<i64>() {
                self.is_ill |= list.push(number).is_err();
            }
        }
        list
    }

    /// A shape by its lengths between commas, and its elements in row-major order; none where it is refused.
    pub fn block(&mut self, out: &mut Answer) -> Option<Block> {
        let lengths = self.naturals();
        let cells = self.numbers();
        match Shape::new(lengths) {
            Ok(shape) => self.block_of(shape, cells),
            Err(limit) => {
                out.refuse(limit);
                None
            }
        }
    }

    /// The block of a shape with these elements.
    pub fn block_of(&mut self, shape: Shape, cells: Vec<i64>) -> Option<Block>
        ensures { IfSome result (λ block. block.shape ≡ shape) }
    {
        if shape.elements() == cells.len() as u64 {
            Some(Block::new(shape, cells))
        } else {
            self.is_ill = true;
            None
        }
    }

    /// So many blocks, at most eight, or those before one that is refused.
    pub fn blocks(&mut self, count: u64, out: &mut Answer) -> Vec<Block> {
        let mut blocks = Vec::new(self.alloc);
        for _ in 0..count.min(8) {
            match self.block(out) {
                Some(block) => self.is_ill |= blocks.push(block).is_err(),
                None => break,
            }
        }
        blocks
    }

    /// So many shapes by their lengths between commas, or those before one that is refused.
    pub fn shapes(&mut self, count: u64, out: &mut Answer) -> Vec<Shape> {
        let mut shapes = Vec::new(self.alloc);
        for _ in 0..count {
            match Shape::new(self.naturals()) {
                Ok(shape) => self.is_ill |= shapes.push(shape).is_err(),
                Err(limit) => {
                    out.refuse(limit);
                    break;
                }
            }
        }
        shapes
    }

    /// The first index on each axis, and as many lengths.
    pub fn region(&mut self) -> Region {
        let starts = self.naturals();
        let lengths = self.naturals();
        self.is_ill |= starts.len() != lengths.len();
        region_of(&starts, &lengths)
    }

    /// 0 for nothing, or 1 and a number.
    pub fn maybe(&mut self) -> Option<i64> {
        if self.natural() == 0 {
            None
        } else {
            Some(self.number())
        }
    }

    /// How many, and so many numbers.
    pub fn dims(&mut self) -> Dims {
        let mut list = Dims::new(self.alloc);
        for _ in 0..self.natural().min(MOST) {
            let number = self.natural();
            self.is_ill |= list.push(number).is_err();
        }
        list
    }

    // A chunk size, or -1 and a list of sizes.
    fn spec(&mut self) -> ChunkSpec {
        let size = self.number();
        if size < 0 {
            ChunkSpec::List(self.dims())
        } else {
            ChunkSpec::Even(size as u64)
        }
    }

    /// How many, and so many specifications of chunks.
    pub fn specs(&mut self) -> Specs {
        let mut list = Specs::new(self.alloc);
        for _ in 0..self.natural().min(MOST) {
            let spec = self.spec();
            self.is_ill |= list.push(spec).is_err();
        }
        list
    }

    /// The number of a node, among the first so many.
    pub fn node(&mut self, count: u32) -> NodeId
        requires { 0 < count }
        ensures { result < count }
    {
        let number = self.natural();
        self.is_ill |= number >= count as u64;
        NodeId::new(number.min(count as u64 - 1) as u32)
    }

    /// How many, and so many numbers of nodes; at least one.
    pub fn nodes(&mut self, count: u32) -> Option<NodeIds>
        requires { 0 < count }
        ensures there { IfSome result (λ nodes. All (λ node. node < count) nodes) }
        ensures some { IfSome result (λ nodes. 0 < length nodes) }
    {
        let mut list = Vec::new(self.alloc);
        for _ in 0..self.natural().min(MOST) {
            let node = self.node(count);
            self.is_ill |= list.push(node).is_err();
        }
        if list.is_empty() {
            return None;
        }
        Some(NodeIds::from_vec(list))
    }
}

// A region of at most eight axes.
fn region_of(starts: &[u64], lengths: &[u64]) -> Region {
    let mut region = Region::new();
    for (start, len) in starts.iter().zip(lengths) {
        if region.lengths().len() < 8 {
            region.push(*start, *len);
        }
    }
    region
}
