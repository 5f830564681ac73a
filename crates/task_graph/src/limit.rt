//! What a graph can have too much of.

/// A quantity of graphs that has a limit: 32,768 keys, 262,144 dependencies in all, and 2^27 bytes in one block.
#[derive(Clone, Copy, Debug)]
pub enum Quantity {
    Keys,
    Edges,
    BlockBytes,
}
