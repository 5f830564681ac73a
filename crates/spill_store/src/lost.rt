//! What a look at the store gives.

use nd_shape::Block;
use std::sync::Arc;

/// Why a block that a disk had taken is lost.
#[derive(Clone, Copy)]
pub enum LostBy {
    /// The disk's count of faults rose.
    Fault,
    /// The disk gave another number of bytes than the block has.
    Length { has: u64, needs: u64 },
    /// The disk gave as many bytes, whose digest isn't the block's. The digests are those of SHA-512/256.
    Digest { kept: [u8; 32], found: [u8; 32] },
}

/// What is found under a key.
#[derive(Drop)]
pub enum Got {
    Found(Arc<Block>),
    /// The key isn't kept.
    Absent,
    /// The key was kept, and its block is lost. It isn't kept any more.
    Lost(LostBy),
}
