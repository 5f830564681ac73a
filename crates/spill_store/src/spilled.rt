//! What is kept in memory of a block that is on the disk.
ghost use Rattle.std.specs.Prelude.{◌≡◌, ◌*◌, All, FitsSigned, length, IfOk, IfSome, MatchOption};
ghost use Rattle.std.specs.Int.{w64};
ghost use Rattle.nd_shape.specs.Shape.{elements};
ghost use Rattle.spill_store.specs.Blocks.{block_bytes, size_of_block, DiffersIn, IsAlike, IsBlock, IsOf};

use crate::block_bytes::{cells_of, digest_of};
use crate::lost::LostBy;
use crate::was::Was;
use nd_shape::{Block, Shape};
use sha2::{Digest, Sha512_256};
use std::alloc::{AllocError, Global};
use std::marker::Model;

/// The shape of a block, and the digest of its bytes. Contracts see the block.
#[derive(Drop)]
pub(crate) struct Spilled {
    shape: Shape,
    digest: [u8; 32],
    was: Was,
}

impl Model for Spilled {
    ghost use Rattle.nd_shape.specs.Block.{Array};
    ghost use Rattle.spill_store.specs.Blocks.{IsKeptOf};

    ghost Value = { Array };

    ghost view = { λ s. record { shape = s.shape; cells = s.was.cells } };

    ghost invariant = { λ s. IsKeptOf s.digest (record { shape = s.shape; cells = s.was.cells }) };
}

impl Spilled {
    /// What is kept of a block with these bytes.
    pub(crate) fn new(alloc: Global, block: &Block, bytes: &[u8]) -> Result<Self, AllocError>
        requires bytes { bytes.now ≡ block_bytes block.now }
        requires fits { All (FitsSigned w64) block.now.cells }
        ensures { IfOk result (λ s. s ≡ block.now) }
    {
        let shape = block.shape().copy(alloc)?;
        Ok(Spilled {
            shape,
            digest: Sha512_256::digest(bytes),
            was: Was::new(block.cells()),
        })
    }

    /// What is kept of a block, of whose bytes a piece at a time is made.
    pub(crate) fn of(alloc: Global, block: &Block) -> Result<Self, AllocError>
        ensures { IfOk result (λ s. s ≡ block.now) }
    {
        let shape = block.shape().copy(alloc)?;
        Ok(Spilled {
            shape,
            digest: digest_of(alloc, block.cells())?,
            was: Was::new(block.cells()),
        })
    }

    /// What is kept of a block with these bytes: what is known of it, where that is given.
    pub(crate) fn known_or_new(
        alloc: Global,
        known: Option<Spilled>,
        block: &Block,
        bytes: &[u8],
    ) -> Result<Self, AllocError>
        requires known { IfSome known (λ s. s ≡ block.now) }
        requires bytes { bytes.now ≡ block_bytes block.now }
        requires fits { All (FitsSigned w64) block.now.cells }
        ensures { IfOk result (λ s. s ≡ block.now) }
    {
        match known {
            Some(spilled) => Ok(spilled),
            None => Spilled::new(alloc, block, bytes),
        }
    }

    /// The same once more, of this block.
    pub(crate) fn again(&self, alloc: Global, block: &Block) -> Result<Self, AllocError>
        requires { self.now ≡ block.now }
        ensures { IfOk result (λ s. s ≡ block.now) }
    {
        let shape = self.shape.copy(alloc)?;
        Ok(Spilled {
            shape,
            digest: self.digest,
            was: Was::new(block.cells()),
        })
    }

    /// The same of another block with this digest. No memory.
    pub(crate) fn renewed(self, block: &Block) -> Self
        requires { IsAlike self block.now }
        ensures { result ≡ block.now }
    {
        let Spilled {
            shape,
            digest,
            was: _,
        } = self;
        Spilled {
            shape,
            digest,
            was: Was::new(block.cells()),
        }
    }

    /// The block's shape. No memory.
    pub(crate) fn shape(&self) -> &Shape
        ensures { result.now ≡ self.now.shape }
    {
        &self.shape
    }

    /// How many bytes the block has on the disk. No memory.
    pub(crate) fn size(&self) -> usize
        ensures size { result ≡ size_of_block self.now }
        ensures whole { IsBlock self.now }
    {
        let _limits = self.shape.dims();
        8 * self.shape.elements() as usize
    }

    /// Why these aren't the block's bytes, of which the disk says that it has so many. No memory.
    pub(crate) fn differs(&self, has: usize, bytes: &[u8]) -> Option<LostBy>
        requires { length bytes.now ≡ size_of_block self.now }
        ensures { MatchOption result (IsOf self.now has bytes.now) (DiffersIn self.now has bytes.now) }
    {
        if has != bytes.len() {
            return Some(LostBy::Length {
                has: has as u64,
                needs: bytes.len() as u64,
            });
        }
        let found = Sha512_256::digest(bytes);
        if found.as_slice() == self.digest.as_slice() {
            return None;
        }
        Some(LostBy::Digest {
            kept: self.digest,
            found,
        })
    }
}

/// A block of this shape with these bytes.
pub(crate) fn block_of(alloc: Global, shape: Shape, bytes: &[u8]) -> Result<Block, AllocError>
    requires { length bytes.now ≡ 8 * elements shape }
    ensures shape { IfOk result (λ b. b.shape ≡ shape) }
    ensures bytes { IfOk result (λ b. block_bytes b ≡ bytes.now) }
    ensures whole { IfOk result (λ b. IsBlock b) }
{
    let cells = cells_of(alloc, bytes)?;
    Ok(Block::new(shape, cells))
}
