//! The chunks along one axis, with their running sums.
ghost use Rattle.std.specs.Prelude.{◌≡◌, ◌+◌, ◌<◌, ◌≤◌, ◌^◌, List, ℕ, length, slice_index, IfOk};
ghost use Rattle.nd_shape.specs.Chunk.{total};
ghost use Rattle.chunk_layout.specs.Layouts.{chunk_of};
ghost use Rattle.chunk_layout.specs.Cuts.{AreStarts, IsCut, IsSummed};

use std::alloc::{AllocError, Global};
use std::marker::Model;

/// The sizes of the chunks along an axis, and where each of them begins. It is seen as the list of sizes.
#[derive(Drop)]
pub struct Cuts {
    sizes: Vec<u32>,
    starts: Vec<u64>,
}

impl Model for Cuts {
    ghost Value = { List ℕ };

    ghost view = { λ c. c.sizes.items };

    ghost invariant = { λ c. IsSummed c.sizes.items c.starts.items };
}

impl Cuts {
    /// Takes sizes over and adds them up, the only time.
    pub fn of(alloc: Global, sizes: Vec<u32>) -> Result<Self, AllocError>
        requires { IsCut sizes.items }
        ensures { IfOk result (λ cuts. cuts ≡ sizes.items) }
    {
        let starts = starts_of(alloc, sizes.as_slice())?;
        Ok(Cuts { sizes, starts })
    }

    /// The size of each chunk. No memory.
    pub fn sizes(&self) -> &[u32]
        ensures value { result.now ≡ self.now }
        ensures cut { IsCut self.now }
    {
        self.sizes.as_slice()
    }

    /// Where each chunk begins, and behind the last one the length of the axis. No memory.
    pub fn starts(&self) -> &[u64]
        ensures starts { AreStarts self.now result.now }
        ensures cut { IsCut self.now }
    {
        self.starts.as_slice()
    }

    /// How many chunks there are. No memory.
    pub fn count(&self) -> u64
        ensures count { result ≡ length self.now }
        ensures cut { IsCut self.now }
    {
        self.sizes.len() as u64
    }

    /// The length of the axis. No memory.
    pub fn len(&self) -> u64
        ensures { result ≡ total self.now }
    {
        let count = self.sizes.len();
        self.starts()[count]
    }

    /// The chunk in which an index of the axis lies, by binary search. No memory.
    pub fn chunk_at(&self, index: u64) -> u64
        requires { index < total self.now }
        ensures chunk { result ≡ chunk_of self.now index }
        ensures there { result < length self.now }
    {
        let count = self.sizes.len();
        search(self.starts(), count, index) as u64
    }

    /// An equal cut.
    pub fn copy(&self, alloc: Global) -> Result<Self, AllocError>
        ensures { IfOk result (λ cuts. cuts ≡ self.now) }
    {
        let sizes = Vec::from_slice(alloc, self.sizes())?;
        let starts = Vec::from_slice(alloc, self.starts())?;
        Ok(Cuts { sizes, starts })
    }
}

fn starts_of(alloc: Global, sizes: &[u32]) -> Result<Vec<u64>, AllocError>
    requires { total sizes.now ≤ 2 ^ 31 }
    ensures { IfOk result (λ starts. AreStarts sizes.now starts.items) }
{
    let mut starts = vec![in alloc; 0]?;
    let mut end = 0;
    for size in sizes {
        end += u64::from(*size);
        starts.push(end)?;
    }
    Ok(starts)
}

// The last chunk that doesn't begin behind an index.
fn search(starts: &[u64], count: usize, index: u64) -> usize
    requires count { length starts.now ≡ count + 1 }
    requires low { slice_index starts.now 0 ≤ index }
    requires high { index < slice_index starts.now count }
    ensures there { result < count }
    ensures low { slice_index starts.now result ≤ index }
    ensures high { index < slice_index starts.now (result + 1) }
{
    let mut low = 0;
    let mut high = count;
    while high - low > 1 {
        let middle = low + (high - low) / 2;
        if starts[middle] <= index {
            low = middle;
        } else {
            high = middle;
        }
    }
    low
}
