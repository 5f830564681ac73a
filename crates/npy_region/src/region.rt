//! Reads regions of a file's array.
ghost use Rattle.std.specs.Prelude.{◌≡◌, ◌≤◌, ◌<◌, ◌+◌, ◌-◌, ◌*◌, ◌^◌, [], ℕ, length, IfOk, IfErr, OnOk, IsErrOf};
ghost use Rattle.io_edge.specs.Cause.{Rose};
ghost use Rattle.io_edge.specs.Content.{size_of, file_at, OnTold};
ghost use Rattle.io_edge.specs.Given.{GivesOf, GivesOnly};
ghost use Rattle.nd_shape.specs.Region.{IsPart};
ghost use Rattle.nd_shape.specs.Shape.{elements};
ghost use Rattle.nd_rows.specs.Storage.{count_of, spot, walk_of};
ghost use Rattle.npy_region.specs.Cells.{AreStored, EndsWithin, InRowMajor, IsStoredByte, IsByteIn};
ghost use Rattle.npy_codec.specs.Fronts.{IsFaultOrMemory};
ghost use Rattle.npy_codec.specs.Regions.{HoldsRegion, IsWidth, RegionRefusedAs, needed};

use crate::cells::read_cells;
use io_edge::Store;
use nd_rows::{RegionWalk, from_column_major};
use nd_shape::{Block, Region, Shape};
use npy_codec::{Head, NpyError};
use std::alloc::{AllocError, Global};

// The bytes that are read at once, at most.
const PIECE: usize = 65536;

// The data bytes up to the end of the region's last element.
fn bytes_needed(head: &Head, region: &Region, walk: &mut RegionWalk) -> u64
    requires part { IsPart region.now head.now.shape }
    requires width { IsWidth head.now.width }
    requires walk { walk.old ≡ walk_of head.now.fortran head.now.shape region.now }
    ensures same { walk.new ≡ walk.old }
    ensures needed { result ≡ needed head.now region.now }
    ensures last { (q : ℕ) → q < count_of walk.old → head.now.width * (spot walk.old q + 1) ≤ result }
    ensures limit { result ≤ 2 ^ 34 }
{
    let _ = head.fortran;
    let _ = region.lengths();
    let count = walk.len();
    if count == 0 {
        return 0;
    }
    head.width as u64 * (walk.place(count - 1) + 1)
}

// Appends the region's elements in the order in which the file has them, row by row.
fn read_rows<S: Store>(
    store: &mut S,
    file: u32,
    head: &Head,
    walk: &mut RegionWalk,
    buffer: &mut [u8],
    cells: &mut Vec<i64>,
) -> Result<(), NpyError>
    requires there { file < length (S.files store.old) }
    requires width { IsWidth head.now.width }
    requires near { head.now.data_at ≤ 2 ^ 21 }
    requires some { 0 < count_of walk.old }
    requires room { EndsWithin walk.old head.now (size_of (file_at (S.files store.old) file)) }
    requires buffer { 8 ≤ length buffer.old }
    requires none { cells.old.items ≡ [] }
    ensures same { S.files store.new ≡ S.files store.old }
    ensures named { S.names store.new ≡ S.names store.old }
    ensures only { GivesOnly (IsStoredByte walk.old head.now) (S.gave store.old) (S.gave store.new) }
    ensures walk { walk.new ≡ walk.old }
    ensures later { S.count store.old ≤ S.count store.new }
    ensures kept { OnOk result (S.count store.new ≡ S.count store.old) }
    ensures cells { OnOk result (OnTold (file_at (S.files store.old) file) (λ bytes. AreStored bytes head.now walk.old (count_of walk.old) cells.new.items)) }
    ensures given { OnOk result (GivesOf (S.names store.old) file (S.gave store.old) (S.gave store.new)
        (λ bytes. EndsWithin walk.old head.now (length bytes) → AreStored bytes head.now walk.old (count_of walk.old) cells.new.items)) }
    ensures size { OnOk result (length cells.new.items ≡ count_of walk.old) }
    ensures cause { IfErr result IsFaultOrMemory }
    ensures fault { IsErrOf result NpyError.ReadFault → Rose (S.count store.old) (S.count store.new) }
{
    let count = walk.len();
    let row = walk.row_len();
    for k in 0..count / row {
        let offset = head.data_at + head.width as u64 * walk.place(k * row);
        read_cells(store, file, head, offset, row, buffer, cells)?;
    }
    Ok(())
}

// The region's elements in the order in which the file has them.
fn read_stored<S: Store>(
    alloc: Global,
    store: &mut S,
    file: u32,
    head: &Head,
    walk: &mut RegionWalk,
) -> Result<Vec<i64>, NpyError>
    requires there { file < length (S.files store.old) }
    requires width { IsWidth head.now.width }
    requires near { head.now.data_at ≤ 2 ^ 21 }
    requires some { 0 < count_of walk.old }
    requires room { EndsWithin walk.old head.now (size_of (file_at (S.files store.old) file)) }
    ensures same { S.files store.new ≡ S.files store.old }
    ensures named { S.names store.new ≡ S.names store.old }
    ensures only { GivesOnly (IsStoredByte walk.old head.now) (S.gave store.old) (S.gave store.new) }
    ensures walk { walk.new ≡ walk.old }
    ensures later { S.count store.old ≤ S.count store.new }
    ensures kept { OnOk result (S.count store.new ≡ S.count store.old) }
    ensures cells { IfOk result (λ v. OnTold (file_at (S.files store.old) file) (λ bytes. AreStored bytes head.now walk.old (count_of walk.old) v.items)) }
    ensures given { IfOk result (λ v. GivesOf (S.names store.old) file (S.gave store.old) (S.gave store.new)
        (λ bytes. EndsWithin walk.old head.now (length bytes) → AreStored bytes head.now walk.old (count_of walk.old) v.items)) }
    ensures size { IfOk result (λ v. length v.items ≡ count_of walk.old) }
    ensures cause { IfErr result IsFaultOrMemory }
    ensures fault { IsErrOf result NpyError.ReadFault → Rose (S.count store.old) (S.count store.new) }
{
    let count = walk.len();
    let mut cells = Vec::with_capacity(alloc, count as usize)?;
    let mut room = vec![in alloc; 0; PIECE]?;
    read_rows(store, file, head, walk, room.as_mut_slice(), &mut cells)?;
    Ok(cells)
}

// The elements of a block in row-major order, from those in the order of the file.
fn in_row_major(
    alloc: Global,
    column_major: bool,
    shape: &Shape,
    stored: Vec<i64>,
) -> Result<Vec<i64>, AllocError>
    requires { length stored.items ≡ elements shape.now }
    ensures count { IfOk result (λ v. length v.items ≡ elements shape.now) }
    ensures cells { IfOk result (λ v. InRowMajor column_major shape.now stored.items v.items) }
{
    if column_major {
        from_column_major(alloc, shape, &stored)
    } else {
        Ok(stored)
    }
}

// Reads a region along its walk.
fn read_walk<S: Store>(
    alloc: Global,
    store: &mut S,
    file: u32,
    head: &Head,
    region: &Region,
    walk: &mut RegionWalk,
) -> Result<Block, NpyError>
    requires there { file < length (S.files store.old) }
    requires part { IsPart region.now head.now.shape }
    requires width { IsWidth head.now.width }
    requires near { head.now.data_at ≤ 2 ^ 21 }
    requires walk { walk.old ≡ walk_of head.now.fortran head.now.shape region.now }
    ensures same { S.files store.new ≡ S.files store.old }
    ensures named { S.names store.new ≡ S.names store.old }
    ensures only { GivesOnly (IsByteIn head.now region.now) (S.gave store.old) (S.gave store.new) }
    ensures later { S.count store.old ≤ S.count store.new }
    ensures kept { OnOk result (S.count store.new ≡ S.count store.old) }
    ensures shape { IfOk result (λ block. block.shape ≡ region.now.lengths) }
    ensures cells { IfOk result (λ block. OnTold (file_at (S.files store.old) file) (λ bytes. HoldsRegion bytes head.now region.now block)) }
    ensures given { IfOk result (λ block. GivesOf (S.names store.old) file (S.gave store.old) (S.gave store.new)
        (λ bytes. HoldsRegion bytes head.now region.now block)) }
    ensures room { OnOk result (needed head.now region.now ≤ size_of (file_at (S.files store.old) file) - head.now.data_at) }
    ensures refused { IfErr result (RegionRefusedAs (size_of (file_at (S.files store.old) file)) head.now region.now) }
    ensures fault { IsErrOf result NpyError.ReadFault → Rose (S.count store.old) (S.count store.new) }
{
    let needs = bytes_needed(head, region, walk);
    let size = store.len(file)?;
    let has = size.saturating_sub(head.data_at);
    if has < needs {
        return Err(NpyError::Truncated { has, needs });
    }
    let shape = region.shape(alloc, &head.shape)?;
    let count = walk.len();
    if count == 0 {
        let empty = Block::new(shape, Vec::new(alloc));
        return Ok(empty);
    }
    let stored = read_stored(alloc, store, file, head, walk)?;
    let cells = in_row_major(alloc, head.fortran, &shape, stored)?;
    let block = Block::new(shape, cells);
    Ok(block)
}

/// Reads a region of a file's array into a block, in row-major order, whichever order the file has; each element is widened to
/// 64 bits with its sign. It is refused as `Truncated` exactly where the region's last run ends past the file; the two counts are of data bytes.
///
/// Whether or not the store tells what the file holds: the elements are those of whatever the file holds that gave the pieces of
/// this call. Whatever comes of it, the bytes that the store gives stand at offsets of the region's elements.
pub fn read_region<S: Store>(
    alloc: Global,
    store: &mut S,
    file: u32,
    head: &Head,
    region: &Region,
) -> Result<Block, NpyError>
    requires there { file < length (S.files store.old) }
    requires part { IsPart region.now head.now.shape }
    requires width { IsWidth head.now.width }
    requires near { head.now.data_at ≤ 2 ^ 21 }
    ensures same { S.files store.new ≡ S.files store.old }
    ensures named { S.names store.new ≡ S.names store.old }
    ensures only { GivesOnly (IsByteIn head.now region.now) (S.gave store.old) (S.gave store.new) }
    ensures later { S.count store.old ≤ S.count store.new }
    ensures kept { OnOk result (S.count store.new ≡ S.count store.old) }
    ensures shape { IfOk result (λ block. block.shape ≡ region.now.lengths) }
    ensures cells { IfOk result (λ block. OnTold (file_at (S.files store.old) file) (λ bytes. HoldsRegion bytes head.now region.now block)) }
    ensures given { IfOk result (λ block. GivesOf (S.names store.old) file (S.gave store.old) (S.gave store.new)
        (λ bytes. HoldsRegion bytes head.now region.now block)) }
    ensures room { OnOk result (needed head.now region.now ≤ size_of (file_at (S.files store.old) file) - head.now.data_at) }
    ensures refused { IfErr result (RegionRefusedAs (size_of (file_at (S.files store.old) file)) head.now region.now) }
    ensures fault { IsErrOf result NpyError.ReadFault → Rose (S.count store.old) (S.count store.new) }
{
    let mut walk = RegionWalk::new(alloc, head.fortran, &head.shape, region)?;
    read_walk(alloc, store, file, head, region, &mut walk)
}
