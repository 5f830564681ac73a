//! Reads of many elements.
ghost use Rattle.std.specs.Prelude.{◌≡◌, ◌≤◌, ◌<◌, ◌+◌, ◌*◌, ◌^◌, ◌++◌, length, drop, IfErr, OnOk, IsErrOf};
ghost use Rattle.io_edge.specs.Cause.{Rose};
ghost use Rattle.io_edge.specs.Content.{size_of, file_at, OnTold};
ghost use Rattle.io_edge.specs.Given.{GivesOf, GivesOnly, IsWithin};
ghost use Rattle.npy_codec.specs.Fronts.{IsFaultOrMemory};
ghost use Rattle.npy_codec.specs.Regions.{IsWidth};
ghost use Rattle.npy_region.specs.Cells.{first_cells};

use crate::kernels::append_cells;
use io_edge::{Store, read_full};
use npy_codec::{Head, NpyError};

/// Appends elements from an offset on, piece by piece through the buffer. The offset is in bytes, and the count in
/// elements.
pub(crate) fn read_cells<S: Store>(
    store: &mut S,
    file: u32,
    head: &Head,
    offset: u64,
    count: u64,
    buffer: &mut [u8],
    out: &mut Vec<i64>,
) -> Result<(), NpyError>
    requires there { file < length (S.files store.old) }
    requires width { IsWidth head.now.width }
    requires room { offset + head.now.width * count ≤ size_of (file_at (S.files store.old) file) }
    requires fits { offset + head.now.width * count < 2 ^ 64 }
    requires buffer { 8 ≤ length buffer.old }
    ensures same { S.files store.new ≡ S.files store.old }
    ensures named { S.names store.new ≡ S.names store.old }
    ensures only { GivesOnly (IsWithin offset (head.now.width * count)) (S.gave store.old) (S.gave store.new) }
    ensures later { S.count store.old ≤ S.count store.new }
    ensures kept { OnOk result (S.count store.new ≡ S.count store.old) }
    ensures cells { OnOk result (OnTold (file_at (S.files store.old) file)
        (λ bytes. out.new.items ≡ out.old.items ++ first_cells head.now.width head.now.big count (drop offset bytes))) }
    ensures given { OnOk result (GivesOf (S.names store.old) file (S.gave store.old) (S.gave store.new)
        (λ bytes. offset + head.now.width * count ≤ length bytes
        → out.new.items ≡ out.old.items ++ first_cells head.now.width head.now.big count (drop offset bytes))) }
    ensures size { OnOk result (length out.new.items ≡ length out.old.items + count) }
    ensures cause { IfErr result IsFaultOrMemory }
    ensures fault { IsErrOf result NpyError.ReadFault → Rose (S.count store.old) (S.count store.new) }
{
    let width = head.width as u64;
    let most = buffer.len() as u64 / width;
    let mut done = 0;
    while done < count {
        let step = most.min(count - done);
        let part = &mut buffer[..(width * step) as usize];
        read_full(store, file, offset + width * done, part)?;
        append_cells(head, part, out)?;
        done += step;
    }
    Ok(())
}
