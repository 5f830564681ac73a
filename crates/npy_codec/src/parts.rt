//! Parts of files that have them.
ghost use Rattle.std.specs.Prelude.{◌≡◌, ◌≤◌, ◌<◌, ◌+◌, ◌^◌, length, take, drop, IfOk, IfErr, OnOk, IsErrOf};
ghost use Rattle.io_edge.specs.Cause.{Rose};
ghost use Rattle.io_edge.specs.Content.{size_of, file_at, OnTold};
ghost use Rattle.io_edge.specs.Given.{GivesMore, GivesOf};
ghost use Rattle.npy_codec.specs.Files.{IsRefusedAs};
ghost use Rattle.npy_codec.specs.Fronts.{IsFaultOrMemory};

use crate::error::NpyError;
use io_edge::{Store, read_full};
use std::alloc::Global;

/// The bytes of a part of a file. The offset and the size are in bytes.
pub(crate) fn read_part<S: Store>(
    alloc: Global,
    store: &mut S,
    file: u32,
    offset: u64,
    size: usize,
) -> Result<Vec<u8>, NpyError>
    requires there { file < length (S.files store.old) }
    requires room { offset + size ≤ size_of (file_at (S.files store.old) file) }
    requires fits { offset + size < 2 ^ 64 }
    ensures same { S.files store.new ≡ S.files store.old }
    ensures named { S.names store.new ≡ S.names store.old }
    ensures gave { GivesMore (S.gave store.old) (S.gave store.new) }
    ensures later { S.count store.old ≤ S.count store.new }
    ensures kept { OnOk result (S.count store.new ≡ S.count store.old) }
    ensures part { IfOk result (λ v. OnTold (file_at (S.files store.old) file) (λ bytes. v.items ≡ take size (drop offset bytes))) }
    ensures given { IfOk result (λ v. GivesOf (S.names store.old) file (S.gave store.old) (S.gave store.new)
        (λ bytes. v.items ≡ take size (drop offset bytes))) }
    ensures size { IfOk result (λ v. length v.items ≡ size) }
    ensures cause { IfErr result IsFaultOrMemory }
    ensures refused { IfErr result (λ error. OnTold (file_at (S.files store.old) file) (λ bytes. IsRefusedAs bytes error)) }
    ensures fault { IsErrOf result NpyError.ReadFault → Rose (S.count store.old) (S.count store.new) }
{
    let mut part = vec![in alloc; 0; size]?;
    read_full(store, file, offset, &mut part)?;
    Ok(part)
}
