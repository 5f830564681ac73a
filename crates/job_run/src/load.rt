//! Reads of the inputs' heads from an open store.
ghost use Rattle.std.specs.Prelude.{◌≡◌, ◌≤◌, ◌<◌, ◌^◌, length, IfOk, IfErr, OnOk, IsTrue, ◌↔◌};
ghost use Rattle.io_edge.specs.Content.{file_at};
ghost use Rattle.io_edge.specs.Given.{Gives, GivesOf};
ghost use Rattle.job_run.specs.Inputs.{FitsShape};
ghost use Rattle.npy_codec.specs.Files.{HasHead};
ghost use Rattle.job_run.specs.Loading.{AreHeads, FitNamed, HaveHeadsNamed, HeadEnds, HeadGiven, IsHeadFor, LoadEnds, LoadGiven};

use crate::ends::{Ended, FileError};
use io_edge::Store;
use nd_shape::Shape;
use npy_codec::{Head, NpyError, read_head};
use std::alloc::Global;

fn same_dims(left: &[u64], right: &[u64]) -> bool
    ensures { IsTrue result ↔ (left.now ≡ right.now) }
{
    left == right
}

// Reads the head of the file at a place, which is to declare this shape.
fn read_declared<I: Store>(
    alloc: Global,
    store: &mut I,
    input: usize,
    shape: &Shape,
) -> Result<Head, Ended>
    requires there { input < length (I.files store.old) }
    requires small { input < 2 ^ 32 }
    ensures same { I.files store.new ≡ I.files store.old }
    ensures named { I.names store.new ≡ I.names store.old }
    ensures later { I.count store.old ≤ I.count store.new }
    ensures kept { OnOk result (I.count store.new ≡ I.count store.old) }
    ensures head { IfOk result (IsHeadFor shape.now (file_at (I.files store.old) input)) }
    ensures given { OnOk result (GivesOf (I.names store.old) input (I.gave store.old) (I.gave store.new) (FitsShape shape.now)) }
    ensures given_head { IfOk result (λ head. GivesOf (I.names store.old) input (I.gave store.old) (I.gave store.new) (λ bytes. HasHead bytes head)) }
    ensures given_refusal { IfErr result (HeadGiven (I.names store.old) input shape.now (I.gave store.old) (I.gave store.new)) }
    ensures cause { IfErr result (HeadEnds shape.now (file_at (I.files store.old) input) input (I.count store.old) (I.count store.new)) }
{
    let head = match read_head(alloc, store, input as u32) {
        Ok(head) => head,
        Err(NpyError::ReadFault) => return Err(Ended::ReadFault),
        Err(NpyError::OutOfMemory) => return Err(Ended::OutOfMemory),
        Err(error) => {
            return Err(Ended::File {
                input,
                error: FileError::Npy(error),
            });
        }
    };
    if same_dims(head.shape.dims(), shape.dims()) {
        return Ok(head);
    }
    let declared = shape.copy(alloc)?;
    Err(Ended::File {
        input,
        error: FileError::Shape {
            has: head.shape,
            declared,
        },
    })
}

/// Reads the heads of the first files of a store, which are to declare these shapes, or tells why that fails: the first file that
/// is another one, a fault of the store, or want of memory. All of each file's data is there. Whether or not the store tells what
/// they hold, whatever the files hold that gave the pieces of this call is as declared, or is refused so.
pub fn read_heads<I: Store>(
    alloc: Global,
    store: &mut I,
    shapes: &[Shape],
) -> Result<Vec<Head>, Ended>
    requires there { length shapes.now ≤ length (I.files store.old) }
    requires small { length shapes.now ≤ 65536 }
    ensures same { I.files store.new ≡ I.files store.old }
    ensures named { I.names store.new ≡ I.names store.old }
    ensures later { I.count store.old ≤ I.count store.new }
    ensures kept { OnOk result (I.count store.new ≡ I.count store.old) }
    ensures heads { IfOk result (λ v. AreHeads shapes.now (I.files store.old) v.items) }
    ensures count { IfOk result (λ v. length v.items ≡ length shapes.now) }
    ensures given { OnOk result (Gives (I.gave store.old) (I.gave store.new) (FitNamed (I.names store.old) shapes.now (length shapes.now))) }
    ensures given_heads { IfOk result (λ v. Gives (I.gave store.old) (I.gave store.new) (HaveHeadsNamed (I.names store.old) v.items)) }
    ensures given_refusal { IfErr result (LoadGiven (I.names store.old) shapes.now (I.gave store.old) (I.gave store.new)) }
    ensures cause { IfErr result (LoadEnds shapes.now (I.files store.old) (I.count store.old) (I.count store.new)) }
{
    let mut heads = Vec::new(alloc);
    for (input, shape) in shapes.iter().enumerate() {
        match read_declared(alloc, store, input, shape) {
            Ok(head) => heads.push(head)?,
            Err(end) => return Err(end),
        }
    }
    Ok(heads)
}
