//! How elements of each type are read, with a loop of its own for each.
ghost use Rattle.std.specs.Prelude.{◌≡◌, ◌≤◌, ◌<◌, ◌++◌, ◌/◌, true, false, length, OnOk};
ghost use Rattle.npy_codec.specs.Npy.{wide_cell};
ghost use Rattle.npy_codec.specs.Regions.{IsWidth};
ghost use Rattle.npy_region.specs.Cells.{first_cells};

use npy_codec::Head;
use std::alloc::AllocError;

// Signed integers of so many bytes, with their signs.
trait Element<const N: usize> {
    fn from_little(bytes: [u8; N]) -> i64
        ensures { result ≡ wide_cell N false bytes.entry };

    fn from_big(bytes: [u8; N]) -> i64
        ensures { result ≡ wide_cell N true bytes.entry };
}

impl Element<8> for i64 {
    fn from_little(bytes: [u8; 8]) -> i64
        ensures { result ≡ wide_cell 8 false bytes }
    {
        u64::from_le_bytes(bytes).cast_signed()
    }

    fn from_big(bytes: [u8; 8]) -> i64
        ensures { result ≡ wide_cell 8 true bytes }
    {
        u64::from_be_bytes(bytes).cast_signed()
    }
}

impl Element<4> for i32 {
    fn from_little(bytes: [u8; 4]) -> i64
        ensures { result ≡ wide_cell 4 false bytes }
    {
        i64::from(u32::from_le_bytes(bytes).cast_signed())
    }

    fn from_big(bytes: [u8; 4]) -> i64
        ensures { result ≡ wide_cell 4 true bytes }
    {
        i64::from(u32::from_be_bytes(bytes).cast_signed())
    }
}

impl Element<2> for i16 {
    fn from_little(bytes: [u8; 2]) -> i64
        ensures { result ≡ wide_cell 2 false bytes }
    {
        i64::from(u16::from_le_bytes(bytes).cast_signed())
    }

    fn from_big(bytes: [u8; 2]) -> i64
        ensures { result ≡ wide_cell 2 true bytes }
    {
        i64::from(u16::from_be_bytes(bytes).cast_signed())
    }
}

impl Element<1> for i8 {
    fn from_little(bytes: [u8; 1]) -> i64
        ensures { result ≡ wide_cell 1 false bytes }
    {
        i64::from(u8::from_le_bytes(bytes).cast_signed())
    }

    fn from_big(bytes: [u8; 1]) -> i64
        ensures { result ≡ wide_cell 1 true bytes }
    {
        i64::from(u8::from_be_bytes(bytes).cast_signed())
    }
}

// Appends elements in little-endian order. Bytes at the end that are less than one are left out.
fn append_little<const N: usize, T: Element<N>>(
    bytes: &[u8],
    out: &mut Vec<i64>,
) -> Result<(), AllocError>
    requires { (0 < N) × (N ≤ 8) }
    ensures { OnOk result (out.new.items ≡ out.old.items ++ first_cells N false (length bytes.now / N) bytes.now) }
{
    let (elements, _) = bytes.as_chunks::<N>();
    out.extend(
        elements.iter().map(
            |element| -> i64
                ensures { result ≡ wide_cell N false element.now }
            { T::from_little(*element) },
        ),
    )
}

// The same in big-endian order.
fn append_big<const N: usize, T: Element<N>>(
    bytes: &[u8],
    out: &mut Vec<i64>,
) -> Result<(), AllocError>
    requires { (0 < N) × (N ≤ 8) }
    ensures { OnOk result (out.new.items ≡ out.old.items ++ first_cells N true (length bytes.now / N) bytes.now) }
{
    let (elements, _) = bytes.as_chunks::<N>();
    out.extend(
        elements.iter().map(
            |element| -> i64
                ensures { result ≡ wide_cell N true element.now }
            { T::from_big(*element) },
        ),
    )
}

// Appends the elements of these bytes, which are of the head's type.
pub(crate) fn append_cells(head: &Head, bytes: &[u8], out: &mut Vec<i64>) -> Result<(), AllocError>
    requires { IsWidth head.now.width }
    ensures { OnOk result (out.new.items ≡ out.old.items ++ first_cells head.now.width head.now.big (length bytes.now / head.now.width) bytes.now) }
{
    match (head.width, head.big) {
        (8, false) => append_little::<8, i64>(bytes, out),
        (8, true) => append_big::<8, i64>(bytes, out),
        (4, false) => append_little::<4, i32>(bytes, out),
        (4, true) => append_big::<4, i32>(bytes, out),
        (2, false) => append_little::<2, i16>(bytes, out),
        (2, true) => append_big::<2, i16>(bytes, out),
        (_, false) => append_little::<1, i8>(bytes, out),
        (_, true) => append_big::<1, i8>(bytes, out),
    }
}
