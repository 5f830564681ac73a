//! Lists that contracts see as lists.
pub use sequences::{Duplicate, Sequence};

/// Keys, in the order in which they stand.
pub type KeyList = Sequence<u32>;

/// Who holds a key: pairs of worker and copy.
pub type Holders = Sequence<(u32, u64)>;

/// Keys with their holders.
pub type WhoHas = Sequence<(u32, Holders)>;

/// The elements of a block in row-major order.
pub type Cells = Sequence<i64>;
