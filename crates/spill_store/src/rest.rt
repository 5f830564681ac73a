//! Why no further block goes to the disk.

#[derive(Clone, Copy)]
pub enum Rest {
    /// The blocks in memory have no more than six tenths of the limit, or there is only one.
    Room,
    /// There is no disk.
    NoDisk,
    /// The disk has failed eight times.
    Worn,
    /// The disk has just failed.
    Refused,
    /// There was no memory for what a block on the disk needs, or the disk gave back eight blocks otherwise than they were.
    OutOfMemory,
}
