//! Locks of real files.

use std::fs::{File, TryLockError};

/// What a try for the lock of a file came to.
#[derive(Clone, Copy)]
pub enum Lock {
    /// This opening of the file holds it now, until it is closed.
    Held,
    /// Another opening holds it.
    Taken,
    /// The file can't be locked.
    Unknown,
}

/// A file of which one opening at a time can hold a lock, also among those of other programs.
pub trait Lockable {
    /// Takes the lock where no other opening holds it. It doesn't wait.
    fn try_to_lock(&self) -> Lock;
}

impl Lockable for File {
    fn try_to_lock(&self) -> Lock {
        match self.try_lock() {
            Ok(()) => Lock::Held,
            Err(TryLockError::WouldBlock) => Lock::Taken,
            Err(TryLockError::Error(_)) => Lock::Unknown,
        }
    }
}
