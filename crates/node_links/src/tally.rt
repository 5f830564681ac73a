//! How many packets were sent to a node, or over one link.

use std::alloc::{AllocError, Global};
use std::sync::Arc;
use std::sync::atomic::{AtomicU64, Ordering};

/// How many packets were sent to a node, or over one link, which all that send there share with who takes them. Each is counted after it is in its link
/// and before the turn of its sender ends.
#[derive(Drop)]
pub struct Tally {
    sent: Arc<AtomicU64>,
}

impl Tally {
    /// None was sent.
    ///
    /// # Errors
    /// Where there is no memory.
    pub fn new(alloc: Global) -> Result<Tally, AllocError> {
        let sent = Arc::new(alloc, AtomicU64::new(0))?;
        Ok(Tally { sent })
    }

    /// The same count.
    ///
    /// # Errors
    /// Where as many share it as can.
    pub fn share(&self) -> Result<Tally, AllocError> {
        let sent = Arc::try_clone(&self.sent)?;
        Ok(Tally { sent })
    }

    /// One more was sent.
    pub(crate) fn add(&self) {
        self.sent.fetch_add(1, Ordering::SeqCst);
    }

    /// How many were sent, past the last of its type from 0 on again.
    fn count(&self) -> u64 {
        self.sent.load(Ordering::SeqCst)
    }
}

/// How many packets were sent to a node, or over one link, and how many were taken of them. No link need be looked at where these are the same: a packet
/// that isn't counted yet is counted before the turn of its sender ends.
#[derive(Drop)]
pub struct Inbox {
    tally: Tally,
    taken: u64,
}

impl Inbox {
    /// Of which nothing was taken.
    pub fn new(tally: Tally) -> Inbox {
        Inbox { tally, taken: 0 }
    }

    /// Whether as many were taken as were sent.
    pub fn is_empty(&self) -> bool {
        self.tally.count() == self.taken
    }

    /// One more was taken.
    pub fn note(&mut self) {
        self.taken = self.taken.wrapping_add(1);
    }
}
