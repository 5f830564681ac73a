//! Gates: one at which tasks meet, and one at which they take their time.

use io_edge::{Gate, Point};
use std::sync::atomic::{AtomicU64, Ordering};
use std::thread;

/// Holds each task that starts until so many have started, for so many looks at most. Once one was held in vain none is held any more.
#[derive(Drop)]
pub struct Meeting {
    count: u64,
    started: AtomicU64,
    missed: AtomicU64,
}

const LOOKS: u32 = 10_000_000;

/// Has each task yield to other threads so often.
#[derive(Drop)]
pub struct Slow {
    pub looks: u32,
}

impl Meeting {
    /// So many are to meet, and nobody has come.
    pub fn new(count: u64) -> Self {
        Meeting {
            count,
            started: AtomicU64::new(0),
            missed: AtomicU64::new(0),
        }
    }

    /// Whether so many started, and each that started before was held until then.
    pub fn met(&self) -> bool {
        self.are_there() && self.missed.load(Ordering::SeqCst) == 0
    }

    fn are_there(&self) -> bool {
        self.started.load(Ordering::SeqCst) >= self.count
    }

    /// Waits until so many have started. Not where another waited in vain.
    fn came(&self) -> bool {
        for _ in 0..LOOKS {
            if self.are_there() {
                return true;
            }
            if self.missed.load(Ordering::SeqCst) > 0 {
                return false;
            }
            thread::yield_now();
        }
        false
    }
}

impl Gate for Meeting {
    fn at(&self, point: Point) {
        match point {
            Point::Started { worker: _, key: _ } => {
                self.started.fetch_add(1, Ordering::SeqCst);
                if !self.came() {
                    self.missed.fetch_add(1, Ordering::SeqCst);
                }
            }
            Point::Ended { worker: _, key: _ } => {}
        }
    }
}

impl Gate for Slow {
    fn at(&self, point: Point) {
        match point {
            Point::Started { worker: _, key: _ } => {
                for _ in 0..self.looks {
                    thread::yield_now();
                }
            }
            Point::Ended { worker: _, key: _ } => {}
        }
    }
}
