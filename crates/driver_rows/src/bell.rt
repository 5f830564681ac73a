//! What wakes drivers that sleep.

use std::sync::Wait;
use std::sync::atomic::{AtomicU64, Ordering};
use std::thread;
use std::time::Duration;

/// How drivers go about it.
#[derive(Clone, Copy)]
pub struct Manner {
    /// The most turns of a visit.
    pub turns: u32,
    /// After how many rounds in vain a driver sleeps.
    pub patience: u32,
    /// How many drivers begin their rounds at the same node.
    pub neighbours: u32,
}

/// How often something moved, how often a driver was rung for, and how many drivers go round and sleep.
///
/// A driver that moves something goes on itself, so nobody is woken for it: small tasks stay with one driver. Another is rung for by a driver that goes
/// away with a long task. One of those that sleep is the watch: it looks up every now and then whether anything has moved, and gets up where nothing has,
/// since the others may then be away with tasks that take their time.
#[derive(Drop)]
pub struct Bell {
    moves: AtomicU64,
    rings: AtomicU64,
    awake: AtomicU64,
    watched: AtomicU64,
    /// Always 0: what a driver lies at that nobody is to wake.
    naps: AtomicU64,
}

impl Bell {
    /// Nothing has moved, and nobody goes round.
    pub fn new() -> Bell {
        Bell {
            moves: AtomicU64::new(0),
            rings: AtomicU64::new(0),
            awake: AtomicU64::new(0),
            watched: AtomicU64::new(0),
            naps: AtomicU64::new(0),
        }
    }

    /// A driver begins to go round.
    pub fn begin(&self) {
        self.awake.fetch_add(1, Ordering::SeqCst);
    }

    /// A driver goes round no more, since the run is over: all that sleep are woken.
    pub fn ring_out(&self) {
        self.awake.fetch_sub(1, Ordering::SeqCst);
        self.rings.fetch_add(1, Ordering::SeqCst);
        self.rings.wake_all();
    }

    /// Something moved.
    pub fn note(&self) {
        self.moves.fetch_add(1, Ordering::SeqCst);
    }

    /// A driver goes away with a task: one that sleeps is woken, where the task is long or nobody keeps watch.
    pub fn ring(&self, is_long: bool) {
        self.note();
        if is_long || self.watched.load(Ordering::SeqCst) == 0 {
            self.rings.fetch_add(1, Ordering::SeqCst);
            self.rings.wake_one();
        }
    }

    /// How often something moved.
    pub fn count(&self) -> u64 {
        self.moves.load(Ordering::SeqCst)
    }

    /// Sleeps, if nothing has moved since the count was so, or for a moment at most where it is to doze. A driver that was refused a turn sleeps only
    /// while another is awake, which had that turn.
    pub fn sleep<R: Wait>(&self, rt: &R, count: u64, missed: bool, dozes: bool) {
        let rung = self.rings.load(Ordering::SeqCst);
        let before = self.awake.fetch_sub(1, Ordering::SeqCst);
        if self.count() != count || (before <= 1 && missed) {
            thread::yield_now();
        } else if dozes {
            self.doze(rt, rung);
        } else {
            self.lie_down(rt, count, rung);
        }
        self.awake.fetch_add(1, Ordering::SeqCst);
    }

    /// Stays a moment while another driver has the turn that this one needs, and longer once it has tried some times. How often it has tried.
    pub fn stay<R: Wait>(&self, rt: &R, tries: u32) -> u32 {
        if tries < TRIES {
            thread::yield_now();
            tries + 1
        } else {
            self.naps.park_timeout(rt, 0, Duration::from_micros(NAP));
            tries
        }
    }

    // Until somebody rings, or for a moment.
    fn doze<R: Wait>(&self, rt: &R, rung: u64) {
        self.rings
            .park_timeout(rt, low(rung), Duration::from_millis(WATCH));
    }

    // As the watch, if nobody is, or until somebody rings.
    fn lie_down<R: Wait>(&self, rt: &R, count: u64, rung: u64) {
        if self.watched.swap(1, Ordering::SeqCst) == 0 {
            self.watch(rt, count, rung);
            self.watched.store(0, Ordering::SeqCst);
        } else {
            self.rings.park(rt, low(rung));
        }
    }

    // Lies until somebody rings, or nothing has moved for a while.
    fn watch<R: Wait>(&self, rt: &R, count: u64, rung: u64) {
        let mut seen = count;
        for _ in rt.forever() {
            self.rings
                .park_timeout(rt, low(rung), Duration::from_millis(WATCH));
            let now = self.count();
            if now == seen || self.rings.load(Ordering::SeqCst) != rung {
                return;
            }
            seen = now;
        }
    }
}

// How many milliseconds the watch lies before it looks up.
const WATCH: u64 = 1;

// How often a driver tries for a turn that it needs before it naps between two tries, and for how many microseconds.
const TRIES: u32 = 16;

const NAP: u64 = 100;

// The part of a count that a sleeper is held against.
fn low(count: u64) -> u32 {
    (count & 0xffff_ffff) as u32
}
