//! A gate that counts the tasks that workers start and end.
use io_edge::{Gate, Point};
use std::alloc::{AllocError, Global};
use std::sync::atomic::{AtomicU64, Ordering};

/// How often each worker started and ended each key. Numbers past the rows aren't counted, and are told of.
#[derive(Drop)]
pub struct Notes {
    workers: usize,
    keys: usize,
    started: Vec<AtomicU64>,
    ended: Vec<AtomicU64>,
    past: AtomicU64,
}

fn zeros(alloc: Global, count: usize) -> Result<Vec<AtomicU64>, AllocError> {
    let mut row = Vec::with_capacity(alloc, count)?;
    for _ in 0..count {
        row.push(AtomicU64::new(0))?;
    }
    Ok(row)
}

fn add(row: &[AtomicU64], place: usize) -> bool {
    match row.get(place) {
        Some(count) => {
            count.fetch_add(1, Ordering::SeqCst);
            true
        }
        None => false,
    }
}

fn read(row: &[AtomicU64], place: usize) -> u64 {
    match row.get(place) {
        Some(count) => count.load(Ordering::SeqCst),
        None => 0,
    }
}

impl Notes {
    /// Nothing is counted but that there was something.
    pub fn none(alloc: Global) -> Self {
        Notes {
            workers: 0,
            keys: 0,
            started: Vec::new(alloc),
            ended: Vec::new(alloc),
            past: AtomicU64::new(0),
        }
    }

    /// Nothing has been started, by workers below `workers` of keys below `keys`.
    pub fn new(alloc: Global, workers: usize, keys: usize) -> Result<Self, AllocError> {
        let count = workers.saturating_mul(keys);
        Ok(Notes {
            workers,
            keys,
            started: zeros(alloc, count)?,
            ended: zeros(alloc, count)?,
            past: AtomicU64::new(0),
        })
    }

    fn place(&self, worker: usize, key: usize) -> usize {
        if worker < self.workers && key < self.keys {
            worker.saturating_mul(self.keys).saturating_add(key)
        } else {
            usize::MAX
        }
    }

    fn note(&self, row: &[AtomicU64], worker: u32, key: u32) {
        if !add(row, self.place(worker as usize, key as usize)) {
            self.past.fetch_add(1, Ordering::SeqCst);
        }
    }

    /// How often a worker started keys.
    pub fn starts_of(&self, worker: usize) -> u64 {
        let mut sum: u64 = 0;
        for key in 0..self.keys {
            sum = sum.saturating_add(read(&self.started, self.place(worker, key)));
        }
        sum
    }

    /// How often a key was started.
    fn starts_at(&self, key: usize) -> u64 {
        let mut sum: u64 = 0;
        for worker in 0..self.workers {
            sum = sum.saturating_add(read(&self.started, self.place(worker, key)));
        }
        sum
    }

    /// Whether each key below this one was started.
    pub fn has_each(&self, keys: usize) -> bool {
        for key in 0..keys {
            if self.starts_at(key) == 0 {
                return false;
            }
        }
        true
    }

    /// Whether each start has its end, and nothing was noted of other workers and keys.
    pub fn is_even(&self) -> bool {
        for place in 0..self.started.len() {
            if read(&self.started, place) != read(&self.ended, place) {
                return false;
            }
        }
        self.past.load(Ordering::SeqCst) == 0
    }
}

impl Gate for Notes {
    fn at(&self, point: Point) {
        match point {
            Point::Started { worker, key } => self.note(&self.started, worker, key),
            Point::Ended { worker, key } => self.note(&self.ended, worker, key),
        }
    }
}
