//! What a worker is told beside the keys that it lost and the keys that it was given.

/// The event's own message to one worker.
#[derive(Clone, Copy)]
pub enum Answer {
    /// No worker is told more.
    Nothing,
    /// The worker is told who holds the key.
    Refresh { worker: u32, key: u32 },
    /// The worker that was given the key is asked for it back, so that another can have it.
    AskBack { key: u32 },
    /// The worker is told to remove its copy of the key.
    Remove { worker: u32, key: u32 },
    /// The worker is told to get a copy of the key, and from whom.
    Acquire { worker: u32, key: u32 },
}
