//! What a scheduler's node goes by, and what its turns choose and say.
use cluster_msgs::Script;

/// What a scheduler's node goes by: how many workers join first, with how many threads each, and the script that follows. An item that joins a
/// worker gives it as many threads.
#[derive(Drop)]
pub struct Plan {
    pub workers: u32,
    pub threads: u32,
    pub script: Script,
}

/// What comes before losses and messages: a worker joins, a copy or a task is moved, a worker is suspected or is to be lost by the script, or nothing.
#[derive(Clone, Copy)]
pub enum Due {
    Join,
    Evict,
    Balance,
    Suspect(u32),
    Lose(u32),
    Nothing,
}

/// What a turn of the scheduler says: it tried an event; it had none; a worker is to be made to end first; no worker is connected and none is to
/// come; or it has stopped.
#[derive(Clone, Copy)]
pub enum Course {
    Moved,
    Idle,
    LoseFirst(u32),
    Over,
    Stopped,
}
