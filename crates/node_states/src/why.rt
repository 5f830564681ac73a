//! Why a worker ends.
ghost use Rattle.std.specs.Prelude.{◌≡◌};
ghost use Rattle.node_states.specs.Causes.{why_of};

use cluster_msgs::RunFail;

/// Why a worker ends: by the script, since a feed failed or couldn't be opened, since a link ended or a message was refused, or for want of memory.
#[derive(Clone, Copy)]
pub enum Why {
    Script,
    Feed,
    Link,
    Memory,
}

impl Why {
    /// Why a worker ends whose task failed.
    pub fn of(fail: RunFail) -> Why
        ensures { result ≡ why_of fail }
    {
        match fail {
            RunFail::Feed => Why::Feed,
            RunFail::OutOfMemory => Why::Memory,
        }
    }
}
