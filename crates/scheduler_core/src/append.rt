//! What is to be sent is appended to what the caller has.
ghost use Rattle.std.specs.Prelude.{◌≡◌, ◌++◌, OnOk, OnErr};
ghost use Rattle.scheduler_core.specs.Sent.{appended, HasFront, HasGrown};

use cluster_msgs::{Outbox, Sequence};
use std::alloc::AllocError;

/// Appends what was made. After want of memory a front of each made list was appended.
pub fn append_all(out: &mut Outbox, made: Outbox) -> Result<(), AllocError>
    ensures ok { OnOk result (out.new ≡ appended out.old made) }
    ensures err { OnErr result (HasGrown out.old made out.new) }
{
    let Outbox {
        down,
        clients,
        joined,
    } = made;
    append(&mut out.down, down)?;
    append(&mut out.clients, clients)?;
    append(&mut out.joined, joined)
}

/// Appends what was made. After want of memory a front of it was appended.
fn append<T: Drop>(out: &mut Sequence<T>, made: Sequence<T>) -> Result<(), AllocError>
    ensures ok { OnOk result (out.new ≡ out.old ++ made) }
    ensures err { OnErr result (HasFront out.old made out.new) }
{
    for item in made.into_vec() {
        out.push(item)?;
    }
    Ok(())
}
