//! How many keys each worker started: a count by number, 0 past the end of the row.
ghost use Rattle.std.specs.Prelude.{◌≡◌, ◌==◌, ◌+◌, ◌-◌, ◌^◌, ◌<◌, ℕ, min, cond, length, OnOk, OnErr};
ghost use Rattle.fact_rows.specs.Rows.{read};
ghost use Rattle.run_report.specs.Counts.{starter, starts_by};

use crate::kinds::starter;
use cluster_msgs::Event;
use fact_rows::Row;
use std::alloc::AllocError;

/// The count of a worker.
pub fn count_of(starts: &Row<u64>, worker: u32) -> u64
    ensures { result ≡ read starts.now 0 worker }
{
    if (worker as usize) < starts.len() {
        starts.get(worker)
    } else {
        0
    }
}

/// One more start, where the event is one. A count at its end stays there.
///
/// # Errors
/// Where no memory is left; each count is then as before.
pub fn note(starts: &mut Row<u64>, event: &Event) -> Result<(), AllocError>
    ensures ok { OnOk result ((i : ℕ) → read starts.new 0 i
        ≡ cond (starts_by (starter event.now) i) (min (read starts.old 0 i + 1) (2 ^ 64 - 1)) (read starts.old 0 i)) }
    ensures err { OnErr result ((i : ℕ) → read starts.new 0 i ≡ read starts.old 0 i) }
{
    match starter(event) {
        Some(worker) => add(starts, worker),
        None => Ok(()),
    }
}

/// One more start of a worker.
fn add(starts: &mut Row<u64>, worker: u32) -> Result<(), AllocError>
    ensures ok { OnOk result ((i : ℕ) → read starts.new 0 i
        ≡ cond (worker == i) (min (read starts.old 0 i + 1) (2 ^ 64 - 1)) (read starts.old 0 i)) }
    ensures err { OnErr result ((i : ℕ) → read starts.new 0 i ≡ read starts.old 0 i) }
{
    grow(starts, worker)?;
    let more = starts.get(worker).saturating_add(1);
    starts.set(worker, more);
    Ok(())
}

/// Makes room up to a worker.
fn grow(starts: &mut Row<u64>, worker: u32) -> Result<(), AllocError>
    ensures room { OnOk result (worker < length starts.new) }
    ensures same { (i : ℕ) → read starts.new 0 i ≡ read starts.old 0 i }
{
    for _number in starts.len()..worker as usize + 1 {
        starts.push(0)?;
    }
    Ok(())
}
