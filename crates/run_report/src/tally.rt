//! Counts over the events of a run.
ghost use Rattle.std.specs.Prelude.{◌≡◌, ◌++◌, ◌∷◌, ◌<◌, ◌^◌, ◌+◌, ◌-◌, [], List, length, min, cond, IfOk, OnOk, OnErr};
ghost use Rattle.std.specs.Option.{option_copied};
ghost use Rattle.cluster_rules.specs.Report.{Taken, is_join, how_many, report};
ghost use Rattle.run_report.specs.Counts.{IsCountOf, starts_of};

use crate::kinds::{is_confirmed, is_gather, is_join, is_loss, is_refused, is_start};
use crate::starts::{count_of, note};
use cluster_msgs::{Event, GraphShape, Message, Report, Sequence};
use fact_rows::Row;
use std::alloc::{AllocError, Global};

/// The counts of a report, while events are still coming. A count at its end stays there.
#[derive(Drop)]
pub struct Tally {
    joins: u32,
    started: u64,
    starts: Row<u64>,
    gathers: u64,
    confirmed: u64,
    refused: u64,
    losses: u64,
}

impl Tally {
    /// The counts of no event. It takes no memory.
    pub fn new(alloc: Global) -> Self
        ensures { IsCountOf result [] }
    {
        Tally {
            joins: 0,
            started: 0,
            starts: Row::empty(alloc),
            gathers: 0,
            confirmed: 0,
            refused: 0,
            losses: 0,
        }
    }

    /// Counts one more event, with the message that it takes. Whichever list of events was counted, the list with this
    /// event at its end is counted now, if it isn't so long that a count is at its end.
    ///
    /// # Errors
    /// Where no memory is left; the counts are then as before.
    pub fn count(&mut self, event: &Event, message: Option<&Message>) -> Result<(), AllocError>
        ensures ok { OnOk result ((es : List Taken) →
            length es < 2 ^ 64 - 1 → how_many is_join es < 2 ^ 32 - 1 → IsCountOf self.old es →
            IsCountOf self.new (es ++ (event.now, option_copied message.entry) ∷ [])) }
        ensures err { OnErr result ((es : List Taken) → IsCountOf self.old es → IsCountOf self.new es) }
    {
        note(&mut self.starts, event)?;
        self.joins = more_joins(self.joins, is_join(event));
        self.started = more(self.started, is_start(event));
        self.gathers = more(self.gathers, is_gather(event));
        self.confirmed = more(self.confirmed, is_confirmed(event, message));
        self.refused = more(self.refused, is_refused(event, message));
        self.losses = more(self.losses, is_loss(event));
        Ok(())
    }

    /// The report of the events that were counted, of a job with this graph. Each worker that joined has its starts.
    ///
    /// # Errors
    /// Where no memory is left.
    pub fn report(&self, alloc: Global, shape: &GraphShape) -> Result<Report, AllocError>
        ensures { IfOk result (λ made. (es : List Taken) → IsCountOf self.now es → made ≡ report shape.now es) }
    {
        Ok(Report {
            keys: u64::from(shape.keys()),
            edges: u64::from(shape.edges()),
            started: self.started,
            workers: self.workers(alloc)?,
            gathers: self.gathers,
            confirmed: self.confirmed,
            refused: self.refused,
            losses: self.losses,
        })
    }

    /// Each worker that joined, with its starts.
    fn workers(&self, alloc: Global) -> Result<Sequence<(u32, u64)>, AllocError>
        ensures { IfOk result (λ made. made ≡ starts_of self.now) }
    {
        let mut workers = Sequence::new(alloc);
        for number in 0..self.joins {
            let worker = number + 1;
            workers.push((worker, count_of(&self.starts, worker)))?;
        }
        Ok(workers)
    }
}

/// One more where it is one. A count at its end stays there.
fn more(count: u64, one: bool) -> u64
    ensures { result ≡ min (count + cond one 1 0) (2 ^ 64 - 1) }
{
    if one { count.saturating_add(1) } else { count }
}

fn more_joins(count: u32, one: bool) -> u32
    ensures { result ≡ min (count + cond one 1 0) (2 ^ 32 - 1) }
{
    if one { count.saturating_add(1) } else { count }
}
