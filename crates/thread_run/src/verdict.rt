//! What is told of a run.
use cluster_msgs::Report;

/// What the audit of a run's histories says: that they are legal together, the stamp of the first entry that isn't, or that an entry was left out.
#[derive(Clone, Copy)]
pub enum Verdict {
    Agrees,
    Differs { stamp: u64 },
    NotComplete,
}

/// The report of a run, where it is asked for, and what the audit says of it.
#[derive(Drop)]
pub struct Told {
    pub report: Option<Report>,
    pub verdict: Verdict,
}
