//! What an audit says.
use cluster_msgs::Report;

/// What an audit says of a journal: that it is legal, with the report of its events, or the stamp of the first entry that isn't.
#[derive(Drop)]
pub enum Audit {
    Agrees(Report),
    Differs { stamp: u64 },
}
