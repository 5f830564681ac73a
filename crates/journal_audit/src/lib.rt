//! The entries that the nodes of a run kept, as one list, the report of the run that they tell, and whether they are legal.
//!
//! `cluster_world` stands below, with the world that an audit replays a journal in, `cluster_rules` with the definitions, and `run_report` with the
//! counts. Whoever reads what a run left stands above.
#![tactic(auto)]

pub mod audits;
pub mod laws;
pub mod merges;
pub mod reports;
mod same;
pub mod shapes;
pub mod verdict;

pub use audits::{audit, one_audit};
pub use laws::{clients_go_by_their_entries, the_shape_tells};
pub use merges::{Journal, merge};
pub use reports::report;
pub use shapes::ShapeJob;
pub use verdict::Audit;
