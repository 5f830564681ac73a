//! A job, without its text.
use array_expr::{Expr, NodeId};

/// A node that is saved, and the name of its file.
#[derive(Drop)]
pub struct Save {
    pub node: NodeId,
    pub file: String,
}

/// What a job's text says: its expression, the names of the input files in the order of the input nodes, and its saves in
/// the order of the text.
#[derive(Drop)]
pub struct Job {
    pub expr: Expr,
    pub inputs: Vec<String>,
    pub saves: Vec<Save>,
}
