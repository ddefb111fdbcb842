//! The serial histories of a matrix as a graph without cycles.
#![tactic(auto)]

mod alone;
mod answering;
mod exploring;
mod graph;
mod learning;
mod ordering;
mod subset;

pub use answering::{Answer, ask};
pub use graph::SerialGraph;
pub use learning::{LearntGraph, learn_graph, learn_graph_from};
