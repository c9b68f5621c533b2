//! Named points and the edges between them: a point has links, each the name of a parent, and a link is an edge once a point has
//! that name. Points come one after another; a graph has no cycle, and knows each point's edges by child and by parent, its rank
//! and its depth.
#![tactic(auto)]

mod depths;
mod edges;
mod graph;
mod growing;
pub mod laws;
mod names;
mod nodes;
mod notes;
mod raising;
mod rows;

pub use graph::Graph;
pub use names::Names;
pub use nodes::{Edge, Node};
