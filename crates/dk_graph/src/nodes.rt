// Points of a graph, and edges between them.
use dk_base::{List, PointId, Text};

/// A point: its name, and the names of its parents in order, whether or not they are in the graph.
#[derive(Debug, Drop)]
pub struct Node {
    pub name: Text,
    pub links: List<Text>,
}

/// An edge from a child to a parent. Its number is the place of its link among all links of the child, also among those whose
/// parent is not in the graph.
#[derive(Clone, Copy, Debug, Default, PartialEq, Eq)]
pub struct Edge {
    pub child: PointId,
    pub parent: PointId,
    pub number: u64,
}

// A link whose parent is not in the graph.
#[derive(Clone, Copy)]
pub struct Waiting {
    pub child: PointId,
    pub number: u64,
}
