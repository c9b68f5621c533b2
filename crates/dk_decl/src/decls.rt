// What a block declares.
use dk_base::{Compar, Kind, List, Text, Value};

/// A declared edge to a parent point.
#[derive(Debug, Drop, PartialEq, Eq)]
pub struct EdgeDecl {
    /// The parent's name.
    pub parent: Text,
    /// The number that tells edges to one parent apart.
    pub id: u32,
}

/// A variable's counterpart at an edge.
#[derive(Debug, Drop, PartialEq, Eq)]
pub struct ParentVar {
    /// The edge, by its place among the edges of the block.
    pub edge: u64,
    /// The name of the parent's variable.
    pub name: Text,
}

/// A declared variable.
#[derive(Debug, Drop)]
pub struct VarDecl {
    /// The name of the variable.
    pub name: Text,
    /// The kind of its values; none for an opaque variable, whose values are not read.
    pub kind: Option<Kind>,
    /// What it may be compared with; both numbers are -1 where nothing is said.
    pub compar: Compar,
    /// The value that it has in each sample, if it has a constant and is not opaque. It is never the missing one.
    pub constant: Option<Value>,
    /// Whether it has a constant, which of an opaque variable is not read. Such a variable does not stand in the records.
    pub constant_line: bool,
    /// Its counterparts at the edges of the block, in the order of their lines.
    pub parents: List<ParentVar>,
}

/// A declared point.
#[derive(Debug, Drop)]
pub struct PointDecl {
    /// The name of the point.
    pub name: Text,
    /// Its edges to parent points, in order; no two have the same parent and ID.
    pub edges: List<EdgeDecl>,
    /// Its variables, in order; no two have the same name.
    pub vars: List<VarDecl>,
}
