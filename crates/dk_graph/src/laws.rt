//! What the definitions of depths and cycles come to, in the words of paths.
ghost use Rattle.dk_graph.specs.Paths.{CycleIsPathBack, DepthIsLongestPath};

/// There is a cycle exactly where a path of one edge or more leads from a point to itself.
pub fn cycle_is_path_back()
    ensures { CycleIsPathBack }
{}

/// Without a cycle the depth of a point is the number of edges on the longest path that ends in it.
pub fn depth_is_longest_path()
    ensures { DepthIsLongestPath }
{}
