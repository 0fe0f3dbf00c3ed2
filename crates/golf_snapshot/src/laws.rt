//! Laws on the least closed sets of a state's graphs.
//!
//! They relate the graphs to `Live` and `Reach` of the definitions.

ghost use Rattle.golf_snapshot.specs.Stands.{LiveGraph, RetainedGraph};

/// States that the least closed set of the live graph is the live set.
pub fn live_graph_law()
    ensures { LiveGraph }
{}

/// States that the least closed set of the retained graph is the set of objects that the sources reach.
pub fn retained_graph_law()
    ensures { RetainedGraph }
{}
