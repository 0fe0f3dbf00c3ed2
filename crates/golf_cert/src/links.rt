//! Links, of which certificates and reasons consist.
//!
//! A link names a root, or an edge of the graph.

use golf_base::List;

/// A reason for which a place of a graph is in its least closed set. Nodes and sleepers are counted from 0.
/// The place of a sleeper is its number plus the count of nodes. A link with a number out of range
/// justifies nothing.
#[derive(Clone, Copy, Debug, PartialEq, Eq)]
pub enum Link {
    /// Places a node, which is a root.
    Root(u32),
    /// Places the node `to`. The node `from` refers to it, and was placed before.
    Child { from: u32, to: u32 },
    /// Places the sleeper. It waits on the node, which was placed before.
    Woken { node: u32, sleeper: u32 },
    /// Places the node. The sleeper refers to it, and was placed before.
    Held { sleeper: u32, node: u32 },
}

/// A claim that the places of its links, in their order, are the least closed set of a graph.
#[derive(Debug, Drop)]
pub struct Certificate {
    pub links: List<Link>,
}

/// The result of the check of a certificate.
#[derive(Clone, Copy, Debug, PartialEq, Eq)]
pub enum Verdict {
    /// The places of the certificate are the least closed set.
    Proved,
    /// The link of this number, from 0, is the first one that is not justified. If it is the count of all
    /// links, each link is justified, but a place is missing.
    Refused(u32),
}
