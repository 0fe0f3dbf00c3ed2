//! The objects and goroutines that a reason names.
//!
//! A node is an object, and a sleeper is a goroutine.

ghost use Rattle.std.specs.Prelude.{◌≡◌, ◌-◌, ◌<◌, IfOk};
ghost use Rattle.golf_model.specs.Graph.{node_count};
ghost use Rattle.golf_cert.specs.Links.{placed_by, places_of, AreJustified};
ghost use Rattle.golf_why.specs.Members.{member_at, members_before, IsPlacedIn};

use golf_base::{GoroutineId, List, Memory, ObjectId};
use golf_cert::Link;
use golf_model::Graph;
use std::alloc::Global;

/// An object or a goroutine of the live set.
#[derive(Clone, Copy, Debug, PartialEq, Eq)]
pub enum Member {
    Object(ObjectId),
    Goroutine(GoroutineId),
}

// The object of a node.
fn object(graph: &Graph, node: u32) -> Member
    requires { node < node_count graph.now }
    ensures { result ≡ member_at graph.now node }
{
    Member::Object(graph.number_of(node))
}

// The object or goroutine that a link places.
fn placed(graph: &Graph, link: Link) -> Member
    requires { IsPlacedIn graph.now link }
    ensures { result ≡ member_at graph.now (placed_by graph.now link) }
{
    match link {
        Link::Root(node) => object(graph, node),
        Link::Child { to, .. } => object(graph, to),
        Link::Woken { sleeper, .. } => Member::Goroutine(graph.goroutine_of(sleeper)),
        Link::Held { node, .. } => object(graph, node),
    }
}

/// Returns the members that the links of a reason place, in their order, without the last one.
pub(crate) fn before_last(
    alloc: Global,
    graph: &Graph,
    links: &[Link],
) -> Result<List<Member>, Memory>
    requires { AreJustified graph.now links.now }
    ensures { IfOk result (λ members. members ≡ members_before graph.now (places_of graph.now links.now)) }
{
    let _nodes = graph.nodes();
    let mut members = List::new(alloc);
    let before = &links[..links.len().saturating_sub(1)];
    for link in before {
        members.push(placed(graph, *link))?;
    }
    Ok(members)
}
