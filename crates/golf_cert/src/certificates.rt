//! Certificates of markings.
//!
//! A certificate lists the places of the least closed set by rising level. Each link follows from the links
//! before it.

ghost use Rattle.std.specs.Prelude.{◌^◌, ◌≡◌, ◌-◌, ◌<◌, ◌≤◌, ◌↔◌, ℕ, IfOk, OnOk, IsTrue, length, slice_index};
ghost use Rattle.golf_theory.specs.Counts.{times};
ghost use Rattle.golf_model.specs.Graph.{node_count, Least};
ghost use Rattle.golf_marks.specs.Flags.{IsSet};
ghost use Rattle.golf_cert.specs.ComputedLevels.{least_in_order};
ghost use Rattle.golf_cert.specs.Links.{placed_by, places_of, AreJustified, ContainsLeast, CoversLeast};
ghost use Rattle.golf_cert.specs.Parents.{HasParents, IsLinkTo, AddsLink};
ghost use Rattle.golf_cert.specs.Steps.{place_count};
ghost use Rattle.golf_cert.specs.LevelWalk.{HasLevels};

use crate::flags::is_set;
use crate::links::{Certificate, Link};
use crate::parents::{parent_at, parents_of};
use crate::reasons::link_between;
use crate::steps::{places_in, woken_rows};
use crate::walk::{Walk, walk_through};
use golf_base::{List, Memory};
use golf_model::{Graph, Marked};
use std::alloc::Global;

// Whether a place is marked.
fn is_marked(graph: &Graph, marked: &Marked, place: u32) -> bool
    requires { place < place_count graph.now }
    ensures node { place < node_count graph.now → IsTrue result ↔ IsSet marked.now.flags place }
    ensures sleeper { node_count graph.now ≤ place → IsTrue result ↔ IsSet marked.now.awake (place - node_count graph.now) }
{
    let nodes = graph.nodes();
    let _places = places_in(graph);
    if place < nodes {
        is_set(marked.flags.as_slice(), place)
    } else {
        is_set(marked.awake.as_slice(), place - nodes)
    }
}

// The link from a place's parent to the place, or a root link if the place has no parent.
fn link_to(graph: &Graph, walk: &Walk, parents: &[Option<u32>], place: u32) -> Link
    requires levels { HasLevels graph.now walk.now }
    requires parents { HasParents graph.now walk.now.levels parents.now }
    requires reached { 0 < slice_index walk.now.levels place }
    ensures placed { placed_by graph.now result ≡ place }
    ensures justified { IsLinkTo graph.now walk.now.levels place result }
{
    let _levels = walk.levels.as_slice();
    match parent_at(parents, place) {
        Some(parent) => link_between(graph, parent, place),
        None => Link::Root(place),
    }
}

// Adds the link of a place if it is marked.
fn add_link(
    graph: &Graph,
    marked: &Marked,
    walk: &Walk,
    parents: &[Option<u32>],
    links: &mut List<Link>,
    place: u32,
) -> Result<(), Memory>
    requires flags { CoversLeast graph.now marked.now }
    requires levels { HasLevels graph.now walk.now }
    requires parents { HasParents graph.now walk.now.levels parents.now }
    requires reached { 0 < slice_index walk.now.levels place }
    ensures ok { OnOk result (AddsLink graph.now walk.now.levels place links.old links.new) }
{
    let marked_here = is_marked(graph, marked, place);
    if !marked_here {
        return Ok(());
    }
    links.push(link_to(graph, walk, parents, place))?;
    Ok(())
}

// The links of the marked places, by rising level.
fn links_of(
    alloc: Global,
    graph: &Graph,
    marked: &Marked,
    walk: &Walk,
    parents: &[Option<u32>],
) -> Result<List<Link>, Memory>
    requires flags { CoversLeast graph.now marked.now }
    requires levels { HasLevels graph.now walk.now }
    requires parents { HasParents graph.now walk.now.levels parents.now }
    ensures justified { IfOk result (AreJustified graph.now) }
    ensures places { IfOk result (λ links. places_of graph.now links ≡ walk.now.order) }
{
    let order = walk.order.as_slice();
    let mut links = List::new(alloc);
    for place in order {
        add_link(graph, marked, walk, parents, &mut links, *place)?;
    }
    Ok(links)
}

/// Returns the certificate of a marking that has all places of the least closed set.
///
/// - Exactly one link places each place of that set.
/// - Each link is justified by the links before it.
/// - No place is missing. So `verify` returns `Proved`.
///
/// There are as many links as that set has places, fewer than 2^32, by rising level of their places. The
/// time is linear in the graph. The only error is `Memory`.
pub fn certify(alloc: Global, graph: &Graph, marked: &Marked) -> Result<Certificate, Memory>
    requires { CoversLeast graph.now marked.now }
    ensures justified { IfOk result (λ c. AreJustified graph.now c.links) }
    ensures placed { IfOk result (λ c. (p : ℕ) → Least graph.now p → times p (places_of graph.now c.links) ≡ 1) }
    ensures closed { IfOk result (λ c. ContainsLeast graph.now (places_of graph.now c.links)) }
    ensures count { IfOk result (λ c. length c.links ≡ length (least_in_order graph.now)) }
    ensures few { IfOk result (λ c. length c.links < 2 ^ 32) }
{
    let _places = places_in(graph);
    let rows = woken_rows(alloc, graph)?;
    let walk = walk_through(alloc, graph, &rows)?;
    let parents = parents_of(alloc, graph, &rows, &walk)?;
    let links = links_of(alloc, graph, marked, &walk, parents.as_slice())?;
    Ok(Certificate { links })
}
