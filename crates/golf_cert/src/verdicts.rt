//! The check of certificates. It marks nothing: it only follows the links and looks for a missing place.

ghost use Rattle.std.specs.Prelude.{◌^◌, ◌≡◌, ◌<◌, ◌↔◌, ℕ, IfOk, MatchOption, IsTrue, length};
ghost use Rattle.golf_theory.specs.Membership.{In};
ghost use Rattle.golf_model.specs.Graph.{sleeper_count};
ghost use Rattle.golf_cert.specs.Edges.{IsEdge};
ghost use Rattle.golf_marks.specs.Flags.{IsSet};
ghost use Rattle.golf_cert.specs.Links.{IsClosedSet, IsVerdictOn};
ghost use Rattle.golf_cert.specs.Steps.{place_count, HasSleeperRows};
ghost use Rattle.golf_cert.specs.Verification.{IsPlacedOn, IsUnrooted, TellsPlace};

use crate::edges::{edge_flags, link_at, step_of};
use crate::flags::{are_set, flags_of, is_set};
use crate::links::{Certificate, Link, Verdict};
use crate::steps::{places_in, referred, row, woken_rows};
use golf_base::{List, Memory};
use golf_model::Graph;
use std::alloc::Global;

// Whether all places that a place justifies are placed, or the place itself is not placed.
fn is_scanned(graph: &Graph, rows: &List<List<u32>>, placed: &[bool], place: u32) -> bool
    requires rows { HasSleeperRows graph.now (sleeper_count graph.now) rows.now }
    requires place { place < place_count graph.now }
    ensures { IsTrue result ↔ IsPlacedOn graph.now placed.now place }
{
    let _places = places_in(graph);
    if !is_set(placed, place) {
        return true;
    }
    if !are_set(placed, referred(graph, place)) {
        return false;
    }
    are_set(placed, row(rows, place))
}

// Whether the roots are placed, and all places that a placed place justifies.
fn is_closed(graph: &Graph, rows: &List<List<u32>>, placed: &[bool]) -> bool
    requires rows { HasSleeperRows graph.now (sleeper_count graph.now) rows.now }
    requires size { length placed.now ≡ place_count graph.now }
    ensures { IsTrue result ↔ IsClosedSet graph.now (IsSet placed.now) }
{
    if !are_set(placed, graph.roots()) {
        return false;
    }
    for place in 0..places_in(graph) {
        if !is_scanned(graph, rows, placed, place) {
            return false;
        }
    }
    true
}

// The node if it is a root, or `None`.
fn root_by(roots: &[bool], node: u32) -> Option<u32>
    ensures { MatchOption result (IsSet roots.now node → ⊥) (λ place. (place ≡ node) × IsSet roots.now node) }
{
    if !is_set(roots, node) {
        return None;
    }
    Some(node)
}

// The place of a link other than a root link if the link is justified, or `None`.
fn step_by(graph: &Graph, placed: &[bool], link: Link, is_edge: bool) -> Option<u32>
    requires unrooted { IsUnrooted link }
    requires edge { IsTrue is_edge ↔ IsEdge graph.now link }
    ensures { TellsPlace graph.now (IsSet placed.now) link result }
{
    let Some(step) = step_of(graph, link) else {
        return None;
    };
    if !is_edge {
        return None;
    }
    if !is_set(placed, step.from) {
        return None;
    }
    Some(step.to)
}

// The place of a link if the link is justified, or `None`.
fn place_by(
    graph: &Graph,
    roots: &[bool],
    placed: &[bool],
    link: Link,
    is_edge: bool,
) -> Option<u32>
    requires roots { (p : ℕ) → IsSet roots.now p ↔ In p graph.now.roots }
    requires edge { IsTrue is_edge ↔ IsEdge graph.now link }
    ensures { TellsPlace graph.now (IsSet placed.now) link result }
{
    let _places = places_in(graph);
    match link {
        Link::Root(node) => root_by(roots, node),
        Link::Child { .. } => step_by(graph, placed, link, is_edge),
        Link::Woken { .. } => step_by(graph, placed, link, is_edge),
        Link::Held { .. } => step_by(graph, placed, link, is_edge),
    }
}

/// Checks a certificate of fewer than 2^32 links against its graph.
///
/// It returns `Proved` exactly when each link is justified by the links before it and no place is missing.
/// Then the places are exactly the least closed set. Otherwise `Refused` has the number of the first link
/// that is not justified, from 0. If only a place is missing, it has the count of all links.
///
/// The time is linear in the graph and the certificate. The only error is `Memory`.
pub fn verify(alloc: Global, graph: &Graph, certificate: &Certificate) -> Result<Verdict, Memory>
    requires { length certificate.now.links < 2 ^ 32 }
    ensures { IfOk result (IsVerdictOn graph.now certificate.now.links) }
{
    let places = places_in(graph);
    let rows = woken_rows(alloc, graph)?;
    let roots = flags_of(alloc, places, graph.roots())?;
    let links = certificate.links.as_slice();
    let edges = edge_flags(alloc, graph, &rows, links)?;
    let mut placed = List::new(alloc);
    placed.extend_with(places as usize, false)?;
    for number in 0..links.len() {
        let is_edge = is_set(edges.as_slice(), number as u32);
        match place_by(
            graph,
            roots.as_slice(),
            placed.as_slice(),
            link_at(links, number),
            is_edge,
        ) {
            Some(place) => placed.set(place as usize, true),
            None => return Ok(Verdict::Refused(number as u32)),
        }
    }
    if !is_closed(graph, &rows, placed.as_slice()) {
        return Ok(Verdict::Refused(links.len() as u32));
    }
    Ok(Verdict::Proved)
}
