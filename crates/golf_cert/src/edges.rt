//! Finds which links of a certificate are edges of the graph, whatever places are placed before them.
//!
//! Each place stamps the places that it justifies. A link from that place is an edge exactly when its
//! target has the stamp.

ghost use Rattle.std.specs.Prelude.{◌^◌, ◌≡◌, ◌+◌, ◌<◌, ◌↔◌, ℕ, IfOk, OnOk, MatchOption, IsTrue, length, slice_get};
ghost use Rattle.std.specs.Prelude.{Some};
ghost use Rattle.golf_theory.specs.Membership.{Every};
ghost use Rattle.golf_model.specs.Graph.{sleeper_count, Justifies};
ghost use Rattle.golf_cert.specs.Edges.{source_of, IsEdge, IsStepOf, HasLeading, Enters, Stamps, FindsEdges, FindsOne};
ghost use Rattle.golf_cert.specs.Edges.{IsFinding, HasEdges};
ghost use Rattle.golf_cert.specs.Parents.{parent_in};
ghost use Rattle.golf_cert.specs.Steps.{place_count, HasSleeperRows};

use crate::links::Link;
use crate::steps::{places_in, referred, row};
use golf_base::{List, Memory};
use golf_model::Graph;
use golf_rows::{add_to_all, empty_rows};
use std::alloc::Global;

/// The source of a link, and the place that it places.
#[derive(Clone, Copy, Debug, PartialEq, Eq)]
pub(crate) struct Step {
    pub(crate) from: u32,
    pub(crate) to: u32,
}

/// Returns the link of this number.
pub(crate) fn link_at(links: &[Link], number: usize) -> Link
    requires { number < length links.now }
    ensures { slice_get links.now number ≡ Some result }
{
    links[number]
}

// The step from one node to another.
fn child_step(graph: &Graph, from: u32, to: u32) -> Option<Step>
    ensures { MatchOption result (IsEdge graph.now (Link.Child from to) → ⊥) (IsStepOf graph.now (Link.Child from to)) }
{
    let nodes = graph.nodes();
    if from >= nodes || to >= nodes {
        return None;
    }
    Some(Step { from, to })
}

// The step from a node to a sleeper.
fn woken_step(graph: &Graph, node: u32, sleeper: u32) -> Option<Step>
    ensures { MatchOption result (IsEdge graph.now (Link.Woken node sleeper) → ⊥) (IsStepOf graph.now (Link.Woken node sleeper)) }
{
    let nodes = graph.nodes();
    let sleepers = graph.sleepers();
    if node >= nodes || sleeper >= sleepers {
        return None;
    }
    Some(Step {
        from: node,
        to: nodes + sleeper,
    })
}

// The step from a sleeper to a node.
fn held_step(graph: &Graph, sleeper: u32, node: u32) -> Option<Step>
    ensures { MatchOption result (IsEdge graph.now (Link.Held sleeper node) → ⊥) (IsStepOf graph.now (Link.Held sleeper node)) }
{
    let nodes = graph.nodes();
    let sleepers = graph.sleepers();
    if sleeper >= sleepers || node >= nodes {
        return None;
    }
    Some(Step {
        from: nodes + sleeper,
        to: node,
    })
}

/// Returns the step of a link. A root link has none, nor has a link with a number out of range.
pub(crate) fn step_of(graph: &Graph, link: Link) -> Option<Step>
    ensures { MatchOption result (IsEdge graph.now link → ⊥) (IsStepOf graph.now link) }
{
    match link {
        Link::Root(_) => None,
        Link::Child { from, to } => child_step(graph, from, to),
        Link::Woken { node, sleeper } => woken_step(graph, node, sleeper),
        Link::Held { sleeper, node } => held_step(graph, sleeper, node),
    }
}

// Enters the number of a link in the row of its source.
fn enter(graph: &Graph, rows: &mut List<List<u32>>, number: u32, link: Link) -> Result<(), Memory>
    requires { length rows.old ≡ place_count graph.now }
    ensures length { length rows.new ≡ length rows.old }
    ensures ok { OnOk result (Enters graph.now link number rows.old rows.new) }
{
    let Some(step) = step_of(graph, link) else {
        return Ok(());
    };
    add_to_all(rows, number, &[step.from])?;
    Ok(())
}

// For each place the numbers of the links that lead from it.
fn leading_rows(alloc: Global, graph: &Graph, links: &[Link]) -> Result<List<List<u32>>, Memory>
    requires { length links.now < 2 ^ 32 }
    ensures { IfOk result (HasLeading graph.now links.now (length links.now)) }
{
    let mut rows = empty_rows(alloc, places_in(graph))?;
    for number in 0..links.len() {
        enter(graph, &mut rows, number as u32, link_at(links, number))?;
    }
    Ok(rows)
}

// Stamps these places with the place that justifies them.
fn stamp_all(stamps: &mut List<Option<u32>>, from: u32, places: &[u32])
    requires { Every (λ p. p < length stamps.old) places.now }
    ensures { Stamps from places.now stamps.old stamps.new }
{
    for place in places {
        stamps.set(*place as usize, Some(from));
    }
}

// The stamp of a place.
fn stamp_at(stamps: &[Option<u32>], place: u32) -> Option<u32>
    requires { place < length stamps.now }
    ensures { result ≡ parent_in stamps.now place }
{
    stamps[place as usize]
}

// Whether the link is an edge that leads from this place, which has stamped all places that it justifies.
fn is_from(graph: &Graph, stamps: &[Option<u32>], from: u32, link: Link) -> bool
    requires size { length stamps.now ≡ place_count graph.now }
    requires stamps { (p : ℕ) → (parent_in stamps.now p ≡ Some from) ↔ Justifies graph.now from p }
    ensures { IsTrue result ↔ (IsEdge graph.now link × (source_of graph.now link ≡ from)) }
{
    let Some(step) = step_of(graph, link) else {
        return false;
    };
    if step.from != from {
        return false;
    }
    stamp_at(stamps, step.to) == Some(from)
}

// Sets the flag of a link if it is an edge that leads from this place.
fn find(
    graph: &Graph,
    links: &[Link],
    stamps: &[Option<u32>],
    flags: &mut List<bool>,
    from: u32,
    number: u32,
)
    requires size { length stamps.now ≡ place_count graph.now }
    requires stamps { (p : ℕ) → (parent_in stamps.now p ≡ Some from) ↔ Justifies graph.now from p }
    requires count { length flags.old ≡ length links.now }
    requires number { number < length links.now }
    ensures { FindsOne graph.now links.now from number flags.old flags.new }
{
    let link = link_at(links, number as usize);
    if !is_from(graph, stamps, from, link) {
        return;
    }
    flags.set(number as usize, true);
}

// Sets the flags of the links among these that are edges and lead from this place.
fn find_all(
    graph: &Graph,
    links: &[Link],
    stamps: &[Option<u32>],
    flags: &mut List<bool>,
    from: u32,
    numbers: &[u32],
)
    requires size { length stamps.now ≡ place_count graph.now }
    requires stamps { (p : ℕ) → (parent_in stamps.now p ≡ Some from) ↔ Justifies graph.now from p }
    requires count { length flags.old ≡ length links.now }
    requires numbers { Every (λ i. i < length links.now) numbers.now }
    ensures { FindsEdges graph.now links.now from numbers.now flags.old flags.new }
{
    for number in numbers {
        find(graph, links, stamps, flags, from, *number);
    }
}

// Sets the flags of the edges that lead from a place.
fn find_from(
    graph: &Graph,
    rows: &List<List<u32>>,
    leading: &List<List<u32>>,
    links: &[Link],
    stamps: &mut List<Option<u32>>,
    flags: &mut List<bool>,
    place: u32,
)
    requires rows { HasSleeperRows graph.now (sleeper_count graph.now) rows.now }
    requires leading { HasLeading graph.now links.now (length links.now) leading.now }
    requires place { place < place_count graph.now }
    requires below { IsFinding graph.now links.now place stamps.old flags.old }
    ensures { IsFinding graph.now links.now (place + 1) stamps.new flags.new }
{
    let _places = places_in(graph);
    stamp_all(stamps, place, referred(graph, place));
    stamp_all(stamps, place, row(rows, place));
    find_all(
        graph,
        links,
        stamps.as_slice(),
        flags,
        place,
        row(leading, place),
    );
}

/// Returns for each link whether it is an edge of the graph.
pub(crate) fn edge_flags(
    alloc: Global,
    graph: &Graph,
    rows: &List<List<u32>>,
    links: &[Link],
) -> Result<List<bool>, Memory>
    requires rows { HasSleeperRows graph.now (sleeper_count graph.now) rows.now }
    requires small { length links.now < 2 ^ 32 }
    ensures { IfOk result (HasEdges graph.now links.now) }
{
    let places = places_in(graph);
    let leading = leading_rows(alloc, graph, links)?;
    let mut stamps = List::new(alloc);
    stamps.extend_with(places as usize, None)?;
    let mut flags = List::new(alloc);
    flags.extend_with(links.len(), false)?;
    for place in 0..places {
        find_from(graph, rows, &leading, links, &mut stamps, &mut flags, place);
    }
    Ok(flags)
}
