//! The places that each place of a graph justifies: those that it refers to, and the sleepers that wait on
//! it.

ghost use Rattle.std.specs.Prelude.{◌^◌, ◌≡◌, ◌+◌, ◌<◌, IfOk};
ghost use Rattle.golf_model.specs.Graph.{sleeper_count, IsInRange};
ghost use Rattle.golf_rows.specs.Rows.{row_of};
ghost use Rattle.golf_cert.specs.Steps.{place_count, referred_by, HasSleeperRows};

use golf_base::{List, Memory};
use golf_model::Graph;
use golf_rows::{add_to_all, empty_rows};
use std::alloc::Global;

/// Returns how many places the graph has.
pub(crate) fn places_in(graph: &Graph) -> u32
    ensures count { result ≡ place_count graph.now }
    ensures small { place_count graph.now < 2 ^ 32 }
    ensures in_range { IsInRange graph.now }
{
    graph.nodes() + graph.sleepers()
}

/// Returns for each node the places of the sleepers that wait on it.
pub(crate) fn woken_rows(alloc: Global, graph: &Graph) -> Result<List<List<u32>>, Memory>
    ensures { IfOk result (HasSleeperRows graph.now (sleeper_count graph.now)) }
{
    let nodes = graph.nodes();
    let mut rows = empty_rows(alloc, nodes)?;
    for sleeper in 0..graph.sleepers() {
        add_to_all(&mut rows, nodes + sleeper, graph.waits(sleeper))?;
    }
    Ok(rows)
}

/// Returns the children of a node, or the references of a sleeper.
pub(crate) fn referred(graph: &Graph, place: u32) -> &[u32]
    requires { place < place_count graph.now }
    ensures { result.now ≡ referred_by graph.now place }
{
    let nodes = graph.nodes();
    if place < nodes {
        graph.children(place)
    } else {
        graph.references(place - nodes)
    }
}

/// Returns the row of a place, or an empty one if there is none.
pub(crate) fn row(rows: &List<List<u32>>, place: u32) -> &[u32]
    ensures { result.now ≡ row_of rows.now place }
{
    match rows.as_slice().get(place as usize) {
        Some(row) => row.as_slice(),
        None => &[],
    }
}
