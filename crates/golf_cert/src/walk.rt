//! The levels of all places, by a breadth-first walk.
//!
//! The level of a place is the length of the shortest list from a root to it.

ghost use Rattle.std.specs.Prelude.{◌^◌, ◌≡◌, ◌+◌, ◌<◌, IfOk, OnOk, length, slice_get, slice_index};
ghost use Rattle.golf_theory.specs.Membership.{Every};
ghost use Rattle.golf_model.specs.Graph.{sleeper_count};
ghost use Rattle.golf_rows.specs.Rows.{row_of};
ghost use Rattle.golf_cert.specs.Steps.{place_count, referred_by, HasSleeperRows};
ghost use Rattle.golf_cert.specs.LevelWalk.{claimed, claimed_all, HasLevels};

use crate::steps::{places_in, referred, row};
use golf_base::{List, Memory};
use golf_model::Graph;
use std::alloc::Global;

/// A walk over the least closed set.
#[derive(Drop)]
pub(crate) struct Walk {
    /// For each place its level, from 1 up to the count of places, or 0 if it has none.
    pub(crate) levels: List<usize>,
    /// The places that have a level, each once, by rising level.
    pub(crate) order: List<u32>,
}

/// Returns the level after that of a place: any place that it justifies has this level or a lower one.
pub(crate) fn next_level(levels: &[usize], place: u32) -> usize
    requires place { place < length levels.now }
    requires small { slice_index levels.now place < 2 ^ 32 }
    ensures { result ≡ slice_index levels.now place + 1 }
{
    levels[place as usize] + 1
}

// Gives a place this level, if it has none.
fn claim(walk: &mut Walk, level: usize, place: u32) -> Result<(), Memory>
    requires { place < length walk.old.levels }
    ensures ok { OnOk result (walk.new ≡ claimed level place walk.old) }
{
    if walk.levels.as_slice()[place as usize] == 0 {
        walk.levels.set(place as usize, level);
        walk.order.push(place)?;
    }
    Ok(())
}

// Gives this level to those of these places that have none.
fn claim_all(walk: &mut Walk, level: usize, places: &[u32]) -> Result<(), Memory>
    requires { Every (λ p. p < length walk.old.levels) places.now }
    ensures ok { OnOk result (walk.new ≡ claimed_all level places.now walk.old) }
{
    for place in places {
        claim(walk, level, *place)?;
    }
    Ok(())
}

// Gives this level to all places that a place justifies and that have none.
fn scan(
    graph: &Graph,
    rows: &List<List<u32>>,
    walk: &mut Walk,
    level: usize,
    place: u32,
) -> Result<(), Memory>
    requires rows { HasSleeperRows graph.now (sleeper_count graph.now) rows.now }
    requires size { length walk.old.levels ≡ place_count graph.now }
    requires place { place < place_count graph.now }
    ensures ok { OnOk result (walk.new ≡ claimed_all level (row_of rows.now place) (claimed_all level (referred_by graph.now place) walk.old)) }
{
    let _nodes = graph.nodes();
    claim_all(walk, level, referred(graph, place))?;
    claim_all(walk, level, row(rows, place))?;
    Ok(())
}

// The place at this index of the list, or `None`.
fn place_at(order: &[u32], turn: usize) -> Option<u32>
    ensures { result ≡ slice_get order.now turn }
{
    order.get(turn).copied()
}

/// Walks over the least closed set breadth first: the roots, and after each place the places that it
/// justifies.
pub(crate) fn walk_through(
    alloc: Global,
    graph: &Graph,
    rows: &List<List<u32>>,
) -> Result<Walk, Memory>
    requires { HasSleeperRows graph.now (sleeper_count graph.now) rows.now }
    ensures { IfOk result (HasLevels graph.now) }
{
    let mut levels = List::new(alloc);
    levels.extend_with(places_in(graph) as usize, 0)?;
    let mut walk = Walk {
        levels,
        order: List::new(alloc),
    };
    claim_all(&mut walk, 1, graph.roots())?;
    let mut turn = 0;
    while let Some(place) = place_at(walk.order.as_slice(), turn) {
        let level = next_level(walk.levels.as_slice(), place);
        scan(graph, rows, &mut walk, level, place)?;
        turn += 1;
    }
    Ok(walk)
}
