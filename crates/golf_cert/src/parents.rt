//! The parent of each place: the smallest place of the level below that justifies it.
//!
//! A root has no parent.

ghost use Rattle.std.specs.Prelude.{◌^◌, ◌≡◌, ◌+◌, ◌<◌, IfOk, length, slice_index};
ghost use Rattle.golf_theory.specs.Membership.{Every};
ghost use Rattle.golf_model.specs.Graph.{sleeper_count};
ghost use Rattle.golf_cert.specs.Steps.{place_count, HasSleeperRows};
ghost use Rattle.golf_cert.specs.LevelWalk.{HasLevels};
ghost use Rattle.golf_cert.specs.Parents.{adopted, adopted_all, parent_in, HasParents, HasParentsBelow};

use crate::steps::{places_in, referred, row};
use crate::walk::{Walk, next_level};
use golf_base::{List, Memory};
use golf_model::Graph;
use std::alloc::Global;

// Makes a place the parent of another one, if that is of the next level and has no parent.
fn adopt(parents: &mut List<Option<u32>>, levels: &[usize], parent: u32, place: u32)
    requires size { length parents.old ≡ length levels.now }
    requires parent { parent < length levels.now }
    requires place { place < length levels.now }
    requires small { slice_index levels.now parent < 2 ^ 32 }
    ensures { parents.new ≡ adopted levels.now parent place parents.old }
{
    let next = next_level(levels, parent);
    if levels[place as usize] == next && parents.as_slice()[place as usize].is_none() {
        parents.set(place as usize, Some(parent));
    }
}

// Makes a place the parent of those of these places that are of the next level and have no parent.
fn adopt_all(parents: &mut List<Option<u32>>, levels: &[usize], parent: u32, places: &[u32])
    requires size { length parents.old ≡ length levels.now }
    requires parent { parent < length levels.now }
    requires places { Every (λ p. p < length levels.now) places.now }
    requires small { slice_index levels.now parent < 2 ^ 32 }
    ensures { parents.new ≡ adopted_all levels.now parent places.now parents.old }
{
    for place in places {
        adopt(parents, levels, parent, *place);
    }
}

// Makes a place the parent of all places that it leads to and that have no parent.
fn adopt_from(
    graph: &Graph,
    rows: &List<List<u32>>,
    walk: &Walk,
    parents: &mut List<Option<u32>>,
    place: u32,
)
    requires rows { HasSleeperRows graph.now (sleeper_count graph.now) rows.now }
    requires levels { HasLevels graph.now walk.now }
    requires place { place < place_count graph.now }
    requires below { HasParentsBelow graph.now walk.now.levels place (λ _. ⊥) parents.old }
    ensures { HasParentsBelow graph.now walk.now.levels (place + 1) (λ _. ⊥) parents.new }
{
    let _places = places_in(graph);
    let levels = walk.levels.as_slice();
    if levels[place as usize] > 0 {
        adopt_all(parents, levels, place, referred(graph, place));
        adopt_all(parents, levels, place, row(rows, place));
    }
}

/// Returns the parent of each place. It walks over the places in rising order, so the first place that
/// justifies another one is the smallest.
pub(crate) fn parents_of(
    alloc: Global,
    graph: &Graph,
    rows: &List<List<u32>>,
    walk: &Walk,
) -> Result<List<Option<u32>>, Memory>
    requires rows { HasSleeperRows graph.now (sleeper_count graph.now) rows.now }
    requires levels { HasLevels graph.now walk.now }
    ensures { IfOk result (HasParents graph.now walk.now.levels) }
{
    let places = places_in(graph);
    let mut parents = List::new(alloc);
    parents.extend_with(places as usize, None)?;
    for place in 0..places {
        adopt_from(graph, rows, walk, &mut parents, place);
    }
    Ok(parents)
}

/// Returns the parent of a place, or `None`.
pub(crate) fn parent_at(parents: &[Option<u32>], place: u32) -> Option<u32>
    requires { place < length parents.now }
    ensures { result ≡ parent_in parents.now place }
{
    parents[place as usize]
}
