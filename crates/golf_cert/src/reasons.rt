//! The reasons of sleepers.
//!
//! The reason of a place is the shortest list from a root to it. If several are equally short, parents make
//! it unique.

ghost use Rattle.std.specs.Prelude.{◌≡◌, ◌+◌, ◌<◌, ◌↔◌, [], ◌∷◌, IfOk, IsSome, IfSome, MatchOption, length};
ghost use Rattle.std.specs.Prelude.{slice_index};
ghost use Rattle.golf_model.specs.Graph.{sleeper_count, sleeper_place, Justifies, Least};
ghost use Rattle.golf_cert.specs.ComputedLevels.{reason_in};
ghost use Rattle.golf_cert.specs.Levels.{IsReason, IsShortest};
ghost use Rattle.golf_cert.specs.Links.{placed_by, places_of, IsJustifiedBy, AreJustified};
ghost use Rattle.golf_cert.specs.Parents.{HasParents};
ghost use Rattle.golf_cert.specs.LevelWalk.{HasLevels};

use crate::links::Link;
use crate::parents::{parent_at, parents_of};
use crate::steps::{places_in, woken_rows};
use crate::walk::{Walk, walk_through};
use golf_base::{List, Memory};
use golf_model::Graph;
use std::alloc::Global;

/// Returns the link by which one place justifies another one.
pub(crate) fn link_between(graph: &Graph, parent: u32, place: u32) -> Link
    requires { Justifies graph.now parent place }
    ensures placed { placed_by graph.now result ≡ place }
    ensures justified { IsJustifiedBy graph.now (parent ∷ []) result }
{
    let nodes = graph.nodes();
    if parent >= nodes {
        Link::Held {
            sleeper: parent - nodes,
            node: place,
        }
    } else if place < nodes {
        Link::Child {
            from: parent,
            to: place,
        }
    } else {
        Link::Woken {
            node: parent,
            sleeper: place - nodes,
        }
    }
}

// The links from a root to a place, over parents.
fn links_to(
    alloc: Global,
    graph: &Graph,
    walk: &Walk,
    parents: &[Option<u32>],
    place: u32,
) -> Result<List<Link>, Memory>
    requires levels { HasLevels graph.now walk.now }
    requires parents { HasParents graph.now walk.now.levels parents.now }
    requires reached { 0 < slice_index walk.now.levels place }
    ensures reason { IfOk result (λ links. IsReason graph.now place (places_of graph.now links)) }
    ensures justified { IfOk result (AreJustified graph.now) }
{
    let mut links = Vec::with_capacity(alloc, walk.levels.as_slice()[place as usize])?;
    let mut at = place;
    while let Some(parent) = parent_at(parents, at) {
        links.push(link_between(graph, parent, at))?;
        at = parent;
    }
    links.push(Link::Root(at))?;
    links.reverse();
    Ok(List::from_vec(links))
}

/// The reasons of all sleepers of one graph, found in one walk. It takes about 20 bytes for each place.
#[derive(Drop)]
pub struct Reasons {
    pub(crate) walk: Walk,
    pub(crate) parents: List<Option<u32>>,
}

impl Reasons {
    ghost use Rattle.golf_cert.specs.Reasons.{HasReasons};

    /// Finds the level and the parent of each place of a graph. The time is linear in the graph. The only
    /// error is `Memory`.
    pub fn new(alloc: Global, graph: &Graph) -> Result<Reasons, Memory>
        ensures { IfOk result (HasReasons graph.now) }
    {
        let rows = woken_rows(alloc, graph)?;
        let walk = walk_through(alloc, graph, &rows)?;
        let parents = parents_of(alloc, graph, &rows, &walk)?;
        Ok(Reasons { walk, parents })
    }

    /// Returns the links of the reason of a sleeper, from a root to the sleeper. The root has level 1.
    /// Returns `None` if the sleeper is outside the least closed set. The graph is the one that `new` saw.
    ///
    /// The reason is a shortest list of places that ends with the sleeper. Each place except for the last
    /// is the smallest of its level that justifies the next one. The time is linear in the length of the
    /// reason. The only error is `Memory`.
    pub fn of(
        &self,
        alloc: Global,
        graph: &Graph,
        sleeper: u32,
    ) -> Result<Option<List<Link>>, Memory>
        requires graph { HasReasons graph.now self.now }
        requires sleeper { sleeper < sleeper_count graph.now }
        ensures found { IfOk result (λ found. IsSome found ↔ Least graph.now (sleeper_place graph.now sleeper)) }
        ensures reason { IfOk result (λ found. IfSome found (λ links. IsReason graph.now (sleeper_place graph.now sleeper) (places_of graph.now links))) }
        ensures computed { IfOk result (λ found. MatchOption found (reason_in graph.now sleeper ≡ []) (λ links. places_of graph.now links ≡ reason_in graph.now sleeper)) }
        ensures justified { IfOk result (λ found. IfSome found (AreJustified graph.now)) }
        ensures shortest { IfOk result (λ found. IfSome found (λ links. IsShortest graph.now (sleeper_place graph.now sleeper) (length links))) }
    {
        let place = graph.nodes() + sleeper;
        if self.walk.levels.as_slice()[place as usize] == 0 {
            return Ok(None);
        }
        let links = links_to(alloc, graph, &self.walk, self.parents.as_slice(), place)?;
        Ok(Some(links))
    }
}

/// Returns the links of the reason of one sleeper, as `Reasons::of` does. For many sleepers `Reasons::of`
/// is cheaper. The time is linear in the graph. The only error is `Memory`.
pub fn reason(alloc: Global, graph: &Graph, sleeper: u32) -> Result<Option<List<Link>>, Memory>
    requires { sleeper < sleeper_count graph.now }
    ensures found { IfOk result (λ found. IsSome found ↔ Least graph.now (sleeper_place graph.now sleeper)) }
    ensures reason { IfOk result (λ found. IfSome found (λ links. IsReason graph.now (sleeper_place graph.now sleeper) (places_of graph.now links))) }
    ensures computed { IfOk result (λ found. MatchOption found (reason_in graph.now sleeper ≡ []) (λ links. places_of graph.now links ≡ reason_in graph.now sleeper)) }
    ensures justified { IfOk result (λ found. IfSome found (AreJustified graph.now)) }
    ensures shortest { IfOk result (λ found. IfSome found (λ links. IsShortest graph.now (sleeper_place graph.now sleeper) (length links))) }
{
    let reasons = Reasons::new(alloc, graph)?;
    let found = reasons.of(alloc, graph, sleeper)?;
    Ok(found)
}
