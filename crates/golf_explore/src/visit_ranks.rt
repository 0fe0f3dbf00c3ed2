//! Ranks of visits: numbers that fall along each edge. If visits have ranks, each run ends.
//!
//! A walk finds the ranks, and nothing is proved of it. `fall` looks at each edge.

ghost use Rattle.std.specs.Prelude.{◌≡◌, true, slice_get, IfOk};
ghost use Rattle.golf_explore.specs.Ranks.{AreLower, Fall, HaveRanks, LeadsLower};

use crate::visits::Edge;
use golf_base::{List, Memory};
use std::alloc::Global;

/// The rank of a visit that the walk has not entered.
const UNSEEN: u64 = 0;

/// The rank of a visit that the walk has entered and not left. An edge to it closes a cycle.
const OPEN: u64 = u64::MAX;

// A visit that the walk has entered, and the place of the edge that it takes next.
#[derive(Clone, Copy)]
struct Stop {
    at: u32,
    next: u32,
}

// A depth-first walk along the edges.
#[derive(Drop)]
struct Walk<'a> {
    // The edges of each visit.
    edges: &'a [List<Edge>],
    // The rank of each visit.
    ranks: List<u64>,
    // The visits from the first one to the one where the walk is.
    stops: List<Stop>,
}

impl<'a> Walk<'a> {
    // The walk before its first visit.
    fn new(alloc: Global, edges: &'a [List<Edge>]) -> Result<Walk<'a>, Memory> {
        let mut ranks = List::new(alloc);
        ranks.extend_with(edges.len(), UNSEEN)?;
        Ok(Walk {
            edges,
            ranks,
            stops: List::new(alloc),
        })
    }

    // The rank of a visit so far.
    fn rank_of(&self, at: u32) -> u64 {
        rank_at(self.ranks.as_slice(), at as usize).unwrap_or(UNSEEN)
    }

    // Gives a visit a rank.
    fn set_rank(&mut self, at: u32, rank: u64) {
        let place = at as usize;
        if place < self.ranks.len() {
            self.ranks.set(place, rank);
        }
    }

    // Enters a visit.
    fn enter(&mut self, at: u32) -> Result<(), Memory> {
        self.set_rank(at, OPEN);
        self.stops.push(Stop { at, next: 0 })
    }

    // The edge that the walk takes next, or `None` if it has taken all of this visit.
    fn edge_at(&self, stop: Stop) -> Option<Edge> {
        let edges = self.edges.get(stop.at as usize)?;
        edges.as_slice().get(stop.next as usize).copied()
    }

    // The lowest rank from which each edge of a visit falls.
    fn rank_above(&self, at: u32) -> u64 {
        let Some(edges) = self.edges.get(at as usize) else {
            return 1;
        };
        let mut rank = 0u64;
        for edge in edges.as_slice() {
            rank = rank.max(self.rank_of(edge.to).saturating_add(edge.turns));
        }
        rank.saturating_add(1)
    }

    // Takes one more edge, or leaves the visit where the walk is. Returns whether the edge closes no cycle.
    fn go_on(&mut self) -> Result<bool, Memory> {
        let Some(stop) = self.stops.pop() else {
            return Ok(true);
        };
        let Some(edge) = self.edge_at(stop) else {
            let rank = self.rank_above(stop.at);
            self.set_rank(stop.at, rank);
            return Ok(true);
        };
        self.stops.push(Stop {
            at: stop.at,
            next: stop.next.saturating_add(1),
        })?;
        let rank = self.rank_of(edge.to);
        if rank == UNSEEN {
            self.enter(edge.to)?;
        }
        Ok(rank != OPEN)
    }
}

// Ranks of the visits that have these edges, or `None` if the edges have a cycle. The time is linear.
fn ranks(alloc: Global, edges: &[List<Edge>]) -> Result<Option<List<u64>>, Memory> {
    let mut walk = Walk::new(alloc, edges)?;
    walk.enter(0)?;
    for _ in 0..u64::MAX {
        if walk.stops.is_empty() {
            let Walk {
                edges: _,
                ranks,
                stops: _,
            } = walk;
            return Ok(Some(ranks));
        }
        if !walk.go_on()? {
            return Ok(None);
        }
    }
    Ok(None)
}

// The rank of the visit at this place, or `None` if it has none.
fn rank_at(ranks: &[u64], at: usize) -> Option<u64>
    ensures { result ≡ slice_get ranks.now at }
{
    ranks.get(at).copied()
}

// Whether an edge leads to a visit whose rank is more than as many turns below this one.
fn is_lower(edge: Edge, rank: u64, ranks: &[u64]) -> bool
    ensures { result ≡ true → LeadsLower ranks.now rank edge }
{
    let Some(low) = rank_at(ranks, edge.to as usize) else {
        return false;
    };
    match low.checked_add(edge.turns) {
        Some(sum) => sum < rank,
        None => false,
    }
}

// Whether each of these edges of a visit with this rank falls.
fn are_lower(edges: &[Edge], rank: u64, ranks: &[u64]) -> bool
    ensures { result ≡ true → AreLower ranks.now rank edges.now }
{
    for edge in edges {
        if !is_lower(*edge, rank, ranks) {
            return false;
        }
    }
    true
}

// Whether each visit has a rank, and each of its edges falls.
fn fall(edges: &[List<Edge>], ranks: &[u64]) -> bool
    ensures { result ≡ true → Fall edges.now ranks.now }
{
    for at in 0..edges.len() {
        let Some(rank) = rank_at(ranks, at) else {
            return false;
        };
        if !are_lower(edges[at].as_slice(), rank, ranks) {
            return false;
        }
    }
    true
}

/// Returns whether the visits that have these edges have ranks. If not, nothing is claimed.
pub(crate) fn have_ranks(alloc: Global, edges: &[List<Edge>]) -> Result<bool, Memory>
    ensures { IfOk result (λ have. have ≡ true → HaveRanks edges.now) }
{
    match ranks(alloc, edges)? {
        Some(ranks) => Ok(fall(edges, ranks.as_slice())),
        None => Ok(false),
    }
}
