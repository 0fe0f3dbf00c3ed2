//! Marking in one thread.
//!
//! The list of marked places, in the order of marking, is also the worklist.

ghost use Rattle.std.specs.Prelude.{IfOk};
ghost use Rattle.golf_mark.specs.MarkingResult.{MarksLeast};

use crate::waiters::Waiters;
use crate::work::{Sheet, Work, scan};
use golf_base::{Gate, Memory};
use golf_model::{Graph, Marked};
use std::alloc::Global;

/// Marks the least closed set of a graph, in one thread. The only error is `Memory`.
///
/// It first marks the roots. Then each turn takes one marked place and marks all places that it justifies,
/// also the sleepers that wait on it. So it scans each place once. It passes the gate as marker 0 before
/// each turn, also before the last one, which finds no place. Turns count from 0.
pub fn mark_alone<G: Gate>(alloc: Global, graph: &Graph, gate: &G) -> Result<Marked, Memory>
    ensures { IfOk result (MarksLeast graph.now) }
{
    let waiters = Waiters::new(alloc, graph)?;
    let nodes = graph.nodes();
    let sleepers = graph.sleepers();
    let mut work = Work::new(alloc, nodes + sleepers)?;
    let sheet = Sheet::new(alloc, nodes, sleepers)?;
    work.claim_all(graph.roots());
    let mut turn = 0;
    gate.pass(0, 0);
    while let Some(place) = work.get(turn) {
        scan(graph, &waiters, &mut work, place);
        turn += 1;
        gate.pass(0, turn as u64);
    }
    Ok(work.into_marked(sheet))
}
