//! The keep rule, for all sleepers in one walk.
//!
//! A dead goroutine is kept if it reaches an object that its removal could let a finaliser run on.

ghost use Rattle.std.specs.Prelude.{◌≡◌, ◌<◌, ◌↔◌, ℕ, IfOk, OnOk, IsTrue, length};
ghost use Rattle.golf_theory.specs.Membership.{In};
ghost use Rattle.golf_model.specs.Graph.{IsInRange, node_count, sleeper_count};
ghost use Rattle.golf_marks.specs.Flags.{IsSet};
ghost use Rattle.golf_final.specs.KeepRule.{HasKept, KeepsOf, Prevents};
ghost use Rattle.golf_final.specs.Backward.{IsBackward, HasNumbers};

use golf_base::{List, Memory, ObjectId, OpenGate};
use golf_mark::mark_alone;
use golf_model::{Graph, GraphParts, Marked, Sleepers};
use std::alloc::Global;

/// Returns whether a flag is set. A number past the last flag counts as not set.
pub(crate) fn is_set(flags: &[bool], at: u32) -> bool
    ensures { IsTrue result ↔ IsSet flags.now at }
{
    flags.get(at as usize) == Some(&true)
}

// Whether a node keeps each dead goroutine that reaches it.
fn prevents(graph: &Graph, flags: &[bool], sets_finalisers: bool, node: u32) -> bool
    requires { node < node_count graph.now }
    ensures { IsTrue result ↔ Prevents graph.now flags.now sets_finalisers node }
{
    if graph.finalised(node) {
        return true;
    }
    sets_finalisers && is_set(flags, node)
}

// The nodes that keep each dead goroutine that reaches them.
fn preventing(
    alloc: Global,
    graph: &Graph,
    flags: &[bool],
    sets_finalisers: bool,
) -> Result<List<u32>, Memory>
    ensures { IfOk result (λ nodes. (p : ℕ) → In p nodes ↔ ((p < node_count graph.now) × Prevents graph.now flags.now sets_finalisers p)) }
{
    let mut nodes = List::new(alloc);
    for node in 0..graph.nodes() {
        if prevents(graph, flags, sets_finalisers, node) {
            nodes.push(node)?;
        }
    }
    Ok(nodes)
}

// The numbers from 0 up to below `count`.
fn count_up(alloc: Global, count: u32) -> Result<List<ObjectId>, Memory>
    ensures { IfOk result (HasNumbers 0 count) }
{
    let mut numbers = List::new(alloc);
    for number in 0..count {
        numbers.push(ObjectId(number))?;
    }
    Ok(numbers)
}

// The graph with all edges reversed. Its roots are the nodes that keep each dead goroutine that reaches
// them.
fn backward(
    alloc: Global,
    graph: &Graph,
    flags: &[bool],
    sets_finalisers: bool,
) -> Result<Graph, Memory>
    requires { length flags.now ≡ node_count graph.now }
    ensures backward { IfOk result (IsBackward graph.now flags.now sets_finalisers) }
    ensures in_range { OnOk result (IsInRange graph.now) }
{
    let children = graph.parents(alloc)?;
    let roots = preventing(alloc, graph, flags, sets_finalisers)?;
    let numbers = count_up(alloc, graph.nodes())?;
    let mut finalised = List::new(alloc);
    finalised.extend_with(graph.nodes() as usize, false)?;
    Ok(Graph::new(GraphParts {
        numbers,
        children,
        finalised,
        roots,
        sleepers: Sleepers::new(alloc),
    }))
}

// Whether the flag of one of these nodes is set.
fn any_set(flags: &[bool], nodes: &[u32]) -> bool
    ensures { IsTrue result ↔ ((p : ℕ) × In p nodes.now × IsSet flags.now p) }
{
    for node in nodes {
        if is_set(flags, *node) {
            return true;
        }
    }
    false
}

// Whether a sleeper is not awake, and the flag of one of its references is set.
fn is_kept(leading: &[bool], awake: &[bool], sleeper: u32, references: &[u32]) -> bool
    ensures { IsTrue result ↔ ((IsSet awake.now sleeper → ⊥) × ((p : ℕ) × In p references.now × IsSet leading.now p)) }
{
    if is_set(awake, sleeper) {
        return false;
    }
    any_set(leading, references)
}

/// Returns for each sleeper of a graph whether it is kept (profile, keep rule). It is kept if it is not
/// awake, and reaches an object that has a finaliser. If the code sets finalisers, it is also kept if it
/// reaches a live object.
///
/// One walk over the reversed graph, from those objects, serves all sleepers. The only error is `Memory`.
pub fn keeps(
    alloc: Global,
    graph: &Graph,
    marked: &Marked,
    sets_finalisers: bool,
) -> Result<List<bool>, Memory>
    requires nodes { length marked.now.flags ≡ node_count graph.now }
    requires sleepers { length marked.now.awake ≡ sleeper_count graph.now }
    ensures kept { IfOk result (HasKept graph.now marked.now sets_finalisers) }
    ensures rule { IfOk result (KeepsOf graph.now marked.now sets_finalisers) }
{
    let backward = backward(alloc, graph, marked.flags.as_slice(), sets_finalisers)?;
    let leading = mark_alone(alloc, &backward, &OpenGate)?;
    let mut kept = List::new(alloc);
    for sleeper in 0..graph.sleepers() {
        let references = graph.references(sleeper);
        let flags = leading.flags.as_slice();
        kept.push(is_kept(flags, marked.awake.as_slice(), sleeper, references))?;
    }
    Ok(kept)
}
