//! The goroutines of a state: those that are live at once, and the sleepers.
//!
//! A sleeper is a blocked goroutine other than goroutine 0. All other goroutines are live at once, and
//! their references are roots.

ghost use Rattle.std.specs.Prelude.{◌≡◌, ◌++◌, ◌∷◌, [], IfOk, OnOk, map};
ghost use Rattle.golf_theory.specs.Maps.{find};
ghost use Rattle.golf_model.specs.Views.{goroutine_view};
ghost use Rattle.golf_model.specs.Refs.{queue_refs};
ghost use Rattle.golf_snapshot.specs.Parts.{ranks, is_awake, awake_refs, sleeping, sleeper_of};
ghost use Rattle.golf_snapshot.specs.MapEntries.{entry_at, sleepers_of};

use crate::references::{add_goroutine, add_waited, waits_of};
use golf_base::{GoroutineId, List, Memory};
use golf_data::{Goroutine, Mode, Queued};
use golf_heap::Heap;
use golf_model::Sleepers;
use golf_state::State;
use std::alloc::Global;

/// Adds the nodes of the finaliser queue.
pub(crate) fn add_queue(heap: &Heap, nodes: &mut List<u32>, queue: &[Queued]) -> Result<(), Memory>
    ensures { OnOk result (nodes.new ≡ nodes.old ++ ranks heap.now.objects (queue_refs queue.now)) }
{
    for queued in queue {
        nodes.push(heap.rank(queued.object))?;
    }
    Ok(())
}

/// Adds the nodes of the goroutines that are live at once. Returns all other goroutines as sleepers, in
/// rising order of number.
pub(crate) fn add_awake(
    alloc: Global,
    state: &State,
    nodes: &mut List<u32>,
) -> Result<Sleepers, Memory>
    ensures nodes { OnOk result (nodes.new ≡ nodes.old ++ ranks state.now.objects (awake_refs state.now.goroutines)) }
    ensures sleepers { IfOk result (λ sleepers. sleepers ≡ map (sleeper_of state.now.objects) (sleeping state.now)) }
{
    let mut sleepers = Sleepers::new(alloc);
    let goroutines = state.goroutines(alloc)?;
    for g in goroutines.as_slice() {
        add_one(alloc, state, nodes, &mut sleepers, *g)?;
    }
    Ok(sleepers)
}

// Adds the nodes of the goroutine of this number if it is live at once. Else adds it to the sleepers.
fn add_one(
    alloc: Global,
    state: &State,
    nodes: &mut List<u32>,
    sleepers: &mut Sleepers,
    g: GoroutineId,
) -> Result<(), Memory>
    ensures nodes { OnOk result (nodes.new
        ≡ nodes.old ++ ranks state.now.objects (awake_refs (entry_at g.0 (find g.0 state.now.goroutines)))) }
    ensures sleepers { OnOk result (sleepers.new
        ≡ sleepers.old ++ sleepers_of state.now.objects (entry_at g.0 (find g.0 state.now.goroutines))) }
{
    match state.goroutine(g) {
        Some(goroutine) => {
            if is_awake(g, goroutine) {
                add_goroutine(state.heap(), nodes, goroutine)
            } else {
                add_sleeper(alloc, state.heap(), sleepers, g, goroutine)
            }
        }
        None => Ok(()),
    }
}

// Whether a goroutine is live at once: it runs, or it is goroutine 0.
fn is_awake(g: GoroutineId, goroutine: &Goroutine) -> bool
    ensures { result ≡ is_awake g.0 (goroutine_view goroutine.now) }
{
    match goroutine.mode {
        Mode::Running => true,
        Mode::Blocked { .. } => g.0 == 0,
    }
}

// Adds a goroutine as a sleeper.
fn add_sleeper(
    alloc: Global,
    heap: &Heap,
    sleepers: &mut Sleepers,
    g: GoroutineId,
    goroutine: &Goroutine,
) -> Result<(), Memory>
    ensures { OnOk result (sleepers.new ≡ sleepers.old ++ sleeper_of heap.now.objects (g.0, goroutine_view goroutine.now) ∷ []) }
{
    let mut waits = List::new(alloc);
    add_waited(heap, &mut waits, waits_of(&goroutine.mode))?;
    let mut references = List::new(alloc);
    add_goroutine(heap, &mut references, goroutine)?;
    sleepers.push(g, waits.as_slice(), references.as_slice())
}
