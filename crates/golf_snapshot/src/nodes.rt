//! The nodes: one for each object that is there, by its rank.
//!
//! The row of a node has the nodes that its object refers to, one for each reference.

ghost use Rattle.std.specs.Prelude.{◌≡◌, ◌++◌, ◌<◌, IfOk, OnOk, map};
ghost use Rattle.golf_theory.specs.Maps.{find};
ghost use Rattle.golf_model.specs.Refs.{object_refs, has_finaliser, refs_where};
ghost use Rattle.golf_snapshot.specs.Parts.{ranks, number_of, row_of};
ghost use Rattle.golf_snapshot.specs.MapEntries.{entry_at, refs_at};

use crate::references::{add_buffer, add_value, add_values};
use golf_base::{List, Memory, ObjectId};
use golf_data::Object;
use golf_heap::Heap;
use golf_rows::FlatRows;
use golf_state::State;
use std::alloc::Global;

/// Returns the numbers of the objects, in rising order.
pub(crate) fn numbers(alloc: Global, heap: &Heap) -> Result<List<ObjectId>, Memory>
    ensures { IfOk result (λ numbers. numbers ≡ map number_of heap.now.objects) }
{
    let mut numbers = List::new(alloc);
    for rank in 0..heap.count() {
        numbers.push(heap.at(rank))?;
    }
    Ok(numbers)
}

/// Returns for each node the nodes that it refers to.
pub(crate) fn children(alloc: Global, heap: &Heap) -> Result<FlatRows, Memory>
    ensures { IfOk result (λ rows. rows ≡ map (row_of heap.now.objects) heap.now.objects) }
{
    let mut rows = FlatRows::new(alloc);
    let mut row = List::new(alloc);
    for rank in 0..heap.count() {
        fill_row(heap, &mut row, heap.at(rank))?;
        rows.push(row.as_slice())?;
    }
    Ok(rows)
}

// Fills a row with the nodes that the object of this number refers to, instead of its old contents.
fn fill_row(heap: &Heap, row: &mut List<u32>, id: ObjectId) -> Result<(), Memory>
    ensures { OnOk result (row.new ≡ ranks heap.now.objects (refs_at (find id.0 heap.now.objects))) }
{
    row.clear();
    add_object_at(heap, row, id)
}

/// Returns for each node whether its object has a finaliser.
pub(crate) fn finalised(alloc: Global, state: &State) -> Result<List<bool>, Memory>
    ensures { IfOk result (λ flags. flags ≡ map (λ e. has_finaliser state.now e.0) state.now.objects) }
{
    let heap = state.heap();
    let mut flags = List::new(alloc);
    for rank in 0..heap.count() {
        flags.push(has_finaliser(state, heap.at(rank)))?;
    }
    Ok(flags)
}

fn has_finaliser(state: &State, id: ObjectId) -> bool
    ensures { result ≡ has_finaliser state.now id.0 }
{
    state.finaliser(id).is_some()
}

/// Adds the nodes that objects with a finaliser refer to.
pub(crate) fn add_finalised(state: &State, nodes: &mut List<u32>) -> Result<(), Memory>
    ensures { OnOk result (nodes.new ≡ nodes.old ++ ranks state.now.objects (refs_where (has_finaliser state.now) state.now.objects)) }
{
    let heap = state.heap();
    for rank in 0..heap.count() {
        add_if_finalised(state, nodes, heap.at(rank))?;
    }
    Ok(())
}

// Adds the nodes that the object of this number refers to, if it has a finaliser.
fn add_if_finalised(state: &State, nodes: &mut List<u32>, id: ObjectId) -> Result<(), Memory>
    ensures { OnOk result (nodes.new
        ≡ nodes.old ++ ranks state.now.objects (refs_where (has_finaliser state.now) (entry_at id.0 (find id.0 state.now.objects)))) }
{
    match state.heap().get(id) {
        Some(object) => {
            if has_finaliser(state, id) {
                add_object(state.heap(), nodes, object)?;
            }
            Ok(())
        }
        None => Ok(()),
    }
}

// Adds the nodes that the object of this number refers to, if it is there.
fn add_object_at(heap: &Heap, nodes: &mut List<u32>, id: ObjectId) -> Result<(), Memory>
    ensures { OnOk result (nodes.new ≡ nodes.old ++ ranks heap.now.objects (refs_at (find id.0 heap.now.objects))) }
{
    match heap.get(id) {
        Some(object) => add_object(heap, nodes, object),
        None => Ok(()),
    }
}

// Adds the nodes that an object refers to.
fn add_object(heap: &Heap, nodes: &mut List<u32>, object: &Object) -> Result<(), Memory>
    ensures { OnOk result (nodes.new ≡ nodes.old ++ ranks heap.now.objects (object_refs object.now)) }
{
    match object {
        Object::Struct(values) => add_values(heap, nodes, values.as_slice()),
        Object::Slice(values) => add_values(heap, nodes, values.as_slice()),
        Object::Chan(channel) => {
            add_buffer(heap, nodes, &channel.buffer)?;
            add_value(heap, nodes, channel.zero)
        }
        Object::Cond(mutex) => add_value(heap, nodes, *mutex),
        Object::Mutex(_) | Object::Group(_) | Object::Rw(_) => Ok(()),
    }
}
