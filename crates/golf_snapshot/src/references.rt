//! The references of values, frames and goroutines, as nodes.
//!
//! The order is that of the definitions: the innermost frame first, and in it the top operand and the
//! latest deferred call.

ghost use Rattle.std.specs.Prelude.{◌≡◌, ◌++◌, OnOk, reverse};
ghost use Rattle.golf_model.specs.Values.{value_refs, refs};
ghost use Rattle.golf_model.specs.Refs.{deferred_refs, leaving_refs, frame_refs, frames_refs, waited, wait_refs};
ghost use Rattle.golf_model.specs.Refs.{goroutine_refs};
ghost use Rattle.golf_model.specs.Views.{frame_view, frame_views, goroutine_view};
ghost use Rattle.golf_model.specs.Waiters.{waits_of};
ghost use Rattle.golf_snapshot.specs.Parts.{ranks};

use golf_base::{List, Memory};
use golf_data::{Deferred, Frame, Goroutine, Leaving, Mode, Value, Wait};
use golf_heap::Heap;
use golf_ring::Ring;

/// Adds the node of a value's object, if it is a reference.
pub(crate) fn add_value(heap: &Heap, nodes: &mut List<u32>, value: Value) -> Result<(), Memory>
    ensures { OnOk result (nodes.new ≡ nodes.old ++ ranks heap.now.objects (value_refs value)) }
{
    match value {
        Value::Ref(object) => nodes.push(heap.rank(object)),
        Value::Int(_) | Value::Bool(_) | Value::Text(_) | Value::Unit | Value::Nil => Ok(()),
    }
}

/// Adds the nodes of these values.
pub(crate) fn add_values(heap: &Heap, nodes: &mut List<u32>, values: &[Value]) -> Result<(), Memory>
    ensures { OnOk result (nodes.new ≡ nodes.old ++ ranks heap.now.objects (refs values.now)) }
{
    for value in values {
        add_value(heap, nodes, *value)?;
    }
    Ok(())
}

/// Adds the nodes of the values of a buffer.
pub(crate) fn add_buffer(
    heap: &Heap,
    nodes: &mut List<u32>,
    buffer: &Ring<Value>,
) -> Result<(), Memory>
    ensures { OnOk result (nodes.new ≡ nodes.old ++ ranks heap.now.objects (refs buffer.now)) }
{
    let (older, newer) = buffer.as_slices();
    add_values(heap, nodes, older)?;
    add_values(heap, nodes, newer)
}

// Adds the nodes of these values, the last one first.
fn add_values_back(heap: &Heap, nodes: &mut List<u32>, values: &[Value]) -> Result<(), Memory>
    ensures { OnOk result (nodes.new ≡ nodes.old ++ ranks heap.now.objects (refs (reverse values.now))) }
{
    for at in (0..values.len()).rev() {
        add_value(heap, nodes, values[at])?;
    }
    Ok(())
}

// Adds the nodes of the arguments of deferred calls, the last call first.
fn add_deferred_back(
    heap: &Heap,
    nodes: &mut List<u32>,
    deferred: &[Deferred],
) -> Result<(), Memory>
    ensures { OnOk result (nodes.new ≡ nodes.old ++ ranks heap.now.objects (deferred_refs (reverse deferred.now))) }
{
    for at in (0..deferred.len()).rev() {
        add_values(heap, nodes, deferred[at].arguments.as_slice())?;
    }
    Ok(())
}

// Adds the node of the value that a returning frame returns.
fn add_leaving(heap: &Heap, nodes: &mut List<u32>, leaving: Leaving) -> Result<(), Memory>
    ensures { OnOk result (nodes.new ≡ nodes.old ++ ranks heap.now.objects (leaving_refs leaving)) }
{
    match leaving {
        Leaving::Returning(Some(value)) => add_value(heap, nodes, value),
        Leaving::Returning(None) | Leaving::No | Leaving::Unwinding(_) => Ok(()),
    }
}

// Adds the nodes of a frame: of its slots, its operands, its deferred calls and its returned value.
fn add_frame(heap: &Heap, nodes: &mut List<u32>, frame: &Frame) -> Result<(), Memory>
    ensures { OnOk result (nodes.new ≡ nodes.old ++ ranks heap.now.objects (frame_refs (frame_view frame.now))) }
{
    add_values(heap, nodes, frame.values.slots())?;
    add_values_back(heap, nodes, frame.values.operands())?;
    add_deferred_back(heap, nodes, frame.deferred.as_slice())?;
    add_leaving(heap, nodes, frame.leaving)
}

// Adds the nodes of frames, the innermost one first.
fn add_frames(heap: &Heap, nodes: &mut List<u32>, frames: &[Frame]) -> Result<(), Memory>
    ensures { OnOk result (nodes.new ≡ nodes.old ++ ranks heap.now.objects (frames_refs (frame_views frames.now))) }
{
    for at in (0..frames.len()).rev() {
        add_frame(heap, nodes, &frames[at])?;
    }
    Ok(())
}

// Adds for each wait the node of its object, and the node of the value that it sends.
fn add_waits(heap: &Heap, nodes: &mut List<u32>, waits: &[Wait]) -> Result<(), Memory>
    ensures { OnOk result (nodes.new ≡ nodes.old ++ ranks heap.now.objects (wait_refs waits.now)) }
{
    for wait in waits {
        nodes.push(heap.rank(wait.object))?;
        add_value(heap, nodes, wait.value)?;
    }
    Ok(())
}

/// Adds for each wait the node of its object.
pub(crate) fn add_waited(heap: &Heap, nodes: &mut List<u32>, waits: &[Wait]) -> Result<(), Memory>
    ensures { OnOk result (nodes.new ≡ nodes.old ++ ranks heap.now.objects (waited waits.now)) }
{
    for wait in waits {
        nodes.push(heap.rank(wait.object))?;
    }
    Ok(())
}

/// Returns the waits of a goroutine, in source order of the cases. A running goroutine has none.
pub(crate) fn waits_of(mode: &Mode) -> &[Wait]
    ensures { result.now ≡ waits_of mode.now }
{
    match mode {
        Mode::Running => &[],
        Mode::Blocked { waits, .. } => waits.as_slice(),
    }
}

/// Adds the nodes of a goroutine: of its frames and of its waits.
pub(crate) fn add_goroutine(
    heap: &Heap,
    nodes: &mut List<u32>,
    goroutine: &Goroutine,
) -> Result<(), Memory>
    ensures { OnOk result (nodes.new ≡ nodes.old ++ ranks heap.now.objects (goroutine_refs (goroutine_view goroutine.now))) }
{
    add_frames(heap, nodes, goroutine.frames.as_slice())?;
    add_waits(heap, nodes, waits_of(&goroutine.mode))
}
