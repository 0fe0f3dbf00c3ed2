//! Copies of goroutines. A copy has the same view, and room for two more operands in each frame.

ghost use Rattle.std.specs.Prelude.{◌≡◌, ◌≤◌, ◌++◌, ◌∷◌, [], IfOk, OnOk};
ghost use Rattle.golf_theory.specs.Maps.{AllBelow, IsRising};
ghost use Rattle.golf_blocks.specs.Blocks.{entries_in};
ghost use Rattle.golf_model.specs.Views.{frame_view, frame_views, goroutine_view};
ghost use Rattle.golf_state_goroutines.specs.Goroutines.{IsListed};
ghost use Rattle.golf_state_goroutines.specs.Places.{plain_entry, plain_entries};
ghost use Rattle.golf_state_goroutines.specs.Ready.{AllReady};
ghost use Rattle.golf_state_goroutines.specs.Roominess.{AllRoomy, HasRoom};

use crate::places::is_running;
use crate::roster::Roster;
use golf_base::{Boxed, List, Memory};
use golf_blocks::Block;
use golf_data::{Deferred, DeferredCalls, Frame, FrameValues, Goroutine, Mode, Value, copied_list};
use std::alloc::Global;

// Adds these operands.
fn push_all(values: &mut FrameValues, operands: &[Value]) -> Result<(), Memory>
    ensures slots { values.new.slots ≡ values.old.slots }
    ensures operands { OnOk result (values.new.operands ≡ values.old.operands ++ operands.now) }
{
    for operand in operands {
        values.push(*operand)?;
    }
    Ok(())
}

// Returns a copy of the slots and operands, with room for two more operands.
fn copied_values(alloc: Global, values: &FrameValues) -> Result<FrameValues, Memory>
    ensures slots { IfOk result (λ copy. copy.slots ≡ values.now.slots) }
    ensures operands { IfOk result (λ copy. copy.operands ≡ values.now.operands) }
    ensures room { IfOk result (λ copy. 2 ≤ copy.spare) }
{
    let depth = values.operand_count().saturating_add(2);
    let mut copy = FrameValues::of(alloc, values.slots(), 0, depth)?;
    push_all(&mut copy, values.operands())?;
    copy.reserve(2)?;
    Ok(copy)
}

// Returns a copy of a deferred call.
fn copied_call(alloc: Global, call: &Deferred) -> Result<Deferred, Memory>
    ensures { IfOk result (λ copy. copy ≡ call.now) }
{
    Ok(Deferred {
        function: call.function,
        arguments: copied_list(alloc, call.arguments.as_slice())?,
    })
}

// Returns copies of deferred calls.
fn copied_calls(alloc: Global, calls: &[Deferred]) -> Result<List<Deferred>, Memory>
    ensures { IfOk result (λ copies. copies ≡ calls.now) }
{
    let mut copies = List::new(alloc);
    for call in calls {
        copies.push(copied_call(alloc, call)?)?;
    }
    Ok(copies)
}

// Returns a copy of a frame, with room for two more operands.
fn copied_frame(alloc: Global, frame: &Frame) -> Result<Frame, Memory>
    ensures view { IfOk result (λ copy. frame_view copy ≡ frame_view frame.now) }
    ensures room { IfOk result (λ copy. 2 ≤ copy.values.spare) }
{
    let values = copied_values(alloc, &frame.values)?;
    let calls = copied_calls(alloc, frame.deferred.as_slice())?;
    let deferred = DeferredCalls::of(alloc, calls)?;
    Ok(Frame {
        function: frame.function,
        at: frame.at,
        values,
        deferred,
        leaving: frame.leaving,
        discards: frame.discards,
    })
}

// Returns copies of frames, each with room for two more operands.
fn copied_frames(alloc: Global, frames: &[Frame]) -> Result<List<Frame>, Memory>
    ensures views { IfOk result (λ copies. frame_views copies ≡ frame_views frames.now) }
    ensures room { IfOk result (λ copies. AllRoomy copies) }
{
    let mut copies = List::from_vec(Vec::with_capacity(alloc, frames.len())?);
    for frame in frames {
        copies.push(copied_frame(alloc, frame)?)?;
    }
    Ok(copies)
}

// Returns a copy of how a goroutine waits.
fn copied_mode(alloc: Global, mode: &Mode) -> Result<Mode, Memory>
    ensures { IfOk result (λ copy. copy ≡ mode.now) }
{
    match mode {
        Mode::Running => Ok(Mode::Running),
        Mode::Blocked {
            kind,
            line,
            waits,
            ticket,
        } => Ok(Mode::Blocked {
            kind: *kind,
            line: *line,
            waits: waits.copy(alloc)?,
            ticket: *ticket,
        }),
    }
}

/// Returns a copy of a goroutine, which has the same view. It has room to be woken without memory.
pub fn copied_goroutine(alloc: Global, goroutine: &Goroutine) -> Result<Goroutine, Memory>
    ensures view { IfOk result (λ copy. goroutine_view copy ≡ goroutine_view goroutine.now) }
    ensures room { IfOk result (λ copy. HasRoom copy.frames) }
{
    let frames = copied_frames(alloc, goroutine.frames.as_slice())?;
    let mode = copied_mode(alloc, &goroutine.mode)?;
    Ok(Goroutine {
        frames,
        mode,
        started: goroutine.started,
    })
}

// Adds a copy of a goroutine after the others, whose numbers are smaller. On `Err` the roster is unchanged.
fn add_copy(
    roster: &mut Roster,
    alloc: Global,
    place: &(u32, Boxed<Goroutine>),
) -> Result<(), Memory>
    requires below { AllBelow place.now.0 (plain_entries roster.old.places) }
    requires listed { IsListed roster.old }
    ensures places { OnOk result (plain_entries roster.new.places ≡ plain_entries roster.old.places ++ plain_entry place.now ∷ []) }
    ensures listed { IsListed roster.new }
    ensures ready { AllReady roster.old.places → AllReady roster.new.places }
{
    let goroutine = copied_goroutine(alloc, place.1.get())?;
    let runs = is_running(&goroutine.mode);
    let copy = (place.0, Boxed::new(alloc, goroutine)?);
    if runs {
        roster.add(copy)
    } else {
        roster.add_blocked(copy)
    }
}

// Adds copies of these goroutines after the others, whose numbers are smaller.
fn add_copies(
    roster: &mut Roster,
    alloc: Global,
    places: &[(u32, Boxed<Goroutine>)],
) -> Result<(), Memory>
    requires rises { IsRising (plain_entries roster.old.places ++ plain_entries places.now) }
    requires listed { IsListed roster.old }
    ensures places { OnOk result (plain_entries roster.new.places ≡ plain_entries roster.old.places ++ plain_entries places.now) }
    ensures listed { IsListed roster.new }
    ensures ready { AllReady roster.old.places → AllReady roster.new.places }
{
    for place in places {
        add_copy(roster, alloc, place)?;
    }
    Ok(())
}

/// Returns a roster with copies of these goroutines. Each has room to be woken without memory.
pub fn copied_roster(alloc: Global, blocks: &[Block<Boxed<Goroutine>>]) -> Result<Roster, Memory>
    requires { IsRising (plain_entries (entries_in blocks.now)) }
    ensures places { IfOk result (λ copy. plain_entries copy.places ≡ plain_entries (entries_in blocks.now)) }
    ensures listed { IfOk result (λ copy. IsListed copy) }
    ensures ready { IfOk result (λ copy. AllReady copy.places) }
{
    let mut copy = Roster::new(alloc);
    for at in 0..blocks.len() {
        add_copies(&mut copy, alloc, blocks[at].entries.as_slice())?;
    }
    Ok(copy)
}
