//! Frame-local turns, which a search takes without a visit between them.
//!
//! A frame-local turn reads and changes only the frames of its own goroutine; what it prints is dropped. So the states
//! between such turns need no visit. A state settles when each goroutine has taken its frame-local turns. It need not
//! settle whole: a goroutine in a long loop stays in it.

ghost use Rattle.std.specs.Prelude.{◌≡◌, ◌∷◌, ◌||◌, not, true, None, IfOk, OnOk};
ghost use Rattle.golf_theory.specs.Maps.{find};
ghost use Rattle.golf_data.specs.Places.{HasPlaces};
ghost use Rattle.golf_model.specs.Views.{FrameView, frame_view, frame_views};
ghost use Rattle.golf_model.specs.State.{ending, not_empty};
ghost use Rattle.golf_model.specs.Calls.{is_full};
ghost use Rattle.golf_model.specs.Futures.{Leads};
ghost use Rattle.golf_explore_laws.specs.Local.{is_local, moves_frames, leaving_is_local, frame_is_local};
ghost use Rattle.golf_explore_laws.specs.Local.{IsLocalTurn};
ghost use Rattle.golf_explore.specs.FrameLocalTurns.{frames_are_local, goroutine_is_local, HasSettled};
ghost use Rattle.golf_explore.specs.FrameLocalTurns.{HasTakenAndSettled};

use crate::turns::take;
use golf_base::{GoroutineId, List, Memory};
use golf_data::{Code, Frame, Instr, Leaving, Mode};
use golf_machine::{line_at, whose_turn};
use golf_state::State;
use std::alloc::Global;

/// The most frame-local turns that a goroutine takes on end.
pub(crate) const MOST_ON_END: u32 = 1_000;

/// The most frames of a goroutine.
const MOST_FRAMES: usize = 10_000;

// Whether an instruction is frame-local, whatever the frames of its goroutine.
fn is_local(instr: &Instr) -> bool
    ensures { result ≡ is_local instr.now }
{
    match instr {
        Instr::Int(_) | Instr::Bool(_) | Instr::Text(_) | Instr::Unit | Instr::Nil => true,
        Instr::Load(_) | Instr::Store(_) => true,
        Instr::Drop | Instr::Dup | Instr::Dup2 => true,
        Instr::Neg | Instr::Not => true,
        Instr::Add | Instr::Sub | Instr::Mul | Instr::Div | Instr::Rem => true,
        Instr::Eq | Instr::Less | Instr::AtMost => true,
        Instr::Jump(_) | Instr::JumpIfNot(_) => true,
        Instr::Defer(_, _) | Instr::Print(_) | Instr::Panic => true,
        _ => false,
    }
}

// Whether one more frame does not overflow the stack of a goroutine with these callers and an innermost frame.
fn has_room(callers: &[Frame]) -> bool
    ensures { (f : FrameView) → result ≡ not (is_full (f ∷ frame_views callers.now)) }
{
    callers.len() < MOST_FRAMES - 1
}

// Whether a goroutine with this innermost frame and these callers has a frame after a return.
fn keeps_frames(frame: &Frame, callers: &[Frame]) -> bool
    ensures { result ≡ (not_empty (frame_view frame.now).deferred || not_empty (frame_views callers.now)) }
{
    !frame.deferred.as_slice().is_empty() || !callers.is_empty()
}

// Whether an instruction calls without an overflow of the stack, or returns to a frame that stays.
fn moves_frames(instr: &Instr, frame: &Frame, callers: &[Frame]) -> bool
    ensures { result ≡ moves_frames instr.now (frame_view frame.now) (frame_views callers.now) }
{
    match instr {
        Instr::Call(_, _) => has_room(callers),
        Instr::Return | Instr::ReturnValue => keeps_frames(frame, callers),
        _ => false,
    }
}

// Whether the next turn of a frame that is leaving is frame-local.
fn is_leaving_local(frame: &Frame, callers: &[Frame]) -> bool
    ensures { result ≡ leaving_is_local (frame_view frame.now).deferred (frame_view frame.now) (frame_views callers.now) }
{
    if frame.deferred.as_slice().is_empty() {
        return !callers.is_empty();
    }
    has_room(callers)
}

// Whether the next turn of a goroutine that runs with this innermost frame and these callers is frame-local.
fn is_frame_local(code: &Code, frame: &Frame, callers: &[Frame]) -> bool
    ensures { result ≡ frame_is_local code.now (frame_view frame.now) (frame_views callers.now) frame.now.leaving }
{
    match frame.leaving {
        Leaving::No => match line_at(code, frame.function, frame.at) {
            Some(line) => is_local(&line.instr) || moves_frames(&line.instr, frame, callers),
            None => false,
        },
        Leaving::Returning(_) => is_leaving_local(frame, callers),
        Leaving::Unwinding(_) => is_leaving_local(frame, callers),
    }
}

// Whether the next turn of a goroutine that runs with these frames is frame-local.
fn are_frames_local(code: &Code, frames: &[Frame]) -> bool
    ensures { result ≡ frames_are_local code.now (frame_views frames.now) }
{
    match frames.split_last() {
        Some((frame, callers)) => is_frame_local(code, frame, callers),
        None => false,
    }
}

// Whether a goroutine runs, and its next turn is frame-local.
fn is_goroutine_local(code: &Code, state: &State, g: GoroutineId) -> bool
    ensures { result ≡ goroutine_is_local code.now (find g.0 state.now.goroutines) }
{
    let Some(goroutine) = state.goroutine(g) else {
        return false;
    };
    match goroutine.mode {
        Mode::Blocked { .. } => false,
        Mode::Running => are_frames_local(code, goroutine.frames.as_slice()),
    }
}

/// Returns whether the turn of this number is frame-local. If not, nothing is claimed.
pub(crate) fn is_turn_local(code: &Code, state: &State, number: u64) -> bool
    requires { ending state.now ≡ None }
    ensures { result ≡ true → IsLocalTurn code.now state.now number }
{
    is_goroutine_local(code, state, whose_turn(state, number))
}

// Takes the turn of this number as long as it is frame-local, but at most `MOST_ON_END` times. Adds the number for each
// turn.
fn settle_at(
    alloc: Global,
    code: &Code,
    state: &mut State,
    number: u64,
    numbers: &mut List<u64>,
) -> Result<(), Memory>
    requires places { HasPlaces code.now }
    requires goes { ending state.old ≡ None }
    requires leads { Leads code.now state.old }
    ensures { OnOk result (HasSettled code.now state.old state.new numbers.old numbers.new) }
{
    for _ in 0..MOST_ON_END {
        if !is_turn_local(code, state, number) {
            return Ok(());
        }
        take(alloc, code, state, number)?;
        numbers.push(number)?;
    }
    Ok(())
}

// Takes frame-local turns of each goroutine that can run, at most `MOST_ON_END` of each. Adds their numbers.
fn settle(
    alloc: Global,
    code: &Code,
    state: &mut State,
    numbers: &mut List<u64>,
) -> Result<(), Memory>
    requires places { HasPlaces code.now }
    requires goes { ending state.old ≡ None }
    requires leads { Leads code.now state.old }
    ensures { OnOk result (HasSettled code.now state.old state.new numbers.old numbers.new) }
{
    for place in 0..state.runnable_count() {
        settle_at(alloc, code, state, place as u64, numbers)?;
    }
    Ok(())
}

/// Takes a turn, and then frame-local turns of each goroutine that can run. Returns their numbers.
///
/// Each goroutine takes at most 1,000 frame-local turns. So its next turn can still be frame-local.
pub(crate) fn take_and_settle(
    alloc: Global,
    code: &Code,
    state: &mut State,
    number: u64,
) -> Result<List<u64>, Memory>
    requires places { HasPlaces code.now }
    requires goes { ending state.old ≡ None }
    requires leads { Leads code.now state.old }
    ensures { IfOk result (HasTakenAndSettled code.now state.old number state.new) }
{
    let mut numbers = List::new(alloc);
    numbers.push(number)?;
    take(alloc, code, state, number)?;
    if state.ending().is_some() {
        return Ok(numbers);
    }
    settle(alloc, code, state, &mut numbers)?;
    Ok(numbers)
}
