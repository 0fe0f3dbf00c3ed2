//! Turns that touch only the innermost frame.
//!
//! Such a turn needs neither the other goroutines nor the wait queues.

ghost use Rattle.std.specs.Prelude.{◌≡◌, Some, IfOk, IfSome, IfNone, OnErr, option_map, slice_get};
ghost use Rattle.golf_data.specs.declared.goroutine.Leaving.{Leaving};
ghost use Rattle.golf_data.specs.Places.{HasPlaces};
ghost use Rattle.golf_model.specs.Views.{frame_view, frame_views};
ghost use Rattle.golf_state.specs.ActorChanges.{Runs};
ghost use Rattle.golf_machine.specs.InnermostTurns.{cleared_in, IsNowhere, HasTurnedInside, HasTurnedOnTop, HasTakenTurn};

use crate::within::{Within, perform_within};
use golf_base::{GoroutineId, List, Memory};
use golf_data::{Code, CodeLine, Frame, Function, Leaving, Value};
use golf_state::State;

/// The result of a try to take a turn on the innermost frame alone.
#[derive(Clone, Copy, Debug, Drop)]
pub(crate) enum InnerTurn<'c> {
    /// The turn is taken, and the slots are cleared after it.
    Over,
    /// Nothing has changed. This instruction is still to be done, and the number is the place after it.
    At(&'c CodeLine, u32),
    /// Nothing has changed: there is no frame, the frame is leaving, or it is at no instruction.
    Nowhere,
}

/// Returns the function of this number, or `None`.
#[inline(always)]
pub(crate) fn function_at(code: &Code, number: u32) -> Option<&Function>
    ensures function { option_map (λ f. f.now) result ≡ slice_get code.now.functions number }
{
    code.functions.as_slice().get(number as usize)
}

/// Returns the instruction at a place of a function, with its line, or `None`.
#[inline(always)]
pub(crate) fn line_in(function: &Function, at: u32) -> Option<&CodeLine>
    ensures line { option_map (λ l. l.now) result ≡ slice_get function.now.body at }
{
    function.body.as_slice().get(at as usize)
}

// The mask of a place of a function, or `None`.
#[inline(always)]
fn mask_in(function: &Function, at: u32) -> Option<u64>
    ensures { result ≡ slice_get function.now.live at }
{
    function.live.as_slice().get(at as usize).copied()
}

// Sets to 0 the slots of a frame of this function that no instruction from its next one on can read.
#[inline(always)]
fn clear_in(function: &Function, frame: &mut Frame)
    ensures { frame_view frame.new ≡ cleared_in function.now (frame_view frame.old) }
{
    if let Some(mask) = mask_in(function, frame.at) {
        frame.values.clear_under(mask);
    }
}

/// Takes the turn of a frame of this function that is not leaving, with these globals, if its instruction touches only
/// the frame, a rule fits, and it does not panic.
#[inline(always)]
pub(crate) fn turn_in<'c>(
    code: &'c Code,
    function: &'c Function,
    globals: &[Value],
    frame: &mut Frame,
) -> Result<InnerTurn<'c>, Memory>
    requires places { HasPlaces code.now }
    requires function { Some function.now ≡ slice_get code.now.functions frame.old.function }
    requires stays { frame.old.leaving ≡ Leaving.No }
    ensures ok { IfOk result (λ tried. HasTurnedInside tried code.now globals.now (frame_view frame.old) (frame_view frame.new)) }
    ensures function { IfOk result (λ tried. frame.new.function ≡ frame.old.function) }
    ensures stays { IfOk result (λ tried. frame.new.leaving ≡ Leaving.No) }
    ensures err { OnErr result (frame_view frame.new ≡ frame_view frame.old) }
{
    let Some(line) = line_in(function, frame.at) else {
        return Ok(InnerTurn::Nowhere);
    };
    match perform_within(frame, globals, &line.instr)? {
        Within::Done => {}
        Within::ZeroDivisor | Within::Stuck | Within::Beyond => {
            return Ok(InnerTurn::At(line, frame.at + 1));
        }
    }
    clear_in(function, frame);
    Ok(InnerTurn::Over)
}

/// Returns the function of a frame, or `None` if the frame is leaving, or if there is no such function.
#[inline(always)]
pub(crate) fn function_of<'c>(code: &'c Code, frame: &Frame) -> Option<&'c Function>
    ensures some { IfSome result (λ f. (Some f.now ≡ slice_get code.now.functions frame.now.function) × (frame.now.leaving ≡ Leaving.No)) }
    ensures none { IfNone result (IsNowhere code.now (frame_view frame.now)) }
{
    match frame.leaving {
        Leaving::No => function_at(code, frame.function),
        Leaving::Returning(_) | Leaving::Unwinding(_) => None,
    }
}

// Takes the turn of a frame, with these globals, as `turn_in` does, if it is not leaving.
#[inline(always)]
fn turn_inside<'c>(
    code: &'c Code,
    globals: &[Value],
    frame: &mut Frame,
) -> Result<InnerTurn<'c>, Memory>
    requires places { HasPlaces code.now }
    ensures ok { IfOk result (λ tried. HasTurnedInside tried code.now globals.now (frame_view frame.old) (frame_view frame.new)) }
    ensures err { OnErr result (frame_view frame.new ≡ frame_view frame.old) }
{
    let Some(function) = function_of(code, frame) else {
        return Ok(InnerTurn::Nowhere);
    };
    let tried = turn_in(code, function, globals, frame)?;
    Ok(tried)
}

/// Takes the turn of the innermost frame, if there is one, as `turn_inside` does.
#[inline(always)]
pub(crate) fn turn_on_top<'c>(
    code: &'c Code,
    globals: &[Value],
    frames: &mut List<Frame>,
) -> Result<InnerTurn<'c>, Memory>
    requires places { HasPlaces code.now }
    ensures ok { IfOk result (λ tried. HasTurnedOnTop tried code.now globals.now (frame_views frames.old) (frame_views frames.new)) }
    ensures err { OnErr result (frame_views frames.new ≡ frame_views frames.old) }
{
    let count = frames.len();
    if count == 0 {
        return Ok(InnerTurn::Nowhere);
    }
    let tried = turn_inside(code, globals, frames.item_mut(count - 1))?;
    Ok(tried)
}

/// Takes the turn of a running goroutine, and clears slots after it, if its instruction touches only its
/// innermost frame, a rule fits, and it does not panic. Else nothing changes, and the result says where the
/// goroutine is.
#[inline(always)]
pub(crate) fn inner_turn<'c>(
    code: &'c Code,
    state: &mut State,
    g: GoroutineId,
) -> Result<InnerTurn<'c>, Memory>
    requires places { HasPlaces code.now }
    requires runs { Runs g.0 state.old }
    ensures ok { IfOk result (λ tried. HasTakenTurn tried code.now g.0 state.old state.new) }
    ensures err { OnErr result (state.new ≡ state.old) }
{
    let (frames, globals) = state.frames_and_globals(g);
    let tried = turn_on_top(code, globals, frames)?;
    Ok(tried)
}
