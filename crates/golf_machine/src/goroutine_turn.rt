//! The turn of one goroutine. On `Err` the state is unchanged.
//!
//! A turn does one instruction, or one step of a frame that is leaving. Or goroutine 0 begins a queued
//! finaliser.

ghost use Rattle.std.specs.Prelude.{◌≡◌, ℕ, false, IfOk, OnOk, OnErr, option_map};
ghost use Rattle.golf_theory.specs.Maps.{find};
ghost use Rattle.golf_model.specs.Changes.{apply_all};
ghost use Rattle.golf_model.specs.State.{not_empty};
ghost use Rattle.golf_model.specs.Views.{frame_view};
ghost use Rattle.golf_model.specs.Turn.{line_at, return_line, turn_of, is_collection, goroutine_collects};
ghost use Rattle.golf_state.specs.ActorChanges.{Runs};
ghost use Rattle.golf_state.specs.Looked.{frames_of};
ghost use Rattle.golf_machine.specs.InnermostTurns.{IsAtTop, IsNowhereOnTop};
ghost use Rattle.golf_machine.specs.TurnResults.{has_rule, has_collected};

use crate::frame_ends::{leave_returning, leave_unwinding};
use crate::innermost_turns::{function_at, line_in};
use crate::instructions::perform;
use crate::new_frames::begin_queued;
use golf_base::{GoroutineId, Memory};
use golf_data::{Code, CodeLine, Frame, Instr, Leaving};
use golf_state::{Acting, State};
use std::alloc::Global;

/// The result of the turn of one goroutine.
#[derive(Clone, Copy, Debug, PartialEq, Eq)]
pub enum Acted {
    /// It goes on.
    Went,
    /// Its instruction is a collection, which the caller must do.
    Collects,
    /// No rule fits. The state is unchanged.
    Stuck,
}

/// Returns the instruction at a place of a function, with its line, or `None` if there is none.
#[inline(always)]
pub fn line_at(code: &Code, function: u32, at: u32) -> Option<&CodeLine>
    ensures line { option_map (λ l. l.now) result ≡ line_at code.now function at }
{
    line_in(function_at(code, function)?, at)
}

/// Returns the line of the return of a returning frame, whose place is behind that instruction.
pub fn return_line(code: &Code, frame: &Frame) -> u32
    ensures { result ≡ return_line code.now (frame_view frame.now) }
{
    match line_at(code, frame.function, frame.at.saturating_sub(1)) {
        Some(line) => line.line,
        None => 0,
    }
}

/// Takes the turn of a goroutine that runs and is at this instruction, before the place `after`. A `select`
/// takes the ready case at the place `choice`, counted round.
pub fn act(
    alloc: Global,
    code: &Code,
    state: &mut State,
    g: GoroutineId,
    line: &CodeLine,
    after: u32,
    choice: u64,
) -> Result<Acted, Memory>
    requires runs { Runs g.0 state.old }
    requires at { IsAtTop code.now (frames_of g.0 state.old) line.now after }
    ensures ok { OnOk result (state.new ≡ apply_all (turn_of code.now g.0 choice state.old (find g.0 state.old.goroutines)) state.old) }
    ensures fits { IfOk result (λ acted. has_rule acted ≡ not_empty (turn_of code.now g.0 choice state.old (find g.0 state.old.goroutines))) }
    ensures collects { IfOk result (λ acted. has_collected acted ≡ goroutine_collects code.now (find g.0 state.old.goroutines)) }
    ensures err { OnErr result (state.new ≡ state.old) }
{
    let acting = Acting {
        goroutine: g,
        line: line.line,
        after,
    };
    let fits = perform(alloc, code, state, acting, &line.instr, choice)?;
    if matches!(line.instr, Instr::Collect) {
        return Ok(Acted::Collects);
    }
    Ok(went_if(fits))
}

// The result of a turn that is no collection.
#[inline(always)]
fn went_if(fits: bool) -> Acted
    ensures fits { has_rule result ≡ fits }
    ensures collects { has_collected result ≡ false }
{
    if fits { Acted::Went } else { Acted::Stuck }
}

/// Takes the turn of a running goroutine that is at no instruction. It has no frame, or its innermost frame
/// is leaving or at its end.
pub fn act_nowhere(
    alloc: Global,
    code: &Code,
    state: &mut State,
    g: GoroutineId,
) -> Result<Acted, Memory>
    requires runs { Runs g.0 state.old }
    requires nowhere { IsNowhereOnTop code.now (frames_of g.0 state.old) }
    ensures ok { OnOk result ((choice : ℕ) → state.new ≡ apply_all (turn_of code.now g.0 choice state.old (find g.0 state.old.goroutines)) state.old) }
    ensures fits { IfOk result (λ acted. (choice : ℕ) → has_rule acted ≡ not_empty (turn_of code.now g.0 choice state.old (find g.0 state.old.goroutines))) }
    ensures collects { IfOk result (λ acted. has_collected acted ≡ goroutine_collects code.now (find g.0 state.old.goroutines)) }
    ensures err { OnErr result (state.new ≡ state.old) }
{
    let Some(frame) = state.frame(g) else {
        return Ok(went_if(begin_queued(alloc, code, state, g)?));
    };
    match frame.leaving {
        Leaving::No => Ok(Acted::Stuck),
        Leaving::Returning(value) => {
            let line = return_line(code, frame);
            Ok(went_if(leave_returning(alloc, code, state, g, line, value)?))
        }
        Leaving::Unwinding(fault) => Ok(went_if(leave_unwinding(alloc, code, state, g, fault)?)),
    }
}
