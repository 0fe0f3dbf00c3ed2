//! Frames that return or unwind, and goroutines that end. On `Err` the state is unchanged.
//!
//! A frame with deferred calls becomes a returning or an unwinding frame. Each later turn begins one of its
//! deferred calls, or leaves the frame.

ghost use Rattle.std.specs.Prelude.{◌≡◌, ℕ, IfOk, OnOk, OnErr};
ghost use Rattle.golf_model.specs.Calls.{ends, returns, returns_value, returns_to, unwinds_to, leaves_returning};
ghost use Rattle.golf_model.specs.Calls.{leaves_unwinding};
ghost use Rattle.golf_state.specs.ActorChanges.{does, does_by, Stands};
ghost use Rattle.golf_theory.specs.Maps.{find};
ghost use Rattle.golf_model.specs.State.{not_empty};
ghost use Rattle.golf_machine.specs.Acts.{Acts, deferred_of};
ghost use Rattle.golf_machine.specs.Fits.{Fits};

use crate::new_frames::{begin_deferred, latest_deferred};
use golf_base::{GoroutineId, Memory};
use golf_data::{Code, Ending, Fault, Value};
use golf_state::{Acting, Outcome, State, begin_return, last_operand, return_frame, unwind_caller};
use std::alloc::Global;

// Removes the goroutine's last frame: the goroutine ends. Goroutine 0 does not end; it waits for its queue.
fn end(state: &mut State, g: GoroutineId)
    requires { Acts g.0 state.old }
    ensures { (line : ℕ) → state.new ≡ does ends g.0 line state.old }
{
    if g.0 == 0 {
        state.frames_mut(g).clear();
    } else {
        state.leave(g);
    }
}

// Leaves the innermost frame by a return. The program ends with goroutine 1.
#[tactic(auto, using(crate::proofs::Frames::kept))]
fn return_to(state: &mut State, g: GoroutineId, value: Option<Value>) -> Result<(), Memory>
    requires { Acts g.0 state.old }
    ensures ok { OnOk result ((line : ℕ) → state.new ≡ does (λ a. returns_to a value a.callers) g.0 line state.old) }
    ensures err { OnErr result (state.new ≡ state.old) }
{
    if state.depth(g) > 1 {
        return return_frame(state.frames_mut(g), value);
    }
    end(state, g);
    if g.0 == 1 {
        state.finish(Ending::Returned);
    }
    Ok(())
}

// Leaves the innermost frame by unwinding: its caller unwinds. Without a caller the program ends.
fn unwind_to(state: &mut State, g: GoroutineId, fault: Fault)
    requires { Acts g.0 state.old }
    ensures { (line : ℕ) → state.new ≡ does (λ a. unwinds_to a fault a.callers) g.0 line state.old }
{
    if state.depth(g) > 1 {
        unwind_caller(state.frames_mut(g), fault);
        return;
    }
    end(state, g);
    state.finish(Ending::Panicked {
        kind: fault.kind,
        goroutine: g,
        line: fault.line,
    });
}

// Whether the innermost frame has deferred calls.
fn has_deferred(state: &State, g: GoroutineId) -> bool
    ensures { result ≡ not_empty (deferred_of g.0 state.now) }
{
    latest_deferred(state, g).is_some()
}

/// Returns without a value. If the innermost frame has deferred calls, it becomes a returning frame, and
/// else it is left.
pub fn return_without_value(state: &mut State, acting: Acting) -> Result<Outcome, Memory>
    requires { Stands acting.goroutine.0 acting.after state.old }
    ensures ok { IfOk result (λ outcome. Fits outcome returns acting.goroutine.0 acting.line state.old state.new) }
    ensures err { OnErr result (state.new ≡ state.old) }
{
    if has_deferred(state, acting.goroutine) {
        begin_return(state.frames_mut(acting.goroutine), acting.after, 0, None);
        return Ok(Outcome::Done);
    }
    return_to(state, acting.goroutine, None)?;
    Ok(Outcome::Done)
}

/// Returns with the last operand. If the innermost frame has deferred calls, it becomes a returning frame,
/// and else it is left.
pub fn return_with_value(state: &mut State, acting: Acting) -> Result<Outcome, Memory>
    requires { Stands acting.goroutine.0 acting.after state.old }
    ensures ok { IfOk result (λ outcome. Fits outcome returns_value acting.goroutine.0 acting.line state.old state.new) }
    ensures err { OnErr result (state.new ≡ state.old) }
{
    let g = acting.goroutine;
    let Some(value) = last_operand(state, g) else {
        return Ok(Outcome::Stuck);
    };
    if has_deferred(state, g) {
        begin_return(state.frames_mut(g), acting.after, 1, Some(value));
        return Ok(Outcome::Done);
    }
    return_to(state, g, Some(value))?;
    Ok(Outcome::Done)
}

/// Takes the turn of a goroutine whose innermost frame is returning, from a return on this line. Returns
/// whether a rule fits.
pub fn leave_returning(
    alloc: Global,
    code: &Code,
    state: &mut State,
    g: GoroutineId,
    line: u32,
    value: Option<Value>,
) -> Result<bool, Memory>
    requires { Acts g.0 state.old }
    ensures ok { OnOk result (state.new ≡ does (λ a. leaves_returning code.now a value a.frame.deferred) g.0 line state.old) }
    ensures fits { IfOk result (λ fits. fits ≡ not_empty (does_by (λ a. leaves_returning code.now a value a.frame.deferred) g.0 line (find g.0 state.old.goroutines))) }
    ensures err { OnErr result (state.new ≡ state.old) }
{
    if has_deferred(state, g) {
        return begin_deferred(alloc, code, state, g, line);
    }
    return_to(state, g, value)?;
    Ok(true)
}

/// Takes the turn of a goroutine whose innermost frame is unwinding. Returns whether a rule fits.
pub fn leave_unwinding(
    alloc: Global,
    code: &Code,
    state: &mut State,
    g: GoroutineId,
    fault: Fault,
) -> Result<bool, Memory>
    requires { Acts g.0 state.old }
    ensures ok { OnOk result (state.new ≡ does (λ a. leaves_unwinding code.now a fault a.frame.deferred) g.0 fault.line state.old) }
    ensures fits { IfOk result (λ fits. fits ≡ not_empty (does_by (λ a. leaves_unwinding code.now a fault a.frame.deferred) g.0 fault.line (find g.0 state.old.goroutines))) }
    ensures err { OnErr result (state.new ≡ state.old) }
{
    if has_deferred(state, g) {
        return begin_deferred(alloc, code, state, g, fault.line);
    }
    unwind_to(state, g, fault);
    Ok(true)
}
