//! The instructions that store a global, panic with a text, or do nothing.
//!
//! None of these takes memory.

ghost use Rattle.std.specs.Prelude.{◌≡◌, IfOk, OnErr};
ghost use Rattle.golf_model.specs.Actors.{goes};
ghost use Rattle.golf_model.specs.Arithmetic.{stores_global};
ghost use Rattle.golf_model.specs.Turn.{panics_with};
ghost use Rattle.golf_state.specs.ActorChanges.{Stands};
ghost use Rattle.golf_machine.specs.Fits.{Fits};

use golf_base::Memory;
use golf_data::PanicKind;
use golf_state::{Acting, Outcome, State, last_operand, proceed, text_in};

/// Stores the last operand in a global. If one of them is not there, no rule fits.
pub fn store_global(state: &mut State, acting: Acting, global: u32) -> Result<Outcome, Memory>
    requires { Stands acting.goroutine.0 acting.after state.old }
    ensures ok { IfOk result (λ outcome. Fits outcome (λ a. stores_global a global state.old) acting.goroutine.0 acting.line state.old state.new) }
    ensures err { OnErr result (state.new ≡ state.old) }
{
    let Some(value) = last_operand(state, acting.goroutine) else {
        return Ok(Outcome::Stuck);
    };
    if global as usize >= state.globals().len() {
        return Ok(Outcome::Stuck);
    }
    state.set_global(global, value);
    proceed(state, acting, acting.after, 1);
    Ok(Outcome::Done)
}

/// Lets the goroutine go on after the instruction.
#[inline(always)]
pub fn skip(state: &mut State, acting: Acting) -> Outcome
    requires { Stands acting.goroutine.0 acting.after state.old }
    ensures { Fits result (λ a. goes a a.frame.operands) acting.goroutine.0 acting.line state.old state.new }
{
    proceed(state, acting, acting.after, 0);
    Outcome::Done
}

/// Panics with the text that is the last operand. It changes nothing: the outcome is the panic.
pub fn panic_with(state: &State, acting: Acting) -> Result<Outcome, Memory>
    requires { Stands acting.goroutine.0 acting.after state.now }
    ensures { IfOk result (λ outcome. Fits outcome panics_with acting.goroutine.0 acting.line state.now state.now) }
{
    let Some(value) = last_operand(state, acting.goroutine) else {
        return Ok(Outcome::Stuck);
    };
    match text_in(value) {
        Some(text) => Ok(Outcome::Panic(PanicKind::Custom(text))),
        None => Ok(Outcome::Stuck),
    }
}
