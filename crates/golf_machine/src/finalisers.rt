//! The instructions on finalisers. On `Err` the state is unchanged.
//!
//! A struct has at most one finaliser (package runtime, `SetFinalizer`).

ghost use Rattle.std.specs.Prelude.{◌≡◌, ◌∷◌, IfOk, OnErr, drop};
ghost use Rattle.golf_theory.specs.Maps.{find};
ghost use Rattle.golf_model.specs.Actors.{goes, at_struct};
ghost use Rattle.golf_model.specs.Changes.{Change};
ghost use Rattle.golf_model.specs.Finalisers.{finalises, finalises_by, unfinalises};
ghost use Rattle.golf_state.specs.ActorChanges.{Stands};
ghost use Rattle.golf_machine.specs.Fits.{Fits};

use crate::structures::is_struct;
use golf_base::{Memory, ObjectId};
use golf_data::PanicKind;
use golf_state::{Acting, Outcome, Reference, State, last_operand, proceed, reference_in};

/// Sets the finaliser of the struct that the last operand refers to. If the struct has one already, that is
/// a fatal error. It panics on nil.
pub fn finalise(state: &mut State, acting: Acting, function: u32) -> Result<Outcome, Memory>
    requires { Stands acting.goroutine.0 acting.after state.old }
    ensures ok { IfOk result (λ outcome. Fits outcome (λ a. finalises a function state.old) acting.goroutine.0 acting.line state.old state.new) }
    ensures err { OnErr result (state.new ≡ state.old) }
{
    let Some(value) = last_operand(state, acting.goroutine) else {
        return Ok(Outcome::Stuck);
    };
    match reference_in(value) {
        Reference::To(object) => {
            if !is_struct(state, object) {
                return Ok(Outcome::Stuck);
            }
            if state.finaliser(object).is_some() {
                return Ok(Outcome::Panic(PanicKind::FinalizerSet));
            }
            state.set_finaliser(object, function)?;
            proceed(state, acting, acting.after, 1);
            Ok(Outcome::Done)
        }
        Reference::Nil => Ok(Outcome::Panic(PanicKind::NilPointer)),
        Reference::Misfit => Ok(Outcome::Stuck),
    }
}

/// Removes the finaliser of the struct that the last operand refers to. On nil it only goes on.
pub fn unfinalise(state: &mut State, acting: Acting) -> Result<Outcome, Memory>
    requires { Stands acting.goroutine.0 acting.after state.old }
    ensures ok { IfOk result (λ outcome. Fits outcome (λ a. unfinalises a state.old) acting.goroutine.0 acting.line state.old state.new) }
    ensures err { OnErr result (state.new ≡ state.old) }
{
    let Some(value) = last_operand(state, acting.goroutine) else {
        return Ok(Outcome::Stuck);
    };
    match reference_in(value) {
        Reference::To(object) => {
            if !is_struct(state, object) {
                return Ok(Outcome::Stuck);
            }
            state.clear_finaliser(object);
            proceed(state, acting, acting.after, 1);
            Ok(Outcome::Done)
        }
        Reference::Nil => {
            proceed(state, acting, acting.after, 1);
            Ok(Outcome::Done)
        }
        Reference::Misfit => Ok(Outcome::Stuck),
    }
}
