//! The outcome of an operation of the goroutine whose turn it is. On `Err` the state is unchanged.
//!
//! An operation makes its changes itself, except for those of a panic or a fatal error. `carry_out` makes
//! these.

ghost use Rattle.std.specs.Prelude.{◌≡◌, [], ◌∷◌, IfOk, OnOk, OnErr, IsSome, slice_get, drop, true};
ghost use Rattle.golf_model.specs.Actors.{stands, blocks};
ghost use Rattle.golf_model.specs.Waiters.{bare_wait};
ghost use Rattle.golf_model.specs.Structures.{makes};
ghost use Rattle.golf_state.specs.Operands.{operands_of};
ghost use Rattle.golf_state.specs.ActorChanges.{does, Stands};
ghost use Rattle.golf_state.specs.FrameChanges.{went};
ghost use Rattle.golf_state.specs.Looked.{values_of, runs, is_blocked};
ghost use Rattle.golf_state.specs.Outcomes.{faults, carries, StandsToFault};

use crate::actor::Acting;
use crate::frames::{Given, advance, advance_with, exchange, unwind};
use crate::state::State;
use golf_base::{Memory, ObjectId};
use golf_data::{Ending, Fault, Object, PanicKind, Side, Value, Wait, WaitKind, Waits};
use std::alloc::Global;

/// The outcome of an operation of the goroutine whose turn it is.
#[derive(Clone, Copy, Debug, PartialEq, Eq)]
pub enum Outcome {
    /// It is done, and the goroutine goes on.
    Done,
    /// The goroutine is blocked.
    Blocked,
    /// The operation panics, or is a fatal error. The state is unchanged so far.
    Panic(PanicKind),
    /// No rule fits. The state is unchanged.
    Stuck,
}

/// Lets the goroutine whose turn it is panic. A fatal error ends the program instead.
pub fn fault(state: &mut State, acting: Acting, kind: PanicKind)
    requires { Stands acting.goroutine.0 acting.after state.old }
    ensures { state.new ≡ does (λ a. faults a kind) acting.goroutine.0 acting.line state.old }
{
    let (goroutine, line) = (acting.goroutine, acting.line);
    if kind.is_fatal() {
        state.finish(Ending::Panicked {
            kind,
            goroutine,
            line,
        });
    } else {
        unwind(state.frames_mut(goroutine), Fault { kind, line });
    }
}

/// Carries out the rest of an outcome: a panic or a fatal error. Any other outcome leaves the state
/// unchanged.
#[inline(always)]
pub fn carry_out(state: &mut State, acting: Acting, outcome: Outcome)
    requires { StandsToFault outcome acting.goroutine.0 acting.after state.old }
    ensures { state.new ≡ carries outcome acting.goroutine.0 acting.line state.old }
{
    match outcome {
        Outcome::Panic(kind) => fault(state, acting, kind),
        Outcome::Done => {}
        Outcome::Blocked => {}
        Outcome::Stuck => {}
    }
}

/// Lets the goroutine whose turn it is go on at `target`, without its last `taken` operands.
#[inline(always)]
pub fn proceed(state: &mut State, acting: Acting, target: u32, taken: usize)
    requires { Stands acting.goroutine.0 acting.after state.old }
    ensures state { state.new ≡ does (λ a. stands a (went target taken [] a.frame)) acting.goroutine.0 acting.line state.old }
    ensures runs { runs acting.goroutine.0 state.new ≡ true }
{
    advance(state.frames_mut(acting.goroutine), target, taken);
}

/// Lets the goroutine whose turn it is go on at `target`, with these values in place of its last `taken`
/// operands.
#[inline(always)]
pub fn proceed_with(
    state: &mut State,
    acting: Acting,
    target: u32,
    taken: usize,
    given: Given,
) -> Result<(), Memory>
    requires { Stands acting.goroutine.0 acting.after state.old }
    ensures ok { OnOk result (state.new ≡ does (λ a. stands a (went target taken (values_of given) a.frame)) acting.goroutine.0 acting.line state.old) }
    ensures runs { OnOk result (runs acting.goroutine.0 state.new ≡ true) }
    ensures err { OnErr result (state.new ≡ state.old) }
{
    let frames = state.frames_mut(acting.goroutine);
    advance_with(frames, target, taken, given)
}

/// Blocks the goroutine whose turn it is. It will go on at `target`, without its last `taken` operands.
#[inline(always)]
pub fn block_at(
    state: &mut State,
    acting: Acting,
    target: u32,
    taken: usize,
    kind: WaitKind,
    waits: Waits,
) -> Result<(), Memory>
    requires { Stands acting.goroutine.0 acting.after state.old }
    ensures ok { OnOk result (state.new ≡ does (λ a. blocks a (went target taken [] a.frame) kind waits) acting.goroutine.0 acting.line state.old) }
    ensures blocked { OnOk result (is_blocked acting.goroutine.0 state.new ≡ true) }
    ensures err { OnErr result (state.new ≡ state.old) }
{
    state.block(acting.goroutine, kind, acting.line, waits, target, taken)
}

/// Blocks the goroutine whose turn it is on an object with this side. It will go on after its instruction,
/// without its last `taken` operands.
#[inline(always)]
pub fn block_on(
    alloc: Global,
    state: &mut State,
    acting: Acting,
    taken: usize,
    kind: WaitKind,
    object: ObjectId,
    side: Side,
) -> Result<(), Memory>
    requires { Stands acting.goroutine.0 acting.after state.old }
    ensures ok { OnOk result (state.new ≡ does (λ a. blocks a (went acting.after taken [] a.frame) kind (bare_wait object.0 side ∷ [])) acting.goroutine.0 acting.line state.old) }
    ensures blocked { OnOk result (is_blocked acting.goroutine.0 state.new ≡ true) }
    ensures err { OnErr result (state.new ≡ state.old) }
{
    let wait = Wait {
        object,
        side,
        value: Value::Nil,
        target: None,
        with_ok: false,
    };
    let waits = Waits::one(alloc, wait);
    block_at(state, acting, acting.after, taken, kind, waits)
}

/// Makes an object, and lets the goroutine whose turn it is go on with the reference as one more operand.
pub fn make_onto(state: &mut State, acting: Acting, object: Object) -> Result<(), Memory>
    requires { Stands acting.goroutine.0 acting.after state.old }
    ensures ok { OnOk result (state.new ≡ does (λ a. makes a object a.frame.operands state.old) acting.goroutine.0 acting.line state.old) }
    ensures err { OnErr result (state.new ≡ state.old) }
{
    let number = state.heap().last().checked_add(1).ok_or(Memory)?;
    let given = Given::One(Value::Ref(ObjectId(number)));
    proceed_with(state, acting, acting.after, 0, given)?;
    if state.make(object).is_err() {
        // The reference is taken back.
        let frames = state.frames_mut(acting.goroutine);
        advance(frames, acting.after.saturating_sub(1), 1);
        return Err(Memory);
    }
    Ok(())
}

/// Makes an object, and lets the goroutine whose turn it is go on with the reference in place of its last
/// operand.
pub fn make_over(state: &mut State, acting: Acting, object: Object) -> Result<(), Memory>
    requires stands { Stands acting.goroutine.0 acting.after state.old }
    requires operand { IsSome (slice_get (operands_of acting.goroutine.0 state.old) 0) }
    ensures ok { OnOk result (state.new ≡ does (λ a. makes a object (drop 1 a.frame.operands) state.old) acting.goroutine.0 acting.line state.old) }
    ensures err { OnErr result (state.new ≡ state.old) }
{
    let made = state.make(object)?;
    exchange(
        state.frames_mut(acting.goroutine),
        acting.after,
        Value::Ref(made),
    );
    Ok(())
}
