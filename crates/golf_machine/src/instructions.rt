//! One instruction of a frame that is not leaving. On `Err` the state is unchanged.
//!
//! `within` has the instructions on the frame alone. `golf_chan` and `golf_sync` have those on channels and
//! on package sync.

ghost use Rattle.std.specs.Prelude.{◌≡◌, ℕ, true, IfOk, OnOk, OnErr};
ghost use Rattle.golf_theory.specs.Maps.{find};
ghost use Rattle.golf_data.specs.declared.code.Code.{Code};
ghost use Rattle.golf_model.specs.Conditions.{signals, broadcasts};
ghost use Rattle.golf_model.specs.State.{not_empty};
ghost use Rattle.golf_model.specs.Turn.{changes};
ghost use Rattle.golf_state.specs.ActorChanges.{does, does_by, Stands};
ghost use Rattle.golf_state.specs.Looked.{frames_of};
ghost use Rattle.golf_state.specs.Outcomes.{Comes, StaysIn};
ghost use Rattle.golf_machine.specs.Fits.{Fits, is_fit, outcome_in};
ghost use Rattle.golf_machine.specs.Within.{is_on_frame};

use crate::finalisers::{finalise, unfinalise};
use crate::frame_ends::{return_with_value, return_without_value};
use crate::new_frames::{call, defer_call, go};
use crate::printed_lines::print;
use crate::structures::{
    get_element, get_field, get_mutex, measure, new_channel, new_condition, new_object, new_slice,
    new_struct, set_element, set_field,
};
use crate::values::{panic_with, skip, store_global};
use crate::within::{Within, perform_within};
use golf_base::Memory;
use golf_chan::{close, receive, select, send};
use golf_data::{Code, Instr, Object, PanicKind};
use golf_state::{Acting, Outcome, State, carry_out};
use golf_sync::{
    cond_broadcast, cond_signal, cond_wait, group_add, group_wait, lock, read_lock, read_unlock,
    rw_lock, rw_unlock, unlock,
};
use std::alloc::Global;

// The outcome of an instruction that touches only the innermost frame.
fn outcome_in(came: Within) -> Outcome
    ensures { result ≡ outcome_in came }
{
    match came {
        Within::Done => Outcome::Done,
        Within::ZeroDivisor => Outcome::Panic(PanicKind::DivideByZero),
        Within::Stuck | Within::Beyond => Outcome::Stuck,
    }
}

// Does an instruction that touches only the innermost frame.
fn perform_on_frame(state: &mut State, acting: Acting, instr: &Instr) -> Result<Outcome, Memory>
    requires stands { Stands acting.goroutine.0 acting.after state.old }
    requires on_frame { is_on_frame instr.now ≡ true }
    ensures ok { IfOk result (λ outcome. (code : Code) (choice : ℕ) → Fits outcome (λ a. changes code instr.now a choice state.old) acting.goroutine.0 acting.line state.old state.new) }
    ensures err { OnErr result (state.new ≡ state.old) }
{
    let (frames, globals) = state.frames_and_globals(acting.goroutine);
    let count = frames.len();
    if count == 0 {
        return Ok(Outcome::Stuck);
    }
    let came = perform_within(frames.item_mut(count - 1), globals, instr)?;
    Ok(outcome_in(came))
}

// Signals a condition. A waiter that is requeued gets a ticket: if tickets run out, the answer is
// `Memory`.
fn signal(state: &mut State, acting: Acting) -> Result<Outcome, Memory>
    requires { Stands acting.goroutine.0 acting.after state.old }
    ensures ok { IfOk result (λ outcome. Comes outcome (λ a. signals a state.old) acting.goroutine.0 acting.line state.old state.new) }
    ensures err { OnErr result (state.new ≡ state.old) }
{
    if !state.has_tickets() {
        return Err(Memory);
    }
    Ok(cond_signal(state, acting))
}

// Broadcasts to a condition. Waiters that are requeued get tickets: if tickets run out, the answer is
// `Memory`.
fn broadcast(state: &mut State, acting: Acting) -> Result<Outcome, Memory>
    requires { Stands acting.goroutine.0 acting.after state.old }
    ensures ok { IfOk result (λ outcome. Comes outcome (λ a. broadcasts a state.old) acting.goroutine.0 acting.line state.old state.new) }
    ensures err { OnErr result (state.new ≡ state.old) }
{
    if !state.has_tickets() {
        return Err(Memory);
    }
    Ok(cond_broadcast(state, acting))
}

// Does an instruction, except for the rest of its outcome, which `carry_out` does. This is the second part
// of one match. The instructions of its first arm are the arms of `perform_within`. They come here only if
// they panic or no rule fits.
#[inline(always)]
fn operate(
    alloc: Global,
    code: &Code,
    state: &mut State,
    acting: Acting,
    instr: &Instr,
    choice: u64,
) -> Result<Outcome, Memory>
    requires stands { Stands acting.goroutine.0 acting.after state.old }
    requires stays { StaysIn (frames_of acting.goroutine.0 state.old) }
    ensures ok { IfOk result (λ outcome. Fits outcome (λ a. changes code.now instr.now a choice state.old) acting.goroutine.0 acting.line state.old state.new) }
    ensures err { OnErr result (state.new ≡ state.old) }
{
    match instr {
        Instr::Int(_)
        | Instr::Bool(_)
        | Instr::Text(_)
        | Instr::Unit
        | Instr::Nil
        | Instr::Load(_)
        | Instr::Store(_)
        | Instr::LoadGlobal(_)
        | Instr::Drop
        | Instr::Dup
        | Instr::Dup2
        | Instr::Neg
        | Instr::Not
        | Instr::Add
        | Instr::Sub
        | Instr::Mul
        | Instr::Div
        | Instr::Rem
        | Instr::Eq
        | Instr::Less
        | Instr::AtMost
        | Instr::Jump(_)
        | Instr::JumpIfNot(_) => perform_on_frame(state, acting, instr),
        Instr::StoreGlobal(global) => store_global(state, acting, *global),
        Instr::NewStruct(row) => new_struct(alloc, code, state, acting, *row),
        Instr::NewMutex => new_object(state, acting, Object::Mutex(false)),
        Instr::NewGroup => new_object(state, acting, Object::Group(0)),
        Instr::NewRw => new_object(state, acting, Object::Rw(0)),
        Instr::NewCond => new_condition(state, acting),
        Instr::Field(field) => get_field(state, acting, *field),
        Instr::SetField(field) => set_field(state, acting, *field),
        Instr::NewSlice(zero) => new_slice(alloc, state, acting, *zero),
        Instr::NewChan(zero) => new_channel(alloc, state, acting, *zero),
        Instr::Index => get_element(state, acting),
        Instr::SetIndex => set_element(state, acting),
        Instr::Len => measure(state, acting),
        Instr::Send => send(alloc, state, acting),
        Instr::Receive => receive(alloc, state, acting, false),
        Instr::ReceiveOk => receive(alloc, state, acting, true),
        Instr::Close => Ok(close(state, acting)),
        Instr::Select(cases, otherwise) => {
            let cases = cases.as_slice();
            select(alloc, state, acting, cases, *otherwise, choice)
        }
        Instr::Lock => lock(alloc, state, acting),
        Instr::Unlock => Ok(unlock(state, acting)),
        Instr::GroupAdd => Ok(group_add(state, acting)),
        Instr::GroupWait => group_wait(alloc, state, acting),
        Instr::RwLock => rw_lock(alloc, state, acting),
        Instr::RwUnlock => Ok(rw_unlock(state, acting)),
        Instr::ReadLock => read_lock(alloc, state, acting),
        Instr::ReadUnlock => Ok(read_unlock(state, acting)),
        Instr::CondMutex => get_mutex(state, acting),
        Instr::CondWait => cond_wait(alloc, state, acting),
        Instr::CondSignal => signal(state, acting),
        Instr::CondBroadcast => broadcast(state, acting),
        Instr::Call(number, count) => call(alloc, code, state, acting, *number, *count),
        Instr::Go(number, count) => go(alloc, code, state, acting, *number, *count),
        Instr::Defer(number, count) => defer_call(alloc, state, acting, *number, *count),
        Instr::Return => return_without_value(state, acting),
        Instr::ReturnValue => return_with_value(state, acting),
        Instr::Print(count) => print(alloc, code, state, acting, *count),
        Instr::Collect => Ok(skip(state, acting)),
        Instr::SetFinalizer(function) => finalise(state, acting, *function),
        Instr::ClearFinalizer => unfinalise(state, acting),
        Instr::Panic => panic_with(state, acting),
    }
}

// Whether a rule fits.
#[inline(always)]
fn is_fit(outcome: Outcome) -> bool
    ensures { result ≡ is_fit outcome }
{
    !matches!(outcome, Outcome::Stuck)
}

/// Does an instruction of a frame that is not leaving. A `select` takes the ready case at the place
/// `choice`, counted round. Returns whether a rule fits. It takes all its memory first: on `Memory` the
/// state is unchanged.
#[inline(always)]
pub fn perform(
    alloc: Global,
    code: &Code,
    state: &mut State,
    acting: Acting,
    instr: &Instr,
    choice: u64,
) -> Result<bool, Memory>
    requires stands { Stands acting.goroutine.0 acting.after state.old }
    requires stays { StaysIn (frames_of acting.goroutine.0 state.old) }
    ensures ok { OnOk result (state.new ≡ does (λ a. changes code.now instr.now a choice state.old) acting.goroutine.0 acting.line state.old) }
    ensures fits { IfOk result (λ fits. fits ≡ not_empty (does_by (λ a. changes code.now instr.now a choice state.old) acting.goroutine.0 acting.line (find acting.goroutine.0 state.old.goroutines))) }
    ensures err { OnErr result (state.new ≡ state.old) }
{
    let outcome = operate(alloc, code, state, acting, instr, choice)?;
    carry_out(state, acting, outcome);
    Ok(is_fit(outcome))
}
