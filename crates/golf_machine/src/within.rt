//! Instructions that touch only the innermost frame. They may read globals. On `Err` the frame is
//! unchanged.

ghost use Rattle.std.specs.Prelude.{◌≡◌, ◌<◌, ◌≤◌, ◌+◌, ◌^◌, ◌∷◌, [], ℕ, length, drop, IfOk, OnErr, slice_get, true};
ghost use Rattle.std.specs.Prelude.{false};
ghost use Rattle.golf_data.specs.declared.code.Code.{Code};
ghost use Rattle.golf_model.specs.Actors.{next, jumps};
ghost use Rattle.golf_model.specs.Arithmetic.{pushes, loads, stores, loads_global, drops, doubles, doubles_two};
ghost use Rattle.golf_model.specs.Arithmetic.{negates, inverts, computes, divides, compares, equates, jumps_unless};
ghost use Rattle.golf_model.specs.State.{State};
ghost use Rattle.golf_model.specs.Turn.{changes, is_collection};
ghost use Rattle.golf_model.specs.Views.{frame_view};
ghost use Rattle.golf_state.specs.FrameChanges.{went};
ghost use Rattle.golf_state.specs.Operands.{two_of};
ghost use Rattle.golf_machine.specs.Operations.{int_in, ints_in, bool_in, operation_of, division_of, comparison_of};
ghost use Rattle.golf_machine.specs.Within.{HasTriedWithin, is_on_frame};
ghost use Rattle.golf_machine.specs.declared.within.Within.TheVariants as within;

use crate::arithmetic::{Comparison, Division, Operation, are_equal, holds, part_of, result_of};
use golf_base::{List, Memory};
use golf_data::{Frame, Instr, Value};
use golf_state::{bool_in, int_in};

/// The result of an instruction that is tried on the innermost frame alone.
#[derive(Clone, Copy, Debug, PartialEq, Eq)]
pub(crate) enum Within {
    /// It is done.
    Done,
    /// It panics, since the divisor is 0. The frame is unchanged so far.
    ZeroDivisor,
    /// No rule fits. The frame is unchanged.
    Stuck,
    /// It touches more than the frame. The frame is unchanged.
    Beyond,
}

// The last operand, or `None`.
#[inline(always)]
fn last(frame: &Frame) -> Option<Value>
    ensures { result ≡ slice_get (frame_view frame.now).operands 0 }
{
    frame.values.operands().last().copied()
}

// The last two operands, the last one second, or `None` if there are fewer.
#[inline(always)]
fn last_two(frame: &Frame) -> Option<(Value, Value)>
    ensures { result ≡ two_of (frame_view frame.now).operands }
{
    let items = frame.values.operands();
    let count = items.len();
    if count < 2 {
        return None;
    }
    Some((items[count - 2], items[count - 1]))
}

// The last operand if it is an integer, or `None`.
#[inline(always)]
fn last_int(frame: &Frame) -> Option<i64>
    ensures { result ≡ int_in (frame_view frame.now).operands }
{
    int_in(last(frame)?)
}

// The last operand if it is a truth value, or `None`.
#[inline(always)]
fn last_bool(frame: &Frame) -> Option<bool>
    ensures { result ≡ bool_in (frame_view frame.now).operands }
{
    bool_in(last(frame)?)
}

// The last two operands if both are integers, or `None`.
#[inline(always)]
fn last_ints(frame: &Frame) -> Option<(i64, i64)>
    ensures { result ≡ ints_in (frame_view frame.now).operands }
{
    let (first, second) = last_two(frame)?;
    let first = int_in(first)?;
    let second = int_in(second)?;
    Some((first, second))
}

// Goes on at `target`, without the last `taken` operands.
#[inline(always)]
fn go_to(frame: &mut Frame, target: u32, taken: usize)
    ensures { frame_view frame.new ≡ went target taken [] (frame_view frame.old) }
{
    let keep = frame.values.operand_count().saturating_sub(taken);
    frame.values.truncate(keep);
    frame.at = target;
}

// Goes on after the instruction, with a value in place of the last `taken` operands.
#[inline(always)]
fn put(frame: &mut Frame, taken: usize, value: Value)
    requires place { frame.old.at + 1 < 2 ^ 32 }
    requires some { 0 < taken }
    requires there { taken ≤ length (frame_view frame.old).operands }
    ensures { frame_view frame.new ≡ next (frame_view frame.old) (value ∷ drop taken (frame_view frame.old).operands) }
{
    let keep = frame.values.operand_count() - taken;
    frame.values.truncate(keep);
    frame.values.push_ready(value);
    frame.at += 1;
}

// Pushes a value.
#[inline(always)]
fn push(frame: &mut Frame, value: Value) -> Result<Within, Memory>
    requires place { frame.old.at + 1 < 2 ^ 32 }
    ensures ok { IfOk result (λ came. HasTriedWithin true came (λ a. pushes a value) (frame_view frame.old) (frame_view frame.new)) }
    ensures err { OnErr result (frame_view frame.new ≡ frame_view frame.old) }
{
    frame.values.push(value)?;
    frame.at += 1;
    Ok(Within::Done)
}

// The value of a slot, or `None`.
#[inline(always)]
fn slot_of(frame: &Frame, slot: u32) -> Option<Value>
    ensures { result ≡ slice_get frame.now.values.slots slot }
{
    frame.values.slots().get(slot as usize).copied()
}

// Pushes a slot, if it is there.
#[inline(always)]
fn load(frame: &mut Frame, slot: u32) -> Result<Within, Memory>
    requires place { frame.old.at + 1 < 2 ^ 32 }
    ensures ok { IfOk result (λ came. HasTriedWithin true came (λ a. loads a slot) (frame_view frame.old) (frame_view frame.new)) }
    ensures err { OnErr result (frame_view frame.new ≡ frame_view frame.old) }
{
    match slot_of(frame, slot) {
        Some(value) => push(frame, value),
        None => Ok(Within::Stuck),
    }
}

// Stores the last operand in a slot, if both are there.
#[inline(always)]
fn store(frame: &mut Frame, slot: u32) -> Within
    requires place { frame.old.at + 1 < 2 ^ 32 }
    ensures { HasTriedWithin true result (λ a. stores a slot) (frame_view frame.old) (frame_view frame.new) }
{
    if slot as usize >= frame.values.slot_count() {
        return Within::Stuck;
    }
    let Some(value) = frame.values.pop() else {
        return Within::Stuck;
    };
    frame.values.set(slot as usize, value);
    frame.at += 1;
    Within::Done
}

// The value of a global, or `None`.
#[inline(always)]
fn global_of(globals: &[Value], global: u32) -> Option<Value>
    ensures { result ≡ slice_get globals.now global }
{
    globals.get(global as usize).copied()
}

// Pushes a global, if it is there.
#[inline(always)]
fn load_global(frame: &mut Frame, globals: &[Value], global: u32) -> Result<Within, Memory>
    requires place { frame.old.at + 1 < 2 ^ 32 }
    ensures ok { IfOk result (λ came. (s : State) → s.globals ≡ globals.now → HasTriedWithin true came (λ a. loads_global a global s) (frame_view frame.old) (frame_view frame.new)) }
    ensures err { OnErr result (frame_view frame.new ≡ frame_view frame.old) }
{
    match global_of(globals, global) {
        Some(value) => push(frame, value),
        None => Ok(Within::Stuck),
    }
}

// Drops the last operand, if there is one.
fn drop_last(frame: &mut Frame) -> Within
    requires place { frame.old.at + 1 < 2 ^ 32 }
    ensures { HasTriedWithin true result drops (frame_view frame.old) (frame_view frame.new) }
{
    let Some(_) = last(frame) else {
        return Within::Stuck;
    };
    let after = frame.at + 1;
    go_to(frame, after, 1);
    Within::Done
}

// Pushes the last operand once more, if there is one.
fn double(frame: &mut Frame) -> Result<Within, Memory>
    requires place { frame.old.at + 1 < 2 ^ 32 }
    ensures ok { IfOk result (λ came. HasTriedWithin true came doubles (frame_view frame.old) (frame_view frame.new)) }
    ensures err { OnErr result (frame_view frame.new ≡ frame_view frame.old) }
{
    match last(frame) {
        Some(value) => push(frame, value),
        None => Ok(Within::Stuck),
    }
}

// Pushes the last two operands once more, if there are two.
fn double_two(frame: &mut Frame) -> Result<Within, Memory>
    requires place { frame.old.at + 1 < 2 ^ 32 }
    ensures ok { IfOk result (λ came. HasTriedWithin true came doubles_two (frame_view frame.old) (frame_view frame.new)) }
    ensures err { OnErr result (frame_view frame.new ≡ frame_view frame.old) }
{
    let Some((first, second)) = last_two(frame) else {
        return Ok(Within::Stuck);
    };
    frame.values.reserve(2)?;
    frame.values.push_ready(first);
    frame.values.push_ready(second);
    frame.at += 1;
    Ok(Within::Done)
}

// Negates an integer.
fn negate(frame: &mut Frame) -> Within
    requires place { frame.old.at + 1 < 2 ^ 32 }
    ensures { HasTriedWithin true result negates (frame_view frame.old) (frame_view frame.new) }
{
    let Some(n) = last_int(frame) else {
        return Within::Stuck;
    };
    put(frame, 1, Value::Int(n.wrapping_neg()));
    Within::Done
}

// Inverts a truth value.
fn invert(frame: &mut Frame) -> Within
    requires place { frame.old.at + 1 < 2 ^ 32 }
    ensures { HasTriedWithin true result inverts (frame_view frame.old) (frame_view frame.new) }
{
    let Some(b) = last_bool(frame) else {
        return Within::Stuck;
    };
    put(frame, 1, Value::Bool(!b));
    Within::Done
}

// Computes an integer from the last two operands.
#[inline(always)]
fn compute(frame: &mut Frame, operation: Operation) -> Within
    requires place { frame.old.at + 1 < 2 ^ 32 }
    ensures { HasTriedWithin true result (computes (operation_of operation)) (frame_view frame.old) (frame_view frame.new) }
{
    let Some((m, n)) = last_ints(frame) else {
        return Within::Stuck;
    };
    put(frame, 2, Value::Int(result_of(operation, m, n)));
    Within::Done
}

// Divides the operand before the last one by the last one. It panics if the divisor is 0.
fn divide(frame: &mut Frame, division: Division) -> Within
    requires place { frame.old.at + 1 < 2 ^ 32 }
    ensures { HasTriedWithin true result (divides (division_of division)) (frame_view frame.old) (frame_view frame.new) }
{
    let Some((m, n)) = last_ints(frame) else {
        return Within::Stuck;
    };
    if n == 0 {
        return Within::ZeroDivisor;
    }
    put(frame, 2, Value::Int(part_of(division, m, n)));
    Within::Done
}

// Compares the last two operands, which are integers.
#[inline(always)]
fn compare(frame: &mut Frame, comparison: Comparison) -> Within
    requires place { frame.old.at + 1 < 2 ^ 32 }
    ensures { HasTriedWithin true result (compares (comparison_of comparison)) (frame_view frame.old) (frame_view frame.new) }
{
    let Some((m, n)) = last_ints(frame) else {
        return Within::Stuck;
    };
    put(frame, 2, Value::Bool(holds(comparison, m, n)));
    Within::Done
}

// Whether the last two operands, which are of one kind, are equal.
fn equate(frame: &mut Frame) -> Within
    requires place { frame.old.at + 1 < 2 ^ 32 }
    ensures { HasTriedWithin true result equates (frame_view frame.old) (frame_view frame.new) }
{
    let Some((x, y)) = last_two(frame) else {
        return Within::Stuck;
    };
    let Some(equal) = are_equal(x, y) else {
        return Within::Stuck;
    };
    put(frame, 2, Value::Bool(equal));
    Within::Done
}

// Goes on at the target if the last operand is false.
#[inline(always)]
fn jump_unless(frame: &mut Frame, target: u32) -> Within
    requires place { frame.old.at + 1 < 2 ^ 32 }
    ensures { HasTriedWithin true result (λ a. jumps_unless a target) (frame_view frame.old) (frame_view frame.new) }
{
    let Some(b) = last_bool(frame) else {
        return Within::Stuck;
    };
    let after = if b { frame.at + 1 } else { target };
    go_to(frame, after, 1);
    Within::Done
}

/// Does an instruction of a frame, with these globals, if it touches only that frame.
#[inline(always)]
pub(crate) fn perform_within(
    frame: &mut Frame,
    globals: &[Value],
    instr: &Instr,
) -> Result<Within, Memory>
    requires place { frame.old.at + 1 < 2 ^ 32 }
    ensures ok { IfOk result (λ came. (code : Code) (choice : ℕ) (s : State) → s.globals ≡ globals.now → HasTriedWithin (is_on_frame instr.now) came (λ a. changes code instr.now a choice s) (frame_view frame.old) (frame_view frame.new)) }
    ensures plain { IfOk result (λ came. came ≡ within.Done → is_collection instr.now ≡ false) }
    ensures err { OnErr result (frame_view frame.new ≡ frame_view frame.old) }
{
    match instr {
        Instr::Int(n) => push(frame, Value::Int(*n)),
        Instr::Bool(b) => push(frame, Value::Bool(*b)),
        Instr::Text(k) => push(frame, Value::Text(*k)),
        Instr::Unit => push(frame, Value::Unit),
        Instr::Nil => push(frame, Value::Nil),
        Instr::Load(slot) => load(frame, *slot),
        Instr::Store(slot) => Ok(store(frame, *slot)),
        Instr::LoadGlobal(global) => load_global(frame, globals, *global),
        Instr::Drop => Ok(drop_last(frame)),
        Instr::Dup => double(frame),
        Instr::Dup2 => double_two(frame),
        Instr::Neg => Ok(negate(frame)),
        Instr::Not => Ok(invert(frame)),
        Instr::Add => Ok(compute(frame, Operation::Add)),
        Instr::Sub => Ok(compute(frame, Operation::Sub)),
        Instr::Mul => Ok(compute(frame, Operation::Mul)),
        Instr::Div => Ok(divide(frame, Division::Quotient)),
        Instr::Rem => Ok(divide(frame, Division::Remainder)),
        Instr::Eq => Ok(equate(frame)),
        Instr::Less => Ok(compare(frame, Comparison::Less)),
        Instr::AtMost => Ok(compare(frame, Comparison::AtMost)),
        Instr::Jump(target) => {
            go_to(frame, *target, 0);
            Ok(Within::Done)
        }
        Instr::JumpIfNot(target) => Ok(jump_unless(frame, *target)),
        _ => Ok(Within::Beyond),
    }
}
