//! The innermost frame of a goroutine, and how it goes on.
//!
//! On `Err` the frames are unchanged. A blocked goroutine has room for two more operands, so no wake takes
//! memory.

ghost use Rattle.std.specs.Prelude.{◌≡◌, ◌<◌, ◌≤◌, ◌-◌, ◌++◌, [], length, reverse, OnOk, OnErr, Some, slice_get};
ghost use Rattle.std.specs.Borrow.{sem};
ghost use Rattle.golf_model.specs.Views.{frame_view, frame_views, goroutine_view};
ghost use Rattle.golf_model.specs.Wakes.{resumed_frame, unwinding, on_top};
ghost use Rattle.golf_state.specs.Looked.{advanced, values_of};
ghost use Rattle.golf_state.specs.FrameChanges.{went, exchanged, has_returned, has_deferred};
ghost use Rattle.golf_state_goroutines.specs.Roominess.{HasRoom};
ghost use Rattle.golf_state.specs.Wakenings.{wakened};
ghost use Rattle.golf_state.specs.LendingTop.{LendsTop};

use golf_base::{List, Memory};
use golf_data::{Deferred, Fault, Frame, FrameValues, Goroutine, Leaving, Mode, Value, Wait};

/// The values that a goroutine gets when it goes on: none, one, or a value and whether it was sent.
#[derive(Clone, Copy, Debug, PartialEq, Eq)]
pub enum Given {
    Nothing,
    One(Value),
    Two(Value, bool),
}

/// Lends the innermost frame, which is the last one.
#[inline(always)]
pub fn top_mut(frames: &mut List<Frame>) -> &mut Frame
    requires { 0 < length frames.old }
    ensures* writes_back { sem 𝓛 (LendsTop frames.entry result) }
    ensures value { slice_get frames.old (length frames.old - 1) ≡ Some result.now }
{
    let at = frames.len() - 1;
    frames.item_mut(at)
}

// Puts the values on top of the operands. There is room for them.
#[inline(always)]
fn give(values: &mut FrameValues, given: Given)
    requires { 2 ≤ values.old.spare }
    ensures slots { values.new.slots ≡ values.old.slots }
    ensures operands { reverse values.new.operands ≡ values_of given ++ reverse values.old.operands }
{
    match given {
        Given::Nothing => {}
        Given::One(value) => values.push_ready(value),
        Given::Two(value, sent) => {
            values.push_ready(value);
            values.push_ready(Value::Bool(sent));
        }
    }
}

// Lets the frame go on at `after`, without its last `taken` operands, and makes room for two more.
#[inline(always)]
fn settle_frame(frame: &mut Frame, after: u32, taken: usize) -> Result<(), Memory>
    ensures ok { OnOk result (frame_view frame.new ≡ went after taken [] (frame_view frame.old)) }
    ensures room { OnOk result (2 ≤ frame.new.values.spare) }
    ensures kept { frame.old.values.spare ≤ frame.new.values.spare }
    ensures err { OnErr result (frame_view frame.new ≡ frame_view frame.old) }
{
    frame.values.reserve(2)?;
    advance_frame(frame, after, taken);
    Ok(())
}

// Lets the frame go on at `after`, with these values in place of its last `taken` operands.
#[inline(always)]
fn advance_frame_with(
    frame: &mut Frame,
    after: u32,
    taken: usize,
    given: Given,
) -> Result<(), Memory>
    ensures ok { OnOk result (frame_view frame.new ≡ went after taken (values_of given) (frame_view frame.old)) }
    ensures err { OnErr result (frame_view frame.new ≡ frame_view frame.old) }
{
    settle_frame(frame, after, taken)?;
    give(&mut frame.values, given);
    Ok(())
}

/// Lets the innermost frame go on at `after`, with these values in place of its last `taken` operands.
#[inline(always)]
pub fn advance_with(
    frames: &mut List<Frame>,
    after: u32,
    taken: usize,
    given: Given,
) -> Result<(), Memory>
    ensures ok { OnOk result (frame_views frames.new ≡ on_top (went after taken (values_of given)) (frame_views frames.old)) }
    ensures err { OnErr result (frame_views frames.new ≡ frame_views frames.old) }
{
    if !frames.is_empty() {
        advance_frame_with(top_mut(frames), after, taken, given)?;
    }
    Ok(())
}

/// Lets the frame go on at `after`, without its last `taken` operands.
#[inline(always)]
pub fn advance_frame(frame: &mut Frame, after: u32, taken: usize)
    ensures frame { frame_view frame.new ≡ went after taken [] (frame_view frame.old) }
    ensures room { frame.old.values.spare ≤ frame.new.values.spare }
{
    let keep = frame.values.operand_count().saturating_sub(taken);
    frame.values.truncate(keep);
    frame.at = after;
}

/// Lets the innermost frame go on at `after`, without its last `taken` operands.
#[inline(always)]
pub fn advance(frames: &mut List<Frame>, after: u32, taken: usize)
    ensures { frame_views frames.new ≡ on_top (went after taken []) (frame_views frames.old) }
{
    if !frames.is_empty() {
        advance_frame(top_mut(frames), after, taken);
    }
}

// Replaces the last operand and lets the frame go on at `after`. Without an operand nothing changes.
#[inline(always)]
fn exchange_last(frame: &mut Frame, after: u32, value: Value)
    ensures { frame_view frame.new ≡ exchanged after value (frame_view frame.old) }
{
    if let Some(_) = frame.values.pop() {
        frame.values.push_ready(value);
        frame.at = after;
    }
}

/// Replaces the last operand of the innermost frame and lets the frame go on at `after`. Without an operand
/// nothing changes.
#[inline(always)]
pub fn exchange(frames: &mut List<Frame>, after: u32, value: Value)
    ensures { frame_views frames.new ≡ on_top (exchanged after value) (frame_views frames.old) }
{
    if !frames.is_empty() {
        exchange_last(top_mut(frames), after, value);
    }
}

// Lets the frame begin to unwind: it loses its operands.
fn unwind_frame(frame: &mut Frame, fault: Fault)
    ensures { frame_view frame.new ≡ unwinding fault (frame_view frame.old) }
{
    frame.values.clear();
    frame.leaving = Leaving::Unwinding(fault);
}

/// Lets the innermost frame unwind.
pub fn unwind(frames: &mut List<Frame>, fault: Fault)
    ensures { frame_views frames.new ≡ on_top (unwinding fault) (frame_views frames.old) }
{
    if !frames.is_empty() {
        unwind_frame(top_mut(frames), fault);
    }
}

// Lets the frame begin to return.
fn return_in(frame: &mut Frame, after: u32, taken: usize, value: Option<Value>)
    ensures { frame_view frame.new ≡ has_returned after taken value (frame_view frame.old) }
{
    advance_frame(frame, after, taken);
    frame.leaving = Leaving::Returning(value);
}

/// Lets the innermost frame return, with a value or none. It loses its last `taken` operands, and its place
/// becomes `after`, behind the return.
pub fn begin_return(frames: &mut List<Frame>, after: u32, taken: usize, value: Option<Value>)
    ensures { frame_views frames.new ≡ on_top (has_returned after taken value) (frame_views frames.old) }
{
    if !frames.is_empty() {
        return_in(top_mut(frames), after, taken, value);
    }
}

// Defers a call, and lets the frame go on at `after`, without its last `taken` operands.
fn defer_in(frame: &mut Frame, after: u32, taken: usize, deferred: Deferred) -> Result<(), Memory>
    ensures ok { OnOk result (frame_view frame.new ≡ has_deferred after taken deferred (frame_view frame.old)) }
    ensures err { OnErr result (frame_view frame.new ≡ frame_view frame.old) }
{
    frame.deferred.push(deferred)?;
    advance_frame(frame, after, taken);
    Ok(())
}

/// Defers a call in the innermost frame, which goes on at `after`, without its last `taken` operands.
pub fn defer(
    frames: &mut List<Frame>,
    after: u32,
    taken: usize,
    deferred: Deferred,
) -> Result<(), Memory>
    ensures ok { OnOk result (frame_views frames.new ≡ on_top (has_deferred after taken deferred) (frame_views frames.old)) }
    ensures err { OnErr result (frame_views frames.new ≡ frame_views frames.old) }
{
    if !frames.is_empty() {
        defer_in(top_mut(frames), after, taken, deferred)?;
    }
    Ok(())
}

/// Lets the goroutine's innermost frame go on at `after`, without its last `taken` operands, and makes room
/// for two more.
#[inline(always)]
pub fn settle(goroutine: &mut Goroutine, after: u32, taken: usize) -> Result<(), Memory>
    ensures ok { OnOk result (goroutine_view goroutine.new ≡ advanced after taken (goroutine_view goroutine.old)) }
    ensures room { OnOk result (HasRoom goroutine.new.frames) }
    ensures kept { HasRoom goroutine.old.frames → HasRoom goroutine.new.frames }
    ensures err { OnErr result (goroutine_view goroutine.new ≡ goroutine_view goroutine.old) }
    ensures mode { goroutine.new.mode ≡ goroutine.old.mode }
{
    if !goroutine.frames.is_empty() {
        settle_frame(top_mut(&mut goroutine.frames), after, taken)?;
    }
    Ok(())
}

/// How a blocked goroutine goes on.
#[derive(Clone, Copy, Debug, PartialEq, Eq)]
pub enum Wakening {
    /// At its place, without a value.
    Released,
    /// At the target of its wait, if the wait has one, with these values on top of its operands.
    Served(Wait, Given),
    /// Its innermost frame unwinds.
    Unwound(Fault),
}

// Lets the frame go on at the target of the wait, if it has one, with these values on top of the operands.
#[inline(always)]
fn resume_frame(frame: &mut Frame, wait: Wait, given: Given)
    requires { 2 ≤ frame.old.values.spare }
    ensures { frame_view frame.new ≡ resumed_frame wait (values_of given) (frame_view frame.old) }
{
    frame.at = wait.target.unwrap_or(frame.at);
    give(&mut frame.values, given);
}

// Lets the innermost frame go on at the target of the wait, if it has one, with these values on top of its
// operands.
#[inline(always)]
fn resume(frames: &mut List<Frame>, wait: Wait, given: Given)
    requires { HasRoom frames.old }
    ensures { frame_views frames.new ≡ on_top (resumed_frame wait (values_of given)) (frame_views frames.old) }
{
    if !frames.is_empty() {
        resume_frame(top_mut(frames), wait, given);
    }
}

/// Lets the blocked goroutine run again, as `how` says. It takes no memory.
#[inline(always)]
pub fn waken(goroutine: &mut Goroutine, how: Wakening)
    requires { HasRoom goroutine.old.frames }
    ensures { goroutine_view goroutine.new ≡ wakened how (goroutine_view goroutine.old) }
{
    match how {
        Wakening::Released => {}
        Wakening::Served(wait, given) => resume(&mut goroutine.frames, wait, given),
        Wakening::Unwound(fault) => unwind(&mut goroutine.frames, fault),
    }
    goroutine.mode = Mode::Running;
}
