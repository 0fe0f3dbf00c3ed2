//! The first frames of calls, goroutines, deferred calls and finalisers. On `Err` the state is unchanged.
//!
//! A frame has room for all operands of its function, and for one more. A goroutine has at most 10,000 frames.

ghost use Rattle.std.specs.Prelude.{◌≡◌, ◌<◌, ◌∷◌, [], ℕ, Some, None, IfOk, OnOk, OnErr, option_map, reverse};
ghost use Rattle.std.specs.Prelude.{slice_get, option_to_list, true};
ghost use Rattle.golf_model.specs.Views.{frame_view, frame_views};
ghost use Rattle.golf_model.specs.State.{slots_of, call_frame, not_empty};
ghost use Rattle.golf_model.specs.Changes.{apply_all, finish};
ghost use Rattle.golf_data.specs.declared.goroutine.Ending.{Ending};
ghost use Rattle.golf_data.specs.declared.goroutine.PanicKind.{PanicKind};
ghost use Rattle.golf_model.specs.Calls.{calls, spawns, defers};
ghost use Rattle.golf_model.specs.Turn.{turn_of};
ghost use Rattle.golf_theory.specs.Maps.{find};
ghost use Rattle.golf_state.specs.Operands.{operands_of};
ghost use Rattle.golf_state.specs.ActorChanges.{does, does_by, Stands};
ghost use Rattle.golf_machine.specs.Acts.{Acts, HasNoFrame, last_of, deferred_of, begins_latest};
ghost use Rattle.golf_machine.specs.Fits.{Fits};

use golf_base::{GoroutineId, List, Memory};
use golf_data::{
    Code, Deferred, DeferredCalls, Ending, Frame, FrameValues, Function, Leaving, PanicKind, Value,
};
use golf_state::{Acting, Outcome, State, defer, enter, enter_deferred, proceed};
use std::alloc::Global;

/// The most frames that a goroutine may have (this runtime's rule).
const MOST_FRAMES: usize = 10_000;

// The slots of a new frame: the arguments, and 0 in the others. An argument that no instruction reads
// becomes 0. A goroutine that blocks takes an operand at least and gets up to two values when it is served: the
// frame has room for them from the start.
fn values_of(alloc: Global, function: &Function, arguments: &[Value]) -> Result<FrameValues, Memory>
    ensures slots { IfOk result (λ values. values.slots ≡ slots_of function.now arguments.now) }
    ensures operands { IfOk result (λ values. values.operands ≡ []) }
{
    let rest = (function.slots as usize).saturating_sub(arguments.len());
    let depth = (function.depth as usize).saturating_add(1);
    let mut values = FrameValues::of(alloc, arguments, rest, depth)?;
    match function.live.as_slice().first() {
        Some(mask) => {
            values.clear_under(*mask);
            Ok(values)
        }
        None => Ok(values),
    }
}

// The first frame of a call of the function of this number, or `None` if the code has no such function.
fn open_frame(
    alloc: Global,
    code: &Code,
    number: u32,
    arguments: &[Value],
    discards: bool,
) -> Result<Option<Frame>, Memory>
    ensures { IfOk result (λ frame. option_map frame_view frame ≡ call_frame code.now number arguments.now discards) }
{
    let Some(function) = code.functions.as_slice().get(number as usize) else {
        return Ok(None);
    };
    let values = values_of(alloc, function, arguments)?;
    Ok(Some(Frame {
        function: number,
        at: 0,
        values,
        deferred: DeferredCalls::new(alloc),
        leaving: Leaving::No,
        discards,
    }))
}

// The last `count` items in their order, or `None` if there are fewer.
fn last_items(items: &[Value], count: usize) -> Option<&[Value]>
    ensures { option_map (λ vs. vs.now) result ≡ last_of count (reverse items.now) }
{
    if items.len() < count {
        return None;
    }
    let (_, last) = items.split_at(items.len() - count);
    Some(last)
}

/// Returns the last `count` operands of a goroutine, in source order, or `None` if there are fewer.
pub fn last_values(state: &State, g: GoroutineId, count: u32) -> Option<&[Value]>
    ensures { option_map (λ vs. vs.now) result ≡ last_of count (operands_of g.0 state.now) }
{
    match state.frame(g) {
        Some(frame) => last_items(frame.values.operands(), count as usize),
        None => last_items(&[], count as usize),
    }
}

/// Calls a function with the last `count` operands. One frame too many is a fatal error.
#[tactic(auto, using(crate::proofs::Frames::kept))]
pub fn call(
    alloc: Global,
    code: &Code,
    state: &mut State,
    acting: Acting,
    number: u32,
    count: u32,
) -> Result<Outcome, Memory>
    requires { Stands acting.goroutine.0 acting.after state.old }
    ensures ok { IfOk result (λ outcome. Fits outcome (λ a. calls code.now a number count) acting.goroutine.0 acting.line state.old state.new) }
    ensures err { OnErr result (state.new ≡ state.old) }
{
    let g = acting.goroutine;
    let Some(arguments) = last_values(state, g, count) else {
        return Ok(Outcome::Stuck);
    };
    let Some(frame) = open_frame(alloc, code, number, arguments, false)? else {
        return Ok(Outcome::Stuck);
    };
    if state.depth(g) >= MOST_FRAMES {
        return Ok(Outcome::Panic(PanicKind::StackOverflow));
    }
    enter(state.frames_mut(g), frame, acting.after, count as usize)?;
    Ok(Outcome::Done)
}

// A list of one frame, with room for no other.
fn frames_of(alloc: Global, frame: Frame) -> Result<List<Frame>, Memory>
    ensures { IfOk result (λ frames. frames ≡ frame ∷ []) }
{
    Ok(List::from_vec(vec![in alloc; frame]?))
}

/// Starts a goroutine on a function with the last `count` operands.
pub fn go(
    alloc: Global,
    code: &Code,
    state: &mut State,
    acting: Acting,
    number: u32,
    count: u32,
) -> Result<Outcome, Memory>
    requires { Stands acting.goroutine.0 acting.after state.old }
    ensures ok { IfOk result (λ outcome. Fits outcome (λ a. spawns code.now a number count) acting.goroutine.0 acting.line state.old state.new) }
    ensures err { OnErr result (state.new ≡ state.old) }
{
    let g = acting.goroutine;
    let Some(arguments) = last_values(state, g, count) else {
        return Ok(Outcome::Stuck);
    };
    let Some(frame) = open_frame(alloc, code, number, arguments, true)? else {
        return Ok(Outcome::Stuck);
    };
    state.spawn(frames_of(alloc, frame)?, acting.line)?;
    proceed(state, acting, acting.after, count as usize);
    Ok(Outcome::Done)
}

/// Defers a call of a function with the last `count` operands.
#[tactic(auto, using(crate::proofs::Frames::kept))]
pub fn defer_call(
    alloc: Global,
    state: &mut State,
    acting: Acting,
    number: u32,
    count: u32,
) -> Result<Outcome, Memory>
    requires { Stands acting.goroutine.0 acting.after state.old }
    ensures ok { IfOk result (λ outcome. Fits outcome (λ a. defers a number count) acting.goroutine.0 acting.line state.old state.new) }
    ensures err { OnErr result (state.new ≡ state.old) }
{
    let g = acting.goroutine;
    let Some(values) = last_values(state, g, count) else {
        return Ok(Outcome::Stuck);
    };
    let mut arguments = List::new(alloc);
    arguments.extend_from_slice(values)?;
    let deferred = Deferred {
        function: number,
        arguments,
    };
    defer(state.frames_mut(g), acting.after, count as usize, deferred)?;
    Ok(Outcome::Done)
}

/// Returns the latest deferred call of a goroutine's innermost frame, or `None`.
pub fn latest_deferred(state: &State, g: GoroutineId) -> Option<&Deferred>
    ensures { option_map (λ d. d.now) result ≡ slice_get (deferred_of g.0 state.now) 0 }
{
    let frame = state.frame(g)?;
    frame.deferred.as_slice().last()
}

/// Begins the latest deferred call of a goroutine's innermost frame, if it has one. Returns whether a rule
/// fits.
#[tactic(auto, using(crate::proofs::Frames::kept))]
pub fn begin_deferred(
    alloc: Global,
    code: &Code,
    state: &mut State,
    g: GoroutineId,
    line: u32,
) -> Result<bool, Memory>
    requires { Acts g.0 state.old }
    ensures ok { OnOk result (state.new ≡ does (λ a. begins_latest code.now a a.frame.deferred) g.0 line state.old) }
    ensures fits { IfOk result (λ fits. fits ≡ not_empty (does_by (λ a. begins_latest code.now a a.frame.deferred) g.0 line (find g.0 state.old.goroutines))) }
    ensures err { OnErr result (state.new ≡ state.old) }
{
    let Some(deferred) = latest_deferred(state, g) else {
        return Ok(false);
    };
    let arguments = deferred.arguments.as_slice();
    let Some(frame) = open_frame(alloc, code, deferred.function, arguments, true)? else {
        return Ok(false);
    };
    if state.depth(g) >= MOST_FRAMES {
        // One frame too many ends the program.
        state.finish(Ending::Panicked {
            kind: PanicKind::StackOverflow,
            goroutine: g,
            line,
        });
        return Ok(true);
    }
    enter_deferred(state.frames_mut(g), frame)?;
    Ok(true)
}

/// Takes the first entry of the finaliser queue and begins its function on its object. The goroutine has no
/// frame. Returns whether a rule fits: the goroutine is goroutine 0, the queue has an entry, and the code
/// has the function.
#[tactic(auto, using(crate::proofs::Frames::kept))]
pub fn begin_queued(
    alloc: Global,
    code: &Code,
    state: &mut State,
    g: GoroutineId,
) -> Result<bool, Memory>
    requires { HasNoFrame g.0 state.old }
    ensures ok { OnOk result ((choice : ℕ) → state.new ≡ apply_all (turn_of code.now g.0 choice state.old (find g.0 state.old.goroutines)) state.old) }
    ensures fits { IfOk result (λ fits. (choice : ℕ) → fits ≡ not_empty (turn_of code.now g.0 choice state.old (find g.0 state.old.goroutines))) }
    ensures err { OnErr result (state.new ≡ state.old) }
{
    if g.0 != 0 {
        return Ok(false);
    }
    let Some(queued) = state.queue().first().copied() else {
        return Ok(false);
    };
    let argument = [Value::Ref(queued.object)];
    let Some(frame) = open_frame(alloc, code, queued.function, &argument, true)? else {
        return Ok(false);
    };
    enter(state.frames_mut(g), frame, 0, 0)?;
    state.take_queued();
    Ok(true)
}

/// Returns the frames of goroutine 1 before the first turn: the frame of function 0, if the code has that
/// function.
pub fn first_frames(alloc: Global, code: &Code) -> Result<List<Frame>, Memory>
    ensures { IfOk result (λ frames. frame_views frames ≡ option_to_list (call_frame code.now 0 [] true)) }
{
    match open_frame(alloc, code, 0, &[], true)? {
        Some(frame) => frames_of(alloc, frame),
        None => Ok(List::new(alloc)),
    }
}
