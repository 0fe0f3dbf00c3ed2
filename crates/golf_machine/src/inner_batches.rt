//! Turns in one batch, as long as each touches only the innermost frame of its goroutine.
//!
//! Such turns change neither who can run nor the output. If one goroutine alone can run, they need no search for it.

ghost use Rattle.std.specs.Prelude.{◌≡◌, ℕ, [], Some, None, IfOk, OnErr, IfSome};
ghost use Rattle.golf_theory.specs.Maps.{IsRising};
ghost use Rattle.golf_data.specs.Places.{HasPlaces};
ghost use Rattle.golf_model.specs.State.{ending};
ghost use Rattle.golf_model.specs.Views.{frame_view, frame_views};
ghost use Rattle.golf_machine.specs.Batches.{HasGoneOn, HasKeptInside, HasKeptOn, HasAsked, IsLone};

use crate::innermost_turns::{InnerTurn, function_of, inner_turn, turn_in};
use crate::numbers::Numbers;
use crate::turns::shared_out;
use golf_base::{GoroutineId, List, Memory};
use golf_data::{Code, Frame, Value};
use golf_state::State;

// Takes turns of a frame with these globals, one for each number, as long as each touches only the frame. Returns the
// number of the first other turn, which is still to be taken, or `None` if no turn comes next. On `Memory` the frame is
// that before the turn of the last number.
#[inline(always)]
fn keep_on_inside<N: Numbers>(
    code: &Code,
    globals: &[Value],
    frame: &mut Frame,
    numbers: &mut N,
) -> Result<Option<u64>, Memory>
    requires places { HasPlaces code.now }
    ensures ok { IfOk result (λ next. HasAsked next (λ es n. HasKeptInside code.now globals.now (frame_view frame.old) (frame_view frame.new) (N.left numbers.old) es (N.given numbers.old) n) (N.left numbers.new) (N.given numbers.new)) }
    ensures err { OnErr result ((c : ℕ) × HasAsked (Some c) (λ es n. HasKeptInside code.now globals.now (frame_view frame.old) (frame_view frame.new) (N.left numbers.old) es (N.given numbers.old) n) (N.left numbers.new) (N.given numbers.new)) }
{
    let Some(function) = function_of(code, frame) else {
        return Ok(numbers.next());
    };
    while let Some(number) = numbers.next() {
        match turn_in(code, function, globals, frame)? {
            InnerTurn::Over => {}
            InnerTurn::At(_, _) => return Ok(Some(number)),
            InnerTurn::Nowhere => return Ok(Some(number)),
        }
    }
    Ok(None)
}

// Takes turns with these frames and globals, one for each number, as long as each touches only the
// innermost frame. Returns the number of the first other turn, which is still to be taken, or `None` if no
// turn comes next. On `Memory` the frames are those before the turn of the last number.
fn keep_on<N: Numbers>(
    code: &Code,
    globals: &[Value],
    frames: &mut List<Frame>,
    numbers: &mut N,
) -> Result<Option<u64>, Memory>
    requires places { HasPlaces code.now }
    ensures ok { IfOk result (λ next. HasAsked next (λ es n. HasKeptOn code.now globals.now (frame_views frames.old) (frame_views frames.new) (N.left numbers.old) es (N.given numbers.old) n) (N.left numbers.new) (N.given numbers.new)) }
    ensures err { OnErr result ((c : ℕ) × HasAsked (Some c) (λ es n. HasKeptOn code.now globals.now (frame_views frames.old) (frame_views frames.new) (N.left numbers.old) es (N.given numbers.old) n) (N.left numbers.new) (N.given numbers.new)) }
{
    let count = frames.len();
    if count == 0 {
        return Ok(numbers.next());
    }
    let next = keep_on_inside(code, globals, frames.item_mut(count - 1), numbers)?;
    Ok(next)
}

// The only goroutine that can run, or `None` if several can, or if the output is not empty. If three run,
// two of them can, whatever goroutine 0 has to call.
#[inline(always)]
fn lone_goroutine(state: &State) -> Option<GoroutineId>
    ensures lone { IfSome result (λ g. IsLone g.0 state.now) }
    ensures rises { IfSome result (λ g. IsRising state.now.goroutines) }
{
    if !state.output().is_empty() || state.running_count() > 2 {
        return None;
    }
    let runnable = state.runnable();
    if runnable.count() == 1 {
        Some(runnable.at(0))
    } else {
        None
    }
}

// Takes the turns of the goroutines that can run, as long as each touches only the innermost frame of its
// goroutine. How many can run is asked for once. Returns as `go_on_inside` does.
fn go_on_among<N: Numbers>(
    code: &Code,
    state: &mut State,
    numbers: &mut N,
) -> Result<Option<u64>, Memory>
    requires places { HasPlaces code.now }
    requires goes { ending state.old ≡ None }
    requires quiet { state.old.output ≡ [] }
    ensures ok { IfOk result (λ next. HasAsked next (λ es n. HasGoneOn code.now state.old state.new (N.left numbers.old) es (N.given numbers.old) n) (N.left numbers.new) (N.given numbers.new)) }
    ensures err { OnErr result ((c : ℕ) × HasAsked (Some c) (λ es n. HasGoneOn code.now state.old state.new (N.left numbers.old) es (N.given numbers.old) n) (N.left numbers.new) (N.given numbers.new)) }
    ensures goes { ending state.new ≡ None }
{
    let count = state.runnable_count() as u64;
    while let Some(number) = numbers.next() {
        let (place, _) = shared_out(number, count);
        let g = state.runnable_at(place as usize);
        match inner_turn(code, state, g)? {
            InnerTurn::Over => {}
            InnerTurn::At(_, _) => return Ok(Some(number)),
            InnerTurn::Nowhere => return Ok(Some(number)),
        }
    }
    Ok(None)
}

/// Takes the turns of the goroutines that can run, as long as each touches only the innermost frame of its
/// goroutine. If the output is not empty, it takes no turn. Returns the number of the next turn, which is still to
/// be taken, or `None` if no turn comes next. On `Memory` the state is the one before the turn of the last number.
pub(crate) fn go_on_inside<N: Numbers>(
    code: &Code,
    state: &mut State,
    numbers: &mut N,
) -> Result<Option<u64>, Memory>
    requires places { HasPlaces code.now }
    requires goes { ending state.old ≡ None }
    ensures ok { IfOk result (λ next. HasAsked next (λ es n. HasGoneOn code.now state.old state.new (N.left numbers.old) es (N.given numbers.old) n) (N.left numbers.new) (N.given numbers.new)) }
    ensures err { OnErr result ((c : ℕ) × HasAsked (Some c) (λ es n. HasGoneOn code.now state.old state.new (N.left numbers.old) es (N.given numbers.old) n) (N.left numbers.new) (N.given numbers.new)) }
    ensures goes { ending state.new ≡ None }
{
    let Some(g) = lone_goroutine(state) else {
        if !state.output().is_empty() {
            return Ok(numbers.next());
        }
        return go_on_among(code, state, numbers);
    };
    let (frames, globals) = state.frames_and_globals(g);
    let next = keep_on(code, globals, frames, numbers)?;
    Ok(next)
}
