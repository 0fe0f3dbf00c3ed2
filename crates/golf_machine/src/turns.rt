//! The state before the first turn, and one turn. On `Err` the state is unchanged.
//!
//! The number of a turn picks the goroutine, and the case of its `select`.

ghost use Rattle.std.specs.Prelude.{◌≡◌, ◌<◌, ◌%◌, ◌/◌, Some, None, IfOk, OnOk, OnErr};
ghost use Rattle.golf_theory.specs.Maps.{find};
ghost use Rattle.golf_data.specs.Places.{HasPlaces};
ghost use Rattle.golf_model.specs.Changes.{apply_all};
ghost use Rattle.golf_model.specs.ClearedSlots.{clearing};
ghost use Rattle.golf_model.specs.State.{ending, start as start_of};
ghost use Rattle.golf_model.specs.Turn.{step, wants_collection, goroutine_collects, whose_turn as whose_turn_of};
ghost use Rattle.golf_state.specs.ActorChanges.{Runs};
ghost use Rattle.golf_machine.specs.InnermostTurns.{taken};
ghost use Rattle.golf_machine.specs.TurnResults.{has_collected, keeps_slots};
ghost use Rattle.golf_machine.specs.Turns.{turned_of};

use crate::goroutine_turn::{Acted, act, act_nowhere};
use crate::innermost_turns::{InnerTurn, inner_turn};
use crate::new_frames::first_frames;
use crate::structures::zeros_of;
use golf_base::{GoroutineId, Memory};
use golf_data::{Code, Ending};
use golf_state::State;
use std::alloc::Global;

/// The result of a turn.
#[derive(Clone, Copy, Debug, PartialEq, Eq)]
pub enum Turned {
    /// The program goes on.
    Went,
    /// The instruction was a collection, which the caller must do. The goroutine is already behind it.
    WantsCollection,
    /// The program has ended.
    Ended(Ending),
}

/// Returns the state before the first turn: goroutine 1 is at the first instruction of function 0, if the
/// code has that function.
pub fn start(alloc: Global, code: &Code) -> Result<State, Memory>
    ensures { IfOk result (λ state. state ≡ start_of code.now) }
{
    let globals = zeros_of(alloc, code.globals.as_slice())?;
    let frames = first_frames(alloc, code)?;
    State::new(alloc, globals, frames, code.main_line)
}

// After the turn of a goroutine, clears the slots that no instruction can read any more, unless it keeps
// its slots. It is a call of its own, since a turn is faster so.
fn clear_after(code: &Code, state: &mut State, g: GoroutineId, keeps: bool)
    ensures { state.new ≡ apply_all (clearing code.now keeps (Some g.0) state.old) state.old }
{
    if !keeps {
        state.clear_slots(code, g);
    }
}

// Splits a number by how many goroutines can run: the place of the goroutine whose turn it is, and the
// choice of its `select`. It divides no more bits than it has to.
#[inline(always)]
pub(crate) fn shared_out(number: u64, count: u64) -> (u64, u64)
    requires { 0 < count }
    ensures place { result.0 ≡ number % count }
    ensures choice { result.1 ≡ number / count }
{
    if count == 1 {
        return (0, number);
    }
    if count == 2 {
        return (number % 2, number / 2);
    }
    if number < 1 << 32 && count < 1 << 32 {
        let (number, count) = (number as u32, count as u32);
        return (u64::from(number % count), u64::from(number / count));
    }
    (number % count, number / count)
}

// The result of a turn, by how the program has ended and by whether the instruction is a collection.
#[inline(always)]
fn turned_of(ending: Option<Ending>, collects: bool) -> Turned
    ensures { result ≡ turned_of ending collects }
{
    match ending {
        Some(ending) => Turned::Ended(ending),
        None if collects => Turned::WantsCollection,
        None => Turned::Went,
    }
}

// Whether a turn was a collection.
#[inline(always)]
fn has_collected(acted: Acted) -> bool
    ensures { result ≡ has_collected acted }
{
    matches!(acted, Acted::Collects)
}

// Whether nothing is cleared after a turn: it was a collection, or no rule fitted.
#[inline(always)]
fn keeps_slots(acted: Acted) -> bool
    ensures { result ≡ keeps_slots acted }
{
    !matches!(acted, Acted::Went)
}

// Takes the turn of a goroutine that runs, and clears slots after it.
#[inline(always)]
fn take(
    alloc: Global,
    code: &Code,
    state: &mut State,
    g: GoroutineId,
    choice: u64,
) -> Result<Turned, Memory>
    requires places { HasPlaces code.now }
    requires goes { ending state.old ≡ None }
    requires runs { Runs g.0 state.old }
    ensures ok { OnOk result (state.new ≡ taken code.now g.0 choice state.old) }
    ensures turned { IfOk result (λ turned. turned ≡ turned_of (ending state.new) (goroutine_collects code.now (find g.0 state.old.goroutines))) }
    ensures err { OnErr result (state.new ≡ state.old) }
{
    let acted = match inner_turn(code, state, g)? {
        InnerTurn::Over => return Ok(Turned::Went),
        InnerTurn::At(line, after) => act(alloc, code, state, g, line, after, choice)?,
        InnerTurn::Nowhere => act_nowhere(alloc, code, state, g)?,
    };
    clear_after(code, state, g, keeps_slots(acted));
    Ok(turned_of(state.ending(), has_collected(acted)))
}

/// Returns the goroutine that takes the turn of this number. Of those that can run, in rising order, it is
/// the one at the place of the number, counted round.
pub fn whose_turn(state: &State, number: u64) -> GoroutineId
    requires { ending state.now ≡ None }
    ensures { whose_turn_of state.now number ≡ Some result.0 }
{
    let count = state.runnable_count() as u64;
    let (place, _) = shared_out(number, count);
    state.runnable_at(place as usize)
}

/// Takes one turn. Of the goroutines that can run, in rising order, it is the turn of the one at the place
/// of the number, counted round. It takes all its memory first: on `Memory` the state is unchanged.
#[inline(always)]
pub fn turn(alloc: Global, code: &Code, state: &mut State, number: u64) -> Result<Turned, Memory>
    requires places { HasPlaces code.now }
    requires goes { ending state.old ≡ None }
    ensures ok { OnOk result (state.new ≡ step code.now state.old number) }
    ensures turned { IfOk result (λ turned. turned ≡ turned_of (ending state.new) (wants_collection code.now state.old number)) }
    ensures err { OnErr result (state.new ≡ state.old) }
{
    let runnable = state.runnable();
    let count = runnable.count() as u64;
    let (place, choice) = shared_out(number, count);
    let g = runnable.at(place as usize);
    take(alloc, code, state, g, choice)
}
