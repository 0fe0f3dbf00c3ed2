//! A turn, and the collection that its instruction asks for, in one step.
//!
//! If the collection runs out of memory, the turn is taken back.

ghost use Rattle.std.specs.Prelude.{◌≡◌, ◌<◌, ◌-◌, ◌^◌, [], true, None, IfOk, OnErr};
ghost use Rattle.golf_data.specs.Places.{HasPlaces};
ghost use Rattle.golf_model.specs.State.{ending as ending_of};
ghost use Rattle.golf_model.specs.Futures.{Leads};
ghost use Rattle.golf_model.specs.Wakes.{on_top};
ghost use Rattle.golf_state.specs.FrameChanges.{went};
ghost use Rattle.golf_state.specs.Looked.{frames_of, reframed, runs};
ghost use Rattle.golf_world.specs.Steps.{HasCollected, place_in};

use golf_base::{GoroutineId, Memory, OpenGate};
use golf_data::{Code, Report};
use golf_machine::{Turned, turn};
use golf_reclaim::{CollectOptions, Ledger, collect, sets_finalisers};
use golf_state::{State, advance};
use std::alloc::Global;
use std::thread::Threads;

// The place of a goroutine's innermost frame, or 0 without a frame.
fn place_of(state: &State, g: GoroutineId) -> u32
    ensures { result ≡ place_in (frames_of g.0 state.now) }
{
    match state.frame(g) {
        Some(frame) => frame.at,
        None => 0,
    }
}

// Sets the place of the innermost frame of a running goroutine back.
fn put_back(state: &mut State, g: GoroutineId, at: u32)
    requires { runs g.0 state.old ≡ true }
    ensures { state.new ≡ reframed g.0 (on_top (went at 0 []) (frames_of g.0 state.old)) state.old }
{
    advance(state.frames_mut(g), at, 0);
}

/// Takes the turn of this number, and does the collection that its instruction asks for: with one marker,
/// with open gates, and without recovery. Returns its report, or `None` without a collection. On `Err`,
/// which is `Memory`, state and book are unchanged: a turn before a failed collection only moved the
/// goroutine's place, which is set back.
pub(crate) fn turn_and_collect<R: Threads + Sync>(
    rt: &R,
    alloc: Global,
    code: &Code,
    state: &mut State,
    book: &mut Ledger,
    number: u64,
) -> Result<Option<Report>, Memory>
    requires places { HasPlaces code.now }
    requires goes { ending_of state.old ≡ None }
    requires leads { Leads code.now state.old }
    requires none { book.old.reclaimed ≡ [] }
    requires count { book.old.collections < 2 ^ 32 - 1 }
    ensures ok { IfOk result (λ r. HasCollected code.now number r state.old state.new book.old book.new) }
    ensures state { OnErr result (state.new ≡ state.old) }
    ensures book { OnErr result (book.new ≡ book.old) }
{
    let count = state.runnable_count() as u64;
    let g = state.runnable_at((number % count) as usize);
    let at = place_of(state, g);
    match turn(alloc, code, state, number)? {
        Turned::WantsCollection => {}
        Turned::Went | Turned::Ended(_) => return Ok(None),
    }
    let options = CollectOptions {
        markers: 1,
        recover: false,
        sets_finalisers: sets_finalisers(code),
    };
    match collect(rt, alloc, state, book, options, &OpenGate, &OpenGate) {
        Ok(report) => Ok(Some(report)),
        Err(memory) => {
            put_back(state, g, at);
            Err(memory)
        }
    }
}
