//! Runs of codes, and their results.

use crate::codes::Texts;
use crate::places_after_turns::{MAIN, OTHER, after};
use crate::programs::program;
use golf_base::{GoroutineId, ObjectId};
use golf_data::{Ending, Goroutine, Mode, PanicKind, Side, Value, WaitKind};
use golf_machine::Turned;
use golf_state::State;
use golf_tests_support::take_turn;
use std::alloc::Global;
use std::process::Abort;
use std::test::Fail;

/// How many turns the first goroutine that can run takes, then the second, and the first again.
#[derive(Clone, Copy)]
pub struct Turns(pub u32, pub u32, pub u32);

// The state of a code after these turns.
fn run(alloc: Global, texts: Texts, turns: Turns) -> Result<State, Fail> {
    let code = program(alloc, texts.0, texts.1)?;
    let turns = [(0, turns.0), (1, turns.1), (0, turns.2)];
    Ok(after(alloc, &code, turns.as_slice())?)
}

// The parts of a state that tests compare.
#[derive(Clone, Copy)]
struct Seen {
    /// How many goroutines can run, and the first of them.
    running: usize,
    first: Option<GoroutineId>,
    /// How many frames `main` has.
    depth: usize,
    ending: Option<Ending>,
}

fn first_runnable(state: &State) -> Option<GoroutineId> {
    if state.runnable_count() == 0 {
        None
    } else {
        Some(state.runnable_at(0))
    }
}

fn see(state: &State) -> Seen {
    Seen {
        running: state.runnable_count(),
        first: first_runnable(state),
        depth: state.depth(MAIN),
        ending: state.ending(),
    }
}

// The parts of the state of a code after these turns.
fn seen_after(alloc: Global, texts: Texts, turns: Turns) -> Result<Seen, Fail> {
    let state = run(alloc, texts, turns)?;
    Ok(see(&state))
}

// The result of the last of `count` turns.
fn turned(alloc: Global, texts: Texts, count: u32) -> Result<Option<Turned>, Fail> {
    let code = program(alloc, texts.0, texts.1)?;
    let mut state = after(alloc, &code, &[(0, count.saturating_sub(1))])?;
    Ok(take_turn(alloc, &code, &mut state, 0)?)
}

/// Fails the test unless the last of `count` turns has this result.
pub fn comes_to<R: AllocGlobal + Abort>(
    rt: &R,
    texts: Texts,
    count: u32,
    wanted: Turned,
) -> Result<(), Fail> {
    let found = turned(rt.alloc(), texts, count)?;
    assert!(rt; found == Some(wanted), "the turn {count}");
    Ok(())
}

/// Fails the test unless after each of these turns this number of goroutines can run, and this one is the
/// first.
pub fn can_run<R: AllocGlobal + Abort>(
    rt: &R,
    texts: Texts,
    rows: &[(Turns, usize, GoroutineId)],
) -> Result<(), Fail> {
    for (turns, count, first) in rows {
        let seen = seen_after(rt.alloc(), texts, *turns)?;
        assert!(rt;
            seen.running == *count && seen.first == Some(*first),
            "{count} can run"
        );
    }
    Ok(())
}

// Whether this text is printed after these turns.
fn has_printed(alloc: Global, texts: Texts, turns: Turns, text: &str) -> Result<bool, Fail> {
    let state = run(alloc, texts, turns)?;
    Ok(state.output() == text.as_bytes())
}

/// Fails the test unless this text is printed after these turns.
pub fn prints<R: AllocGlobal + Abort>(
    rt: &R,
    texts: Texts,
    turns: Turns,
    text: &str,
) -> Result<(), Fail> {
    assert!(rt; has_printed(rt.alloc(), texts, turns, text)?);
    Ok(())
}

/// Fails the test unless the program has ended so after `count` turns.
pub fn ends_after<R: AllocGlobal + Abort>(
    rt: &R,
    texts: Texts,
    count: u32,
    ending: Ending,
) -> Result<(), Fail> {
    let seen = seen_after(rt.alloc(), texts, Turns(count, 0, 0))?;
    assert!(rt; seen.ending == Some(ending));
    Ok(())
}

/// Returns the ending by a panic or fatal error of `main` on a line.
pub fn panicked(kind: PanicKind, line: u32) -> Ending {
    Ending::Panicked {
        kind,
        goroutine: MAIN,
        line,
    }
}

/// Fails the test unless after each of these turns `main` has this number of frames, and the program has
/// not ended.
pub fn has_frames<R: AllocGlobal + Abort>(
    rt: &R,
    texts: Texts,
    rows: &[(u32, usize)],
) -> Result<(), Fail> {
    for (count, depth) in rows {
        let seen = seen_after(rt.alloc(), texts, Turns(*count, 0, 0))?;
        assert!(rt;
            seen.depth == *depth && seen.ending == None,
            "{count} turns"
        );
    }
    Ok(())
}

// How a goroutine is blocked, on which line, and on which line it was started.
fn blocked(goroutine: &Goroutine) -> Option<(WaitKind, u32, u32)> {
    match &goroutine.mode {
        Mode::Running => None,
        Mode::Blocked { kind, line, .. } => Some((*kind, *line, goroutine.started)),
    }
}

/// Returns how goroutine 2 is blocked, on which line, and on which line it was started. `None` if it is not
/// blocked.
pub fn blocking(
    alloc: Global,
    texts: Texts,
    turns: Turns,
) -> Result<Option<(WaitKind, u32, u32)>, Fail> {
    let state = run(alloc, texts, turns)?;
    match state.goroutine(OTHER) {
        Some(goroutine) => Ok(blocked(goroutine)),
        None => Ok(None),
    }
}

/// Returns the first goroutine that waits to send on the first object, and its value, or `None`.
pub fn first_sender(
    alloc: Global,
    texts: Texts,
    turns: Turns,
) -> Result<Option<(GoroutineId, Value)>, Fail> {
    let state = run(alloc, texts, turns)?;
    match state.first_waiter(ObjectId(1), Side::Send) {
        Some(waiting) => Ok(Some((waiting.goroutine, waiting.wait.value))),
        None => Ok(None),
    }
}
