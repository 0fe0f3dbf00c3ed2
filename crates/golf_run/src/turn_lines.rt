//! The line of a turn: who takes it, at which line of the source, and whom it starts, blocks, ends or wakes.
//!
//! Part of the line is read before the turn, and part of it after the turn.

ghost use Rattle.std.specs.Prelude.{◌≡◌, ◌++◌, ℕ, None, IfOk, OnOk, map, option_map, string_bytes, codes, decimal};
ghost use Rattle.std.specs.List.Sorted.{IsNonDecreasingBy};
ghost use Rattle.golf_theory.specs.Maps.{find};
ghost use Rattle.golf_model.specs.State.{State as StateOf, ending, runnable as runnable_of};
ghost use Rattle.golf_model.specs.Turn.{line_number as line_number_of, step};
ghost use Rattle.golf_run.specs.TurnLines.{call_line as call_line_of, turn_line as turn_line_of};
ghost use Rattle.golf_run.specs.TurnLines.{starts_text as starts_of};
ghost use Rattle.golf_run.specs.TurnLines.{rests_text as rests_of, is_woken as is_woken_of, woken as woken_of};
ghost use Rattle.golf_run.specs.TurnLines.{more_goroutines, wakes_text};
ghost use Rattle.golf_run.specs.TurnLines.{runner_text as runner_of, turn_text};
ghost use Rattle.golf_run.specs.Before.{IsBefore};
ghost use Rattle.golf_data.specs.declared.code.Code.{Code as CodeOf};

use golf_base::{GoroutineId, List, Memory};
use golf_data::{Code, CodeLine, Leaving, Mode};
use golf_machine::{line_at, return_line, whose_turn};
use golf_snapshot::is_among;
use golf_state::State;
use std::alloc::Global;

/// The facts that the line of a turn takes from the state before it.
#[derive(Drop)]
pub(crate) struct Before {
    /// The goroutine that takes the turn.
    runner: GoroutineId,
    /// The line of the source at which it does.
    line: u32,
    /// The goroutines that can run, in rising order of number.
    runnable: List<GoroutineId>,
    /// The number that the next goroutine gets.
    next: u32,
}

// The line of the source of an instruction, or 0 without one.
fn line_number(line: Option<&CodeLine>) -> u32
    ensures { result ≡ line_number_of (option_map (λ l. l.now) line.entry) }
{
    match line {
        Some(line) => line.line,
        None => 0,
    }
}

// The line of the first instruction of the call that goroutine 0 takes next.
fn call_line(code: &Code, state: &State) -> u32
    ensures { result ≡ call_line_of code.now state.now.queue }
{
    match state.queue().first() {
        Some(next) => line_number(line_at(code, next.function, 0)),
        None => 0,
    }
}

// The line at which the goroutine takes a turn: that of its instruction, of its return, or of its panic.
fn turn_line(code: &Code, state: &State, g: GoroutineId) -> u32
    ensures { result ≡ turn_line_of code.now state.now g.0 }
{
    let Some(frame) = state.frame(g) else {
        return call_line(code, state);
    };
    match frame.leaving {
        Leaving::No => line_number(line_at(code, frame.function, frame.at)),
        Leaving::Returning(_) => return_line(code, frame),
        Leaving::Unwinding(fault) => fault.line,
    }
}

// The goroutines that can run.
fn runnable(alloc: Global, state: &State) -> Result<List<GoroutineId>, Memory>
    ensures all { IfOk result (λ gs. map (λ g. g.0) gs ≡ runnable_of state.now) }
    ensures order { IfOk result (λ gs. IsNonDecreasingBy (λ g. g.0) gs) }
{
    let found = state.runnable();
    let mut list = List::new(alloc);
    for place in 0..found.count() {
        list.push(found.at(place))?;
    }
    Ok(list)
}

// Whether a goroutine that can run now was woken: it could not run before, and was there.
fn is_woken(before: &[GoroutineId], next: u32, g: GoroutineId) -> bool
    requires { IsNonDecreasingBy (λ g. g.0) before.now }
    ensures { result ≡ is_woken_of (map (λ g. g.0) before.now) next g.0 }
{
    g.0 < next && !is_among(g, before)
}

// The goroutines that a turn woke: they can run after it, could not before, and were there.
fn woken(
    alloc: Global,
    before: &[GoroutineId],
    next: u32,
    state: &State,
) -> Result<List<GoroutineId>, Memory>
    requires { IsNonDecreasingBy (λ g. g.0) before.now }
    ensures { IfOk result (λ gs. map (λ g. g.0) gs ≡ woken_of (map (λ g. g.0) before.now) next state.now) }
{
    let found = state.runnable();
    let mut woken = List::new(alloc);
    for place in 0..found.count() {
        let g = found.at(place);
        if is_woken(before, next, g) {
            woken.push(g)?;
        }
    }
    Ok(woken)
}

// The first part of the line: the count of the turn, its goroutine, and the line of the source.
fn runner_text(alloc: Global, count: u32, goroutine: u32, line: u32) -> Result<String, Memory>
    ensures { IfOk result (λ text. string_bytes text ≡ runner_of count goroutine line) }
{
    Ok(format!(in alloc; "turn {count}: goroutine {goroutine} at line {line}")?)
}

// Adds the goroutine that the turn started, if the number of the next one has changed.
fn add_started(alloc: Global, line: &mut List<u8>, next: u32, later: u32) -> Result<(), Memory>
    ensures { OnOk result (line.new ≡ line.old ++ starts_of next later) }
{
    if later == next {
        return Ok(());
    }
    let text = format!(in alloc; ", starts goroutine {next}")?;
    line.extend_from_slice(text.as_bytes())
}

// How the turn left its goroutine: gone, blocked or neither.
fn rests_text(state: &State, runner: GoroutineId) -> &'static str
    ensures { result.now ≡ rests_of (find runner.0 state.now.goroutines) }
{
    match state.goroutine(runner) {
        None => ", ends",
        Some(goroutine) => match goroutine.mode {
            Mode::Running => "",
            Mode::Blocked { .. } => ", blocks",
        },
    }
}

// One more goroutine, after a comma.
fn goroutine_text(alloc: Global, goroutine: GoroutineId) -> Result<String, Memory>
    ensures { IfOk result (λ text. string_bytes text ≡ codes ", goroutine " ++ decimal goroutine.0) }
{
    let number = goroutine.0;
    Ok(format!(in alloc; ", goroutine {number}")?)
}

// Adds each goroutine, after a comma.
fn add_more(alloc: Global, line: &mut List<u8>, goroutines: &[GoroutineId]) -> Result<(), Memory>
    ensures { OnOk result (line.new ≡ line.old ++ more_goroutines (map (λ g. g.0) goroutines.now)) }
{
    for goroutine in goroutines {
        line.extend_from_slice(goroutine_text(alloc, *goroutine)?.as_bytes())?;
    }
    Ok(())
}

// The first goroutine that a turn woke.
fn wakes_one(alloc: Global, goroutine: GoroutineId) -> Result<String, Memory>
    ensures { IfOk result (λ text. string_bytes text ≡ codes ", wakes goroutine " ++ decimal goroutine.0) }
{
    let number = goroutine.0;
    Ok(format!(in alloc; ", wakes goroutine {number}")?)
}

// Adds the goroutines that the turn woke.
fn add_woken(alloc: Global, line: &mut List<u8>, woken: &[GoroutineId]) -> Result<(), Memory>
    ensures { OnOk result (line.new ≡ line.old ++ wakes_text (map (λ g. g.0) woken.now)) }
{
    let Some((first, more)) = woken.split_first() else {
        return Ok(());
    };
    line.extend_from_slice(wakes_one(alloc, *first)?.as_bytes())?;
    add_more(alloc, line, more)
}

impl Before {
    /// Returns the facts of the turn of this number, which the state is about to take.
    pub(crate) fn new(
        alloc: Global,
        code: &Code,
        state: &State,
        number: u64,
    ) -> Result<Before, Memory>
        requires { ending state.now ≡ None }
        ensures { IfOk result (IsBefore code.now state.now number) }
    {
        let runner = whose_turn(state, number);
        Ok(Before {
            runner,
            line: turn_line(code, state, runner),
            runnable: runnable(alloc, state)?,
            next: state.next_goroutine(),
        })
    }

    /// Returns the line of the turn, which was the one of this count from 1. The state is the one after it.
    pub(crate) fn line(&self, alloc: Global, count: u32, state: &State) -> Result<List<u8>, Memory>
        requires { IsNonDecreasingBy (λ g. g.0) self.now.runnable }
        ensures { IfOk result (λ line. (code : CodeOf) (old : StateOf) (number : ℕ) → IsBefore code old number self.now → state.now ≡ step code old number → line ≡ turn_text count code old number) }
    {
        let mut line = List::new(alloc);
        let head = runner_text(alloc, count, self.runner.0, self.line)?;
        line.extend_from_slice(head.as_bytes())?;
        add_started(alloc, &mut line, self.next, state.next_goroutine())?;
        line.extend_from_slice(rests_text(state, self.runner).as_bytes())?;
        let woken = woken(alloc, self.runnable.as_slice(), self.next, state)?;
        add_woken(alloc, &mut line, woken.as_slice())?;
        line.extend_from_slice(b"\n")?;
        Ok(line)
    }
}
