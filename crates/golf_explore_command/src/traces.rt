//! Runs a code, and tells each turn on standard error.

ghost use Rattle.std.specs.Prelude.{◌≡◌, ◌≤◌, Bool, length};
ghost use Rattle.golf_data.specs.Places.{HasPlaces};
ghost use Rattle.golf_run.specs.HasRun.{sinks};
ghost use Rattle.golf_run_schedules.specs.Options.{IsWithinLimits};
ghost use Rattle.golf_command.specs.Ways.{history_options as history_options_of};
ghost use Rattle.golf_explore_words.specs.declared.line.ExploreLine.{ExploreLine};
ghost use Rattle.golf_explore_command.specs.Means.{CodeTells};

use golf_base::{List, OpenGate, Sink, write_all};
use golf_command::{end, turns_by_threads};
use golf_data::Code;
use golf_run::{RunFault, trace};
use golf_run_schedules::{RunOptions, Schedule};
use golf_run_texts::{NO_MEMORY, Status, history_line};
use golf_world::MOST_ENTRIES;
use std::alloc::Global;
use std::sync::Wait;
use std::thread::Threads;

/// Runs the code by the options, and tells each turn.
pub(crate) fn tell_turns<R: Threads + Sync, O: Sink, E: Sink>(
    rt: &R,
    alloc: Global,
    code: &Code,
    options: RunOptions,
    out: &mut O,
    err: &mut E,
) -> Status
    requires places { HasPlaces code.now }
    requires limits { IsWithinLimits options }
    ensures { (shows : Bool) → CodeTells code.now (ExploreLine.Trace options) shows result
        (sinks (O.written out.old) (O.faults out.old) (E.written err.old) (E.faults err.old))
        (sinks (O.written out.new) (O.faults out.new) (E.written err.new) (E.faults err.new)) }
{
    match trace(rt, alloc, code, options, out, err, &OpenGate) {
        Ok(status) => status,
        Err(RunFault::Write) => Status::WriteFault,
        Err(RunFault::Memory) => end(err, NO_MEMORY, Status::Memory),
    }
}

// The options of the run that has these turns again.
#[tactic(auto, unfolding(golf_command::specs::Ways::history_options))]
fn history_options(numbers: List<u64>) -> RunOptions
    ensures options { result ≡ history_options_of numbers }
    ensures limits { IsWithinLimits result }
{
    RunOptions {
        schedule: Schedule::Choices(numbers),
        turns: MOST_ENTRIES as u32,
        every: None,
        markers: 1,
        recover: false,
        why: false,
    }
}

/// Runs the code by this many threads. Then it runs the code again by the numbers of the turns, and tells each turn. At
/// the end it writes the numbers. It may wait for the lock of the program.
pub(crate) fn tell_threads<R: Threads + Wait + Sync, O: Sink, E: Sink>(
    rt: &R,
    alloc: Global,
    code: &Code,
    threads: u32,
    out: &mut O,
    err: &mut E,
) -> Status
    requires places { HasPlaces code.now }
    requires some { 1 ≤ threads }
    requires few { threads ≤ 16 }
    ensures { (shows : Bool) → CodeTells code.now (ExploreLine.TraceThreads threads) shows result
        (sinks (O.written out.old) (O.faults out.old) (E.written err.old) (E.faults err.old))
        (sinks (O.written out.new) (O.faults out.new) (E.written err.new) (E.faults err.new)) }
{
    let numbers = match turns_by_threads(rt, alloc, threads, code, &OpenGate) {
        Ok(numbers) => numbers,
        Err(_) => return end(err, NO_MEMORY, Status::Memory),
    };
    let line = match history_line(alloc, numbers.as_slice()) {
        Ok(line) => line,
        Err(_) => return end(err, NO_MEMORY, Status::Memory),
    };
    let options = history_options(numbers);
    match trace(rt, alloc, code, options, out, err, &OpenGate) {
        Ok(status) => match write_all(err, line.as_slice()) {
            Ok(()) => status,
            Err(_) => Status::WriteFault,
        },
        Err(RunFault::Write) => Status::WriteFault,
        Err(RunFault::Memory) => end(err, NO_MEMORY, Status::Memory),
    }
}
