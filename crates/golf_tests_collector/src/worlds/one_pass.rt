//! Tests of a world of one pass: the goroutines whose turns it takes, and its history.

ghost use Rattle.std.specs.Prelude.{◌≡◌};
ghost use Rattle.golf_data.specs.Places.{HasPlaces};
ghost use Rattle.golf_model.specs.State.{start as start_of};
ghost use Rattle.golf_world.specs.Names.{table_name, pass_count};

use crate::codes::leak;
use golf_base::{GoroutineId, List, Memory};
use golf_data::{Code, Ending, Entry, Report, WaitKind};
use golf_machine::start;
use golf_state::State;
use golf_tests_support::can_run;
use golf_world::{History, HistoryEntry, StepPass, Stepped, World, WorldName, WorldTable};
use std::alloc::Global;
use std::marker::Brand;
use std::sync::Wait;
use std::test::Fail;
use std::thread::Threads;

/// The most steps that a test takes.
const STEPS: u32 = 60;

// The result of steps: the goroutines whose turns they were, the ending, and the history.
#[derive(Drop)]
struct Walk {
    whose: List<GoroutineId>,
    ending: Option<Ending>,
    history: History,
}

// Steps until the program has ended. It takes a step without memory again.
fn step_on<W: WorldName, R: Threads + Wait + Sync>(
    rt: &R,
    alloc: Global,
    world: &World<'_, W>,
    pass: &mut StepPass<W>,
    whose: &mut List<GoroutineId>,
) -> Result<Option<Ending>, Memory> {
    for _ in 0..STEPS {
        match world.step(rt, alloc, pass) {
            Ok(
                Stepped::Turned {
                    at: _,
                    goroutine,
                    number: _,
                },
            ) => whose.push(goroutine)?,
            Ok(Stepped::Ended(ending)) => return Ok(Some(ending)),
            Ok(Stepped::Spent) => return Ok(None),
            Err(Memory) => {}
        }
    }
    Ok(None)
}

// Steps the program with one pass, in the world that `W` names.
fn steps_of_one<W: WorldName, R: Threads + Wait + Sync>(
    rt: &R,
    alloc: Global,
    table: WorldTable,
    code: &Code,
    state: State,
) -> Result<Walk, Memory>
    requires table { table_name table ≡ W.table }
    requires passes { pass_count table ≡ W.passes }
    requires code { code.now ≡ W.code }
    requires places { HasPlaces code.now }
    requires state { state ≡ start_of code.now }
{
    let (world, mut passes) = World::<W>::new(alloc, table, code, state)?;
    let mut whose = List::new(alloc);
    let mut ending = None;
    for pass in passes.as_mut_slice() {
        ending = step_on(rt, alloc, &world, pass, &mut whose)?;
    }
    let (_, history) = world.close(passes);
    Ok(Walk {
        whose,
        ending,
        history,
    })
}

fn take_walk<R: Threads + Wait + Sync>(rt: &R, alloc: Global, code: Code) -> Result<Walk, Fail> {
    if !can_run(&code) {
        return Err("the code has too many places")?;
    }
    let table = WorldTable::new(alloc, 1)?;
    let state = start(alloc, &code)?;
    Ok(steps_of_one::<Brand, R>(rt, alloc, table, &code, state)?)
}

const MAIN: GoroutineId = GoroutineId(1);

const RECEIVER: GoroutineId = GoroutineId(2);

// Whose turns a run of the leak has. The third turn is that of `go`.
const WHOSE: [GoroutineId; 17] = [
    MAIN, MAIN, MAIN, RECEIVER, MAIN, RECEIVER, MAIN, RECEIVER, MAIN, RECEIVER, MAIN, RECEIVER,
    MAIN, RECEIVER, MAIN, MAIN, MAIN,
];

// Whether a walk has these turns, and the program returned.
fn is_walked(walk: &Walk, whose: &[GoroutineId]) -> bool {
    walk.whose.as_slice() == whose && walk.ending == Some(Ending::Returned)
}

#[test]
fn a_receiver_alternates_with_main_until_it_blocks(rt: HostRuntime) -> Result<(), Fail> {
    let walk = take_walk(&rt, rt.alloc(), leak(rt.alloc())?)?;
    assert!(rt; is_walked(&walk, &WHOSE));
    Ok(())
}

// The numbers of the turns of that run.
const NUMBERS: [u64; 17] = [
    0, 1, 2, 7, 8, 11, 12, 15, 16, 19, 20, 23, 24, 27, 14, 15, 16,
];

// Whether entries are those of pass 0 and have these numbers.
fn are_numbered(entries: &[HistoryEntry], numbers: &[u64]) -> bool {
    if entries.len() != numbers.len() {
        return false;
    }
    for (entry, number) in entries.iter().zip(numbers) {
        if entry.pass != 0 || entry.number != *number {
            return false;
        }
    }
    true
}

// Whether there is one report, of this goroutine alone.
fn is_only_report(reports: &[Report], stuck: Entry) -> bool {
    match reports.first() {
        Some(report) => reports.len() == 1 && report.reported.as_slice() == [stuck].as_slice(),
        None => false,
    }
}

// Whether a history has the numbers of that run, and the report of the receiver.
fn is_history_of_the_leak(history: &History) -> bool {
    let stuck = Entry {
        goroutine: RECEIVER,
        wait: WaitKind::Receive,
        line: 6,
        started: 3,
    };
    are_numbered(history.entries.as_slice(), &NUMBERS)
        && is_only_report(history.reports.as_slice(), stuck)
}

#[test]
fn the_history_has_the_numbers_and_the_report_of_a_leak(rt: HostRuntime) -> Result<(), Fail> {
    let walk = take_walk(&rt, rt.alloc(), leak(rt.alloc())?)?;
    assert!(rt; is_history_of_the_leak(&walk.history));
    Ok(())
}
