//! Answers with a run that was found.
//!
//! A run with the turns of what was found shows it. Its lines follow the line of what was found. A run has at most
//! `MOST_TURNS` turns: of more turns the line is told alone.

ghost use Rattle.std.specs.Prelude.{◌≡◌, ◌≤◌, length, IfOk};
ghost use Rattle.golf_data.specs.Places.{HasPlaces};
ghost use Rattle.golf_explore.specs.Results.{run_of};
ghost use Rattle.golf_explore.specs.Sought.{IsFound};
ghost use Rattle.golf_run_schedules.specs.Options.{IsWithinLimits, most_turns};
ghost use Rattle.golf_explore_command.specs.Answers.{found_text as found_text_of, sought_by, IsFoundAnswer};
ghost use Rattle.golf_explore_command.specs.Texts.{every_for as every_of, shown_options as shown_options_of};

use crate::texts::found_line;
use golf_base::{List, Memory, OpenGate};
use golf_data::Code;
use golf_explore_words::SearchFor;
use golf_run::{Kept, leaks_are_reported, run};
use golf_run_schedules::{MOST_TURNS, RunOptions, Schedule, choices_then_collect};
use golf_run_texts::Status;
use std::alloc::Global;
use std::thread::Threads;

/// The status of the program, and the text that it writes.
#[derive(Drop)]
pub(crate) struct Answer {
    pub(crate) status: Status,
    pub(crate) text: List<u8>,
}

// After how many turns the run collects, if it has so many turns.
fn every_for(aim: SearchFor, turns: u32) -> Option<u32>
    ensures { result ≡ every_of aim turns }
{
    match aim {
        SearchFor::Leak => Some(turns),
        SearchFor::Panic => None,
        SearchFor::Asleep => None,
    }
}

// The options of the run of these choices.
#[tactic(auto, unfolding(crate::specs::Texts::shown_options))]
fn shown_options(aim: SearchFor, numbers: List<u64>) -> RunOptions
    requires { length numbers ≤ most_turns }
    ensures options { result ≡ shown_options_of aim numbers }
    ensures limits { IsWithinLimits result }
{
    let turns = numbers.len() as u32;
    RunOptions {
        schedule: Schedule::Choices(numbers),
        turns: MOST_TURNS,
        every: every_for(aim, turns),
        markers: 1,
        recover: false,
        why: false,
    }
}

// The line of the run of these turns, and after it its standard error.
fn found_text<R: Threads + Sync>(
    rt: &R,
    alloc: Global,
    code: &Code,
    aim: SearchFor,
    numbers: List<u64>,
) -> Result<List<u8>, Memory>
    requires { HasPlaces code.now }
    ensures { IfOk result (λ text. text ≡ found_text_of code.now aim numbers) }
{
    let mut text = found_line(alloc, aim, numbers.as_slice())?;
    if numbers.len() > MOST_TURNS as usize {
        return Ok(text);
    }
    let mut out = Kept::new(List::new(alloc));
    let mut err = Kept::new(List::new(alloc));
    let options = shown_options(aim, numbers);
    // A write to memory fails only if memory has run out.
    match run(rt, alloc, code, options, &mut out, &mut err, &OpenGate) {
        Ok(_) => {}
        Err(_) => return Err(Memory),
    }
    text.extend_from_slice(err.bytes.as_slice())?;
    Ok(text)
}

/// Returns the answer with the run of these turns, which reach what was sought. The only error is `Memory`.
pub(crate) fn found_answer<R: Threads + Sync>(
    rt: &R,
    alloc: Global,
    code: &Code,
    aim: SearchFor,
    numbers: List<u64>,
) -> Result<Answer, Memory>
    requires places { HasPlaces code.now }
    requires found { IsFound (sought_by aim) (run_of code.now numbers) }
    ensures { IfOk result (λ answer. IsFoundAnswer code.now aim numbers answer.status answer.text) }
{
    choices_then_collect();
    leaks_are_reported();
    Ok(Answer {
        status: Status::Found,
        text: found_text(rt, alloc, code, aim, numbers)?,
    })
}
