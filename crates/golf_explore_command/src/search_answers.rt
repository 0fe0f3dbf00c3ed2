//! Answers what a search by preemptions finds.

ghost use Rattle.std.specs.Prelude.{◌≡◌, Some, IfOk, IfSome};
ghost use Rattle.golf_data.specs.Places.{HasPlaces};
ghost use Rattle.golf_explore_command.specs.Answers.{sought_by, IsAnswerOnSearch, IsSearched};
ghost use Rattle.golf_explore_command.specs.Progress.{Meanwhile};

use crate::found_runs::{Answer, found_answer};
use crate::progress::tell_progress;
use crate::texts::{FINALISERS, nothing_line, out_of_time_line, too_many_line};
use golf_base::{Memory, Sink};
use golf_data::Code;
use golf_explore::{Aim, Search, SearchResult, Sought};
use golf_explore_words::{SearchFor, SearchOptions};
use golf_run::RunFault;
use golf_run_texts::{Status, list_of};
use std::alloc::Global;
use std::thread::Threads;
use std::time::{Clock, Instant};

// What the words of a search ask for.
fn sought(aim: SearchFor) -> Sought
    ensures { result ≡ sought_by aim }
{
    match aim {
        SearchFor::Leak => Sought::Leak,
        SearchFor::Panic => Sought::Panic,
        SearchFor::Asleep => Sought::Asleep,
    }
}

/// The end of a search.
#[derive(Drop)]
pub(crate) enum Searched {
    /// The search has this result.
    Told(SearchResult),
    /// It was stopped after this many seconds.
    OutOfTime(u32),
}

// How many seconds the search may take, if they are over. A clock that cannot be read ends no search.
fn seconds_over<R: Clock>(rt: &R, begun: Option<&Instant>, limit: Option<u32>) -> Option<u32>
    ensures { IfSome result (λ seconds. limit ≡ Some seconds) }
{
    let seconds = limit?;
    let passed = begun?.elapsed(rt).ok()?;
    if passed.as_secs() >= u64::from(seconds) {
        Some(seconds)
    } else {
        None
    }
}

// Searches for what the options ask for, and tells how far it is.
fn search<R: Clock, E: Sink>(
    rt: &R,
    alloc: Global,
    code: &Code,
    options: SearchOptions,
    shows: bool,
    err: &mut E,
) -> Result<Searched, RunFault>
    requires { HasPlaces code.now }
    ensures { Meanwhile (IsSearched code.now options) shows result (E.written err.old) (E.written err.new) (E.faults err.old) (E.faults err.new) }
{
    let begun = Instant::now(rt).ok();
    let aim = Aim {
        sought: sought(options.aim),
        preemptions: options.preemptions,
        states: options.states,
    };
    let mut under_way = Search::new(alloc, code, aim)?;
    let mut told = 0;
    for _ in 0..u64::MAX {
        if let Some(result) = under_way.step(alloc, code)? {
            return Ok(Searched::Told(result));
        }
        told = tell_progress(alloc, shows, told, under_way.states(), err)?;
        if let Some(seconds) = seconds_over(rt, begun.as_ref(), options.seconds) {
            return Ok(Searched::OutOfTime(seconds));
        }
    }
    Ok(Searched::Told(SearchResult::TooMany))
}

// The answer for a search that ended so.
fn answer_for<R: Threads + Sync>(
    rt: &R,
    alloc: Global,
    code: &Code,
    options: SearchOptions,
    searched: Searched,
) -> Result<Answer, Memory>
    requires places { HasPlaces code.now }
    requires searched { IsSearched code.now options searched }
    ensures { IfOk result (λ answer. IsAnswerOnSearch code.now options answer.status answer.text) }
{
    match searched {
        Searched::Told(SearchResult::Found(numbers)) => {
            let answer = found_answer(rt, alloc, code, options.aim, numbers)?;
            Ok(answer)
        }
        Searched::Told(SearchResult::Nothing(states)) => Ok(Answer {
            status: Status::Clean,
            text: nothing_line(alloc, states, options.preemptions)?,
        }),
        Searched::Told(SearchResult::Finalisers) => Ok(Answer {
            status: Status::Spent,
            text: list_of(alloc, FINALISERS)?,
        }),
        Searched::Told(SearchResult::TooMany) => Ok(Answer {
            status: Status::Spent,
            text: too_many_line(alloc, options.states)?,
        }),
        Searched::OutOfTime(seconds) => Ok(Answer {
            status: Status::Spent,
            text: out_of_time_line(alloc, seconds)?,
        }),
    }
}

/// Looks for what the options ask for. With `shows` it tells on `err` how far the search is.
pub(crate) fn answer_search<R: Threads + Sync + Clock, E: Sink>(
    rt: &R,
    alloc: Global,
    code: &Code,
    options: SearchOptions,
    shows: bool,
    err: &mut E,
) -> Result<Answer, RunFault>
    requires { HasPlaces code.now }
    ensures { Meanwhile (λ answer. IsAnswerOnSearch code.now options answer.status answer.text) shows result (E.written err.old) (E.written err.new) (E.faults err.old) (E.faults err.new) }
{
    let searched = search(rt, alloc, code, options, shows, err)?;
    let answer = answer_for(rt, alloc, code, options, searched)?;
    Ok(answer)
}
