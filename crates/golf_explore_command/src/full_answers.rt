//! Answers a question about the schedules of a code.

ghost use Rattle.std.specs.Prelude.{◌≡◌, IfOk};
ghost use Rattle.golf_data.specs.Places.{HasPlaces};
ghost use Rattle.golf_explore.specs.Results.{TellsSearch};
ghost use Rattle.golf_explore_command.specs.Answers.{IsAnswer, IsAnswerOnAll};
ghost use Rattle.golf_explore_command.specs.Progress.{Meanwhile};

use crate::found_runs::{Answer, found_answer};
use crate::progress::tell_progress;
use crate::search_answers::answer_search;
use crate::texts::{FINALISERS, too_many_line, visited_text};
use golf_base::{Memory, Sink};
use golf_data::Code;
use golf_explore::{Exploration, Explored};
use golf_explore_words::{Question, SearchFor};
use golf_run::RunFault;
use golf_run_texts::{Status, list_of};
use std::alloc::Global;
use std::thread::Threads;
use std::time::Clock;

// Searches all schedules of the code, and tells how far it is.
fn explore<E: Sink>(
    alloc: Global,
    code: &Code,
    most: u32,
    shows: bool,
    err: &mut E,
) -> Result<Explored, RunFault>
    requires { HasPlaces code.now }
    ensures { Meanwhile (TellsSearch code.now) shows result (E.written err.old) (E.written err.new) (E.faults err.old) (E.faults err.new) }
{
    let mut search = Exploration::new(alloc, code, most)?;
    let mut told = 0;
    for _ in 0..u64::MAX {
        if let Some(explored) = search.step(alloc, code)? {
            return Ok(explored);
        }
        told = tell_progress(alloc, shows, told, search.states(), err)?;
    }
    Ok(Explored::TooMany)
}

// The answer on all schedules of the code, with this result.
fn answer_on<R: Threads + Sync>(
    rt: &R,
    alloc: Global,
    code: &Code,
    most: u32,
    explored: Explored,
) -> Result<Answer, Memory>
    requires places { HasPlaces code.now }
    requires tells { TellsSearch code.now explored }
    ensures { IfOk result (λ answer. IsAnswerOnAll code.now most answer.status answer.text) }
{
    match explored {
        Explored::AllVisited(told) => Ok(Answer {
            status: Status::Clean,
            text: visited_text(alloc, told)?,
        }),
        Explored::Leak(numbers) => {
            let answer = found_answer(rt, alloc, code, SearchFor::Leak, numbers)?;
            Ok(answer)
        }
        Explored::Finalisers => Ok(Answer {
            status: Status::Spent,
            text: list_of(alloc, FINALISERS)?,
        }),
        Explored::TooMany => Ok(Answer {
            status: Status::Spent,
            text: too_many_line(alloc, most)?,
        }),
    }
}

// The answer on all schedules of the code, of which at most `most` states are kept.
fn answer_all<R: Threads + Sync, E: Sink>(
    rt: &R,
    alloc: Global,
    code: &Code,
    most: u32,
    shows: bool,
    err: &mut E,
) -> Result<Answer, RunFault>
    requires { HasPlaces code.now }
    ensures { Meanwhile (λ answer. IsAnswerOnAll code.now most answer.status answer.text) shows result (E.written err.old) (E.written err.new) (E.faults err.old) (E.faults err.new) }
{
    let explored = explore(alloc, code, most, shows, err)?;
    let answer = answer_on(rt, alloc, code, most, explored)?;
    Ok(answer)
}

/// Answers the question. With `shows` it tells on `err` how far the search is.
pub(crate) fn answer_to<R: Threads + Sync + Clock, E: Sink>(
    rt: &R,
    alloc: Global,
    code: &Code,
    question: Question,
    shows: bool,
    err: &mut E,
) -> Result<Answer, RunFault>
    requires { HasPlaces code.now }
    ensures { Meanwhile (λ answer. IsAnswer code.now question answer.status answer.text) shows result (E.written err.old) (E.written err.new) (E.faults err.old) (E.faults err.new) }
{
    match question {
        Question::All(most) => answer_all(rt, alloc, code, most, shows, err),
        Question::Search(options) => answer_search(rt, alloc, code, options, shows, err),
    }
}
