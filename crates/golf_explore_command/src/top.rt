//! The top call.
//!
//! It reads the words, reads the file, and writes the answer of the search, or tells each turn of a run. For
//! `--version` it writes a line, and reads no file.

ghost use Rattle.std.specs.Prelude.{◌≡◌, List, Some, ℕ};
ghost use Rattle.golf_data.specs.Places.{HasPlaces};
ghost use Rattle.golf_run.specs.HasRun.{sinks};
ghost use Rattle.golf_command.specs.Means.{seen, words_of};
ghost use Rattle.golf_explore_words.specs.declared.line.ExploreLine.{ExploreLine};
ghost use Rattle.golf_explore_words.specs.declared.line.Request.{Request};
ghost use Rattle.golf_explore_words.specs.Words.{request_of, IsSearchWithin};
ghost use Rattle.golf_explore_command.specs.Means.{CallTells, CodeTells};

use crate::full_answers::answer_to;
use crate::texts::{USAGE, VERSION, note_line};
use crate::traces::{tell_threads, tell_turns};
use golf_base::{Sink, Source, write_all};
use golf_command::{end, load};
use golf_data::Code;
use golf_explore_words::{ExploreLine, Question, Request, parse};
use golf_run::RunFault;
use golf_run_texts::{NO_MEMORY, Status};
use std::alloc::Global;
use std::sync::Wait;
use std::thread::Threads;
use std::time::Clock;

// Writes how much memory the states may take, answers the question, and writes the answer. With `shows` it tells how far
// the search is.
fn tell_answer<R: Threads + Sync + Clock, O: Sink, E: Sink>(
    rt: &R,
    alloc: Global,
    code: &Code,
    question: Question,
    shows: bool,
    out: &mut O,
    err: &mut E,
) -> Status
    requires { HasPlaces code.now }
    ensures { CodeTells code.now (ExploreLine.Ask question) shows result
        (sinks (O.written out.old) (O.faults out.old) (E.written err.old) (E.faults err.old))
        (sinks (O.written out.new) (O.faults out.new) (E.written err.new) (E.faults err.new)) }
{
    let note = match note_line(alloc, question.states()) {
        Ok(note) => note,
        Err(_) => return end(err, NO_MEMORY, Status::Memory),
    };
    match write_all(err, note.as_slice()) {
        Ok(()) => {}
        Err(_) => return Status::WriteFault,
    }
    match answer_to(rt, alloc, code, question, shows, err) {
        Ok(answer) => match write_all(out, answer.text.as_slice()) {
            Ok(()) => answer.status,
            Err(_) => Status::WriteFault,
        },
        Err(RunFault::Write) => Status::WriteFault,
        Err(RunFault::Memory) => end(err, NO_MEMORY, Status::Memory),
    }
}

// Reads the file of the source, and does with it what the line asks for. Only a trace by threads may wait for a lock.
fn serve<R: AllocGlobal + Threads + Wait + Sync + Clock, S: Source, O: Sink, E: Sink>(
    rt: &R,
    line: ExploreLine,
    shows: bool,
    source: &mut S,
    out: &mut O,
    err: &mut E,
) -> Status
    requires { IsSearchWithin line }
    ensures { (words : List (List ℕ)) → request_of words ≡ Some (Request.Serve line) → CallTells words shows result
        (seen (S.left source.old) (S.faults source.old) (sinks (O.written out.old) (O.faults out.old) (E.written err.old) (E.faults err.old)))
        (seen (S.left source.new) (S.faults source.new) (sinks (O.written out.new) (O.faults out.new) (E.written err.new) (E.faults err.new))) }
{
    let code = match load(rt.alloc(), source, err) {
        Ok(code) => code,
        Err(status) => return status,
    };
    match line {
        ExploreLine::Ask(question) => {
            tell_answer(rt, rt.alloc(), &code, question, shows, out, err)
        }
        ExploreLine::Trace(options) => tell_turns(rt, rt.alloc(), &code, options, out, err),
        ExploreLine::TraceThreads(threads) => {
            tell_threads(rt, rt.alloc(), &code, threads, out, err)
        }
    }
}

/// Does all that the program does. It reads the words, and reads the file from `source`.
///
/// - `all` searches every schedule of the file, and `search` those with few preemptions first. The answer goes
///   to `out`, and everything else to `err`. With `shows` this includes lines that tell how far the search is.
/// - `trace` runs the file by its options as `golf run` does, and tells each turn on `err`.
/// - `--version` alone reads no file, and writes the number of the release to `out`.
///
/// With `trace --threads` it may wait for the lock of its program. For every other command line it returns. The body of
/// `serve` shows this. No clause can, since `rt` has the bound `Wait`.
///
/// Every schedule means each finite list of turns, also those in which a goroutine starves. A `main` that
/// returns ends the program, and the goroutines that it leaves behind are no leak.
pub fn explorer<R: AllocGlobal + Threads + Wait + Sync + Clock, S: Source, O: Sink, E: Sink>(
    rt: &R,
    words: &[String],
    shows: bool,
    source: &mut S,
    out: &mut O,
    err: &mut E,
) -> Status
    ensures { CallTells (words_of words.now) shows result
        (seen (S.left source.old) (S.faults source.old) (sinks (O.written out.old) (O.faults out.old) (E.written err.old) (E.faults err.old)))
        (seen (S.left source.new) (S.faults source.new) (sinks (O.written out.new) (O.faults out.new) (E.written err.new) (E.faults err.new))) }
{
    match parse(rt.alloc(), words) {
        Ok(Some(Request::Version)) => end(out, VERSION, Status::Clean),
        Ok(Some(Request::Serve(line))) => serve(rt, line, shows, source, out, err),
        Ok(None) => end(err, USAGE, Status::Usage),
        Err(_) => end(err, NO_MEMORY, Status::Memory),
    }
}
