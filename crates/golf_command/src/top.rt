//! The top call.
//!
//! It reads the words, and serves the command line that they stand for.

ghost use Rattle.std.specs.Prelude.{◌≡◌, IfOk, IfSome, List, None, ℕ};
ghost use Rattle.golf_run_schedules.specs.Options.{IsWithinLimits};
ghost use Rattle.golf_run.specs.HasRun.{sinks};
ghost use Rattle.golf_command_words.specs.Words.{line_of, IsWithin};
ghost use Rattle.golf_command.specs.Asked.{threads_asked};
ghost use Rattle.golf_command.specs.Means.{words_of, seen, LineTells, Tells};
ghost use Rattle.golf_command.specs.Served.{HasServed};

use crate::ends::end;
use crate::generated::run_generated;
use crate::meaning::serve_meaning;
use crate::source_file::load;
use crate::threads::serve_threads;
use golf_base::{Gate, Memory, Sink, Source};
use golf_command_words::{CommandLine, parse};
use golf_run::{RunFault, run};
use golf_run_schedules::RunOptions;
use golf_run_texts::{NO_MEMORY, Status, USAGE};
use std::alloc::Global;
use std::sync::Wait;
use std::thread::Threads;

// Reads the file of a run, and runs it by the options.
fn run_source<R: AllocGlobal + Threads + Sync, S: Source, O: Sink, E: Sink, G: Gate + Sync>(
    rt: &R,
    options: RunOptions,
    source: &mut S,
    out: &mut O,
    err: &mut E,
    gate: &G,
) -> Status
    requires { IsWithinLimits options }
    ensures { LineTells (CommandLine.Run options) result
        (seen (S.left source.old) (S.faults source.old) (sinks (O.written out.old) (O.faults out.old) (E.written err.old) (E.faults err.old)))
        (seen (S.left source.new) (S.faults source.new) (sinks (O.written out.new) (O.faults out.new) (E.written err.new) (E.faults err.new))) }
{
    let code = match load(rt.alloc(), source, err) {
        Ok(code) => code,
        Err(status) => return status,
    };
    match run(rt, rt.alloc(), &code, options, out, err, gate) {
        Ok(status) => status,
        Err(RunFault::Write) => Status::WriteFault,
        Err(RunFault::Memory) => end(err, NO_MEMORY, Status::Memory),
    }
}

// How many threads the command line asks for, or `None` if it asks for none.
fn threads_of(line: &Result<Option<CommandLine>, Memory>) -> Option<u32>
    ensures { result ≡ threads_asked line.now }
{
    match line {
        Ok(Some(CommandLine::Threads(threads))) => Some(*threads),
        Ok(Some(CommandLine::Run(_) | CommandLine::Generate(_) | CommandLine::Meaning)) => None,
        Ok(None) => None,
        Err(_) => None,
    }
}

// Serves a command line that is not `run --threads`.
fn serve_line<R: AllocGlobal + Threads + Sync, S: Source, O: Sink, E: Sink, G: Gate + Sync>(
    rt: &R,
    line: Result<Option<CommandLine>, Memory>,
    source: &mut S,
    out: &mut O,
    err: &mut E,
    gate: &G,
) -> Status
    requires limits { IfOk line (λ asked. IfSome asked IsWithin) }
    requires other { threads_asked line ≡ None }
    ensures { (words : List (List ℕ)) → IfOk line (λ asked. asked ≡ line_of words) → Tells words result
        (seen (S.left source.old) (S.faults source.old) (sinks (O.written out.old) (O.faults out.old) (E.written err.old) (E.faults err.old)))
        (seen (S.left source.new) (S.faults source.new) (sinks (O.written out.new) (O.faults out.new) (E.written err.new) (E.faults err.new))) }
{
    match line {
        Ok(Some(CommandLine::Run(options))) => run_source(rt, options, source, out, err, gate),
        Ok(Some(CommandLine::Generate(parts))) => {
            run_generated(rt, rt.alloc(), parts, out, err, gate)
        }
        Ok(Some(CommandLine::Meaning)) => serve_meaning(rt.alloc(), source, out, err),
        Ok(Some(CommandLine::Threads(_))) => unreachable!(),
        Ok(None) => end(err, USAGE, Status::Usage),
        Err(_) => end(err, NO_MEMORY, Status::Memory),
    }
}

/// What became of the words, without waiting for a lock.
#[derive(Clone, Copy, Debug, PartialEq, Eq)]
pub enum Served {
    /// All is done that the words ask for, and this is the status.
    Done(Status),
    /// The words ask for a run by this many threads. Nothing was read or written.
    AsksThreads(u32),
}

/// Does all that the program does, except for `run --threads`. `rt` lacks the right to wait, so the call returns.
///
/// Its clause is that of `golf`. If the words ask for threads, it says only how many, and that nothing has changed.
pub fn serve<R: AllocGlobal + Threads + Sync, S: Source, O: Sink, E: Sink, G: Gate + Sync>(
    rt: &R,
    words: &[String],
    source: &mut S,
    out: &mut O,
    err: &mut E,
    gate: &G,
) -> Served
    ensures { HasServed (words_of words.now) result
        (seen (S.left source.old) (S.faults source.old) (sinks (O.written out.old) (O.faults out.old) (E.written err.old) (E.faults err.old)))
        (seen (S.left source.new) (S.faults source.new) (sinks (O.written out.new) (O.faults out.new) (E.written err.new) (E.faults err.new))) }
{
    let line = parse(rt.alloc(), words);
    match threads_of(&line) {
        Some(threads) => Served::AsksThreads(threads),
        None => Served::Done(serve_line(rt, line, source, out, err, gate)),
    }
}

/// Does all that the program does. It reads the words, reads the file from `source`, and judges it. Then it
/// runs the file, or compares its code with its source. The file's output goes to `out`, and everything
/// else goes to `err`.
///
/// With `--threads` it may wait for the lock of its program. For every other command line it does what `serve`
/// does, and no more: the body shows this, and no clause says it, since `rt` has the bound `Wait`.
///
/// The clause is about the source and the sinks before the call and after it. It says:
///
/// - the meaning of the status, both if the words are a command line and if they are not,
/// - which counts of faults rose: those that the status names, and no other,
/// - that without a fault all is written, unless memory ran out.
pub fn golf<R: AllocGlobal + Threads + Wait + Sync, S: Source, O: Sink, E: Sink, G: Gate + Sync>(
    rt: &R,
    words: &[String],
    source: &mut S,
    out: &mut O,
    err: &mut E,
    gate: &G,
) -> Status
    ensures { Tells (words_of words.now) result
        (seen (S.left source.old) (S.faults source.old) (sinks (O.written out.old) (O.faults out.old) (E.written err.old) (E.faults err.old)))
        (seen (S.left source.new) (S.faults source.new) (sinks (O.written out.new) (O.faults out.new) (E.written err.new) (E.faults err.new))) }
{
    match serve(rt, words, source, out, err, gate) {
        Served::Done(status) => status,
        Served::AsksThreads(threads) => serve_threads(rt, threads, source, out, err, gate),
    }
}
