//! The run of a file by threads.
//!
//! Nothing is written before all turns are taken.

ghost use Rattle.std.specs.Prelude.{◌≡◌, ◌≤◌, ◌++◌, IfOk, length, map};
ghost use Rattle.golf_data.specs.Places.{HasPlaces};
ghost use Rattle.golf_run_texts.specs.Texts.{history_line as history_line_of, last_line as last_line_of};
ghost use Rattle.golf_run_texts.specs.Texts.{reports_text as reports_text_of};
ghost use Rattle.golf_run.specs.HasRun.{sinks};
ghost use Rattle.golf_command.specs.Means.{seen, LineTells};
ghost use Rattle.golf_command.specs.Ways.{AreTurns};
ghost use Rattle.golf_command.specs.Written.{AreTextsByThreads};
ghost use Rattle.golf_command_words.specs.declared.line.CommandLine.{CommandLine};
ghost use Rattle.golf_world.specs.History.{most_entries};

use crate::source_file::load;
use crate::texts::{RunTexts, write_texts};
use golf_base::{Gate, List, Memory, Sink, Source};
use golf_data::{Code, Ending};
use golf_run::{last_line, status_by};
use golf_run_texts::{Status, anyone_reported, history_line, list_of, reports_text};
use golf_world::{History, HistoryEntry, run_threads};
use std::alloc::Global;
use std::sync::Wait;
use std::thread::Threads;

// The numbers of the turns.
fn numbers_of(alloc: Global, entries: &[HistoryEntry]) -> Result<List<u64>, Memory>
    ensures { IfOk result (λ numbers. numbers ≡ map (λ e. e.number) entries.now) }
{
    let mut numbers = List::new(alloc);
    for entry in entries {
        numbers.push(entry.number)?;
    }
    Ok(numbers)
}

// The text for standard error: the reports, the last line, and the line of the numbers of all turns.
fn errors(
    alloc: Global,
    texts: &[List<u8>],
    ending: Option<Ending>,
    history: &History,
) -> Result<List<u8>, Memory>
    requires { length history.now.entries ≤ most_entries }
    ensures { IfOk result (λ text. text ≡
        (reports_text_of history.now.reports ++ last_line_of texts.now (length history.now.entries) ending) ++ history_line_of (map (λ e. e.number) history.now.entries)) }
{
    let mut text = reports_text(alloc, history.reports.as_slice())?;
    let last = last_line(alloc, texts, history.entries.len() as u32, ending)?;
    text.extend_from_slice(last.as_slice())?;
    let numbers = numbers_of(alloc, history.entries.as_slice())?;
    let line = history_line(alloc, numbers.as_slice())?;
    text.extend_from_slice(line.as_slice())?;
    Ok(text)
}

// The texts of a run of the code by this many threads.
fn texts_by_threads<R: Threads + Wait + Sync, G: Gate + Sync>(
    rt: &R,
    alloc: Global,
    threads: u32,
    code: &Code,
    gate: &G,
) -> Result<RunTexts, Memory>
    requires places { HasPlaces code.now }
    requires some { 1 ≤ threads }
    requires few { threads ≤ 16 }
    ensures { IfOk result (λ of. AreTextsByThreads of threads code.now) }
{
    let (state, history) = run_threads(rt, alloc, code, threads, gate)?;
    let ending = state.ending();
    let err = errors(alloc, code.texts.as_slice(), ending, &history)?;
    let out = list_of(alloc, state.output())?;
    Ok(RunTexts {
        status: status_by(anyone_reported(history.reports.as_slice()), ending),
        out,
        err,
    })
}

/// Runs the code by this many threads, and returns the numbers of its turns: the history that `run --threads`
/// prints. Each thread passes the gate before each of its steps. The only error is `Memory`. It may wait for
/// the lock of the program.
pub fn turns_by_threads<R: Threads + Wait + Sync, G: Gate + Sync>(
    rt: &R,
    alloc: Global,
    threads: u32,
    code: &Code,
    gate: &G,
) -> Result<List<u64>, Memory>
    requires places { HasPlaces code.now }
    requires some { 1 ≤ threads }
    requires few { threads ≤ 16 }
    ensures { IfOk result (AreTurns code.now threads) }
{
    let (_, history) = run_threads(rt, alloc, code, threads, gate)?;
    let turns = numbers_of(alloc, history.entries.as_slice())?;
    Ok(turns)
}

/// Serves the command line `run --threads`: reads the file and runs it by this many threads. Each thread
/// passes the gate before each of its steps. It writes nothing before all turns are taken. It may wait for
/// the lock of the program.
pub(crate) fn serve_threads<
    R: AllocGlobal + Threads + Wait + Sync,
    S: Source,
    O: Sink,
    E: Sink,
    G: Gate + Sync,
>(rt: &R, threads: u32, source: &mut S, out: &mut O, err: &mut E, gate: &G) -> Status
    requires some { 1 ≤ threads }
    requires few { threads ≤ 16 }
    ensures { LineTells (CommandLine.Threads threads) result
        (seen (S.left source.old) (S.faults source.old) (sinks (O.written out.old) (O.faults out.old) (E.written err.old) (E.faults err.old)))
        (seen (S.left source.new) (S.faults source.new) (sinks (O.written out.new) (O.faults out.new) (E.written err.new) (E.faults err.new))) }
{
    let code = match load(rt.alloc(), source, err) {
        Ok(code) => code,
        Err(status) => return status,
    };
    write_texts(
        out,
        err,
        texts_by_threads(rt, rt.alloc(), threads, &code, gate),
    )
}
