//! The run of a generated file.
//!
//! The file is made in memory. The source is not read.

ghost use Rattle.std.specs.Prelude.{◌≡◌, ◌≤◌, IfOk};
ghost use Rattle.golf_data.specs.Places.{HasPlaces};
ghost use Rattle.golf_run_schedules.specs.Options.{IsWithinLimits};
ghost use Rattle.golf_command_sample.specs.File.{file as file_of, most_parts, summary as summary_of};
ghost use Rattle.golf_run.specs.HasRun.{sinks};
ghost use Rattle.golf_command.specs.GeneratedRuns.{generated_options as generated_options_of, summed_up};
ghost use Rattle.golf_command.specs.Ways.{Way};
ghost use Rattle.golf_command.specs.Written.{AreTextsOf};
ghost use Rattle.golf_command.specs.Means.{FileTells};
ghost use Rattle.golf_command_words.specs.declared.line.CommandLine.{CommandLine};

use crate::ends::end;
use crate::texts::{RunTexts, write_texts};
use golf_base::{Gate, List, Memory, Sink};
use golf_command_sample::{Summary, file_lines, sample_file, summary_line};
use golf_data::Code;
use golf_reader::{Refusal, read};
use golf_run::survey;
use golf_run_schedules::{MOST_TURNS, RunOptions, Schedule};
use golf_run_texts::{NO_MEMORY, Status, Totals};
use std::alloc::Global;
use std::thread::Threads;

// The options of the run of a generated file: in rotation, by four markers, with recovery.
fn generated_options() -> RunOptions
    ensures options { result ≡ generated_options_of }
    ensures limits { IsWithinLimits result }
{
    RunOptions {
        schedule: Schedule::Rotate,
        turns: MOST_TURNS,
        every: None,
        markers: 4,
        recover: true,
        why: false,
    }
}

// The summary line of the run of a file of this many parts.
fn summary(alloc: Global, parts: u32, totals: Totals) -> Result<List<u8>, Memory>
    requires { parts ≤ most_parts }
    ensures { IfOk result (λ text. text ≡ summary_of (summed_up parts totals)) }
{
    file_lines();
    let lines = 20 + 9 * parts;
    let of = Summary {
        parts,
        lines,
        collections: totals.collections,
        reported: totals.reported,
        kept: totals.kept,
        reclaimed: totals.reclaimed,
        objects: totals.objects,
    };
    summary_line(alloc, of)
}

// The texts of the run of the code of the generated file of this many parts.
#[tactic(auto, unfolding(crate::specs::GeneratedRuns::generated_summary))]
fn surveyed<R: Threads + Sync, G: Gate + Sync>(
    rt: &R,
    alloc: Global,
    parts: u32,
    code: &Code,
    gate: &G,
) -> Result<RunTexts, Memory>
    requires places { HasPlaces code.now }
    requires parts { parts ≤ most_parts }
    ensures { IfOk result (λ of. AreTextsOf of (Way.Generated parts) code.now) }
{
    let outcome = survey(rt, alloc, code, generated_options(), gate)?;
    let text = summary(alloc, parts, outcome.totals)?;
    Ok(RunTexts {
        status: outcome.status,
        out: text,
        err: outcome.line,
    })
}

/// Makes the file of this many parts, reads it and runs it. It writes the summary line and the last line of
/// the run. No such file is refused.
pub(crate) fn run_generated<R: Threads + Sync, O: Sink, E: Sink, G: Gate + Sync>(
    rt: &R,
    alloc: Global,
    parts: u32,
    out: &mut O,
    err: &mut E,
    gate: &G,
) -> Status
    requires some { 1 ≤ parts }
    requires most { parts ≤ most_parts }
    ensures { FileTells (CommandLine.Generate parts) (file_of parts) result
        (sinks (O.written out.old) (O.faults out.old) (E.written err.old) (E.faults err.old))
        (sinks (O.written out.new) (O.faults out.new) (E.written err.new) (E.faults err.new)) }
{
    let bytes = match sample_file(alloc, parts) {
        Ok(bytes) => bytes,
        Err(_) => return end(err, NO_MEMORY, Status::Memory),
    };
    match read(alloc, bytes.as_slice()) {
        Ok(code) => write_texts(out, err, surveyed(rt, alloc, parts, &code, gate)),
        Err(Refusal::Memory) => end(err, NO_MEMORY, Status::Memory),
        Err(Refusal::Lexical { .. }) => unreachable!(),
        Err(Refusal::Syntax { .. }) => unreachable!(),
        Err(Refusal::Untyped { .. }) => unreachable!(),
    }
}
