//! The lines of collections, panics and endings. The only error is `Memory`.

ghost use Rattle.std.specs.Prelude.{◌≡◌, ◌++◌, IfOk, OnOk, string_bytes};
ghost use Rattle.golf_data.specs.Fatal.{is_fatal};
ghost use Rattle.golf_run_texts.specs.Texts.{
  wait_text as wait_bytes,
  entry_line as entry_bytes,
  entry_lines as entries_bytes,
  found_text as found_bytes,
  left_text as left_bytes,
  report_line as report_line_bytes,
  report_text as report_bytes,
  panic_text as panic_bytes,
  fault_word as fault_word_bytes,
  fault_line as fault_bytes,
  asleep_line as asleep_bytes,
  ending_line as ending_bytes,
  stopped_line as stopped_bytes,
};

use crate::refusals::list_of;
use golf_base::{GoroutineId, List, Memory};
use golf_data::{Ending, Entry, PanicKind, Report, WaitKind};
use std::alloc::Global;

/// Returns the words for how a goroutine is blocked, as Go's own traces have them.
pub(crate) fn wait_text(kind: WaitKind) -> &'static str
    ensures { result.now ≡ wait_bytes kind }
{
    match kind {
        WaitKind::Receive => "chan receive",
        WaitKind::ReceiveNil => "chan receive (nil chan)",
        WaitKind::Send => "chan send",
        WaitKind::SendNil => "chan send (nil chan)",
        WaitKind::Select => "select",
        WaitKind::SelectNone => "select (no cases)",
        WaitKind::Lock => "sync.Mutex.Lock",
        WaitKind::Group => "sync.WaitGroup.Wait",
        WaitKind::ReadLock => "sync.RWMutex.RLock",
        WaitKind::WriteLock => "sync.RWMutex.Lock",
        WaitKind::Condition => "sync.Cond.Wait",
    }
}

/// Returns the line of a goroutine that can never run again.
pub fn entry_line(alloc: Global, entry: &Entry) -> Result<String, Memory>
    ensures { IfOk result (λ line. string_bytes line ≡ entry_bytes entry.now) }
{
    let goroutine = entry.goroutine.0;
    let wait = wait_text(entry.wait);
    let line = entry.line;
    let started = entry.started;
    Ok(format!(in alloc;
        "goroutine {goroutine}: {wait} at line {line}, started at line {started}\n"
    )?)
}

// The first part of a collection's line: what it found.
fn found_text(alloc: Global, report: &Report) -> Result<String, Memory>
    ensures { IfOk result (λ text. string_bytes text ≡ found_bytes report.now) }
{
    let number = report.number;
    let marked = report.marked;
    let reported = report.reported.len();
    Ok(format!(in alloc; "collection {number}: marked {marked}, reported {reported}")?)
}

// The second part of a collection's line: what it left.
fn left_text(alloc: Global, report: &Report) -> Result<String, Memory>
    ensures { IfOk result (λ text. string_bytes text ≡ left_bytes report.now) }
{
    let kept = report.kept;
    let reclaimed = report.reclaimed;
    let objects = report.objects;
    Ok(format!(in alloc; ", kept {kept}, reclaimed {reclaimed}, objects {objects}\n")?)
}

/// Returns the line of a collection.
pub fn report_line(alloc: Global, report: &Report) -> Result<List<u8>, Memory>
    ensures { IfOk result (λ line. line ≡ report_line_bytes report.now) }
{
    let mut line = List::new(alloc);
    line.extend_from_slice(found_text(alloc, report)?.as_bytes())?;
    line.extend_from_slice(left_text(alloc, report)?.as_bytes())?;
    Ok(line)
}

// Adds a line for each goroutine.
fn add_entries(alloc: Global, text: &mut List<u8>, entries: &[Entry]) -> Result<(), Memory>
    ensures { OnOk result (text.new ≡ text.old ++ entries_bytes entries.now) }
{
    for entry in entries {
        text.extend_from_slice(entry_line(alloc, entry)?.as_bytes())?;
    }
    Ok(())
}

/// Returns the line of a collection, and after it a line for each goroutine that it reports.
pub fn report_text(alloc: Global, report: &Report) -> Result<List<u8>, Memory>
    ensures { IfOk result (λ text. text ≡ report_bytes report.now) }
{
    let mut text = report_line(alloc, report)?;
    add_entries(alloc, &mut text, report.reported.as_slice())?;
    Ok(text)
}

// Adds the reason for which a goroutine panics.
fn add_reason(
    alloc: Global,
    text: &mut List<u8>,
    texts: &[List<u8>],
    kind: PanicKind,
) -> Result<(), Memory>
    ensures { OnOk result (text.new ≡ text.old ++ panic_bytes texts.now kind) }
{
    match kind {
        PanicKind::Custom(k) => match texts.get(k as usize) {
            Some(found) => text.extend_from_slice(found.as_slice()),
            None => Ok(()),
        },
        PanicKind::Index { at, length } => {
            let line = format!(in alloc;
                "runtime error: index out of range [{at}] with length {length}"
            )?;
            text.extend_from_slice(line.as_bytes())
        }
        PanicKind::NilPointer => text.extend_from_slice(
            b"runtime error: invalid memory address or nil pointer dereference",
        ),
        PanicKind::DivideByZero => {
            text.extend_from_slice(b"runtime error: integer divide by zero")
        }
        PanicKind::SliceSize => {
            text.extend_from_slice(b"runtime error: makeslice: len out of range")
        }
        PanicKind::ChanSize => text.extend_from_slice(b"makechan: size out of range"),
        PanicKind::SendClosed => text.extend_from_slice(b"send on closed channel"),
        PanicKind::CloseClosed => text.extend_from_slice(b"close of closed channel"),
        PanicKind::CloseNil => text.extend_from_slice(b"close of nil channel"),
        PanicKind::NegativeGroup => { text.extend_from_slice(b"sync: negative WaitGroup counter") }
        PanicKind::UnlockUnlocked => text.extend_from_slice(b"sync: unlock of unlocked mutex"),
        PanicKind::UnlockUnlockedRw => {
            text.extend_from_slice(b"sync: Unlock of unlocked RWMutex")
        }
        PanicKind::RUnlockUnlocked => {
            text.extend_from_slice(b"sync: RUnlock of unlocked RWMutex")
        }
        PanicKind::ReaderLimit => text.extend_from_slice(b"sync: too many readers"),
        PanicKind::FinalizerSet => {
            text.extend_from_slice(b"runtime.SetFinalizer: finalizer already set")
        }
        PanicKind::StackOverflow => text.extend_from_slice(b"stack overflow"),
    }
}

// The first word of the line: a fatal error is no panic, and runs no deferred call.
fn fault_word(kind: PanicKind) -> &'static str
    ensures { result.now ≡ fault_word_bytes (is_fatal kind) }
{
    if kind.is_fatal() {
        "fatal error: "
    } else {
        "panic: "
    }
}

// The line of a panic or of a fatal error of a goroutine.
fn fault_line(
    alloc: Global,
    texts: &[List<u8>],
    kind: PanicKind,
    goroutine: GoroutineId,
    line: u32,
) -> Result<List<u8>, Memory>
    ensures { IfOk result (λ text. text ≡ fault_bytes texts.now kind goroutine line) }
{
    let number = goroutine.0;
    let place = format!(in alloc; " (goroutine {number}, line {line})\n")?;
    let mut text = List::new(alloc);
    text.extend_from_slice(fault_word(kind).as_bytes())?;
    add_reason(alloc, &mut text, texts, kind)?;
    text.extend_from_slice(place.as_bytes())?;
    Ok(text)
}

fn asleep_line(alloc: Global) -> Result<List<u8>, Memory>
    ensures { IfOk result (λ text. text ≡ asleep_bytes) }
{
    list_of(
        alloc,
        b"fatal error: all goroutines are asleep - deadlock!\n",
    )
}

/// Returns the line of a program that has crashed, or an empty one if it has returned. `texts` is the
/// code's table, which has the text of a `panic`.
pub fn ending_line(alloc: Global, texts: &[List<u8>], ending: Ending) -> Result<List<u8>, Memory>
    ensures { IfOk result (λ line. line ≡ ending_bytes texts.now ending) }
{
    match ending {
        Ending::Returned => Ok(List::new(alloc)),
        Ending::Asleep => asleep_line(alloc),
        Ending::Panicked {
            kind,
            goroutine,
            line,
        } => fault_line(alloc, texts, kind, goroutine, line),
    }
}

/// Returns the line of a program that has not ended after `turns` turns.
pub fn stopped_line(alloc: Global, turns: u32) -> Result<List<u8>, Memory>
    ensures { IfOk result (λ line. line ≡ stopped_bytes turns) }
{
    let line = format!(in alloc; "stopped after {turns} turns\n")?;
    list_of(alloc, line.as_bytes())
}
