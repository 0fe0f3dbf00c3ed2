//! The end of a call that runs no file: a line on the second sink, and the status.

ghost use Rattle.std.specs.Prelude.{◌≡◌, IfOk};
ghost use Rattle.golf_command.specs.Ends.{EndsWith, Refuses, refusal_line, refusal_status as refusal_status_of};

use golf_base::{List, Memory, Sink, write_all};
use golf_reader::Refusal;
use golf_run_texts::{NO_MEMORY, Status, lexical_line, list_of, rule_line, syntax_line};
use std::alloc::Global;

/// Writes a last line. Returns the status, or `WriteFault` if the write failed.
pub fn end<E: Sink>(err: &mut E, line: &[u8], status: Status) -> Status
    ensures { EndsWith result status line.now (E.written err.old) (E.written err.new) (E.faults err.old) (E.faults err.new) }
{
    match write_all(err, line) {
        Ok(()) => status,
        Err(_) => Status::WriteFault,
    }
}

// The line of a refusal.
fn refusal_text(alloc: Global, refusal: Refusal) -> Result<List<u8>, Memory>
    ensures { IfOk result (λ text. text ≡ refusal_line refusal) }
{
    match refusal {
        Refusal::Lexical { line, byte } => lexical_line(alloc, line, byte),
        Refusal::Syntax { line } => syntax_line(alloc, line),
        Refusal::Untyped { line, rule } => rule_line(alloc, line, rule),
        Refusal::Memory => list_of(alloc, NO_MEMORY),
    }
}

fn refusal_status(refusal: Refusal) -> Status
    ensures { result ≡ refusal_status_of refusal }
{
    match refusal {
        Refusal::Lexical { .. } | Refusal::Syntax { .. } | Refusal::Untyped { .. } => {
            Status::Refused
        }
        Refusal::Memory => Status::Memory,
    }
}

/// Writes the reason for which a file is refused, and returns the status.
pub(crate) fn refuse<E: Sink>(alloc: Global, err: &mut E, refusal: Refusal) -> Status
    ensures { Refuses result refusal (E.written err.old) (E.written err.new) (E.faults err.old) (E.faults err.new) }
{
    match refusal_text(alloc, refusal) {
        Ok(text) => end(err, text.as_slice(), refusal_status(refusal)),
        Err(_) => end(err, NO_MEMORY, Status::Memory),
    }
}
