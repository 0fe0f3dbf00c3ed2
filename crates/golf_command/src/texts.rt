//! Writes the texts at the end of a command line: after a run one text to each sink.

ghost use Rattle.golf_run.specs.HasRun.{sinks};
ghost use Rattle.golf_command.specs.Written.{HasWrittenText, HasWrittenRun, WroteBoth};

use crate::ends::end;
use golf_base::{List, Memory, Sink, write_all};
use golf_run_texts::{NO_MEMORY, Status};

/// The texts of a run that is over, and the status of the program.
#[derive(Debug, Drop)]
pub(crate) struct RunTexts {
    pub status: Status,
    pub out: List<u8>,
    pub err: List<u8>,
}

// Writes a text to each sink. Returns whether both were written whole.
fn write_both<O: Sink, E: Sink>(out: &mut O, err: &mut E, text: &[u8], line: &[u8]) -> bool
    ensures { WroteBoth result text.now line.now
        (sinks (O.written out.old) (O.faults out.old) (E.written err.old) (E.faults err.old))
        (sinks (O.written out.new) (O.faults out.new) (E.written err.new) (E.faults err.new)) }
{
    match write_all(out, text) {
        Ok(()) => match write_all(err, line) {
            Ok(()) => true,
            Err(_) => false,
        },
        Err(_) => false,
    }
}

/// Writes the texts of a run, and returns the status. If there was no memory for them, it writes the line
/// that says so.
pub(crate) fn write_texts<O: Sink, E: Sink>(
    out: &mut O,
    err: &mut E,
    made: Result<RunTexts, Memory>,
) -> Status
    ensures { HasWrittenRun made result
        (sinks (O.written out.old) (O.faults out.old) (E.written err.old) (E.faults err.old))
        (sinks (O.written out.new) (O.faults out.new) (E.written err.new) (E.faults err.new)) }
{
    let texts = match made {
        Ok(texts) => texts,
        Err(_) => return end(err, NO_MEMORY, Status::Memory),
    };
    if write_both(out, err, texts.out.as_slice(), texts.err.as_slice()) {
        texts.status
    } else {
        Status::WriteFault
    }
}

/// Writes the text of a command line that runs nothing, and returns the status. If there was no memory for
/// it, it writes the line that says so.
pub(crate) fn write_told<O: Sink, E: Sink>(
    out: &mut O,
    err: &mut E,
    made: Result<List<u8>, Memory>,
) -> Status
    ensures { HasWrittenText made result
        (sinks (O.written out.old) (O.faults out.old) (E.written err.old) (E.faults err.old))
        (sinks (O.written out.new) (O.faults out.new) (E.written err.new) (E.faults err.new)) }
{
    let text = match made {
        Ok(text) => text,
        Err(_) => return end(err, NO_MEMORY, Status::Memory),
    };
    match write_all(out, text.as_slice()) {
        Ok(()) => Status::Clean,
        Err(_) => Status::WriteFault,
    }
}
