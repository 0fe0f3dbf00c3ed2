//! Compares a file's code with its source.
//!
//! It runs nothing.

ghost use Rattle.std.specs.Prelude.{◌≡◌, IfOk};
ghost use Rattle.golf_meaning_statements.specs.Files.{function_count as function_count_of};
ghost use Rattle.golf_run_texts.specs.Texts.{meaning_line as meaning_line_of};
ghost use Rattle.golf_run.specs.HasRun.{sinks};
ghost use Rattle.golf_command.specs.Means.{seen, LineTells};
ghost use Rattle.golf_command_words.specs.declared.line.CommandLine.{CommandLine};

use crate::source_file::load_tree;
use crate::texts::write_told;
use golf_base::{List, Memory, Sink, Source};
use golf_check::Checked;
use golf_code::generate;
use golf_meaning::{check_all, function_count};
use golf_run_texts::{Status, meaning_line};
use std::alloc::Global;

// The line that says that all functions agree with their source, and how many there are.
fn agreement(alloc: Global, checked: &Checked) -> Result<List<u8>, Memory>
    ensures { IfOk result (λ text. text ≡ meaning_line_of (function_count_of checked.now.declarations)) }
{
    let code = generate(alloc, checked)?;
    let same = check_all(alloc, checked, &code)?;
    if !same {
        unreachable!()
    }
    meaning_line(
        alloc,
        function_count(checked.file().declarations.as_slice()),
    )
}

/// Serves the command line `meaning`: reads the file, and compares the code of each of its functions with
/// its source. It runs nothing.
pub(crate) fn serve_meaning<S: Source, O: Sink, E: Sink>(
    alloc: Global,
    source: &mut S,
    out: &mut O,
    err: &mut E,
) -> Status
    ensures { LineTells CommandLine.Meaning result
        (seen (S.left source.old) (S.faults source.old) (sinks (O.written out.old) (O.faults out.old) (E.written err.old) (E.faults err.old)))
        (seen (S.left source.new) (S.faults source.new) (sinks (O.written out.new) (O.faults out.new) (E.written err.new) (E.faults err.new))) }
{
    let checked = match load_tree(alloc, source, err) {
        Ok(checked) => checked,
        Err(status) => return status,
    };
    write_told(out, err, agreement(alloc, &checked))
}
