//! The summary line of the run of a generated file.

ghost use Rattle.std.specs.Prelude.{◌≡◌, IfOk, string_bytes};
ghost use Rattle.golf_command_sample.specs.File.{summary, summary_back, summary_front};

use golf_base::{List, Memory};
use std::alloc::Global;

/// The numbers of the run of a generated file.
#[derive(Clone, Copy, Debug, PartialEq, Eq)]
pub struct Summary {
    /// The parts of the file.
    pub parts: u32,
    /// The lines of the file.
    pub lines: u32,
    /// How many collections there were.
    pub collections: u32,
    /// How many goroutines all collections together reported.
    pub reported: u64,
    /// How many dead goroutines the last collection kept.
    pub kept: u32,
    /// How many goroutines all collections together reclaimed.
    pub reclaimed: u64,
    /// How many objects the last collection left.
    pub objects: u32,
}

/// Returns the summary line of a run.
pub fn summary_line(alloc: Global, of: Summary) -> Result<List<u8>, Memory>
    ensures { IfOk result (λ line. line ≡ summary of) }
{
    let front = front_of(alloc, of)?;
    let back = back_of(alloc, of)?;
    let mut text = List::new(alloc);
    text.extend_from_slice(front.as_bytes())?;
    text.extend_from_slice(back.as_bytes())?;
    Ok(text)
}

// The first part of the line: the file and the reports.
fn front_of(alloc: Global, of: Summary) -> Result<String, Memory>
    ensures { IfOk result (λ text. string_bytes text ≡ summary_front of.parts of.lines of.collections of.reported) }
{
    let parts = of.parts;
    let lines = of.lines;
    let collections = of.collections;
    let reported = of.reported;
    Ok(format!(in alloc;
        "generated {parts}: lines {lines}, collections {collections}, reported {reported}"
    )?)
}

// The second part of the line: what the last collection left.
fn back_of(alloc: Global, of: Summary) -> Result<String, Memory>
    ensures { IfOk result (λ text. string_bytes text ≡ summary_back of.kept of.reclaimed of.objects) }
{
    let kept = of.kept;
    let reclaimed = of.reclaimed;
    let objects = of.objects;
    Ok(format!(in alloc; ", kept {kept}, reclaimed {reclaimed}, objects {objects}\n")?)
}
