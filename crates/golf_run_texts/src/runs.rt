//! The texts of a whole run: all its reports, and the numbers of its turns. The only error is `Memory`.

ghost use Rattle.std.specs.Prelude.{◌≡◌, ◌++◌, IfOk, OnOk, codes, decimal, string_bytes};
ghost use Rattle.golf_run_texts.specs.Output.{anyone_reported as anyone_reported_of};
ghost use Rattle.golf_run_texts.specs.Texts.{
  reports_text as reports_bytes,
  more_numbers as more_bytes,
  numbers_text as numbers_bytes,
  history_line as history_bytes,
  meaning_line as meaning_bytes,
};

use crate::lines::report_text;
use crate::refusals::list_of;
use golf_base::{List, Memory};
use golf_data::Report;
use std::alloc::Global;

// Adds the lines of each collection.
fn add_reports(alloc: Global, text: &mut List<u8>, reports: &[Report]) -> Result<(), Memory>
    ensures { OnOk result (text.new ≡ text.old ++ reports_bytes reports.now) }
{
    for report in reports {
        text.extend_from_slice(report_text(alloc, report)?.as_slice())?;
    }
    Ok(())
}

/// Returns the lines of the collections of a run, in their order.
pub fn reports_text(alloc: Global, reports: &[Report]) -> Result<List<u8>, Memory>
    ensures { IfOk result (λ text. text ≡ reports_bytes reports.now) }
{
    let mut text = List::new(alloc);
    add_reports(alloc, &mut text, reports)?;
    Ok(text)
}

/// Returns whether one of the reports names a goroutine.
pub fn anyone_reported(reports: &[Report]) -> bool
    ensures { result ≡ anyone_reported_of reports.now }
{
    for report in reports {
        if !report.reported.is_empty() {
            return true;
        }
    }
    false
}

// A number after a comma.
fn after_comma(alloc: Global, number: u64) -> Result<String, Memory>
    ensures { IfOk result (λ text. string_bytes text ≡ codes "," ++ decimal number) }
{
    Ok(format!(in alloc; ",{number}")?)
}

// Adds each number after a comma.
fn add_more(alloc: Global, text: &mut List<u8>, numbers: &[u64]) -> Result<(), Memory>
    ensures { OnOk result (text.new ≡ text.old ++ more_bytes numbers.now) }
{
    for number in numbers {
        text.extend_from_slice(after_comma(alloc, *number)?.as_bytes())?;
    }
    Ok(())
}

/// Adds the numbers to the text, with a comma between two of them.
pub fn add_numbers(alloc: Global, text: &mut List<u8>, numbers: &[u64]) -> Result<(), Memory>
    ensures { OnOk result (text.new ≡ text.old ++ numbers_bytes numbers.now) }
{
    let Some((first, more)) = numbers.split_first() else {
        return Ok(());
    };
    let number = *first;
    text.extend_from_slice(format!(in alloc; "{number}")?.as_bytes())?;
    add_more(alloc, text, more)
}

/// Returns the line of the numbers of all turns of a run, in their order.
#[tactic(auto, unfolding(crate::specs::Texts::history_line))]
pub fn history_line(alloc: Global, numbers: &[u64]) -> Result<List<u8>, Memory>
    ensures { IfOk result (λ line. line ≡ history_bytes numbers.now) }
{
    let mut line = List::new(alloc);
    line.extend_from_slice(b"history: ")?;
    add_numbers(alloc, &mut line, numbers)?;
    line.extend_from_slice(b"\n")?;
    Ok(line)
}

/// Returns the line of a file of `functions` functions, each with code that agrees with its source.
pub fn meaning_line(alloc: Global, functions: usize) -> Result<List<u8>, Memory>
    ensures { IfOk result (λ line. line ≡ meaning_bytes functions) }
{
    let text = format!(in alloc; "meaning: {functions} functions agree\n")?;
    list_of(alloc, text.as_bytes())
}
