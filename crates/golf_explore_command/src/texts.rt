//! The lines that the program writes. The only error is `Memory`.

ghost use Rattle.std.specs.Prelude.{◌≡◌, ◌++◌, IfOk};
ghost use Rattle.golf_explore_command.specs.Texts.{
  ends_text,
  panics_text,
  sleeps_text,
  found_line as found_line_of,
  many_turns as many_turns_of,
  name_of as told_name,
  nothing_line as nothing_line_of,
  note_line as note_line_of,
  out_of_time_line as out_of_time_line_of,
  too_many_line as too_many_line_of,
  usage_text,
  visited_text as visited_text_of,
  words_before as words_before_of,
};

use golf_base::{List, Memory};
use golf_command_words::MOST_CHOICES;
use golf_explore::Visited;
use golf_explore_words::SearchFor;
use golf_run_schedules::MOST_TURNS;
use golf_run_texts::{add_numbers, list_of};
use std::alloc::Global;

/// The usage, for words that are no command line.
pub const USAGE: &[u8; 330] =
    b"usage: golf-explore all [--states N] < FILE\n       golf-explore search [--preemptions K] [--states N] [--seconds S] [--for leak|panic|asleep] < FILE\n       golf-explore trace [--schedule S] [--turns N] [--every N] [--markers N] [--recover] [--why] < FILE\n       golf-explore trace --threads N < FILE\n       golf-explore --version\n";

/// The number of the release, which is that of the file VERSION.
pub(crate) const VERSION: &[u8; 19] = b"golf-explore 1.0.0\n";

/// The line of a file that sets finalisers.
pub(crate) const FINALISERS: &[u8; 34] = b"stopped: the file sets finalisers\n";

/// Returns the line that says how much memory this many states may take.
pub(crate) fn note_line(alloc: Global, most: u32) -> Result<List<u8>, Memory>
    ensures { IfOk result (λ line. line ≡ note_line_of most) }
{
    let megabytes = most / 200 + 1;
    let text = format!(in alloc; "at most {most} states, about {megabytes} MB of memory\n")?;
    list_of(alloc, text.as_bytes())
}

// The line that says whether some run panics.
fn panics_line(panics: bool) -> &'static str
    ensures { result.now ≡ panics_text panics }
{
    if panics {
        "panics under some schedule\n"
    } else {
        "never panics\n"
    }
}

// The line that says whether some run ends with all goroutines asleep.
fn sleeps_line(sleeps: bool) -> &'static str
    ensures { result.now ≡ sleeps_text sleeps }
{
    if sleeps {
        "all asleep under some schedule\n"
    } else {
        "never all asleep\n"
    }
}

// The line that says that each run ends, or nothing.
fn ends_line(ends: bool) -> &'static str
    ensures { result.now ≡ ends_text ends }
{
    if ends { "always ends\n" } else { "" }
}

/// Returns the lines of a code whose states were all visited, and none of which has a dead goroutine.
pub(crate) fn visited_text(alloc: Global, told: Visited) -> Result<List<u8>, Memory>
    ensures { IfOk result (λ text. text ≡ visited_text_of told) }
{
    let states = told.states;
    let line = format!(in alloc; "every schedule: {states} states, no leak\n")?;
    let mut text = list_of(alloc, line.as_bytes())?;
    text.extend_from_slice(panics_line(told.panics).as_bytes())?;
    text.extend_from_slice(sleeps_line(told.sleeps).as_bytes())?;
    text.extend_from_slice(ends_line(told.ends).as_bytes())?;
    Ok(text)
}

// How a run that was found is named.
fn name_of(aim: SearchFor) -> &'static str
    ensures { result.now ≡ told_name aim }
{
    match aim {
        SearchFor::Leak => "leak",
        SearchFor::Panic => "panic",
        SearchFor::Asleep => "asleep",
    }
}

// The words of a run with so many turns, up to its numbers.
fn words_before(alloc: Global, aim: SearchFor, turns: u64) -> Result<List<u8>, Memory>
    ensures { IfOk result (λ words. words ≡ words_before_of aim turns) }
{
    match aim {
        SearchFor::Leak => {
            let text = format!(in alloc; ": --every {turns} --schedule choices:")?;
            list_of(alloc, text.as_bytes())
        }
        SearchFor::Panic => list_of(alloc, b": --schedule choices:"),
        SearchFor::Asleep => list_of(alloc, b": --schedule choices:"),
    }
}

// What stands in place of the words: that there are more turns than words may have, or than a run may have.
fn many_turns(alloc: Global, turns: u64) -> Result<List<u8>, Memory>
    ensures { IfOk result (λ text. text ≡ many_turns_of turns) }
{
    if turns > u64::from(MOST_TURNS) {
        let text = format!(in alloc; ": after {turns} turns, more than a run may have\n")?;
        return list_of(alloc, text.as_bytes());
    }
    let text = format!(in alloc;
        ": after {turns} turns, more than a schedule of choices may have\n"
    )?;
    list_of(alloc, text.as_bytes())
}

/// Returns the line of a run that was found, with the turns of these numbers. It has the words for the run, unless there
/// are more numbers than words may have.
pub(crate) fn found_line(alloc: Global, aim: SearchFor, numbers: &[u64]) -> Result<List<u8>, Memory>
    ensures { IfOk result (λ line. line ≡ found_line_of aim numbers.now) }
{
    let mut line = list_of(alloc, name_of(aim).as_bytes())?;
    let turns = numbers.len() as u64;
    if numbers.len() > MOST_CHOICES as usize {
        let text = many_turns(alloc, turns)?;
        line.extend_from_slice(text.as_slice())?;
        return Ok(line);
    }
    let words = words_before(alloc, aim, turns)?;
    line.extend_from_slice(words.as_slice())?;
    add_numbers(alloc, &mut line, numbers)?;
    line.extend_from_slice(b"\n")?;
    Ok(line)
}

/// Returns the line of a search that found nothing.
pub(crate) fn nothing_line(alloc: Global, states: u64, preemptions: u32) -> Result<List<u8>, Memory>
    ensures { IfOk result (λ line. line ≡ nothing_line_of states preemptions) }
{
    let text = format!(in alloc;
        "nothing found: {states} states, at most {preemptions} preemptions\n"
    )?;
    list_of(alloc, text.as_bytes())
}

/// Returns the line of a search whose time is over.
pub(crate) fn out_of_time_line(alloc: Global, seconds: u32) -> Result<List<u8>, Memory>
    ensures { IfOk result (λ line. line ≡ out_of_time_line_of seconds) }
{
    let text = format!(in alloc; "stopped: after {seconds} seconds\n")?;
    list_of(alloc, text.as_bytes())
}

/// Returns the line of a code with more states than the caller allowed.
pub(crate) fn too_many_line(alloc: Global, most: u32) -> Result<List<u8>, Memory>
    ensures { IfOk result (λ line. line ≡ too_many_line_of most) }
{
    let text = format!(in alloc; "stopped: more than {most} states\n")?;
    list_of(alloc, text.as_bytes())
}
