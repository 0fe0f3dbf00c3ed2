//! From words to a command line.
//!
//! If a value is outside its limits, the words stand for no command line.

ghost use Rattle.std.specs.Prelude.{◌≡◌, IfOk, IfSome, map, option_map, string_bytes};
ghost use Rattle.clap.specs.Words.{found_of, rows_of};
ghost use Rattle.clap.specs.Walk.{first_of};
ghost use Rattle.golf_command_words.specs.Values.{number_within as number_within_of, schedule_of};
ghost use Rattle.golf_command_words.specs.Words.{any_used, every_or_none, line_of, run_by_values, setting, threads_by};
ghost use Rattle.golf_command_words.specs.Words.{IsWithin};
ghost use Rattle.golf_command_words.specs.ClapCommands.{by_rows, generate_by, is_true as is_true_of, line_by, run_by};
ghost use Rattle.golf_command_words.specs.ClapCommands.{split_of};

use crate::clap_commands::split;
use crate::line::CommandLine;
use crate::values::{MOST_CHOICES, number_within, schedule};
use clap::ArgMatches;
use golf_base::Memory;
use golf_command_sample::MOST_PARTS;
use golf_run_schedules::{MOST_TURNS, RunOptions, Schedule};
use std::alloc::Global;

/// How many turns a run has without `--turns`.
pub const DEFAULT_TURNS: u32 = 1_000_000;

/// Returns the value that was found for an argument, or `None`.
pub fn value<'a>(matches: &ArgMatches<'a>, name: &str) -> Option<&'a str>
    ensures { option_map (λ text. text.now) result ≡ first_of name.now (rows_of (found_of matches.now)) }
{
    matches.get_str(name)
}

fn is_true(value: Option<&str>) -> bool
    ensures { result ≡ is_true_of (option_map (λ text. text.now) value.entry) }
{
    match value {
        Some(text) => text == "true",
        None => false,
    }
}

// The value of an option that is a number from 1 to `most`, or `default` without the option. `None` if the
// value is no such number.
fn number_or(value: Option<&str>, default: u32, most: u32) -> Option<u32>
    ensures { result ≡ setting (option_map (λ text. text.now) value.entry) default (number_within_of 1 most) }
{
    match value {
        Some(text) => number_within(1, most, text),
        None => Some(default),
    }
}

// The value of `--every`, or `Some(None)` without the option. `None` if the value is no such number.
fn every_of(value: Option<&str>) -> Option<Option<u32>>
    ensures { result ≡ every_or_none (option_map (λ text. text.now) value.entry) }
{
    match value {
        Some(text) => match number_within(1, MOST_TURNS, text) {
            Some(number) => Some(Some(number)),
            None => None,
        },
        None => Some(None),
    }
}

// The value of `--schedule`, with at most `most` written choices, or the rotation without the option.
fn schedule_or_rotation(
    alloc: Global,
    most: u32,
    value: Option<&str>,
) -> Result<Option<Schedule>, Memory>
    ensures { IfOk result (λ schedule. schedule ≡ setting (option_map (λ text. text.now) value.entry) Schedule.Rotate (schedule_of most)) }
{
    match value {
        Some(text) => schedule(alloc, most, text),
        None => Ok(Some(Schedule::Rotate)),
    }
}

// A run by its options.
fn options_line(
    alloc: Global,
    most: u32,
    matches: &ArgMatches<'_>,
) -> Result<Option<CommandLine>, Memory>
    ensures { IfOk result (λ line. line ≡ by_rows (run_by_values most) (rows_of (found_of matches.now))) }
{
    let Some(turns) = number_or(value(matches, "turns"), DEFAULT_TURNS, MOST_TURNS) else {
        return Ok(None);
    };
    let Some(every) = every_of(value(matches, "every")) else {
        return Ok(None);
    };
    let Some(markers) = number_or(value(matches, "markers"), 1, 16) else {
        return Ok(None);
    };
    let Some(schedule) = schedule_or_rotation(alloc, most, value(matches, "schedule"))? else {
        return Ok(None);
    };
    let recover = is_true(value(matches, "recover"));
    let why = is_true(value(matches, "why"));
    Ok(Some(CommandLine::Run(RunOptions {
        schedule,
        turns,
        every,
        markers,
        recover,
        why,
    })))
}

// Whether an option other than `--threads` was given.
fn has_others(matches: &ArgMatches<'_>) -> bool
    ensures { result ≡ by_rows any_used (rows_of (found_of matches.now)) }
{
    value(matches, "schedule").is_some()
        || value(matches, "turns").is_some()
        || value(matches, "every").is_some()
        || value(matches, "markers").is_some()
        || is_true(value(matches, "recover"))
        || is_true(value(matches, "why"))
}

// A run by threads, if no other option was given.
fn threads_line(matches: &ArgMatches<'_>, text: &str) -> Option<CommandLine>
    ensures { result ≡ threads_by (by_rows any_used (rows_of (found_of matches.now))) text.now }
{
    if has_others(matches) {
        return None;
    }
    let threads = number_within(1, 16, text)?;
    Some(CommandLine::Threads(threads))
}

/// Returns the run that the options of a command ask for, by threads or by its options, or `None` if a value
/// is outside its limits. `most` is the most numbers of written choices. The only error is `Memory`.
pub fn run_line(
    alloc: Global,
    most: u32,
    matches: &ArgMatches<'_>,
) -> Result<Option<CommandLine>, Memory>
    ensures line { IfOk result (λ line. line ≡ run_by most (rows_of (found_of matches.now))) }
    ensures limits { IfOk result (λ line. IfSome line IsWithin) }
{
    match value(matches, "threads") {
        Some(text) => Ok(threads_line(matches, text)),
        None => options_line(alloc, most, matches),
    }
}

fn generate_line(matches: &ArgMatches<'_>) -> Option<CommandLine>
    ensures { result ≡ generate_by (rows_of (found_of matches.now)) }
{
    let text = value(matches, "number")?;
    let number = number_within(1, MOST_PARTS, text)?;
    Some(CommandLine::Generate(number))
}

// The command line, by the matches that `clap` finds in the words.
fn line_as_split(alloc: Global, words: &[String]) -> Result<Option<CommandLine>, Memory>
    ensures { IfOk result (λ line. line ≡ line_by (split_of (map string_bytes words.now))) }
{
    let Some(matches) = split(alloc, words)? else {
        return Ok(None);
    };
    match matches.subcommand() {
        Some((name, options)) if name == "run" => run_line(alloc, MOST_CHOICES, options),
        Some((name, number)) if name == "generate" => Ok(generate_line(number)),
        Some((name, _)) if name == "meaning" => Ok(Some(CommandLine::Meaning)),
        _ => Ok(None),
    }
}

/// Returns the command line that the words after the program's name stand for, or `None` if they stand for
/// none. The only error is `Memory`.
pub fn parse(alloc: Global, words: &[String]) -> Result<Option<CommandLine>, Memory>
    ensures line { IfOk result (λ line. line ≡ line_of (map string_bytes words.now)) }
    ensures limits { IfOk result (λ line. IfSome line IsWithin) }
{
    line_as_split(alloc, words)
}
