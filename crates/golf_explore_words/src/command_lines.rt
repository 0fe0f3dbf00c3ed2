//! From words to a request.

ghost use Rattle.std.specs.Prelude.{◌≡◌, IfOk, IfSome, OnErr, false, map, option_map, string_bytes};
ghost use Rattle.clap.specs.Words.{found_of, rows_of};
ghost use Rattle.golf_command_words.specs.Values.{number_within as number_within_of};
ghost use Rattle.golf_command_words.specs.Words.{setting};
ghost use Rattle.golf_explore_words.specs.declared.line.SearchFor.{SearchFor};
ghost use Rattle.golf_explore_words.specs.Words.{aim_of, all_by, default_preemptions, default_states, line_of};
ghost use Rattle.golf_explore_words.specs.Words.{asks_version as asks_version_of, request_of};
ghost use Rattle.golf_explore_words.specs.Words.{most_preemptions, most_states, search_by, seconds_or_none, trace_by};
ghost use Rattle.golf_explore_words.specs.Words.{IsRequestWithin, IsSearchWithin};

use crate::clap_commands::split;
use crate::line::{
    DEFAULT_PREEMPTIONS, DEFAULT_STATES, ExploreLine, MOST_PREEMPTIONS, MOST_SECONDS, MOST_STATES,
    MOST_TRACED, Question, Request, SearchFor, SearchOptions,
};
use clap::ArgMatches;
use golf_base::Memory;
use golf_command_words::{CommandLine, number_within, run_line, value};
use std::alloc::Global;

// The value of `--states`, or the default without it. `None` if the value is no such number.
fn states(value: Option<&str>) -> Option<u32>
    ensures { result ≡ setting (option_map (λ text. text.now) value.entry) default_states (number_within_of 1 most_states) }
{
    match value {
        Some(text) => number_within(1, MOST_STATES, text),
        None => Some(DEFAULT_STATES),
    }
}

// The line of a search.
fn all_line(matches: &ArgMatches<'_>) -> Option<ExploreLine>
    ensures { result ≡ all_by (rows_of (found_of matches.now)) }
{
    let most = states(value(matches, "states"))?;
    Some(ExploreLine::Ask(Question::All(most)))
}

// The value of `--for`, or a leak without it. `None` if the value is no such word.
fn aim(value: Option<&str>) -> Option<SearchFor>
    ensures { result ≡ setting (option_map (λ text. text.now) value.entry) SearchFor.Leak aim_of }
{
    match value {
        Some(text) if text == "leak" => Some(SearchFor::Leak),
        Some(text) if text == "panic" => Some(SearchFor::Panic),
        Some(text) if text == "asleep" => Some(SearchFor::Asleep),
        Some(_) => None,
        None => Some(SearchFor::Leak),
    }
}

// The value of `--preemptions`, or the default without it. `None` if the value is no such number.
fn preemptions(value: Option<&str>) -> Option<u32>
    ensures { result ≡ setting (option_map (λ text. text.now) value.entry) default_preemptions (number_within_of 0 most_preemptions) }
{
    match value {
        Some(text) => number_within(0, MOST_PREEMPTIONS, text),
        None => Some(DEFAULT_PREEMPTIONS),
    }
}

// The value of `--seconds`, or `Some(None)` without it. `None` if the value is no such number.
fn seconds(value: Option<&str>) -> Option<Option<u32>>
    ensures { result ≡ seconds_or_none (option_map (λ text. text.now) value.entry) }
{
    match value {
        Some(text) => match number_within(1, MOST_SECONDS, text) {
            Some(number) => Some(Some(number)),
            None => None,
        },
        None => Some(None),
    }
}

// The line of a search by preemptions.
fn search_line(matches: &ArgMatches<'_>) -> Option<ExploreLine>
    ensures { result ≡ search_by (rows_of (found_of matches.now)) }
{
    let aim = aim(value(matches, "for"))?;
    let preemptions = preemptions(value(matches, "preemptions"))?;
    let states = states(value(matches, "states"))?;
    let seconds = seconds(value(matches, "seconds"))?;
    Some(ExploreLine::Ask(Question::Search(SearchOptions {
        aim,
        preemptions,
        states,
        seconds,
    })))
}

// The line of a trace. `None` if the options ask for no run.
fn trace_line(alloc: Global, matches: &ArgMatches<'_>) -> Result<Option<ExploreLine>, Memory>
    ensures line { IfOk result (λ line. line ≡ trace_by (rows_of (found_of matches.now))) }
    ensures limits { IfOk result (λ line. IfSome line IsSearchWithin) }
{
    match run_line(alloc, MOST_TRACED, matches)? {
        Some(CommandLine::Run(options)) => Ok(Some(ExploreLine::Trace(options))),
        Some(CommandLine::Threads(threads)) => Ok(Some(ExploreLine::TraceThreads(threads))),
        Some(CommandLine::Generate(_) | CommandLine::Meaning) => Ok(None),
        None => Ok(None),
    }
}

// The command line that the words stand for, or `None` if they stand for none.
fn command_line(alloc: Global, words: &[String]) -> Result<Option<ExploreLine>, Memory>
    ensures line { IfOk result (λ line. line ≡ line_of (map string_bytes words.now)) }
    ensures limits { IfOk result (λ line. IfSome line IsSearchWithin) }
{
    let Some(matches) = split(alloc, words)? else {
        return Ok(None);
    };
    match matches.subcommand() {
        Some((name, options)) if name == "all" => Ok(all_line(options)),
        Some((name, options)) if name == "search" => Ok(search_line(options)),
        Some((name, options)) if name == "trace" => trace_line(alloc, options),
        _ => Ok(None),
    }
}

// Whether the only word is `--version`.
fn asks_version(words: &[String]) -> bool
    ensures { result ≡ asks_version_of (map string_bytes words.now) }
{
    match words {
        [word] => word.as_str() == "--version",
        _ => false,
    }
}

/// Returns the request of the words after the program's name, or `None` if they are none. The only error is
/// `Memory`, and `--version` has none.
pub fn parse(alloc: Global, words: &[String]) -> Result<Option<Request>, Memory>
    ensures request { IfOk result (λ request. request ≡ request_of (map string_bytes words.now)) }
    ensures limits { IfOk result (λ request. IfSome request IsRequestWithin) }
    ensures memory { OnErr result (asks_version_of (map string_bytes words.now) ≡ false) }
{
    if asks_version(words) {
        return Ok(Some(Request::Version));
    }
    match command_line(alloc, words)? {
        Some(line) => Ok(Some(Request::Serve(line))),
        None => Ok(None),
    }
}
