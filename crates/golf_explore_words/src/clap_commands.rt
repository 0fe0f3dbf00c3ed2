//! Splits the words with `clap`.
//!
//! `specs/Words.antt` describes the same commands.

ghost use Rattle.std.specs.Prelude.{◌≡◌, IfOk, false, map, option_and_then, string_bytes};
ghost use Rattle.clap.specs.declared.builder.Command.TheViews.{out-Command};
ghost use Rattle.clap.specs.Simple.{app_of, subcommand_rows_of};
ghost use Rattle.golf_explore_words.specs.Words.{all_app, explorer_app, search_app, split_of, trace_app};

use clap::{ArgMatches, Command};
use golf_base::Memory;
use golf_command_words::{match_words, option, program, with, with_run_options};
use std::alloc::{AllocError, Global};

// The subcommand `all`, with its option.
fn all_command<'a>(alloc: Global) -> Result<Command<'a>, AllocError>
    ensures app { IfOk result (λ command. app_of command ≡ all_app) }
    ensures local { IfOk result (λ command. (out-Command command).has_globals ≡ false) }
{
    with(Command::new(alloc, "all"), option(alloc, "states"))
}

// The subcommand `search`, with its options.
fn search_command<'a>(alloc: Global) -> Result<Command<'a>, AllocError>
    ensures app { IfOk result (λ command. app_of command ≡ search_app) }
    ensures local { IfOk result (λ command. (out-Command command).has_globals ≡ false) }
{
    let bare = Command::new(alloc, "search");
    let one = with(bare, option(alloc, "preemptions"))?;
    let two = with(one, option(alloc, "states"))?;
    let three = with(two, option(alloc, "seconds"))?;
    let four = with(three, option(alloc, "for"))?;
    Ok(four)
}

// The subcommand `trace`, with the options of a run.
fn trace_command<'a>(alloc: Global) -> Result<Command<'a>, AllocError>
    ensures app { IfOk result (λ command. app_of command ≡ trace_app) }
    ensures local { IfOk result (λ command. (out-Command command).has_globals ≡ false) }
{
    with_run_options(alloc, Command::new(alloc, "trace"))
}

// The whole program, with its subcommands.
fn whole<'a>(alloc: Global) -> Result<Command<'a>, AllocError>
    ensures { IfOk result (λ command. app_of command ≡ explorer_app) }
{
    let bare = program(alloc);
    let all = all_command(alloc)?;
    let one = bare.subcommand(all)?;
    let search = search_command(alloc)?;
    let two = one.subcommand(search)?;
    let trace = trace_command(alloc)?;
    let three = two.subcommand(trace)?;
    Ok(three)
}

/// Returns the matches that `clap` finds in the words, or `None` if it refuses them.
pub(crate) fn split<'a>(
    alloc: Global,
    words: &'a [String],
) -> Result<Option<ArgMatches<'a>>, Memory>
    ensures { IfOk result (λ found. option_and_then subcommand_rows_of found ≡ split_of (map string_bytes words.now)) }
{
    let command = whole(alloc)?;
    match_words(command, words)
}
