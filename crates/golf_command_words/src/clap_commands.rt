//! Splits the words with `clap`.
//!
//! `specs/ClapCommands.antt` describes the same commands.

ghost use Rattle.std.specs.Prelude.{◌≡◌, IfOk, false, true, map, option_and_then, string_bytes};
ghost use Rattle.clap.specs.declared.builder.Command.TheViews.{out-Command};
ghost use Rattle.clap.specs.Walk.{rule_of};
ghost use Rattle.clap.specs.Simple.{app_of, subcommand_rows_of, with_rule};
ghost use Rattle.clap.specs.Faults.{is_simple_and_free};
ghost use Rattle.golf_command_words.specs.ClapCommands.{flag as flag_of, generate_app, golf_app, matched, meaning_app};
ghost use Rattle.golf_command_words.specs.ClapCommands.{nameless_app, positional as positional_of, program_app};
ghost use Rattle.golf_command_words.specs.ClapCommands.{run_app};
ghost use Rattle.golf_command_words.specs.ClapCommands.{split_of, valued, with_run_options};

use clap::error::ErrorKind;
use clap::{Arg, ArgAction, ArgMatches, Command};
use golf_base::Memory;
use std::alloc::{AllocError, Global};

/// Returns an option with a value, which a word names by its long name.
pub fn option<'a>(alloc: Global, name: &'a str) -> Arg<'a>
    ensures rule { rule_of result ≡ valued name.now }
    ensures local { result.global ≡ false }
{
    Arg::new(alloc, name).long(name).action(ArgAction::Set)
}

// An option without a value.
fn flag<'a>(alloc: Global, name: &'a str) -> Arg<'a>
    ensures rule { rule_of result ≡ flag_of name.now }
    ensures local { result.global ≡ false }
{
    Arg::new(alloc, name).long(name).action(ArgAction::SetTrue)
}

fn positional<'a>(alloc: Global, name: &'a str) -> Arg<'a>
    ensures rule { rule_of result ≡ positional_of name.now }
    ensures local { result.global ≡ false }
{
    Arg::new(alloc, name).action(ArgAction::Set)
}

/// Returns the command with one more argument, after those that it has.
pub fn with<'a>(command: Command<'a>, arg: Arg<'a>) -> Result<Command<'a>, AllocError>
    requires { arg.global ≡ false }
    ensures rule { IfOk result (λ more. app_of more ≡ with_rule (app_of command.entry) (rule_of arg.entry)) }
    ensures local { IfOk result (λ more. (out-Command more).has_globals ≡ (out-Command command.entry).has_globals) }
{
    command.arg(arg)
}

/// Returns the command with the options of a run.
pub fn with_run_options<'a>(alloc: Global, bare: Command<'a>) -> Result<Command<'a>, AllocError>
    ensures app { IfOk result (λ command. app_of command ≡ with_run_options (app_of bare.entry)) }
    ensures local { IfOk result (λ command. (out-Command command).has_globals ≡ (out-Command bare.entry).has_globals) }
{
    let one = with(bare, option(alloc, "schedule"))?;
    let two = with(one, option(alloc, "turns"))?;
    let three = with(two, option(alloc, "every"))?;
    let four = with(three, option(alloc, "markers"))?;
    let five = with(four, option(alloc, "threads"))?;
    let six = with(five, flag(alloc, "recover"))?;
    let seven = with(six, flag(alloc, "why"))?;
    Ok(seven)
}

// The subcommand `run`, with its options.
fn run_command<'a>(alloc: Global) -> Result<Command<'a>, AllocError>
    ensures app { IfOk result (λ command. app_of command ≡ run_app) }
    ensures local { IfOk result (λ command. (out-Command command).has_globals ≡ false) }
{
    with_run_options(alloc, Command::new(alloc, "run"))
}

// The subcommand `generate`, with its number.
fn generate_command<'a>(alloc: Global) -> Result<Command<'a>, AllocError>
    ensures app { IfOk result (λ command. app_of command ≡ generate_app) }
    ensures local { IfOk result (λ command. (out-Command command).has_globals ≡ false) }
{
    let bare = Command::new(alloc, "generate");
    let one = with(bare, positional(alloc, "number"))?;
    Ok(one)
}

// The subcommand `meaning`, which has no argument.
fn meaning_command<'a>(alloc: Global) -> Command<'a>
    ensures app { app_of result ≡ meaning_app }
    ensures local { (out-Command result).has_globals ≡ false }
{
    Command::new(alloc, "meaning")
}

// The program without its subcommands. Its words come without its name, and none asks for help.
fn nameless<'a>(alloc: Global) -> Command<'a>
    ensures app { app_of result ≡ nameless_app }
    ensures local { (out-Command result).has_globals ≡ false }
{
    Command::new(alloc, "golf")
        .no_binary_name(true)
        .disable_help_flag(true)
}

/// Returns a program without subcommands. Its words come without its name, and no word asks for help or for
/// the version.
pub fn program<'a>(alloc: Global) -> Command<'a>
    ensures app { app_of result ≡ program_app }
    ensures local { (out-Command result).has_globals ≡ false }
{
    nameless(alloc)
        .disable_help_subcommand(true)
        .disable_version_flag(true)
}

// The whole program, with its subcommands.
fn whole<'a>(alloc: Global) -> Result<Command<'a>, AllocError>
    ensures { IfOk result (λ command. app_of command ≡ golf_app) }
{
    let bare = program(alloc);
    let run = run_command(alloc)?;
    let one = bare.subcommand(run)?;
    let generate = generate_command(alloc)?;
    let two = one.subcommand(generate)?;
    let three = two.subcommand(meaning_command(alloc))?;
    Ok(three)
}

/// Returns the matches that `clap` finds in the words for this command, or `None` if it refuses them. The only
/// error is `Memory`.
pub fn match_words<'a>(
    command: Command<'a>,
    words: &'a [String],
) -> Result<Option<ArgMatches<'a>>, Memory>
    requires { is_simple_and_free (app_of command) ≡ true }
    ensures { IfOk result (λ found. option_and_then subcommand_rows_of found ≡ matched (app_of command.entry) (map string_bytes words.now)) }
{
    match command.try_get_matches_from(words) {
        Ok(matches) => Ok(Some(matches)),
        Err(error) if error.kind() == ErrorKind::OutOfMemory => Err(Memory),
        Err(_) => Ok(None),
    }
}

/// Returns the matches that `clap` finds in the words, or `None` if it refuses them.
pub(crate) fn split<'a>(
    alloc: Global,
    words: &'a [String],
) -> Result<Option<ArgMatches<'a>>, Memory>
    ensures { IfOk result (λ found. option_and_then subcommand_rows_of found ≡ split_of (map string_bytes words.now)) }
{
    let command = whole(alloc)?;
    match_words(command, words)
}
