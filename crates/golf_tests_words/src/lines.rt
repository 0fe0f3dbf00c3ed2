//! Tests of rows of words that stand for a command line. There is one `|` between two words of a row.

use golf_command_words::{CommandLine, parse};
use golf_run_schedules::{RunOptions, Schedule};
use std::alloc::Global;
use std::process::Abort;
use std::test::Fail;

/// Returns the command line that a row stands for, or `None`.
pub(crate) fn line(alloc: Global, row: &str) -> Result<Option<CommandLine>, Fail> {
    let mut words = Vec::new(alloc);
    for word in row.split('|') {
        words.push(String::from_str(alloc, word)?)?;
    }
    Ok(parse(alloc, &words)?)
}

// The options of a row that stands for a run.
fn options(alloc: Global, row: &str) -> Result<RunOptions, Fail> {
    match line(alloc, row)? {
        Some(CommandLine::Run(options)) => Ok(options),
        _ => Err(Fail::new("no run line")),
    }
}

// A row, the turns of its run, the turns between its collections, its markers, and whether it recovers.
type Run<'a> = (&'a str, u32, Option<u32>, u32, bool);

// Whether a row stands for a run with its options, which rotates and gives no reasons.
fn is_run(alloc: Global, wanted: &Run<'_>) -> Result<bool, Fail> {
    let (row, turns, every, markers, recover) = *wanted;
    let got = options(alloc, row)?;
    let numbers = got.turns == turns && got.every == every && got.markers == markers;
    let plain = !got.why && matches!(&got.schedule, Schedule::Rotate);
    Ok(numbers && plain && got.recover == recover)
}

// Fails the test unless these rows stand for runs with their options.
fn are_runs(rt: &impl Abort, alloc: Global, rows: &[Run<'_>]) -> Result<(), Fail> {
    for row in rows {
        assert!(rt; is_run(alloc, row)?, "{}", row.0);
    }
    Ok(())
}

const ALONE: [Run<'static>; 2] = [
    ("run", 1_000_000, None, 1, false),
    ("run|--", 1_000_000, None, 1, false),
];

#[test]
fn run_alone_rotates_a_million_turns_with_one_marker(rt: HostRuntime) -> Result<(), Fail> {
    are_runs(&rt, rt.alloc(), &ALONE)
}

const OPTIONS: [Run<'static>; 9] = [
    ("run|--turns|7", 7, None, 1, false),
    ("run|--turns=7", 7, None, 1, false),
    ("run|--every|3", 1_000_000, Some(3), 1, false),
    ("run|--every=3", 1_000_000, Some(3), 1, false),
    ("run|--markers|16", 1_000_000, None, 16, false),
    ("run|--markers=16", 1_000_000, None, 16, false),
    ("run|--schedule|rotate", 1_000_000, None, 1, false),
    ("run|--schedule=rotate", 1_000_000, None, 1, false),
    ("run|--recover", 1_000_000, None, 1, true),
];

#[test]
fn each_option_takes_its_value_from_the_next_word_or_after_an_equals_sign(
    rt: HostRuntime,
) -> Result<(), Fail> {
    are_runs(&rt, rt.alloc(), &OPTIONS)
}

const WITH_WHY: [&str; 3] = [
    "run|--why|--turns|7|--recover",
    "run|--turns=7|--why|--recover",
    "run|--turns|7|--recover|--why|--",
];

// Whether a row stands for a run of seven turns with recovery and with reasons.
fn gives_reasons(alloc: Global, row: &str) -> Result<bool, Fail> {
    let got = options(alloc, row)?;
    Ok(got.why && got.recover && got.turns == 7)
}

#[test]
fn why_stands_anywhere_among_the_options(rt: HostRuntime) -> Result<(), Fail> {
    for row in WITH_WHY.iter() {
        assert!(rt; gives_reasons(rt.alloc(), *row)?, "{row}");
    }
    Ok(())
}

const ORDERS: [Run<'static>; 2] = [
    (
        "run|--recover|--turns|5|--markers=2|--every|4|--",
        5,
        Some(4),
        2,
        true,
    ),
    (
        "run|--every=4|--markers|2|--turns=5|--recover",
        5,
        Some(4),
        2,
        true,
    ),
];

#[test]
fn options_stand_in_any_order(rt: HostRuntime) -> Result<(), Fail> {
    are_runs(&rt, rt.alloc(), &ORDERS)
}

const RANGES: [Run<'static>; 4] = [
    ("run|--turns|1", 1, None, 1, false),
    ("run|--turns|10000000", 10_000_000, None, 1, false),
    (
        "run|--every|10000000",
        1_000_000,
        Some(10_000_000),
        1,
        false,
    ),
    (
        "run|--markers|00000000000000000016",
        1_000_000,
        None,
        16,
        false,
    ),
];

#[test]
fn numbers_go_to_the_ends_of_their_ranges(rt: HostRuntime) -> Result<(), Fail> {
    are_runs(&rt, rt.alloc(), &RANGES)
}

// The seed of a run, and its markers, or `None` without a seed.
fn seed(alloc: Global, row: &str) -> Result<Option<(u64, u32)>, Fail> {
    let got = options(alloc, row)?;
    match &got.schedule {
        Schedule::Seed(seed) => Ok(Some((*seed, got.markers))),
        _ => Ok(None),
    }
}

#[test]
fn a_seed_may_be_any_number_of_sixty_four_bits(rt: HostRuntime) -> Result<(), Fail> {
    let most = seed(rt.alloc(), "run|--schedule=seed:18446744073709551615")?;
    let zero = seed(rt.alloc(), "run|--schedule=seed:0|--markers=002|--")?;
    assert!(rt; most == Some((u64::MAX, 1)) && zero == Some((0, 2)));
    Ok(())
}

// Whether a row stands for a run by these choices.
fn has_choices(alloc: Global, row: &str, wanted: &[u64]) -> Result<bool, Fail> {
    let got = options(alloc, row)?;
    match &got.schedule {
        Schedule::Choices(list) => Ok(list.as_slice() == wanted),
        _ => Ok(false),
    }
}

#[test]
fn choices_are_the_numbers_as_written(rt: HostRuntime) -> Result<(), Fail> {
    let row = "run|--schedule|choices:0,007,18446744073709551615";
    assert!(rt; has_choices(rt.alloc(), row, &[0, 7, u64::MAX])?);
    Ok(())
}

/// A command line without options.
#[derive(Clone, Copy, PartialEq, Eq)]
enum Kind {
    Generate(u32),
    Threads(u32),
    Meaning,
}

// The command line without options that a row stands for, or `None`.
fn kind_of(alloc: Global, row: &str) -> Result<Option<Kind>, Fail> {
    match line(alloc, row)? {
        Some(CommandLine::Generate(number)) => Ok(Some(Kind::Generate(number))),
        Some(CommandLine::Threads(number)) => Ok(Some(Kind::Threads(number))),
        Some(CommandLine::Meaning) => Ok(Some(Kind::Meaning)),
        _ => Ok(None),
    }
}

// Fails the test unless these rows stand for these command lines.
fn are(rt: &impl Abort, alloc: Global, rows: &[(&str, Kind)]) -> Result<(), Fail> {
    for (row, wanted) in rows {
        assert!(rt; kind_of(alloc, *row)? == Some(*wanted), "{row}");
    }
    Ok(())
}

const NUMBERED: [(&str, Kind); 4] = [
    ("generate|1", Kind::Generate(1)),
    ("generate|05000", Kind::Generate(5000)),
    ("generate|--|5", Kind::Generate(5)),
    ("generate|5|--", Kind::Generate(5)),
];

#[test]
fn generate_has_one_number(rt: HostRuntime) -> Result<(), Fail> {
    are(&rt, rt.alloc(), &NUMBERED)
}

const THREADED: [(&str, Kind); 4] = [
    ("run|--threads|1", Kind::Threads(1)),
    ("run|--threads=16", Kind::Threads(16)),
    ("run|--threads=002|--", Kind::Threads(2)),
    ("run|--threads|00000000000000000003|--", Kind::Threads(3)),
];

#[test]
fn threads_are_so_many_with_the_number_in_the_next_word_or_after_an_equals_sign(
    rt: HostRuntime,
) -> Result<(), Fail> {
    are(&rt, rt.alloc(), &THREADED)
}

const MEANING: [(&str, Kind); 2] = [("meaning", Kind::Meaning), ("meaning|--", Kind::Meaning)];

#[test]
fn a_meaning_line_is_its_name_alone_or_with_two_hyphens(rt: HostRuntime) -> Result<(), Fail> {
    are(&rt, rt.alloc(), &MEANING)
}
