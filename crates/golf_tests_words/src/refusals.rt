//! Tests of rows of words that stand for no command line.

use crate::lines::line;
use golf_command_words::parse;
use std::alloc::Global;
use std::process::Abort;
use std::test::Fail;

// Whether a row stands for a command line.
fn is_line(alloc: Global, row: &str) -> Result<bool, Fail> {
    Ok(line(alloc, row)?.is_some())
}

// Whether a row of this front and this end stands for a command line.
fn is_accepted(alloc: Global, front: &str, end: &str) -> Result<bool, Fail> {
    let row = format!(in alloc; "{front}{end}")?;
    is_line(alloc, row.as_str())
}

// Fails the test unless each of these ends, after this front, is a row that stands for no command line.
fn refuses(rt: &impl Abort, alloc: Global, front: &str, ends: &[&str]) -> Result<(), Fail> {
    for end in ends {
        assert!(rt; !is_accepted(alloc, front, *end)?, "{front}{end}");
    }
    Ok(())
}

const UNKNOWN: [&str; 9] = [
    "",
    "ru",
    "RUN",
    "help",
    "--help",
    "-h",
    "--version",
    "--|run",
    "--recover|run",
];

#[test]
fn no_words_and_unknown_words_are_refused(rt: HostRuntime) -> Result<(), Fail> {
    assert!(rt; parse(rt.alloc(), &Vec::new(rt.alloc()))?.is_none());
    refuses(&rt, rt.alloc(), "", &UNKNOWN)
}

const AFTER_RUN: [&str; 13] = [
    "run|",
    "run|run",
    "run|5",
    "run|help",
    "run|--help",
    "run|-h",
    "run|-",
    "run|-r",
    "run|--rec",
    "run|--Recover",
    "run|--turn|2",
    "run|--=2",
    "run|--turns|2|3",
];

#[test]
fn a_run_line_has_no_other_words(rt: HostRuntime) -> Result<(), Fail> {
    refuses(&rt, rt.alloc(), "", &AFTER_RUN)
}

const HYPHENS: [&str; 4] = [
    "run|--|--",
    "run|--|--recover",
    "run|--turns|--",
    "run|--turns|--|5",
];

#[test]
fn two_hyphens_stand_once_and_last(rt: HostRuntime) -> Result<(), Fail> {
    refuses(&rt, rt.alloc(), "", &HYPHENS)
}

const TWICE: [&str; 4] = [
    "run|--recover|--recover",
    "run|--turns=2|--turns=2",
    "run|--turns|2|--recover|--turns|2",
    "run|--schedule=rotate|--schedule|rotate|--",
];

#[test]
fn an_option_stands_at_most_once(rt: HostRuntime) -> Result<(), Fail> {
    refuses(&rt, rt.alloc(), "", &TWICE)
}

const VALUES: [&str; 12] = [
    "run|--turns",
    "run|--turns=",
    "run|--turns|",
    "run|--turns|--recover",
    "run|--turns|-",
    "run|--why|--why",
    "run|--why=1",
    "run|--threads=2|--why",
    "generate|3|--why",
    "run|--recover=",
    "run|--recover=true",
    "run|--recover|true",
];

#[test]
fn an_option_has_a_value_where_it_takes_one(rt: HostRuntime) -> Result<(), Fail> {
    refuses(&rt, rt.alloc(), "", &VALUES)
}

const NUMBERS: [&str; 13] = [
    "0",
    "10000001",
    "+1",
    "-1",
    " 1",
    "1 ",
    "1.0",
    "0x1",
    "1e3",
    "1_000",
    "000000000000000000001",
    "18446744073709551616",
    "99999999999999999999",
];

#[test]
fn numbers_are_decimal_digits_within_their_range(rt: HostRuntime) -> Result<(), Fail> {
    refuses(&rt, rt.alloc(), "run|--turns|", &NUMBERS)?;
    refuses(&rt, rt.alloc(), "run|--every|", &NUMBERS)?;
    refuses(&rt, rt.alloc(), "run|--markers|", &NUMBERS)?;
    refuses(&rt, rt.alloc(), "generate|", &NUMBERS)?;
    refuses(&rt, rt.alloc(), "", &["run|--markers|17", "generate|5001"])
}

const SCHEDULES: [&str; 18] = [
    "",
    "rotate:",
    "Rotate",
    "rotate:0",
    "seed",
    "seed:",
    "seed:-1",
    "seed:1,2",
    "seed:1:2",
    "seed:18446744073709551616",
    "choices",
    "choices:",
    "choices:,",
    "choices:1,",
    "choices:,1",
    "choices:1,,2",
    "choices:1, 2",
    "other:1",
];

#[test]
fn schedules_are_rotate_seed_and_choices(rt: HostRuntime) -> Result<(), Fail> {
    refuses(&rt, rt.alloc(), "run|--schedule|", &SCHEDULES)
}

// A row with this number of choices and one more.
fn choices(alloc: Global, more: u32) -> Result<String, Fail> {
    let mut row = String::from_str(alloc, "run|--schedule|choices:0")?;
    for _ in 0..more {
        row.push_str(",0")?;
    }
    Ok(row)
}

// Whether a row with this number of choices and one more stands for a command line.
fn accepts_choices(alloc: Global, more: u32) -> Result<bool, Fail> {
    let row = choices(alloc, more)?;
    is_line(alloc, row.as_str())
}

#[test]
fn more_than_four_thousand_and_ninety_six_choices_are_refused(rt: HostRuntime) -> Result<(), Fail> {
    let most = accepts_choices(rt.alloc(), 4095)?;
    let more = accepts_choices(rt.alloc(), 4096)?;
    assert!(rt; most && !more);
    Ok(())
}

const GENERATE: [&str; 11] = [
    "generate",
    "generate|--",
    "generate|--|--",
    "generate|--|5|--",
    "generate|5|--|--",
    "generate|5|6",
    "generate|5|--|6",
    "generate|--recover|5",
    "generate|5|--recover",
    "generate|--number=5",
    "generate|--help",
];

#[test]
fn a_generate_line_has_one_number_and_at_most_one_pair_of_hyphens(
    rt: HostRuntime,
) -> Result<(), Fail> {
    refuses(&rt, rt.alloc(), "", &GENERATE)
}

const THREADS: [&str; 9] = [
    "run|--threads",
    "run|--threads=",
    "run|--threads|0",
    "run|--threads=17",
    "run|--threads|000000000000000000002",
    "run|--threads|two",
    "run|--threads|--|2",
    "run|--threads=2|--|--",
    "run|--threads=2|2",
];

#[test]
fn a_number_of_threads_is_1_to_16(rt: HostRuntime) -> Result<(), Fail> {
    refuses(&rt, rt.alloc(), "", &THREADS)
}

const BESIDE_THREADS: [&str; 12] = [
    "--threads=2|--threads=2",
    "--threads=2|--schedule=rotate",
    "--threads=2|--turns=1000000",
    "--threads=2|--every=3",
    "--threads=2|--markers=1",
    "--threads=2|--recover",
    "--threads=2|--threads|2|--",
    "--schedule=rotate|--threads|2|--",
    "--turns=1000000|--threads|2|--",
    "--every=3|--threads|2|--",
    "--markers=1|--threads|2|--",
    "--recover|--threads|2|--",
];

#[test]
fn threads_stand_once_and_with_no_other_option(rt: HostRuntime) -> Result<(), Fail> {
    refuses(&rt, rt.alloc(), "run|", &BESIDE_THREADS)
}

const AFTER_MEANING: [&str; 9] = [
    "meaning|x",
    "meaning|",
    "meaning|-x",
    "meaning|--help",
    "meaning|--|x",
    "meaning|--|--",
    "meaning|--threads|2",
    "Meaning",
    "--|meaning",
];

#[test]
fn a_meaning_line_has_no_other_words(rt: HostRuntime) -> Result<(), Fail> {
    refuses(&rt, rt.alloc(), "", &AFTER_MEANING)
}
