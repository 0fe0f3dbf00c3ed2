//! The values of options.
//!
//! A number has one to twenty decimal digits. A schedule is `rotate`, `seed:N` or `choices:N,N,..`.

ghost use Rattle.std.specs.Prelude.{◌≡◌, ◌∷◌, [], option_map, IfOk};
ghost use Rattle.golf_command_words.specs.Values.{cut, digits_after as digits_after_of, GainsNumbers, number_of};
ghost use Rattle.golf_command_words.specs.Values.{number_within as number_within_of, numbers_of, schedule_of};

use golf_base::{List, Memory};
use golf_run_schedules::Schedule;
use std::alloc::Global;

/// The most numbers of written choices that `golf run` takes.
pub const MOST_CHOICES: u32 = 4_096;

// The number that digits write behind those of `number`, or `None`.
fn digits_after(number: u64, text: &[u8]) -> Option<u64>
    ensures { result ≡ digits_after_of number text.now }
{
    let Some((digit, rest)) = text.split_first() else {
        return Some(number);
    };
    if !digit.is_ascii_digit() {
        return None;
    }
    let tens = number.checked_mul(10)?;
    let next = tens.checked_add(u64::from(*digit - b'0'))?;
    digits_after(next, rest)
}

// The number that one to twenty decimal digits write, at most 2^64 - 1, or `None`.
fn number(text: &str) -> Option<u64>
    ensures { result ≡ number_of text.now }
{
    if text.is_empty() || text.len() > 20 {
        return None;
    }
    digits_after(0, text.as_bytes())
}

/// Returns the number from `least` to `most` that a text writes, or `None`.
pub fn number_within(least: u32, most: u32, text: &str) -> Option<u32>
    ensures { result ≡ number_within_of least most text.now }
{
    let number = number(text)?;
    if u64::from(least) <= number && number <= u64::from(most) {
        Some(number as u32)
    } else {
        None
    }
}

// The text before the first comma, and the text behind it.
fn at_comma(text: &str) -> Option<(&str, &str)>
    ensures { option_map (λ parts. (parts.0.now, parts.1.now)) result ≡ cut 44 text.now }
{
    text.split_once(',')
}

// The text before the first colon, and the text behind it.
fn at_colon(text: &str) -> Option<(&str, &str)>
    ensures { option_map (λ parts. (parts.0.now, parts.1.now)) result ≡ cut 58 text.now }
{
    text.split_once(':')
}

// Adds the number that a text writes. Returns whether the text writes one.
fn add_number(list: &mut List<u64>, text: &str) -> Result<bool, Memory>
    ensures { IfOk result (GainsNumbers (option_map (λ n. n ∷ []) (number_of text.now)) list.old list.new) }
{
    match number(text) {
        Some(number) => {
            list.push(number)?;
            Ok(true)
        }
        None => Ok(false),
    }
}

// Adds the numbers of a written list of at most `most` numbers. Returns whether the text is such a list.
fn add_numbers(list: &mut List<u64>, most: u32, text: &str) -> Result<bool, Memory>
    ensures { IfOk result (GainsNumbers (numbers_of most text.now) list.old list.new) }
{
    let mut left = text;
    let mut more = most;
    while more > 0 {
        let Some((first, rest)) = at_comma(left) else {
            return add_number(list, left);
        };
        if !add_number(list, first)? {
            return Ok(false);
        }
        left = rest;
        more -= 1;
    }
    Ok(false)
}

fn choices(alloc: Global, most: u32, text: &str) -> Result<Option<Schedule>, Memory>
    ensures { IfOk result (λ schedule. schedule ≡ option_map (λ ns. Schedule.Choices ns) (numbers_of most text.now)) }
{
    let mut list = List::new(alloc);
    if add_numbers(&mut list, most, text)? {
        Ok(Some(Schedule::Choices(list)))
    } else {
        Ok(None)
    }
}

/// Returns the schedule that a text writes: `rotate`, `seed:N` or `choices:N,N,..` with at most `most`
/// numbers. `None` if it writes none.
pub(crate) fn schedule(alloc: Global, most: u32, text: &str) -> Result<Option<Schedule>, Memory>
    ensures { IfOk result (λ schedule. schedule ≡ schedule_of most text.now) }
{
    match at_colon(text) {
        None if text == "rotate" => Ok(Some(Schedule::Rotate)),
        None => Ok(None),
        Some((kind, seed)) if kind == "seed" => Ok(number(seed).map(Schedule::Seed)),
        Some((kind, list)) if kind == "choices" => choices(alloc, most, list),
        Some(_) => Ok(None),
    }
}
