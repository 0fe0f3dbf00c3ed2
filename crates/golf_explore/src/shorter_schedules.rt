//! Makes a schedule shorter that reaches what is sought.

ghost use Rattle.std.specs.Prelude.{◌≡◌, true, IfOk};
ghost use Rattle.golf_data.specs.Places.{HasPlaces};
ghost use Rattle.golf_explore.specs.Sought.{Shows};

use crate::attempts::attempt;
use crate::sought::{Sought, is_found};
use golf_base::{List, Memory};
use golf_data::Code;
use std::alloc::Global;

/// The most turns of a schedule that is made shorter. The time is the square of the turns.
const LONGEST: usize = 4_096;

/// Returns whether the turns of these numbers reach what is sought, with at most so many preemptions.
pub(crate) fn shows(
    alloc: Global,
    code: &Code,
    sought: Sought,
    numbers: &[u64],
    most: u32,
) -> Result<bool, Memory>
    requires { HasPlaces code.now }
    ensures { IfOk result (λ found. found ≡ true → Shows code.now sought numbers.now) }
{
    if numbers.len() < 1 {
        return Ok(false);
    }
    let Some(reached) = attempt(alloc, code, numbers)? else {
        return Ok(false);
    };
    if reached.preemptions > most {
        return Ok(false);
    }
    is_found(alloc, sought, &reached.state)
}

// The numbers without the one at this place.
fn without(alloc: Global, numbers: &[u64], left_out: usize) -> Result<List<u64>, Memory> {
    let mut others = List::new(alloc);
    for at in 0..numbers.len() {
        if at != left_out {
            others.push(numbers[at])?;
        }
    }
    Ok(others)
}

// How many of the turns are preemptions.
fn preemptions_of(alloc: Global, code: &Code, numbers: &[u64]) -> Result<u32, Memory>
    requires { HasPlaces code.now }
{
    match attempt(alloc, code, numbers)? {
        Some(reached) => Ok(reached.preemptions),
        None => Ok(0),
    }
}

/// Returns a schedule that reaches what is sought with no more preemptions, and from which turns are left out, the last
/// ones first, as long as it does. One of more than 4,096 turns stays as it is.
pub(crate) fn shortened(
    alloc: Global,
    code: &Code,
    sought: Sought,
    numbers: List<u64>,
) -> Result<List<u64>, Memory>
    requires places { HasPlaces code.now }
    requires shows { Shows code.now sought numbers }
    ensures { IfOk result (Shows code.now sought) }
{
    if numbers.len() > LONGEST {
        return Ok(numbers);
    }
    let most = preemptions_of(alloc, code, numbers.as_slice())?;
    let mut best = numbers;
    let mut at = best.len();
    while at > 0 {
        at -= 1;
        let shorter = without(alloc, best.as_slice(), at)?;
        if shows(alloc, code, sought, shorter.as_slice(), most)? {
            best = shorter;
        }
    }
    Ok(best)
}
