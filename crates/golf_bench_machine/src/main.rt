//! Measures turns and collections. It understands these words:
//!
//! - `CODE BLOCKED TURNS` takes that many turns of that code (`loop`, `channel` or `mutex`). That many
//!   goroutines are blocked on their own channels meanwhile.
//! - `PAIRS MARKERS` leads a code to a state with that many pairs of goroutines. Each goroutine is blocked
//!   on its own channel, and one of each pair is live. It measures the parts of a collection of that state,
//!   without recovery and with it.
//! - Without a word it takes a few turns of each code and collects a small state, and prints the counts.
//!
//! The times are in microseconds.
#![tactic(auto)]

mod codes;
mod collections;
mod order;
mod pairs;
mod turns;

ghost use Rattle.std.specs.Prelude.{◌<◌, ◌≤◌};

use codes::Kind;
use collections::{time_parts, time_whole};
use golf_reclaim::CollectOptions;
use golf_tests_support::BenchFault;
use order::{Order, read_order};
use pairs::blocked_state;
use std::alloc::Global;
use std::env;
use std::rt::Clock;
use std::thread::Threads;
use turns::{count_goroutines, time_turns};

/// How many turns a small run has.
const SMALL: u64 = 1000;

fn tell_small<R: Clock + Print + Threads + Sync>(rt: &R, alloc: Global) -> Result<(), BenchFault> {
    for kind in [Kind::Loop, Kind::Channel, Kind::Mutex] {
        let count = count_goroutines(alloc, kind, SMALL)?;
        println!(rt; "{kind:?}: {count} goroutines")?;
    }
    let options = CollectOptions {
        markers: 2,
        recover: true,
        sets_finalisers: false,
    };
    let (report, _) = time_whole(rt, alloc, 100, options)?;
    let (marked, reclaimed, objects) = (report.marked, report.reclaimed, report.objects);
    println!(rt; "marked {marked}, reclaimed {reclaimed}, objects {objects}")?;
    Ok(())
}

fn tell_collections<R: Clock + Print + Threads + Sync>(
    rt: &R,
    alloc: Global,
    pairs: u32,
    options: CollectOptions,
) -> Result<(), BenchFault>
    requires some { 0 < options.markers }
    requires few { options.markers ≤ 16 }
{
    let mut state = blocked_state(alloc, pairs)?;
    let parts = time_parts(rt, alloc, &mut state, options)?;
    let (_, whole) = time_whole(rt, alloc, pairs, options)?;
    println!(rt; "{options:?}: {parts:?}, a whole one {whole}")?;
    Ok(())
}

fn tell_both<R: Clock + Print + Threads + Sync>(
    rt: &R,
    alloc: Global,
    pairs: u32,
    markers: u32,
) -> Result<(), BenchFault> {
    if markers == 0 || markers > 16 {
        return Ok(());
    }
    for recover in [false, true] {
        let options = CollectOptions {
            markers,
            recover,
            sets_finalisers: false,
        };
        tell_collections(rt, alloc, pairs, options)?;
    }
    Ok(())
}

fn main(rt: HostRuntime) -> Result<(), BenchFault> {
    let words = env::args(&rt)?.skip(1).collect::<Vec<String>>(rt.alloc())?;
    match read_order(words.as_slice()) {
        Some(Order::Small) => tell_small(&rt, rt.alloc()),
        Some(
            Order::Turns {
                kind,
                blocked,
                turns,
            },
        ) => {
            let took = time_turns(&rt, rt.alloc(), kind, blocked, turns)?;
            println!(rt; "{kind:?}, {blocked} blocked elsewhere: {turns} turns in {took} us")?;
            Ok(())
        }
        Some(Order::Collections { pairs, markers }) => tell_both(&rt, rt.alloc(), pairs, markers),
        None => {
            eprintln!(rt; "usage: golf_bench_machine [CODE BLOCKED TURNS | PAIRS MARKERS]")?;
            Ok(())
        }
    }
}
