//! Measures a marking.

ghost use Rattle.std.specs.Prelude.{◌≤◌};

use golf_base::OpenGate;
use golf_mark::{Markers, mark_alone};
use golf_model::Graph;
use golf_tests_support::BenchFault;
use std::alloc::Global;
use std::fmt::{Display, Formatter, Write};
use std::rt::Clock;
use std::thread::Threads;
use std::time::Instant;

/// The result of a measurement.
#[derive(Clone, Copy, Debug)]
pub(crate) struct Took {
    marked: usize,
    /// The nanoseconds in which all that the markers need is made. 0 for the marking in one thread.
    prepare: u128,
    /// The nanoseconds of the marking.
    mark: u128,
}

impl Display for Took {
    fn fmt<W: Write>(&self, f: &mut Formatter<W>) -> std::fmt::Result {
        let second = (self.marked as u128 * 1_000_000_000) / self.mark.max(1);
        write!(
            f,
            "{} marked, {} ns to prepare, {} ns to mark, {} places a second",
            self.marked, self.prepare, self.mark, second
        )
    }
}

/// Marks a graph by `markers` markers, or in one thread if the count is 0. Returns the times.
pub(crate) fn measure<R: Clock + Threads + Sync>(
    rt: &R,
    alloc: Global,
    graph: &Graph,
    markers: u32,
) -> Result<Took, BenchFault>
    requires { markers ≤ 16 }
{
    let start = Instant::now(rt)?;
    if markers == 0 {
        let marked = mark_alone(alloc, graph, &OpenGate)?;
        let mark = start.elapsed(rt)?.as_nanos();
        return Ok(Took {
            marked: marked.order.len(),
            prepare: 0,
            mark,
        });
    }
    let ready = Markers::new(alloc, graph, markers)?;
    let prepare = start.elapsed(rt)?.as_nanos();
    let begin = Instant::now(rt)?;
    let marked = ready.mark(rt, graph, &OpenGate);
    let mark = begin.elapsed(rt)?.as_nanos();
    Ok(Took {
        marked: marked.order.len(),
        prepare,
        mark,
    })
}

/// Returns how many nodes two markers mark.
pub(crate) fn count_marked<R: Threads + Sync>(
    rt: &R,
    alloc: Global,
    graph: &Graph,
) -> Result<usize, BenchFault> {
    let ready = Markers::new(alloc, graph, 2)?;
    Ok(ready.mark(rt, graph, &OpenGate).order.len())
}
