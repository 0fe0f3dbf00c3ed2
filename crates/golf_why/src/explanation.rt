//! An explanation of a collection: a certificate that was verified, and the reason for which each waiting
//! goroutine is live.

ghost use Rattle.std.specs.Prelude.{◌≡◌, ◌<◌, IfOk, length, slice_get, None, unwrap_or};
ghost use Rattle.golf_theory.specs.Maps.{find};
ghost use Rattle.golf_model.specs.Graph.{sleeper_count};
ghost use Rattle.golf_model.specs.Presence.{IsWhole};
ghost use Rattle.golf_model.specs.Reports.{entry_of};
ghost use Rattle.golf_cert.specs.ComputedLevels.{least_in_order};
ghost use Rattle.golf_mark.specs.MarkingResult.{MarksLeast};
ghost use Rattle.golf_why.specs.Explanations.{sleeper_entries_in, listed, reached_at, Explains, IsExplanation};

use crate::members::{Member, before_last};
use golf_base::{GoroutineId, List, Memory, OpenGate};
use golf_cert::{Reasons, Verdict, certify, verify};
use golf_data::{Entry, Mode, WaitKind};
use golf_mark::mark_alone;
use golf_model::{Graph, Marked};
use golf_snapshot::live_graph;
use golf_state::State;
use std::alloc::Global;

/// A goroutine that waits and is live.
#[derive(Debug, Drop)]
pub struct Reached {
    pub goroutine: GoroutineId,
    /// How it is blocked.
    pub wait: WaitKind,
    /// The line of the operation at which it is blocked.
    pub line: u32,
    /// The shortest way from a root of the collection to the goroutine. Each member refers to the next one,
    /// or wakes it, and the last one wakes the goroutine. If several members are equally near to the roots,
    /// the one with the smallest number is taken, objects before goroutines.
    pub by: List<Member>,
}

/// The explanation of one collection. It stays the same while the collection changes the state. It takes
/// about 100 bytes for each object and each blocked goroutine.
#[derive(Drop)]
pub struct Explanation {
    graph: Graph,
    sleeper_entries: List<Option<Entry>>,
    reasons: Reasons,
    places: u32,
}

// How many places the certificate of a marking has. The certificate is verified.
fn certified(alloc: Global, graph: &Graph, marked: &Marked) -> Result<u32, Memory>
    requires { MarksLeast graph.now marked.now }
    ensures { IfOk result (λ places. places ≡ length (least_in_order graph.now)) }
{
    let certificate = certify(alloc, graph, marked)?;
    match verify(alloc, graph, &certificate)? {
        Verdict::Proved => Ok(certificate.links.len() as u32),
        Verdict::Refused(_) => unreachable!(),
    }
}

// The entry of a report on a goroutine, or `None` if the goroutine is not blocked.
fn entry(state: &State, g: GoroutineId) -> Option<Entry>
    ensures { result ≡ slice_get (entry_of g.0 (find g.0 state.now.goroutines)) 0 }
{
    let goroutine = state.goroutine(g)?;
    match goroutine.mode {
        Mode::Running => None,
        Mode::Blocked { kind, line, .. } => Some(Entry {
            goroutine: g,
            wait: kind,
            line,
            started: goroutine.started,
        }),
    }
}

// For each sleeper of a graph how it is blocked.
fn sleeper_entries(
    alloc: Global,
    state: &State,
    graph: &Graph,
) -> Result<List<Option<Entry>>, Memory>
    ensures { IfOk result (λ entries. entries ≡ sleeper_entries_in state.now graph.now) }
{
    let mut entries = List::new(alloc);
    for sleeper in 0..graph.sleepers() {
        entries.push(entry(state, graph.goroutine_of(sleeper)))?;
    }
    Ok(entries)
}

impl Explanation {
    /// Explains a collection of a state. It makes and marks the live graph, certifies the marking, verifies
    /// the certificate, and finds the reasons of all sleepers. The time is linear in the graph, except for
    /// a binary search for each sleeper.
    ///
    /// The only error is `Memory`, also if objects and blocked goroutines together are too many for a
    /// `u32`.
    pub fn new(alloc: Global, state: &State) -> Result<Explanation, Memory>
        requires { IsWhole state.now }
        ensures explains { IfOk result (Explains state.now) }
        ensures ready { IfOk result IsExplanation }
    {
        let graph = live_graph(alloc, state)?;
        let marked = mark_alone(alloc, &graph, &OpenGate)?;
        let places = certified(alloc, &graph, &marked)?;
        let sleeper_entries = sleeper_entries(alloc, state, &graph)?;
        let reasons = Reasons::new(alloc, &graph)?;
        Ok(Explanation {
            graph,
            sleeper_entries,
            reasons,
            places,
        })
    }

    /// Returns how many places the certificate has: the live objects, and the blocked goroutines other than
    /// goroutine 0 that are live.
    pub fn places(&self) -> u32
        ensures { result ≡ self.now.places }
    {
        self.places
    }

    /// Returns how many goroutines other than goroutine 0 are blocked. They are numbered from 0, in rising
    /// order of goroutine.
    pub fn sleepers(&self) -> u32
        ensures { result ≡ sleeper_count self.now.graph }
    {
        self.graph.sleepers()
    }

    /// Returns the way to this blocked goroutine, or `None` if it is dead. The time is linear in the length
    /// of the way. The only error is `Memory`.
    pub fn reached(&self, alloc: Global, sleeper: u32) -> Result<Option<Reached>, Memory>
        requires ready { IsExplanation self.now }
        requires sleeper { sleeper < sleeper_count self.now.graph }
        ensures { IfOk result (λ found. listed found ≡ reached_at self.now.graph sleeper (unwrap_or (slice_get self.now.sleeper_entries sleeper) None)) }
    {
        let Some(links) = self.reasons.of(alloc, &self.graph, sleeper)? else {
            return Ok(None);
        };
        let Some(entry) = self.sleeper_entries.as_slice()[sleeper as usize] else {
            return Ok(None);
        };
        let by = before_last(alloc, &self.graph, links.as_slice())?;
        Ok(Some(Reached {
            goroutine: entry.goroutine,
            wait: entry.wait,
            line: entry.line,
            by,
        }))
    }
}
