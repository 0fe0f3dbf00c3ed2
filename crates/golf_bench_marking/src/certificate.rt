//! Measures a certificate, its check and all reasons, beside the marking.

use golf_base::OpenGate;
use golf_cert::{Reasons, Verdict, certify, verify};
use golf_mark::mark_alone;
use golf_model::Graph;
use golf_tests_support::BenchFault;
use std::alloc::Global;
use std::fmt::{Display, Formatter, Write};
use std::rt::Clock;
use std::time::Instant;

/// The times of certifying one graph, in nanoseconds.
#[derive(Clone, Copy, Debug)]
pub(crate) struct Certified {
    /// How many links the certificate has.
    links: usize,
    verdict: Verdict,
    /// The time of the marking in one thread.
    mark: u128,
    certify: u128,
    verify: u128,
    /// The time of preparing the reasons of all sleepers.
    reasons: u128,
}

impl Display for Certified {
    fn fmt<W: Write>(&self, f: &mut Formatter<W>) -> std::fmt::Result {
        write!(
            f,
            "{} links, {:?}, {} ns to mark, {} ns to certify, {} ns to verify, {} ns for reasons",
            self.links, self.verdict, self.mark, self.certify, self.verify, self.reasons
        )
    }
}

/// Marks a graph, certifies the marking, checks the certificate, and prepares the reasons of all sleepers.
/// Returns the times.
pub(crate) fn measure_certificate<R: Clock>(
    rt: &R,
    alloc: Global,
    graph: &Graph,
) -> Result<Certified, BenchFault> {
    let start = Instant::now(rt)?;
    let marked = mark_alone(alloc, graph, &OpenGate)?;
    let mark = start.elapsed(rt)?.as_nanos();
    let start = Instant::now(rt)?;
    let certificate = certify(alloc, graph, &marked)?;
    let certify = start.elapsed(rt)?.as_nanos();
    let start = Instant::now(rt)?;
    let verdict = verify(alloc, graph, &certificate)?;
    let verify = start.elapsed(rt)?.as_nanos();
    let start = Instant::now(rt)?;
    let _reasons = Reasons::new(alloc, graph)?;
    let reasons = start.elapsed(rt)?.as_nanos();
    Ok(Certified {
        links: certificate.links.len(),
        verdict,
        mark,
        certify,
        verify,
        reasons,
    })
}
