//! Tests of certificates: their verdicts, and the certificate that `certify` makes.

ghost use Rattle.std.specs.Prelude.{◌^◌, ◌≡◌, ◌<◌, IfOk, length};

use crate::marking::examples::{TWO_NODES, TWO_PARENTS, graph_of};
use golf_base::{List, Memory, OpenGate};
use golf_cert::{Certificate, Link, Verdict, certify, verify};
use golf_mark::mark_alone;
use golf_model::Graph;
use std::alloc::Global;
use std::process::Abort;
use std::test::Fail;

fn certificate(alloc: Global, links: &[Link]) -> Result<Certificate, Memory>
    ensures { IfOk result (λ made. made.links ≡ links.now) }
{
    let mut all = List::new(alloc);
    all.extend_from_slice(links)?;
    Ok(Certificate { links: all })
}

// The verdict on these links.
fn verdict(alloc: Global, graph: &Graph, links: &[Link]) -> Result<Verdict, Memory>
    requires { length links.now < 2 ^ 32 }
{
    let made = certificate(alloc, links)?;
    verify(alloc, graph, &made)
}

// Fails the test unless this is the verdict on these links of the graph of two nodes.
fn is_judged(rt: &impl Abort, alloc: Global, links: &[Link], wanted: Verdict) -> Result<(), Fail>
    requires { length links.now < 2 ^ 32 }
{
    let graph = graph_of(alloc, TWO_NODES)?;
    assert!(rt; verdict(alloc, &graph, links)? == wanted);
    Ok(())
}

#[test]
fn a_certificate_is_proved_or_refused_at_an_entry(rt: HostRuntime) -> Result<(), Fail> {
    let (alloc, root) = (rt.alloc(), Link::Root(0));
    let child = Link::Child { from: 0, to: 1 };
    is_judged(&rt, alloc, &[root, child], Verdict::Proved)?;
    is_judged(&rt, alloc, &[root], Verdict::Refused(1))?;
    is_judged(&rt, alloc, &[child, root], Verdict::Refused(0))?;
    is_judged(&rt, alloc, &[Link::Root(5)], Verdict::Refused(0))
}

// Whether the certificate of a marking has this number of links and is proved.
fn is_certified(alloc: Global, graph: &Graph, links: usize) -> Result<bool, Memory> {
    let marked = mark_alone(alloc, graph, &OpenGate)?;
    let made = certify(alloc, graph, &marked)?;
    let verdict = verify(alloc, graph, &made)?;
    Ok(made.links.len() == links && verdict == Verdict::Proved)
}

#[test]
fn a_marking_has_a_certificate_of_one_link_a_place(rt: HostRuntime) -> Result<(), Fail> {
    let graph = graph_of(rt.alloc(), TWO_PARENTS)?;
    // The nodes 0, 1, 3 and 4, and the sleepers 0 and 1.
    assert!(rt; is_certified(rt.alloc(), &graph, 6)?);
    Ok(())
}
