//! Tests of reasons: of two parents a reason names the smaller one.

ghost use Rattle.std.specs.Prelude.{◌<◌};
ghost use Rattle.golf_model.specs.Graph.{sleeper_count};

use crate::marking::examples::{TWO_PARENTS, graph_of};
use golf_base::{List, Memory};
use golf_cert::{Link, Reasons, reason};
use golf_model::Graph;
use std::alloc::Global;
use std::process::Abort;
use std::test::Fail;

// The roots 0 and 1 both refer to node 3. The reason has the smaller one.
const REASON: [Link; 5] = [
    Link::Root(0),
    Link::Child { from: 0, to: 3 },
    Link::Woken {
        node: 3,
        sleeper: 0,
    },
    Link::Held {
        sleeper: 0,
        node: 4,
    },
    Link::Woken {
        node: 4,
        sleeper: 1,
    },
];

// Whether a reason has these links. No links stand for no reason.
fn has_links(found: Option<List<Link>>, wanted: &[Link]) -> bool {
    match found {
        Some(links) => !wanted.is_empty() && links.as_slice() == wanted,
        None => wanted.is_empty(),
    }
}

// Whether a sleeper has a reason of these links: the reason that is made alone, and the prepared one.
fn is_reason(alloc: Global, graph: &Graph, sleeper: u32, wanted: &[Link]) -> Result<bool, Memory>
    requires { sleeper < sleeper_count graph.now }
{
    let alone = has_links(reason(alloc, graph, sleeper)?, wanted);
    let reasons = Reasons::new(alloc, graph)?;
    let prepared = has_links(reasons.of(alloc, graph, sleeper)?, wanted);
    Ok(alone && prepared)
}

// Fails the test unless this sleeper of the graph with two parents has a reason of these links.
fn has_reason(rt: &impl Abort, alloc: Global, sleeper: u32, wanted: &[Link]) -> Result<(), Fail> {
    let graph = graph_of(alloc, TWO_PARENTS)?;
    assert!(rt; graph.sleepers() == 3 && sleeper < 3);
    let same = is_reason(alloc, &graph, sleeper, wanted)?;
    assert!(rt; same, "the sleeper {sleeper}");
    Ok(())
}

#[test]
fn a_reason_goes_by_the_less_of_two_parents(rt: HostRuntime) -> Result<(), Fail> {
    has_reason(&rt, rt.alloc(), 1, &REASON)
}

#[test]
fn a_sleeper_that_is_not_reached_has_no_reason(rt: HostRuntime) -> Result<(), Fail> {
    has_reason(&rt, rt.alloc(), 2, &[])
}
