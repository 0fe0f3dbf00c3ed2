//! Measures the marking. It understands these words:
//!
//! - `SHAPE NODES MARKERS` makes a graph of that shape with that many nodes. It marks the graph by that
//!   many markers, or in one thread for 0, and prints the times. A shape is `list`, `shuffled`, `tree`,
//!   `quad`, `random` or `dense`.
//! - `certificate SHAPE PLACES` marks a graph in one thread, certifies the marking, checks the certificate,
//!   and prepares the reasons of all sleepers. It prints the times. Two more shapes are `star`, and
//!   `relay`, half of whose places are sleepers.
//! - Without a word it marks a small graph of each shape, and prints how many nodes are marked.
#![tactic(auto)]

mod certificate;
mod graphs;
mod measure;
mod order;

use certificate::measure_certificate;
use golf_tests_support::{BenchFault, Shape, shaped};
use graphs::graph_of;
use measure::{count_marked, measure};
use order::{Order, read_certificate_order, read_order};
use std::env;

/// All shapes.
const SHAPES: [Shape; 6] = [
    Shape::List,
    Shape::Shuffled,
    Shape::Tree,
    Shape::Quad,
    Shape::Random,
    Shape::Dense,
];

/// How many nodes the small graphs have.
const SMALL: u32 = 1000;

fn main(rt: HostRuntime) -> Result<(), BenchFault> {
    let words = env::args(&rt)?.skip(1).collect::<Vec<String>>(rt.alloc())?;
    if words.is_empty() {
        for shape in SHAPES {
            let graph = shaped(rt.alloc(), shape, SMALL)?;
            let marked = count_marked(&rt, rt.alloc(), &graph)?;
            println!(rt; "{shape:?}: {marked} of {SMALL} nodes are marked")?;
        }
        return Ok(());
    }
    if let Some(order) = read_certificate_order(words.as_slice()) {
        let graph = graph_of(rt.alloc(), order.places, order.count)?;
        let took = measure_certificate(&rt, rt.alloc(), &graph)?;
        println!(rt; "{:?}, {} places: {took}", order.places, order.count)?;
        return Ok(());
    }
    let Some(
        Order {
            shape,
            nodes,
            markers,
        },
    ) = read_order(words.as_slice())
    else {
        eprintln!(rt;
            "usage: golf_bench_marking [list|shuffled|tree|quad|random|dense NODES MARKERS]"
        )?;
        eprintln!(rt;
            "       golf_bench_marking certificate list|shuffled|tree|quad|random|dense|star|relay PLACES"
        )?;
        return Ok(());
    };
    let graph = shaped(rt.alloc(), shape, nodes)?;
    let took = measure(&rt, rt.alloc(), &graph, markers)?;
    println!(rt; "{shape:?}, {nodes} nodes, {markers} markers: {took}")?;
    Ok(())
}
