//! Helpers of tests and measurements: graphs, gates, codes and turns.
//!
//! - Graphs are made place by place, of a shape, or pseudo-random.
//! - Gates watch how markers run.
//! - Codes are made by hand or from texts, and stepped turn by turn.
#![tactic(auto)]

mod codes;
mod counts;
mod fault;
mod gates;
mod graph_maker;
mod instruction_texts;
mod numbers;
mod random;
mod shapes;
mod turns;

pub use codes::{can_run, code, function, lines};
pub use counts::{count_finalisers, count_goroutines};
pub use fault::BenchFault;
pub use gates::{CountingGate, MeetingGate, StealingGate};
pub use graph_maker::{GraphFault, GraphMaker};
pub use instruction_texts::{TextFault, instrs};
pub use numbers::Numbers;
pub use random::random_graph;
pub use shapes::{Shape, shaped};
pub use turns::take_turn;
