//! The rule of the mark words, and its steps.
//!
//! `specs/Rule.antt` states the invariant.

use atomic_table::{Join, Play, Split, TableRule};
use golf_model::Graph;
use std::collections::LinkedList;
use std::snapshot::Snapshot;

/// The fixed data of the words: the graph, and the number of seats.
#[derive(Drop)]
pub struct Plan {
    pub graph: Snapshot<Graph>,
    /// The number of seats at the start.
    pub seats: u32,
}

/// The account of a seat. It is a ghost type: no value of it is ever made.
pub struct View {
    pub graph: Graph,
    /// How many of the first seats this one stands for. A split cuts off one, and a join adds them.
    pub parts: u64,
    /// The places that the seat claimed.
    pub claimed: LinkedList<u32>,
    /// The places that the seat knows as marked.
    pub known: LinkedList<u32>,
}

/// The rule of the mark words: of all claims of a place at most one wins.
pub struct Ruled;

impl TableRule<(), View, Plan> for Ruled {
    ghost use Rattle.golf_marks.specs.Rule.{Holds, first_view};

    ghost holds = { Holds };

    ghost first = { first_view };
}

/// The step that claims places of a word.
pub struct Claim;

impl Play<(), View> for Claim {
    ghost use Rattle.golf_marks.specs.Rule.{ClaimTells};

    ghost then = { ClaimTells };
}

/// The step that looks at a place.
pub struct Look;

impl Play<(), View> for Look {
    ghost use Rattle.golf_marks.specs.Rule.{LookTells};

    ghost then = { LookTells };
}

/// The step that looks at all places of a word.
pub struct Glance;

impl Play<(), View> for Glance {
    ghost use Rattle.golf_marks.specs.Rule.{GlanceTells};

    ghost then = { GlanceTells };
}

/// Splits and joins of seats.
pub struct Deal;

impl Split<View> for Deal {
    ghost use Rattle.golf_marks.specs.Rule.{left_view, right_view};

    ghost left = { left_view };

    ghost right = { right_view };
}

impl Join<View> for Deal {
    ghost use Rattle.golf_marks.specs.Rule.{both_views, spent_view};

    ghost both = { both_views };

    ghost spent = { spent_view };
}
