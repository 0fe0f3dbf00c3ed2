//! The rule of one deque, and its steps.
//!
//! `specs/Rule.antt` states the invariant.

use crossbeam_deque::protocol::{Join, Lesson, Outcome, Protocol, Split};
use crossbeam_deque::{Stealer, Worker};
use std::alloc::Global;
use std::collections::LinkedList;

/// The account of one hand on one deque. It is a ghost type: no value of it is ever made.
pub struct GreyView {
    /// How many parts of the deque it stands for. A pass is cut off with one part, and gives it back.
    pub parts: u64,
    /// 1 for the owner of the deque, and 0 for each other hand.
    pub pushers: u64,
    /// All places in the deque are below this number.
    pub places: u64,
    /// No more places than this are pushed to the deque.
    pub capacity: u64,
    pub pushed: LinkedList<u32>,
    pub taken: LinkedList<u32>,
}

/// The rule of one deque of grey places: what all its handles saw agrees with what lies in it.
pub struct Grey;

impl Protocol<u32, GreyView> for Grey {
    ghost use Rattle.golf_grey.specs.Rule.{Balanced, first_view, spent_view};

    ghost holds = { λ items views. Balanced items views };

    ghost first = { first_view };

    ghost guest = { spent_view };
}

/// A push: how the view of the pusher changes.
pub struct Push;

impl Outcome<u32, GreyView> for Push {
    ghost use Rattle.golf_grey.specs.Rule.{Pushed};

    ghost then = { λ v xs w. Pushed v xs w };
}

/// A take, by the owner or by a thief: how the view of the taker changes.
pub struct Take;

impl Outcome<u32, GreyView> for Take {
    ghost use Rattle.golf_grey.specs.Rule.{TakesPlaces, WasEmpty};

    ghost then = { λ v xs w. TakesPlaces v xs w };

    ghost empty = { WasEmpty };
}

/// The step in which the second of two numbers leaves the deque. Afterwards its owner's view has both.
pub struct Name;

impl Outcome<u32, GreyView> for Name {
    ghost use Rattle.golf_grey.specs.Rule.{Named, WasEmpty};

    ghost then = { λ v xs w. Named v w };

    ghost empty = { WasEmpty };
}

/// A count of the places in a deque. It says nothing that lasts.
pub struct Count;

impl Lesson<u32, GreyView> for Count {
    ghost use Rattle.std.specs.Prelude.{⊤};

    ghost fact = { λ v items. ⊤ };
}

/// Splits and joins of passes.
pub struct Deal;

impl Split<GreyView> for Deal {
    ghost use Rattle.golf_grey.specs.Rule.{left_view, right_view};

    ghost left = { left_view };

    ghost right = { right_view };
}

impl Join<GreyView> for Deal {
    ghost use Rattle.golf_grey.specs.Rule.{both_views, spent_view};

    ghost both = { both_views };

    ghost spent = { spent_view };
}

/// The end of a deque where its own hand pushes and takes.
pub type Owner = Worker<u32, Global, GreyView, Grey>;

/// The end of a deque where other hands take.
pub type Thief = Stealer<u32, Global, GreyView, Grey>;
