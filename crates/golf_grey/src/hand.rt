//! The hand of one marker, with which it pushes, takes and steals.
//!
//! Only one thread at a time uses a hand.

ghost use Rattle.std.specs.Prelude.{◌≡◌, ◌<◌};
ghost use Rattle.crossbeam_deque.specs.Handles.{worker_flavor, worker_view};

use crate::rule::{GreyView, Owner};
use crossbeam_deque::Pass;

/// One deque of its own, and a pass for each deque. It also has the space that the end of the pool needs.
#[derive(Drop)]
pub struct GreyHand {
    pub(crate) own: Owner,
    pub(crate) passes: Vec<Pass<u32, GreyView>>,
    pub(crate) number: usize,
    pub(crate) owners: Vec<Owner>,
    pub(crate) rows: Vec<Vec<Pass<u32, GreyView>>>,
    ghost fifo: { worker_flavor own ≡ 0 },
    ghost live: { 0 < (worker_view own).parts },
}
