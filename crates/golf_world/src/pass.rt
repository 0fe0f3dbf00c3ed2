//! The pass with which one thread steps a world.

ghost use Rattle.std.specs.Prelude.{◌≡◌, ◌<◌, [], Some};
ghost use Rattle.golf_world.specs.Rule.{pass_view};

use crate::rule::{View, WorldName};
use atomic_table::Seat;
use std::marker::{Model, PhantomData};

/// One pass of a world, for one thread at a time. Contracts see its number, the prefix of the history that
/// it has seen, and the places and numbers of its own entries.
#[derive(Drop)]
pub struct StepPass<W: WorldName> {
    pub(crate) number: u32,
    pub(crate) seat: Option<Seat<(), View>>,
    pub(crate) of: PhantomData<W>,
}

impl<W: WorldName> Model for StepPass<W> {
    ghost use Rattle.std.specs.Prelude.{◌≡◌, ◌<◌};
    ghost use Rattle.golf_world.specs.Steps.{Pass};
    ghost use Rattle.golf_world.specs.Seats.{seen_of, mine_of, IsSeatOfPass};

    ghost Value = { Pass };

    ghost view = { λ p. record { number = p.number; seen = seen_of p.seat; mine = mine_of p.seat } };

    ghost invariant = { λ p. (p.number < W.passes) × IsSeatOfPass W.table W.passes p.number p.seat };
}

impl<W: WorldName> StepPass<W> {
    pub(crate) fn new(number: u32, seat: Seat<(), View>) -> StepPass<W>
        requires number { number < W.passes }
        requires table { seat.table_id ≡ W.table }
        requires view { seat.me ≡ (pass_view W.passes number [] [], []) }
        ensures number { result.number ≡ number }
        ensures seen { result.seen ≡ [] }
        ensures mine { result.mine ≡ [] }
    {
        StepPass {
            number,
            seat: Some(seat),
            of: PhantomData,
        }
    }

    /// Returns the number of the pass, from 0 up to one less than the number of passes.
    pub fn number(&self) -> u32
        ensures { result ≡ self.now.number }
    {
        self.number
    }

    /// Returns the seat of the pass.
    pub(crate) fn into_seat(self) -> Seat<(), View>
        ensures table { result.table_id ≡ W.table }
        ensures view { result.me ≡ (pass_view W.passes self.number self.mine self.seen, []) }
    {
        let StepPass {
            number: _,
            seat,
            of: _,
        } = self;
        let Some(seat) = seat else { unreachable!() };
        seat
    }
}
