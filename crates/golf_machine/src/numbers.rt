//! The numbers of turns that are taken in one batch.
//!
//! `take_turns` asks for one number before each turn.

ghost use Rattle.std.specs.Prelude.{◌≡◌, ◌+◌, ◌∷◌, ℕ, List, false, MatchOption};
ghost use Rattle.golf_model.specs.Runs.{Event};
ghost use Rattle.golf_machine.specs.Batches.{is_turn_next};

/// The source of the numbers of turns.
pub trait Numbers {
    /// The events that are still to come.
    ghost left: { Self → List Event };

    /// How many numbers were given.
    ghost given: { Self → ℕ };

    /// Returns the number of the next turn, or `None` if the next event is not a turn.
    fn next(&mut self) -> Option<u64>
        ensures { MatchOption result
            ((is_turn_next (left self.old) ≡ false) × (left self.new ≡ left self.old) × (given self.new ≡ given self.old))
            (λ c. (left self.old ≡ Event.Turn c ∷ left self.new) × (given self.new ≡ given self.old + 1)) };
}
